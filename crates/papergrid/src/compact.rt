//! A grid whose rows take one line each.
ghost use Rattle.std.specs.Prelude.{◌≡◌, ◌++◌, ◌⊎◌, Err, IfErr, IfOk, Ok, OnErr, OnOk, string_bytes};
ghost use Rattle.grid_config_values.specs.declared.fault.Fault.TheVariants.{Memory};
ghost use Rattle.grid_config.specs.Compact.{compact_of};
ghost use Rattle.grid_config.specs.Looks.{compact_look};
ghost use Rattle.grid_config.specs.Settings.{StartsWith, compact_start};
ghost use Rattle.papergrid_picture.specs.Fitting.{FitsAnswer};
ghost use Rattle.papergrid_picture.specs.Tables.{sizes_of, table_text};
ghost use Rattle.papergrid.specs.Compact.{without_high_padding, lined, one_line};

use crate::printing::print_fitting;
use crate::read::read;
use grid_config::{CompactConfig, Fault, Indent, Sides, SpannedConfig};
use grid_records_traits::{Dimension, PeekableRecords, RecordColumns, Records};
use papergrid_print::Colors;
use std::alloc::{AllocError, Global};
use std::marker::Model;

/// A grid whose rows take one line each: records, compact settings, sizes and the colours of cells'
/// texts.
#[derive(Debug, Drop)]
pub struct CompactGrid<R, D, G, C> {
    records: R,
    dimension: D,
    config: G,
    colors: C,
}

impl<R, D, G, C> Model for CompactGrid<R, D, G, C> {
    ghost use Rattle.papergrid.specs.GridParts.{Parts};

    ghost Value = { Parts R G D C };

    ghost view = { λ grid. record {
      records = grid.records;
      settings = grid.config;
      sizes = grid.dimension;
      colors = grid.colors;
    } };
}

impl<R, D, G, C> CompactGrid<R, D, G, C> {
    /// The grid of these four. Does not allocate.
    pub fn new(records: R, cfg: G, dims: D, colors: C) -> CompactGrid<R, D, G, C>
        ensures { result ≡ record { records = records; settings = cfg; sizes = dims; colors = colors } }
    {
        CompactGrid {
            records,
            dimension: dims,
            config: cfg,
            colors,
        }
    }
}

impl<'a, R: Records, D: Dimension + Drop, C: Colors + Drop> CompactGrid<
    R,
    D,
    &'a CompactConfig,
    C,
> {
    ghost use Rattle.grid_records_traits.specs.Rows.{evened};
    ghost use Rattle.papergrid.specs.Compact.{FitsCompact, IsCompactAnswer, compact_text};

    /// Appends the text of the grid: its lines, joined by line feeds. Each row takes one line, with the first lines
    /// of its cells. Heights and the padding above and below texts are ignored. A cell still needs the columns of its
    /// widest line. Reads all records once, each row with as many cells as there are columns; the hint decides
    /// nothing.
    ///
    /// A refusal leaves the text as it was:
    /// - `Range` where the columns of a line, or the lines, pass `usize::MAX`, margins too;
    /// - else `Room` of the first cell, by row, then by column, whose widest line with the paddings at its sides is
    ///   wider than its column;
    /// - `Memory` where allocation fails.
    pub fn build(self, alloc: Global, out: &mut String) -> Result<(), Fault>
        ensures text { let rows = evened (R.columns self.entry.records) (R.rows self.entry.records) in OnOk result (string_bytes out.new ≡ string_bytes out.old
            ++ compact_text (compact_of self.entry.settings.now) (D.width self.entry.sizes) (R.columns self.entry.records) rows (C.color self.entry.colors)) }
        ensures fits { IfOk result (λ _. FitsCompact (compact_of self.entry.settings.now) (D.width self.entry.sizes)
            (R.columns self.entry.records) (evened (R.columns self.entry.records) (R.rows self.entry.records))) }
        ensures kept { OnErr result (string_bytes out.new ≡ string_bytes out.old) }
        ensures fault { IfErr result (λ fault. (fault ≡ Memory)
            ⊎ IsCompactAnswer (compact_of self.entry.settings.now) (D.width self.entry.sizes) (R.columns self.entry.records)
            (evened (R.columns self.entry.records) (R.rows self.entry.records)) (Err fault)) }
    {
        let CompactGrid {
            records,
            dimension,
            config,
            colors,
        } = self;
        let columns = records.count_columns();
        let table = read(alloc, records)?;
        print_lines(
            alloc,
            &table,
            config,
            &dimension,
            &colors,
            table.rows.len(),
            columns,
            out,
        )
    }

    /// The text that `build` appends to an empty one, or its refusal.
    pub fn to_string(self, alloc: Global) -> Result<String, Fault>
        ensures text { let rows = evened (R.columns self.entry.records) (R.rows self.entry.records) in IfOk result (λ text. string_bytes text
            ≡ compact_text (compact_of self.entry.settings.now) (D.width self.entry.sizes) (R.columns self.entry.records) rows (C.color self.entry.colors)) }
        ensures fits { IfOk result (λ _. FitsCompact (compact_of self.entry.settings.now) (D.width self.entry.sizes)
            (R.columns self.entry.records) (evened (R.columns self.entry.records) (R.rows self.entry.records))) }
        ensures fault { IfErr result (λ fault. (fault ≡ Memory)
            ⊎ IsCompactAnswer (compact_of self.entry.settings.now) (D.width self.entry.sizes) (R.columns self.entry.records)
            (evened (R.columns self.entry.records) (R.rows self.entry.records)) (Err fault)) }
    {
        let mut text = String::new(alloc);
        self.build(alloc, &mut text)?;
        Ok(text)
    }
}

// Appends the text of `rows` rows and `columns` columns of records, each row in one line.
fn print_lines<R: PeekableRecords, D: Dimension, C: Colors>(
    alloc: Global,
    records: &R,
    cfg: &CompactConfig,
    dims: &D,
    colors: &C,
    rows: usize,
    columns: usize,
    out: &mut String,
) -> Result<(), Fault>
    ensures text { OnOk result (string_bytes out.new ≡ string_bytes out.old
        ++ table_text (compact_look (without_high_padding (compact_of cfg.now))) (R.rows records.now) (C.color colors.now) (sizes_of (D.width dims.now) columns) (sizes_of one_line rows)) }
    ensures fits { IfOk result (λ done. FitsAnswer (lined (compact_of cfg.now) (D.width dims.now) columns rows) (R.rows records.now) (Unit {0}) (Ok done)) }
    ensures kept { OnErr result (string_bytes out.new ≡ string_bytes out.old) }
    ensures fault { IfErr result (λ fault. (fault ≡ Memory)
        ⊎ FitsAnswer (lined (compact_of cfg.now) (D.width dims.now) columns rows) (R.rows records.now) (Unit {0}) (Err fault)) }
{
    let settings = settings_without_high_padding(alloc, cfg)?;
    let sizes = OneLine(dims);
    let outcome = print_fitting(
        alloc, records, &settings, &sizes, colors, rows, columns, out,
    );
    drop(settings);
    outcome
}

// The settings without padding above and below texts.
fn settings_without_high_padding(
    alloc: Global,
    cfg: &CompactConfig,
) -> Result<SpannedConfig, AllocError>
    ensures { IfOk result (StartsWith (compact_start (without_high_padding (compact_of cfg.now)))) }
{
    let padding = *cfg.get_padding();
    let padding = Sides::new(
        padding.left,
        padding.right,
        Indent::new(0, padding.top.fill),
        Indent::new(0, padding.bottom.fill),
    );
    SpannedConfig::from_compact_config(alloc, cfg.set_padding(padding))
}

// Sizes with one line in each row.
#[derive(Drop)]
struct OneLine<'a, D>(&'a D);

impl<'a, D: Dimension> Dimension for OneLine<'a, D> {
    ghost width = { λ sizes. D.width sizes.0.now };

    ghost height = { λ _ _. 1 };

    fn get_width(&self, column: usize) -> usize {
        self.0.get_width(column)
    }

    fn get_height(&self, _row: usize) -> usize {
        1
    }
}
