//! A grid whose records are read once.
use crate::printing::print_fitting;
use crate::read::read;
use grid_config::{Fault, SpannedConfig};
use grid_records_traits::{Dimension, RecordColumns, Records};
use papergrid_print::Colors;
use std::alloc::Global;
use std::marker::Model;

/// A grid whose records are read once, row by row: records, settings, sizes and the colours of cells'
/// texts.
#[derive(Debug, Drop)]
pub struct IterGrid<R, D, G, C> {
    records: R,
    dimension: D,
    config: G,
    colors: C,
}

impl<R, D, G, C> Model for IterGrid<R, D, G, C> {
    ghost use Rattle.papergrid.specs.GridParts.{Parts};

    ghost Value = { Parts R G D C };

    ghost view = { λ grid. record {
      records = grid.records;
      settings = grid.config;
      sizes = grid.dimension;
      colors = grid.colors;
    } };
}

impl<R, D, G, C> IterGrid<R, D, G, C> {
    ghost use Rattle.std.specs.Prelude.{◌≡◌};

    /// The grid of these four. Does not allocate.
    pub fn new(records: R, cfg: G, dims: D, colors: C) -> IterGrid<R, D, G, C>
        ensures { result ≡ record { records = records; settings = cfg; sizes = dims; colors = colors } }
    {
        IterGrid {
            records,
            dimension: dims,
            config: cfg,
            colors,
        }
    }
}

impl<'a, R: Records, D: Dimension + Drop, C: Colors + Drop> IterGrid<R, D, &'a SpannedConfig, C> {
    ghost use Rattle.std.specs.Prelude.{◌≡◌, ◌++◌, ◌⊎◌, Err, IfErr, IfOk, OnErr, OnOk, string_bytes};
    ghost use Rattle.grid_config_values.specs.declared.fault.Fault.TheVariants.{Memory};
    ghost use Rattle.grid_config.specs.Looks.{look_of};
    ghost use Rattle.grid_config_values.specs.Spans.Spans.{ArePositive};
    ghost use Rattle.grid_records_traits.specs.Rows.{evened};
    ghost use Rattle.papergrid_fits.specs.Tables.{CanBeDrawn, IsFitsAnswer};
    ghost use Rattle.papergrid_fits.specs.Grids.{grid_text};

    /// Appends the text of the grid: its lines, joined by line feeds. Reads all records once, each row with as many
    /// cells as there are columns; the hint decides nothing. Refused as `fits` refuses that table, with the same
    /// errors in the same order, or as `Memory` where allocation fails. A refusal leaves the text as it was.
    pub fn build(self, alloc: Global, out: &mut String) -> Result<(), Fault>
        ensures text { let rows = evened (R.columns self.entry.records) (R.rows self.entry.records) in OnOk result (string_bytes out.new ≡ string_bytes out.old
            ++ grid_text (look_of self.entry.settings.now) (D.width self.entry.sizes) (D.height self.entry.sizes) (C.color self.entry.colors) (R.columns self.entry.records) rows) }
        ensures fits { IfOk result (λ _. CanBeDrawn self.entry.settings.now (D.width self.entry.sizes) (D.height self.entry.sizes)
            (R.columns self.entry.records) (evened (R.columns self.entry.records) (R.rows self.entry.records))) }
        ensures positive { OnOk result (ArePositive self.entry.settings.now.spans) }
        ensures kept { OnErr result (string_bytes out.new ≡ string_bytes out.old) }
        ensures fault { IfErr result (λ fault. (fault ≡ Memory)
            ⊎ IsFitsAnswer self.entry.settings.now (D.width self.entry.sizes) (D.height self.entry.sizes) (R.columns self.entry.records)
            (evened (R.columns self.entry.records) (R.rows self.entry.records)) (Err fault)) }
    {
        let IterGrid {
            records,
            dimension,
            config,
            colors,
        } = self;
        let columns = records.count_columns();
        let table = read(alloc, records)?;
        print_fitting(
            alloc,
            &table,
            config,
            &dimension,
            &colors,
            table.rows.len(),
            columns,
            out,
        )
    }

    /// The text that `build` appends to an empty one, or its refusal.
    pub fn to_string(self, alloc: Global) -> Result<String, Fault>
        ensures text { let rows = evened (R.columns self.entry.records) (R.rows self.entry.records) in IfOk result (λ text. string_bytes text
            ≡ grid_text (look_of self.entry.settings.now) (D.width self.entry.sizes) (D.height self.entry.sizes) (C.color self.entry.colors) (R.columns self.entry.records) rows) }
        ensures fits { IfOk result (λ _. CanBeDrawn self.entry.settings.now (D.width self.entry.sizes) (D.height self.entry.sizes)
            (R.columns self.entry.records) (evened (R.columns self.entry.records) (R.rows self.entry.records))) }
        ensures positive { OnOk result (ArePositive self.entry.settings.now.spans) }
        ensures fault { IfErr result (λ fault. (fault ≡ Memory)
            ⊎ IsFitsAnswer self.entry.settings.now (D.width self.entry.sizes) (D.height self.entry.sizes) (R.columns self.entry.records)
            (evened (R.columns self.entry.records) (R.rows self.entry.records)) (Err fault)) }
    {
        let mut text = String::new(alloc);
        self.build(alloc, &mut text)?;
        Ok(text)
    }
}
