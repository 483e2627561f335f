//! A grid whose cells are looked up.
use crate::lines::count_sized_lines;
use crate::printing::{print_sized, print_sized_line, write_sized, write_sized_lines};
use grid_config::{Fault, SpannedConfig};
use grid_records_traits::{Dimension, ExactRecords, PeekableRecords};
use papergrid_print::{Colors, LineChoice};
use std::alloc::{AllocError, Global};
use std::io::Write;
use std::marker::Model;
use tabled_output::{Counted, WriteFault};

/// A grid whose cells are looked up: records, settings, sizes and the colours of cells' texts.
#[derive(Debug, Drop)]
pub struct PeekableGrid<R, G, D, C> {
    records: R,
    config: G,
    dimension: D,
    colors: C,
}

impl<R, G, D, C> Model for PeekableGrid<R, G, D, C> {
    ghost use Rattle.papergrid.specs.GridParts.{Parts};

    ghost Value = { Parts R G D C };

    ghost view = { λ grid. record {
      records = grid.records;
      settings = grid.config;
      sizes = grid.dimension;
      colors = grid.colors;
    } };
}

impl<R, G, D, C> PeekableGrid<R, G, D, C> {
    ghost use Rattle.std.specs.Prelude.{◌≡◌};

    /// The grid of these four. Does not allocate.
    pub fn new(records: R, cfg: G, dims: D, colors: C) -> PeekableGrid<R, G, D, C>
        ensures { result ≡ record { records = records; settings = cfg; sizes = dims; colors = colors } }
    {
        PeekableGrid {
            records,
            config: cfg,
            dimension: dims,
            colors,
        }
    }
}

impl<'a, R: ExactRecords + PeekableRecords, D: Dimension, C: Colors> PeekableGrid<
    R,
    &'a SpannedConfig,
    D,
    C,
> {
    ghost use Rattle.std.specs.Prelude.{◌≡◌, ◌<◌, ◌++◌, [], IfErr, IfOk, IsOk, OnErr, OnOk, length, string_bytes};
    ghost use Rattle.grid_config_values.specs.declared.fault.Fault.TheVariants.{Memory};
    ghost use Rattle.grid_config.specs.Looks.{look_of};
    ghost use Rattle.papergrid_picture.specs.Frame.{line_count};
    ghost use Rattle.papergrid_fits.specs.Tables.{CanBeDrawn, table_frame};
    ghost use Rattle.papergrid.specs.GridParts.{chosen_grid_text, line_text};
    ghost use Rattle.papergrid_fits.specs.Grids.{grid_text};
    ghost use Rattle.tabled_output.specs.Pieces.{Passes};

    /// How many lines `build` appends, under the same condition: those of the margins too, and none where there
    /// are no rows or no columns. Does not allocate.
    pub fn lines(&self) -> usize
        requires { CanBeDrawn self.now.settings.now (D.width self.now.sizes) (D.height self.now.sizes) (R.columns self.now.records) (R.rows self.now.records) }
        ensures { result ≡ line_count (table_frame self.now.settings.now (D.width self.now.sizes) (D.height self.now.sizes) (R.columns self.now.records) (R.rows self.now.records)) }
    {
        count_sized_lines(
            self.config,
            &self.dimension,
            self.records.count_rows(),
            self.records.count_columns(),
        )
    }

    /// Appends the text of the grid: its lines, joined by line feeds. The condition: `fits` returns that the table
    /// fits its sizes. Without rows or columns it appends nothing, and never fails. Otherwise it fails only where
    /// allocation fails, and then leaves the text as it was.
    pub fn build(&self, alloc: Global, out: &mut String) -> Result<(), Fault>
        requires { CanBeDrawn self.now.settings.now (D.width self.now.sizes) (D.height self.now.sizes) (R.columns self.now.records) (R.rows self.now.records) }
        ensures text { OnOk result (string_bytes out.new ≡ string_bytes out.old
            ++ grid_text (look_of self.now.settings.now) (D.width self.now.sizes) (D.height self.now.sizes) (C.color self.now.colors) (R.columns self.now.records) (R.rows self.now.records)) }
        ensures kept { OnErr result (string_bytes out.new ≡ string_bytes out.old) }
        ensures fault { IfErr result (λ fault. fault ≡ Memory) }
        ensures no_rows { length (R.rows self.now.records) ≡ 0 → IsOk result }
        ensures no_columns { R.columns self.now.records ≡ 0 → IsOk result }
    {
        let rows = self.records.count_rows();
        let columns = self.records.count_columns();
        print_sized(
            alloc,
            &self.records,
            self.config,
            &self.dimension,
            &self.colors,
            rows,
            columns,
            out,
        )?;
        Ok(())
    }

    /// The text that `build` appends to an empty one, under the same condition. Without rows or columns it never
    /// fails; otherwise only where allocation fails.
    pub fn to_string(&self, alloc: Global) -> Result<String, Fault>
        requires { CanBeDrawn self.now.settings.now (D.width self.now.sizes) (D.height self.now.sizes) (R.columns self.now.records) (R.rows self.now.records) }
        ensures text { IfOk result (λ text. string_bytes text
            ≡ grid_text (look_of self.now.settings.now) (D.width self.now.sizes) (D.height self.now.sizes) (C.color self.now.colors) (R.columns self.now.records) (R.rows self.now.records)) }
        ensures fault { IfErr result (λ fault. fault ≡ Memory) }
        ensures no_rows { length (R.rows self.now.records) ≡ 0 → IsOk result }
        ensures no_columns { R.columns self.now.records ≡ 0 → IsOk result }
    {
        let mut text = String::new(alloc);
        self.build(alloc, &mut text)?;
        Ok(text)
    }

    /// Appends line `y` of the text that `build` appends, without a line feed, under the same condition and where
    /// `y` is below `lines`. It fails only where allocation fails, and then leaves the text as it was. Each call
    /// walks the heights of the rows above; for all lines in turn use `build` or `write`.
    pub fn build_line(&self, alloc: Global, y: usize, out: &mut String) -> Result<(), Fault>
        requires fits { CanBeDrawn self.now.settings.now (D.width self.now.sizes) (D.height self.now.sizes) (R.columns self.now.records) (R.rows self.now.records) }
        requires line { y < line_count (table_frame self.now.settings.now (D.width self.now.sizes) (D.height self.now.sizes) (R.columns self.now.records) (R.rows self.now.records)) }
        ensures text { OnOk result (string_bytes out.new ≡ string_bytes out.old
            ++ line_text (look_of self.now.settings.now) (D.width self.now.sizes) (D.height self.now.sizes) (C.color self.now.colors) (R.columns self.now.records) (R.rows self.now.records) y) }
        ensures kept { OnErr result (string_bytes out.new ≡ string_bytes out.old) }
        ensures fault { IfErr result (λ fault. fault ≡ Memory) }
    {
        let rows = self.records.count_rows();
        let columns = self.records.count_columns();
        print_sized_line(
            alloc,
            &self.records,
            self.config,
            &self.dimension,
            &self.colors,
            rows,
            columns,
            y,
            out,
        )?;
        Ok(())
    }

    /// Writes the text that `build` appends to an empty one, under the same condition, line by line. Each line is
    /// written as soon as it is made, in one piece with the line feed before it. No more than one line is held.
    ///
    /// `Ok(Err(..))` where the writer gives up: a prefix of the text was then taken, and the writer is not called
    /// again. Where allocation fails, a prefix may have been taken too.
    pub fn write<W: Write>(
        &self,
        alloc: Global,
        writer: &mut Counted<W>,
    ) -> Result<Result<(), WriteFault>, AllocError>
        requires fits { CanBeDrawn self.now.settings.now (D.width self.now.sizes) (D.height self.now.sizes) (R.columns self.now.records) (R.rows self.now.records) }
        ensures { Passes W.contents (grid_text (look_of self.now.settings.now) (D.width self.now.sizes) (D.height self.now.sizes)
            (C.color self.now.colors) (R.columns self.now.records) (R.rows self.now.records)) result [] writer.old writer.new }
    {
        let rows = self.records.count_rows();
        let columns = self.records.count_columns();
        write_sized(
            alloc,
            &self.records,
            self.config,
            &self.dimension,
            &self.colors,
            rows,
            columns,
            writer,
        )
    }

    /// Writes the lines of the text of `build` that are chosen by what they show. Each is written with a line feed
    /// after it, as soon as it is made; no other row is drawn. The condition is that of `build`; it gives up as
    /// `write` does.
    pub fn write_lines<W: Write, K: LineChoice>(
        &self,
        alloc: Global,
        writer: &mut Counted<W>,
        choice: &K,
    ) -> Result<Result<(), WriteFault>, AllocError>
        requires fits { CanBeDrawn self.now.settings.now (D.width self.now.sizes) (D.height self.now.sizes) (R.columns self.now.records) (R.rows self.now.records) }
        ensures { Passes W.contents (chosen_grid_text (look_of self.now.settings.now) (D.width self.now.sizes) (D.height self.now.sizes)
            (C.color self.now.colors) (R.columns self.now.records) (R.rows self.now.records)
            (K.chooses choice.now)) result [] writer.old writer.new }
    {
        let rows = self.records.count_rows();
        let columns = self.records.count_columns();
        write_sized_lines(
            alloc,
            &self.records,
            self.config,
            &self.dimension,
            &self.colors,
            rows,
            columns,
            choice,
            0,
            writer,
        )
    }

    /// Writes the same in pieces of many lines: these are held in a buffer of so many bytes, and written once they nearly
    /// fill it. It gives up as `write` does.
    pub fn write_buffered_lines<W: Write, K: LineChoice>(
        &self,
        alloc: Global,
        writer: &mut Counted<W>,
        choice: &K,
        size: usize,
    ) -> Result<Result<(), WriteFault>, AllocError>
        requires fits { CanBeDrawn self.now.settings.now (D.width self.now.sizes) (D.height self.now.sizes) (R.columns self.now.records) (R.rows self.now.records) }
        ensures { Passes W.contents (chosen_grid_text (look_of self.now.settings.now) (D.width self.now.sizes) (D.height self.now.sizes)
            (C.color self.now.colors) (R.columns self.now.records) (R.rows self.now.records)
            (K.chooses choice.now)) result [] writer.old writer.new }
    {
        let rows = self.records.count_rows();
        let columns = self.records.count_columns();
        write_sized_lines(
            alloc,
            &self.records,
            self.config,
            &self.dimension,
            &self.colors,
            rows,
            columns,
            choice,
            size,
            writer,
        )
    }
}
