//! A table over a source of rows, each printed in one line.
ghost use Rattle.std.specs.Borrow.{sem};
ghost use Rattle.std.specs.Io.KnownBytes.{Appends};
ghost use Rattle.std.specs.Prelude.{◌≡◌, ◌++◌, ◌⊎◌, [], Err, IfErr, IfOk, IsErrOf, Ok, OnErr, OnOk, Some, string_bytes};
ghost use Rattle.grid_config.specs.Compact.{compact_of};
ghost use Rattle.grid_config_values.specs.declared.fault.Fault.TheVariants.{Memory};
ghost use Rattle.grid_records_traits.specs.Rows.{evened};
ghost use Rattle.papergrid.specs.Compact.{FitsCompact, IsCompactAnswer, compact_text};
ghost use Rattle.tabled_steps.specs.Outcomes.{MayRefuseStep};
ghost use Rattle.tabled_steps.specs.States.{Steps};
ghost use Rattle.tabled_size.specs.Dimension.Sizes.{given_size};
ghost use Rattle.tabled_size.specs.Dimension.Values.{const_sizes};
ghost use Rattle.tabled_output.specs.Counts.{WritesUntil, inner_of};
ghost use Rattle.tabled_output.specs.Streams.{AppendsFront};
ghost use Rattle.tabled_output.specs.Building.{BuildRefusal, NoTable};
ghost use Rattle.tabled_compact.specs.Lending.{LendsConfig};
ghost use Rattle.tabled_compact.specs.Tables.{CanBeDrawnCompact, IsFitsAnswer, KeepsShape, begun, begun_settings, compacted, no_colors, printed, state_for_options};

use grid_config::{CompactConfig, Fault, Indent, Sides};
use grid_records::{IterRecords, LimitRows, SkipRows};
use grid_records_traits::{Dimension, IntoRecords, RecordTexts};
use papergrid::{CompactGrid, NoColors};
use std::alloc::Global;
use std::io::Write;
use tabled_options::{Padding, Style};
use tabled_output::{BuildFault, Counted, write_all};
use tabled_size::{ConstDimension, ConstSize, ZeroDimension};
use tabled_steps::TableOption;

/// A table over a source of rows, each printed in one line with the first lines of its cells. It is read
/// once, when it is printed, and has the columns that it was given, whatever its rows have.
#[derive(Clone, Debug, Drop)]
pub struct CompactTable<I, D> {
    records: I,
    config: CompactConfig,
    dimension: D,
    columns: usize,
    skipped: usize,
    kept: Option<usize>,
}

/// The settings of a table that no call has changed yet: lines of ASCII. A column of spaces is at the left and
/// right of each text. Does not allocate.
pub const fn begun_config() -> CompactConfig
    ensures { compact_of result ≡ begun_settings }
{
    let padding = Sides::new(
        Indent::spaced(1),
        Indent::spaced(1),
        Indent::spaced(0),
        Indent::spaced(0),
    );
    CompactConfig::new()
        .set_borders(Style::ascii().get_borders())
        .set_padding(padding)
}

impl<I: RecordTexts> CompactTable<I, ConstDimension<0, 0>> {
    /// A table of the rows of this source without columns, each column 2 wide, in lines of ASCII. A column of
    /// spaces is at the left and right of each text. Does not allocate.
    pub const fn new(records: I) -> CompactTable<I, ConstDimension<0, 0>>
        ensures { compacted I.rows ⟦<ConstDimension<0, 0> as Dimension>⟧.width result ≡ begun (I.rows records) (λ _. 2) }
    {
        let dimension = ConstDimension::new(ConstSize::Value(2), ConstSize::Value(1));
        CompactTable::with_dimension(records, dimension)
    }
}

impl<I: RecordTexts, D: Dimension> CompactTable<I, D> {
    /// The same as `new` with these widths. Heights are not read. Does not allocate.
    pub const fn with_dimension(records: I, dimension: D) -> CompactTable<I, D>
        ensures { compacted I.rows D.width result ≡ begun (I.rows records) (D.width dimension) }
    {
        CompactTable {
            records,
            config: begun_config(),
            dimension,
            columns: 0,
            skipped: 0,
            kept: None,
        }
    }

    /// The table with `count` columns: a row that has fewer cells gets empty ones, and further ones are
    /// left out.
    pub const fn columns(self, count: usize) -> CompactTable<I, D>
        ensures { compacted I.rows D.width result ≡ record (compacted I.rows D.width self) { columns = count } }
    {
        CompactTable {
            columns: count,
            ..self
        }
    }

    /// The table of `count` rows at most, counted after those that `skip` passes over.
    pub const fn rows(self, count: usize) -> CompactTable<I, D>
        ensures { compacted I.rows D.width result ≡ record (compacted I.rows D.width self) { kept = Some count } }
    {
        CompactTable {
            kept: Some(count),
            ..self
        }
    }

    /// The table without the first `count` rows of its source.
    pub const fn skip(self, count: usize) -> CompactTable<I, D>
        ensures { compacted I.rows D.width result ≡ record (compacted I.rows D.width self) { skipped = count } }
    {
        CompactTable {
            skipped: count,
            ..self
        }
    }

    /// The settings.
    pub const fn get_config(&self) -> &CompactConfig
        ensures { compact_of result.now ≡ (compacted I.rows D.width self.now).settings }
    {
        &self.config
    }

    /// The settings, to be changed.
    pub const fn get_config_mut(&mut self) -> &mut CompactConfig
        ensures* lends { sem 𝓛 (LendsConfig I.row D.row self.entry result) }
        ensures settings { compact_of result.now ≡ (compacted I.rows D.width self.old).settings }
    {
        &mut self.config
    }
}

impl<I, const COLUMNS: usize, const ROWS: usize> CompactTable<I, ConstDimension<COLUMNS, ROWS>>
where
    I: RecordTexts,
{
    /// The table with these widths: one for all columns, or a list, and 0 past it.
    pub fn width<S: Into<ConstSize<N>>, const N: usize>(
        self,
        size: S,
    ) -> CompactTable<I, ConstDimension<N, ROWS>>
        ensures { (widths : ConstSize N) × S.converts size widths
            × (compacted I.rows ⟦<ConstDimension<N, ROWS> as Dimension>⟧.width result
            ≡ record (compacted I.rows ⟦<ConstDimension<COLUMNS, ROWS> as Dimension>⟧.width self) {
              width = given_size
                  (const_sizes widths);
            }) }
    {
        let (_, heights) = self.dimension.into();
        CompactTable {
            records: self.records,
            config: self.config,
            dimension: ConstDimension::new(size.into(), heights),
            columns: self.columns,
            skipped: self.skipped,
            kept: self.kept,
        }
    }

    /// The table with these heights, which are not read.
    pub fn height<S: Into<ConstSize<N>>, const N: usize>(
        self,
        size: S,
    ) -> CompactTable<I, ConstDimension<COLUMNS, N>>
        ensures { compacted I.rows ⟦<ConstDimension<COLUMNS, N> as Dimension>⟧.width result ≡ compacted I.rows ⟦<ConstDimension<COLUMNS, ROWS> as Dimension>⟧.width self }
    {
        let (widths, _) = self.dimension.into();
        CompactTable {
            records: self.records,
            config: self.config,
            dimension: ConstDimension::new(widths, size.into()),
            columns: self.columns,
            skipped: self.skipped,
            kept: self.kept,
        }
    }
}

impl<I: RecordTexts, D: Dimension> CompactTable<I, D> {
    /// Changes the table by an option: one step of its rows and settings. Refused as the step is, and
    /// as `Memory` where allocation fails, and then nothing has changed.
    pub fn set<O: TableOption<I, CompactConfig, ZeroDimension>>(
        &mut self,
        alloc: Global,
        option: O,
    ) -> Result<(), Fault>
        ensures step { Steps (O.step option) result (state_for_options (compacted I.rows D.width self.old)) (state_for_options (compacted I.rows D.width self.new)) }
        ensures others { KeepsShape (compacted I.rows D.width self.old) (compacted I.rows D.width self.new) }
    {
        let mut sizes = ZeroDimension::new();
        option.change(alloc, &mut self.records, &mut self.config, &mut sizes)
    }

    /// The table, changed by an option, with no promise of what a refused one leaves: `set` has it. Else as
    /// `set`.
    pub fn with<O: TableOption<I, CompactConfig, ZeroDimension>>(
        &mut self,
        alloc: Global,
        option: O,
    ) -> Result<&mut Self, Fault>
        ensures lends { IfOk result (λ table. table.ghost_name ≡ self.entry.ghost_name) }
        ensures step { IfOk result (λ table. O.step option (state_for_options (compacted I.rows D.width self.old)) (Ok (state_for_options (compacted I.rows D.width table.now)))) }
        ensures others { IfOk result (λ table. KeepsShape (compacted I.rows D.width self.old) (compacted I.rows D.width table.now)) }
        ensures refused { IfErr result (λ fault. MayRefuseStep fault (O.step option (state_for_options (compacted I.rows D.width self.old)))) }
    {
        self.set(alloc, option)?;
        Ok(self)
    }
}

impl<I: IntoRecords, D: Dimension + Drop> CompactTable<I, D> {
    /// Appends the text of the table: its lines, a line feed between each two; nothing without columns or rows.
    /// The time is linear in its text and in its columns in each row, those of width 0 too. Reads the source
    /// once. Refused as `Range` where the columns of a line, or the lines, pass `usize::MAX`, margins too. Else
    /// refused as `Room` of the first cell, by row, then by column, whose widest line with the paddings at its
    /// sides is wider than its column. Refused as `Memory` where allocation fails. A refusal leaves the text as
    /// it was.
    pub fn fmt(self, alloc: Global, out: &mut String) -> Result<(), Fault>
        ensures text { OnOk result (string_bytes out.new ≡ string_bytes out.old ++ printed (compacted I.RecordTexts.rows D.width self)) }
        ensures fits { IfOk result (λ _. CanBeDrawnCompact (compacted I.RecordTexts.rows D.width self)) }
        ensures kept { OnErr result (string_bytes out.new ≡ string_bytes out.old) }
        ensures fault { IfErr result (λ fault. (fault ≡ Memory) ⊎ IsFitsAnswer (compacted I.RecordTexts.rows D.width self) (Err fault)) }
    {
        let CompactTable {
            records,
            config,
            dimension,
            columns,
            skipped,
            kept,
        } = self;
        let behind = SkipRows::new(records, skipped);
        match kept {
            Some(count) => {
                let rows = LimitRows::new(behind, count);
                print(alloc, rows, columns, &config, dimension, out)
            }
            None => print(alloc, behind, columns, &config, dimension, out),
        }
    }

    /// The text that `fmt` appends to an empty one, in the same time, or its refusal.
    pub fn to_string(self, alloc: Global) -> Result<String, Fault>
        ensures text { IfOk result (λ text. string_bytes text ≡ printed (compacted I.RecordTexts.rows D.width self)) }
        ensures fits { IfOk result (λ _. CanBeDrawnCompact (compacted I.RecordTexts.rows D.width self)) }
        ensures fault { IfErr result (λ fault. (fault ≡ Memory) ⊎ IsFitsAnswer (compacted I.RecordTexts.rows D.width self) (Err fault)) }
    {
        let mut text = String::new(alloc);
        self.fmt(alloc, &mut text)?;
        Ok(text)
    }

    /// Makes the whole text, as `to_string` in its time, and then writes it. A table that has no text, or
    /// none because allocation fails, leaves the writer alone. It gives up with `Write` at the first
    /// error of any kind, and with `WriteZero` where the writer takes nothing. A prefix of the text is
    /// then written, and the writer isn't called again. Nothing is flushed.
    pub fn build<W: Write>(self, alloc: Global, writer: &mut Counted<W>) -> Result<(), BuildFault>
        ensures whole { OnOk result (Appends (W.contents (inner_of writer.old)) (W.contents (inner_of writer.new)) (printed (compacted I.RecordTexts.rows D.width self))) }
        ensures front { IfErr result (λ fault. ¬ (NoTable fault) →
            AppendsFront (W.contents (inner_of writer.old)) (W.contents (inner_of writer.new))
            (printed (compacted I.RecordTexts.rows D.width self))) }
        ensures untouched { IfErr result (λ fault. NoTable fault → writer.new ≡ writer.old) }
        ensures nothing { printed (compacted I.RecordTexts.rows D.width self) ≡ [] → writer.new ≡ writer.old }
        ensures fits { IfOk result (λ _. CanBeDrawnCompact (compacted I.RecordTexts.rows D.width self)) }
        ensures table { IfErr result (BuildRefusal (CanBeDrawnCompact (compacted I.RecordTexts.rows D.width self)) (IsFitsAnswer (compacted I.RecordTexts.rows D.width self))) }
        ensures writer { WritesUntil (IsErrOf result BuildFault.Write) (IsErrOf result BuildFault.WriteZero) writer.old writer.new }
    {
        let text = self.to_string(alloc)?;
        Ok(write_all(writer, text.as_bytes())?)
    }
}

// Appends `columns` columns of these rows, each row in one line.
fn print<I: IntoRecords, D: Dimension + Drop>(
    alloc: Global,
    rows: I,
    columns: usize,
    config: &CompactConfig,
    dimension: D,
    out: &mut String,
) -> Result<(), Fault>
    ensures text { OnOk result (string_bytes out.new ≡ string_bytes out.old
        ++ compact_text (compact_of config.now) (D.width dimension) columns (evened columns (I.RecordTexts.rows rows)) no_colors) }
    ensures fits { IfOk result (λ _. FitsCompact (compact_of config.now) (D.width dimension) columns (evened columns (I.RecordTexts.rows rows))) }
    ensures kept { OnErr result (string_bytes out.new ≡ string_bytes out.old) }
    ensures fault { IfErr result (λ fault. (fault ≡ Memory)
        ⊎ IsCompactAnswer (compact_of config.now) (D.width dimension) columns (evened columns (I.RecordTexts.rows rows)) (Err fault)) }
{
    let records = IterRecords::new(rows, columns, None);
    CompactGrid::new(records, config, dimension, NoColors).build(alloc, out)
}
