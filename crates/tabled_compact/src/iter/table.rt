//! A table over a source of rows that is read once.
ghost use Rattle.std.specs.Io.KnownBytes.{Appends};
ghost use Rattle.std.specs.Prelude.{◌≡◌, ◌++◌, ◌⊎◌, [], Err, IfErr, IfOk, IsErrOf, Ok, OnErr, OnOk, Some, string_bytes};
ghost use Rattle.grid_config_values.specs.declared.fault.Fault.TheVariants.{Memory};
ghost use Rattle.tabled_output.specs.Building.{BuildRefusal, NoTable};
ghost use Rattle.tabled_compact.specs.Iter.Tables.{IsFitsAnswer, KeepsShape, begun, printed, state_for_options, streamed};
ghost use Rattle.tabled_output.specs.Counts.{WritesUntil, inner_of};
ghost use Rattle.tabled_output.specs.Streams.{AppendsFront};
ghost use Rattle.tabled_steps.specs.Outcomes.{MayRefuseStep};
ghost use Rattle.tabled_steps.specs.States.{Steps};

use crate::begun_config;
use crate::iter::content::{columns_or, first};
use crate::iter::printing::draw;
use crate::iter::reading::read;
use crate::iter::sizes::{Shape, first_or_all, inner_and_outer_of};
use grid_config::{CompactConfig, Fault};
use grid_records::BufRecords;
use grid_records_traits::{Cell, IntoRecords, RecordTexts};
use std::alloc::{AllocError, Global};
use std::io::Write;
use tabled_output::{BuildFault, Counted, write_all};
use tabled_size::ZeroDimension;
use tabled_steps::TableOption;

/// A table over a source of rows that is read once, when it is printed. The first rows are read ahead, or
/// sniffed. The columns are as many and as wide as these rows need, where nothing else is set. Cells of other
/// rows are cut where they are wider.
#[derive(Clone, Debug, PartialEq, Eq, PartialOrd, Ord, Hash, Drop)]
pub struct IterTable<I> {
    records: I,
    config: CompactConfig,
    shape: Shape,
}

impl<I: RecordTexts> IterTable<I> {
    /// A table of the rows of this source, in lines of ASCII, with a column of spaces at the left and right
    /// of each text. A thousand rows are sniffed. Does not allocate.
    pub fn new(records: I) -> IterTable<I>
        ensures { streamed I.rows result ≡ begun (I.rows records) }
    {
        let shape = Shape {
            columns: None,
            sniff: 1000,
            kept: None,
            width: None,
            height: None,
        };
        IterTable {
            records,
            config: begun_config(),
            shape,
        }
    }

    /// Gives the table `count` columns, in place of as many as the longest sniffed row has. A row that has
    /// fewer cells gets empty ones, and further ones are left out.
    pub fn columns(&mut self, count: usize) -> &mut Self
        ensures lends { result.ghost_name ≡ self.entry.ghost_name }
        ensures set { streamed I.rows result.now ≡ record (streamed I.rows self.old) { columns = Some count } }
    {
        self.shape.columns = Some(count);
        self
    }

    /// Keeps `count` rows at most. Which rows are sniffed stays the same.
    pub fn rows(&mut self, count: usize) -> &mut Self
        ensures lends { result.ghost_name ≡ self.entry.ghost_name }
        ensures set { streamed I.rows result.now ≡ record (streamed I.rows self.old) { kept = Some count } }
    {
        self.shape.kept = Some(count);
        self
    }

    /// Sniffs `count` rows, in place of a thousand: the text is made in time linear in them, also in those
    /// without cells.
    pub fn sniff(&mut self, count: usize) -> &mut Self
        ensures lends { result.ghost_name ≡ self.entry.ghost_name }
        ensures set { streamed I.rows result.now ≡ record (streamed I.rows self.old) { sniff = count } }
    {
        self.shape.sniff = count;
        self
    }

    /// Makes the content of each row `size` lines high.
    pub fn height(&mut self, size: usize) -> &mut Self
        ensures lends { result.ghost_name ≡ self.entry.ghost_name }
        ensures set { streamed I.rows result.now ≡ record (streamed I.rows self.old) { height = Some size } }
    {
        self.shape.height = Some(size);
        self
    }

    /// Makes the content of each column `size` columns of the terminal wide. Where no height is set, each
    /// row then has one line.
    pub fn width(&mut self, size: usize) -> &mut Self
        ensures lends { result.ghost_name ≡ self.entry.ghost_name }
        ensures set { streamed I.rows result.now ≡ record (streamed I.rows self.old) { width = Some size } }
    {
        self.shape.width = Some(size);
        self
    }

    /// Changes the table by an option: one step of its rows and settings. Refused as the step is, and
    /// as `Memory` where allocation fails, and then nothing has changed.
    pub fn set<O: TableOption<I, CompactConfig, ZeroDimension>>(
        &mut self,
        alloc: Global,
        option: O,
    ) -> Result<(), Fault>
        ensures step { Steps (O.step option) result (state_for_options (streamed I.rows self.old)) (state_for_options (streamed I.rows self.new)) }
        ensures others { KeepsShape (streamed I.rows self.old) (streamed I.rows self.new) }
    {
        let mut sizes = ZeroDimension::new();
        option.change(alloc, &mut self.records, &mut self.config, &mut sizes)
    }

    /// The table, changed by an option, with no promise of what a refused one leaves: `set` has it. Else as
    /// `set`.
    pub fn with<O: TableOption<I, CompactConfig, ZeroDimension>>(
        &mut self,
        alloc: Global,
        option: O,
    ) -> Result<&mut Self, Fault>
        ensures lends { IfOk result (λ table. table.ghost_name ≡ self.entry.ghost_name) }
        ensures step { IfOk result (λ table. O.step option (state_for_options (streamed I.rows self.old)) (Ok (state_for_options (streamed I.rows table.now)))) }
        ensures others { IfOk result (λ table. KeepsShape (streamed I.rows self.old) (streamed I.rows table.now)) }
        ensures refused { IfErr result (λ fault. MayRefuseStep fault (O.step option (state_for_options (streamed I.rows self.old)))) }
    {
        self.set(alloc, option)?;
        Ok(self)
    }
}

impl<C: Cell> IterTable<Vec<Vec<C>>> {
    /// The same as `new` of the rows of this source, which are read at once and kept. Fails only where
    /// allocation fails, for a cell that is read or for memory to keep it.
    pub fn from_rows<R: IntoRecords<Cell = C>>(
        alloc: Global,
        rows: R,
    ) -> Result<IterTable<Vec<Vec<C>>>, AllocError>
        ensures { IfOk result (λ table. streamed ⟦<Vec<Vec<C>> as RecordTexts>⟧.rows table ≡ begun (R.RecordTexts.rows rows)) }
    {
        Ok(IterTable::new(read(alloc, rows)?))
    }
}

impl<I: IntoRecords> IterTable<I> {
    /// Appends the text of the table: its lines, a line feed between each two; nothing without columns or rows.
    /// The time is linear in its text, its columns in each row and the rows of the source, those without cells
    /// too. Reads the source once. Refused as `Range` where the columns of a line, or the lines, pass
    /// `usize::MAX`, margins too. Else refused as `Room` of the first cell, by row, then by column, whose widest
    /// line with the paddings at its sides is wider than its column. Refused as `Memory` where allocation fails.
    /// A refusal leaves the text as it was.
    pub fn fmt(self, alloc: Global, out: &mut String) -> Result<(), Fault>
        ensures text { OnOk result (string_bytes out.new ≡ string_bytes out.old ++ printed (streamed I.RecordTexts.rows self)) }
        ensures fits { OnOk result (IsFitsAnswer (streamed I.RecordTexts.rows self) (Ok tt)) }
        ensures kept { OnErr result (string_bytes out.new ≡ string_bytes out.old) }
        ensures fault { IfErr result (λ fault. (fault ≡ Memory) ⊎ IsFitsAnswer (streamed I.RecordTexts.rows self) (Err fault)) }
    {
        let IterTable {
            records,
            config,
            shape,
        } = self;
        // one row is read at least, to know whether there is one
        let rows = BufRecords::new(alloc, records, shape.sniff.max(1))?;
        let sniffed = first(rows.as_slice(), shape.sniff);
        let columns = columns_or(shape.columns, sniffed);
        if columns == 0 || first_or_all(rows.as_slice(), shape.kept).is_empty() {
            return Ok(());
        }
        let both = inner_and_outer_of(alloc, sniffed, shape, columns, *config.get_padding())?;
        draw(alloc, rows, shape.kept, columns, &config, both, out)
    }

    /// The text that `fmt` appends to an empty one, in the same time, or its refusal.
    pub fn to_string(self, alloc: Global) -> Result<String, Fault>
        ensures text { IfOk result (λ text. string_bytes text ≡ printed (streamed I.RecordTexts.rows self)) }
        ensures fits { OnOk result (IsFitsAnswer (streamed I.RecordTexts.rows self) (Ok tt)) }
        ensures fault { IfErr result (λ fault. (fault ≡ Memory) ⊎ IsFitsAnswer (streamed I.RecordTexts.rows self) (Err fault)) }
    {
        let mut text = String::new(alloc);
        self.fmt(alloc, &mut text)?;
        Ok(text)
    }

    /// Makes the whole text, as `to_string` in its time, and then writes it. A table that has no text, or
    /// none because allocation fails, leaves the writer alone. It gives up with `Write` at the first
    /// error of any kind, and with `WriteZero` where the writer takes nothing. A prefix of the text is
    /// then written, and the writer isn't called again. Nothing is flushed.
    pub fn build<W: Write>(self, alloc: Global, writer: &mut Counted<W>) -> Result<(), BuildFault>
        ensures whole { OnOk result (Appends (W.contents (inner_of writer.old)) (W.contents (inner_of writer.new)) (printed (streamed I.RecordTexts.rows self))) }
        ensures front { IfErr result (λ fault. ¬ (NoTable fault) → AppendsFront (W.contents (inner_of writer.old)) (W.contents (inner_of writer.new)) (printed (streamed I.RecordTexts.rows self))) }
        ensures untouched { IfErr result (λ fault. NoTable fault → writer.new ≡ writer.old) }
        ensures nothing { printed (streamed I.RecordTexts.rows self) ≡ [] → writer.new ≡ writer.old }
        ensures fits { OnOk result (IsFitsAnswer (streamed I.RecordTexts.rows self) (Ok tt)) }
        ensures table { IfErr result (BuildRefusal (IsFitsAnswer (streamed I.RecordTexts.rows self) (Ok tt)) (IsFitsAnswer (streamed I.RecordTexts.rows self))) }
        ensures writer { WritesUntil (IsErrOf result BuildFault.Write) (IsErrOf result BuildFault.WriteZero) writer.old writer.new }
    {
        let text = self.to_string(alloc)?;
        Ok(write_all(writer, text.as_bytes())?)
    }
}
