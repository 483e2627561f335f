//! A table that is written.
ghost use Rattle.std.specs.Prelude.{◌≡◌, ◌⊎◌, [], Ok, OnErr};
ghost use Rattle.tabled.specs.Printing.{FitsOrFails, IsFitsAnswer, printed};
ghost use Rattle.tabled.specs.Tables.{table_state, state_under};
ghost use Rattle.tabled.specs.Writing.{FitsOrIsRefused, IsBuilt, build_answer, chosen_lines, ended_text};
ghost use Rattle.tabled_output.specs.Pieces.{Passes};

use crate::table_of::TableOf;
use crate::table_records::TableRecords;
use grid_config::{Fault, SpannedConfig};
use papergrid::{LineChoice, PeekableGrid};
use papergrid_fits::{heights, widths};
use papergrid_print::write_ended_table;
use std::io::Write;
use tabled_output::{BuildFault, Counted, WriteFault};

impl<R: TableRecords> TableOf<R> {
    /// Writes the text of `to_string`, line by line. Each line is written as soon as it is made, in one piece with
    /// the line feed before it, and no more than one is held. Where `fits` refuses the table it gives up with
    /// `Table` of that error. It gives up with `Write` at the first error of any kind, with `WriteZero` where the
    /// writer takes nothing, and with `Table(Memory)` where allocation fails. A prefix of the text, or nothing, is
    /// then written, and the writer isn't called again. Where the table doesn't fit, or its text is empty, the
    /// writer is left alone. Nothing is flushed.
    pub fn build<W: Write>(&self, writer: &mut Counted<W>) -> Result<(), BuildFault>
        ensures built { IsBuilt W.contents (table_state R.rows self.now) (printed (table_state R.rows self.now)) result writer.old writer.new }
        ensures nothing { printed (table_state R.rows self.now) ≡ [] → writer.new ≡ writer.old }
        ensures table { FitsOrIsRefused (table_state R.rows self.now) result }
    {
        answer(self.write_under(self.config.spanned(), writer))
    }

    /// Writes the lines of the table in turn, each with a line feed after it; of a table without lines nothing.
    /// The writer gets each line as `build` hands it on, and the last line feed by itself. It gives up as `build`
    /// does; what is then written is a prefix of this, or nothing.
    pub fn write_lines<W: Write>(&self, writer: &mut Counted<W>) -> Result<(), BuildFault>
        ensures built { IsBuilt W.contents (table_state R.rows self.now) (ended_text (table_state R.rows self.now)) result writer.old writer.new }
        ensures nothing { ended_text (table_state R.rows self.now) ≡ [] → writer.new ≡ writer.old }
        ensures table { FitsOrIsRefused (table_state R.rows self.now) result }
    {
        answer(self.write_ended(self.config.spanned(), writer))
    }

    /// Writes the lines of the table that are chosen, in turn. Each is written as soon as it is made, in one piece
    /// with the line feed after it. Where none is chosen the writer is left alone. Rows that are not chosen are not
    /// drawn. It gives up as `build` does; what is then written is a prefix of this, or nothing.
    pub fn build_lines<W: Write, K: LineChoice>(
        &self,
        writer: &mut Counted<W>,
        choice: &K,
    ) -> Result<(), BuildFault>
        ensures built { IsBuilt W.contents (table_state R.rows self.now) (chosen_lines (K.chooses choice.now) (table_state R.rows self.now)) result writer.old writer.new }
        ensures nothing { chosen_lines (K.chooses choice.now) (table_state R.rows self.now) ≡ [] → writer.new ≡ writer.old }
        ensures table { FitsOrIsRefused (table_state R.rows self.now) result }
    {
        self.build_buffered_lines(writer, choice, 0)
    }

    /// Writes the same in pieces of many lines: these are held in a buffer of so many bytes, and written once they
    /// nearly fill it. It gives up as `build` does; what is then written is a prefix of this, or nothing.
    pub fn build_buffered_lines<W: Write, K: LineChoice>(
        &self,
        writer: &mut Counted<W>,
        choice: &K,
        size: usize,
    ) -> Result<(), BuildFault>
        ensures built { IsBuilt W.contents (table_state R.rows self.now) (chosen_lines (K.chooses choice.now) (table_state R.rows self.now)) result writer.old writer.new }
        ensures nothing { chosen_lines (K.chooses choice.now) (table_state R.rows self.now) ≡ [] → writer.new ≡ writer.old }
        ensures table { FitsOrIsRefused (table_state R.rows self.now) result }
    {
        answer(self.write_chosen_lines(self.config.spanned(), writer, choice, size))
    }

    // Writes its chosen lines under these settings in place of its own, by a buffer of so many bytes.
    fn write_chosen_lines<W: Write, K: LineChoice>(
        &self,
        config: &SpannedConfig,
        writer: &mut Counted<W>,
        choice: &K,
        size: usize,
    ) -> Result<Result<(), WriteFault>, Fault>
        ensures text { Passes W.contents (chosen_lines (K.chooses choice.now) (state_under R.rows self.now config.now)) result [] writer.old writer.new }
        ensures untouched { OnErr result ((writer.new ≡ writer.old) ⊎ IsFitsAnswer (state_under R.rows self.now config.now) (Ok tt)) }
        ensures table { FitsOrFails (state_under R.rows self.now config.now) result }
    {
        let sizes = self.fitting_sizes(config)?;
        let grid = PeekableGrid::new(&self.records, config, sizes, self.config.get_colors());
        Ok(grid.write_buffered_lines(self.alloc, writer, choice, size)?)
    }

    // Writes its text under these settings in place of its own, line by line.
    fn write_under<W: Write>(
        &self,
        config: &SpannedConfig,
        writer: &mut Counted<W>,
    ) -> Result<Result<(), WriteFault>, Fault>
        ensures text { Passes W.contents (printed (state_under R.rows self.now config.now)) result [] writer.old writer.new }
        ensures untouched { OnErr result ((writer.new ≡ writer.old) ⊎ IsFitsAnswer (state_under R.rows self.now config.now) (Ok tt)) }
        ensures table { FitsOrFails (state_under R.rows self.now config.now) result }
    {
        let sizes = self.fitting_sizes(config)?;
        let grid = PeekableGrid::new(&self.records, config, sizes, self.config.get_colors());
        Ok(grid.write(self.alloc, writer)?)
    }

    // The same, with a line feed after its last line.
    fn write_ended<W: Write>(
        &self,
        config: &SpannedConfig,
        writer: &mut Counted<W>,
    ) -> Result<Result<(), WriteFault>, Fault>
        ensures text { Passes W.contents (ended_text (state_under R.rows self.now config.now)) result [] writer.old writer.new }
        ensures untouched { OnErr result ((writer.new ≡ writer.old) ⊎ IsFitsAnswer (state_under R.rows self.now config.now) (Ok tt)) }
        ensures table { FitsOrFails (state_under R.rows self.now config.now) result }
    {
        let sizes = self.fitting_sizes(config)?;
        let widths = widths(self.alloc, &sizes, self.count_columns())?;
        let heights = heights(self.alloc, &sizes, self.count_rows())?;
        Ok(write_ended_table(
            self.alloc,
            &self.records,
            config,
            self.config.get_colors(),
            &widths,
            &heights,
            writer,
        )?)
    }
}

// The result of a table that was written so, or not.
fn answer(written: Result<Result<(), WriteFault>, Fault>) -> Result<(), BuildFault>
    ensures { result ≡ build_answer written }
{
    match written {
        Ok(Ok(())) => Ok(()),
        Ok(Err(fault)) => Err(fault.into()),
        Err(fault) => Err(fault.into()),
    }
}
