//! A table as a text, and how much it takes.
ghost use Rattle.std.specs.Prelude.{◌≡◌, ◌≤◌, ◌^◌, [], IfErr, IfOk, Ok, string_bytes, true};
ghost use Rattle.ansi_scan.specs.Sequences.{ForPieces};
ghost use Rattle.ansi_str.specs.StyledText.{strip};
ghost use Rattle.grid_records_estimate.specs.Collecting.{PassesMax};
ghost use Rattle.grid_records_estimate.specs.Sizes.{IsRefusal};
ghost use Rattle.papergrid_picture.specs.Colors.ClosingColors.{ShowNothing};
ghost use Rattle.papergrid_picture.specs.Shown.{AreWholeTexts, IsBare};
ghost use Rattle.tabled.specs.Narrowed.{HasSettings};
ghost use Rattle.tabled.specs.Printing.{FitsOrFails, drawn_heights, drawn_widths, printed};
ghost use Rattle.tabled.specs.Shown.{shown_in};
ghost use Rattle.tabled.specs.Tables.{state_of};
ghost use Rattle.tabled.specs.Totals.{drawn_height, drawn_width};
ghost use Rattle.tabled.specs.Writing.{FitsOrIsRefused, IsBuilt, chosen_lines, ended_text};
ghost use Rattle.tabled_height.specs.Steps.{has_no_cells};
ghost use Rattle.tabled_list.specs.Stripping.Stripping.{stripped_state, uncolored_state};

use crate::table::Table;
use grid_config::{AlignmentHorizontal, Fault};
use grid_records::FromText;
use papergrid::LineChoice;
use std::io::Write;
use tabled_output::{BuildFault, Counted};

impl<T: FromText> Table<T> {
    /// Whether the table fits its sizes, those that it keeps and in place of the others the least. Refused
    /// as `Spans` where its spans are not good, else as `Range` where the columns of a line, or the lines,
    /// pass `usize::MAX`. Else refused as `Room` of the first visible cell, by row, then by column, that needs
    /// more columns than it has. Refused as `Memory` where allocation fails. Whatever it returns, each of its
    /// cells takes at least one row and one column.
    pub fn fits(&self) -> Result<(), Fault>
        ensures table { FitsOrFails (state_of T.text self.now) result }
        ensures settings { HasSettings (state_of T.text self.now) }
    {
        self.inner.fits()
    }

    /// The text of the table: its lines, a line feed between each two. Refused as `Spans`, `Range` or `Room`,
    /// in this order, as `fits` reports them, and as `Memory` where allocation fails. Without its sequences it
    /// is the text of the table of the stripped texts, without the colours of its cells. For this, texts must be
    /// whole, glyphs and fills hold no ESC, and nothing but cells have a colour, of sequences alone.
    pub fn to_string(&self) -> Result<String, Fault>
        ensures text { IfOk result (λ text. string_bytes text ≡ printed (state_of T.text self.now)) }
        ensures table { FitsOrFails (state_of T.text self.now) result }
        ensures settings { HasSettings (state_of T.text self.now) }
        ensures stripped { let state = state_of T.text self.now in IsBare state.look → AreWholeTexts state.rows → ShowNothing state.colors →
            IfOk result (λ text. ForPieces (string_bytes text) (λ pieces. strip pieces ≡ printed (uncolored_state (stripped_state state)))) }
    {
        self.inner.to_string()
    }

    /// The text of the table with this alignment for all cells, and as wide as is requested. What its total lacks
    /// becomes margins of this fill, where `'\0'` counts as a space. These are at its left, with `Right` at its
    /// right, and with `Center` the smaller half is at its left and the rest at its right. The table stays as it
    /// is. Refused as `Spans`, `Range` or `Room`, in this order, as `fits` reports them for the table so shown,
    /// and as `Memory` where allocation fails.
    pub fn to_string_in(
        &self,
        width: Option<usize>,
        align: Option<AlignmentHorizontal>,
        fill: char,
    ) -> Result<String, Fault>
        ensures text { IfOk result (λ text. string_bytes text ≡ printed (shown_in width align fill (state_of T.text self.now))) }
        ensures table { FitsOrFails (shown_in width align fill (state_of T.text self.now)) result }
    {
        self.inner.to_string_in(width, align, fill)
    }

    /// Writes the text of `to_string`, line by line. Each line is written as soon as it is made, in one piece with
    /// the line feed before it, and no more than one is held. Where `fits` refuses the table it gives up with
    /// `Table` of that error. It gives up with `Write` at the first error of any kind, with `WriteZero` where the
    /// writer takes nothing, and with `Table(Memory)` where allocation fails. A prefix of the text, or nothing, is
    /// then written, and the writer isn't called again. Where the table doesn't fit, or its text is empty, the
    /// writer is left alone. Nothing is flushed.
    pub fn build<W: Write>(&self, writer: &mut Counted<W>) -> Result<(), BuildFault>
        ensures built { IsBuilt W.contents (state_of T.text self.now) (printed (state_of T.text self.now)) result writer.old writer.new }
        ensures nothing { printed (state_of T.text self.now) ≡ [] → writer.new ≡ writer.old }
        ensures table { FitsOrIsRefused (state_of T.text self.now) result }
    {
        self.inner.build(writer)
    }

    /// Writes the lines of the table in turn, each with a line feed after it; of a table without lines nothing.
    /// The writer gets each line as `build` hands it on, and the last line feed by itself. It gives up as `build`
    /// does; what is then written is a prefix of this, or nothing.
    pub fn write_lines<W: Write>(&self, writer: &mut Counted<W>) -> Result<(), BuildFault>
        ensures built { IsBuilt W.contents (state_of T.text self.now) (ended_text (state_of T.text self.now)) result writer.old writer.new }
        ensures nothing { ended_text (state_of T.text self.now) ≡ [] → writer.new ≡ writer.old }
        ensures table { FitsOrIsRefused (state_of T.text self.now) result }
    {
        self.inner.write_lines(writer)
    }

    /// Writes the lines of the table that are chosen, in turn. Each is written as soon as it is made, in one piece
    /// with the line feed after it. Where none is chosen the writer is left alone. Rows that are not chosen are not
    /// drawn. It gives up as `build` does; what is then written is a prefix of this, or nothing.
    pub fn build_lines<W: Write, K: LineChoice>(
        &self,
        writer: &mut Counted<W>,
        choice: &K,
    ) -> Result<(), BuildFault>
        ensures built { IsBuilt W.contents (state_of T.text self.now) (chosen_lines (K.chooses choice.now) (state_of T.text self.now)) result writer.old writer.new }
        ensures nothing { chosen_lines (K.chooses choice.now) (state_of T.text self.now) ≡ [] → writer.new ≡ writer.old }
        ensures table { FitsOrIsRefused (state_of T.text self.now) result }
    {
        self.inner.build_lines(writer, choice)
    }

    /// How many columns a line of the table takes, margins too, in the widths that it keeps and else in the
    /// least. It is 0 without rows or columns. The sequences of its texts change none of it. Refused as `Range` where
    /// that passes `usize::MAX`, and as `Memory` where allocation fails.
    pub fn total_width(&self) -> Result<usize, Fault>
        ensures total { IfOk result (λ total. total ≡ drawn_width (state_of T.text self.now)) }
        ensures no_cells { has_no_cells (state_of T.text self.now) ≡ true → result ≡ Ok 0 }
        ensures refused { IfErr result (λ fault. IsRefusal fault (2 ^ 64 ≤ drawn_width (state_of T.text self.now))) }
    {
        self.inner.total_width()
    }

    /// How many lines the table takes, in the heights that it keeps and else in the least, margins too; 0
    /// without rows or columns. The sequences of its texts change none of it. Refused as `Range` where that
    /// passes `usize::MAX`, and as `Memory` where allocation fails.
    pub fn total_height(&self) -> Result<usize, Fault>
        ensures total { IfOk result (λ total. total ≡ drawn_height (state_of T.text self.now)) }
        ensures no_cells { has_no_cells (state_of T.text self.now) ≡ true → result ≡ Ok 0 }
        ensures refused { IfErr result (λ fault. IsRefusal fault (2 ^ 64 ≤ drawn_height (state_of T.text self.now))) }
    {
        self.inner.total_height()
    }

    /// The widths of its columns as they are drawn: those that it keeps, and else the least. Nothing is changed,
    /// and nothing kept. Refused as `Range` exactly where one of them passes `usize::MAX`, and as `Memory` where
    /// allocation fails.
    pub fn widths(&self) -> Result<Vec<usize>, Fault>
        ensures widths { IfOk result (λ widths. widths.items ≡ drawn_widths (state_of T.text self.now)) }
        ensures refused { IfErr result (λ fault. IsRefusal fault (PassesMax (drawn_widths (state_of T.text self.now)))) }
    {
        self.inner.widths()
    }

    /// The heights of its rows as they are drawn: those that it keeps, and else the least. Nothing is changed,
    /// and nothing kept. Refused as `Range` exactly where one of them passes `usize::MAX`, and as `Memory` where
    /// allocation fails.
    pub fn heights(&self) -> Result<Vec<usize>, Fault>
        ensures heights { IfOk result (λ heights. heights.items ≡ drawn_heights (state_of T.text self.now)) }
        ensures refused { IfErr result (λ fault. IsRefusal fault (PassesMax (drawn_heights (state_of T.text self.now)))) }
    {
        self.inner.heights()
    }
}
