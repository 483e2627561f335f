//! Records looked up by place.
ghost use Rattle.std.specs.Prelude.{◌≡◌, IfOk, IfSome, IsOk, false};
ghost use Rattle.std.specs.Cow.{cow_str_bytes};
ghost use Rattle.grid_records_measure.specs.StyledText.{BorrowsWithoutEscape, has_escape};
ghost use Rattle.grid_records_traits.specs.Cells.{HasLineCount, HasLineWidth, HasWidth, IsLineAt};
ghost use Rattle.grid_records_traits.specs.SingleLines.{IsSingleLine};
ghost use Rattle.grid_records_traits.specs.SingleLineTexts.{single_line_texts};
ghost use Rattle.grid_records_traits.specs.Rows.{row_at, text_at};

use crate::lines::{line_of, line_width_of};
use crate::records::RecordTexts;
use crate::records::single_line_row::{SingleLineCell, SingleLineRow};
use grid_config_values::Position;
use grid_records_measure::{count_lines, get_text_width};
use std::alloc::{AllocError, Global};
use std::borrow::CowStr;

/// Records looked up by place. Where there is no cell, the text is empty.
pub trait PeekableRecords: RecordTexts {
    /// The text of the cell at this place, or the empty text where there is none.
    fn get_text(&self, pos: Position) -> &str
        ensures { result.now ≡ text_at (Self.rows self.now) pos };

    /// The line with this number, with its styles opened and ended within, or the empty text after the last. Where the
    /// text has no ESC it is a borrow, without allocating; else it fails only where allocation fails.
    fn get_line(&self, alloc: Global, pos: Position, line: usize) -> Result<CowStr<'_>, AllocError>
        ensures line { IfOk result (λ out. IsLineAt (text_at (Self.rows self.now) pos) line (cow_str_bytes out)) }
        ensures answers { has_escape (text_at (Self.rows self.now) pos) ≡ false → IsOk result }
        ensures borrows { IfOk result (BorrowsWithoutEscape (text_at (Self.rows self.now) pos)) }
    {
        line_of(alloc, self.get_text(pos), line)
    }

    /// How many lines this text has. Does not allocate.
    fn count_lines(&self, pos: Position) -> usize
        ensures { HasLineCount (text_at (Self.rows self.now) pos) result }
    {
        count_lines(self.get_text(pos))
    }

    /// The columns of its widest line. Does not allocate.
    fn get_width(&self, pos: Position) -> usize
        ensures { HasWidth (text_at (Self.rows self.now) pos) result }
    {
        get_text_width(self.get_text(pos))
    }

    /// The columns of the line with this number, or 0 after the last. Does not allocate.
    fn get_line_width(&self, pos: Position, line: usize) -> usize
        ensures { HasLineWidth (text_at (Self.rows self.now) pos) line result }
    {
        line_width_of(self.get_text(pos), line)
    }

    /// The cell at this place and its columns, where it is known to be one line, which is its whole text; `None` says
    /// nothing about the cell. Does not allocate.
    fn single_line_cell(&self, pos: Position) -> Option<SingleLineCell<'_>>
        ensures text { IfSome result (λ cell. cell.text.now ≡ text_at (Self.rows self.now) pos) }
        ensures single_line { IfSome result (λ cell. IsSingleLine cell.text.now cell.width) }
    {
        let _pos = pos;
        None
    }

    /// The cells of this row, where each is known to be one line, which is its whole text; `None` says nothing about
    /// the row. A caller that reads all cells of a row requests it first. Does not allocate.
    fn single_line_row(&self, row: usize) -> Option<SingleLineRow<'_>>
        ensures { IfSome result (λ cells. single_line_texts cells ≡ row_at (Self.rows self.now) row) }
    {
        let _row = row;
        None
    }
}

impl<'a, R: PeekableRecords> PeekableRecords for &'a R {
    fn get_text(&self, pos: Position) -> &str {
        R::get_text(self, pos)
    }

    fn get_line(
        &self,
        alloc: Global,
        pos: Position,
        line: usize,
    ) -> Result<CowStr<'_>, AllocError> {
        R::get_line(self, alloc, pos, line)
    }

    fn count_lines(&self, pos: Position) -> usize {
        R::count_lines(self, pos)
    }

    fn get_width(&self, pos: Position) -> usize {
        R::get_width(self, pos)
    }

    fn get_line_width(&self, pos: Position, line: usize) -> usize {
        R::get_line_width(self, pos, line)
    }

    fn single_line_cell(&self, pos: Position) -> Option<SingleLineCell<'_>> {
        R::single_line_cell(self, pos)
    }

    fn single_line_row(&self, row: usize) -> Option<SingleLineRow<'_>> {
        R::single_line_row(self, row)
    }
}
