//! A cell with a text.
ghost use Rattle.std.specs.Prelude.{◌≡◌, ℕ, List, IfOk, IfSome, IsOk, false, string_bytes};
ghost use Rattle.std.specs.Cow.{cow_str_bytes};
ghost use Rattle.grid_records_measure.specs.StyledText.{BorrowsWithoutEscape, has_escape};
ghost use Rattle.grid_records_traits.specs.Cells.{HasLineCount, HasLineWidth, HasWidth, IsLineAt, text_or_empty};
ghost use Rattle.grid_records_traits.specs.SingleLines.{IsSingleLine};

use crate::lines::{line_of, line_width_of};
use crate::records::single_line_row::SingleLineCell;
use grid_records_measure::{count_lines, get_text_dimension, get_text_width};
use std::alloc::{AllocError, Global};
use std::borrow::CowStr;

/// A cell with a text. All that it returns is about this text.
pub trait Cell: Drop {
    ghost text: { Self → List ℕ };

    /// The text.
    fn text(&self) -> &str
        ensures { result.now ≡ text self.now };

    /// The line with this number, with its styles opened and ended within, or the empty text after the last. Where the
    /// text has no ESC it is a borrow, without allocating; else it fails only where allocation fails.
    fn line(&self, alloc: Global, index: usize) -> Result<CowStr<'_>, AllocError>
        ensures line { IfOk result (λ out. IsLineAt (text self.now) index (cow_str_bytes out)) }
        ensures answers { has_escape (text self.now) ≡ false → IsOk result }
        ensures borrows { IfOk result (BorrowsWithoutEscape (text self.now)) }
    {
        line_of(alloc, self.text(), index)
    }

    /// How many lines the text has. Does not allocate.
    fn count_lines(&self) -> usize
        ensures { HasLineCount (text self.now) result }
    {
        count_lines(self.text())
    }

    /// The columns of its widest line. Does not allocate.
    fn width(&self) -> usize
        ensures { HasWidth (text self.now) result }
    {
        get_text_width(self.text())
    }

    /// How many lines the text has, and the columns of the widest, found in one pass. Does not allocate.
    fn dimension(&self) -> (usize, usize)
        ensures lines { HasLineCount (text self.now) result.0 }
        ensures width { HasWidth (text self.now) result.1 }
    {
        get_text_dimension(self.text())
    }

    /// The columns of the line with this number, or 0 after the last. Does not allocate.
    fn line_width(&self, index: usize) -> usize
        ensures { HasLineWidth (text self.now) index result }
    {
        line_width_of(self.text(), index)
    }

    /// The text and its columns, where it is known to be one line, which is all of it; `None` says nothing about the
    /// text. Does not allocate.
    fn single_line(&self) -> Option<SingleLineCell<'_>>
        ensures text { IfSome result (λ cell. cell.text.now ≡ text self.now) }
        ensures single_line { IfSome result (λ cell. IsSingleLine cell.text.now cell.width) }
    {
        None
    }
}

impl<'a> Cell for &'a str {
    ghost text = { λ cell. cell.now };

    fn text(&self) -> &str {
        self
    }
}

impl Cell for String {
    ghost text = { string_bytes };

    fn text(&self) -> &str {
        self.as_str()
    }
}

/// Passes each request to the cell, so that what the cell keeps of its text is not found again.
impl<'a, C: Cell> Cell for &'a C {
    ghost text = { λ cell. C.text cell.now };

    fn text(&self) -> &str {
        C::text(self)
    }

    fn line(&self, alloc: Global, index: usize) -> Result<CowStr<'_>, AllocError> {
        C::line(self, alloc, index)
    }

    fn count_lines(&self) -> usize {
        C::count_lines(self)
    }

    fn width(&self) -> usize {
        C::width(self)
    }

    fn dimension(&self) -> (usize, usize) {
        C::dimension(self)
    }

    fn line_width(&self, index: usize) -> usize {
        C::line_width(self, index)
    }

    fn single_line(&self) -> Option<SingleLineCell<'_>> {
        C::single_line(self)
    }
}

/// A cell that a row may lack: `None` has the empty text.
impl<C: Cell> Cell for Option<C> {
    ghost text = { λ cell. text_or_empty C.text cell };

    fn text(&self) -> &str {
        match self {
            Some(cell) => cell.text(),
            None => "",
        }
    }
}
