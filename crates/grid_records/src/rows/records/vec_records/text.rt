//! A cell's text.
ghost use Rattle.std.specs.Prelude.{◌≡◌, [], IfOk, length, slice_index_or, string_bytes};
ghost use Rattle.grid_records_measure.specs.TextLines.{text_lines};

mod kept_lines;

use crate::rows::records::vec_records::Cell;
use grid_records_measure::{get_text_dimension, is_printable};
use grid_records_traits::SingleLineCell;
use kept_lines::{KeptLines, keep_lines};
use std::alloc::{AllocError, Global};
use std::borrow::CowStr;
use std::marker::Model;

/// A cell's text, which keeps its lines and how many columns the widest takes. It is measured and read for its lines
/// when it is made, and never after that.
#[derive(Debug, Drop)]
pub struct Text {
    text: String,
    // nothing where the text is its only line
    lines: Option<Box<KeptLines>>,
    width: usize,
}

impl Model for Text {
    ghost use Rattle.std.specs.Prelude.{List, ℕ, string_bytes};

    ghost Value = { List ℕ };

    ghost view = { λ cell. string_bytes cell.text };

    ghost use Rattle.grid_records.specs.RecordRows.Measured.{IsMeasured};

    ghost invariant = { IsMeasured };
}

impl Text {
    ghost use Rattle.grid_records.specs.RecordRows.Measured.{AreKept};

    /// A cell with this text, which is measured; each byte of printable ASCII takes a column. No lines are kept
    /// beside a text that is its only line. Fails only where allocation fails.
    pub fn new(alloc: Global, text: String) -> Result<Text, AllocError>
        ensures { IfOk result (λ cell. cell ≡ string_bytes text) }
    {
        if is_printable(&text) {
            let width = text.len();
            return Ok(Text {
                text,
                lines: None,
                width,
            });
        }
        let (count, width) = get_text_dimension(&text);
        let lines = keep_lines(alloc, &text, count)?;
        Ok(Text { text, lines, width })
    }

    /// The same text again, which is not measured again. Fails only where allocation fails.
    pub fn clone(&self, alloc: Global) -> Result<Text, AllocError>
        ensures { IfOk result (λ copy. copy ≡ self.now) }
    {
        Ok(Text {
            text: self.text.as_str().to_string(alloc)?,
            lines: self.lines_again(alloc)?,
            width: self.width,
        })
    }

    /// The text alone. Does not allocate.
    pub fn into_string(self) -> String
        ensures { string_bytes result ≡ self }
    {
        self.text
    }

    // Its lines again.
    fn lines_again(&self, alloc: Global) -> Result<Option<Box<KeptLines>>, AllocError>
        ensures { IfOk result (λ copy. AreKept self.now copy) }
    {
        match &self.lines {
            Some(lines) => Ok(Some(Box::new(alloc, lines.again(alloc)?)?)),
            None => Ok(None),
        }
    }

    // The line with this number, or the empty text after the last.
    fn kept_line(&self, index: usize) -> &str
        ensures { result.now ≡ slice_index_or (text_lines self.now) index [] }
    {
        match &self.lines {
            Some(lines) => lines.line(&self.text, index),
            None if index == 0 => self.text.as_str(),
            None => "",
        }
    }

    // How many lines there are.
    fn kept_count(&self) -> usize
        ensures { result ≡ length (text_lines self.now) }
    {
        match &self.lines {
            Some(lines) => lines.count(),
            None => 1,
        }
    }
}

/// Passes each request to the cell, so that what it keeps of its text is not found again.
impl Cell for Text {
    ghost text = { λ cell. cell };

    fn text(&self) -> &str {
        self.text.as_str()
    }

    fn line(&self, _alloc: Global, index: usize) -> Result<CowStr<'_>, AllocError> {
        Ok(CowStr::Borrowed(self.kept_line(index)))
    }

    fn count_lines(&self) -> usize {
        self.kept_count()
    }

    fn width(&self) -> usize {
        self.width
    }

    fn dimension(&self) -> (usize, usize) {
        (self.kept_count(), self.width)
    }

    fn single_line(&self) -> Option<SingleLineCell<'_>> {
        match &self.lines {
            Some(_) => None,
            None => {
                let (text, width) = (self.text.as_str(), self.width);
                Some(SingleLineCell { text, width })
            }
        }
    }
}

/// A cell that can be made of a text, without allocating.
pub trait FromText: Cell {
    /// A cell with this text. Does not allocate.
    fn from_text(given: Text) -> Self
        ensures { Self.text result ≡ given };
}

impl FromText for Text {
    fn from_text(given: Text) -> Text {
        given
    }
}
