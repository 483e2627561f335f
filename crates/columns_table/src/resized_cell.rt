//! A cell in a narrower column.
ghost use Rattle.std.specs.Prelude.{◌≡◌};
ghost use Rattle.std.specs.Cow.{cow_str_bytes};
ghost use Rattle.grid_records_traits.specs.Cells.{HasLineCount, HasWidth};

use ansi_str::AnsiStr;
use columns_asked::MeasuredText;
use grid_records_traits::{Cell, SingleLineCell};
use std::borrow::CowStr;

/// A text of any number of lines, which keeps what they measure.
#[derive(Drop)]
pub struct ResizedCell<'a> {
    text: CowStr<'a>,
    lines: usize,
    width: usize,
    ghost measured: { HasLineCount (cow_str_bytes text) lines × HasWidth (cow_str_bytes text) width },
}

impl<'a> ResizedCell<'a> {
    /// A cell with this text, whose measures are known. Does not allocate.
    pub(crate) fn new(text: MeasuredText<'a>) -> ResizedCell<'a>
        ensures { cow_str_bytes result.text ≡ cow_str_bytes text.entry.text }
    {
        ResizedCell {
            text: text.text,
            lines: text.lines,
            width: text.columns,
        }
    }

    /// A cell of one line that takes so many columns, which is not measured again. Does not allocate.
    pub(crate) fn of_line(text: &'a str, width: usize) -> ResizedCell<'a>
        requires one { HasLineCount text.now 1 }
        requires width { HasWidth text.now width }
        ensures { cow_str_bytes result.text ≡ text.now }
    {
        ResizedCell {
            text: CowStr::Borrowed(text),
            lines: 1,
            width,
        }
    }
}

impl<'a> Cell for ResizedCell<'a> {
    ghost text = { λ cell. cow_str_bytes cell.text };

    fn text(&self) -> &str {
        &self.text
    }

    fn count_lines(&self) -> usize {
        self.lines
    }

    fn width(&self) -> usize {
        self.width
    }

    fn dimension(&self) -> (usize, usize) {
        (self.lines, self.width)
    }

    fn single_line(&self) -> Option<SingleLineCell<'_>> {
        let (text, width) = (self.text(), self.width);
        if self.lines != 1 || text.ansi_has_any() {
            return None;
        }
        Some(SingleLineCell { text, width })
    }
}
