//! A text of few lines, and what it measures.
ghost use Rattle.std.specs.Prelude.{◌≡◌, IfOk, string_bytes, true};
ghost use Rattle.grid_records_measure.specs.Measures.{are_printable};
ghost use Rattle.grid_records_traits.specs.Cells.{HasLineCount, HasWidth, IsLineAt};
ghost use Rattle.basinmug_cells.specs.Measured.{IsMeasured};

use ansi_str::AnsiStr;
use grid_records_traits::{Cell, SingleLineCell};
use std::alloc::{AllocError, Global};

/// A text of few lines, each of which is looked for from the start.
#[derive(Drop)]
pub struct ShortText {
    text: String,
    lines: usize,
    width: usize,
    // Whether it is known to be one line, which is all of it.
    is_line: bool,
    ghost measured: { IsMeasured (string_bytes text) lines width is_line },
}

impl ShortText {
    /// A text of so many lines, of which the widest takes so many columns. Fails only where allocation fails.
    pub(crate) fn new(
        alloc: Global,
        text: String,
        lines: usize,
        width: usize,
    ) -> Result<ShortText, AllocError>
        requires lines { HasLineCount (string_bytes text) lines }
        requires width { HasWidth (string_bytes text) width }
        ensures { IfOk result (λ short. string_bytes short.text ≡ string_bytes text) }
    {
        let is_line = is_only_line(alloc, &text, lines)?;
        Ok(ShortText {
            text,
            lines,
            width,
            is_line,
        })
    }

    /// A text of printable ASCII, of which each byte takes a column.
    pub(crate) fn of_printable(text: String) -> ShortText
        requires { are_printable (string_bytes text) ≡ true }
        ensures { string_bytes result.text ≡ string_bytes text }
    {
        let width = text.len();
        ShortText {
            text,
            lines: 1,
            width,
            is_line: true,
        }
    }
}

/// What the text measures is not found again.
impl Cell for ShortText {
    ghost text = { λ cell. string_bytes cell.text };

    fn text(&self) -> &str {
        self.text.as_str()
    }

    fn count_lines(&self) -> usize {
        self.lines
    }

    fn width(&self) -> usize {
        self.width
    }

    fn dimension(&self) -> (usize, usize) {
        (self.lines, self.width)
    }

    fn single_line(&self) -> Option<SingleLineCell<'_>> {
        if !self.is_line {
            return None;
        }
        Some(SingleLineCell {
            text: self.text.as_str(),
            width: self.width,
        })
    }
}

// Whether a text of so many lines is its only line, as one without ESC is that has one. Fails only where allocation fails.
fn is_only_line(alloc: Global, text: &str, lines: usize) -> Result<bool, AllocError>
    requires { HasLineCount text.now lines }
    ensures { IfOk result (λ is. is ≡ true → (lines ≡ 1) × IsLineAt text.now 0 text.now) }
{
    if lines != 1 {
        return Ok(false);
    }
    if !text.ansi_has_any() {
        return Ok(true);
    }
    let line = text.line(alloc, 0)?;
    Ok(line.as_str() == text)
}
