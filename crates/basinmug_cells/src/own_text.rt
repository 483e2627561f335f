//! A text of a cell's own, which is measured once.
ghost use Rattle.std.specs.Prelude.{◌≡◌, IfOk, string_bytes};
ghost use Rattle.basinmug_cells.specs.OwnTexts.{own_text};

use crate::short_text::ShortText;
use grid_records::{Cell, Text};
use grid_records_measure::{get_text_dimension, is_printable};
use grid_records_traits::SingleLineCell;
use std::alloc::{AllocError, Global};
use std::borrow::CowStr;

/// Of a text with more lines than these the place of each line is kept.
const FEW_LINES: usize = 16;

/// A text of a cell's own, which is measured once.
#[derive(Drop)]
pub enum OwnText {
    /// A text of few lines, each of which is looked for from the start.
    Short(ShortText),
    /// A text of many lines, whose places are kept.
    Long(Text),
}

impl OwnText {
    /// This text, which is measured. Fails only where allocation fails.
    pub fn new(alloc: Global, text: String) -> Result<OwnText, AllocError>
        ensures { IfOk result (λ own. own_text own ≡ string_bytes text) }
    {
        if is_printable(&text) {
            return Ok(OwnText::Short(ShortText::of_printable(text)));
        }
        let (lines, width) = get_text_dimension(&text);
        if lines > FEW_LINES {
            return Ok(OwnText::Long(Text::new(alloc, text)?));
        }
        Ok(OwnText::Short(ShortText::new(alloc, text, lines, width)?))
    }
}

/// Passes each request to the text.
impl Cell for OwnText {
    ghost text = { own_text };

    fn text(&self) -> &str {
        match self {
            OwnText::Short(own) => own.text(),
            OwnText::Long(own) => own.text(),
        }
    }

    fn line(&self, alloc: Global, index: usize) -> Result<CowStr<'_>, AllocError> {
        match self {
            OwnText::Short(own) => own.line(alloc, index),
            OwnText::Long(own) => own.line(alloc, index),
        }
    }

    fn count_lines(&self) -> usize {
        match self {
            OwnText::Short(own) => own.count_lines(),
            OwnText::Long(own) => own.count_lines(),
        }
    }

    fn width(&self) -> usize {
        match self {
            OwnText::Short(own) => own.width(),
            OwnText::Long(own) => own.width(),
        }
    }

    fn dimension(&self) -> (usize, usize) {
        match self {
            OwnText::Short(own) => own.dimension(),
            OwnText::Long(own) => own.dimension(),
        }
    }

    fn line_width(&self, index: usize) -> usize {
        match self {
            OwnText::Short(own) => own.line_width(index),
            OwnText::Long(own) => own.line_width(index),
        }
    }

    fn single_line(&self) -> Option<SingleLineCell<'_>> {
        match self {
            OwnText::Short(own) => own.single_line(),
            OwnText::Long(own) => own.single_line(),
        }
    }
}
