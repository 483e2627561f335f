//! A cell as it is looked at.
ghost use Rattle.std.specs.Prelude.{◌≡◌};

use crate::own_text::OwnText;
use crate::single_line::SingleLine;
use grid_records_traits::{Cell, SingleLineCell};
use std::alloc::{AllocError, Global};
use std::borrow::CowStr;

/// A cell as it is looked at: a part of a text, which is one line of it, or a text of its own. What is known of its text
/// is not found again.
#[derive(Clone, Copy)]
pub enum Field<'r> {
    /// A part of another text, which is one line.
    Part(SingleLine<'r>),
    /// A text of its own.
    Own(&'r OwnText),
}

impl<'r> Cell for Field<'r> {
    ghost use Rattle.basinmug_cells.specs.Fields.{field_text};

    ghost text = { field_text };

    #[inline(always)]
    fn text(&self) -> &str {
        match self {
            Field::Part(part) => part.text,
            Field::Own(own) => own.text(),
        }
    }

    fn line(&self, alloc: Global, index: usize) -> Result<CowStr<'_>, AllocError> {
        match self {
            Field::Part(part) => Ok(CowStr::Borrowed(part.line(index))),
            Field::Own(own) => own.line(alloc, index),
        }
    }

    #[inline(always)]
    fn count_lines(&self) -> usize {
        match self {
            Field::Part(_) => 1,
            Field::Own(own) => own.count_lines(),
        }
    }

    #[inline(always)]
    fn width(&self) -> usize {
        match self {
            Field::Part(part) => part.width,
            Field::Own(own) => own.width(),
        }
    }

    #[inline(always)]
    fn dimension(&self) -> (usize, usize) {
        match self {
            Field::Part(part) => (1, part.width),
            Field::Own(own) => own.dimension(),
        }
    }

    fn line_width(&self, index: usize) -> usize {
        match self {
            Field::Part(part) => part.text.line_width(index),
            Field::Own(own) => own.line_width(index),
        }
    }

    #[inline(always)]
    fn single_line(&self) -> Option<SingleLineCell<'_>> {
        match self {
            Field::Part(part) => Some(SingleLineCell {
                text: part.text,
                width: part.width,
            }),
            Field::Own(own) => own.single_line(),
        }
    }
}
