//! Where a cell has its text.
ghost use Rattle.std.specs.Prelude.{◌≡◌, ◌+◌, ◌≤◌, ◌-◌, IfSome};
ghost use Rattle.basinmug_cells.specs.Fields.{field_text};
ghost use Rattle.basinmug_cells.specs.OwnTexts.{own_texts};
ghost use Rattle.basinmug_cells.specs.Places.{IsPlace, own_place, part_place, place_text};

use crate::field::Field;
use crate::own_text::OwnText;
use crate::single_line::SingleLine;
use std::rc::Rc;

/// Where a cell has its text: in the text of the rows, of which it is a part of one line, or apart from it. It takes 16 bytes
/// of memory.
#[derive(Clone, Copy)]
pub(crate) struct Place {
    /// Where the part begins; or the number of its own text.
    pub start: usize,
    /// How many bytes the part has.
    pub len: u32,
    /// How many columns the part takes.
    pub width: u16,
    /// Whether it has a text of its own.
    pub is_own: bool,
}

impl Place {
    /// The place of a part of a text, which takes so many columns; none where these are 2^16 or more, or its bytes 2^32.
    #[inline(always)]
    pub(crate) fn of_part(start: usize, end: usize, width: usize) -> Option<Place>
        requires { start ≤ end }
        ensures { IfSome result (λ place. place ≡ part_place start (end - start) width) }
    {
        let len = end - start;
        if len > u32::MAX as usize || width > u16::MAX as usize {
            return None;
        }
        Some(Place {
            start,
            len: len as u32,
            width: width as u16,
            is_own: false,
        })
    }

    /// The place of the text of a cell's own with this number.
    #[inline(always)]
    pub(crate) fn of_own(index: usize) -> Place
        ensures { result ≡ own_place index }
    {
        Place {
            start: index,
            len: 0,
            width: 0,
            is_own: true,
        }
    }

    /// The cell at this place of a text, or of these texts apart from it.
    #[inline(always)]
    pub(crate) fn field<'r>(self, text: &'r str, own: &'r [Rc<OwnText>]) -> Field<'r>
        requires { IsPlace text.now (own_texts own.now) self }
        ensures { field_text result ≡ place_text text.now (own_texts own.now) self }
    {
        if self.is_own {
            return Field::Own(own[self.start].as_ref());
        }
        let part = &text[self.start..self.start + self.len as usize];
        Field::Part(SingleLine::new(part, self.width as usize))
    }
}
