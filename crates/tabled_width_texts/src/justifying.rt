//! Texts that are filled, and then cut, to a width.
ghost use Rattle.std.specs.Prelude.{◌≡◌, IfOk};
ghost use Rattle.grid_records_traits.specs.Cells.{HasWidth};
ghost use Rattle.tabled_width_texts.specs.WrappedOrCut.{cutting_wider, justifying};

use crate::filling::fill_lines;
use crate::room::RoomChange;
use grid_config::Position;
use grid_records::Text;
use grid_records_traits::records::{Cell, PeekableRecords};
use std::alloc::{AllocError, Global};
use tabled_size_wrap::cut_styled;

/// Fills the lines of a text with spaces up to the width given to it, and then cuts it there, as `cut_styled` does.
#[derive(Drop)]
pub struct Justifying;

impl RoomChange for Justifying {
    ghost fitted = { λ _. justifying };

    fn fit<R: PeekableRecords>(
        &self,
        alloc: Global,
        records: &R,
        pos: Position,
        room: usize,
    ) -> Result<Option<Text>, AllocError> {
        let text = records.get_text(pos);
        let width = records.get_width(pos);
        if width >= room {
            return cut_measured(alloc, text, width, room);
        }
        let filled = Text::new(alloc, fill_lines(alloc, text, room, ' ')?)?;
        let cut = cut_measured(alloc, filled.text(), filled.width(), room)?;
        Ok(cut.or(Some(filled)))
    }
}

// The cut of a text that measures so many columns, where they are more than the width.
fn cut_measured(
    alloc: Global,
    text: &str,
    columns: usize,
    width: usize,
) -> Result<Option<Text>, AllocError>
    requires { HasWidth text.now columns }
    ensures { IfOk result (λ out. out ≡ cutting_wider width text.now) }
{
    if columns <= width {
        return Ok(None);
    }
    let cut = cut_styled(alloc, text, width)?.into_owned(alloc)?;
    Ok(Some(Text::new(alloc, cut)?))
}
