//! Texts that are wrapped at a width.
ghost use Rattle.tabled_width_texts.specs.WrappedOrCut.{wrapping_others, wrapping_wider};

use crate::room::RoomChange;
use grid_config::Position;
use grid_records::Text;
use grid_records_traits::records::PeekableRecords;
use std::alloc::{AllocError, Global};
use tabled_size_wrap::{stays, wrap_styled};

/// Wraps a text at the width given to it, as `wrap_styled` does, with words kept whole that fit, or not. A text that
/// clearly stays as it is isn't copied.
#[derive(Drop)]
pub struct WrappingEach {
    pub keep_words: bool,
}

impl RoomChange for WrappingEach {
    ghost fitted = { λ change. wrapping_others change.keep_words };

    fn fit<R: PeekableRecords>(
        &self,
        alloc: Global,
        records: &R,
        pos: Position,
        room: usize,
    ) -> Result<Option<Text>, AllocError> {
        let text = records.get_text(pos);
        if stays(text, room, self.keep_words) {
            return Ok(None);
        }
        let wrapped = wrap_styled(alloc, text, room, self.keep_words)?;
        Ok(Some(Text::new(alloc, wrapped)?))
    }
}

/// Wraps a text that measures more than the width given to it, as `wrap_styled` does, with words
/// kept whole that fit, or not.
#[derive(Drop)]
pub struct WrappingWider {
    pub keep_words: bool,
}

impl RoomChange for WrappingWider {
    ghost fitted = { λ change. wrapping_wider change.keep_words };

    fn fit<R: PeekableRecords>(
        &self,
        alloc: Global,
        records: &R,
        pos: Position,
        room: usize,
    ) -> Result<Option<Text>, AllocError> {
        if records.get_width(pos) <= room {
            return Ok(None);
        }
        let wrapped = wrap_styled(alloc, records.get_text(pos), room, self.keep_words)?;
        Ok(Some(Text::new(alloc, wrapped)?))
    }
}
