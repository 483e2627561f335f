//! Texts whose lines are filled up to a width.
ghost use Rattle.std.specs.Prelude.{◌≡◌, ◌++◌, [], ◌∷◌, encode_utf8_all, IfOk, OnOk, map, string_bytes};
ghost use Rattle.std.specs.List.{join_with_byte, repeat};
ghost use Rattle.grid_records_measure.specs.TextLines.{line_feed, text_lines};
ghost use Rattle.tabled_width_texts.specs.Filling.{filled_line, filling};

use crate::lines::{LineChange, change_lines};
use crate::room::RoomChange;
use grid_config::Position;
use grid_records::Text;
use grid_records_measure::get_line_width;
use grid_records_traits::records::PeekableRecords;
use std::alloc::{AllocError, Global};

/// Fills the lines of a text that measures less than the width given to it with this character.
#[derive(Drop)]
pub struct Filling {
    pub fill: char,
}

impl RoomChange for Filling {
    ghost fitted = { λ change width text. filling change.fill width text };

    fn fit<R: PeekableRecords>(
        &self,
        alloc: Global,
        records: &R,
        pos: Position,
        room: usize,
    ) -> Result<Option<Text>, AllocError> {
        if records.get_width(pos) >= room {
            return Ok(None);
        }
        let filled = fill_lines(alloc, records.get_text(pos), room, self.fill)?;
        Ok(Some(Text::new(alloc, filled)?))
    }
}

/// The text with each of its lines filled up to the width. Fails only where allocation fails.
pub(crate) fn fill_lines(
    alloc: Global,
    text: &str,
    width: usize,
    fill: char,
) -> Result<String, AllocError>
    ensures { IfOk result (λ out. string_bytes out ≡ join_with_byte line_feed (map (filled_line width fill) (text_lines text.now))) }
{
    change_lines(alloc, text, &FilledLine { width, fill })
}

// A line, filled up to a width.
#[derive(Drop)]
struct FilledLine {
    width: usize,
    fill: char,
}

impl LineChange for FilledLine {
    ghost becomes = { λ change line. filled_line change.width change.fill line };

    fn push_line(&self, _alloc: Global, out: &mut String, line: &str) -> Result<(), AllocError> {
        out.push_str(line)?;
        let count = self.width.saturating_sub(get_line_width(line));
        push_repeated(out, self.fill, count)?;
        Ok(())
    }
}

/// Appends a character `count` times. Memory for all of them is allocated at once, so that an amount past what
/// memory holds is refused before the first.
pub(crate) fn push_repeated(out: &mut String, c: char, count: usize) -> Result<(), AllocError>
    ensures { OnOk result (string_bytes out.new ≡ string_bytes out.old ++ repeat count (encode_utf8_all (c ∷ []))) }
{
    out.try_reserve(count.saturating_mul(c.len_utf8()))?;
    push_each(out, c, count)
}

fn push_each(out: &mut String, c: char, count: usize) -> Result<(), AllocError>
    ensures { OnOk result (string_bytes out.new ≡ string_bytes out.old ++ repeat count (encode_utf8_all (c ∷ []))) }
{
    for _ in 0..count {
        out.push(c)?;
    }
    Ok(())
}
