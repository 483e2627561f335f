//! The cells of one line of a table in a requested width, with what they measure then.
ghost use Rattle.std.specs.Prelude.{◌≡◌, ◌∷◌, [], IfOk, if◌then◌else◌, unwrap_or};
ghost use Rattle.std.specs.Cow.{cow_str_bytes};
ghost use Rattle.std.specs.Option.{option_map};
ghost use Rattle.grid_records_measure.specs.TextLines.{text_lines, text_width};
ghost use Rattle.tabled_size_wrap.specs.Cells.Resizing.{Wrap, Cut, resized_text};

use crate::asked::WidthLimit;
use grid_records_measure::is_printable;
use std::alloc::{AllocError, Global};
use std::borrow::CowStr;
use tabled_size_wrap::{MeasuredText, cut_styled, stays, wrap_line};

/// A text that is its only line and takes `columns` columns, resized to the width that its column leaves: wrapped
/// there, or cut where it takes more; with what its lines measure, so that they are not measured again. None where it
/// fits and clearly stays as it is, so that it can be borrowed. A text without ESC and without line feeds is such a
/// line, and so is one that opens and ends its own styles. It fails only where allocation fails.
pub fn resized_line<'a>(
    alloc: Global,
    asked: &WidthLimit,
    line: &'a str,
    columns: usize,
    room: usize,
) -> Result<Option<MeasuredText<'a>>, AllocError>
    requires one { text_lines line.now ≡ line.now ∷ [] }
    requires columns { columns ≡ text_width line.now }
    ensures { IfOk result (λ made. unwrap_or (option_map (λ text. cow_str_bytes text.text) made) line.now
        ≡ resized_text (if asked.now.truncate then Cut room else Wrap room asked.now.keep_words) line.now) }
{
    if columns <= room && (asked.truncate || stays(line, room, asked.keep_words)) {
        return Ok(None);
    }
    if asked.truncate {
        return Ok(Some(measured(cut_styled(alloc, line, room)?)));
    }
    Ok(Some(wrap_line(alloc, line, room, asked.keep_words)?))
}

// The text with what its lines measure. Printable ASCII, as most is, is one line that takes a column for each byte.
fn measured<'a>(text: CowStr<'a>) -> MeasuredText<'a>
    ensures { cow_str_bytes result.text ≡ cow_str_bytes text.entry }
{
    if !is_printable(&text) {
        return MeasuredText::new(text);
    }
    let columns = text.len();
    MeasuredText {
        text,
        lines: 1,
        columns,
    }
}
