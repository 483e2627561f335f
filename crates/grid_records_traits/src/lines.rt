//! One line of a text.
ghost use Rattle.std.specs.Prelude.{◌≡◌, IfOk, IsOk, false};
ghost use Rattle.std.specs.Cow.{cow_str_bytes};
ghost use Rattle.grid_records_measure.specs.StyledText.{BorrowsWithoutEscape, has_escape};
ghost use Rattle.grid_records_traits.specs.Cells.{HasLineWidth, IsLineAt};

use grid_records_measure::{get_line_width, get_lines, split_line};
use std::alloc::{AllocError, Global};
use std::borrow::CowStr;

/// The line of a text with this number, or the empty text after the last.
pub(crate) fn line_of<'a>(
    alloc: Global,
    text: &'a str,
    index: usize,
) -> Result<CowStr<'a>, AllocError>
    ensures line { IfOk result (λ out. IsLineAt text.now index (cow_str_bytes out)) }
    ensures answers { has_escape text.now ≡ false → IsOk result }
    ensures borrows { IfOk result (BorrowsWithoutEscape text.now) }
{
    let mut before = index;
    for line in get_lines(alloc, text) {
        let line = line?;
        if before == 0 {
            return Ok(line);
        }
        before -= 1;
    }
    Ok(CowStr::Borrowed(""))
}

/// The columns of this line.
pub(crate) fn line_width_of(text: &str, index: usize) -> usize
    ensures { HasLineWidth text.now index result }
{
    let mut rest = text;
    for _ in 0..index {
        let (_, behind) = split_line(rest);
        match behind {
            Some(lines) => rest = lines,
            None => return 0,
        }
    }
    let (line, _) = split_line(rest);
    get_line_width(line)
}
