//! The cut of a text at a width.
ghost use Rattle.std.specs.Prelude.{◌≡◌, ◌≤◌, ◌<◌, ◌-◌, ◌++◌, IfOk, IfSome, IsOk, OnOk, length, replicate, chars, encode_utf8_all, string_bytes};
ghost use Rattle.std.specs.Cow.{IsOwnedStr, cow_str_bytes};
ghost use Rattle.ansi_scan.specs.Sequences.{ForPieces};
ghost use Rattle.ansi_scan.specs.Pieces.{pieces as pieces_of};
ghost use Rattle.ansi_str.specs.StyledText.{strip};
ghost use Rattle.grid_records_measure.specs.Cutting.{IsCutAt, CutIsFront, lacking, replacement};
ghost use Rattle.grid_records_measure.specs.CutTexts.{cut_at};
ghost use Rattle.grid_records_measure.specs.Filling.{behind_front, columns_with, fitting_front, front_columns};

use crate::characters::cost;
use crate::printable::is_printable;
use ansi_str::{AnsiStr, get_blocks};
use std::alloc::{AllocError, Global};
use std::borrow::CowStr;

/// The longest prefix of a text that fits: its lines but the last cost fewer columns than the width, and its
/// last costs at most the width. Where text is left after it, a U+FFFD without style follows for each column
/// that its last line lacks. A character costs the larger of 1 and its own width. The prefix is taken by
/// `ansi_cut`. A text without ESC whose cut lacks no column is returned as a borrow, without
/// allocating; else it fails only where allocation fails.
pub fn cut_width<'a>(alloc: Global, text: &'a str, width: usize) -> Result<CowStr<'a>, AllocError>
    ensures cut { IfOk result (λ out. ForPieces text.now (λ pieces. IsCutAt width pieces (cow_str_bytes out))) }
    ensures answers { CutIsFront width text.now → IsOk result }
    ensures borrows { IfOk result (λ out. CutIsFront width text.now → ¬ (IsOwnedStr out)) }
    ensures text { IfOk result (λ out. cow_str_bytes out ≡ cut_at width text.now) }
{
    let (place, lacking) = place_and_lacking(text, width);
    if lacking == 0 && !text.ansi_has_any() {
        return Ok(CowStr::Borrowed(&text[..place]));
    }
    let mut out = text.ansi_cut(alloc, ..place)?.into_owned(alloc)?;
    push_replacements(&mut out, lacking)?;
    Ok(CowStr::Owned(out))
}

// How many bytes of the shown text fit, and how many columns the last line then lacks where text is left.
fn place_and_lacking(text: &str, width: usize) -> (usize, usize)
    ensures place { result.0 ≡ length (encode_utf8_all (fitting_front width 0 (chars (strip (pieces_of text.now))))) }
    ensures left { result.1 ≡ lacking width (fitting_front width 0 (chars (strip (pieces_of text.now)))) (behind_front width 0 (chars (strip (pieces_of text.now)))) }
{
    if let Some(place) = printable_front(text, width) {
        return (place, 0);
    }
    let mut place = 0;
    let mut used = 0;
    for block in get_blocks(text) {
        let shown = block.text();
        let (len, columns) = fill(shown, width, used);
        place += len;
        used = columns;
        if len < shown.len() {
            return (place, width - used);
        }
    }
    (place, 0)
}

// How many bytes fit of a text whose first bytes are printable ASCII, as many as the width or all: just these, and
// the last line lacks no column. `None` for any other text.
fn printable_front(text: &str, width: usize) -> Option<usize>
    ensures place { IfSome result (λ place. place ≡ length (encode_utf8_all (fitting_front width 0 (chars (strip (pieces_of text.now)))))) }
    ensures left { IfSome result (λ _. 0 ≡ lacking width (fitting_front width 0 (chars (strip (pieces_of text.now)))) (behind_front width 0 (chars (strip (pieces_of text.now))))) }
{
    let room = width.min(text.len());
    let (front, _) = text.split_at_checked(room)?;
    if is_printable(front) {
        Some(room)
    } else {
        None
    }
}

// How many bytes of a text without sequences fit after `before` columns of a line, and the columns of the
// line after them.
fn fill(text: &str, width: usize, before: usize) -> (usize, usize)
    requires { before ≤ width }
    ensures len { result.0 ≡ length (encode_utf8_all (fitting_front width before (chars text.now))) }
    ensures columns { result.1 ≡ front_columns width before (chars text.now) }
    ensures fits { result.1 ≤ width }
{
    let mut len = 0;
    let mut used = before;
    for c in text.chars() {
        let Some(columns) = columns_with(c, used, width) else {
            return (len, used);
        };
        used = columns;
        len += c.len_utf8();
    }
    (len, used)
}

/// The columns of a line with a character after `used` columns, where it fits: it costs the larger of 1
/// and its own width, and no more than is left of the width. A line feed, where a column is left, begins a
/// line. Does not allocate.
pub fn columns_with(c: char, used: usize, width: usize) -> Option<usize>
    requires { used ≤ width }
    ensures columns { result ≡ columns_with width used c }
    ensures fits { IfSome result (λ columns. columns ≤ width) }
{
    if used == width {
        return None;
    }
    if c == '\n' {
        return Some(0);
    }
    let cost = cost(c);
    if cost <= width - used {
        Some(used + cost)
    } else {
        None
    }
}

// Appends `n` replacement characters.
fn push_replacements(out: &mut String, n: usize) -> Result<(), AllocError>
    ensures { OnOk result (string_bytes out.new ≡ string_bytes out.old ++ encode_utf8_all (replicate n replacement)) }
{
    for _ in 0..n {
        out.push('\u{fffd}')?;
    }
    Ok(())
}
