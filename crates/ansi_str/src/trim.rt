//! Text taken away at both ends of what a text shows. Every sequence is kept, and none is added.
ghost use Rattle.std.specs.Prelude.{◌≡◌, ◌<◌, ◌≤◌, IfErr, IfOk, IfSome, IsOk, false, length, slice_range, string_bytes};
ghost use Rattle.std.specs.Cow.{cow_str_bytes};
ghost use Rattle.std.specs.Str.{IsCharBoundary};
ghost use Rattle.ansi_scan.specs.Pieces.{pieces as pieces_of};
ghost use Rattle.ansi_scan.specs.Sequences.{ForPieces};
ghost use Rattle.ansi_str.specs.StyledText.{BorrowsWithoutEscape, has_escape, strip};
ghost use Rattle.ansi_str.specs.Searches.{BeginsWith, EndsWith, IsFoundWhere};
ghost use Rattle.ansi_str.specs.Parts.{IsGoodBound};
ghost use Rattle.ansi_str.specs.Keeping.{IsTrimmed, IsTrimmedAt, kept, without_end, without_front};

use ansi_scan::Kind;
use ansi_str_search::{find_end, has_escape, split_item, starts_with, strip_text};
use std::alloc::{AllocError, Global};
use std::borrow::CowStr;

/// The text without the prefix, where what it shows begins with that.
pub(crate) fn strip_prefix<'a>(
    alloc: Global,
    text: &'a str,
    prefix: &str,
) -> Result<Option<CowStr<'a>>, AllocError>
    ensures kept { IfOk result (λ found. ForPieces text.now (λ pieces.
        IsFoundWhere (BeginsWith prefix.now (strip pieces)) (λ left. cow_str_bytes left ≡ without_front (length prefix.now) pieces) found)) }
    ensures answers { has_escape text.now ≡ false → IsOk result }
    ensures borrows { IfOk result (λ found. IfSome found (BorrowsWithoutEscape text.now)) }
    ensures refuses { IfErr result (λ _. ForPieces text.now (λ pieces. BeginsWith prefix.now (strip pieces))) }
{
    if !starts_with(text, prefix) {
        return Ok(None);
    }
    let size = text.len().saturating_sub(prefix.len());
    Ok(Some(keep(alloc, text, prefix.len(), text.len(), size)?))
}

/// The text without the suffix, where what it shows ends with that.
pub(crate) fn strip_suffix<'a>(
    alloc: Global,
    text: &'a str,
    suffix: &str,
) -> Result<Option<CowStr<'a>>, AllocError>
    ensures kept { IfOk result (λ found. ForPieces text.now (λ pieces.
        IsFoundWhere (EndsWith suffix.now (strip pieces)) (λ left. cow_str_bytes left ≡ without_end (length suffix.now) pieces) found)) }
    ensures answers { has_escape text.now ≡ false → IsOk result }
    ensures borrows { IfOk result (λ found. IfSome found (BorrowsWithoutEscape text.now)) }
    ensures refuses { IfErr result (λ _. ForPieces text.now (λ pieces. EndsWith suffix.now (strip pieces))) }
{
    let Some(to) = find_end(text, suffix) else {
        return Ok(None);
    };
    let size = text.len().saturating_sub(suffix.len());
    Ok(Some(keep(alloc, text, 0, to, size)?))
}

/// The text without the white space at both ends of what it shows.
pub(crate) fn trim<'a>(alloc: Global, text: &'a str) -> Result<CowStr<'a>, AllocError>
    ensures trims { IfOk result (λ left. ForPieces text.now (λ pieces. IsTrimmed pieces (cow_str_bytes left))) }
    ensures answers { has_escape text.now ≡ false → IsOk result }
    ensures borrows { IfOk result (BorrowsWithoutEscape text.now) }
{
    let shown = strip_text(alloc, text)?;
    let shown = shown.as_str();
    let (from, to) = trimmed_bounds(shown);
    let size = text.len().saturating_sub(shown.len() - (to - from));
    keep(alloc, text, from, to, size)
}

// Where the text without the white space at both its ends begins and ends in it.
fn trimmed_bounds(text: &str) -> (usize, usize)
    ensures trimmed { IsTrimmedAt text.now result.0 result.1 }
    ensures from { IsCharBoundary text.now result.0 }
    ensures to { IsCharBoundary text.now result.1 }
{
    let left = text.trim_start();
    let from = text.len() - left.len();
    (from, from + left.trim_end().len())
}

// The text from one byte of what it shows to another, with every sequence. A text that allocates
// gets this much.
fn keep<'a>(
    alloc: Global,
    text: &'a str,
    from: usize,
    to: usize,
    size: usize,
) -> Result<CowStr<'a>, AllocError>
    requires from { IsGoodBound (strip (pieces_of text.now)) from }
    requires to { IsGoodBound (strip (pieces_of text.now)) to }
    requires size { size ≤ length text.now }
    ensures kept { IfOk result (λ left. cow_str_bytes left ≡ kept from to (pieces_of text.now)) }
    ensures answers { has_escape text.now ≡ false → IsOk result }
    ensures borrows { IfOk result (BorrowsWithoutEscape text.now) }
{
    if !has_escape(text) {
        return Ok(CowStr::Borrowed(within(text, from, to)));
    }
    Ok(CowStr::Owned(kept_text(alloc, text, from, to, size)?))
}

// The same of a text with sequences.
fn kept_text(
    alloc: Global,
    text: &str,
    from: usize,
    to: usize,
    size: usize,
) -> Result<String, AllocError>
    requires from { IsGoodBound (strip (pieces_of text.now)) from }
    requires to { IsGoodBound (strip (pieces_of text.now)) to }
    requires size { size ≤ length text.now }
    ensures { IfOk result (λ out. string_bytes out ≡ kept from to (pieces_of text.now)) }
{
    let mut out = String::with_capacity(alloc, size)?;
    let mut rest = text;
    let mut place = 0;
    while let Some((kind, bytes, behind)) = split_item(rest) {
        if let Kind::Text = kind {
            let from = from.saturating_sub(place);
            let to = to.saturating_sub(place);
            out.push_str(within(bytes, from, to))?;
            place += bytes.len();
        } else {
            out.push_str(bytes)?;
        }
        rest = behind;
    }
    Ok(out)
}

// The text from one byte to another, where those after the end are the end.
fn within(text: &str, from: usize, to: usize) -> &str
    requires from { IsGoodBound text.now from }
    requires to { IsGoodBound text.now to }
    ensures { result.now ≡ slice_range text.now from to }
{
    let to = to.min(text.len());
    &text[from.min(to)..to]
}
