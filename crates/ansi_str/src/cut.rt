//! Cuts of a text: the text between two places, with the sequences among and before it.
ghost use Rattle.std.specs.Prelude.{◌≡◌, ◌↔◌, ◌++◌, length, unwrap_or, IfErr, IfOk, IfSome, IsOk, IsTrue, false, string_bytes};
ghost use Rattle.std.specs.Cow.{cow_str_bytes};
ghost use Rattle.ansi_scan.specs.Sequences.{ForPieces};
ghost use Rattle.ansi_scan.specs.Pieces.{pieces};
ghost use Rattle.ansi_scan.specs.StartsAndEnds.{end_bytes};
ghost use Rattle.ansi_str.specs.StyledText.{BorrowsWithoutEscape, has_escape, strip};
ghost use Rattle.ansi_str.specs.Parts.{before_place, IsGoodBound};
ghost use Rattle.ansi_str.specs.Walking.{sequences};
ghost use Rattle.ansi_str.specs.Searches.{IsFoundWhere};
ghost use Rattle.ansi_str.specs.Cuts.{AreGoodBounds, cut_between};
ghost use Rattle.ansi_str.specs.CutEnds.{AreCutEnds};

use crate::ranges::AnsiRange;
use ansi_scan::{Kind, Style};
use ansi_str_search::{Place, behind_item, front, has_escape, split_item, text_len};
use std::alloc::{AllocError, Global};
use std::borrow::CowStr;

/// The cut of a text, where the bounds are good.
pub(crate) fn get(
    alloc: Global,
    text: &str,
    start: usize,
    end: Option<usize>,
) -> Result<Option<CowStr<'_>>, AllocError>
    ensures cut { IfOk result (λ found. ForPieces text.now (λ pieces.
        IsFoundWhere (AreGoodBounds (strip pieces) start end) (λ part. cow_str_bytes part ≡ cut_between start end pieces) found)) }
    ensures answers { has_escape text.now ≡ false → IsOk result }
    ensures borrows { IfOk result (λ found. IfSome found (BorrowsWithoutEscape text.now)) }
    ensures refuses { IfErr result (λ _. ForPieces text.now (λ pieces. AreGoodBounds (strip pieces) start end)) }
{
    if !are_good_bounds(text, start, end) {
        return Ok(None);
    }
    Ok(Some(cut(alloc, text, start, end)?))
}

/// The text between good bounds, with all sequences among and before it.
pub(crate) fn cut(
    alloc: Global,
    text: &str,
    start: usize,
    end: Option<usize>,
) -> Result<CowStr<'_>, AllocError>
    requires { ForPieces text.now (λ pieces. AreGoodBounds (strip pieces) start end) }
    ensures part { IfOk result (λ part. ForPieces text.now (λ pieces. cow_str_bytes part ≡ cut_between start end pieces)) }
    ensures answers { has_escape text.now ≡ false → IsOk result }
    ensures borrows { IfOk result (BorrowsWithoutEscape text.now) }
{
    let (first, last) = cut_ends(text, start, end);
    let slice = front(first.rest, last.rest);
    if last.style.is_plain() && !has_escape(front(text, first.rest)) {
        return Ok(CowStr::Borrowed(slice));
    }
    Ok(CowStr::Owned(joined_cut(alloc, text, start, slice, last.style)?))
}

// Where the slice of a cut begins and ends, with the styles that are known there.
fn cut_ends(text: &str, start: usize, end: Option<usize>) -> (Place<'_>, Place<'_>)
    requires { ForPieces text.now (λ pieces. AreGoodBounds (strip pieces) start end) }
    ensures { AreCutEnds text.now start end result.0.rest.now result.1.rest.now result.1.style }
{
    let first = Place::start_of(text).after(start);
    let end = end.unwrap_or(usize::MAX);
    let last = first.through(end - start);
    (first, last)
}

// The sequences before a cut, its slice of the text, and the end of the style that is then open.
fn joined_cut(
    alloc: Global,
    text: &str,
    start: usize,
    slice: &str,
    style: Style,
) -> Result<String, AllocError>
    ensures { IfOk result (λ out. string_bytes out ≡ sequences (before_place start (pieces text.now)) ++ (slice.now ++ end_bytes style)) }
{
    let before = sequences_before(alloc, text, start)?;
    let end = style.end();
    format!(in alloc; "{before}{slice}{end}")
}

// The sequences among and before the first `n` bytes of text.
fn sequences_before(alloc: Global, text: &str, n: usize) -> Result<String, AllocError>
    ensures { IfOk result (λ out. string_bytes out ≡ sequences (before_place n (pieces text.now))) }
{
    let mut out = String::new(alloc);
    let mut rest = text;
    let mut left = n;
    while left > 0 {
        let Some((kind, bytes, behind)) = split_item(rest) else {
            break;
        };
        match kind {
            Kind::Text => left = left.saturating_sub(bytes.len()),
            _ => out.push_str(bytes)?,
        }
        rest = behind;
    }
    Ok(out)
}

/// Whether a range has good bounds in the text without its sequences, as `ansi_cut` requires. Its end is
/// not below its start, and each that is below the length is a character boundary. For a range without an
/// end it says whether the start is as `ansi_split_at` requires. Does not allocate.
pub fn is_good_range<R: AnsiRange>(text: &str, range: &R) -> bool
    ensures { ForPieces text.now (λ pieces. IsTrue result ↔ AreGoodBounds (strip pieces) (R.start range.now) (R.end range.now)) }
{
    are_good_bounds(text, range.start_place(), range.end_place())
}

// Whether a text can be cut between the bounds.
fn are_good_bounds(text: &str, start: usize, end: Option<usize>) -> bool
    ensures { IsTrue result ↔ AreGoodBounds (strip (pieces text.now)) start end }
{
    match end {
        Some(end) => start <= end && is_good_bound(text, start) && is_good_bound(text, end),
        None => is_good_bound(text, start),
    }
}

/// Whether a text without its sequences has a character boundary at a place, or ends before it.
pub(crate) fn is_good_bound(text: &str, at: usize) -> bool
    ensures { IsTrue result ↔ IsGoodBound (strip (pieces text.now)) at }
{
    let mut rest = text;
    let mut left = at;
    while left > 0 && !rest.is_empty() {
        let len = text_len(rest, left);
        if len == 0 {
            rest = behind_item(rest);
        } else if rest.is_char_boundary(len) {
            rest = &rest[len..];
            left -= len;
        } else {
            return false;
        }
    }
    true
}
