//! Edits of a text, one after another.
ghost use Rattle.std.specs.Prelude.{IfOk, IfSome, IsNone, MatchOption, ◌↔◌, string_bytes};
ghost use Rattle.std.specs.Cow.{cow_str_bytes};
ghost use Rattle.ansi_scan.specs.Pieces.{pieces};
ghost use Rattle.ansi_str.specs.Edits.{FailsOf, LeavesOf, OneFails, TakeInTurn};

use crate::cut::{get, is_good_bound};
use crate::edits::Edit;
use crate::places::split_at;
use crate::trim::{strip_prefix, strip_suffix, trim};
use ansi_str_search::AnsiSplit;
use std::alloc::{AllocError, Global};
use std::borrow::CowStr;

/// What the edits leave of a text, each of what the one before it left; none exactly where one of them
/// fails at its turn. It fails only where allocation fails.
pub fn edit(alloc: Global, text: &str, edits: &[Edit<'_>]) -> Result<Option<String>, AllocError>
    ensures left { IfOk result (λ found. IfSome found (λ left. TakeInTurn edits.now text.now (string_bytes left))) }
    ensures none { IfOk result (λ found. IsNone found ↔ OneFails edits.now text.now) }
{
    let mut left = String::from_str(alloc, text)?;
    for edit in edits {
        let Some(next) = edited(alloc, left.as_str(), *edit)? else {
            return Ok(None);
        };
        left = next.into_owned(alloc)?;
    }
    Ok(Some(left))
}

// What one edit leaves of a text.
fn edited<'a>(
    alloc: Global,
    text: &'a str,
    edit: Edit<'a>,
) -> Result<Option<CowStr<'a>>, AllocError>
    ensures { IfOk result (λ found. MatchOption found (FailsOf edit.entry (pieces text.now))
        (λ left. LeavesOf edit.entry (pieces text.now) (cow_str_bytes left))) }
{
    match edit {
        Edit::Cut { start, end } => get(alloc, text, start, Some(end)),
        Edit::Left(mid) => left_side(alloc, text, mid),
        Edit::Right(mid) => right_side(alloc, text, mid),
        Edit::Part { pattern, index } => part_at(alloc, text, pattern, index),
        Edit::Prefix(prefix) => strip_prefix(alloc, text, prefix),
        Edit::Suffix(suffix) => strip_suffix(alloc, text, suffix),
        Edit::Trim => Ok(Some(trim(alloc, text)?)),
    }
}

// The part before a place.
fn left_side(alloc: Global, text: &str, mid: usize) -> Result<Option<CowStr<'_>>, AllocError>
    ensures { IfOk result (λ found. MatchOption found (FailsOf (Edit.Left mid) (pieces text.now))
        (λ left. LeavesOf (Edit.Left mid) (pieces text.now) (cow_str_bytes left))) }
{
    if !is_good_bound(text, mid) {
        return Ok(None);
    }
    let (left, _) = split_at(alloc, text, mid)?;
    Ok(Some(left))
}

// The part after a place.
fn right_side(alloc: Global, text: &str, mid: usize) -> Result<Option<CowStr<'_>>, AllocError>
    ensures { IfOk result (λ found. MatchOption found (FailsOf (Edit.Right mid) (pieces text.now))
        (λ left. LeavesOf (Edit.Right mid) (pieces text.now) (cow_str_bytes left))) }
{
    if !is_good_bound(text, mid) {
        return Ok(None);
    }
    let (_, right) = split_at(alloc, text, mid)?;
    Ok(Some(right))
}

// The part of a split with this number.
fn part_at<'a>(
    alloc: Global,
    text: &'a str,
    pattern: &'a str,
    index: usize,
) -> Result<Option<CowStr<'a>>, AllocError>
    ensures { IfOk result (λ found. MatchOption found (FailsOf (Edit.Part pattern.entry index) (pieces text.now))
        (λ left. LeavesOf (Edit.Part pattern.entry index) (pieces text.now) (cow_str_bytes left))) }
{
    let mut parts = AnsiSplit::new(alloc, text, pattern);
    for _ in 0..index {
        let Some(part) = parts.next() else {
            return Ok(None);
        };
        part?;
    }
    parts.next().transpose()
}
