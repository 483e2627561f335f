//! The widths of columns whose table is to be narrower.
ghost use Rattle.std.specs.Prelude.{◌≡◌, ◌≤◌, ◌<◌, ◌^◌, ℕ, IfOk, OnErr, OnOk, EachIndex, length, slice_index, sum};
ghost use Rattle.basinmug_columns.specs.Rooms.{AreShrunkWidths, can_give, first_room, first_rooms, kept_rooms, least_rooms, narrow_room, need_at, needed_room, needed_rooms};

use std::alloc::{AllocError, Global};
use tabled_size_priority::Choice;

/// One column of text, and a padding at each side.
pub(crate) const ONE_COLUMN: usize = 3;

/// Two columns of text, and a padding at each side.
const TWO_COLUMNS: usize = 4;

/// What a column needs.
#[derive(Clone, Copy, Debug, PartialEq, Eq)]
pub struct Need {
    /// Whether it is of numbers.
    pub is_numeric: bool,
    /// How many columns of the terminal it needs to be readable, with a padding at each side.
    pub width: usize,
}

/// Takes `by` columns, or as many as can be taken, of widths of columns with a padding at each side: the columns of
/// numbers give none while others can. Among those that give the priority decides. Each column keeps what it needs,
/// where that leaves `by`; else two columns of text, or one, where two leave less than `by` and one does not. The
/// widths sum to at most `usize::MAX`. Fails only where allocation fails, and then nothing has changed.
pub fn shrink_columns(
    alloc: Global,
    widths: &mut [usize],
    needs: &[Need],
    by: usize,
    priority: Choice,
) -> Result<(), AllocError>
    requires { sum widths.old < 2 ^ 64 }
    ensures rooms { OnOk result (AreShrunkWidths priority needs.now by widths.old widths.new) }
    ensures kept { OnErr result (widths.new ≡ widths.old) }
{
    let kept = kept_rooms(alloc, widths, needs, by)?;
    let first = first_rooms(alloc, widths, needs, &kept)?;
    let before = sum_of(widths);
    priority.shrink(widths, &first, by);
    let given = before - sum_of(widths);
    priority.shrink(widths, &kept, by.saturating_sub(given));
    Ok(())
}

// What each column keeps in any case.
fn kept_rooms(
    alloc: Global,
    widths: &[usize],
    needs: &[Need],
    by: usize,
) -> Result<Vec<usize>, AllocError>
    requires { sum widths.now < 2 ^ 64 }
    ensures { IfOk result (λ made. made.items ≡ kept_rooms needs.now by widths.now) }
{
    let needed = needed_rooms(alloc, widths, needs)?;
    if can_give(by, widths, &needed) {
        return Ok(needed);
    }
    let narrow = narrow_room(alloc, widths, by)?;
    least_rooms(alloc, widths, narrow)
}

// What each of columns keeps that can't all have what they need.
fn narrow_room(alloc: Global, widths: &[usize], by: usize) -> Result<usize, AllocError>
    requires { sum widths.now < 2 ^ 64 }
    ensures { IfOk result (λ room. room ≡ narrow_room by widths.now) }
{
    let two = least_rooms(alloc, widths, TWO_COLUMNS)?;
    if can_give(by, widths, &two) {
        return Ok(TWO_COLUMNS);
    }
    let one = least_rooms(alloc, widths, ONE_COLUMN)?;
    if can_give(by, widths, &one) {
        return Ok(ONE_COLUMN);
    }
    Ok(TWO_COLUMNS)
}

// Whether columns can give so many columns together, where each keeps this width, which is no more than it has.
fn can_give(by: usize, widths: &[usize], kept: &[usize]) -> bool
    requires range { sum widths.now < 2 ^ 64 }
    requires within { sum kept.now ≤ sum widths.now }
    ensures { result ≡ can_give by widths.now kept.now }
{
    by <= sum_of(widths) - sum_of(kept)
}

// Each column at what it needs, or at its width where that is less.
fn needed_rooms(alloc: Global, widths: &[usize], needs: &[Need]) -> Result<Vec<usize>, AllocError>
    ensures { IfOk result (λ made. made.items ≡ needed_rooms needs.now widths.now) }
{
    let mut kept = Vec::with_capacity(alloc, widths.len())?;
    for column in 0..widths.len() {
        kept.push(needed_room(needs, column, widths[column]))?;
    }
    Ok(kept)
}

// The same of a column of this width.
fn needed_room(needs: &[Need], column: usize, width: usize) -> usize
    ensures { result ≡ needed_room needs.now column width }
{
    width.min(need_at(needs, column).width)
}

/// What a column needs; one past the last is empty.
pub(crate) fn need_at(needs: &[Need], column: usize) -> Need
    ensures { result ≡ need_at needs.now column }
{
    match needs.get(column) {
        Some(need) => *need,
        None => Need {
            is_numeric: false,
            width: 2,
        },
    }
}

// Each column at this width, or at its own where that is less.
fn least_rooms(alloc: Global, widths: &[usize], room: usize) -> Result<Vec<usize>, AllocError>
    ensures { IfOk result (λ made. made.items ≡ least_rooms room widths.now) }
{
    let mut kept = Vec::with_capacity(alloc, widths.len())?;
    for width in widths {
        kept.push((*width).min(room))?;
    }
    Ok(kept)
}

// What each column keeps while others can give.
fn first_rooms(
    alloc: Global,
    widths: &[usize],
    needs: &[Need],
    kept: &[usize],
) -> Result<Vec<usize>, AllocError>
    ensures { IfOk result (λ made. made.items ≡ first_rooms needs.now kept.now widths.now) }
{
    let mut first = Vec::with_capacity(alloc, widths.len())?;
    for column in 0..widths.len() {
        first.push(first_room(needs, kept, column, widths[column]))?;
    }
    Ok(first)
}

// What a column of this width keeps while others can give: one of numbers all.
fn first_room(needs: &[Need], kept: &[usize], column: usize, width: usize) -> usize
    ensures { result ≡ first_room needs.now kept.now column width }
{
    if need_at(needs, column).is_numeric {
        width
    } else {
        kept.get(column).copied().unwrap_or(0)
    }
}

// The sum of widths that is in the range of `usize`.
fn sum_of(widths: &[usize]) -> usize
    requires { sum widths.now < 2 ^ 64 }
    ensures { result ≡ sum widths.now }
{
    widths.iter().sum()
}
