//! Values with the numbers of the calls that set them, sorted by what they were set for.
ghost use Rattle.std.specs.Prelude.{◌≡◌, ◌<◌, ◌≤◌, IfErr, IfOk, OnErr, OnOk, length, map};
ghost use Rattle.std.specs.Ordering.{nat_cmp};
ghost use Rattle.grid_config_values.specs.Numbers.{AreRising, IsAt, IsFound, IsGapFor, Keeps, keys_of, later, renumbered, seen};
ghost use Rattle.grid_config_values.specs.Order.{position_cmp};

use crate::clone_in::CloneIn;
use crate::position::Position;
use std::alloc::{AllocError, Global};
use std::cmp::Ordering;

/// A value that was set for a column, a row or a cell, and the number of the call that set it.
#[derive(Debug, Drop)]
pub(crate) struct Numbered<K, T> {
    pub(crate) key: K,
    pub(crate) number: u128,
    pub(crate) value: T,
}

// What is kept for the key: the number of the call and the value. Looks at as few as a binary search does.
fn found<K: Ord + Copy, T>(kept: &[Numbered<K, T>], key: K) -> Option<(u128, &T)>
    requires { AreRising K.cmp (keys_of kept.now) }
    ensures { IsFound K.cmp kept.now key (seen result) }
{
    match place(kept, key) {
        Ok(at) => {
            let one = &kept[at];
            Some((one.number, &one.value))
        }
        Err(_) => None,
    }
}

/// Keeps one for its key, in place of what was kept for that. Fails only where nothing was and allocation fails;
/// then nothing has changed.
pub(crate) fn keep<K: Ord + Copy + Drop, T: Drop>(
    kept: &mut Vec<Numbered<K, T>>,
    one: Numbered<K, T>,
) -> Result<(), AllocError>
    requires { AreRising K.cmp (keys_of kept.old.items) }
    ensures ok { OnOk result (Keeps K.cmp kept.old.items kept.new.items one) }
    ensures err { OnErr result (kept.new.items ≡ kept.old.items) }
{
    match place(kept, one.key) {
        Ok(at) => kept[at] = one,
        Err(at) => kept.insert(at, one)?,
    }
    Ok(())
}

/// What is kept for the column or the row of this number. Where all from the first to the last one have a value it
/// is at the place that is looked at first.
pub(crate) fn found_line<T>(lines: &[Numbered<usize, T>], line: usize) -> Option<(u128, &T)>
    requires { AreRising nat_cmp (keys_of lines.now) }
    ensures { IsFound nat_cmp lines.now line (seen result) }
{
    let Some(first) = lines.first() else {
        return None;
    };
    match lines.get(line.wrapping_sub(first.key)) {
        Some(one) if one.key == line => Some((one.number, &one.value)),
        _ => found(lines, line),
    }
}

/// What is kept for the cell at this place. Where the cells from the first to the last one are all those of some rows
/// and columns it is at the place that is looked at first.
pub(crate) fn found_cell<T>(cells: &[Numbered<Position, T>], pos: Position) -> Option<(u128, &T)>
    requires { AreRising position_cmp (keys_of cells.now) }
    ensures { IsFound position_cmp cells.now pos (seen result) }
{
    let Some(first) = cells.first() else {
        return None;
    };
    let Some(last) = cells.last() else {
        return None;
    };
    match cells.get(expected_place(first.key, last.key, pos)) {
        Some(one) if one.key == pos => Some((one.number, &one.value)),
        _ => found(cells, pos),
    }
}

// Which of the cells this one is, by rows, where they are all those of some rows and columns.
fn expected_place(first: Position, last: Position, pos: Position) -> usize {
    let columns = last.col.wrapping_sub(first.col).wrapping_add(1);
    let before = pos.row.wrapping_sub(first.row).wrapping_mul(columns);
    before.wrapping_add(pos.col.wrapping_sub(first.col))
}

// Where the key is, or where it would go. One that is greater than the last is not searched for.
fn place<K: Ord + Copy, T>(kept: &[Numbered<K, T>], key: K) -> Result<usize, usize>
    requires { AreRising K.cmp (keys_of kept.now) }
    ensures at { IfOk result (IsAt K.cmp (keys_of kept.now) key) }
    ensures gap { IfErr result (IsGapFor K.cmp (keys_of kept.now) key) }
{
    match kept.last() {
        Some(last) if last.key.cmp(&key) == Ordering::Less => Err(kept.len()),
        _ => kept.binary_search_by_key(&key, |one| one.key),
    }
}

/// Of two values with the numbers of their calls the one of the later call.
pub(crate) fn later_of<'a, T>(
    one: Option<(u128, &'a T)>,
    other: Option<(u128, &'a T)>,
) -> Option<(u128, &'a T)>
    ensures { seen result ≡ later (seen one.entry) (seen other.entry) }
{
    match (one, other) {
        (None, _) => other,
        (_, None) => one,
        (Some((first, _)), Some((second, _))) => if second < first { one } else { other },
    }
}

/// The same again. Fails only where allocation fails.
pub(crate) fn copied<K: Copy, T: CloneIn>(
    kept: &[Numbered<K, T>],
    alloc: Global,
) -> Result<Vec<Numbered<K, T>>, AllocError>
    ensures { IfOk result (λ copy. copy.items ≡ kept.now) }
{
    let mut copy = Vec::new(alloc);
    for one in kept {
        copy.push(Numbered {
            key: one.key,
            number: one.number,
            value: one.value.clone_in(alloc)?,
        })?;
    }
    Ok(copy)
}
