//! New numbers for calls, where the last one has been given.
ghost use Rattle.std.specs.Prelude.{◌≡◌, ◌<◌, ◌≤◌, map};
ghost use Rattle.grid_config_values.specs.Numbers.{AreBelow, AreRenumbered, IsLeastFrom, calls_for, numbers, numbers_of, renumbered};

use crate::numbered::Numbered;
use crate::position::Position;

/// The number of the next call, where this one is it if any is left. At the last one the calls get new numbers
/// first, in their order from 0 on. Does not allocate.
pub(crate) fn next_number<T>(
    next: u128,
    columns: &mut Vec<Numbered<usize, T>>,
    rows: &mut Vec<Numbered<usize, T>>,
    cells: &mut Vec<Numbered<Position, T>>,
) -> u128
    requires { AreBelow next (numbers (calls_for columns.old.items rows.old.items cells.old.items)) }
    ensures renumbered { AreRenumbered columns.old.items rows.old.items cells.old.items columns.new.items rows.new.items cells.new.items }
    ensures below { AreBelow result (numbers (calls_for columns.new.items rows.new.items cells.new.items)) }
    ensures left { result < u128.MAX }
{
    if next < u128::MAX {
        return next;
    }
    number_anew(columns, rows, cells)
}

// Gives the calls new numbers, in their order from 0 on, and says which is the next.
fn number_anew<T>(
    columns: &mut Vec<Numbered<usize, T>>,
    rows: &mut Vec<Numbered<usize, T>>,
    cells: &mut Vec<Numbered<Position, T>>,
) -> u128
    requires { AreBelow u128.MAX (numbers (calls_for columns.old.items rows.old.items cells.old.items)) }
    ensures renumbered { AreRenumbered columns.old.items rows.old.items cells.old.items columns.new.items rows.new.items cells.new.items }
    ensures below { AreBelow result (numbers (calls_for columns.new.items rows.new.items cells.new.items)) }
    ensures left { result < u128.MAX }
{
    let mut next = 0;
    let mut least = least_of(next, columns.as_slice(), rows.as_slice(), cells.as_slice());
    while least < u128::MAX {
        renumber(columns, least, next);
        renumber(rows, least, next);
        renumber(cells, least, next);
        next += 1;
        least = least_of(next, columns.as_slice(), rows.as_slice(), cells.as_slice());
    }
    next
}

// The least number of a call from this one on; the last of all numbers, where there is none.
fn least_of<T>(
    from: u128,
    columns: &[Numbered<usize, T>],
    rows: &[Numbered<usize, T>],
    cells: &[Numbered<Position, T>],
) -> u128
    ensures { IsLeastFrom from u128.MAX (numbers (calls_for columns.now rows.now cells.now)) result }
{
    let least = least_from(from, u128::MAX, columns);
    let least = least_from(from, least, rows);
    least_from(from, least, cells)
}

// The least number from `from` on, or this one if it is less.
fn least_from<K, T>(from: u128, most: u128, kept: &[Numbered<K, T>]) -> u128
    requires { from ≤ most }
    ensures { IsLeastFrom from most (numbers_of kept.now) result }
{
    let mut least = most;
    for one in kept {
        if from <= one.number && one.number < least {
            least = one.number;
        }
    }
    least
}

// Gives the number `to` to what has the number `from`.
fn renumber<K, T>(kept: &mut Vec<Numbered<K, T>>, from: u128, to: u128)
    ensures { kept.new.items ≡ map (renumbered from to) kept.old.items }
{
    for i in 0..kept.len() {
        if kept[i].number == from {
            kept[i].number = to;
        }
    }
}
