//! Searches for a column above its least.
ghost use Rattle.std.specs.Prelude.{◌≤◌, length};
ghost use Rattle.tabled_size_priority.specs.Peaking.{FirstWithin};

use crate::levels::least_at;

// The first column from `start` to `end` that is above its least.
pub(crate) fn first_within(
    least: &[usize],
    widths: &[usize],
    start: usize,
    end: usize,
) -> Option<usize>
    requires { end ≤ length widths.now }
    ensures { FirstWithin least.now widths.now start end result }
{
    for column in start..end {
        if widths[column] > least_at(least, column) {
            return Some(column);
        }
    }
    None
}
