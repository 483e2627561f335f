//! How much moves of all columns.
ghost use Rattle.std.specs.Prelude.{◌≡◌, ◌≤◌, ◌^◌, slice_index};
ghost use Rattle.tabled_size_priority.specs.LevelRules.Moving.{moved_sum};

use crate::levels::rule::Rule;

/// The least of a column, 0 where it is missing.
pub fn least_at(least: &[usize], column: usize) -> usize
    ensures { result ≡ slice_index least.now column }
{
    least.get(column).copied().unwrap_or(0)
}

// How much all columns give, or get, at the number.
pub(crate) fn moved_in_all(rule: Rule, number: u128, widths: &[usize], least: &[usize]) -> u128
    requires { number ≤ 2 ^ 64 }
    ensures { result ≡ moved_sum rule number least.now widths.now }
{
    let mut sum = 0;
    for (column, width) in widths.iter().enumerate() {
        sum += rule.moved(number, *width, least_at(least, column));
    }
    sum
}
