//! Giving to columns.
ghost use Rattle.std.specs.Prelude.{◌≡◌, ◌≤◌, ◌<◌, ◌+◌, ◌^◌, [], length, sum};
ghost use Rattle.tabled_size_priority.specs.LevelRules.Moving.{BeginsWithin, Gives, IsGivenToEach, IsGiven, IsGivenInOrder, NoneFalls, moved_sum, place_of};

use crate::levels::amounts::moved_in_all;
use crate::levels::order::Order;
use crate::levels::rule::Rule;
use crate::levels::search::{Moved, number_below};

// Gives to each column what the rule moves at the number.
fn give_each(rule: Rule, number: u128, widths: &mut [usize])
    requires { sum widths.old + moved_sum rule number [] widths.old < 2 ^ 64 }
    ensures { IsGivenToEach rule number widths.old widths.new }
{
    for column in 0..widths.len() {
        let amount = rule.moved(number, widths[column], 0);
        widths[column] += amount as usize;
    }
}

// Gives what the rule moves at the number to one column after the other, in the order, until `amount` is
// given, and returns the last of them.
fn give_in_order(
    rule: Rule,
    number: u128,
    order: Order,
    widths: &mut [usize],
    amount: u128,
) -> usize
    requires begins { BeginsWithin order (length widths.old) }
    requires some { 0 < amount }
    requires range { sum widths.old + amount < 2 ^ 64 }
    requires enough { amount ≤ moved_sum rule number [] widths.old }
    ensures moved { IsGivenInOrder rule number (place_of order (length widths.old)) widths.old widths.new result }
    ensures higher { NoneFalls widths.old widths.new }
    ensures sums { sum widths.new ≡ sum widths.old + amount }
{
    let mut left = amount;
    for place in 0..widths.len() {
        let column = order.column_at(widths.len(), place);
        let most = rule.moved(number, widths[column], 0);
        if left <= most {
            widths[column] += left as usize;
            return column;
        }
        widths[column] += most as usize;
        left -= most;
    }
    unreachable!()
}

/// Gives `by` columns of width by a rule of columns that get, or all that it can give: to each column what the rule
/// moves at the greatest number at which less than that moves, and the rest in the order, what one number further
/// moves. The widths and `by` must sum to at most `usize::MAX`, and a round must begin no further than their end.
pub fn give(rule: Rule, order: Order, widths: &mut [usize], by: usize) -> Moved
    requires gives { Gives rule }
    requires begins { BeginsWithin order (length widths.old) }
    requires range { sum widths.old + by < 2 ^ 64 }
    ensures given { IsGiven rule (place_of order (length widths.old)) by widths.old widths.new result.last }
    ensures walks { result.walks ≤ 68 }
{
    let room = moved_in_all(rule, 1 << 64, widths, &[]);
    let amount = room.min(by as u128);
    if amount == 0 {
        return Moved {
            walks: 1,
            last: None,
        };
    }
    let found = number_below(rule, widths, &[], amount);
    give_each(rule, found.number, widths);
    let rest = amount - found.moved;
    let last = give_in_order(rule, rule.next(found.number), order, widths, rest);
    Moved {
        walks: found.walks + 3,
        last: Some(last),
    }
}
