//! Taking from columns.
ghost use Rattle.std.specs.Prelude.{◌≡◌, ◌≤◌, ◌<◌, ◌+◌, ◌^◌, length, sum};
ghost use Rattle.tabled_size_priority.specs.LevelRules.Moving.{BeginsWithin, IsTakenFromEach, IsTaken, IsTakenInOrder, IsTakenWhole, NoneRises, Takes, moved_sum, place_of};

use crate::levels::amounts::{least_at, moved_in_all};
use crate::levels::order::Order;
use crate::levels::rule::Rule;
use crate::levels::search::{Moved, number_below};

// Takes from each column what the rule moves at the number.
fn take_each(rule: Rule, number: u128, widths: &mut [usize], least: &[usize])
    requires { Takes rule }
    ensures { IsTakenFromEach rule number least.now widths.old widths.new }
{
    for column in 0..widths.len() {
        let amount = rule.moved(number, widths[column], least_at(least, column));
        widths[column] -= amount as usize;
    }
}

// Takes what the rule moves at the number from one column after the other, in the order, until `amount` is
// taken, and returns the last of them.
fn take_in_order(
    rule: Rule,
    number: u128,
    order: Order,
    widths: &mut [usize],
    least: &[usize],
    amount: u128,
) -> usize
    requires takes { Takes rule }
    requires begins { BeginsWithin order (length widths.old) }
    requires some { 0 < amount }
    requires enough { amount ≤ moved_sum rule number least.now widths.old }
    ensures moved { IsTakenInOrder rule number (place_of order (length widths.old)) least.now widths.old widths.new result }
    ensures lower { NoneRises widths.old widths.new }
    ensures sums { sum widths.new + amount ≡ sum widths.old }
{
    let mut left = amount;
    for place in 0..widths.len() {
        let column = order.column_at(widths.len(), place);
        let most = rule.moved(number, widths[column], least_at(least, column));
        if left <= most {
            widths[column] -= left as usize;
            return column;
        }
        widths[column] -= most as usize;
        left -= most;
    }
    unreachable!()
}

/// Takes `by` columns of width by a rule of columns that give, or all that it can take: from each column what the
/// rule moves at the greatest number at which less than that moves, and the rest in the order, what one number
/// further moves. A missing least is 0. The widths must sum to at most `usize::MAX`, and a round must begin no
/// further than their end.
pub fn take(rule: Rule, order: Order, widths: &mut [usize], least: &[usize], by: usize) -> Moved
    requires takes { Takes rule }
    requires begins { BeginsWithin order (length widths.old) }
    requires range { sum widths.old < 2 ^ 64 }
    ensures taken { IsTaken rule (place_of order (length widths.old)) least.now by widths.old widths.new result.last }
    ensures walks { result.walks ≤ 68 }
{
    let room = moved_in_all(rule, 1 << 64, widths, least);
    let amount = room.min(by as u128);
    if amount == 0 {
        return Moved {
            walks: 1,
            last: None,
        };
    }
    let found = number_below(rule, widths, least, amount);
    take_each(rule, found.number, widths, least);
    let rest = amount - found.moved;
    let last = take_in_order(rule, rule.next(found.number), order, widths, least, rest);
    Moved {
        walks: found.walks + 3,
        last: Some(last),
    }
}

/// Takes `by` columns of width, or all that the widths have above their leasts: from one column after the other, in
/// the order, all that it has. A missing least is 0. The widths must sum to at most `usize::MAX`, and a round must
/// begin no further than their end.
pub fn take_whole(order: Order, widths: &mut [usize], least: &[usize], by: usize) -> Moved
    requires begins { BeginsWithin order (length widths.old) }
    requires range { sum widths.old < 2 ^ 64 }
    ensures taken { IsTakenWhole (place_of order (length widths.old)) least.now by widths.old widths.new result.last }
    ensures walks { result.walks ≤ 2 }
{
    let room = moved_in_all(Rule::Narrowest, 1 << 64, widths, least);
    let amount = room.min(by as u128);
    if amount == 0 {
        return Moved {
            walks: 1,
            last: None,
        };
    }
    let last = take_in_order(Rule::Narrowest, 1 << 64, order, widths, least, amount);
    Moved {
        walks: 2,
        last: Some(last),
    }
}
