//! The narrowest first.
ghost use Rattle.std.specs.Prelude.{◌≡◌, ◌≤◌, ◌<◌, ◌+◌, ◌^◌, Bool, true, false, length, sum};
ghost use Rattle.tabled_size_priority.specs.LevelRules.Moving.{NoneFalls};
ghost use Rattle.tabled_size_priority.specs.Growing.{IsGrownByNarrowest};
ghost use Rattle.tabled_size_priority.specs.Shrinking.{IsShrunkByNarrowest, StaysBetween};

use crate::levels::{Order, Rule, give, least_at, take};
use crate::peaker::Peaker;
use std::marker::Model;

/// The narrowest column that can give or get; of equally narrow ones the leftmost, or the rightmost. It keeps
/// no state but that side.
#[derive(Clone, Copy, Debug, Default, PartialEq, Eq, PartialOrd, Ord, Hash)]
pub struct PriorityMin {
    right: bool,
}

impl Model for PriorityMin {
    ghost Value = { Bool };

    ghost view = { λ p. p.right };

    ghost inverse = { λ right. record { right = right } };
}

impl PriorityMin {
    /// The priority of the narrowest; of equally narrow columns the rightmost goes first where `right` holds,
    /// else the leftmost.
    pub const fn new(right: bool) -> PriorityMin
        ensures { result ≡ right }
    {
        PriorityMin { right }
    }

    /// The priority of the narrowest, of equally narrow columns the leftmost.
    pub const fn left() -> PriorityMin
        ensures { result ≡ false }
    {
        PriorityMin::new(false)
    }

    /// The priority of the narrowest, of equally narrow columns the rightmost.
    pub const fn right() -> PriorityMin
        ensures { result ≡ true }
    {
        PriorityMin::new(true)
    }

    /// Shrinks as `Peaker::shrink` does, and returns the walks over the columns that it took: at most 68.
    pub fn shrink_counted(&mut self, widths: &mut [usize], least: &[usize], by: usize) -> u32
        requires range { sum widths.old < 2 ^ 64 }
        requires leasts { length least.now ≡ length widths.old }
        ensures shrunk { IsShrunkByNarrowest self.old least.now by widths.old widths.new × (self.new ≡ self.old) }
        ensures between { StaysBetween least.now widths.old widths.new }
        ensures at_most { sum widths.old ≤ sum widths.new + by }
        ensures walks { result ≤ 68 }
    {
        let order = Order::FromSide(self.right);
        take(Rule::Narrowest, order, widths, least, by).walks
    }

    /// Grows as `Peaker::grow` does, and returns the walks over the columns that it took: at most 69.
    pub fn grow_counted(&mut self, widths: &mut [usize], by: usize) -> u32
        requires { sum widths.old + by < 2 ^ 64 }
        ensures grown { IsGrownByNarrowest self.old by widths.old widths.new × (self.new ≡ self.old) }
        ensures never_falls { NoneFalls widths.old widths.new }
        ensures at_most { sum widths.new ≤ sum widths.old + by }
        ensures walks { result ≤ 69 }
    {
        // nothing grows where a width is 0
        if widths.contains(&0) {
            return 1;
        }
        1 + give(Rule::Raised, Order::FromSide(self.right), widths, by).walks
    }
}

impl Peaker for PriorityMin {
    ghost use Rattle.tabled_size_priority.specs.Growing.{IsGrownByNarrowest};
    ghost use Rattle.tabled_size_priority.specs.Laws.Order.{narrowest_shrunk};
    ghost use Rattle.tabled_size_priority.specs.Laws.Raising.{narrowest_grown};
    ghost use Rattle.tabled_size_priority.specs.Peaks.{narrowest_peaks};
    ghost use Rattle.tabled_size_priority.specs.Shrinking.{IsShrunkByNarrowest};

    ghost peaks = { narrowest_peaks };

    ghost shrinks = { λ right least by widths after sizes. IsShrunkByNarrowest right least by widths sizes × (after ≡ right) };

    ghost grows = { λ right by widths after sizes. IsGrownByNarrowest right by widths sizes × (after ≡ right) };

    ghost answers_shrink = { narrowest_shrunk };

    ghost answers_grow = { narrowest_grown };

    fn peak(&mut self, mins: &[usize], values: &[usize]) -> Option<usize> {
        // without leasts the narrowest of all is named, and none where it is 0
        if mins.is_empty() && values.contains(&0) {
            return None;
        }
        let mut best: Option<usize> = None;
        for column in 0..values.len() {
            let goes_first = match best {
                None => true,
                Some(first) if self.right => values[column] <= values[first],
                Some(first) => values[column] < values[first],
            };
            if goes_first && values[column] > least_at(mins, column) {
                best = Some(column);
            }
        }
        best
    }

    fn shrink(&mut self, widths: &mut [usize], least: &[usize], by: usize) {
        self.shrink_counted(widths, least, by);
    }

    fn grow(&mut self, widths: &mut [usize], by: usize) {
        self.grow_counted(widths, by);
    }
}
