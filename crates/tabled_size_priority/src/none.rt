//! One column after the other.
ghost use Rattle.std.specs.Prelude.{◌≡◌, ◌≤◌, ◌<◌, ◌+◌, ◌^◌, ℕ, length, sum, IfSome, MatchOption};
ghost use Rattle.tabled_size_priority.specs.LevelRules.Moving.{NoneFalls};
ghost use Rattle.tabled_size_priority.specs.Shrinking.{StaysBetween};
ghost use Rattle.tabled_size_priority.specs.Peaks.{start_of};
ghost use Rattle.tabled_size_priority.specs.Turns.{grows_in_turns, shrinks_in_turns};

use crate::levels::{Order, Rule, give, take};
use crate::peaker::Peaker;
use crate::search::first_within;
use std::marker::Model;

/// One column after the other that can give or get, round and round from the first. It keeps the column
/// at which it goes on: the one after the last that it named, or the first where a list has no such
/// column.
#[derive(Clone, Copy, Debug, Default, PartialEq, Eq, PartialOrd, Ord, Hash)]
pub struct PriorityNone {
    next: usize,
}

impl Model for PriorityNone {
    ghost Value = { ℕ };

    ghost view = { λ p. p.next };

    ghost inverse = { λ next. record { next = next } };
}

impl PriorityNone {
    /// The priority that begins at the first column.
    pub const fn new() -> PriorityNone
        ensures { result ≡ 0 }
    {
        PriorityNone { next: 0 }
    }

    /// Shrinks as `Peaker::shrink` does, and returns the walks over the columns that it took: at most 68.
    pub fn shrink_counted(&mut self, widths: &mut [usize], least: &[usize], by: usize) -> u32
        requires range { sum widths.old < 2 ^ 64 }
        requires leasts { length least.now ≡ length widths.old }
        ensures shrunk { shrinks_in_turns self.old least.now by widths.old self.new widths.new }
        ensures between { StaysBetween least.now widths.old widths.new }
        ensures at_most { sum widths.old ≤ sum widths.new + by }
        ensures walks { result ≤ 68 }
    {
        let order = Order::FromColumn(self.start(widths.len()));
        let moved = take(Rule::Turns, order, widths, least, by);
        self.go_behind(moved.last);
        moved.walks
    }

    /// Grows as `Peaker::grow` does, and returns the walks over the columns that it took: at most 68.
    pub fn grow_counted(&mut self, widths: &mut [usize], by: usize) -> u32
        requires { sum widths.old + by < 2 ^ 64 }
        ensures grown { grows_in_turns self.old by widths.old self.new widths.new }
        ensures never_falls { NoneFalls widths.old widths.new }
        ensures at_most { sum widths.new ≤ sum widths.old + by }
        ensures walks { result ≤ 68 }
    {
        let order = Order::FromColumn(self.start(widths.len()));
        let moved = give(Rule::Shared, order, widths, by);
        self.go_behind(moved.last);
        moved.walks
    }

    // The column, of `count` columns, at which a round begins.
    fn start(&self, count: usize) -> usize
        ensures { result ≡ start_of self.now count }
    {
        if self.next < count { self.next } else { 0 }
    }

    // Goes on after a column, or stays.
    fn go_behind(&mut self, last: Option<usize>)
        requires { IfSome last (λ column. column + 1 < 2 ^ 64) }
        ensures { MatchOption last (self.new ≡ self.old) (λ column. self.new ≡ column + 1) }
    {
        if let Some(column) = last {
            self.next = column + 1;
        }
    }
}

impl Peaker for PriorityNone {
    ghost use Rattle.tabled_size_priority.specs.Laws.Turns.{turns_grown, turns_shrunk};
    ghost use Rattle.tabled_size_priority.specs.Peaks.{turn_peaks};
    ghost use Rattle.tabled_size_priority.specs.Turns.{grows_in_turns, shrinks_in_turns};

    ghost peaks = { turn_peaks };

    ghost shrinks = { shrinks_in_turns };

    ghost grows = { grows_in_turns };

    ghost answers_shrink = { λ before least by widths after sizes _ run. turns_shrunk before least by widths after sizes run };

    ghost answers_grow = { turns_grown };

    fn peak(&mut self, mins: &[usize], values: &[usize]) -> Option<usize> {
        let count = values.len();
        let start = self.start(count);
        let named = match first_within(mins, values, start, count) {
            None => first_within(mins, values, 0, start),
            found => found,
        };
        self.go_behind(named);
        named
    }

    fn shrink(&mut self, widths: &mut [usize], least: &[usize], by: usize) {
        self.shrink_counted(widths, least, by);
    }

    fn grow(&mut self, widths: &mut [usize], by: usize) {
        self.grow_counted(widths, by);
    }
}
