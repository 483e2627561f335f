//! The widest first.
ghost use Rattle.std.specs.Prelude.{◌≡◌, ◌≤◌, ◌<◌, ◌+◌, ◌^◌, Bool, true, false, length, sum};
ghost use Rattle.tabled_size_priority.specs.LevelRules.Moving.{NoneFalls};
ghost use Rattle.tabled_size_priority.specs.Growing.{IsGrownByWidest};
ghost use Rattle.tabled_size_priority.specs.Shrinking.{IsShrunkByWidest, StaysBetween};

use crate::levels::{Order, Rule, least_at, take};
use crate::peaker::Peaker;
use std::marker::Model;

/// The widest column that can give or get; of equally wide ones the leftmost, or the rightmost. It keeps
/// no state but that side.
#[derive(Clone, Copy, Debug, Default, PartialEq, Eq, PartialOrd, Ord, Hash)]
pub struct PriorityMax {
    right: bool,
}

impl Model for PriorityMax {
    ghost Value = { Bool };

    ghost view = { λ p. p.right };

    ghost inverse = { λ right. record { right = right } };
}

impl PriorityMax {
    /// The priority of the widest; of equally wide columns the rightmost goes first where `right` holds,
    /// else the leftmost.
    pub const fn new(right: bool) -> PriorityMax
        ensures { result ≡ right }
    {
        PriorityMax { right }
    }

    /// The priority of the widest, of equally wide columns the leftmost.
    pub const fn left() -> PriorityMax
        ensures { result ≡ false }
    {
        PriorityMax::new(false)
    }

    /// The priority of the widest, of equally wide columns the rightmost.
    pub const fn right() -> PriorityMax
        ensures { result ≡ true }
    {
        PriorityMax::new(true)
    }

    /// Shrinks as `Peaker::shrink` does, and returns the walks over the columns that it took: at most 68.
    pub fn shrink_counted(&mut self, widths: &mut [usize], least: &[usize], by: usize) -> u32
        requires range { sum widths.old < 2 ^ 64 }
        requires leasts { length least.now ≡ length widths.old }
        ensures shrunk { IsShrunkByWidest self.old least.now by widths.old widths.new × (self.new ≡ self.old) }
        ensures between { StaysBetween least.now widths.old widths.new }
        ensures at_most { sum widths.old ≤ sum widths.new + by }
        ensures walks { result ≤ 68 }
    {
        take(Rule::Widest, Order::FromSide(self.right), widths, least, by).walks
    }

    /// Grows as `Peaker::grow` does, and returns the walks over the columns that it took: at most 1.
    pub fn grow_counted(&mut self, widths: &mut [usize], by: usize) -> u32
        requires { sum widths.old + by < 2 ^ 64 }
        ensures grown { IsGrownByWidest self.old by widths.old widths.new × (self.new ≡ self.old) }
        ensures never_falls { NoneFalls widths.old widths.new }
        ensures at_most { sum widths.new ≤ sum widths.old + by }
        ensures walks { result ≤ 1 }
    {
        if let Some(column) = self.peak(&[], widths) {
            widths[column] += by;
        }
        1
    }
}

impl Peaker for PriorityMax {
    ghost use Rattle.tabled_size_priority.specs.Growing.{IsGrownByWidest};
    ghost use Rattle.tabled_size_priority.specs.Laws.Alone.{widest_grown};
    ghost use Rattle.tabled_size_priority.specs.Laws.Levels.{widest_shrunk};
    ghost use Rattle.tabled_size_priority.specs.Peaks.{widest_peaks};
    ghost use Rattle.tabled_size_priority.specs.Shrinking.{IsShrunkByWidest};

    ghost peaks = { widest_peaks };

    ghost shrinks = { λ right least by widths after sizes. IsShrunkByWidest right least by widths sizes × (after ≡ right) };

    ghost grows = { λ right by widths after sizes. IsGrownByWidest right by widths sizes × (after ≡ right) };

    ghost answers_shrink = { λ right least by widths after sizes _ run. widest_shrunk right least by widths after sizes run };

    ghost answers_grow = { widest_grown };

    fn peak(&mut self, mins: &[usize], values: &[usize]) -> Option<usize> {
        let mut best: Option<usize> = None;
        for column in 0..values.len() {
            let goes_first = match best {
                None => true,
                Some(first) if self.right => values[first] <= values[column],
                Some(first) => values[first] < values[column],
            };
            if goes_first && values[column] > least_at(mins, column) {
                best = Some(column);
            }
        }
        best
    }

    fn shrink(&mut self, widths: &mut [usize], least: &[usize], by: usize) {
        self.shrink_counted(widths, least, by);
    }

    fn grow(&mut self, widths: &mut [usize], by: usize) {
        self.grow_counted(widths, by);
    }
}
