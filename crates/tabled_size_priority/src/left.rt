//! From the left.
ghost use Rattle.std.specs.Prelude.{◌≡◌, ◌≤◌, ◌<◌, ◌+◌, ◌^◌, false, length, sum};
ghost use Rattle.tabled_size_priority.specs.LevelRules.Moving.{NoneFalls};
ghost use Rattle.tabled_size_priority.specs.Growing.{IsGrownFromSide};
ghost use Rattle.tabled_size_priority.specs.Shrinking.{IsShrunkFromSide, StaysBetween};

use crate::levels::{Order, take_whole};
use crate::peaker::Peaker;
use crate::search::first_within;

/// The leftmost column that can give or get. It keeps no state.
#[derive(Clone, Copy, Debug, Default, PartialEq, Eq, PartialOrd, Ord, Hash)]
pub struct PriorityLeft;

impl PriorityLeft {
    /// The priority of the left.
    pub const fn new() -> PriorityLeft {
        PriorityLeft
    }

    /// Shrinks as `Peaker::shrink` does, and returns the walks over the columns that it took: at most 2.
    pub fn shrink_counted(&mut self, widths: &mut [usize], least: &[usize], by: usize) -> u32
        requires range { sum widths.old < 2 ^ 64 }
        requires leasts { length least.now ≡ length widths.old }
        ensures shrunk { IsShrunkFromSide false least.now by widths.old widths.new }
        ensures between { StaysBetween least.now widths.old widths.new }
        ensures at_most { sum widths.old ≤ sum widths.new + by }
        ensures walks { result ≤ 2 }
    {
        take_whole(Order::FromSide(false), widths, least, by).walks
    }

    /// Grows as `Peaker::grow` does, and returns the walks over the columns that it took: at most 1.
    pub fn grow_counted(&mut self, widths: &mut [usize], by: usize) -> u32
        requires { sum widths.old + by < 2 ^ 64 }
        ensures grown { IsGrownFromSide false by widths.old widths.new }
        ensures never_falls { NoneFalls widths.old widths.new }
        ensures at_most { sum widths.new ≤ sum widths.old + by }
        ensures walks { result ≤ 1 }
    {
        if let Some(column) = self.peak(&[], widths) {
            widths[column] += by;
        }
        1
    }
}

impl Peaker for PriorityLeft {
    ghost use Rattle.tabled_size_priority.specs.Growing.{IsGrownFromSide};
    ghost use Rattle.tabled_size_priority.specs.Laws.Alone.{side_grown};
    ghost use Rattle.tabled_size_priority.specs.Laws.Order.{side_shrunk};
    ghost use Rattle.tabled_size_priority.specs.Peaks.{side_peaks};
    ghost use Rattle.tabled_size_priority.specs.Shrinking.{IsShrunkFromSide};

    ghost peaks = { side_peaks false };

    ghost shrinks = { λ _ least by widths _ sizes. IsShrunkFromSide false least by widths sizes };

    ghost grows = { λ _ by widths _ sizes. IsGrownFromSide false by widths sizes };

    ghost answers_shrink = { λ before least by widths after sizes _ run. side_shrunk false before least by widths after sizes run };

    ghost answers_grow = { side_grown false };

    fn peak(&mut self, mins: &[usize], values: &[usize]) -> Option<usize> {
        first_within(mins, values, 0, values.len())
    }

    fn shrink(&mut self, widths: &mut [usize], least: &[usize], by: usize) {
        self.shrink_counted(widths, least, by);
    }

    fn grow(&mut self, widths: &mut [usize], by: usize) {
        self.grow_counted(widths, by);
    }
}
