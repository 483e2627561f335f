//! Priorities by name.
ghost use Rattle.std.specs.Prelude.{◌≡◌, ◌+◌, ◌^◌, ◌<◌, length, sum};
ghost use Rattle.tabled_size_priority.specs.Choices.{IsGrownByChoice, IsShrunkByChoice};
ghost use Rattle.tabled_size_priority.specs.Chosen.{chosen};

use crate::chosen::PriorityChosen;
use crate::left::PriorityLeft;
use crate::max::PriorityMax;
use crate::min::PriorityMin;
use crate::none::PriorityNone;
use crate::peaker::Peaker;
use crate::right::PriorityRight;

/// A priority by its name, for a setting that is to hold any of them.
#[derive(Clone, Copy, Debug, PartialEq, Eq)]
pub enum Choice {
    /// `PriorityNone`: one column after the other, from the first.
    None,
    /// `PriorityMin`: the narrowest column first, of equally narrow ones the leftmost.
    MinLeft,
    /// `PriorityMin`: the narrowest column first, of equally narrow ones the rightmost.
    MinRight,
    /// `PriorityMax`: the widest column first, of equally wide ones the leftmost.
    MaxLeft,
    /// `PriorityMax`: the widest column first, of equally wide ones the rightmost.
    MaxRight,
    /// `PriorityLeft`: the leftmost column first.
    Left,
    /// `PriorityRight`: the rightmost column first.
    Right,
}

impl Choice {
    /// The priority of this name, as its constructor gives it: for what takes a `Peaker`.
    pub const fn priority(self) -> PriorityChosen
        ensures { result ≡ chosen self }
    {
        match self {
            Choice::None => PriorityChosen::None(PriorityNone::new()),
            Choice::MinLeft => PriorityChosen::Min(PriorityMin::left()),
            Choice::MinRight => PriorityChosen::Min(PriorityMin::right()),
            Choice::MaxLeft => PriorityChosen::Max(PriorityMax::left()),
            Choice::MaxRight => PriorityChosen::Max(PriorityMax::right()),
            Choice::Left => PriorityChosen::Left(PriorityLeft::new()),
            Choice::Right => PriorityChosen::Right(PriorityRight::new()),
        }
    }

    /// Shrinks the widths by `by` columns as the priority of this name does, as its constructor gives it:
    /// see `Peaker::shrink`. The widths must sum to at most `usize::MAX`, and have as many leasts.
    pub fn shrink(self, widths: &mut [usize], least: &[usize], by: usize)
        requires range { sum widths.old < 2 ^ 64 }
        requires leasts { length least.now ≡ length widths.old }
        ensures { IsShrunkByChoice self least.now by widths.old widths.new }
    {
        self.priority().shrink(widths, least, by);
    }

    /// Grows the widths by `by` columns as the priority of this name does, as its constructor gives it:
    /// see `Peaker::grow`. The widths and `by` must sum to at most `usize::MAX`.
    pub fn grow(self, widths: &mut [usize], by: usize)
        requires { sum widths.old + by < 2 ^ 64 }
        ensures { IsGrownByChoice self by widths.old widths.new }
    {
        self.priority().grow(widths, by);
    }
}
