//! The priority of a name.
use crate::left::PriorityLeft;
use crate::max::PriorityMax;
use crate::min::PriorityMin;
use crate::none::PriorityNone;
use crate::peaker::Peaker;
use crate::right::PriorityRight;

/// The priority of a name, as `Choice::priority` gives it: it holds the one that is named, does what that one
/// does, and keeps what that one keeps.
#[derive(Clone, Copy, Debug, PartialEq, Eq)]
pub enum PriorityChosen {
    /// One column after the other.
    None(PriorityNone),
    /// The narrowest column first.
    Min(PriorityMin),
    /// The widest column first.
    Max(PriorityMax),
    /// The leftmost column first.
    Left(PriorityLeft),
    /// The rightmost column first.
    Right(PriorityRight),
}

impl Peaker for PriorityChosen {
    ghost use Rattle.tabled_size_priority.specs.Chosen.{chosen_grows, chosen_peaks, chosen_shrinks};
    ghost use Rattle.tabled_size_priority.specs.Laws.Held.{chosen_grown, chosen_shrunk};

    ghost peaks = { chosen_peaks };

    ghost shrinks = { chosen_shrinks };

    ghost grows = { chosen_grows };

    ghost answers_shrink = { chosen_shrunk };

    ghost answers_grow = { chosen_grown };

    fn peak(&mut self, mins: &[usize], values: &[usize]) -> Option<usize> {
        match self {
            PriorityChosen::None(priority) => priority.peak(mins, values),
            PriorityChosen::Min(priority) => priority.peak(mins, values),
            PriorityChosen::Max(priority) => priority.peak(mins, values),
            PriorityChosen::Left(priority) => priority.peak(mins, values),
            PriorityChosen::Right(priority) => priority.peak(mins, values),
        }
    }

    fn shrink(&mut self, widths: &mut [usize], least: &[usize], by: usize) {
        match self {
            PriorityChosen::None(priority) => priority.shrink(widths, least, by),
            PriorityChosen::Min(priority) => priority.shrink(widths, least, by),
            PriorityChosen::Max(priority) => priority.shrink(widths, least, by),
            PriorityChosen::Left(priority) => priority.shrink(widths, least, by),
            PriorityChosen::Right(priority) => priority.shrink(widths, least, by),
        }
    }

    fn grow(&mut self, widths: &mut [usize], by: usize) {
        match self {
            PriorityChosen::None(priority) => priority.grow(widths, by),
            PriorityChosen::Min(priority) => priority.grow(widths, by),
            PriorityChosen::Max(priority) => priority.grow(widths, by),
            PriorityChosen::Left(priority) => priority.grow(widths, by),
            PriorityChosen::Right(priority) => priority.grow(widths, by),
        }
    }
}
