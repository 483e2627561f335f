//! A priority with leasts of its own.
ghost use Rattle.std.specs.Prelude.{◌≡◌, length};
ghost use Rattle.tabled_size_priority.specs.Leasts.{OwnLeasts, greater};

use crate::levels::least_at;
use crate::peaker::Peaker;
use crate::search::first_within;
use std::marker::Model;

/// A priority with a least width for each column: columns shrink to the greater of it and of the table's
/// least first, as the priority says, and where that is not enough, on to the table's leasts; it keeps the greater
/// ones. Where it has not as many leasts as there are columns they don't count. Columns grow as the priority says.
#[derive(Debug, Drop)]
pub struct PriorityLeast<P> {
    priority: P,
    leasts: Vec<usize>,
}

impl<P> Model for PriorityLeast<P> {
    ghost Value = { OwnLeasts P };

    ghost view = { λ p. record { priority = p.priority; leasts = p.leasts.items } };
}

impl<P> PriorityLeast<P> {
    /// The priority with these leasts, in columns of text and padding, from the first column on. Does not
    /// allocate.
    pub fn new(priority: P, leasts: Vec<usize>) -> PriorityLeast<P>
        ensures { result ≡ record { priority = priority; leasts = leasts.items } }
    {
        PriorityLeast { priority, leasts }
    }
}

// Raises each least to the other of its column, where that is greater; a missing one is 0.
fn raise(leasts: &mut [usize], others: &[usize])
    ensures { leasts.new ≡ greater leasts.old others.now }
{
    for column in 0..leasts.len() {
        leasts[column] = leasts[column].max(least_at(others, column));
    }
}

impl<P: Peaker> Peaker for PriorityLeast<P> {
    ghost use Rattle.tabled_size_priority.specs.Leasts.{NamesInTwoSteps};
    ghost use Rattle.tabled_size_priority.specs.Running.{IsGrownBy, IsShrunkBy};

    ghost peaks = { NamesInTwoSteps P.peaks };

    ghost shrinks = { IsShrunkBy (NamesInTwoSteps P.peaks) };

    ghost grows = { IsGrownBy (NamesInTwoSteps P.peaks) };

    ghost answers_shrink = { λ _ _ _ _ _ _ _ run. run };

    ghost answers_grow = { λ _ _ _ _ _ run. run };

    fn peak(&mut self, mins: &[usize], values: &[usize]) -> Option<usize> {
        if mins.is_empty() || self.leasts.len() != values.len() {
            return self.priority.peak(mins, values);
        }
        raise(&mut self.leasts, mins);
        match first_within(&self.leasts, values, 0, values.len()) {
            Some(_) => self.priority.peak(&self.leasts, values),
            None => self.priority.peak(mins, values),
        }
    }
}
