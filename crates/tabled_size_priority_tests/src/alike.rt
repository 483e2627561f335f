//! The priorities beside the trait's own bodies, which request one column after another.
ghost use Rattle.std.specs.Prelude.{◌≤◌};

use crate::sums::fits;
use crate::sweep::{COUNTS, numbers};
use std::io;
use std::io::Print;
use tabled_size_priority::{
    Peaker, PriorityLeft, PriorityMax, PriorityMin, PriorityNone, PriorityRight,
};

// Hands `peak` on, and shrinks and grows by the trait's own bodies.
#[derive(Clone, Copy, Drop)]
struct OneByOne<P> {
    inner: P,
}

impl<P: Peaker> Peaker for OneByOne<P> {
    ghost use Rattle.tabled_size_priority.specs.Running.{IsGrownBy, IsShrunkBy};

    ghost peaks = { λ before least widths answer after. P.peaks before.inner least widths answer after.inner };

    ghost shrinks = { IsShrunkBy (λ before least widths answer after. P.peaks before.inner least widths answer after.inner) };

    ghost grows = { IsGrownBy (λ before least widths answer after. P.peaks before.inner least widths answer after.inner) };

    ghost answers_shrink = { λ _ _ _ _ _ _ _ run. run };

    ghost answers_grow = { λ _ _ _ _ _ run. run };

    fn peak(&mut self, mins: &[usize], values: &[usize]) -> Option<usize> {
        self.inner.peak(mins, values)
    }
}

// The widths that come of it, and which column is then named.
#[derive(Clone, Copy, PartialEq, Eq)]
struct Outcome {
    sizes: [usize; 3],
    next: Option<usize>,
}

// Through its bound alone.
fn shrunk<P: Peaker + Drop>(
    priority: P,
    widths: [usize; 3],
    least: &[usize],
    by: usize,
) -> Outcome {
    let mut priority = priority;
    let mut sizes = widths;
    let count = least.len().min(3);
    if fits(&sizes[..count], 0) {
        priority.shrink(&mut sizes[..count], &least[..count], by);
    }
    let next = priority.peak(&[], &[1, 1, 1, 1]);
    Outcome { sizes, next }
}

fn grown<P: Peaker + Drop>(priority: P, widths: [usize; 3], count: usize, by: usize) -> Outcome
    requires { count ≤ 3 }
{
    let mut priority = priority;
    let mut sizes = widths;
    if fits(&sizes[..count], by) {
        priority.grow(&mut sizes[..count], by);
    }
    let next = priority.peak(&[], &[1, 1, 1, 1]);
    Outcome { sizes, next }
}

// Every list of up to three widths below 6, every list of leasts, every amount.
fn print_alike<P: Peaker + Copy + Drop>(
    rt: &impl Print,
    name: &str,
    priority: P,
) -> io::Result<()> {
    let slow = OneByOne { inner: priority };
    let mut alike: u32 = 0;
    let mut other: u32 = 0;
    for count in 0..4 {
        for index in 0..COUNTS[count] {
            let widths = numbers(index);
            for by in 0..6 {
                for least_index in 0..COUNTS[count] {
                    let least = numbers(least_index);
                    if shrunk(priority, widths, &least[..count], by)
                        == shrunk(slow, widths, &least[..count], by)
                    {
                        alike = alike.wrapping_add(1);
                    } else {
                        other = other.wrapping_add(1);
                    }
                }
                if grown(priority, widths, count, by) == grown(slow, widths, count, by) {
                    alike = alike.wrapping_add(1);
                } else {
                    other = other.wrapping_add(1);
                }
            }
        }
    }
    println!(rt; "{name}: {alike} as one column at a time, {other} not")
}

/// Prints how often a priority and the trait's own bodies over it differ.
pub(crate) fn print_all_alike(rt: &impl Print) -> io::Result<()> {
    // the one that goes round also where it goes on after some columns
    let mut none = PriorityNone::new();
    for _ in 0..5 {
        print_alike(rt, "none", none)?;
        let _next = none.peak(&[], &[1, 1, 1, 1, 1]);
    }
    print_alike(rt, "left", PriorityLeft::new())?;
    print_alike(rt, "right", PriorityRight::new())?;
    print_alike(rt, "min left", PriorityMin::left())?;
    print_alike(rt, "min right", PriorityMin::right())?;
    print_alike(rt, "max left", PriorityMax::left())?;
    print_alike(rt, "max right", PriorityMax::right())
}
