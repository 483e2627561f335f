//! Which columns the priorities name, what they keep between calls, and how they compare.
use crate::sums::fits;
use std::io;
use std::io::Print;
use tabled_size_priority::{
    Choice, Peaker, Priority, PriorityLeft, PriorityMax, PriorityMin, PriorityNone, PriorityRight,
};

// The leasts are the first `leasts` of them, the widths the first `count`.
struct Case {
    least: [usize; 3],
    leasts: usize,
    widths: [usize; 3],
    count: usize,
}

// Without leasts, with too few, and with all of them.
const CASES: [Case; 10] = [
    Case {
        least: [0, 0, 0],
        leasts: 0,
        widths: [1, 1, 0],
        count: 2,
    },
    Case {
        least: [0, 0, 0],
        leasts: 0,
        widths: [1, 1, 0],
        count: 2,
    },
    Case {
        least: [0, 0, 0],
        leasts: 0,
        widths: [1, 1, 1],
        count: 3,
    },
    Case {
        least: [0, 0, 0],
        leasts: 0,
        widths: [0, 3, 0],
        count: 2,
    },
    Case {
        least: [0, 0, 0],
        leasts: 2,
        widths: [0, 3, 0],
        count: 2,
    },
    Case {
        least: [1, 0, 0],
        leasts: 1,
        widths: [1, 2, 2],
        count: 3,
    },
    Case {
        least: [0, 0, 0],
        leasts: 0,
        widths: [3, 5, 5],
        count: 3,
    },
    Case {
        least: [4, 3, 1],
        leasts: 3,
        widths: [4, 5, 2],
        count: 3,
    },
    Case {
        least: [9, 9, 9],
        leasts: 3,
        widths: [4, 5, 2],
        count: 3,
    },
    Case {
        least: [0, 0, 0],
        leasts: 0,
        widths: [0, 0, 0],
        count: 0,
    },
];

fn print_peaks<P: Peaker + Drop>(rt: &impl Print, name: &str, priority: P) -> io::Result<()> {
    let mut priority = priority;
    for case in &CASES {
        let least = &case.least[..case.leasts.min(3)];
        let widths = &case.widths[..case.count.min(3)];
        let named = priority.peak(least, widths);
        println!(rt; "{name} {least:?} {widths:?}: {named:?}")?;
    }
    Ok(())
}

// The priority that goes round goes on where it was.
fn print_rounds(rt: &impl Print) -> io::Result<()> {
    let mut none = PriorityNone::new();
    let mut sizes = [3, 0, 3, 3];
    for by in [2, 0, 3, 9, 1] {
        if fits(&sizes, 0) {
            none.shrink(&mut sizes, &[0, 1, 1, 0], by);
        }
        println!(rt; "shrunk by {by}: {sizes:?}, {none:?}")?;
    }
    let mut sizes = [3, 0, 3, 3];
    for by in [2, 0, 3, 8, 1] {
        if fits(&sizes, by) {
            none.grow(&mut sizes, by);
        }
        println!(rt; "grown by {by}: {sizes:?}, {none:?}")?;
    }
    Ok(())
}

fn print_values(rt: &impl Print) -> io::Result<()> {
    let none = PriorityNone::default();
    let mut asked = none;
    let _first = asked.peak(&[], &[1, 1]);
    let equal = [
        none == PriorityNone::new(),
        none == asked,
        PriorityMin::default() == PriorityMin::left(),
        PriorityMin::left() == PriorityMin::right(),
        PriorityMax::default() == PriorityMax::left(),
        PriorityMax::left() == PriorityMax::right(),
        PriorityLeft::default() == PriorityLeft::new(),
        PriorityRight::default() == PriorityRight::new(),
        Priority::default() == Priority,
        Choice::MinLeft == Choice::MinRight,
    ];
    println!(rt; "equal: {equal:?}")?;
    let less = [
        none < asked,
        PriorityMin::left() < PriorityMin::right(),
        PriorityMax::right() < PriorityMax::left(),
    ];
    println!(rt; "less: {less:?}")
}

/// Prints what the priorities keep from one call to the next.
pub(crate) fn print_states(rt: &impl Print) -> io::Result<()> {
    print_peaks(rt, "none", Priority::none())?;
    print_peaks(rt, "left", Priority::left())?;
    print_peaks(rt, "right", Priority::right())?;
    print_peaks(rt, "min left", Priority::min(false))?;
    print_peaks(rt, "min right", PriorityMin::right())?;
    print_peaks(rt, "max left", PriorityMax::left())?;
    print_peaks(rt, "max right", Priority::max(true))?;
    print_rounds(rt)?;
    print_values(rt)
}
