//! Rows that were worked out by hand.
use crate::sums::fits;
use std::io;
use std::io::Print;
use tabled_size_priority::Choice;

// The widths and leasts are the first `count` of each.
struct Row {
    choice: Choice,
    widths: [usize; 3],
    least: [usize; 3],
    count: usize,
    by: usize,
}

const SHRINKS: [Row; 11] = [
    Row {
        choice: Choice::None,
        widths: [6, 7, 6],
        least: [2, 2, 2],
        count: 3,
        by: 8,
    },
    Row {
        choice: Choice::MaxRight,
        widths: [6, 7, 6],
        least: [2, 2, 2],
        count: 3,
        by: 8,
    },
    Row {
        choice: Choice::Left,
        widths: [6, 7, 6],
        least: [2, 2, 2],
        count: 3,
        by: 8,
    },
    Row {
        choice: Choice::Right,
        widths: [6, 7, 6],
        least: [2, 2, 2],
        count: 3,
        by: 8,
    },
    Row {
        choice: Choice::MinLeft,
        widths: [6, 6, 0],
        least: [0, 0, 0],
        count: 2,
        by: 1,
    },
    Row {
        choice: Choice::MinRight,
        widths: [6, 6, 0],
        least: [0, 0, 0],
        count: 2,
        by: 1,
    },
    Row {
        choice: Choice::MaxLeft,
        widths: [0, 0, 0],
        least: [0, 0, 0],
        count: 0,
        by: 3,
    },
    Row {
        choice: Choice::None,
        widths: [0, 0, 0],
        least: [0, 0, 0],
        count: 3,
        by: 3,
    },
    Row {
        choice: Choice::MaxLeft,
        widths: [3, 1, 5],
        least: [1, 1, 9],
        count: 3,
        by: 50,
    },
    Row {
        choice: Choice::None,
        widths: [5, 1, 3],
        least: [0, 1, 2],
        count: 3,
        by: 4,
    },
    Row {
        choice: Choice::MinLeft,
        widths: [4, 2, 3],
        least: [1, 1, 1],
        count: 3,
        by: 2,
    },
];

const GROWTHS: [Row; 8] = [
    Row {
        choice: Choice::MinLeft,
        widths: [0, 3, 0],
        least: [0, 0, 0],
        count: 2,
        by: 4,
    },
    Row {
        choice: Choice::MinRight,
        widths: [1, 4, 1],
        least: [0, 0, 0],
        count: 3,
        by: 3,
    },
    Row {
        choice: Choice::MaxLeft,
        widths: [3, 4, 4],
        least: [0, 0, 0],
        count: 3,
        by: 3,
    },
    Row {
        choice: Choice::MaxRight,
        widths: [3, 4, 4],
        least: [0, 0, 0],
        count: 3,
        by: 3,
    },
    Row {
        choice: Choice::None,
        widths: [1, 0, 1],
        least: [0, 0, 0],
        count: 3,
        by: 5,
    },
    Row {
        choice: Choice::Left,
        widths: [0, 2, 3],
        least: [0, 0, 0],
        count: 3,
        by: 2,
    },
    Row {
        choice: Choice::Right,
        widths: [3, 2, 0],
        least: [0, 0, 0],
        count: 3,
        by: 2,
    },
    Row {
        choice: Choice::None,
        widths: [0, 0, 0],
        least: [0, 0, 0],
        count: 3,
        by: 2,
    },
];

/// Prints what the priorities make of worked rows.
pub(crate) fn print_rows(rt: &impl Print) -> io::Result<()> {
    for row in &SHRINKS {
        let mut sizes = row.widths;
        let count = row.count.min(3);
        let least = row.least;
        if fits(&sizes[..count], 0) {
            row.choice
                .shrink(&mut sizes[..count], &least[..count], row.by);
        }
        println!(rt;
            "{:?} shrinks {:?} by {}, least {:?}: {:?}",
            row.choice,
            &row.widths[..count],
            row.by,
            &least[..count],
            &sizes[..count]
        )?;
    }
    for row in &GROWTHS {
        let mut sizes = row.widths;
        let count = row.count.min(3);
        if fits(&sizes[..count], row.by) {
            row.choice.grow(&mut sizes[..count], row.by);
        }
        println!(rt;
            "{:?} grows {:?} by {}: {:?}",
            row.choice,
            &row.widths[..count],
            row.by,
            &sizes[..count]
        )?;
    }
    Ok(())
}
