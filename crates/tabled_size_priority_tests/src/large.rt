//! Widths, amounts and lists that are too large to be taken column by column.
use crate::sums::fits;
use crate::sweep::CHOICES;
use std::alloc::{AllocError, Global};
use std::io;
use std::io::Print;
use tabled_size_priority::{
    Choice, PriorityLeft, PriorityMax, PriorityMin, PriorityNone, PriorityRight,
};

const HALF: usize = 9_223_372_036_854_775_808;

const QUARTER: usize = 4_611_686_018_427_387_904;

const EIGHTH: usize = 2_305_843_009_213_693_952;

fn print_shrunk(
    rt: &impl Print,
    choice: Choice,
    widths: [usize; 2],
    least: [usize; 2],
    by: usize,
) -> io::Result<()> {
    let mut sizes = widths;
    if fits(&sizes, 0) {
        choice.shrink(&mut sizes, &least, by);
    }
    println!(rt; "{choice:?} shrinks {widths:?} by {by}, least {least:?}: {sizes:?}")
}

fn print_grown(rt: &impl Print, choice: Choice, widths: &[usize], by: usize) -> io::Result<()> {
    let mut sizes = [0; 3];
    let count = widths.len().min(3);
    for column in 0..count {
        sizes[column] = widths[column];
    }
    if fits(&sizes[..count], by) {
        choice.grow(&mut sizes[..count], by);
    }
    println!(rt;
        "{choice:?} grows {widths:?} by {by}: {:?}",
        &sizes[..count]
    )
}

fn print_large_rows(rt: &impl Print) -> io::Result<()> {
    print_shrunk(rt, Choice::MaxLeft, [QUARTER, 5], [0, 5], EIGHTH)?;
    print_shrunk(rt, Choice::MaxRight, [usize::MAX, 0], [0, 0], 1)?;
    print_shrunk(rt, Choice::MaxLeft, [HALF, HALF - 1], [0, 0], usize::MAX)?;
    print_shrunk(rt, Choice::MinRight, [usize::MAX, 0], [0, 0], 7)?;
    print_shrunk(rt, Choice::MinLeft, [HALF, QUARTER], [1, 1], HALF)?;
    print_shrunk(rt, Choice::None, [usize::MAX, 0], [0, 0], usize::MAX)?;
    print_shrunk(rt, Choice::None, [HALF, QUARTER], [1, 1], HALF)?;
    print_shrunk(rt, Choice::Right, [HALF, QUARTER], [1, 1], HALF)?;
    print_grown(rt, Choice::MinLeft, &[1, 3], 1 << 40)?;
    print_grown(rt, Choice::MinRight, &[1, HALF, 1], HALF - 3)?;
    print_grown(rt, Choice::None, &[1, 0, 1], (1 << 40) + 1)?;
    print_grown(rt, Choice::None, &[0, 1, 0], usize::MAX - 1)?;
    print_grown(rt, Choice::MaxRight, &[2, 1, 2], HALF)
}

// What the counted calls leave, and whether they took some walks, but not too many.
fn print_counted(rt: &impl Print) -> io::Result<()> {
    let widths = [6, 7, 6];
    let least = [2, 2, 2];
    let mut shrunk = [widths; 5];
    let mut grown = [widths; 5];
    let mut walks = [0; 10];
    if fits(&widths, 8) {
        walks[0] = PriorityNone::new().shrink_counted(&mut shrunk[0], &least, 8);
        walks[1] = PriorityLeft::new().shrink_counted(&mut shrunk[1], &least, 8);
        walks[2] = PriorityRight::new().shrink_counted(&mut shrunk[2], &least, 8);
        walks[3] = PriorityMin::left().shrink_counted(&mut shrunk[3], &least, 8);
        walks[4] = PriorityMax::right().shrink_counted(&mut shrunk[4], &least, 8);
        walks[5] = PriorityNone::new().grow_counted(&mut grown[0], 8);
        walks[6] = PriorityLeft::new().grow_counted(&mut grown[1], 8);
        walks[7] = PriorityRight::new().grow_counted(&mut grown[2], 8);
        walks[8] = PriorityMin::left().grow_counted(&mut grown[3], 8);
        walks[9] = PriorityMax::right().grow_counted(&mut grown[4], 8);
    }
    let within = walks.iter().all(|it| 0 < *it && *it <= 200);
    println!(rt; "counted: {shrunk:?} {grown:?}, walks within 1 to 200: {within}")
}

// The widths from 1 to a million.
fn ascending(alloc: Global) -> Result<Vec<usize>, AllocError> {
    let mut widths = Vec::with_capacity(alloc, 1_000_000)?;
    for width in 1..=1_000_000 {
        widths.push(width)?;
    }
    Ok(widths)
}

// The first width, the last of the first half, and the last.
fn some_of(sizes: &[usize]) -> [Option<&usize>; 3] {
    [sizes.first(), sizes.get(499_999), sizes.last()]
}

fn print_long_lists(rt: &impl Print, alloc: Global) -> io::Result<()> {
    let mut least = Vec::with_capacity(alloc, 1_000_000)?;
    least.resize(1_000_000, 0)?;
    for choice in CHOICES {
        let mut sizes = ascending(alloc)?;
        if fits(&sizes, 0) && sizes.len() == least.len() {
            choice.shrink(&mut sizes, &least, 250_000_250_000);
        }
        println!(rt; "{choice:?} shrinks a million: {:?}", some_of(&sizes))?;
        let mut sizes = ascending(alloc)?;
        if fits(&sizes, 1 << 40) {
            choice.grow(&mut sizes, 1 << 40);
        }
        println!(rt; "{choice:?} grows a million: {:?}", some_of(&sizes))?;
    }
    Ok(())
}

/// Prints what they make of large widths and amounts, and of a million columns.
pub(crate) fn print_large(rt: &impl Print, alloc: Global) -> io::Result<()> {
    print_large_rows(rt)?;
    print_counted(rt)?;
    print_long_lists(rt, alloc)
}
