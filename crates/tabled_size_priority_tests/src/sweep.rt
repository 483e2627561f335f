//! Every list of up to three widths below 6.
ghost use Rattle.std.specs.Prelude.{◌≤◌};

use crate::sums::fits;
use std::io;
use std::io::Print;
use tabled_size_priority::Choice;

pub const CHOICES: [Choice; 7] = [
    Choice::None,
    Choice::Left,
    Choice::Right,
    Choice::MinLeft,
    Choice::MinRight,
    Choice::MaxLeft,
    Choice::MaxRight,
];

// How many lists of 0, 1, 2 and 3 numbers below 6 there are.
pub const COUNTS: [usize; 4] = [1, 6, 36, 216];

/// The numbers of a list by its number among them.
pub(crate) fn numbers(index: usize) -> [usize; 3] {
    [index % 6, index / 6 % 6, index / 36 % 6]
}

// Takes the sizes into a sum of all that came before, by FNV-1a (Fowler, Noll and Vo).
fn taken_in(digest: u64, sizes: &[usize]) -> u64 {
    let mut digest = digest;
    for size in sizes {
        digest = (digest ^ (*size as u64)).wrapping_mul(0x100_0000_01b3);
    }
    digest
}

// All that a list shrinks to, with every list of leasts below 6 and by every amount up to 17.
fn shrunk_digest(choice: Choice, widths: [usize; 3], count: usize) -> u64
    requires { count ≤ 3 }
{
    let mut digest = 0xcbf2_9ce4_8422_2325;
    for index in 0..COUNTS[count] {
        let least = numbers(index);
        for by in 0..18 {
            let mut sizes = widths;
            if fits(&sizes[..count], 0) {
                choice.shrink(&mut sizes[..count], &least[..count], by);
            }
            digest = taken_in(digest, &sizes[..count]);
        }
    }
    digest
}

// All that a list grows to, by every amount up to 17.
fn grown_digest(choice: Choice, widths: [usize; 3], count: usize) -> u64
    requires { count ≤ 3 }
{
    let mut digest = 0xcbf2_9ce4_8422_2325;
    for by in 0..18 {
        let mut sizes = widths;
        if fits(&sizes[..count], by) {
            choice.grow(&mut sizes[..count], by);
        }
        digest = taken_in(digest, &sizes[..count]);
    }
    digest
}

/// Prints what the priorities make of every list of up to three small widths, as one number each.
pub(crate) fn print_sweep(rt: &impl Print) -> io::Result<()> {
    for choice in CHOICES {
        for count in 0..4 {
            for index in 0..COUNTS[count] {
                let widths = numbers(index);
                let shrunk = shrunk_digest(choice, widths, count);
                let grown = grown_digest(choice, widths, count);
                println!(rt; "{choice:?} {:?} {shrunk:x} {grown:x}", &widths[..count])?;
            }
        }
    }
    Ok(())
}
