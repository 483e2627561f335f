//! Runs the priorities of `tabled_size_priority`, and priorities of its own, and prints what they return. They run on
//! worked rows, on large widths and long lists, and on lists of up to three small widths, there also beside the
//! trait's own bodies. What it must print is written by `tests/priorities/expected`, which computes the closed forms.
#![tactic(auto)]

mod alike;
mod foreign;
mod large;
mod rows;
mod states;
mod sums;
mod sweep;

use std::io;

fn main(rt: HostRuntime) -> io::Result<()> {
    rows::print_rows(&rt)?;
    foreign::print_foreign(&rt)?;
    states::print_states(&rt)?;
    large::print_large(&rt, rt.alloc())?;
    alike::print_all_alike(&rt)?;
    sweep::print_sweep(&rt)
}
