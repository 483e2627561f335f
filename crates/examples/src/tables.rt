//! Tables, each made by a short program as a user of `tabled` would write it, and printed.
use crate::{boxes, changed, headed, kept, made, moons, summary, totals};
use grid_config::{AlignmentHorizontal, Fault};
use std::io::Print;
use tabled::Table;

/// Prints the tables. Refused where one is, and where an allocation fails.
pub(crate) fn print(rt: &HostRuntime) -> Result<(), Fault> {
    show(rt, made::fields(rt.alloc())?, Ok(()))?;
    show(rt, made::named(rt.alloc())?, Ok(()))?;
    show(rt, made::numbered(rt.alloc())?, Ok(()))?;
    show(rt, moons::planets(rt.alloc())?, Ok(()))?;
    ragged(rt)?;
    aligned(rt)?;
    bordered(rt)?;
    spanned(rt)?;
    wrapped(rt)?;
    spread(rt)?;
    centred(rt)?;
    show(rt, totals::summed(rt.alloc())?, Ok(()))?;
    wide(rt)?;
    high(rt)?;
    nested(rt)?;
    expanded(rt)?;
    under_days(rt)?;
    colored(rt)
}

fn ragged(rt: &HostRuntime) -> Result<(), Fault> {
    let mut table = made::ragged(rt.alloc())?;
    let done = changed::doubled(&mut table);
    show(rt, table, done)
}

fn aligned(rt: &HostRuntime) -> Result<(), Fault> {
    let mut table = made::planets(rt.alloc())?;
    let done = changed::aligned(&mut table);
    show(rt, table, done)
}

fn bordered(rt: &HostRuntime) -> Result<(), Fault> {
    let mut table = made::planets(rt.alloc())?;
    let done = changed::bordered(&mut table);
    show(rt, table, done)
}

fn spanned(rt: &HostRuntime) -> Result<(), Fault> {
    let mut table = made::titled(rt.alloc())?;
    let done = changed::spanned(&mut table);
    show(rt, table, done)
}

fn wrapped(rt: &HostRuntime) -> Result<(), Fault> {
    let mut table = made::entry(rt.alloc())?;
    let done = changed::wrapped(&mut table);
    show(rt, table, done)
}

fn spread(rt: &HostRuntime) -> Result<(), Fault> {
    let mut table = made::planets(rt.alloc())?;
    let done = changed::spread(&mut table);
    show(rt, table, done)
}

fn wide(rt: &HostRuntime) -> Result<(), Fault> {
    let mut table = made::planets(rt.alloc())?;
    let done = kept::wide(rt.alloc(), &mut table);
    show(rt, table, done)
}

fn high(rt: &HostRuntime) -> Result<(), Fault> {
    let mut table = made::planets(rt.alloc())?;
    let done = kept::high(rt.alloc(), &mut table);
    show(rt, table, done)
}

fn nested(rt: &HostRuntime) -> Result<(), Fault> {
    let table = boxes::rooms(rt.alloc())?;
    let text = table.to_string(rt.alloc());
    drop(table);
    write(rt, text?)
}

fn expanded(rt: &HostRuntime) -> Result<(), Fault> {
    let table = boxes::records(rt.alloc())?;
    let text = table.to_string(rt.alloc());
    drop(table);
    write(rt, text?)
}

fn under_days(rt: &HostRuntime) -> Result<(), Fault> {
    let records = boxes::weather(rt.alloc())?;
    write(rt, headed::headed(rt.alloc(), records)?)
}

fn colored(rt: &HostRuntime) -> Result<(), Fault> {
    let results = summary::nightly(rt.alloc())?;
    write(rt, summary::summary(results)?)
}

// In the middle of 31 columns; the table itself stays as it is.
fn centred(rt: &HostRuntime) -> Result<(), Fault> {
    let table = made::planets(rt.alloc())?;
    let text = table.to_string_in(Some(31), Some(AlignmentHorizontal::Center), '~');
    drop(table);
    write(rt, text?)
}

// Prints a table, provided that the step which changes it succeeded.
fn show(rt: &HostRuntime, table: Table, done: Result<(), Fault>) -> Result<(), Fault> {
    let text = table.to_string();
    drop(table);
    done?;
    write(rt, text?)
}

// The text and an empty line.
fn write(rt: &HostRuntime, text: String) -> Result<(), Fault> {
    let _ = println!(rt; "{text}\n");
    Ok(())
}
