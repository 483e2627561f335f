//! Callers of the libraries, as short as they can be, to begin from; the program prints their results.
#![tactic(auto)]

mod boxes;
mod changed;
mod commas;
mod delimited;
mod grid;
mod headed;
mod kept;
mod line;
mod made;
mod moons;
mod pager;
mod pages;
mod places;
mod styled;
mod summary;
mod tables;
mod totals;

use basinmug_run::{Counted, RunFault};
use grid_config::Fault;
use std::io::{Eprint, Print};
use std::process::ExitCode;

const LINE: &str = "\u{1b}[1mparser\u{1b}[0m: \u{1b}[32m214 passed\u{1b}[0m";

const WORDS: &str = "parser 214\nlayout 96\n表 3\n";

/// Prints what each caller makes, the pages of standard input last. Its status is 1 where an allocation
/// fails, a table is refused, or the pages are, these with a line on standard error.
fn main(rt: HostRuntime) -> ExitCode {
    if print(&rt).is_err() || records(&rt).is_err() {
        return ExitCode::FAILURE;
    }
    match pager::paged(&rt) {
        Ok(()) => ExitCode::SUCCESS,
        Err(fault) => {
            let _ = eprintln!(rt; "examples: {fault}");
            ExitCode::FAILURE
        }
    }
}

fn print(rt: &HostRuntime) -> Result<(), Fault> {
    let _ = println!(rt; "== A text, by what it shows\n");
    texts(rt)?;
    let _ = println!(rt; "\n== A grid of records, and one line of it\n");
    grids(rt)?;
    let _ = println!(rt; "\n== Tables\n");
    tables::print(rt)?;
    Ok(())
}

fn records(rt: &HostRuntime) -> Result<(), RunFault> {
    let _ = println!(rt; "== Records of a delimited text\n");
    let mut output = Counted::new(rt.stdout());
    delimited::prices(rt.alloc(), &mut output)?;
    let _ = println!(rt; "\n== Pages of standard input\n");
    Ok(())
}

fn texts(rt: &HostRuntime) -> Result<(), Fault> {
    let fields = styled::fields(rt.alloc(), LINE)?;
    for field in &fields {
        let _ = println!(rt; "{field}");
    }
    if let Some(parts) = places::parts(rt.alloc(), LINE, &[3, 8])? {
        for part in &parts {
            let _ = println!(rt; "{}", part.as_str());
        }
    }
    Ok(())
}

fn grids(rt: &HostRuntime) -> Result<(), Fault> {
    let rows = grid::words(rt.alloc(), WORDS)?;
    if let Some(table) = grid::table(rt.alloc(), rows)? {
        let _ = println!(rt; "{table}\n");
    }
    let rows = grid::words(rt.alloc(), WORDS)?;
    if let Some(line) = line::line(rt.alloc(), rows, &[8, 4], &[1, 1, 1], 1)? {
        let _ = println!(rt; "{line}");
    }
    Ok(())
}
