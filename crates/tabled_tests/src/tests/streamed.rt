//! Tables over a source append all or nothing. `tests/memory` runs these tests with each request for memory refused.
use grid_config::Fault;
use std::alloc::{AllocError, Global};
use std::process::Abort;
use tabled_compact::CompactTable;
use tabled_compact::iter::IterTable;

// These rows.
pub(super) fn rows_of(
    alloc: Global,
    cells: &[&[&'static str]],
) -> Result<Vec<Vec<&'static str>>, AllocError> {
    let mut rows = Vec::new(alloc);
    for texts in cells {
        rows.push(texts.to_vec(alloc)?)?;
    }
    Ok(rows)
}

// What comes before a table, and that with the table.
const BEFORE: &str = "before\n";

const ALL: &str = "before\n+---+---+\n| a | b |\n+---+---+\n| 1 | 2 |\n+---+---+";

// The whole table was appended, or a refusal left the text as it was.
fn expect_all_or_nothing(
    rt: &impl Abort,
    outcome: Result<(), Fault>,
    text: &str,
) -> Result<(), Fault> {
    match outcome {
        Ok(()) => assert_eq!(rt; text, ALL),
        Err(fault) => {
            assert_eq!(rt; fault, Fault::Memory);
            assert_eq!(rt; text, BEFORE);
        }
    }
    outcome
}

#[test]
fn compact_tables_append_all_or_nothing(rt: HostRuntime) -> Result<(), Fault> {
    let mut text = String::from_str(rt.alloc(), BEFORE)?;
    let rows = rows_of(rt.alloc(), &[&["a", "b"], &["1", "2"]])?;
    let table = CompactTable::new(rows).columns(2).width(3);
    let outcome = table.fmt(rt.alloc(), &mut text);
    expect_all_or_nothing(&rt, outcome, &text)
}

#[test]
fn iter_tables_append_all_or_nothing(rt: HostRuntime) -> Result<(), Fault> {
    let mut text = String::from_str(rt.alloc(), BEFORE)?;
    let rows = rows_of(rt.alloc(), &[&["a", "b"], &["1", "234"]])?;
    let mut table = IterTable::new(rows);
    table.sniff(1);
    let outcome = table.fmt(rt.alloc(), &mut text);
    expect_all_or_nothing(&rt, outcome, &text)
}
