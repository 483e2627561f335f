//! What the tests share.
use sized::{Table, records_of};
use std::fmt::Debug;
use std::process::Abort;

mod grids;
mod keeping;
mod lines;
mod nine_rows;
mod records;
mod refusing;
mod settings;
mod single_lines;
mod sized;

// The proof of a function grows faster than its calls, and most of all with each `?`. So the tests of worked
// rows end where memory is refused, and the others return the refusal.
const MEMORY: &str = "memory is refused";

// What was found, and of what.
fn expect_same<T: PartialEq + Debug + Drop>(rt: &impl Abort, found: T, wanted: T, what: &str) {
    assert_eq!(rt; found, wanted, "of {what:?}");
}

// What must hold.
fn expect(rt: &impl Abort, holds: bool, what: &str) {
    assert!(rt; holds, "of {what:?}");
}

// Drops a value that has many parts.
fn let_go<T: Drop>(_value: T) {}
