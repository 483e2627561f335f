//! What the tests share.
use std::alloc::Global;
use std::convert::AsStr;
use std::fmt::Display;
use std::process::Abort;

mod calls;
mod cuts;
mod edits;
mod rows;
mod search;

// The proof of a function grows faster than its calls, and most of all with each `?`. So the helpers end a
// test where a call is refused, but for those that `tests/memory` needs.
const MEMORY: &str = "memory is refused";

// Each kind of range.
#[derive(Clone, Copy)]
enum Bounds {
    Between(usize, usize),
    Through(usize, usize),
    From(usize),
    To(usize),
    ToThrough(usize),
    All,
}

// What was found of a text.
fn expect_text(rt: &impl Abort, found: &str, wanted: &str, text: &str) {
    assert_eq!(rt; found, wanted, "of {text:?}");
}

// The same where it may be missing.
fn expect_found<T: AsStr + Drop>(
    rt: &impl Abort,
    found: Option<T>,
    wanted: Option<&str>,
    text: &str,
) {
    match found {
        Some(found) => {
            let wanted = wanted.expect(rt, "something is left");
            expect_text(rt, found.as_str(), wanted, text);
        }
        None => expect(rt, wanted.is_none(), "what is left", text),
    }
}

// How a value is written.
fn expect_written<T: Display>(rt: &impl Abort, alloc: Global, value: &T, wanted: &str, text: &str) {
    let written = value.to_string(alloc).expect(rt, MEMORY);
    expect_text(rt, written.as_str(), wanted, text);
}

// What has to hold of a text.
fn expect(rt: &impl Abort, holds: bool, what: &str, text: &str) {
    assert!(rt; holds, "{what} of {text:?}");
}
