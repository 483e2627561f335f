//! What the tests share.
use grid_config::{Fault, Indent, Sides};
use std::alloc::{AllocError, Global};
use std::process::Abort;
use tabled::{Amount, Padding, Setting};
use tabled_size_priority::Choice;

mod boxes;
mod cuts;
mod kept_sizes;
mod printed;
mod refused;
mod rows;
mod sizes;
mod streamed;
mod wrapping;

// The proof of a function grows faster than its calls, and most of all with each `?`. So the helpers below
// end a test where a call is refused, but for those that `tests/memory` needs, and a test has few calls.
const MEMORY: &str = "memory is refused";

// What has to hold.
fn expect(rt: &impl Abort, holds: bool, what: &str) {
    assert!(rt; holds, "{what}");
}

// What was found of a text.
fn expect_text(rt: &impl Abort, found: &str, wanted: &str) {
    assert_eq!(rt; found, wanted);
}

// Drops a value that has many parts.
fn let_go<T: Drop>(_value: T) {}

// A list of this setting alone.
fn alone(alloc: Global, setting: Setting) -> Result<Vec<Setting>, AllocError> {
    let mut list = Vec::new(alloc);
    list.push(setting)?;
    Ok(list)
}

// A list of three.
fn three(
    alloc: Global,
    first: Setting,
    second: Setting,
    third: Setting,
) -> Result<Vec<Setting>, AllocError> {
    let mut list = Vec::new(alloc);
    list.push(first)?;
    list.push(second)?;
    list.push(third)?;
    Ok(list)
}

fn wrap(width: usize) -> Setting {
    Setting::Wrap {
        width: Amount::Exact(width),
        keep_words: false,
        priority: Choice::None,
    }
}

fn spaced(left: usize, right: usize, top: usize, bottom: usize) -> Sides<Indent> {
    Sides::from(Padding::new(left, right, top, bottom))
}

// The error of a list that is refused.
fn outcome(done: Result<(), (usize, Fault)>) -> Result<(), Fault> {
    match done {
        Ok(()) => Ok(()),
        Err((_, fault)) => Err(fault),
    }
}
