//! Records one below the other: a rule for each, and each of its fields on lines of its own.
#![tactic(auto)]

mod columns;
mod form;
pub mod laws;
mod lines;
mod names;
mod values;
mod writing;

pub use form::Form;
pub use tabled_output::{BuildFault, Counted};
pub use writing::write_records;
