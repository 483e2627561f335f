//! The records of a delimited text, each field ready for a table.
#![tactic(auto)]

mod cells;
mod cleaning;
mod fault;
mod joined;
mod kept;
pub mod laws;
mod parts;
mod places;
mod plain;
pub mod progress;
mod records;
mod renditions;
mod single_line;
mod spans;
mod visible;

pub use cells::{Flaw, push_field};
pub use fault::InputFault;
pub use kept::{ReadRows, RowChoice};
pub use records::{rows_of, without_mark};
pub use visible::push_ordered;
