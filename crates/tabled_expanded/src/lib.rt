//! Records in expanded form: a head for each record, and each of its fields on a line of its own.
#![tactic(auto)]

mod escaping;
mod given;
pub mod laws;
mod lines;
mod printing;
mod table;
mod template;
mod truncating;

pub use given::Given;
pub use table::ExtendedTable;
pub use template::{RecordNumber, Template};
