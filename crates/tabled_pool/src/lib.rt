//! Tables of nested boxes, and records in expanded form.
#![tactic(auto)]

mod boxes;
pub mod laws;
mod table;

pub use boxes::TableValue;
pub use table::PoolTable;
pub use tabled_expanded::{ExtendedTable, Given, RecordNumber, Template};
pub use tabled_options::multiline::CompactMultilineConfig;
