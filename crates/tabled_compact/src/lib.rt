//! Tables over a source of rows that is read once, each row printed in one line.
#![tactic(auto)]

mod columns;
pub mod iter;
pub mod laws;
mod table;

pub use columns::{RowArray, width_in};
pub use table::{CompactTable, begun_config};
pub use tabled_output::BuildFault;
