//! Tables over a source of rows, whose first rows are read ahead to know the sizes of columns and rows.

mod content;
pub mod laws;
mod padded;
mod printing;
mod reading;
mod sizes;
mod table;

pub use table::IterTable;
