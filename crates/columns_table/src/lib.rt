//! The rows of a text as a table, in the requested width.
#![tactic(auto)]

mod cell_row;
mod cells;
mod colors;
mod ends;
pub mod laws;
mod least;
mod placed;
mod resized;
mod resized_cell;
mod row_ends;
mod rows;
mod sizes;
mod table;

pub use cells::{LineCell, LineCells};
pub use ends::{CellEnd, CellEnds};
pub use row_ends::RowEnds;
pub use rows::Rows;
pub use table::write_buffered_rows;
