//! Columns by what they are called, those that are shown in a narrower table, and the widths that they get there.
#![tactic(auto)]

pub mod fitting;
mod laws;
pub mod markdown;
mod names;
mod needs;
pub mod numbers;
mod rooms;
pub mod rows;
mod shown;

pub use names::NamedColumns;
pub use needs::needs_of;
pub use rooms::{Need, shrink_columns};
pub use rows::{RowsShown, rows_line};
pub use shown::{ShownColumn, columns_that_fit, push_numbers};
