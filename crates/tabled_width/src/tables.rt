//! What a table's cells and columns make of a width: its texts change to fit their cells, and its columns shrink
//! or grow.

mod cells;
mod columns;
mod rooms;
mod table;
mod table_sizes;

pub use cells::change_cells;
pub use columns::width_with_columns;
pub use table::{narrow, widen};
