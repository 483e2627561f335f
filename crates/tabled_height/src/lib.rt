//! Options that set how high rows and cells are, and sizes that are taken from a table's heights.
#![tactic(auto)]

mod height;
mod increase;
pub mod laws;
mod limit;
mod lines;
mod list;
mod rows;

pub use height::Height;
pub use increase::{CellHeightIncrease, TableHeightIncrease};
pub use limit::{CellHeightLimit, TableHeightLimit};
pub use list::HeightList;
