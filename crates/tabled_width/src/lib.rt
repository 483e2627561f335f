//! Options of a table's widths: each is one step of it.
#![tactic(auto)]

mod justify;
pub mod laws;
mod list;
mod measures;
mod min_width;
mod table;
pub mod tables;
mod truncate;
mod width;
mod wrap;

pub use justify::Justify;
pub use list::WidthList;
pub use min_width::MinWidth;
pub use truncate::Truncate;
pub use width::Width;
pub use wrap::Wrap;
