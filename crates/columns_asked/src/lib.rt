//! Tables of texts in a requested width: which columns shrink, what becomes of the cells, and what the
//! table then shows.
#![tactic(auto)]

mod asked;
pub mod colors;
pub mod laws;
mod measured_cells;
mod widths;

pub use asked::WidthLimit;
pub use measured_cells::resized_line;
pub use tabled_size_wrap::MeasuredText;
pub use widths::narrowed;
