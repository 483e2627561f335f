//! Cells as a table of Markdown can hold them.

mod cells;
mod delimiters;
pub mod laws;

pub use cells::{markdown_cells, markdown_rows};
pub use delimiters::delimiter_row;
