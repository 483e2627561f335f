//! Rows of cells in one vector, and rows of cells as they are looked at.
#![tactic(auto)]

mod cell_rows;
mod choosing;
mod even_left;
mod even_rows;
mod field;
pub mod laws;
mod own_text;
mod place;
mod row;
mod rows;
mod rows_view;
mod short_text;
mod single_line;
mod texts;

pub use cell_rows::{CellRow, CellRows, longest};
pub use even_left::{EvenCells, EvenRowsLeft, EvenSource};
pub use even_rows::EvenRows;
pub use field::Field;
pub use own_text::OwnText;
pub use row::Row;
pub use rows::Rows;
pub use rows_view::RowsView;
pub use short_text::ShortText;
pub use single_line::SingleLine;
pub use texts::{rows_of_texts, texts_of};
