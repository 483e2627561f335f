//! Values as rows of texts: what their fields say, what the fields are called, and rows being made.
#![tactic(auto)]

mod builder;
mod cell_text;
pub mod laws;
mod tabled;

pub use builder::{Builder, longest_row};
pub use cell_text::CellText;
pub use tabled::Tabled;
