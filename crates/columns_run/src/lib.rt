//! From tab-separated text to a table with borders, in a requested width or in its own. This is all that the program
//! `columns` does between its standard streams.
#![tactic(auto)]

mod input;
pub mod laws;
mod layout;
mod printable_cells;
mod printable_end;
mod rows_without_escape;
mod running;
mod style;
mod styled_rows;

pub use input::read_all;
pub use program_options::columns::{Options, RunFault, colors_close};
pub use running::{run, run_buffered, run_streamed, run_streamed_buffered};
pub use style::style_is_plain;
pub use tabled_output::Counted;
