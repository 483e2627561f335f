//! Colours of columns, read from a list.

mod columns;
pub mod laws;
mod names;
mod reading;
mod twice;

pub use columns::column_of;
pub use names::color_named;
pub use reading::colors_of;
