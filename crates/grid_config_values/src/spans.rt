//! The cells of a table that span several columns or rows.

mod extent;
pub mod laws;
mod spans;

pub use extent::Extent;
pub use spans::Spans;
