//! Which columns of a table are of numbers.

mod columns;
pub mod laws;
mod numbers;

pub use columns::numeric_columns;
pub use numbers::is_number;
