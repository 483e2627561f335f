//! Whether a table fits its sizes, and its sizes as lists.
#![tactic(auto)]

mod fitting;
pub mod laws;
mod room;
mod sizes;
mod totals;

pub use fitting::{fits, fits_counted};
pub use sizes::{heights, widths};
pub use totals::{full_line_width, total_height};
