//! Estimates of the widths and heights of a table's cells, and their totals.
#![tactic(auto)]

mod collected;
mod collector;
mod dimension;
mod estimate;
pub mod laws;
mod need;
mod one_padding;
mod shares;
mod sizing;
mod totals;

pub use dimension::{CompactGridDimension, IterGridDimension, PeekableGridDimension};
pub use estimate::Estimate;
pub use totals::total;
