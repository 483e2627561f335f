//! Grids: records of texts printed under their settings, sizes and colours.
#![tactic(auto)]

mod compact;
mod iter;
pub mod laws;
mod lines;
mod peekable;
mod printing;
mod read;

pub use compact::CompactGrid;
pub use iter::IterGrid;
pub use papergrid_fits::fits;
pub use papergrid_print::{Colors, LineChoice, LineKind, NoColors, count_lines};
pub use peekable::PeekableGrid;
