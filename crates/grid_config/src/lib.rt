//! The settings of a table: margins, paddings, borders, alignments, spans and colours.
#![tactic(auto)]

mod cells;
mod colored;
mod colors;
mod compact;
pub mod config;
pub mod laws;
mod owning;
mod spanned;
mod whole;

pub use colored::{ColorMap, ColoredConfig};
pub use colors::{ANSIBuf, ANSIStr, BufFault};
pub use compact::CompactConfig;
pub use grid_config_values::{
    AlignmentHorizontal, AlignmentVertical, Border, Borders, Entity, EntityIterator, EntityMap,
    Fault, Formatting, Indent, Position, Sides,
};
pub use spanned::SpannedConfig;

/// Colours, by the module in which `papergrid` has them.
pub mod ansi {
    pub use crate::colors::{ANSIBuf, ANSIStr};
}
