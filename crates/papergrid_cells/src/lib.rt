//! What one line of a table shows: runs of glyphs, fills and texts in their colours, the lines of cells,
//! and what rows have in common.
#![tactic(auto)]

mod block;
mod cell_lines;
mod copies;
mod empty_row;
mod flat;
mod glyphs;
mod painting;
mod spaced;

pub use block::{
    BlockLine, OpenCell, block_line, push_blank, push_block_line, push_indent, text_line,
};
pub use cell_lines::{CellLines, read_cell};
pub use copies::lay_over;
pub use empty_row::{
    EmptyRow, Ink, TextSlot, color_len, shade_of, write_colored, write_ended, write_over,
};
pub use flat::{FlatRows, are_even};
pub use glyphs::{push_along, push_behind, push_corner, push_upright};
pub use painting::{GlyphRun, push_glyphs, push_uncolored};
pub use spaced::Spaced;
