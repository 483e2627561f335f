//! The glyphs of styles: those along the boundaries of a table, and those where boundaries meet.
#![tactic(auto)]

mod glyphs;

pub use glyphs::{ascii, extended, modern};
