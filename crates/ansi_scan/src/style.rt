//! What the sequences SELECT GRAPHIC RENDITION (SGR: ECMA-48, 8.3.117) say about how text is shown.

mod codes;
mod color;
mod flags;
pub mod laws;
mod next;
mod packed;
mod parameters;
mod sequences;
mod style;

/// The sequence that clears everything.
pub const RESET_ALL: &str = "\x1b[0m";

pub use color::{AnsiColor, Color};
pub use sequences::{AnsiSequenceEnd, AnsiSequenceStart};
pub use style::Style;
