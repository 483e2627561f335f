//! How wide a table may be, and how it gets narrower.

use tabled_size_priority::Choice;

/// How wide a table may be, and how it gets narrower where it is wider. It never gets wider.
#[derive(Clone, Copy, Debug, PartialEq, Eq)]
pub struct WidthLimit {
    /// The columns that it may take, with its boundaries and margins.
    pub width: Option<usize>,
    /// Whether cells are cut; else they are wrapped.
    pub truncate: bool,
    /// Whether words that fit are kept where cells are wrapped.
    pub keep_words: bool,
    /// Which columns shrink first.
    pub priority: Choice,
}
