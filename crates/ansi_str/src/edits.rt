//! Edits of a text.

/// An edit of a text, which fails where the text has no such part. Places are bytes of the text without
/// its sequences.
#[derive(Debug, Clone, Copy, PartialEq, Eq)]
pub enum Edit<'a> {
    /// The cut from one place to another, as `ansi_cut` gives it; fails at bounds that are not good.
    Cut {
        /// Where the cut begins.
        start: usize,
        /// Where it ends, that place excluded.
        end: usize,
    },
    /// The first part of `ansi_split_at`; fails inside a character.
    Left(usize),
    /// The second part of `ansi_split_at`; fails inside a character.
    Right(usize),
    /// The part of `ansi_split` with this number, from 0 on; fails where there are not that many parts.
    Part {
        /// What the text is split at.
        pattern: &'a str,
        /// How many parts come before the one that is left.
        index: usize,
    },
    /// What `ansi_strip_prefix` leaves; fails where the text does not begin with the prefix.
    Prefix(&'a str),
    /// What `ansi_strip_suffix` leaves; fails where the text does not end with the suffix.
    Suffix(&'a str),
    /// What `ansi_trim` leaves.
    Trim,
}
