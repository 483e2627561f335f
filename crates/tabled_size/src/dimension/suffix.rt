//! What is at the end of a text that is cut.

/// What to do where a text is given no more columns than the suffix takes that is to come after its cut.
#[derive(Clone, Copy, Debug, PartialEq, Eq, PartialOrd, Ord)]
pub enum SuffixLimit {
    /// The suffix alone, cut to these columns.
    Cut,
    /// The text cut to these columns, without the suffix.
    Ignore,
    /// This character, as often as it fits, and U+FFFD for the columns that are left.
    Replace(char),
}
