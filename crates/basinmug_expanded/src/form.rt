//! How records are written one below the other.

use basinmug_columns::RowsShown;

/// How records are written one below the other.
#[derive(Clone, Copy, Debug, PartialEq, Eq)]
pub struct Form {
    /// Whether the fields are called by a header, or else by number.
    pub header: bool,
    /// The width that is given, where one is.
    pub width: Option<usize>,
    /// Whether the lines of a value that is wider than its columns are cut, or else wrapped between words.
    pub truncate: bool,
    /// Which records are shown, and how many others there are. A record has the number that it has among all of them.
    pub rows_shown: RowsShown,
}
