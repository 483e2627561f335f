//! Records with both counts.
ghost use Rattle.std.specs.Prelude.{◌≡◌, length};

use crate::records::RecordColumns;

/// Records with a row count beside the column count.
pub trait ExactRecords: RecordColumns {
    /// How many rows there are.
    fn count_rows(&self) -> usize
        ensures { result ≡ length (Self.rows self.now) };
}

impl<'a, R: ExactRecords> ExactRecords for &'a R {
    fn count_rows(&self) -> usize {
        R::count_rows(self)
    }
}
