//! Rows of cells with a text.
ghost use Rattle.std.specs.Prelude.{◌≡◌, ℕ, Bool, List, Option};
ghost use Rattle.grid_records_traits.specs.Giving.{GivesRows};
ghost use Rattle.grid_records_traits.specs.Rows.{evened};

pub mod cell;
pub mod exact_records;
pub mod into_records;
pub mod peekable_records;
pub mod single_line_row;

pub use cell::Cell;
pub use exact_records::ExactRecords;
pub use into_records::IntoRecords;
pub use peekable_records::PeekableRecords;
pub use single_line_row::{SingleLineCell, SingleLineRow};

/// What contracts see of a source of rows: the texts of its cells by rows, and whether a cell may
/// fail where allocation fails.
pub trait RecordTexts {
    ghost rows: { Self → List (List (List ℕ)) };

    ghost can_fail: { Self → Bool };
}

impl<'a, R: RecordTexts> RecordTexts for &'a R {
    ghost rows = { λ records. R.rows records.now };

    ghost can_fail = { λ records. R.can_fail records.now };
}

/// Records with a column count.
pub trait RecordColumns: RecordTexts {
    ghost columns: { Self → ℕ };

    /// How many columns there are.
    fn count_columns(&self) -> usize
        ensures { result ≡ columns self.now };
}

impl<'a, R: RecordColumns> RecordColumns for &'a R {
    ghost columns = { λ records. R.columns records.now };

    fn count_columns(&self) -> usize {
        R::count_columns(self)
    }
}

/// Rows of cells to be read.
pub trait Records: RecordColumns {
    type Iter: IntoRecords;

    ghost hint: { Self → Option ℕ };

    /// The rows, each of as many cells as there are columns. A cell that a row lacks has an empty text.
    fn iter_rows(self) -> <Self::Iter as IntoRecords>::IterRows
        ensures { GivesRows Self.Iter.IterRows.Iterator Self.Iter.IterColumns.Iterator Self.Iter.Cell.text
            (Self.RecordTexts.can_fail self) result (evened (Self.columns self) (Self.RecordTexts.rows self)) };

    /// How many rows there may be: a hint that promises nothing about the rows.
    fn hint_count_rows(&self) -> Option<usize>
        ensures { result ≡ hint self.now };
}
