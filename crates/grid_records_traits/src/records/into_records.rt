//! Sources of rows.
ghost use Rattle.std.specs.Prelude.{◌≡◌, ℕ, Bool, List, Some};
ghost use Rattle.grid_records_traits.specs.Giving.{GivesRows, HasPassedOne};

pub mod given;
mod sources;

use crate::records::RecordTexts;
use crate::records::cell::Cell;
pub use given::{GivenCells, GivenRows};
use std::alloc::AllocError;

/// A source of rows of cells. An iterator over its rows gives iterators over their cells. Each of these
/// returns a cell, or an error where allocation fails; after an error it gives `None`.
pub trait IntoRecords: RecordTexts {
    type Cell: Cell;

    type IterColumns: Iterator<Item = Result<Self::Cell, AllocError>>;

    type IterRows: Iterator<Item = Self::IterColumns>;

    /// The texts of the rows that an iterator over rows has left.
    ghost rows_left: { Self.IterRows → List (List (List ℕ)) };

    /// Whether one of their cells may fail where allocation fails.
    ghost can_fail_left: { Self.IterRows → Bool };

    /// The rows.
    fn iter_rows(self) -> Self::IterRows
        ensures rows { rows_left result ≡ Self.rows self }
        ensures refuses { can_fail_left result ≡ Self.can_fail self };

    /// At any time an iterator over rows gives those that it has left.
    ghost gives: { (s : Self.IterRows) → GivesRows Self.IterRows.Iterator Self.IterColumns.Iterator Self.Cell.text (can_fail_left s) s (rows_left s) };

    /// The row that it gave is no longer left, and all others are.
    ghost passes: { (s t : Self.IterRows) (cells : Self.IterColumns) → Self.IterRows.next_gives s (Some cells) t → HasPassedOne (rows_left s) (can_fail_left s) (rows_left t) (can_fail_left t) };
}
