//! Rows of empty texts.
ghost use Rattle.std.proofs.Common.{ap};
ghost use Rattle.std.specs.Prelude.{◌≡◌, Some, [], false, refl, replicate};
ghost use Rattle.std.specs.Iterator.{at_most};
ghost use Rattle.grid_records.specs.RecordRows.Sources.{GivesEmptyCells, GivesEmptyText};
ghost use Rattle.grid_records_traits.specs.Laws.Leaving.{passed_same};
ghost use Rattle.grid_records.specs.RecordRows.Laws.Empty.{each_empty_row, each_empty_text};

use crate::rows::records::into_records::IntoRecords;
use crate::rows::records::{ExactRecords, RecordColumns, RecordTexts, Records};
use std::alloc::AllocError;

/// Rows of empty texts.
#[derive(Clone, Copy, Debug, Default, PartialEq, Eq)]
pub struct EmptyRecords {
    rows: usize,
    columns: usize,
}

impl EmptyRecords {
    /// `rows` rows of `columns` empty texts. Does not allocate.
    pub const fn new(rows: usize, columns: usize) -> EmptyRecords
        ensures rows { ⟦<EmptyRecords as RecordTexts>⟧.rows result ≡ replicate rows (replicate columns []) }
        ensures columns { ⟦<EmptyRecords as RecordColumns>⟧.columns result ≡ columns }
        ensures hint { ⟦<EmptyRecords as Records>⟧.hint result ≡ Some rows }
    {
        EmptyRecords { rows, columns }
    }
}

impl RecordTexts for EmptyRecords {
    ghost rows = { λ s. replicate s.rows (replicate s.columns []) };

    ghost can_fail = { λ _. false };
}

impl IntoRecords for EmptyRecords {
    type Cell = &'static str;

    type IterColumns = EmptyCells;

    type IterRows = EmptyRows;

    ghost rows_left = { λ s. replicate s.left (replicate s.columns []) };

    ghost can_fail_left = { λ _. false };

    ghost gives = { λ s. record {
      can_next = tt;
      ends = tt;
      each = each_empty_row _ s.columns s.left (λ cells is. record {
        can_next = tt;
        ends = tt;
        each = each_empty_text _ false s.columns cells is;
      }) s refl refl;
    } };

    ghost passes = { λ s t _ step. (passed_same t.left s.left (replicate s.columns []) (replicate t.columns []) step.0 (ap (λ n. replicate n []) step.1), refl) };

    fn iter_rows(self) -> EmptyRows {
        EmptyRows {
            left: self.rows,
            columns: self.columns,
        }
    }
}

impl RecordColumns for EmptyRecords {
    ghost columns = { λ s. s.columns };

    fn count_columns(&self) -> usize {
        self.columns
    }
}

impl Records for EmptyRecords {
    type Iter = EmptyRecords;

    ghost hint = { λ s. Some s.rows };

    fn iter_rows(self) -> EmptyRows {
        EmptyRows {
            left: self.rows,
            columns: self.columns,
        }
    }

    fn hint_count_rows(&self) -> Option<usize> {
        Some(self.rows)
    }
}

impl ExactRecords for EmptyRecords {
    fn count_rows(&self) -> usize {
        self.rows
    }
}

/// The rows that are left.
#[derive(Clone, Copy, Debug)]
pub struct EmptyRows {
    left: usize,
    columns: usize,
}

impl Iterator for EmptyRows {
    type Item = EmptyCells;

    ghost next_gives = { GivesEmptyCells };

    ghost remaining = { λ s. at_most s.left };

    fn next(&mut self) -> Option<EmptyCells> {
        if self.left == 0 {
            return None;
        }
        self.left -= 1;
        Some(EmptyCells { left: self.columns })
    }
}

/// The empty texts that are left of a row.
#[derive(Clone, Copy, Debug)]
pub struct EmptyCells {
    left: usize,
}

impl Iterator for EmptyCells {
    type Item = Result<&'static str, AllocError>;

    ghost next_gives = { GivesEmptyText };

    ghost remaining = { λ s. at_most s.left };

    fn next(&mut self) -> Option<Result<&'static str, AllocError>> {
        if self.left == 0 {
            return None;
        }
        self.left -= 1;
        Some(Ok(""))
    }
}
