//! A source of rows for tests, of which cells are refused.
//!
//! Rows of texts, of which cells are refused as where allocation fails.
ghost use Rattle.std.proofs.Common.{ap};
ghost use Rattle.std.specs.Iterator.{at_most};
ghost use Rattle.std.specs.Prelude.{◌≡◌, refl, replicate, true};
ghost use Rattle.grid_records_traits.specs.Laws.Leaving.{passed_same};
ghost use Rattle.fakes.specs.Rows.Refusing.{GivesCellsOfRow, GivesOrRefuses, each_cell, each_row, letter};

use grid_records_traits::{IntoRecords, RecordTexts};
use std::alloc::AllocError;

/// So many rows of so many cells with the text `a`. The first `whole` cells are given, counted row by row, and any
/// other is refused. Contracts see the rows, and that any cell may be refused; they do not see which cells are.
#[derive(Clone, Copy, Debug, Drop)]
pub struct RefusedRows {
    left: usize,
    columns: usize,
    whole: usize,
}

impl RefusedRows {
    /// Such rows.
    pub fn new(rows: usize, columns: usize, whole: usize) -> RefusedRows
        ensures { ⟦<RefusedRows as RecordTexts>⟧.rows result ≡ replicate rows (replicate columns letter) }
    {
        RefusedRows {
            left: rows,
            columns,
            whole,
        }
    }
}

impl RecordTexts for RefusedRows {
    ghost rows = { λ s. replicate s.left (replicate s.columns letter) };

    ghost can_fail = { λ _. true };
}

impl IntoRecords for RefusedRows {
    type Cell = &'static str;

    type IterColumns = RefusedCells;

    type IterRows = RefusedRows;

    ghost rows_left = { λ s. replicate s.left (replicate s.columns letter) };

    ghost can_fail_left = { λ _. true };

    ghost gives = { λ s. record {
      can_next = tt;
      ends = tt;
      each = each_row (λ s. s.left) (λ s. s.columns) (λ cells. cells.left) _ s.columns s.left
          (λ cells is. record { can_next = tt; ends = tt; each = each_cell _ (λ cells. cells.left) s.columns cells is }) s refl refl;
    } };

    ghost passes = { λ s t _ step. (passed_same t.left s.left (replicate s.columns letter) (replicate t.columns letter) step.1.0 (ap (λ n. replicate n letter) step.0), refl) };

    fn iter_rows(self) -> RefusedRows {
        self
    }
}

impl Iterator for RefusedRows {
    type Item = RefusedCells;

    ghost next_gives = { λ s r t. GivesCellsOfRow s.left s.columns r (λ cells. cells.left) t.left t.columns };

    ghost remaining = { λ s. at_most s.left };

    fn next(&mut self) -> Option<RefusedCells> {
        if self.left == 0 {
            return None;
        }
        let whole = self.whole;
        self.left -= 1;
        self.whole = whole.saturating_sub(self.columns);
        Some(RefusedCells {
            left: self.columns,
            whole,
        })
    }
}

/// The cells that are left of a row; none after a refusal.
#[derive(Clone, Copy, Debug, Drop)]
pub struct RefusedCells {
    left: usize,
    whole: usize,
}

impl Iterator for RefusedCells {
    type Item = Result<&'static str, AllocError>;

    ghost next_gives = { λ s r t. GivesOrRefuses s.left r t.left };

    ghost remaining = { λ s. at_most s.left };

    fn next(&mut self) -> Option<Result<&'static str, AllocError>> {
        if self.left == 0 {
            return None;
        }
        if self.whole == 0 {
            self.left = 0;
            return Some(Err(AllocError));
        }
        self.left -= 1;
        self.whole -= 1;
        Some(Ok("a"))
    }
}
