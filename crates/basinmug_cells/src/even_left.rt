//! Rows of cells, each as long as the longest, that are read one after the other.
ghost use Rattle.std.proofs.Common.{ap, sym};
ghost use Rattle.std.specs.Prelude.{drop, refl, ◌≡◌, ◌+◌, ◌<◌, ◌^◌, false, length};
ghost use Rattle.std.specs.Iterator.{at_most};
ghost use Rattle.grid_records_traits.specs.Giving.{GivesRow, GivesText, TakesOne};
ghost use Rattle.grid_records_traits.specs.Laws.Giving.{each_cell, each_row};
ghost use Rattle.grid_records_traits.specs.Rows.{evened};
ghost use Rattle.basinmug_cells.specs.Even.{rows_from, texts_from};
ghost use Rattle.basinmug_cells.specs.Fields.{field_text};
ghost use Rattle.basinmug_cells.specs.Views.{row_texts, view_rows};

use crate::cell_rows::CellRows;
use crate::field::Field;
use crate::row::Row;
use crate::rows_view::RowsView;
use grid_records_traits::{IntoRecords, RecordTexts};
use std::alloc::AllocError;

/// The same rows, to be read one after the other.
#[derive(Clone, Copy)]
pub struct EvenSource<'r> {
    rows: RowsView<'r>,
    columns: usize,
}

impl<'r> RecordTexts for EvenSource<'r> {
    ghost rows = { λ s. evened s.columns (view_rows s.rows) };

    ghost can_fail = { λ _. false };
}

impl<'r> IntoRecords for EvenSource<'r> {
    type Cell = Field<'r>;

    type IterColumns = EvenCells<'r>;

    type IterRows = EvenRowsLeft<'r>;

    ghost rows_left = { λ s. rows_from (view_rows s.rows) s.columns s.row s.left };

    ghost can_fail_left = { λ _. false };

    ghost gives = { λ s. record {
      can_next = tt;
      ends = tt;
      each = each_row (λ s. s.columns) (λ s. s.left) (λ cells. texts_from (row_texts cells.row) cells.column cells.left)
          (λ s. rows_from (view_rows s.rows) s.columns s.row s.left) _ (λ cells. record {
            can_next = tt;
            ends = tt;
            each = each_cell _ field_text (λ cells. cells.left) (λ cells. texts_from (row_texts cells.row) cells.column cells.left) cells;
          }) s;
    } };

    ghost passes = { λ s t _ step. (sym (ap (drop 1) step.2), refl) };

    #[inline(always)]
    fn iter_rows(self) -> EvenRowsLeft<'r> {
        EvenRowsLeft::new(self.rows, self.columns)
    }
}

/// The rows that are left.
#[derive(Drop)]
pub struct EvenRowsLeft<'r> {
    rows: RowsView<'r>,
    row: usize,
    left: usize,
    columns: usize,
    ghost fits: { row + left < 2 ^ 64 },
}

impl<'r> EvenRowsLeft<'r> {
    /// All rows, each of so many cells.
    #[inline(always)]
    pub(crate) fn new(rows: RowsView<'r>, columns: usize) -> EvenRowsLeft<'r>
        ensures rows { view_rows result.rows ≡ view_rows rows.entry }
        ensures row { result.row ≡ 0 }
        ensures left { result.left ≡ length (view_rows rows.entry) }
        ensures columns { result.columns ≡ columns }
    {
        EvenRowsLeft {
            rows,
            row: 0,
            left: rows.len(),
            columns,
        }
    }
}

impl<'r> Iterator for EvenRowsLeft<'r> {
    type Item = EvenCells<'r>;

    ghost next_gives = { λ s r t. (t.columns ≡ s.columns) × TakesOne s.left r t.left × GivesRow (λ cells. texts_from (row_texts cells.row) cells.column cells.left)
        (rows_from (view_rows s.rows) s.columns s.row s.left) r (rows_from (view_rows t.rows) t.columns t.row t.left) };

    ghost remaining = { λ s. at_most s.left };

    #[inline(always)]
    fn next(&mut self) -> Option<EvenCells<'r>> {
        if self.left == 0 {
            return None;
        }
        let row = self.rows.row(self.row);
        *self = EvenRowsLeft {
            rows: self.rows,
            row: self.row + 1,
            left: self.left - 1,
            columns: self.columns,
        };
        Some(EvenCells {
            row,
            column: 0,
            left: self.columns,
        })
    }
}

/// The cells that are left of a row.
#[derive(Drop)]
pub struct EvenCells<'r> {
    row: Row<'r>,
    column: usize,
    left: usize,
    ghost fits: { column + left < 2 ^ 64 },
}

impl<'r> Iterator for EvenCells<'r> {
    type Item = Result<Field<'r>, AllocError>;

    ghost next_gives = { λ s r t. TakesOne s.left r t.left
        × GivesText field_text (texts_from (row_texts s.row) s.column s.left) r (texts_from (row_texts t.row) t.column t.left) };

    ghost remaining = { λ s. at_most s.left };

    #[inline(always)]
    fn next(&mut self) -> Option<Result<Field<'r>, AllocError>> {
        if self.left == 0 {
            return None;
        }
        let cell = self.row.cell_or_empty(self.column);
        *self = EvenCells {
            row: self.row,
            column: self.column + 1,
            left: self.left - 1,
        };
        Some(Ok(cell))
    }
}
