//! Records that are looked up by place, as records to read.
ghost use Rattle.std.proofs.Common.{ap, sym};
ghost use Rattle.std.specs.Prelude.{drop, refl, ◌≡◌, ◌+◌, ◌<◌, ◌^◌, Some, false, length};
ghost use Rattle.std.specs.Iterator.{at_most};
ghost use Rattle.grid_records_traits.specs.Giving.{GivesRow, GivesText, TakesOne};
ghost use Rattle.grid_records_traits.specs.Laws.Giving.{each_cell, each_row};
ghost use Rattle.grid_records_traits.specs.Rows.{evened, text_at};
ghost use Rattle.grid_records.specs.RecordRows.Peeking.{row_texts_from, rows_from};

use crate::rows::records::into_records::IntoRecords;
use crate::rows::records::vec_records::Cell;
use crate::rows::records::{ExactRecords, PeekableRecords, RecordColumns, RecordTexts, Records};
use grid_config_values::Position;
use std::alloc::{AllocError, Global};
use std::borrow::CowStr;

/// Records that are looked up by place, as records to read: as many rows as they count, each of as many
/// cells as they count columns. A cell returns what the records return for its place, so that a text that they
/// measured is not measured again.
#[derive(Drop)]
pub struct PeekedRecords<'a, R> {
    records: &'a R,
}

impl<'a, R: ExactRecords + PeekableRecords> PeekedRecords<'a, R> {
    /// These records. Does not allocate.
    pub fn new(records: &'a R) -> PeekedRecords<'a, R>
        ensures rows { ⟦<PeekedRecords<'a, R> as RecordTexts>⟧.rows result ≡ evened (R.columns records.now) (R.rows records.now) }
        ensures columns { ⟦<PeekedRecords<'a, R> as RecordColumns>⟧.columns result ≡ R.columns records.now }
        ensures hint { ⟦<PeekedRecords<'a, R> as Records>⟧.hint result ≡ Some (length (R.rows records.now)) }
        ensures refuses { ⟦<PeekedRecords<'a, R> as RecordTexts>⟧.can_fail result ≡ false }
    {
        PeekedRecords { records }
    }
}

impl<'a, R: ExactRecords + PeekableRecords> RecordTexts for PeekedRecords<'a, R> {
    ghost rows = { λ s. evened (R.columns s.records.now) (R.rows s.records.now) };

    ghost can_fail = { λ _. false };
}

impl<'a, R: ExactRecords + PeekableRecords> RecordColumns for PeekedRecords<'a, R> {
    ghost columns = { λ s. R.columns s.records.now };

    fn count_columns(&self) -> usize {
        self.records.count_columns()
    }
}

impl<'a, R: ExactRecords + PeekableRecords> IntoRecords for PeekedRecords<'a, R> {
    type Cell = PeekedCell<'a, R>;

    type IterColumns = PeekedCells<'a, R>;

    type IterRows = PeekedRows<'a, R>;

    ghost rows_left = { λ s. rows_from (R.rows s.records.now) s.columns s.row s.left };

    ghost can_fail_left = { λ _. false };

    ghost gives = { λ s. record {
      can_next = tt;
      ends = tt;
      each = each_row (λ s. s.columns) (λ s. s.left) (λ cells. row_texts_from (R.rows cells.records.now) cells.row cells.column cells.left)
          (λ s. rows_from (R.rows s.records.now) s.columns s.row s.left) _ (λ cells. record {
            can_next = tt;
            ends = tt;
            each = each_cell _ (λ cell. text_at (R.rows cell.records.now) cell.pos) (λ cells. cells.left)
                (λ cells. row_texts_from (R.rows cells.records.now) cells.row cells.column cells.left) cells;
          }) s;
    } };

    ghost passes = { λ s t _ step. (sym (ap (drop 1) step.2), refl) };

    fn iter_rows(self) -> PeekedRows<'a, R> {
        PeekedRows {
            records: self.records,
            row: 0,
            left: self.records.count_rows(),
            columns: self.records.count_columns(),
        }
    }
}

impl<'a, R: ExactRecords + PeekableRecords> Records for PeekedRecords<'a, R> {
    type Iter = PeekedRecords<'a, R>;

    ghost hint = { λ s. Some (length (R.rows s.records.now)) };

    fn iter_rows(self) -> PeekedRows<'a, R> {
        IntoRecords::iter_rows(self)
    }

    fn hint_count_rows(&self) -> Option<usize> {
        Some(self.records.count_rows())
    }
}

/// The rows that are left.
#[derive(Drop)]
pub struct PeekedRows<'a, R> {
    records: &'a R,
    row: usize,
    left: usize,
    columns: usize,
    ghost fits: { row + left < 2 ^ 64 },
}

impl<'a, R: PeekableRecords> Iterator for PeekedRows<'a, R> {
    type Item = PeekedCells<'a, R>;

    ghost next_gives = { λ s r t. (t.columns ≡ s.columns) × TakesOne s.left r t.left
        × GivesRow (λ cells. row_texts_from (R.rows cells.records.now) cells.row cells.column cells.left)
        (rows_from (R.rows s.records.now) s.columns s.row s.left) r (rows_from (R.rows t.records.now) t.columns t.row t.left) };

    ghost remaining = { λ s. at_most s.left };

    fn next(&mut self) -> Option<PeekedCells<'a, R>> {
        if self.left == 0 {
            return None;
        }
        let row = self.row;
        *self = PeekedRows {
            records: self.records,
            row: row + 1,
            left: self.left - 1,
            columns: self.columns,
        };
        Some(PeekedCells {
            records: self.records,
            row,
            column: 0,
            left: self.columns,
        })
    }
}

/// The cells that are left of a row.
#[derive(Drop)]
pub struct PeekedCells<'a, R> {
    records: &'a R,
    row: usize,
    column: usize,
    left: usize,
    ghost fits: { column + left < 2 ^ 64 },
}

impl<'a, R: PeekableRecords> Iterator for PeekedCells<'a, R> {
    type Item = Result<PeekedCell<'a, R>, AllocError>;

    ghost next_gives = { λ s r t. TakesOne s.left r t.left
        × GivesText (λ cell. text_at (R.rows cell.records.now) cell.pos) (row_texts_from (R.rows s.records.now) s.row s.column s.left) r
        (row_texts_from (R.rows t.records.now) t.row t.column t.left) };

    ghost remaining = { λ s. at_most s.left };

    fn next(&mut self) -> Option<Result<PeekedCell<'a, R>, AllocError>> {
        if self.left == 0 {
            return None;
        }
        let pos = Position::new(self.row, self.column);
        *self = PeekedCells {
            records: self.records,
            row: self.row,
            column: self.column + 1,
            left: self.left - 1,
        };
        Some(Ok(PeekedCell {
            records: self.records,
            pos,
        }))
    }
}

/// A cell of records that are looked up, by its place.
#[derive(Drop)]
pub struct PeekedCell<'a, R> {
    records: &'a R,
    pos: Position,
}

impl<'a, R: PeekableRecords> Cell for PeekedCell<'a, R> {
    ghost text = { λ cell. text_at (R.rows cell.records.now) cell.pos };

    fn text(&self) -> &str {
        self.records.get_text(self.pos)
    }

    fn line(&self, alloc: Global, index: usize) -> Result<CowStr<'_>, AllocError> {
        self.records.get_line(alloc, self.pos, index)
    }

    fn count_lines(&self) -> usize {
        self.records.count_lines(self.pos)
    }

    fn width(&self) -> usize {
        self.records.get_width(self.pos)
    }

    fn dimension(&self) -> (usize, usize) {
        (self.count_lines(), self.width())
    }

    fn line_width(&self, index: usize) -> usize {
        self.records.get_line_width(self.pos, index)
    }
}
