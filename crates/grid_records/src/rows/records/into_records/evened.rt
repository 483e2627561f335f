//! The rows of a source, made equally long.
ghost use Rattle.std.specs.Prelude.{◌≡◌, IfSome, Some};
ghost use Rattle.std.specs.Iterator.{at_most};
ghost use Rattle.grid_records.specs.RecordRows.EvenRows.{GivesEvened, EvensCell};
ghost use Rattle.grid_records_traits.specs.Rows.{evened, evened_row};
ghost use Rattle.grid_records.specs.RecordRows.Laws.EvenRows.{gives_evened_rows};
ghost use Rattle.grid_records_traits.specs.Laws.Leaving.{passed_made};

use crate::rows::records::RecordTexts;
use crate::rows::records::into_records::IntoRecords;
use crate::rows::records::vec_records::Cell;
use std::alloc::AllocError;

/// The rows of a source, made equally long: a cell that a row lacks is `None`, whose text is empty,
/// and further ones are left out.
#[derive(Debug, Drop)]
pub struct Evened<I> {
    pub(crate) records: I,
    pub(crate) columns: usize,
}

impl<I: IntoRecords> Evened<I> {
    /// `columns` cells of each row. Does not allocate.
    pub fn new(records: I, columns: usize) -> Evened<I>
        ensures rows { ⟦<Evened<I> as RecordTexts>⟧.rows result ≡ evened columns (I.RecordTexts.rows records) }
        ensures refuses { ⟦<Evened<I> as RecordTexts>⟧.can_fail result ≡ I.RecordTexts.can_fail records }
    {
        Evened { records, columns }
    }
}

impl<I: IntoRecords> RecordTexts for Evened<I> {
    ghost rows = { λ s. evened s.columns (I.RecordTexts.rows s.records) };

    ghost can_fail = { λ s. I.RecordTexts.can_fail s.records };
}

impl<I: IntoRecords> IntoRecords for Evened<I> {
    type Cell = Option<I::Cell>;

    type IterColumns = EvenedCells<I::IterColumns>;

    type IterRows = EvenedRows<I::IterRows>;

    ghost rows_left = { λ s. evened s.columns (I.rows_left s.rows) };

    ghost can_fail_left = { λ s. I.can_fail_left s.rows };

    ghost gives = { λ s. gives_evened_rows I.IterRows.next_gives I.IterColumns.next_gives I.Cell.text s (I.gives s.rows) };

    ghost passes = { λ s t _ step. let passed = I.passes s.rows t.rows step.1.0 step.1.1 in (passed_made evened_row _ _ _ _ step.0 passed.0, passed.1) };

    fn iter_rows(self) -> EvenedRows<I::IterRows> {
        EvenedRows {
            rows: self.records.iter_rows(),
            columns: self.columns,
        }
    }
}

/// Rows that are all of the same length.
#[derive(Debug, Drop)]
pub struct EvenedRows<I> {
    rows: I,
    columns: usize,
}

impl<C, I: Iterator> Iterator for EvenedRows<I>
where
    I::Item: Iterator<Item = Result<C, AllocError>>,
{
    type Item = EvenedCells<I::Item>;

    ghost can_next = { λ s. I.can_next s.rows };

    ghost next_gives = { GivesEvened I.next_gives };

    ghost remaining = { λ s. I.remaining s.rows };

    fn next(&mut self) -> Option<EvenedCells<I::Item>> {
        let cells = self.rows.next()?;
        Some(EvenedCells {
            cells: Some(cells),
            left: self.columns,
        })
    }
}

/// So many cells of a row, with `None` for each that it lacks. After a refusal no further one comes.
#[derive(Debug, Drop)]
pub struct EvenedCells<I> {
    cells: Option<I>,
    left: usize,
}

impl<C, I: Iterator<Item = Result<C, AllocError>>> Iterator for EvenedCells<I> {
    type Item = Result<Option<C>, AllocError>;

    ghost can_next = { λ s. IfSome s.cells I.can_next };

    ghost next_gives = { EvensCell I.next_gives };

    ghost remaining = { λ s. at_most s.left };

    fn next(&mut self) -> Option<Result<Option<C>, AllocError>> {
        if self.left == 0 {
            return None;
        }
        self.left -= 1;
        let Some(cells) = &mut self.cells else {
            return Some(Ok(None));
        };
        match cells.next() {
            Some(Ok(cell)) => Some(Ok(Some(cell))),
            Some(Err(refusal)) => {
                self.left = 0;
                Some(Err(refusal))
            }
            None => {
                self.cells = None;
                Some(Ok(None))
            }
        }
    }
}
