//! The first cells of each row of a source.
ghost use Rattle.std.specs.Iterator.Adapters.{take_source};
ghost use Rattle.std.specs.Prelude.{◌≡◌, map, take};
ghost use Rattle.grid_records.specs.RecordRows.Sources.{GivesTaken};
ghost use Rattle.grid_records.specs.RecordRows.Laws.Adapters.{limited_rows_give};
ghost use Rattle.grid_records_traits.specs.Laws.Leaving.{passed_made};

use crate::rows::records::RecordTexts;
use crate::rows::records::into_records::IntoRecords;
use std::iter::Take;

/// The first cells of each row of a source.
#[derive(Debug, Drop)]
pub struct LimitColumns<I> {
    records: I,
    limit: usize,
}

impl<I: IntoRecords> LimitColumns<I> {
    /// The first `limit` cells of each row of the source, or all where it has fewer. Does not allocate.
    pub fn new(records: I, limit: usize) -> LimitColumns<I>
        ensures rows { ⟦<LimitColumns<I> as RecordTexts>⟧.rows result ≡ map (take limit) (I.RecordTexts.rows records) }
        ensures refuses { ⟦<LimitColumns<I> as RecordTexts>⟧.can_fail result ≡ I.RecordTexts.can_fail records }
    {
        LimitColumns { records, limit }
    }
}

impl<I: IntoRecords> RecordTexts for LimitColumns<I> {
    ghost rows = { λ s. map (take s.limit) (I.RecordTexts.rows s.records) };

    ghost can_fail = { λ s. I.RecordTexts.can_fail s.records };
}

impl<I: IntoRecords> IntoRecords for LimitColumns<I> {
    type Cell = I::Cell;

    type IterColumns = Take<I::IterColumns>;

    type IterRows = LimitedRows<I::IterRows>;

    ghost rows_left = { λ s. map (take s.limit) (I.rows_left s.rows) };

    ghost can_fail_left = { λ s. I.can_fail_left s.rows };

    ghost gives = { λ s. limited_rows_give I.IterRows.next_gives I.IterColumns.next_gives I.Cell.text s (I.gives s.rows) };

    ghost passes = { λ s t cells step. let passed = I.passes s.rows t.rows (take_source cells) step.1.0 in (passed_made take _ _ _ _ step.0 passed.0, passed.1) };

    fn iter_rows(self) -> LimitedRows<I::IterRows> {
        LimitedRows {
            rows: self.records.iter_rows(),
            limit: self.limit,
        }
    }
}

/// Rows whose first cells are given.
#[derive(Debug, Drop)]
pub struct LimitedRows<I> {
    rows: I,
    limit: usize,
}

impl<I: Iterator> Iterator for LimitedRows<I>
where
    I::Item: Iterator,
{
    type Item = Take<I::Item>;

    ghost can_next = { λ s. I.can_next s.rows };

    ghost next_gives = { GivesTaken I.next_gives };

    ghost remaining = { λ s. I.remaining s.rows };

    fn next(&mut self) -> Option<Take<I::Item>> {
        let cells = self.rows.next()?;
        Some(cells.take(self.limit))
    }
}
