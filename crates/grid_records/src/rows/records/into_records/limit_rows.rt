//! The first rows of a source.
ghost use Rattle.std.specs.Iterator.Adapters.{take_count, take_source};
ghost use Rattle.std.specs.Prelude.{◌≡◌, refl, take};
ghost use Rattle.grid_records.specs.RecordRows.Laws.Adapters.{gives_taken};
ghost use Rattle.grid_records_traits.specs.Laws.Leaving.{passed_taken};

use crate::rows::records::RecordTexts;
use crate::rows::records::into_records::IntoRecords;
use std::iter::Take;

/// The first rows of a source.
#[derive(Debug, Drop)]
pub struct LimitRows<I> {
    records: I,
    limit: usize,
}

impl<I: IntoRecords> LimitRows<I> {
    /// The first `limit` rows of the source, or all where it has fewer. Does not allocate.
    pub fn new(records: I, limit: usize) -> LimitRows<I>
        ensures rows { ⟦<LimitRows<I> as RecordTexts>⟧.rows result ≡ take limit (I.RecordTexts.rows records) }
        ensures refuses { ⟦<LimitRows<I> as RecordTexts>⟧.can_fail result ≡ I.RecordTexts.can_fail records }
    {
        LimitRows { records, limit }
    }
}

impl<I: IntoRecords> RecordTexts for LimitRows<I> {
    ghost rows = { λ s. take s.limit (I.RecordTexts.rows s.records) };

    ghost can_fail = { λ s. I.RecordTexts.can_fail s.records };
}

impl<I: IntoRecords> IntoRecords for LimitRows<I> {
    type Cell = I::Cell;

    type IterColumns = I::IterColumns;

    type IterRows = Take<I::IterRows>;

    ghost rows_left = { λ s. take (take_count s) (I.rows_left (take_source s)) };

    ghost can_fail_left = { λ s. I.can_fail_left (take_source s) };

    ghost gives = { λ s. gives_taken s (take_count s) refl refl (I.gives (take_source s)) };

    ghost passes = { λ s t cells step. (
      passed_taken I.IterRows.next_gives I.rows_left (λ s t cells step. (I.passes s t cells step).0) s t cells step,
      (I.passes (take_source s) (take_source t) cells step.0).1,
    ) };

    fn iter_rows(self) -> Take<I::IterRows> {
        self.records.iter_rows().take(self.limit)
    }
}
