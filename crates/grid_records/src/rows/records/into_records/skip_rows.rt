//! The rows of a source after its first.
ghost use Rattle.std.specs.Iterator.Adapters.{skip_count, skip_source};
ghost use Rattle.std.specs.Prelude.{◌≡◌, drop, refl};
ghost use Rattle.grid_records.specs.RecordRows.Laws.Adapters.{gives_skipped};
ghost use Rattle.grid_records_traits.specs.Laws.Leaving.{passed_skipped, refusing_skipped};

use crate::rows::records::RecordTexts;
use crate::rows::records::into_records::IntoRecords;
use std::iter::Skip;

/// The rows of a source after its first.
#[derive(Debug, Drop)]
pub struct SkipRows<I> {
    records: I,
    count: usize,
}

impl<I: IntoRecords> SkipRows<I> {
    /// The rows after the first `count`, or none where it has no more. Does not allocate.
    pub fn new(records: I, count: usize) -> SkipRows<I>
        ensures rows { ⟦<SkipRows<I> as RecordTexts>⟧.rows result ≡ drop count (I.RecordTexts.rows records) }
        ensures refuses { ⟦<SkipRows<I> as RecordTexts>⟧.can_fail result ≡ I.RecordTexts.can_fail records }
    {
        SkipRows { records, count }
    }
}

impl<I: IntoRecords> RecordTexts for SkipRows<I> {
    ghost rows = { λ s. drop s.count (I.RecordTexts.rows s.records) };

    ghost can_fail = { λ s. I.RecordTexts.can_fail s.records };
}

impl<I: IntoRecords> IntoRecords for SkipRows<I> {
    type Cell = I::Cell;

    type IterColumns = I::IterColumns;

    type IterRows = Skip<I::IterRows>;

    ghost rows_left = { λ s. drop (skip_count s) (I.rows_left (skip_source s)) };

    ghost can_fail_left = { λ s. I.can_fail_left (skip_source s) };

    ghost gives = { λ s. gives_skipped s (skip_count s) refl refl (I.gives (skip_source s)) };

    ghost passes = { λ s t cells step. (
      passed_skipped I.IterRows.next_gives I.rows_left (λ s t cells step. (I.passes s t cells step).0) s t cells step,
      refusing_skipped I.IterRows.next_gives I.can_fail_left (λ s t cells step. (I.passes s t cells step).1) s t cells step,
    ) };

    fn iter_rows(self) -> Skip<I::IterRows> {
        self.records.iter_rows().skip(self.count)
    }
}
