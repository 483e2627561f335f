//! A source of rows with a column count.
ghost use Rattle.std.specs.Prelude.{◌≡◌};

use crate::rows::records::into_records::IntoRecords;
use crate::rows::records::into_records::evened::{Evened, EvenedRows};
use crate::rows::records::{RecordColumns, RecordTexts, Records};

/// A source of rows with a column count, and a hint of how many rows it has.
#[derive(Debug, Drop)]
pub struct IterRecords<I> {
    iter: I,
    count_columns: usize,
    count_rows: Option<usize>,
}

impl<I: IntoRecords> IterRecords<I> {
    /// The rows of the source, this count of columns, and the hint. Does not allocate.
    pub fn new(iter: I, count_columns: usize, count_rows: Option<usize>) -> IterRecords<I>
        ensures rows { ⟦<IterRecords<I> as RecordTexts>⟧.rows result ≡ I.RecordTexts.rows iter }
        ensures columns { ⟦<IterRecords<I> as RecordColumns>⟧.columns result ≡ count_columns }
        ensures hint { ⟦<IterRecords<I> as Records>⟧.hint result ≡ count_rows }
        ensures refuses { ⟦<IterRecords<I> as RecordTexts>⟧.can_fail result ≡ I.RecordTexts.can_fail iter }
    {
        IterRecords {
            iter,
            count_columns,
            count_rows,
        }
    }
}

impl<I: IntoRecords> RecordTexts for IterRecords<I> {
    ghost rows = { λ s. I.RecordTexts.rows s.iter };

    ghost can_fail = { λ s. I.RecordTexts.can_fail s.iter };
}

impl<I: IntoRecords> IntoRecords for IterRecords<I> {
    type Cell = I::Cell;

    type IterColumns = I::IterColumns;

    type IterRows = I::IterRows;

    ghost rows_left = { I.rows_left };

    ghost can_fail_left = { I.can_fail_left };

    ghost gives = { I.gives };

    ghost passes = { I.passes };

    fn iter_rows(self) -> I::IterRows {
        self.iter.iter_rows()
    }
}

impl<I: IntoRecords> RecordColumns for IterRecords<I> {
    ghost columns = { λ s. s.count_columns };

    fn count_columns(&self) -> usize {
        self.count_columns
    }
}

impl<I: IntoRecords> Records for IterRecords<I> {
    type Iter = Evened<I>;

    ghost hint = { λ s. s.count_rows };

    fn iter_rows(self) -> EvenedRows<I::IterRows> {
        Evened::new(self.iter, self.count_columns).iter_rows()
    }

    fn hint_count_rows(&self) -> Option<usize> {
        self.count_rows
    }
}

impl<'a, I: IntoRecords + Copy> Records for &'a IterRecords<I> {
    type Iter = Evened<I>;

    ghost hint = { λ s. ⟦<IterRecords<I> as Records>⟧.hint s.now };

    fn iter_rows(self) -> EvenedRows<I::IterRows> {
        Evened::new(self.iter, self.count_columns).iter_rows()
    }

    fn hint_count_rows(&self) -> Option<usize> {
        IterRecords::hint_count_rows(self)
    }
}
