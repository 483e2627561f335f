//! Rows in batches.
ghost use Rattle.std.specs.Prelude.{◌≡◌, ◌-◌, length};
ghost use Rattle.std.specs.Iterator.{YieldsFirst, item_count};
ghost use Rattle.tabled.specs.RowBatches.{batches, begun_batches, multiples, values_left};
ghost use Rattle.tabled.specs.Tables.{state_of};
ghost use Rattle.tabled_text.specs.Fields.{saturated};

use crate::table::Table;
use tabled_text::Tabled;

/// The number of the first row of each batch of rows, counted from `from`. After the last it gives `None`
/// forever.
#[derive(Clone, Copy, Debug, Default, PartialEq, Eq, PartialOrd, Ord, Hash)]
pub struct LayoutIterator {
    next: usize,
    batch: usize,
    // how many are still to come
    left: usize,
}

impl LayoutIterator {
    /// 0, `batch`, twice `batch` and so on: one for each batch of the rows from `from` to `to`. The last
    /// batch may be smaller. None where `batch` is 0 or there are no rows.
    pub fn new(from: usize, to: usize, batch: usize) -> LayoutIterator
        ensures values { values_left result ≡ multiples (batches (to - from) batch) batch }
        ensures begun { result ≡ begun_batches (to - from) batch }
    {
        LayoutIterator {
            next: 0,
            batch,
            left: count_batches(to.saturating_sub(from), batch),
        }
    }

    /// One for each batch of as many rows of the table as the type has fields.
    pub fn kv_batches<T: Tabled>(table: &Table) -> LayoutIterator
        ensures values { let batch = saturated (length T.names) in values_left result ≡ multiples (batches (length (state_of (λ text. text) table.now).rows) batch) batch }
        ensures begun { result ≡ begun_batches (length (state_of (λ text. text) table.now).rows) (saturated (length T.names)) }
    {
        LayoutIterator::new(0, table.count_rows(), T::length())
    }
}

// How many batches of this size hold `rows` rows; none of size 0.
fn count_batches(rows: usize, batch: usize) -> usize
    ensures { result ≡ batches rows batch }
{
    if batch == 0 {
        return 0;
    }
    let whole = rows / batch;
    if rows % batch == 0 {
        whole
    } else {
        // no more than there are rows
        whole.saturating_add(1)
    }
}

impl Iterator for LayoutIterator {
    type Item = usize;

    ghost next_gives = { YieldsFirst values_left };

    ghost remaining = { item_count values_left };

    fn next(&mut self) -> Option<usize> {
        if self.left == 0 {
            return None;
        }
        let value = self.next;
        self.next = value.saturating_add(self.batch);
        self.left -= 1;
        Some(value)
    }
}
