//! The height of a table or of its cells: makers of its options, and sizes that are taken from it.
ghost use Rattle.std.specs.Prelude.{◌≡◌, IfOk, List, Ok, ℕ};
ghost use Rattle.std.specs.Iterator.{Drains, IsFinite};
ghost use Rattle.tabled_height.specs.Heights.{fewest_lines, hundredths, most_lines, percent_of_height, row_lines};
ghost use Rattle.tabled_height.specs.Options.{increase_height, limit_height};

use crate::increase::CellHeightIncrease;
use crate::limit::CellHeightLimit;
use crate::list::HeightList;
use crate::rows::RowHeights;
use grid_config::{Fault, Position, SpannedConfig};
use grid_records::PeekedRecords;
use grid_records_traits::records::{ExactRecords, PeekableRecords};
use std::alloc::{AllocError, Global};
use tabled_steps::{Max, Measurement, Min, Percent};

/// Heights, in lines: the mark of a `Measurement` that is one, and the maker of the options that set them.
#[derive(Clone, Copy, Debug)]
pub struct Height;

impl Height {
    /// The option of at least this many lines.
    pub fn increase<W: Measurement<Height>>(height: W) -> CellHeightIncrease<W>
        ensures { increase_height result ≡ height }
    {
        CellHeightIncrease::new(height)
    }

    /// The option of at most this many lines.
    pub fn limit<W: Measurement<Height>>(height: W) -> CellHeightLimit<W>
        ensures { limit_height result ≡ height }
    {
        CellHeightLimit::new(height)
    }

    /// The option of these heights of rows, provided that the items end. It fails only where allocation fails.
    pub fn list<I: IntoIterator<Item = usize>>(
        alloc: Global,
        items: I,
    ) -> Result<HeightList, AllocError>
    where
        I::IntoIter: Drop,
        requires { (s : I.IntoIter) → I.into_iter_gives items s → I.IntoIter.can_next s × IsFinite (I.IntoIter.remaining s) }
        ensures { IfOk result (λ list. (s : I.IntoIter) × (taken : List ℕ) × I.into_iter_gives items s × Drains I.IntoIter.next_gives s taken × (list ≡ taken)) }
    {
        HeightList::from_iter(alloc, items)
    }
}

/// The greatest count of lines of a cell, 0 where there are no cells. It is never refused.
impl Measurement<Height> for Max {
    ghost measures = { λ _ columns rows _ outcome. Ok (most_lines columns rows) ≡ outcome };

    fn measure<R: ExactRecords + PeekableRecords>(
        &self,
        _alloc: Global,
        records: &R,
        _cfg: &SpannedConfig,
    ) -> Result<usize, Fault>
        ensures { result ≡ Ok (most_lines (R.columns records.now) (R.rows records.now)) }
    {
        Ok(most_lines(records))
    }
}

/// The least over the rows of a row's greatest count of lines, 0 where there are no cells. It is never
/// refused.
impl Measurement<Height> for Min {
    ghost measures = { λ _ columns rows _ outcome. Ok (fewest_lines columns rows) ≡ outcome };

    fn measure<R: ExactRecords + PeekableRecords>(
        &self,
        _alloc: Global,
        records: &R,
        _cfg: &SpannedConfig,
    ) -> Result<usize, Fault>
        ensures { result ≡ Ok (fewest_lines (R.columns records.now) (R.rows records.now)) }
    {
        Ok(fewest_lines(records))
    }
}

/// This percentage, rounded down, of the lines that the table has by a new estimate, its margins too.
/// Refused as `Range` where these or their product pass `usize::MAX`, and as `Memory` where
/// allocation fails.
impl Measurement<Height> for Percent {
    ghost measures = { λ percent columns rows look outcome. percent_of_height percent.0 columns rows look ≡ outcome };

    fn measure<R: ExactRecords + PeekableRecords>(
        &self,
        alloc: Global,
        records: &R,
        cfg: &SpannedConfig,
    ) -> Result<usize, Fault> {
        let heights = RowHeights::estimate(alloc, PeekedRecords::new(records), cfg)?;
        hundredths(heights.lines(), self.0)
    }
}

// The greatest count of lines of a cell.
fn most_lines<R: ExactRecords + PeekableRecords>(records: &R) -> usize
    ensures { result ≡ most_lines (R.columns records.now) (R.rows records.now) }
{
    let mut most: usize = 0;
    for row in 0..records.count_rows() {
        most = most.max(row_lines(records, row));
    }
    most
}

// The least over the rows of a row's greatest count of lines.
fn fewest_lines<R: ExactRecords + PeekableRecords>(records: &R) -> usize
    ensures { result ≡ fewest_lines (R.columns records.now) (R.rows records.now) }
{
    let rows = records.count_rows();
    if rows == 0 {
        return 0;
    }
    let mut fewest = row_lines(records, 0);
    for row in 1..rows {
        fewest = fewest.min(row_lines(records, row));
    }
    fewest
}

// The greatest count of lines of a cell of a row.
fn row_lines<R: ExactRecords + PeekableRecords>(records: &R, row: usize) -> usize
    ensures { result ≡ row_lines (R.columns records.now) (R.rows records.now) row }
{
    let mut most: usize = 0;
    for column in 0..records.count_columns() {
        most = most.max(records.count_lines(Position::new(row, column)));
    }
    most
}

// This percentage of the lines, rounded down. Refused as `Range` where the product passes `usize::MAX`.
fn hundredths(lines: usize, percent: usize) -> Result<usize, Fault>
    ensures { result ≡ hundredths percent lines }
{
    match lines.checked_mul(percent) {
        Some(product) => Ok(product / 100),
        None => Err(Fault::Range),
    }
}
