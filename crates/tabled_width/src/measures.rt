//! Widths that are taken from a table.
ghost use Rattle.std.specs.Prelude.{◌≡◌, ◌*◌, if◌then◌else◌, Ok, max, min};
ghost use Rattle.grid_records_estimate.specs.Estimates.{greatest, smallest};
ghost use Rattle.tabled_steps.specs.Outcomes.{sized};
ghost use Rattle.tabled_width.specs.Measures.{greatest_smallest_width, greatest_width, percent_of_width, row_widths};

use crate::tables::width_with_columns;
use crate::width::Width;
use grid_config::{Fault, Position, SpannedConfig};
use grid_records::PeekedRecords;
use grid_records_estimate::IterGridDimension;
use grid_records_traits::records::{ExactRecords, PeekableRecords};
use std::alloc::Global;
use tabled_steps::{Max, Measurement, Min, Percent};

/// The greatest measure of a cell. It is never refused.
impl Measurement<Width> for Max {
    ghost measures = { λ _ columns rows _ outcome. Ok (greatest_width columns rows) ≡ outcome };

    fn measure<R: ExactRecords + PeekableRecords>(
        &self,
        _alloc: Global,
        records: &R,
        _cfg: &SpannedConfig,
    ) -> Result<usize, Fault>
        ensures { result ≡ Ok (greatest_width (R.columns records.now) (R.ExactRecords.rows records.now)) }
    {
        let mut widest = 0;
        for row in 0..records.count_rows() {
            widest = greater(widest, greatest_in_row(records, row));
        }
        Ok(widest)
    }
}

/// The greatest over the rows of a row's smallest measure. It is never refused.
impl Measurement<Width> for Min {
    ghost measures = { λ _ columns rows _ outcome. Ok (greatest_smallest_width columns rows) ≡ outcome };

    fn measure<R: ExactRecords + PeekableRecords>(
        &self,
        _alloc: Global,
        records: &R,
        _cfg: &SpannedConfig,
    ) -> Result<usize, Fault>
        ensures { result ≡ Ok (greatest_smallest_width (R.columns records.now) (R.ExactRecords.rows records.now)) }
    {
        let mut widest = 0;
        for row in 0..records.count_rows() {
            widest = greater(widest, smallest_in_row(records, row));
        }
        Ok(widest)
    }
}

/// This percentage of what the table takes in the least widths that hold its texts, whatever is kept, with
/// boundaries and margins, rounded down. Refused as `Range` where one of these, or their product, passes
/// `usize::MAX`, and as `Memory` where allocation fails.
impl Measurement<Width> for Percent {
    ghost measures = { λ percent columns rows look outcome. percent_of_width percent.0 columns rows look ≡ outcome };

    fn measure<R: ExactRecords + PeekableRecords>(
        &self,
        alloc: Global,
        records: &R,
        cfg: &SpannedConfig,
    ) -> Result<usize, Fault> {
        let widths = IterGridDimension::width(alloc, PeekedRecords::new(records), cfg)?;
        let whole = width_with_columns(cfg, &widths)?;
        let product = product_of(whole, self.0)?;
        Ok(product / 100)
    }
}

// The greatest measure of a cell in a row.
fn greatest_in_row<R: ExactRecords + PeekableRecords>(records: &R, row: usize) -> usize
    ensures { result ≡ greatest (row_widths (R.columns records.now) (R.ExactRecords.rows records.now) row) }
{
    let mut widest = 0;
    for column in 0..records.count_columns() {
        let width = records.get_width(Position::new(row, column));
        widest = greater(widest, width);
    }
    widest
}

// The smallest measure of a cell in a row, 0 without columns.
fn smallest_in_row<R: ExactRecords + PeekableRecords>(records: &R, row: usize) -> usize
    ensures { result ≡ smallest (row_widths (R.columns records.now) (R.ExactRecords.rows records.now) row) }
{
    let mut narrowest = 0;
    for column in 0..records.count_columns() {
        let width = records.get_width(Position::new(row, column));
        narrowest = lesser(column == 0, narrowest, width);
    }
    narrowest
}

// The lesser of what was found so far and one width more.
fn lesser(first: bool, narrowest: usize, width: usize) -> usize
    ensures { result ≡ (if first then width else min narrowest width) }
{
    if first { width } else { narrowest.min(width) }
}

// The greater of what was found so far and one width more.
fn greater(widest: usize, width: usize) -> usize
    ensures { result ≡ max widest width }
{
    widest.max(width)
}

// The product, refused as `Range` exactly where it passes `usize::MAX`.
fn product_of(whole: usize, percent: usize) -> Result<usize, Fault>
    ensures { result ≡ sized (whole * percent) }
{
    match whole.checked_mul(percent) {
        Some(product) => Ok(product),
        None => Err(Fault::Range),
    }
}
