//! Whether a table fits its sizes.
ghost use Rattle.std.specs.Prelude.{◌≡◌, ◌<◌, ◌↔◌, IsTrue, map};
ghost use Rattle.std.specs.List.{find, range_with_len};
ghost use Rattle.std.specs.Option.{option_map};
ghost use Rattle.grid_config_values.specs.Entities.{table_positions};
ghost use Rattle.grid_config_values.specs.Spans.Spans.{AreGood, ArePositive};
ghost use Rattle.papergrid_picture.specs.Fitting.{FitsAnswer, InRange, is_too_wide as is_too_wide_in};
ghost use Rattle.papergrid_picture.specs.Picture.{at};
ghost use Rattle.papergrid_fits.specs.Tables.{IsFitsAnswer, sized_frame};

use crate::room::is_too_wide;
use crate::totals::{full_line_width, total_height};
use grid_config::{Fault, Position, SpannedConfig};
use grid_records_traits::{Dimension, ExactRecords, PeekableRecords};

/// Whether a table fits these sizes. Does not allocate.
///
/// The refusals, in this order:
/// - `Spans` where the table's spans are not good;
/// - `Range` where the columns of a line, or the lines, pass `usize::MAX`, margins too;
/// - `Room` of the first visible cell, by row, then by column, that is too wide. Its widest line with the paddings at
///   its sides is wider than the columns that it takes and the boundaries between them.
pub fn fits<R: ExactRecords + PeekableRecords, D: Dimension>(
    records: &R,
    cfg: &SpannedConfig,
    dims: &D,
) -> Result<(), Fault>
    ensures answer { IsFitsAnswer cfg.now (D.width dims.now) (D.height dims.now) (R.columns records.now) (R.rows records.now) result }
    ensures positive { ArePositive cfg.now.spans }
{
    fits_counted(
        records,
        cfg,
        dims,
        records.count_rows(),
        records.count_columns(),
    )
}

/// Whether the first `rows` rows and `columns` columns of records fit these sizes. The results are those of
/// `fits`. Does not allocate.
pub fn fits_counted<R: PeekableRecords, D: Dimension>(
    records: &R,
    cfg: &SpannedConfig,
    dims: &D,
    rows: usize,
    columns: usize,
) -> Result<(), Fault>
    ensures answer { FitsAnswer (sized_frame cfg.now (D.width dims.now) (D.height dims.now) columns rows) (R.rows records.now) (AreGood cfg.now.spans rows columns) result }
    ensures positive { ArePositive cfg.now.spans }
{
    if !cfg.spans_are_good(rows, columns) {
        return Err(Fault::Spans);
    }
    if !is_in_range(cfg, dims, rows, columns) {
        return Err(Fault::Range);
    }
    match first_too_wide(records, cfg, dims, rows, columns) {
        Some(pos) => Err(Fault::Room {
            row: pos.row,
            column: pos.col,
        }),
        None => Ok(()),
    }
}

// Whether the columns of a line and the lines of a table of `rows` rows and `columns` columns are at most
// `usize::MAX`. Without rows or columns there are none.
fn is_in_range<D: Dimension>(cfg: &SpannedConfig, dims: &D, rows: usize, columns: usize) -> bool
    ensures { IsTrue result ↔ InRange (sized_frame cfg.now (D.width dims.now) (D.height dims.now) columns rows) }
{
    if rows == 0 || columns == 0 {
        return true;
    }
    full_line_width(cfg, dims, columns).is_some() && total_height(cfg, dims, rows).is_some()
}

// The first visible cell, by row, then by column, that needs more columns than it has.
fn first_too_wide<R: PeekableRecords, D: Dimension>(
    records: &R,
    cfg: &SpannedConfig,
    dims: &D,
    rows: usize,
    columns: usize,
) -> Option<Position>
    requires { AreGood cfg.now.spans rows columns }
    ensures { result ≡ find (is_too_wide_in (sized_frame cfg.now (D.width dims.now) (D.height dims.now) columns 0) (R.rows records.now)) (table_positions rows columns) }
{
    for row in 0..rows {
        if let Some(column) = first_in_row(records, cfg, dims, rows, columns, row) {
            return Some(Position::new(row, column));
        }
    }
    None
}

// The column of the first such cell in a row.
fn first_in_row<R: PeekableRecords, D: Dimension>(
    records: &R,
    cfg: &SpannedConfig,
    dims: &D,
    rows: usize,
    columns: usize,
    row: usize,
) -> Option<usize>
    requires good { AreGood cfg.now.spans rows columns }
    requires inside { row < rows }
    ensures { option_map (at row) result ≡ find (is_too_wide_in (sized_frame cfg.now (D.width dims.now) (D.height dims.now) columns 0) (R.rows records.now)) (map (at row) (range_with_len 0 columns)) }
{
    for column in 0..columns {
        if is_too_wide(records, cfg, dims, columns, Position::new(row, column)) {
            return Some(column);
        }
    }
    None
}
