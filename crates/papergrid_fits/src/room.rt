//! Whether a cell fits its width.
ghost use Rattle.std.specs.Prelude.{◌≡◌, ◌+◌, ◌-◌, ◌<◌, ◌≤◌, ◌&&◌, nat_lt};
ghost use Rattle.grid_config_values.specs.Glyphs.{boundary_kind, has_column_boundary};
ghost use Rattle.grid_config_values.specs.Spans.Spans.{extent_at};
ghost use Rattle.grid_config.specs.Looks.{look_of};
ghost use Rattle.papergrid_picture.specs.Fitting.{is_too_wide, need as needed};
ghost use Rattle.papergrid_picture.specs.Frame.{stretch, thickness};
ghost use Rattle.papergrid_fits.specs.Tables.{column_tracks, sized_frame};

use grid_config::{Position, SpannedConfig};
use grid_records_traits::{Dimension, PeekableRecords};

/// Whether the cell at this place is visible and too wide. It is so where its widest line and the paddings at its
/// sides need more columns than its rectangle has.
pub(crate) fn is_too_wide<R: PeekableRecords, D: Dimension>(
    records: &R,
    cfg: &SpannedConfig,
    dims: &D,
    columns: usize,
    pos: Position,
) -> bool
    requires { pos.col + (extent_at cfg.now.spans pos).columns ≤ columns }
    ensures { result ≡ is_too_wide (sized_frame cfg.now (D.width dims.now) (D.height dims.now) columns 0) (R.rows records.now) pos }
{
    // Which cell is seen there is looked up last, since it costs most and few cells need more than they have.
    needs_more(records, cfg, dims, columns, pos) && cfg.owner(pos) == pos
}

// Whether the cell needs more columns than its rectangle has.
fn needs_more<R: PeekableRecords, D: Dimension>(
    records: &R,
    cfg: &SpannedConfig,
    dims: &D,
    columns: usize,
    pos: Position,
) -> bool
    requires { pos.col + (extent_at cfg.now.spans pos).columns ≤ columns }
    ensures { result ≡ nat_lt (stretch (column_tracks cfg.now (D.width dims.now) columns) pos.col (extent_at cfg.now.spans pos).columns) (needed (look_of cfg.now) (R.rows records.now) pos) }
{
    let need = need(records, cfg, pos);
    lacking(cfg, dims, columns, pos.col, column_span(cfg, pos), need) > 0
}

// How many columns the widest line of the cell takes with the paddings at its sides.
fn need<R: PeekableRecords>(records: &R, cfg: &SpannedConfig, pos: Position) -> u128
    ensures { result ≡ needed (look_of cfg.now) (R.rows records.now) pos }
{
    let padding = cfg.get_padding(pos);
    records.get_width(pos) as u128 + padding.left.size as u128 + padding.right.size as u128
}

// How many columns the cell takes.
fn column_span(cfg: &SpannedConfig, pos: Position) -> usize
    ensures { result ≡ (extent_at cfg.now.spans pos).columns }
{
    cfg.get_column_span(pos).unwrap_or(1)
}

// How much `count` columns from `first` on, and the boundaries between them, lack of `need`.
fn lacking<D: Dimension>(
    cfg: &SpannedConfig,
    dims: &D,
    columns: usize,
    first: usize,
    count: usize,
    need: u128,
) -> u128
    requires { first + count ≤ columns }
    ensures { result ≡ need - stretch (column_tracks cfg.now (D.width dims.now) columns) first count }
{
    let mut left = need;
    for column in first..first + count {
        let has_boundary = is_behind_boundary(cfg, columns, first, column);
        left = without(left, has_boundary, dims.get_width(column));
    }
    left
}

// Whether the column is not the first of the cell, and a boundary is before it.
fn is_behind_boundary(cfg: &SpannedConfig, columns: usize, first: usize, column: usize) -> bool
    ensures { result ≡ (nat_lt first column && has_column_boundary cfg.now.borders (boundary_kind column columns)) }
{
    first < column && cfg.has_vertical(column, columns)
}

// What is left of a need without a track and the boundary before it, where that exists.
fn without(need: u128, has_boundary: bool, size: usize) -> u128
    ensures { result ≡ need - (thickness has_boundary + size) }
{
    let track = if has_boundary {
        size as u128 + 1
    } else {
        size as u128
    };
    need.saturating_sub(track)
}
