//! How much a table takes as a whole.
ghost use Rattle.std.specs.Prelude.{◌<◌, ◌^◌, ◌+◌, SomeIff};
ghost use Rattle.papergrid_picture.specs.Frame.{thickness, track_at};
ghost use Rattle.papergrid_fits.specs.Tables.{column_tracks, row_tracks};

use grid_config::SpannedConfig;
use grid_records_traits::Dimension;

/// How many columns a line of a table of `columns` columns takes, margins too; `None` where they pass
/// `usize::MAX`. Without columns it is what the margins and the first boundary take.
pub fn full_line_width<D: Dimension>(cfg: &SpannedConfig, dims: &D, columns: usize) -> Option<usize>
    ensures { let total = track_at (column_tracks cfg.now (D.width dims.now) columns) columns + cfg.now.margin.right.size in SomeIff result (total < 2 ^ 64) total }
{
    let margin = cfg.get_margin();
    let mut total = margin.left.size;
    for column in 0..columns {
        let has_boundary = cfg.has_vertical(column, columns);
        total = past(total, has_boundary, dims.get_width(column))?;
    }
    past(total, cfg.has_vertical(columns, columns), margin.right.size)
}

/// How many lines a table of `rows` rows takes, margins too; `None` where they pass `usize::MAX`. Without rows
/// it is what the margins and the first boundary take.
pub fn total_height<D: Dimension>(cfg: &SpannedConfig, dims: &D, rows: usize) -> Option<usize>
    ensures { let total = track_at (row_tracks cfg.now (D.height dims.now) rows) rows + cfg.now.margin.bottom.size in SomeIff result (total < 2 ^ 64) total }
{
    let margin = cfg.get_margin();
    let mut total = margin.top.size;
    for row in 0..rows {
        let has_boundary = cfg.has_horizontal(row, rows);
        total = past(total, has_boundary, dims.get_height(row))?;
    }
    past(total, cfg.has_horizontal(rows, rows), margin.bottom.size)
}

// Where a track ends that comes after `start` and after a boundary, where that exists.
fn past(start: usize, has_boundary: bool, size: usize) -> Option<usize>
    ensures { let end = start + thickness has_boundary + size in SomeIff result (end < 2 ^ 64) end }
{
    if has_boundary {
        start.checked_add(1)?.checked_add(size)
    } else {
        start.checked_add(size)
    }
}
