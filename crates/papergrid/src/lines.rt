//! How many lines a table has.
ghost use Rattle.std.specs.Prelude.{◌≡◌, ◌<◌, ◌^◌};
ghost use Rattle.papergrid_picture.specs.Frame.{line_count};
ghost use Rattle.papergrid_fits.specs.Tables.{sized_frame};

use grid_config::SpannedConfig;
use grid_records_traits::Dimension;
use papergrid_fits::total_height;

/// How many lines a table of `rows` rows and `columns` columns of these sizes has, margins too; none
/// without rows or columns. They must be at most `usize::MAX`.
pub(crate) fn count_sized_lines<D: Dimension>(
    cfg: &SpannedConfig,
    dims: &D,
    rows: usize,
    columns: usize,
) -> usize
    requires { line_count (sized_frame cfg.now (D.width dims.now) (D.height dims.now) columns rows) < 2 ^ 64 }
    ensures { result ≡ line_count (sized_frame cfg.now (D.width dims.now) (D.height dims.now) columns rows) }
{
    if rows == 0 || columns == 0 {
        return 0;
    }
    total_height(cfg, dims, rows).unwrap()
}
