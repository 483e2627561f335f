//! The widths of a table's columns.
ghost use Rattle.std.specs.Prelude.{◌≡◌, Ok};
ghost use Rattle.grid_config.specs.Looks.{look_of};
ghost use Rattle.tabled_steps.specs.Outcomes.{all_sized, sized};
ghost use Rattle.tabled_width.specs.WholeTables.Widths.{width_with_columns as width_of};

use grid_config::{Fault, SpannedConfig};
use grid_records_estimate::total;

/// What columns of these widths take, with the boundaries that are there and the margins; nothing where
/// there are none. Refused as `Range` exactly where it passes `usize::MAX`. Does not allocate.
pub fn width_with_columns(cfg: &SpannedConfig, widths: &[usize]) -> Result<usize, Fault>
    ensures whole { result ≡ sized (width_of (look_of cfg.now) widths.now) }
    ensures held { all_sized widths.now ≡ Ok widths.now }
{
    let margin = cfg.get_margin();
    total(
        widths,
        cfg.count_vertical(widths.len()),
        margin.left.size,
        margin.right.size,
    )
}
