//! The widths of a table in a requested width.
ghost use Rattle.std.specs.Prelude.{◌≡◌, ◌<◌, ◌^◌, IfOk, sum};
ghost use Rattle.std.specs.Option.{option_map};
ghost use Rattle.grid_config.specs.Compact.{Compact};
ghost use Rattle.columns_asked.specs.DrawnTables.{narrow, paddings};

use crate::asked::WidthLimit;
use std::alloc::{AllocError, Global};

/// The widths to which a table with these widths shrinks, where it would take `total` columns. None of them is below
/// the columns beside a text, `beside`. `None` where the table takes no more than it may. It fails only where
/// allocation fails.
pub fn narrowed(
    alloc: Global,
    asked: &WidthLimit,
    widths: &[usize],
    total: usize,
    beside: usize,
) -> Result<Option<Vec<usize>>, AllocError>
    requires { sum widths.now < 2 ^ 64 }
    ensures { IfOk result (λ answer. (style : Compact) → beside ≡ paddings style →
        option_map (λ sizes. sizes.items) answer ≡ narrow style asked.now widths.now total asked.now.width) }
{
    let Some(width) = asked.width else {
        return Ok(None);
    };
    if total <= width {
        return Ok(None);
    }
    let mut sizes = widths.to_vec(alloc)?;
    let least = vec![in alloc; beside; widths.len()]?;
    asked.priority.shrink(&mut sizes, &least, total - width);
    Ok(Some(sizes))
}
