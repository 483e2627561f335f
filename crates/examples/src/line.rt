//! One line of a table in given sizes (`papergrid_print`).
ghost use Rattle.std.specs.Prelude.{slice_index};

use crate::grid::settings;
use grid_config::{Fault, SpannedConfig};
use grid_records::{Dimension, PeekableRecords, VecRecords, are_equally_long};
use papergrid::{NoColors, count_lines};
use papergrid_fits::fits_counted;
use papergrid_print::print_line;
use std::alloc::Global;

/// The widths of columns and the heights of rows.
#[derive(Clone, Copy)]
struct Sizes<'a> {
    widths: &'a [usize],
    heights: &'a [usize],
}

impl<'a> Dimension for Sizes<'a> {
    ghost width = { λ sizes column. slice_index sizes.widths.now column };

    ghost height = { λ sizes row. slice_index sizes.heights.now row };

    fn get_width(&self, column: usize) -> usize {
        self.widths.get(column).copied().unwrap_or(0)
    }

    fn get_height(&self, row: usize) -> usize {
        self.heights.get(row).copied().unwrap_or(0)
    }
}

/// Line `y` of the rows in columns and rows of these sizes. None where not all rows have as many cells, or
/// there are fewer lines. Refused where the rows do not fit, and where allocation fails.
pub(crate) fn line(
    alloc: Global,
    rows: Vec<Vec<&str>>,
    widths: &[usize],
    heights: &[usize],
    y: usize,
) -> Result<Option<String>, Fault> {
    if !are_equally_long(&rows) {
        return Ok(None);
    }
    let cfg = settings(alloc);
    let text = printed(
        alloc,
        &VecRecords::new(rows),
        &cfg,
        Sizes { widths, heights },
        y,
    );
    drop(cfg);
    text
}

fn printed<R: PeekableRecords>(
    alloc: Global,
    records: &R,
    cfg: &SpannedConfig,
    sizes: Sizes<'_>,
    y: usize,
) -> Result<Option<String>, Fault> {
    let (widths, heights) = (sizes.widths, sizes.heights);
    fits_counted(records, cfg, &sizes, heights.len(), widths.len())?;
    if y >= count_lines(cfg, widths, heights) {
        return Ok(None);
    }
    let mut line = String::new(alloc);
    print_line(
        alloc, records, cfg, &NoColors, widths, heights, y, &mut line,
    )?;
    Ok(Some(line))
}
