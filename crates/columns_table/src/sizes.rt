//! How wide and how high a table is.
ghost use Rattle.std.specs.Prelude.{◌≡◌, All, IfErr, IfOk, OnOk, slice_index};
ghost use Rattle.grid_config.specs.Compact.{compact_of};
ghost use Rattle.grid_config.specs.Looks.{compact_look};
ghost use Rattle.grid_config_values.specs.declared.fault.Fault.TheVariants.{Range};
ghost use Rattle.grid_records_estimate.specs.Sizes.{IsRefusal};
ghost use Rattle.papergrid_picture.specs.Fitting.{InRange, table_width};
ghost use Rattle.papergrid_picture.specs.Frame.{frame_of, line_count};
ghost use Rattle.columns_asked.specs.DrawnTables.{frame_under, heights_of, widths_of};
ghost use Rattle.columns_table.specs.Records.{IsSingleLineCell};
ghost use Rattle.columns_table.specs.Rows.{row_texts_of};

use crate::least::least_sizes;
use crate::rows::Rows;
use grid_config::{CompactConfig, Fault};
use grid_records_estimate::total;
use grid_records_traits::Dimension;
use std::alloc::Global;

/// The sizes of a table: of each column, of each row, and how many columns and lines the whole takes with its
/// boundaries and margins.
#[derive(Drop)]
pub struct Sizes {
    pub widths: Vec<usize>,
    pub heights: Vec<usize>,
    pub whole_width: usize,
    pub whole_height: usize,
}

/// After the last column or row every size is 0.
impl Dimension for Sizes {
    ghost width = { λ sizes column. slice_index sizes.widths.items column };

    ghost height = { λ sizes row. slice_index sizes.heights.items row };

    fn get_width(&self, column: usize) -> usize {
        self.widths.get(column).copied().unwrap_or(0)
    }

    fn get_height(&self, row: usize) -> usize {
        self.heights.get(row).copied().unwrap_or(0)
    }
}

/// The least sizes of a table of these rows. Refused as `Range` where its width or height passes
/// `usize::MAX`, and as `Memory` where allocation fails.
pub fn sizes_of(alloc: Global, rows: &Rows<'_>, style: &CompactConfig) -> Result<Sizes, Fault>
    requires measured { All IsSingleLineCell rows.now.cells }
    ensures widths { IfOk result (λ sizes. sizes.widths.items ≡ widths_of (compact_of style.now) (row_texts_of rows.now)) }
    ensures heights { IfOk result (λ sizes. sizes.heights.items ≡ heights_of (compact_of style.now) (row_texts_of rows.now)) }
    ensures whole_width { IfOk result (λ sizes. sizes.whole_width ≡ table_width (frame_under (compact_of style.now) (row_texts_of rows.now))) }
    ensures whole_height { IfOk result (λ sizes. sizes.whole_height ≡ line_count (frame_under (compact_of style.now) (row_texts_of rows.now))) }
    ensures fits { OnOk result (InRange (frame_under (compact_of style.now) (row_texts_of rows.now))) }
    ensures refused { IfErr result (λ fault. IsRefusal fault (¬ (InRange (frame_under (compact_of style.now) (row_texts_of rows.now))))) }
{
    let (widths, heights) = least_sizes(alloc, rows, style)?;
    totalled(widths, heights, style)
}

/// The sizes with the columns and lines that they take together. Refused as `Range` where either pass
/// `usize::MAX`. Does not allocate.
pub fn totalled(
    widths: Vec<usize>,
    heights: Vec<usize>,
    style: &CompactConfig,
) -> Result<Sizes, Fault>
    ensures sizes { IfOk result (λ sizes. (sizes.widths.items ≡ widths.items) × (sizes.heights.items ≡ heights.items)) }
    ensures whole_width { IfOk result (λ sizes. sizes.whole_width ≡ table_width (frame_of (compact_look (compact_of style.now)) widths.items heights.items)) }
    ensures whole_height { IfOk result (λ sizes. sizes.whole_height ≡ line_count (frame_of (compact_look (compact_of style.now)) widths.items heights.items)) }
    ensures fits { OnOk result (InRange (frame_of (compact_look (compact_of style.now)) widths.items heights.items)) }
    ensures refused { IfErr result (λ fault. (fault ≡ Range) × (¬ (InRange (frame_of (compact_look (compact_of style.now)) widths.items heights.items)))) }
{
    let (whole_width, whole_height) = totals_of(&widths, &heights, style)?;
    Ok(Sizes {
        widths,
        heights,
        whole_width,
        whole_height,
    })
}

// How many columns and how many lines these sizes take together. Refused as `Range` where either pass
// `usize::MAX`. Does not allocate.
fn totals_of(
    widths: &[usize],
    heights: &[usize],
    style: &CompactConfig,
) -> Result<(usize, usize), Fault>
    ensures columns { IfOk result (λ totals. totals.0 ≡ table_width (frame_of (compact_look (compact_of style.now)) widths.now heights.now)) }
    ensures lines { IfOk result (λ totals. totals.1 ≡ line_count (frame_of (compact_look (compact_of style.now)) widths.now heights.now)) }
    ensures fits { OnOk result (InRange (frame_of (compact_look (compact_of style.now)) widths.now heights.now)) }
    ensures refused { IfErr result (λ fault. (fault ≡ Range) × (¬ (InRange (frame_of (compact_look (compact_of style.now)) widths.now heights.now)))) }
{
    if widths.is_empty() || heights.is_empty() {
        return Ok((0, 0));
    }
    let borders = style.get_borders();
    let margin = style.get_margin();
    let boundaries = borders.count_vertical(widths.len());
    let columns = total(widths, boundaries, margin.left.size, margin.right.size)?;
    let boundaries = borders.count_horizontal(heights.len());
    let lines = total(heights, boundaries, margin.top.size, margin.bottom.size)?;
    Ok((columns, lines))
}
