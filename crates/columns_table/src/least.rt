//! The least sizes of a table of measured cells: by the widest cell of each column, since each is one line.
ghost use Rattle.std.specs.Prelude.{◌≡◌, ◌⊎◌, ◌+◌, ℕ, ◌<◌, ◌^◌, All, Err, IfErr, IfOk, Ok, OnErr, OnOk, if◌then◌else◌, map, nat_lt, slice_index, vec_len};
ghost use Rattle.grid_config.specs.Compact.{compact_of};
ghost use Rattle.grid_config_values.specs.declared.fault.Fault.TheVariants.{Range};
ghost use Rattle.grid_records_estimate.specs.Collecting.{PassesMax};
ghost use Rattle.grid_records_estimate.specs.Estimates.{greatest};
ghost use Rattle.grid_records_estimate.specs.Sizes.{IsRefusal};
ghost use Rattle.columns_asked.specs.DrawnTables.{heights_of, widths_of};
ghost use Rattle.columns_table.specs.Least.{padded, width_in};
ghost use Rattle.columns_table.specs.Records.{IsSingleLineCell};
ghost use Rattle.columns_table.specs.Rows.{split_by_lengths, row_texts_of};

use crate::rows::Rows;
use grid_config::{CompactConfig, Fault};
use std::alloc::{AllocError, Global};

/// The least widths of the columns and the least heights of the rows of a table of these rows. Refused as
/// `Range` where one of either passes `usize::MAX`, and as `Memory` where allocation fails.
pub fn least_sizes(
    alloc: Global,
    rows: &Rows<'_>,
    style: &CompactConfig,
) -> Result<(Vec<usize>, Vec<usize>), Fault>
    requires measured { All IsSingleLineCell rows.now.cells }
    ensures widths { IfOk result (λ sizes. sizes.0.items ≡ widths_of (compact_of style.now) (row_texts_of rows.now)) }
    ensures heights { IfOk result (λ sizes. sizes.1.items ≡ heights_of (compact_of style.now) (row_texts_of rows.now)) }
    ensures refused { IfErr result (λ fault. IsRefusal fault
        (PassesMax (widths_of (compact_of style.now) (row_texts_of rows.now)) ⊎ PassesMax (heights_of (compact_of style.now) (row_texts_of rows.now)))) }
{
    let padding = style.get_padding();
    let mut widths = widest(alloc, rows)?;
    if widths.is_empty() {
        return Ok((widths, Vec::new(alloc)));
    }
    pad(&mut widths, padding.left.size, padding.right.size)?;
    let mut heights = vec![in alloc; 1; rows.counts.len()]?;
    pad(&mut heights, padding.top.size, padding.bottom.size)?;
    Ok((widths, heights))
}

// What the widest cell of each column measures, which the rows keep.
fn widest(alloc: Global, rows: &Rows<'_>) -> Result<Vec<usize>, AllocError>
    ensures long { IfOk result (λ widths. vec_len widths ≡ greatest rows.now.counts.items) }
    ensures each { IfOk result (λ widths. (column : ℕ) →
        slice_index widths.items column ≡ greatest (map (width_in column) (split_by_lengths rows.now.counts.items rows.now.cells))) }
{
    rows.widest[..greatest(&rows.counts)].to_vec(alloc)
}

// Adds the paddings to each size. Refused as `Range` where one passes `usize::MAX`.
fn pad(sizes: &mut [usize], before: usize, behind: usize) -> Result<(), Fault>
    ensures ok { OnOk result (sizes.new ≡ map (padded before behind) sizes.old) }
    ensures fault { IfErr result (λ fault. fault ≡ Range) }
    ensures range { OnErr result (PassesMax (map (padded before behind) sizes.old)) }
{
    for size in sizes.iter_mut() {
        *size = padded(*size, before, behind)?;
    }
    Ok(())
}

// The size with its paddings. Refused as `Range` where it passes `usize::MAX`.
fn padded(size: usize, before: usize, behind: usize) -> Result<usize, Fault>
    ensures { result ≡ (if nat_lt (padded before behind size) (2 ^ 64) then Ok (padded before behind size) else Err Range) }
{
    match usize::try_from(size as u128 + before as u128 + behind as u128) {
        Ok(size) => Ok(size),
        Err(_) => Err(Fault::Range),
    }
}

/// The greatest of the numbers, and 0 where there is none.
pub fn greatest(numbers: &[usize]) -> usize
    ensures { result ≡ greatest numbers.now }
{
    let mut most = 0;
    for number in numbers {
        most = most.max(*number);
    }
    most
}
