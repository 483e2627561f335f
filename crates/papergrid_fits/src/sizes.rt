//! The sizes of a table as lists.
ghost use Rattle.std.specs.Prelude.{◌≡◌, IfOk};
ghost use Rattle.papergrid_picture.specs.Tables.{sizes_of};

use grid_records_traits::Dimension;
use std::alloc::{AllocError, Global};

/// The widths of the first `columns` columns, each in columns of text. Fails only where allocation fails.
pub fn widths<D: Dimension>(
    alloc: Global,
    dims: &D,
    columns: usize,
) -> Result<Vec<usize>, AllocError>
    ensures { IfOk result (λ sizes. sizes.items ≡ sizes_of (D.width dims.now) columns) }
{
    let mut sizes = Vec::with_capacity(alloc, columns)?;
    for column in 0..columns {
        sizes.push(dims.get_width(column))?;
    }
    Ok(sizes)
}

/// The heights of the first `rows` rows, each in lines of text. Fails only where allocation fails.
pub fn heights<D: Dimension>(alloc: Global, dims: &D, rows: usize) -> Result<Vec<usize>, AllocError>
    ensures { IfOk result (λ sizes. sizes.items ≡ sizes_of (D.height dims.now) rows) }
{
    let mut sizes = Vec::with_capacity(alloc, rows)?;
    for row in 0..rows {
        sizes.push(dims.get_height(row))?;
    }
    Ok(sizes)
}
