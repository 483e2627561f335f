//! The sizes of a table's content, by the rows that are read ahead.
ghost use Rattle.std.specs.List.{range_with_len};
ghost use Rattle.std.specs.Prelude.{◌≡◌, IfOk, length, map, max, take};
ghost use Rattle.grid_records_estimate.specs.Estimates.{greatest};
ghost use Rattle.grid_records_traits.specs.TextLines.{text_height};
ghost use Rattle.grid_records_traits.specs.Sources.{texts_of_rows};
ghost use Rattle.tabled_compact.specs.Columns.{column_width};
ghost use Rattle.tabled_compact.specs.Iter.Content.{columns_or, heights_or, row_height, widths_or};
ghost use Rattle.tabled_size.specs.Dimension.Values.{value_sizes};

use crate::width_in;
use grid_records_traits::Cell;
use std::alloc::{AllocError, Global};
use tabled_size::DimensionValue;

/// The first `count`, or all where there are fewer.
pub(crate) fn first<T>(items: &[T], count: usize) -> &[T]
    ensures { result.now ≡ take count items.now }
{
    &items[..count.min(items.len())]
}

/// How many columns a table has.
pub(crate) fn columns_or<C: Cell>(count: Option<usize>, sniffed: &[Vec<C>]) -> usize
    ensures { result ≡ columns_or count (texts_of_rows C.text sniffed.now) }
{
    match count {
        Some(count) => count,
        None => longest(sniffed),
    }
}

// How many cells the longest row has.
fn longest<C: Cell>(rows: &[Vec<C>]) -> usize
    ensures { result ≡ greatest (map length (texts_of_rows C.text rows.now)) }
{
    let mut most: usize = 0;
    for row in rows {
        most = most.max(row.len());
    }
    most
}

/// The widths of the columns' content. Fails only where allocation fails.
pub(crate) fn widths_or<C: Cell>(
    alloc: Global,
    width: Option<usize>,
    columns: usize,
    sniffed: &[Vec<C>],
) -> Result<DimensionValue, AllocError>
    ensures { IfOk result (λ widths. value_sizes widths ≡ widths_or width columns (texts_of_rows C.text sniffed.now)) }
{
    match width {
        Some(width) => Ok(DimensionValue::Exact(width)),
        None => Ok(DimensionValue::List(column_widths(alloc, columns, sniffed)?)),
    }
}

fn column_widths<C: Cell>(
    alloc: Global,
    columns: usize,
    sniffed: &[Vec<C>],
) -> Result<Vec<usize>, AllocError>
    ensures { IfOk result (λ widths. widths.items ≡ map (column_width (texts_of_rows C.text sniffed.now)) (range_with_len 0 columns)) }
{
    let mut widths = Vec::new(alloc);
    for column in 0..columns {
        widths.push(column_width(sniffed, column))?;
    }
    Ok(widths)
}

fn column_width<C: Cell>(sniffed: &[Vec<C>], column: usize) -> usize
    ensures { result ≡ column_width (texts_of_rows C.text sniffed.now) column }
{
    let mut widest: usize = 0;
    for row in sniffed {
        widest = widest.max(width_in(row, column));
    }
    widest
}

/// The heights of the rows' content. Fails only where allocation fails.
pub(crate) fn heights_or<C: Cell>(
    alloc: Global,
    height: Option<usize>,
    width: Option<usize>,
    columns: usize,
    sniffed: &[Vec<C>],
) -> Result<DimensionValue, AllocError>
    ensures { IfOk result (λ heights. value_sizes heights ≡ heights_or height width columns (texts_of_rows C.text sniffed.now)) }
{
    match (height, width) {
        (Some(height), _) => Ok(DimensionValue::Exact(height)),
        (None, Some(_)) => Ok(DimensionValue::Exact(1)),
        (None, None) => Ok(DimensionValue::Partial(row_heights(alloc, columns, sniffed)?, 1)),
    }
}

fn row_heights<C: Cell>(
    alloc: Global,
    columns: usize,
    rows: &[Vec<C>],
) -> Result<Vec<usize>, AllocError>
    ensures { IfOk result (λ heights. heights.items ≡ map (row_height columns) (texts_of_rows C.text rows.now)) }
{
    let mut heights = Vec::new(alloc);
    for row in rows {
        heights.push(row_height(columns, row))?;
    }
    Ok(heights)
}

fn row_height<C: Cell>(columns: usize, row: &[C]) -> usize
    ensures { result ≡ row_height columns (map C.text row.now) }
{
    most_lines(first(row, columns))
}

// How many lines the highest of these texts has, and one at least.
fn most_lines<C: Cell>(cells: &[C]) -> usize
    ensures { result ≡ max 1 (greatest (map text_height (map C.text cells.now))) }
{
    let mut most: usize = 1;
    for cell in cells {
        most = most.max(cell.count_lines());
    }
    most
}
