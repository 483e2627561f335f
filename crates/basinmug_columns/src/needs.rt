//! What columns need to be readable.
ghost use Rattle.std.specs.Prelude.{◌≡◌, ◌≤◌, IfOk, false, length, slice_index_or};
ghost use Rattle.grid_records_measure.specs.TextLines.{text_width};
ghost use Rattle.basinmug_columns.specs.Needs.{need_of, needed_text, needs_of, unpadded, widest_in, widest_number};
ghost use Rattle.basinmug_columns.specs.Numbers.Columns.{cell as cell_at};

use crate::numbers::is_number;
use crate::rooms::Need;
use ansi_str::AnsiStr;
use basinmug_cells::{CellRow, CellRows};
use grid_records_measure::get_text_width;
use grid_records_traits::Cell;
use std::alloc::{AllocError, Global};

/// What a column of text needs at most.
const USUAL_WIDTH: usize = 8;

/// What a column of numbers needs at most.
const NUMBER_WIDTH: usize = 24;

/// A padding at each side.
const PADDINGS: usize = 2;

/// What each column needs of a header and records, where so many columns are of numbers or not: the width of its widest
/// line, but at most 8; a column of numbers that of its widest number, where that is more, but at most 24; and a padding
/// at each side. ASCII white space around a number does not count. Fails only where allocation fails.
pub fn needs_of<H: CellRow, R: CellRows>(
    alloc: Global,
    header: H,
    records: R,
    numeric: &[bool],
) -> Result<Vec<Need>, AllocError>
    ensures { IfOk result (λ needs. needs.items ≡ needs_of (H.texts header) (R.rows records) numeric.now) }
{
    let mut needs = Vec::with_capacity(alloc, numeric.len())?;
    for column in 0..numeric.len() {
        needs.push(need_of(alloc, header, records, numeric, column)?)?;
    }
    Ok(needs)
}

// What a column needs.
fn need_of<H: CellRow, R: CellRows>(
    alloc: Global,
    header: H,
    records: R,
    numeric: &[bool],
    column: usize,
) -> Result<Need, AllocError>
    ensures { IfOk result (λ need. need ≡ need_of (H.texts header) (R.rows records) numeric.now column) }
{
    let is_numeric = is_numeric(numeric, column);
    let widest = width_at(header, column).max(widest_in(records, column));
    let text = needed_text(alloc, records, is_numeric, widest, column)?;
    Ok(Need {
        is_numeric,
        width: text + PADDINGS,
    })
}

// Whether a column is of numbers; one of which nothing is said is not.
fn is_numeric(numeric: &[bool], column: usize) -> bool
    ensures { result ≡ slice_index_or numeric.now column false }
{
    numeric.get(column).copied().unwrap_or(false)
}

// How many columns of text a column needs that has a widest line.
fn needed_text<R: CellRows>(
    alloc: Global,
    records: R,
    is_numeric: bool,
    widest: usize,
    column: usize,
) -> Result<usize, AllocError>
    ensures is { IfOk result (λ text. text ≡ needed_text is_numeric widest (widest_number column (R.rows records))) }
    ensures most { IfOk result (λ text. text ≤ 24) }
{
    let usual = widest.min(USUAL_WIDTH);
    if !is_numeric {
        return Ok(usual);
    }
    let number = widest_number(alloc, records, column)?;
    Ok(usual.max(number).min(NUMBER_WIDTH))
}

// The widest number of records in a column, without the white space around it.
fn widest_number<R: CellRows>(alloc: Global, records: R, column: usize) -> Result<usize, AllocError>
    ensures { IfOk result (λ most. most ≡ widest_number column (R.rows records)) }
{
    let mut most = 0;
    for place in 0..records.len() {
        most = number_at(alloc, records.row(place), column)?.max(most);
    }
    Ok(most)
}

// The columns of what a cell of a row shows without the white space around it; 0 where the row is shorter.
fn number_at<W: CellRow>(alloc: Global, row: W, column: usize) -> Result<usize, AllocError>
    ensures { IfOk result (λ width. width ≡ text_width (unpadded (cell_at column (W.texts row)))) }
{
    match row.cell(column) {
        Some(cell) => unpadded_width(alloc, &cell),
        None => unpadded_width(alloc, &""),
    }
}

// The columns of what a cell shows without the white space around it. A number has none, and what its cell knows of it
// is not found again.
fn unpadded_width<C: Cell>(alloc: Global, cell: &C) -> Result<usize, AllocError>
    ensures { IfOk result (λ width. width ≡ text_width (unpadded (C.text cell.now))) }
{
    let text = cell.text();
    if is_number(text.as_bytes()) {
        return Ok(cell_width(cell));
    }
    shown_width(alloc, text)
}

// The columns of what a text shows without the white space around it.
fn shown_width(alloc: Global, text: &str) -> Result<usize, AllocError>
    ensures { IfOk result (λ width. width ≡ text_width (unpadded text.now)) }
{
    let shown = text.ansi_strip(alloc)?;
    let width = get_text_width(shown.as_str().trim_ascii());
    Ok(width)
}

// The widest line of records in a column.
fn widest_in<R: CellRows>(records: R, column: usize) -> usize
    ensures { result ≡ widest_in column (R.rows records) }
{
    let mut most = 0;
    for place in 0..records.len() {
        most = width_at(records.row(place), column).max(most);
    }
    most
}

// The widest line of a cell of a row; 0 where the row is shorter.
fn width_at<W: CellRow>(row: W, column: usize) -> usize
    ensures { result ≡ text_width (cell_at column (W.texts row)) }
{
    match row.cell(column) {
        Some(cell) => cell_width(&cell),
        None => cell_width(&""),
    }
}

// The widest line of a cell.
fn cell_width<C: Cell>(cell: &C) -> usize
    ensures { result ≡ text_width (C.text cell.now) }
{
    cell.width()
}
