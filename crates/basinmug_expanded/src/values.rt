//! The lines of values.
ghost use Rattle.std.specs.Prelude.{◌≡◌, IfOk, [], if◌then◌else◌, map, slice_index_or, string_bytes};
ghost use Rattle.std.specs.Cow.{cow_str_bytes};
ghost use Rattle.grid_records_measure.specs.TextLines.{text_lines, text_width};
ghost use Rattle.grid_records_traits.specs.Sources.{texts_of_rows};
ghost use Rattle.basinmug_columns.specs.Fitting.Fitting.{cut_lines, wrap_words};
ghost use Rattle.basinmug_expanded.specs.Records.{fitted};

use basinmug_cells::CellRow;
use basinmug_columns::fitting::{cut_lines, wrap_words};
use grid_records_measure::{get_lines, get_text_width};
use grid_records_traits::Cell;
use std::alloc::{AllocError, Global};
use std::borrow::CowStr;

/// The text of the cell in this column, and the empty text where there is none.
pub(crate) fn text_at<C: Cell>(cells: &[C], column: usize) -> &str
    ensures { result.now ≡ slice_index_or (map C.text cells.now) column [] }
{
    match cells.get(column) {
        Some(cell) => cell.text(),
        None => "",
    }
}

/// The row with this number, and where there is none one without cells.
pub(crate) fn row_at<C: Cell>(rows: &[Vec<C>], number: usize) -> &[C]
    ensures { map C.text result.now ≡ slice_index_or (texts_of_rows C.text rows.now) number [] }
{
    match rows.get(number) {
        Some(row) => row.as_slice(),
        None => &[],
    }
}

/// The columns of the widest line of the cell in this column, and 0 where there is none. Does not allocate.
pub(crate) fn width_at<T: CellRow>(cells: T, column: usize) -> usize
    ensures { result ≡ text_width (slice_index_or (T.texts cells) column []) }
{
    match cells.cell(column) {
        Some(cell) => width_of(&cell),
        None => width_of(&""),
    }
}

// The columns of the widest line of a cell.
fn width_of<C: Cell>(cell: &C) -> usize
    ensures { result ≡ text_width (C.text cell.now) }
{
    cell.width()
}

/// A text in so many columns: one that fits is borrowed, and of another the lines are cut, or wrapped between words.
/// Fails only where allocation fails.
pub(crate) fn fitted<'a>(
    alloc: Global,
    text: &'a str,
    truncate: bool,
    columns: usize,
) -> Result<CowStr<'a>, AllocError>
    ensures { IfOk result (λ out. cow_str_bytes out ≡ fitted truncate columns text.now) }
{
    if get_text_width(text) <= columns {
        return Ok(CowStr::Borrowed(text));
    }
    Ok(CowStr::Owned(narrowed(alloc, text, truncate, columns)?))
}

// A text that is wider than so many columns.
fn narrowed(alloc: Global, text: &str, truncate: bool, columns: usize) -> Result<String, AllocError>
    ensures { IfOk result (λ out. string_bytes out ≡ (if truncate then cut_lines columns text.now else wrap_words columns text.now)) }
{
    if truncate {
        cut_lines(alloc, text, columns)
    } else {
        wrap_words(alloc, text, columns)
    }
}

/// The lines of a text, each of which opens and ends its own styles. Fails only where allocation fails.
pub(crate) fn lines_of(alloc: Global, text: &str) -> Result<Vec<String>, AllocError>
    ensures { IfOk result (λ lines. map string_bytes lines.items ≡ text_lines text.now) }
{
    let mut lines = Vec::new(alloc);
    for line in get_lines(alloc, text) {
        let line = line?;
        lines.push(line.into_owned(alloc)?)?;
    }
    Ok(lines)
}
