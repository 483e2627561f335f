//! What fields are called.
ghost use Rattle.std.specs.Prelude.{◌≡◌, [], IfOk, map, slice_index_or, string_bytes};
ghost use Rattle.tabled_text.specs.Rows.{text_rows};
ghost use Rattle.basinmug_expanded.specs.Columns.{field_count, name_of, names_of};
ghost use Rattle.basinmug_expanded.specs.Records.{filled_line, name_lines};

use crate::lines::push_spaces;
use crate::values::{fitted, lines_of};
use basinmug_cells::{CellRow, CellRows, longest};
use grid_records_measure::get_line_width;
use grid_records_traits::Cell;
use std::alloc::{AllocError, Global};

/// What the fields of the records are called: by the header, or by number from 0. Fails only where allocation fails.
pub(crate) fn names_of<H: CellRow, R: CellRows>(
    alloc: Global,
    has_header: bool,
    header: H,
    records: R,
) -> Result<Vec<String>, AllocError>
    ensures { IfOk result (λ names. map string_bytes names.items ≡ names_of has_header (H.texts header) (R.rows records)) }
{
    let mut names = Vec::new(alloc);
    for field in 0..field_count(header, records) {
        names.push(name_of(alloc, has_header, header, field)?)?;
    }
    Ok(names)
}

// How many fields a record has.
fn field_count<H: CellRow, R: CellRows>(header: H, records: R) -> usize
    ensures { result ≡ field_count (H.texts header) (R.rows records) }
{
    header.len().max(longest(records))
}

// What this field is called.
fn name_of<H: CellRow>(
    alloc: Global,
    has_header: bool,
    header: H,
    field: usize,
) -> Result<String, AllocError>
    ensures { IfOk result (λ name. string_bytes name ≡ name_of has_header (H.texts header) field) }
{
    if has_header {
        return header_name(alloc, header, field);
    }
    format!(in alloc; "{field}")
}

// The text of a cell of the header, and the empty text where there is none.
fn header_name<H: CellRow>(alloc: Global, header: H, field: usize) -> Result<String, AllocError>
    ensures { IfOk result (λ name. string_bytes name ≡ slice_index_or (H.texts header) field []) }
{
    match header.cell(field) {
        Some(cell) => String::from_str(alloc, cell.text()),
        None => Ok(String::new(alloc)),
    }
}

/// The lines of each name in so many columns. Fails only where allocation fails.
pub(crate) fn lines_of_names(
    alloc: Global,
    names: &[String],
    columns: usize,
) -> Result<Vec<Vec<String>>, AllocError>
    ensures { IfOk result (λ lines. text_rows lines.items ≡ map (name_lines columns) (map string_bytes names.now)) }
{
    let mut lines = Vec::with_capacity(alloc, names.len())?;
    for name in names {
        lines.push(name_lines(alloc, name, columns)?)?;
    }
    Ok(lines)
}

// The lines of a name.
fn name_lines(alloc: Global, name: &str, columns: usize) -> Result<Vec<String>, AllocError>
    ensures { IfOk result (λ lines. map string_bytes lines.items ≡ name_lines columns name.now) }
{
    let kept = fitted(alloc, name, true, columns)?;
    let mut lines = Vec::new(alloc);
    for line in lines_of(alloc, &kept)? {
        lines.push(filled_line(line, columns)?)?;
    }
    Ok(lines)
}

// A line and the spaces that it lacks of so many columns.
fn filled_line(line: String, columns: usize) -> Result<String, AllocError>
    ensures { IfOk result (λ filled. string_bytes filled ≡ filled_line columns (string_bytes line)) }
{
    let lacking = columns.saturating_sub(get_line_width(&line));
    let mut filled = line;
    push_spaces(&mut filled, lacking)?;
    Ok(filled)
}
