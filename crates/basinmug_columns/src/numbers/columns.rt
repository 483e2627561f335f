//! Which columns are of numbers.
ghost use Rattle.std.specs.Prelude.{◌≡◌, IfOk, map};
ghost use Rattle.std.specs.List.{range_with_len};
ghost use Rattle.basinmug_columns.specs.Numbers.Columns.{content, content_kind, is_numeric, kind_of_cell};

use crate::numbers::numbers::is_number;
use ansi_str::AnsiStr;
use basinmug_cells::{CellRow, CellRows};
use grid_records_traits::Cell;
use std::alloc::{AllocError, Global};

/// For each of so many columns whether it is of numbers in these records: each of its cells shows a number, or
/// nothing but white space, and one shows a number. A cell that a record lacks shows nothing. Fails only where
/// allocation fails.
pub fn numeric_columns<R: CellRows>(
    alloc: Global,
    records: R,
    columns: usize,
) -> Result<Vec<bool>, AllocError>
    ensures { IfOk result (λ numeric. numeric.items ≡ map (is_numeric (R.rows records)) (range_with_len 0 columns)) }
{
    let mut numeric = Vec::with_capacity(alloc, columns)?;
    for column in 0..columns {
        numeric.push(is_numeric(alloc, records, column)?)?;
    }
    Ok(numeric)
}

// Whether a column is of numbers. Its cells below the first that is neither blank nor a number are not read.
fn is_numeric<R: CellRows>(alloc: Global, records: R, column: usize) -> Result<bool, AllocError>
    ensures { IfOk result (λ answer. answer ≡ is_numeric (R.rows records) column) }
{
    let mut found = false;
    for place in 0..records.len() {
        match content_at(alloc, records.row(place), column)? {
            Content::Blank => {}
            Content::Number => found = true,
            Content::Text => return Ok(false),
        }
    }
    Ok(found)
}

// What a text shows.
#[derive(Clone, Copy)]
enum Content {
    Blank,
    Number,
    Text,
}

// What the cell of a record in a column shows; one that the record lacks shows nothing.
fn content_at<W: CellRow>(alloc: Global, row: W, column: usize) -> Result<Content, AllocError>
    ensures { IfOk result (λ kind. kind ≡ kind_of_cell column (W.texts row)) }
{
    match row.cell(column) {
        Some(cell) => content_of(alloc, cell.text()),
        None => Ok(Content::Blank),
    }
}

// What a text shows: a number shows itself.
fn content_of(alloc: Global, text: &str) -> Result<Content, AllocError>
    ensures { IfOk result (λ kind. kind ≡ content_kind (content text.now)) }
{
    if is_number(text.as_bytes()) {
        return Ok(Content::Number);
    }
    shown_content(alloc, text)
}

// The same of a text that may have sequences, or white space around what it shows.
#[inline(never)]
fn shown_content(alloc: Global, text: &str) -> Result<Content, AllocError>
    ensures { IfOk result (λ kind. kind ≡ content_kind (content text.now)) }
{
    let stripped = text.ansi_strip(alloc)?;
    let kind = kind_of(stripped.as_str().trim());
    Ok(kind)
}

// What a text is, which has no white space around it.
fn kind_of(text: &str) -> Content
    ensures { result ≡ content_kind text.now }
{
    if is_number(text.as_bytes()) {
        return Content::Number;
    }
    if text.is_empty() {
        Content::Blank
    } else {
        Content::Text
    }
}
