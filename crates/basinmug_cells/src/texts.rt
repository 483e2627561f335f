//! Rows of cells from rows of texts, and back.
ghost use Rattle.std.specs.Prelude.{◌≡◌, ◌++◌, [], IfOk, OnOk, map, slice_index_or, string_bytes};
ghost use Rattle.tabled_text.specs.Rows.{text_rows};
ghost use Rattle.basinmug_cells.specs.Held.{held};

use crate::cell_rows::{CellRow, CellRows};
use crate::rows::Rows;
use grid_records_traits::Cell;
use std::alloc::{AllocError, Global};

/// Rows of cells with the texts of these rows, each of its own. Fails only where allocation fails.
pub fn rows_of_texts<'a>(alloc: Global, texts: Vec<Vec<String>>) -> Result<Rows<'a>, AllocError>
    ensures { IfOk result (λ rows. rows ≡ held [] (text_rows texts.items)) }
{
    let mut rows = Rows::new(alloc, "");
    for row in texts {
        push_texts(&mut rows, row)?;
        rows.end_row()?;
    }
    Ok(rows)
}

// Appends cells with these texts to the row that isn't ended.
fn push_texts(rows: &mut Rows<'_>, texts: Vec<String>) -> Result<(), AllocError>
    ensures { OnOk result (rows.new ≡ record rows.old { begun = rows.old.begun ++ map string_bytes texts.items }) }
{
    for text in texts {
        rows.push_text(text)?;
    }
    Ok(())
}

/// The texts of rows of cells, which are copied. Fails only where allocation fails.
pub fn texts_of<R: CellRows>(alloc: Global, rows: R) -> Result<Vec<Vec<String>>, AllocError>
    ensures { IfOk result (λ texts. text_rows texts.items ≡ R.rows rows) }
{
    let mut texts = Vec::with_capacity(alloc, rows.len())?;
    for row in 0..rows.len() {
        texts.push(texts_of_row(alloc, rows.row(row))?)?;
    }
    Ok(texts)
}

// The texts of a row of cells.
fn texts_of_row<R: CellRow>(alloc: Global, row: R) -> Result<Vec<String>, AllocError>
    ensures { IfOk result (λ texts. map string_bytes texts.items ≡ R.texts row) }
{
    let mut texts = Vec::with_capacity(alloc, row.len())?;
    for column in 0..row.len() {
        texts.push(text_in(alloc, row, column)?)?;
    }
    Ok(texts)
}

// The text of a row in this column, and an empty one where it has none.
fn text_in<R: CellRow>(alloc: Global, row: R, column: usize) -> Result<String, AllocError>
    ensures { IfOk result (λ text. string_bytes text ≡ slice_index_or (R.texts row) column []) }
{
    match row.cell(column) {
        Some(cell) => String::from_str(alloc, cell.text()),
        None => Ok(String::new(alloc)),
    }
}
