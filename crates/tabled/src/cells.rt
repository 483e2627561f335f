//! Cells made of texts.
ghost use Rattle.std.specs.Prelude.{◌≡◌, IfOk, map, string_bytes};
ghost use Rattle.grid_records_traits.specs.Sources.{texts_of_rows};
ghost use Rattle.tabled_text.specs.Rows.{text_rows};

use grid_records::Text;
use std::alloc::{AllocError, Global};

/// Cells with the texts of these rows. Fails only where allocation fails.
pub(crate) fn cells_of(alloc: Global, rows: Vec<Vec<String>>) -> Result<Vec<Vec<Text>>, AllocError>
    ensures { IfOk result (λ cells. texts_of_rows (λ text. text) cells.items ≡ text_rows rows.items) }
{
    let mut cells = Vec::with_capacity(alloc, rows.len())?;
    for row in rows {
        cells.push(row_of(alloc, row)?)?;
    }
    Ok(cells)
}

// Cells with these texts.
fn row_of(alloc: Global, texts: Vec<String>) -> Result<Vec<Text>, AllocError>
    ensures { IfOk result (λ cells. map (λ text. text) cells.items ≡ map string_bytes texts.items) }
{
    let mut cells = Vec::with_capacity(alloc, texts.len())?;
    for text in texts {
        cells.push(Text::new(alloc, text)?)?;
    }
    Ok(cells)
}

/// The texts of these cells. Fails only where allocation fails.
pub(crate) fn texts_of(alloc: Global, cells: Vec<Vec<Text>>) -> Result<Vec<Vec<String>>, AllocError>
    ensures { IfOk result (λ rows. text_rows rows.items ≡ texts_of_rows (λ text. text) cells.items) }
{
    let mut rows = Vec::with_capacity(alloc, cells.len())?;
    for row in cells {
        rows.push(texts_of_row(alloc, row)?)?;
    }
    Ok(rows)
}

// The texts of these cells.
fn texts_of_row(alloc: Global, cells: Vec<Text>) -> Result<Vec<String>, AllocError>
    ensures { IfOk result (λ texts. map string_bytes texts.items ≡ map (λ text. text) cells.items) }
{
    let mut texts = Vec::with_capacity(alloc, cells.len())?;
    for cell in cells {
        texts.push(cell.into_string())?;
    }
    Ok(texts)
}
