//! Tables of rows of cells.
ghost use Rattle.std.specs.Prelude.{◌≡◌, IfErr, IfOk, IsOk, map};
ghost use Rattle.grid_config_values.specs.declared.fault.Fault.TheVariants.{Memory};
ghost use Rattle.grid_records.specs.RecordRows.Sources.{AreEquallyLong};
ghost use Rattle.grid_records_traits.specs.Sources.{texts_of_rows};
ghost use Rattle.tabled.specs.Tables.{new_state, state_of};
ghost use Rattle.tabled_text.specs.Rows.{filled, filled_row};

use crate::table::Table;
use grid_config::Fault;
use grid_records::{FromText, Text, are_equally_long};
use std::alloc::{AllocError, Global};
use tabled_text::longest_row;

impl<T: FromText> Table<T> {
    /// The table of these rows of cells, the short ones filled with cells of empty texts. Rows that are equally long
    /// take no further memory. Fails only where allocation fails.
    pub fn from_cells(alloc: Global, rows: Vec<Vec<T>>) -> Result<Table<T>, Fault>
        ensures table { IfOk result (λ table. state_of T.text table ≡ new_state (filled (texts_of_rows T.text rows.items))) }
        ensures refused { IfErr result (λ fault. fault ≡ Memory) }
        ensures equally_long { AreEquallyLong rows.items → IsOk result }
    {
        if are_equally_long(&rows) {
            return Ok(Table::of_cells(alloc, rows));
        }
        let cells = filled_rows(alloc, rows)?;
        Ok(Table::of_cells(alloc, cells))
    }
}

// The rows, each with as many cells as the longest.
#[tactic(auto, using(crate::proofs::Even::longest_texts))]
fn filled_rows<T: FromText>(alloc: Global, rows: Vec<Vec<T>>) -> Result<Vec<Vec<T>>, AllocError>
    ensures { IfOk result (λ cells. texts_of_rows T.text cells.items ≡ filled (texts_of_rows T.text rows.items)) }
{
    let columns = longest_row(&rows);
    let mut cells = Vec::with_capacity(alloc, rows.len())?;
    for row in rows {
        cells.push(filled_row(alloc, row, columns)?)?;
    }
    Ok(cells)
}

// The row, and after it a cell of an empty text for each that it lacks of `columns` cells.
fn filled_row<T: FromText>(alloc: Global, row: Vec<T>, columns: usize) -> Result<Vec<T>, AllocError>
    ensures { IfOk result (λ cells. map T.text cells.items ≡ filled_row columns (map T.text row.items)) }
{
    let mut cells = row;
    for _ in 0..columns.saturating_sub(cells.len()) {
        let empty = Text::new(alloc, String::new(alloc))?;
        cells.push(T::from_text(empty))?;
    }
    Ok(cells)
}
