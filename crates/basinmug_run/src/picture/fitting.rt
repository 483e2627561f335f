//! Texts that are fitted to the widths that their columns get.
ghost use Rattle.std.specs.Prelude.{◌≡◌, ◌<◌, [], IfErr, IfOk, OnOk, length, option_map, slice_index, slice_index_or, slice_set, string_bytes, unwrap_or};
ghost use Rattle.grid_config_values.specs.declared.fault.Fault.TheVariants.{Memory};
ghost use Rattle.grid_records_traits.specs.Rows.{HasCell, row_at, text_at, with_text};
ghost use Rattle.tabled_text.specs.Rows.{filled};
ghost use Rattle.basinmug_cells.specs.Fields.{field_text};
ghost use Rattle.basinmug_cells.specs.Views.{row_texts};
ghost use Rattle.basinmug_run.specs.Picture.TableRows.{state_of};
ghost use Rattle.tabled_size.specs.Dimension.Stored.{none_stored};
ghost use Rattle.basinmug_run.specs.Picture.Fitting.{fitted_at, fitted_in, fitted_row, fitted_rows, fitted_text, with_fitted_texts};

use crate::picture::table_rows::TableRows;
use basinmug_cells::{CellRow, CellRows, Field, Row, Rows};
use basinmug_columns::fitting::{cut_lines, wrap_words};
use grid_config::Position;
use grid_records_traits::Cell;
use std::alloc::{AllocError, Global};
use std::mem;
use tabled::{Fault, TableOf};

/// How texts are fitted: those of a column that gets less width than it takes are cut line by line, or wrapped between
/// words.
#[derive(Clone, Copy)]
pub(crate) struct Fitting<'a> {
    /// What each column takes.
    pub widths: &'a [usize],
    /// What each column has, with its paddings.
    pub rooms: &'a [usize],
    /// Whether lines are cut.
    pub truncate: bool,
}

/// Fits each text of a table in its place. It keeps no sizes then. Fails only where allocation fails, and then the table
/// has no rows.
pub(crate) fn fit_texts(
    alloc: Global,
    table: &mut TableOf<TableRows<'_>>,
    fitting: &Fitting<'_>,
) -> Result<(), Fault>
    ensures fitted { OnOk result (state_of table.new
        ≡ with_fitted_texts fitting.now.truncate fitting.now.widths.now fitting.now.rooms.now (state_of table.old)) }
    ensures refused { IfErr result (λ fault. fault ≡ Memory) }
{
    let mut rows = take_rows(alloc, table);
    fit_rows(alloc, &mut rows, fitting)?;
    set_rows(table, rows);
    Ok(())
}

// The rows of a table, which has none then.
fn take_rows<'a>(alloc: Global, table: &mut TableOf<TableRows<'a>>) -> Rows<'a>
    ensures rows { filled result.rows ≡ (state_of table.old).rows }
    ensures others { state_of table.new ≡ record (state_of table.old) { rows = [] } }
{
    let none = TableRows::new(Rows::new(alloc, ""));
    mem::replace(table.get_records_mut(), none).into_rows()
}

// Gives a table these rows. It keeps no sizes then.
fn set_rows<'a>(table: &mut TableOf<TableRows<'a>>, rows: Rows<'a>)
    ensures { state_of table.new ≡ record (state_of table.old) { rows = filled rows.entry.rows; sizes = none_stored } }
{
    drop(mem::replace(table.get_records_mut(), TableRows::new(rows)));
    table.get_dimension_mut().clear();
}

// Fits the texts of rows.
fn fit_rows(alloc: Global, rows: &mut Rows<'_>, fitting: &Fitting<'_>) -> Result<(), AllocError>
    ensures { OnOk result (rows.new.rows ≡ fitted_rows fitting.now.truncate fitting.now.widths.now fitting.now.rooms.now rows.old.rows) }
{
    for row in 0..rows.len() {
        fit_row(alloc, rows, row, fitting)?;
    }
    Ok(())
}

// Fits the texts of a row.
fn fit_row(
    alloc: Global,
    rows: &mut Rows<'_>,
    row: usize,
    fitting: &Fitting<'_>,
) -> Result<(), AllocError>
    requires { row < length rows.old.rows }
    ensures { OnOk result (rows.new.rows ≡ slice_set rows.old.rows row (fitted_row fitting.now.truncate fitting.now.widths.now fitting.now.rooms.now 0 (row_at rows.old.rows row))) }
{
    let count = rows.view().row(row).len();
    for column in 0..count {
        fit_cell(alloc, rows, Position::new(row, column), fitting)?;
    }
    Ok(())
}

// Fits the text at a place.
fn fit_cell(
    alloc: Global,
    rows: &mut Rows<'_>,
    pos: Position,
    fitting: &Fitting<'_>,
) -> Result<(), AllocError>
    requires { HasCell rows.old.rows pos }
    ensures { OnOk result (rows.new.rows ≡ with_text rows.old.rows pos (fitted_at fitting.now.truncate fitting.now.widths.now fitting.now.rooms.now pos.col (text_at rows.old.rows pos))) }
{
    let room = size_at(fitting.rooms, pos.col);
    if size_at(fitting.widths, pos.col) <= room {
        return Ok(());
    }
    fit_in(alloc, rows, pos, room.saturating_sub(2), fitting.truncate)
}

// Fits the text at a place to so many columns.
fn fit_in(
    alloc: Global,
    rows: &mut Rows<'_>,
    pos: Position,
    room: usize,
    truncate: bool,
) -> Result<(), AllocError>
    requires { HasCell rows.old.rows pos }
    ensures { OnOk result (rows.new.rows ≡ with_text rows.old.rows pos (unwrap_or (fitted_in truncate room (text_at rows.old.rows pos)) (text_at rows.old.rows pos))) }
{
    let row = rows.view().row(pos.row);
    match fitted_in(alloc, row, pos.col, room, truncate)? {
        Some(text) => rows.set_text(pos, text),
        None => Ok(()),
    }
}

// What the text of a row's cell becomes in so many columns, if it is wider.
fn fitted_in(
    alloc: Global,
    row: Row<'_>,
    column: usize,
    room: usize,
    truncate: bool,
) -> Result<Option<String>, AllocError>
    ensures { IfOk result (λ text. option_map string_bytes text ≡ fitted_in truncate room (slice_index_or (row_texts row.entry) column [])) }
{
    match row.cell(column) {
        Some(cell) => fitted_if_wider(alloc, &cell, room, truncate),
        None => Ok(None),
    }
}

// What the text of a cell becomes in so many columns, if it is wider.
fn fitted_if_wider(
    alloc: Global,
    cell: &Field<'_>,
    room: usize,
    truncate: bool,
) -> Result<Option<String>, AllocError>
    ensures { IfOk result (λ text. option_map string_bytes text ≡ fitted_in truncate room (field_text cell.now)) }
{
    if cell.width() <= room {
        return Ok(None);
    }
    let mut text = fitted_text(alloc, cell.text(), room, truncate)?;
    text.shrink_to_fit();
    Ok(Some(text))
}

/// What is at an index of sizes, and past the end 0.
pub(crate) fn size_at(sizes: &[usize], index: usize) -> usize
    ensures { result ≡ slice_index sizes.now index }
{
    sizes.get(index).copied().unwrap_or(0)
}

// What a text that is wider than so many columns becomes.
fn fitted_text(alloc: Global, text: &str, room: usize, truncate: bool) -> Result<String, AllocError>
    ensures { IfOk result (λ out. string_bytes out ≡ fitted_text truncate room text.now) }
{
    if truncate {
        cut_lines(alloc, text, room)
    } else {
        wrap_words(alloc, text, room)
    }
}
