//! Rows in vectors.
ghost use Rattle.std.specs.Prelude.{◌≡◌, ◌↔◌, [], IfOk, IsTrue, MatchOption, Some, false, vec_len};
ghost use Rattle.grid_records_traits.specs.Rows.{text_at};
ghost use Rattle.grid_records_traits.specs.Sources.{texts_of_rows};
ghost use Rattle.grid_records.specs.RecordRows.Sources.{AreEquallyLong, columns_of};

pub mod text;

use crate::rows::records::into_records::{GivenRows, IntoRecords};
use crate::rows::records::{
    ExactRecords, PeekableRecords, RecordColumns, RecordTexts, Records, RecordsMut,
};
use grid_config_values::Position;
use grid_records_measure::{count_lines, get_text_width};
pub use grid_records_traits::Cell;
use grid_records_traits::SingleLineCell;
pub use grid_records_traits::records::cell;
use std::alloc::{AllocError, Global};
use std::borrow::CowStr;
use std::{slice, vec};
pub use text::{FromText, Text};

/// Rows in vectors, all of the same length.
#[derive(Debug, Drop)]
pub struct VecRecords<T> {
    rows: Vec<Vec<T>>,
    ghost equally_long: { AreEquallyLong rows.items },
}

/// Whether all rows are of the same length. Does not allocate.
pub fn are_equally_long<T>(rows: &[Vec<T>]) -> bool
    ensures { IsTrue result ↔ AreEquallyLong rows.now }
{
    match rows {
        [] => true,
        [first, others @ ..] => others.iter().all(|row| row.len() == first.len()),
    }
}

impl<T: Cell> VecRecords<T> {
    /// These rows, provided that all are of the same length. Does not allocate.
    pub fn new(rows: Vec<Vec<T>>) -> VecRecords<T>
        requires { AreEquallyLong rows.items }
        ensures { ⟦<VecRecords<T> as RecordTexts>⟧.rows result ≡ texts_of_rows T.text rows.items }
    {
        VecRecords { rows }
    }

    /// The rows themselves, all of the same length. Does not allocate.
    pub fn into_rows(self) -> Vec<Vec<T>>
        ensures rows { texts_of_rows T.text result.items ≡ ⟦<VecRecords<T> as RecordTexts>⟧.rows self }
        ensures equally_long { AreEquallyLong result.items }
    {
        self.rows
    }

    // The cell at this place, where there is one.
    fn cell(&self, pos: Position) -> Option<&T>
        ensures { MatchOption result (text_at (⟦<VecRecords<T> as RecordTexts>⟧.rows self.now) pos ≡ []) (λ cell. text_at (⟦<VecRecords<T> as RecordTexts>⟧.rows self.now) pos ≡ T.text cell.now) }
    {
        self.rows.get(pos.row)?.get(pos.col)
    }
}

impl VecRecords<Text> {
    /// The same rows again. Fails only where allocation fails.
    pub fn clone(&self, alloc: Global) -> Result<VecRecords<Text>, AllocError>
        ensures { IfOk result (λ copy. ⟦<VecRecords<Text> as RecordTexts>⟧.rows copy ≡ ⟦<VecRecords<Text> as RecordTexts>⟧.rows self.now) }
    {
        let rows = rows_again(alloc, &self.rows)?;
        Ok(VecRecords::new(rows))
    }
}

// The same rows again.
fn rows_again(alloc: Global, rows: &[Vec<Text>]) -> Result<Vec<Vec<Text>>, AllocError>
    ensures { IfOk result (λ copy. texts_of_rows (λ text. text) copy.items ≡ texts_of_rows (λ text. text) rows.now) }
{
    let mut copy = Vec::new(alloc);
    for row in rows {
        copy.push(cells_again(alloc, row)?)?;
    }
    Ok(copy)
}

// The same cells again.
fn cells_again(alloc: Global, cells: &[Text]) -> Result<Vec<Text>, AllocError>
    ensures { IfOk result (λ copy. copy.items ≡ cells.now) }
{
    let mut copy = Vec::new(alloc);
    for cell in cells {
        copy.push(cell.clone(alloc)?)?;
    }
    Ok(copy)
}

impl<T: Cell> RecordTexts for VecRecords<T> {
    ghost rows = { λ records. texts_of_rows T.text records.rows.items };

    ghost can_fail = { λ _. false };
}

impl<T: Cell> RecordColumns for VecRecords<T> {
    ghost columns = { λ records. columns_of records.rows.items };

    fn count_columns(&self) -> usize {
        self.rows.first().map_or(0, |row| row.len())
    }
}

impl<T: Cell> ExactRecords for VecRecords<T> {
    fn count_rows(&self) -> usize {
        self.rows.len()
    }
}

/// Passes each request to the cell, so that what it keeps of its text is not found again.
impl<T: Cell> PeekableRecords for VecRecords<T> {
    fn get_text(&self, pos: Position) -> &str {
        match self.cell(pos) {
            Some(cell) => cell.text(),
            None => "",
        }
    }

    fn get_line(
        &self,
        alloc: Global,
        pos: Position,
        line: usize,
    ) -> Result<CowStr<'_>, AllocError> {
        match self.cell(pos) {
            Some(cell) => cell.line(alloc, line),
            None => "".line(alloc, line),
        }
    }

    fn count_lines(&self, pos: Position) -> usize {
        match self.cell(pos) {
            Some(cell) => cell.count_lines(),
            None => count_lines(""),
        }
    }

    fn get_width(&self, pos: Position) -> usize {
        match self.cell(pos) {
            Some(cell) => cell.width(),
            None => get_text_width(""),
        }
    }

    fn get_line_width(&self, pos: Position, line: usize) -> usize {
        match self.cell(pos) {
            Some(cell) => cell.line_width(line),
            None => "".line_width(line),
        }
    }

    fn single_line_cell(&self, pos: Position) -> Option<SingleLineCell<'_>> {
        self.cell(pos)?.single_line()
    }
}

impl<T: FromText> RecordsMut for VecRecords<T> {
    fn set(&mut self, pos: Position, text: Text) {
        let row = &mut self.rows[pos.row];
        row[pos.col] = T::from_text(text);
    }
}

impl<T: Cell> Records for VecRecords<T> {
    type Iter = Vec<Vec<T>>;

    ghost hint = { λ records. Some (vec_len records.rows) };

    fn iter_rows(self) -> GivenRows<vec::IntoIter<Vec<T>>> {
        self.rows.iter_rows()
    }

    fn hint_count_rows(&self) -> Option<usize> {
        Some(self.rows.len())
    }
}

impl<'a, T: Cell> Records for &'a VecRecords<T> {
    type Iter = &'a [Vec<T>];

    ghost hint = { λ records. ⟦<VecRecords<T> as Records>⟧.hint records.now };

    fn iter_rows(self) -> GivenRows<slice::Iter<'a, Vec<T>>> {
        self.rows.as_slice().iter_rows()
    }

    fn hint_count_rows(&self) -> Option<usize> {
        VecRecords::hint_count_rows(self)
    }
}
