//! Rows of cells as a table has them, each as long as the longest.
ghost use Rattle.std.specs.Prelude.{◌≡◌, Some, false, length};
ghost use Rattle.grid_records_traits.specs.Rows.{text_at};
ghost use Rattle.tabled_text.specs.Rows.{filled, longest};
ghost use Rattle.basinmug_cells.specs.Fields.{field_text};

use crate::cell_rows::{CellRows, longest};
use crate::even_left::{EvenRowsLeft, EvenSource};
use crate::field::Field;
use crate::rows::Rows;
use grid_config_values::Position;
use grid_records_traits::{
    Cell, ExactRecords, PeekableRecords, RecordColumns, RecordTexts, Records, SingleLineCell,
};
use std::alloc::{AllocError, Global};
use std::borrow::CowStr;

/// Rows of cells as a table has them: each as long as the longest, with an empty text where a row has no cell. None is filled.
#[derive(Drop)]
pub struct EvenRows<'a> {
    rows: Rows<'a>,
    columns: usize,
    ghost longest: { columns ≡ longest rows.rows },
}

impl<'a> EvenRows<'a> {
    /// The rows that are ended, as a table has them. Does not allocate.
    pub fn new(rows: Rows<'a>) -> EvenRows<'a>
        ensures rows { ⟦<EvenRows<'a> as RecordTexts>⟧.rows result ≡ filled rows.entry.rows }
        ensures columns { ⟦<EvenRows<'a> as RecordColumns>⟧.columns result ≡ longest rows.entry.rows }
    {
        let columns = longest(rows.view());
        EvenRows { rows, columns }
    }

    /// The rows themselves, of any lengths. Does not allocate.
    pub fn into_rows(self) -> Rows<'a>
        ensures { filled result.rows ≡ ⟦<EvenRows<'a> as RecordTexts>⟧.rows self.entry }
    {
        self.rows
    }

    // The cell at this place, and an empty one where there is none.
    #[inline(always)]
    fn cell(&self, pos: Position) -> Field<'_>
        ensures { field_text result ≡ text_at (⟦<EvenRows<'a> as RecordTexts>⟧.rows self.now) pos }
    {
        self.rows.view().row(pos.row).cell_or_empty(pos.col)
    }
}

impl<'a> RecordTexts for EvenRows<'a> {
    ghost rows = { λ even. filled even.rows.rows };

    ghost can_fail = { λ _. false };
}

impl<'a> RecordColumns for EvenRows<'a> {
    ghost columns = { λ even. even.columns };

    #[inline(always)]
    fn count_columns(&self) -> usize {
        self.columns
    }
}

impl<'a> ExactRecords for EvenRows<'a> {
    #[inline(always)]
    fn count_rows(&self) -> usize {
        self.rows.len()
    }
}

/// Passes each request to the cell, so that what is known of its text is not found again.
impl<'a> PeekableRecords for EvenRows<'a> {
    #[inline(always)]
    fn get_text(&self, pos: Position) -> &str {
        match self.cell(pos) {
            Field::Part(part) => part.text,
            Field::Own(own) => own.text(),
        }
    }

    fn get_line(
        &self,
        alloc: Global,
        pos: Position,
        line: usize,
    ) -> Result<CowStr<'_>, AllocError> {
        match self.cell(pos) {
            Field::Part(part) => Ok(CowStr::Borrowed(part.line(line))),
            Field::Own(own) => own.line(alloc, line),
        }
    }

    #[inline(always)]
    fn count_lines(&self, pos: Position) -> usize {
        self.cell(pos).count_lines()
    }

    #[inline(always)]
    fn get_width(&self, pos: Position) -> usize {
        self.cell(pos).width()
    }

    fn get_line_width(&self, pos: Position, line: usize) -> usize {
        self.cell(pos).line_width(line)
    }

    #[inline(always)]
    fn single_line_cell(&self, pos: Position) -> Option<SingleLineCell<'_>> {
        match self.cell(pos) {
            Field::Part(part) => Some(SingleLineCell {
                text: part.text,
                width: part.width,
            }),
            Field::Own(own) => own.single_line(),
        }
    }
}

impl<'r, 'a> Records for &'r EvenRows<'a> {
    type Iter = EvenSource<'r>;

    ghost hint = { λ even. Some (length even.now.rows.rows) };

    #[inline(always)]
    fn iter_rows(self) -> EvenRowsLeft<'r> {
        EvenRowsLeft::new(self.rows.view(), self.columns)
    }

    fn hint_count_rows(&self) -> Option<usize> {
        Some(self.rows.len())
    }
}
