//! Rows of a text in narrower columns.
ghost use Rattle.std.specs.Prelude.{◌≡◌, ◌++◌, [], All, IfOk, OnOk, false, length, map, slice_index_or, sum};
ghost use Rattle.std.specs.Cow.{cow_str_bytes};
ghost use Rattle.grid_records_traits.specs.Rows.{text_at};
ghost use Rattle.columns_asked.specs.Resizing.{resized_text};
ghost use Rattle.columns_table.specs.CellRows.{row_cells};
ghost use Rattle.columns_table.specs.Resized.{resized_row, resize_to};
ghost use Rattle.columns_table.specs.ResizedTexts.{cells_texts, rows_texts};
ghost use Rattle.columns_table.specs.Records.{IsSingleLineCell, sliced_at};
ghost use Rattle.columns_table.specs.Rows.{cell_texts, row_texts_of, split_by_lengths};

use crate::cell_row::{CellRow, number_at, part};
use crate::cells::LineCell;
use crate::placed::starts_of;
use crate::resized_cell::ResizedCell;
use crate::rows::Rows;
use columns_asked::{MeasuredText, WidthLimit, resized_line};
use grid_config::Position;
use grid_records_traits::{
    Cell, ExactRecords, PeekableRecords, RecordColumns, RecordTexts, SingleLineCell,
};
use std::alloc::{AllocError, Global};
use std::borrow::CowStr;

/// Rows of resized cells, as long as they are: all cells, one row after the other, and where the rows begin.
#[derive(Drop)]
pub struct ResizedRows<'a> {
    cells: Vec<ResizedCell<'a>>,
    starts: Vec<usize>,
    columns: usize,
    // The empty cell in place of each cell that a row lacks.
    lacking: ResizedCell<'a>,
    ghost empty: { cow_str_bytes lacking.text ≡ [] },
}

impl<'a> ResizedRows<'a> {
    /// The rows in columns of these widths, where `beside` columns are beside a text: each text resized to the
    /// width that is left for it. What a row lacks is not kept. Fails only where allocation fails.
    pub fn new(
        alloc: Global,
        asked: &WidthLimit,
        rows: Rows<'a>,
        widths: &[usize],
        beside: usize,
    ) -> Result<ResizedRows<'a>, AllocError>
        requires measured { All IsSingleLineCell rows.cells }
        ensures rows { IfOk result (λ kept. ⟦<ResizedRows<'a> as RecordTexts>⟧.rows kept ≡ map (resized_row asked.now beside widths.now) (row_texts_of rows.entry)) }
        ensures columns { IfOk result (λ kept. ⟦<ResizedRows<'a> as RecordColumns>⟧.columns kept ≡ length widths.now) }
    {
        let cells = resize_rows(alloc, asked, &rows, widths, beside)?;
        Ok(ResizedRows {
            cells,
            starts: starts_of(rows.counts),
            columns: widths.len(),
            lacking: ResizedCell::new(MeasuredText::new(CowStr::Borrowed(""))),
        })
    }

    // The cells of this row, and none where there is no such row.
    #[inline(always)]
    fn row(&self, row: usize) -> &[ResizedCell<'a>]
        ensures { result.now ≡ slice_index_or (sliced_at self.now.starts.items self.now.cells.items) row [] }
    {
        let cells = self.cells.as_slice();
        if row >= self.starts.len() {
            return part(cells, 0, 0);
        }
        let start = self.starts[row];
        let end = number_at(&self.starts, row + 1, cells.len());
        part(cells, start, end)
    }

    // The cell at this place, and an empty one where its row has none.
    #[inline(always)]
    fn cell(&self, pos: Position) -> &ResizedCell<'a>
        ensures { cow_str_bytes result.now.text ≡ text_at (rows_texts self.now.starts.items self.now.cells.items) pos }
    {
        let cell = self.row(pos.row).get(pos.col);
        cell.unwrap_or(&self.lacking)
    }
}

impl<'a> RecordTexts for ResizedRows<'a> {
    ghost rows = { λ rows. rows_texts rows.starts.items rows.cells.items };

    ghost can_fail = { λ _. false };
}

impl<'a> RecordColumns for ResizedRows<'a> {
    ghost columns = { λ rows. rows.columns };

    fn count_columns(&self) -> usize {
        self.columns
    }
}

impl<'a> ExactRecords for ResizedRows<'a> {
    fn count_rows(&self) -> usize {
        self.starts.len()
    }
}

/// What a cell keeps of its text is used, and not computed again.
impl<'a> PeekableRecords for ResizedRows<'a> {
    fn get_text(&self, pos: Position) -> &str {
        self.cell(pos).text()
    }

    fn get_line(
        &self,
        alloc: Global,
        pos: Position,
        line: usize,
    ) -> Result<CowStr<'_>, AllocError> {
        self.cell(pos).line(alloc, line)
    }

    fn count_lines(&self, pos: Position) -> usize {
        self.cell(pos).count_lines()
    }

    fn get_width(&self, pos: Position) -> usize {
        self.cell(pos).width()
    }

    fn get_line_width(&self, pos: Position, line: usize) -> usize {
        self.cell(pos).line_width(line)
    }

    fn single_line_cell(&self, pos: Position) -> Option<SingleLineCell<'_>> {
        self.cell(pos).single_line()
    }
}

// The cells of all rows, one row after the other.
fn resize_rows<'a>(
    alloc: Global,
    asked: &WidthLimit,
    rows: &Rows<'a>,
    widths: &[usize],
    beside: usize,
) -> Result<Vec<ResizedCell<'a>>, AllocError>
    requires measured { All IsSingleLineCell rows.now.cells }
    ensures texts { IfOk result (λ kept. split_by_lengths rows.now.counts.items (cells_texts kept.items) ≡ map (resized_row asked.now beside widths.now) (row_texts_of rows.now)) }
    ensures whole { IfOk result (λ kept. sum rows.now.counts.items ≡ length kept.items) }
{
    let mut kept = Vec::with_capacity(alloc, rows.cells.len())?;
    let mut rest = rows.cells.all();
    for count in &rows.counts {
        let (row, behind) = rest.split(*count);
        push_row(alloc, asked, row, widths, beside, &mut kept)?;
        rest = behind;
    }
    Ok(kept)
}

// Appends the cells of a row.
fn push_row<'a>(
    alloc: Global,
    asked: &WidthLimit,
    row: CellRow<'_, 'a>,
    widths: &[usize],
    beside: usize,
    kept: &mut Vec<ResizedCell<'a>>,
) -> Result<(), AllocError>
    requires { All IsSingleLineCell (row_cells row) }
    ensures { OnOk result (cells_texts kept.new.items ≡ cells_texts kept.old.items ++ resized_row asked.now beside widths.now (cell_texts (row_cells row.entry))) }
{
    for column in 0..row.len() {
        let width = number_at(widths, column, 0);
        let room = width.saturating_sub(beside);
        kept.push(resize_cell(alloc, asked, row.cell(column), room)?)?;
    }
    Ok(())
}

// The cell resized to its width. One that stays as it is keeps what it measures.
fn resize_cell<'a>(
    alloc: Global,
    asked: &WidthLimit,
    cell: LineCell<'a>,
    room: usize,
) -> Result<ResizedCell<'a>, AllocError>
    requires { IsSingleLineCell cell }
    ensures { IfOk result (λ kept. cow_str_bytes kept.text ≡ resized_text (resize_to asked.now room) cell.entry.text.now) }
{
    match resized_line(alloc, asked, cell.text, cell.width, room)? {
        Some(text) => Ok(ResizedCell::new(text)),
        None => Ok(ResizedCell::of_line(cell.text, cell.width)),
    }
}
