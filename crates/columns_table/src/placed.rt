//! The cells of a text looked up by their places.
ghost use Rattle.std.specs.Prelude.{◌≡◌, ◌^◌, ◌<◌, [], All, false, length, slice_index_or, sum};
ghost use Rattle.grid_records_traits.specs.Rows.{text_at};
ghost use Rattle.columns_table.specs.CellRows.{row_cells};
ghost use Rattle.columns_table.specs.Records.{Ascend, IsSingleLineCell, placed_texts, sliced_at, starts_from};

use crate::cell_row::{CellRow, number_at};
use crate::cells::{LineCell, LineCells};
use crate::rows::Rows;
use grid_config::Position;
use grid_records_traits::{
    ExactRecords, PeekableRecords, RecordColumns, RecordTexts, SingleLineRow,
};
use std::alloc::{AllocError, Global};
use std::borrow::CowStr;

/// Rows of measured cells: all cells, one row after the other, and where the rows begin.
#[derive(Drop)]
pub struct PlacedRows<'a> {
    cells: LineCells<'a>,
    starts: Vec<usize>,
    // How many cells there are.
    end: usize,
    columns: usize,
    ghost whole: { end ≡ length cells },
    ghost ascending: { Ascend starts.items end },
    ghost measured: { All IsSingleLineCell cells },
}

impl<'a> PlacedRows<'a> {
    /// These rows, of `columns` columns. Does not allocate.
    pub fn new(rows: Rows<'a>, columns: usize) -> PlacedRows<'a>
        requires measured { All IsSingleLineCell rows.cells }
        ensures columns { ⟦<PlacedRows<'a> as RecordColumns>⟧.columns result ≡ columns }
        ensures rows { ⟦<PlacedRows<'a> as RecordTexts>⟧.rows result ≡ placed_texts (starts_from 0 rows.entry.counts.items) rows.entry.cells }
    {
        let end = rows.cells.len();
        PlacedRows {
            cells: rows.cells,
            starts: starts_of(rows.counts),
            end,
            columns,
        }
    }

    // The cells of this row, and none where there is no such row.
    #[inline(always)]
    fn row(&self, row: usize) -> CellRow<'_, 'a>
        ensures { row_cells result ≡ slice_index_or (sliced_at self.now.starts.items self.now.cells) row [] }
    {
        if row >= self.starts.len() {
            return self.cells.range(0, 0);
        }
        let end = number_at(&self.starts, row + 1, self.end);
        self.cells.between(self.starts[row], end)
    }

    // The cell at this place, and an empty one where its row has none. The hints on it and on what calls it
    // let look-ups of one cell be merged.
    #[inline(always)]
    fn cell(&self, pos: Position) -> LineCell<'a>
        ensures text { result.text.now ≡ text_at (placed_texts self.now.starts.items self.now.cells) pos }
        ensures measured { IsSingleLineCell result }
    {
        match self.row(pos.row).get(pos.col) {
            Some(cell) => cell,
            None => LineCell { text: "", width: 0 },
        }
    }
}

/// Where rows with these counts of cells begin, put in place of the counts.
pub(crate) fn starts_of(mut counts: Vec<usize>) -> Vec<usize>
    requires { sum counts.items < 2 ^ 64 }
    ensures { result.items ≡ starts_from 0 counts.items }
{
    let mut start = 0;
    for i in 0..counts.len() {
        let count = counts[i];
        counts[i] = start;
        start += count;
    }
    counts
}

impl<'a> RecordTexts for PlacedRows<'a> {
    ghost rows = { λ rows. placed_texts rows.starts.items rows.cells };

    ghost can_fail = { λ _. false };
}

impl<'a> RecordColumns for PlacedRows<'a> {
    ghost columns = { λ rows. rows.columns };

    fn count_columns(&self) -> usize {
        self.columns
    }
}

impl<'a> ExactRecords for PlacedRows<'a> {
    fn count_rows(&self) -> usize {
        self.starts.len()
    }
}

/// A cell is one line, with the bytes that it has in the text.
impl<'a> PeekableRecords for PlacedRows<'a> {
    #[inline(always)]
    fn get_text(&self, pos: Position) -> &str {
        self.cell(pos).text
    }

    #[inline(always)]
    fn get_line(
        &self,
        _alloc: Global,
        pos: Position,
        line: usize,
    ) -> Result<CowStr<'_>, AllocError> {
        if line > 0 {
            return Ok(CowStr::Borrowed(""));
        }
        Ok(CowStr::Borrowed(self.get_text(pos)))
    }

    #[inline(always)]
    fn count_lines(&self, _pos: Position) -> usize {
        1
    }

    #[inline(always)]
    fn get_width(&self, pos: Position) -> usize {
        self.cell(pos).width
    }

    #[inline(always)]
    fn single_line_row(&self, row: usize) -> Option<SingleLineRow<'_>> {
        let cells = self.row(row);
        Some(SingleLineRow::new(cells.text, cells.starts, cells.widths))
    }
}
