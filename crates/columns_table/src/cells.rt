//! Cells that borrow their texts from one text, and the columns that they take.
use crate::cell_row::CellRow;
use crate::ends::CellEnds;
use std::marker::Model;

/// A cell: its text, and the columns that the text takes.
#[derive(Clone, Copy)]
pub struct LineCell<'a> {
    pub text: &'a str,
    pub width: usize,
}

/// Cells that come one after the other in a text, separated by one byte each. In a contract it is the list of
/// them. What each takes is described at `CellEnds`.
#[derive(Drop)]
pub struct LineCells<'a> {
    text: &'a str,
    // Where each cell begins, and where one more would.
    starts: Vec<usize>,
    // The columns that the first of the cells take. A cell after the last of them takes as many as it has bytes.
    widths: Vec<usize>,
}

impl<'a> Model for LineCells<'a> {
    ghost use Rattle.std.specs.Prelude.{◌<◌, List, length};
    ghost use Rattle.grid_records_traits.specs.SingleLines.{AreStarts, texts_at};
    ghost use Rattle.columns_table.specs.declared.cells.LineCell.{LineCell};
    ghost use Rattle.columns_table.specs.Cells.{cells_of};

    ghost Value = { List LineCell };

    ghost view = { λ cells. cells_of cells.widths.items (texts_at cells.text.now cells.starts.items) };

    ghost invariant = { λ cells. (length cells.widths.items < length cells.starts.items) × AreStarts cells.text.now cells.starts.items };
}

impl<'a> LineCells<'a> {
    ghost use Rattle.std.specs.Prelude.{◌≡◌, ◌≤◌, length, slice_range};
    ghost use Rattle.columns_table.specs.CellRows.{row_cells};
    ghost use Rattle.columns_table.specs.Ends.{AreCellEnds, cells_in};

    /// The cells of the text that end there. Does not allocate.
    pub fn of(text: &'a str, ends: CellEnds) -> LineCells<'a>
        requires { AreCellEnds text.now ends }
        ensures { result ≡ cells_in text.now ends }
    {
        LineCells {
            text,
            starts: ends.starts,
            widths: ends.widths,
        }
    }

    /// How many cells there are.
    pub fn len(&self) -> usize
        ensures { result ≡ length self.now }
    {
        self.starts.len() - 1
    }

    /// All cells.
    pub(crate) fn all(&self) -> CellRow<'_, 'a>
        ensures { row_cells result ≡ self.now }
    {
        self.range(0, self.len())
    }

    /// The cells from `start` on before `end`, as far as there are any.
    #[inline(always)]
    pub(crate) fn range(&self, start: usize, end: usize) -> CellRow<'_, 'a>
        ensures { row_cells result ≡ slice_range self.now start end }
    {
        CellRow::new(self.text, &self.starts, &self.widths, start, end)
    }

    /// The cells from `start` on before `end`, which are all there.
    #[inline(always)]
    pub(crate) fn between(&self, start: usize, end: usize) -> CellRow<'_, 'a>
        requires ascending { start ≤ end }
        requires there { end ≤ length self.now }
        ensures { row_cells result ≡ slice_range self.now start end }
    {
        CellRow::between(self.text, &self.starts, &self.widths, start, end)
    }
}
