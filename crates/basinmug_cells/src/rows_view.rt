//! Rows of cells as they are looked at.
ghost use Rattle.std.specs.Prelude.{◌≡◌, ◌≤◌, All, length};
ghost use Rattle.basinmug_cells.specs.Ends.{Ascend, start_at};
ghost use Rattle.basinmug_cells.specs.OwnTexts.{own_texts};
ghost use Rattle.basinmug_cells.specs.Places.{IsPlace};

use crate::cell_rows::{CellRows, all_between, part};
use crate::own_text::OwnText;
use crate::place::Place;
use crate::row::Row;
use std::rc::Rc;

/// Rows of cells as they are looked at: the places of all cells, where the first row begins and where each ends, and the
/// texts in which the places are.
#[derive(Clone, Copy)]
pub struct RowsView<'r> {
    pub(crate) text: &'r str,
    pub(crate) own: &'r [Rc<OwnText>],
    pub(crate) places: &'r [Place],
    pub(crate) start: usize,
    pub(crate) ends: &'r [usize],
    ghost are: { All (IsPlace text.now (own_texts own.now)) places.now },
    ghost ascending: { Ascend start ends.now (length places.now) },
}

impl<'r> RowsView<'r> {
    ghost use Rattle.std.specs.Prelude.{◌≡◌, [], slice_index_or};
    ghost use Rattle.basinmug_cells.specs.Ends.{rows_by};

    // The places of the row with this number; none after the last.
    #[inline(always)]
    fn row_places(self, row: usize) -> &'r [Place]
        ensures { result.now ≡ slice_index_or (rows_by self.entry.start self.entry.ends.now self.entry.places.now) row [] }
    {
        if row >= self.ends.len() {
            return part(self.places, 0, 0);
        }
        let start = start_of(self.start, self.ends, row);
        all_between(self.places, start, self.ends[row])
    }
}

/// Where a row begins, of those that end there, the first of which begins at `start`; after the last, where that one ends.
#[inline(always)]
pub(crate) fn start_of(start: usize, ends: &[usize], row: usize) -> usize
    requires { row ≤ length ends.now }
    ensures { result ≡ start_at start ends.now row }
{
    if row == 0 { start } else { ends[row - 1] }
}

impl<'r> CellRows for RowsView<'r> {
    ghost use Rattle.basinmug_cells.specs.Views.{view_rows};

    type Row = Row<'r>;

    ghost rows = { view_rows };

    #[inline(always)]
    fn len(self) -> usize {
        self.ends.len()
    }

    #[inline(always)]
    fn row(self, row: usize) -> Row<'r> {
        Row {
            text: self.text,
            own: self.own,
            places: self.row_places(row),
        }
    }

    #[inline(always)]
    fn between(self, start: usize, end: usize) -> RowsView<'r> {
        let first = start.min(end.min(self.ends.len()));
        RowsView {
            text: self.text,
            own: self.own,
            places: self.places,
            start: start_of(self.start, self.ends, first),
            ends: part(self.ends, start, end),
        }
    }
}
