//! A row of cells as it is looked at.
ghost use Rattle.std.specs.Prelude.{◌≡◌, All};
ghost use Rattle.basinmug_cells.specs.OwnTexts.{own_texts};
ghost use Rattle.basinmug_cells.specs.Places.{IsPlace};

use crate::cell_rows::CellRow;
use crate::field::Field;
use crate::own_text::OwnText;
use crate::place::Place;
use crate::single_line::SingleLine;
use std::rc::Rc;

/// A row of cells as it is looked at: the places of its cells, and the texts in which these are.
#[derive(Clone, Copy)]
pub struct Row<'r> {
    pub(crate) text: &'r str,
    pub(crate) own: &'r [Rc<OwnText>],
    pub(crate) places: &'r [Place],
    ghost are: { All (IsPlace text.now (own_texts own.now)) places.now },
}

impl<'r> CellRow for Row<'r> {
    ghost use Rattle.basinmug_cells.specs.Views.{row_texts};

    type Cell = Field<'r>;

    ghost texts = { row_texts };

    #[inline(always)]
    fn len(self) -> usize {
        self.places.len()
    }

    #[inline(always)]
    fn cell(self, column: usize) -> Option<Field<'r>> {
        match self.places.get(column) {
            Some(place) => Some(place.field(self.text, self.own)),
            None => None,
        }
    }
}

impl<'r> Row<'r> {
    ghost use Rattle.std.specs.Prelude.{◌≡◌, [], slice_index_or};
    ghost use Rattle.basinmug_cells.specs.Fields.{field_text};
    ghost use Rattle.basinmug_cells.specs.Views.{row_texts};

    /// The cell in this column, and an empty one where there is none.
    #[inline(always)]
    pub(crate) fn cell_or_empty(self, column: usize) -> Field<'r>
        ensures { field_text result ≡ slice_index_or (row_texts self.entry) column [] }
    {
        match self.cell(column) {
            Some(cell) => cell,
            None => Field::Part(SingleLine::empty()),
        }
    }
}
