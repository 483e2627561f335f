//! Sets of cells.
ghost use Rattle.std.specs.Prelude.{◌≡◌};
ghost use Rattle.std.specs.List.{filter, range_with_len};
ghost use Rattle.grid_config_values.specs.Entities.{covered_positions, covers};
ghost use Rattle.grid_config_values.specs.Rectangles.{is_named, numbers};

use crate::entity_iterator::EntityIterator;
use crate::position::Position;
use std::ops::Range;

/// A set of cells. Rows and columns count from 0.
#[derive(Clone, Copy, Debug, PartialEq, Eq, PartialOrd, Ord)]
pub enum Entity {
    /// All cells.
    Global,
    /// The cells of one column.
    Column(usize),
    /// The cells of one row.
    Row(usize),
    /// The cell in this row and this column.
    Cell(usize, usize),
}

impl Entity {
    /// The cells of a table of `rows` rows and `cols` columns that are in the set, by rows and in a row by
    /// columns, each once. Does not allocate.
    pub fn iter(&self, rows: usize, cols: usize) -> EntityIterator
        ensures { result ≡ covered_positions self.now rows cols }
    {
        let (row, col) = match *self {
            Entity::Global => (None, None),
            Entity::Column(col) => (None, Some(col)),
            Entity::Row(row) => (Some(row), None),
            Entity::Cell(row, col) => (Some(row), Some(col)),
        };
        EntityIterator::new(named(row, rows), named(col, cols))
    }

    // Whether the cell at this place is one of them.
    pub(crate) fn covers(self, pos: Position) -> bool
        ensures { result ≡ covers self pos }
    {
        match self {
            Entity::Global => true,
            Entity::Column(col) => pos.col == col,
            Entity::Row(row) => pos.row == row,
            Entity::Cell(row, col) => pos.row == row && pos.col == col,
        }
    }
}

// Of `count` rows or columns the one that is named, or all where none is.
fn named(name: Option<usize>, count: usize) -> Range<usize>
    ensures { numbers result ≡ filter (is_named name) (range_with_len 0 count) }
{
    match name {
        None => 0..count,
        Some(index) if index < count => index..index + 1,
        Some(_) => 0..0,
    }
}
