//! The cells of an entity, one by one.
ghost use Rattle.std.specs.Prelude.{◌≡◌};
ghost use Rattle.grid_config_values.specs.Rectangles.{numbers, rectangle};

use crate::position::Position;
use std::marker::Model;
use std::ops::Range;

/// The cells of an entity that are still to come, made by `Entity::iter`. After the last it gives
/// `None` forever. In a contract it is the list of their positions.
#[derive(Debug, Drop)]
pub struct EntityIterator {
    // where the next one is
    row: usize,
    col: usize,
    end_row: usize,
    first_col: usize,
    end_col: usize,
}

impl Model for EntityIterator {
    ghost use Rattle.std.specs.Prelude.{List};
    ghost use Rattle.grid_config_values.specs.declared.position.Position.{Position as CellPosition};

    ghost Value = { List CellPosition };

    ghost use Rattle.grid_config_values.specs.Rectangles.{IsNextInside, places_left};

    ghost view = { places_left };

    ghost invariant = { IsNextInside };
}

impl EntityIterator {
    // The cells of these rows and columns, by rows.
    pub(crate) fn new(rows: Range<usize>, cols: Range<usize>) -> EntityIterator
        ensures { result ≡ rectangle (numbers rows) (numbers cols) }
    {
        EntityIterator {
            row: rows.start,
            col: cols.start,
            // without columns there is no cell in any row
            end_row: if cols.start < cols.end {
                rows.end
            } else {
                rows.start
            },
            first_col: cols.start,
            end_col: cols.end,
        }
    }
}

impl Iterator for EntityIterator {
    type Item = Position;

    ghost use Rattle.std.specs.Iterator.{YieldsFirst, item_count};

    ghost next_gives = { YieldsFirst (λ places. places) };

    ghost remaining = { item_count (λ places. places) };

    fn next(&mut self) -> Option<Position> {
        if self.row >= self.end_row {
            return None;
        }
        let place = Position::new(self.row, self.col);
        if self.col + 1 < self.end_col {
            self.col += 1;
        } else {
            self.row += 1;
            self.col = self.first_col;
        }
        Some(place)
    }
}
