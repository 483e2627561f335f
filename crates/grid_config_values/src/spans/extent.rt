//! How many rows and columns a cell takes.
ghost use Rattle.std.specs.Prelude.{◌≡◌};
ghost use Rattle.grid_config_values.specs.Spans.Search.{holds, is_inside, overlaps};
ghost use Rattle.grid_config_values.specs.Spans.Spans.{IsInTable};

use crate::Position;

/// How many rows and columns a cell takes, itself included.
#[derive(Clone, Copy, Debug, PartialEq, Eq)]
pub struct Extent {
    /// How many rows.
    pub rows: usize,
    /// How many columns.
    pub columns: usize,
}

impl Extent {
    /// One row and one column.
    pub(crate) const SINGLE: Extent = Extent {
        rows: 1,
        columns: 1,
    };

    // Whether the rectangle of this extent that begins at the anchor holds the place.
    pub(crate) fn holds(self, anchor: Position, place: Position) -> bool
        ensures { result ≡ holds anchor self place }
    {
        anchor.row <= place.row
            && place.row - anchor.row < self.rows
            && anchor.col <= place.col
            && place.col - anchor.col < self.columns
    }

    // Whether the rectangle, which begins in a table of `rows` rows and `columns` columns, ends in it.
    pub(crate) fn is_inside(self, anchor: Position, rows: usize, columns: usize) -> bool
        requires { IsInTable rows columns anchor }
        ensures { result ≡ is_inside anchor self rows columns }
    {
        self.rows <= rows - anchor.row && self.columns <= columns - anchor.col
    }

    // Whether two rectangles share a place.
    pub(crate) fn overlaps(self, anchor: Position, other: Position, extent: Extent) -> bool
        ensures { result ≡ overlaps anchor self other extent }
    {
        // the first place that may be in both
        let corner = Position::new(anchor.row.max(other.row), anchor.col.max(other.col));
        self.holds(anchor, corner) && extent.holds(other, corner)
    }
}
