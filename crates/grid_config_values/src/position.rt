//! The place of a cell.
ghost use Rattle.std.specs.Prelude.{◌≡◌, ◌<◌, ◌↔◌, IsTrue};

/// The place of a cell in a table. Rows and columns count from 0.
#[derive(Clone, Copy, Debug, PartialEq, Eq, PartialOrd, Ord, Hash)]
pub struct Position {
    /// The row.
    pub row: usize,
    /// The column.
    pub col: usize,
}

impl Position {
    /// The place in this row and this column.
    pub const fn new(row: usize, col: usize) -> Position
        ensures { result ≡ record { row = row; col = col } }
    {
        Position { row, col }
    }

    /// Whether the other place is above this one and to its left: its row and its column are both smaller.
    pub fn has_coverage(self, p: Position) -> bool
        ensures { IsTrue result ↔ ((p.row < self.row) × (p.col < self.col)) }
    {
        p.row < self.row && p.col < self.col
    }
}
