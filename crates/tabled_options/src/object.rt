//! Selections of cells.
ghost use Rattle.std.specs.Prelude.{◌≡◌};
ghost use Rattle.grid_config_values.specs.declared.entity.Entity.TheVariants.{Cell as OneCell, Column, Global as EveryCell, Row};

use grid_config::Entity;

/// Selections of a whole table.
#[derive(Clone, Copy, Debug)]
pub struct Segment;

impl Segment {
    /// All cells.
    pub fn all() -> Entity
        ensures { result ≡ EveryCell }
    {
        Entity::Global
    }
}

/// Selections of rows.
#[derive(Clone, Copy, Debug)]
pub struct Rows;

impl Rows {
    /// The cells of one row, counted from 0.
    pub fn one(row: usize) -> Entity
        ensures { result ≡ Row row }
    {
        Entity::Row(row)
    }

    /// The cells of the first row.
    pub fn first() -> Entity
        ensures { result ≡ Row 0 }
    {
        Rows::one(0)
    }
}

/// Selections of columns.
#[derive(Clone, Copy, Debug)]
pub struct Columns;

impl Columns {
    /// The cells of one column, counted from 0.
    pub fn one(column: usize) -> Entity
        ensures { result ≡ Column column }
    {
        Entity::Column(column)
    }

    /// The cells of the first column.
    pub fn first() -> Entity
        ensures { result ≡ Column 0 }
    {
        Columns::one(0)
    }
}

/// Selections of one cell.
#[derive(Clone, Copy, Debug)]
pub struct Cell;

impl Cell {
    /// The cell in this row and this column, both counted from 0.
    pub fn new(row: usize, column: usize) -> Entity
        ensures { result ≡ OneCell row column }
    {
        Entity::Cell(row, column)
    }
}
