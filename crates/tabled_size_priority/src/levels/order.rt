//! Orders of columns.
ghost use Rattle.std.specs.Prelude.{◌≡◌, ◌<◌};
ghost use Rattle.tabled_size_priority.specs.LevelRules.Moving.{BeginsWithin, place_of};

/// The order in which columns are taken.
#[derive(Clone, Copy)]
pub enum Order {
    /// From the right where it holds, else from the left.
    FromSide(bool),
    /// Round from a column, and on from the first.
    FromColumn(usize),
}

impl Order {
    // The column, of `count` columns, at a place.
    pub(crate) fn column_at(self, count: usize, place: usize) -> usize
        requires inside { place < count }
        requires begins { BeginsWithin self count }
        ensures inside { result < count }
        ensures at { place_of self count result ≡ place }
    {
        match self {
            Order::FromSide(true) => count - 1 - place,
            Order::FromSide(false) => place,
            Order::FromColumn(start) if place < count - start => start + place,
            Order::FromColumn(start) => place - (count - start),
        }
    }
}
