//! Rows of cells as they are looked at.
ghost use Rattle.std.specs.Prelude.{◌≡◌, ◌≤◌, ℕ, List, length, map, slice_get, slice_range};
ghost use Rattle.std.specs.Option.{option_map};
ghost use Rattle.grid_records_traits.specs.Rows.{row_at};
ghost use Rattle.grid_records_traits.specs.Sources.{texts_of_rows};
ghost use Rattle.tabled_text.specs.Rows.{longest};

use grid_records_traits::Cell;

/// A row of cells that is looked at.
pub trait CellRow: Copy {
    type Cell: Cell;

    ghost texts: { Self → List (List ℕ) };

    /// How many cells it has. Does not allocate.
    fn len(self) -> usize
        ensures { result ≡ length (texts self) };

    /// The cell in this column, if there is one. Does not allocate.
    fn cell(self, column: usize) -> Option<Self::Cell>
        ensures { option_map Self.Cell.text result ≡ slice_get (texts self) column };
}

/// Rows of cells that are looked at, of any lengths.
pub trait CellRows: Copy {
    type Row: CellRow;

    ghost rows: { Self → List (List (List ℕ)) };

    /// How many rows there are. Does not allocate.
    fn len(self) -> usize
        ensures { result ≡ length (rows self) };

    /// The row with this number, and after the last an empty one. Does not allocate.
    fn row(self, row: usize) -> Self::Row
        ensures { Self.Row.texts result ≡ row_at (rows self) row };

    /// The rows from one on before another, as far as there are any. Does not allocate.
    fn between(self, start: usize, end: usize) -> Self
        ensures { rows result ≡ slice_range (rows self) start end };
}

impl<'a, C: Cell> CellRow for &'a [C] {
    type Cell = &'a C;

    ghost texts = { λ row. map C.text row.now };

    #[inline(always)]
    fn len(self) -> usize {
        <[C]>::len(self)
    }

    #[inline(always)]
    fn cell(self, column: usize) -> Option<&'a C> {
        self.get(column)
    }
}

impl<'a, C: Cell> CellRows for &'a [Vec<C>] {
    type Row = &'a [C];

    ghost rows = { λ rows. texts_of_rows C.text rows.now };

    #[inline(always)]
    fn len(self) -> usize {
        <[Vec<C>]>::len(self)
    }

    #[inline(always)]
    fn row(self, row: usize) -> &'a [C] {
        match self.get(row) {
            Some(row) => row.as_slice(),
            None => &[],
        }
    }

    #[inline(always)]
    fn between(self, start: usize, end: usize) -> &'a [Vec<C>] {
        part(self, start, end)
    }
}

/// How many cells the longest row has; 0 where there is no row. Does not allocate.
pub fn longest<R: CellRows>(rows: R) -> usize
    ensures { result ≡ longest (R.rows rows) }
{
    let mut most = 0;
    for row in 0..rows.len() {
        most = most.max(rows.row(row).len());
    }
    most
}

/// The items from one on before another, as far as there are any.
#[inline(always)]
pub(crate) fn part<T>(items: &[T], start: usize, end: usize) -> &[T]
    ensures { result.now ≡ slice_range items.now start end }
{
    let end = end.min(items.len());
    &items[start.min(end)..end]
}

/// The items from one on before another, which are all there.
#[inline(always)]
pub(crate) fn all_between<T>(items: &[T], start: usize, end: usize) -> &[T]
    requires ascending { start ≤ end }
    requires there { end ≤ length items.now }
    ensures { result.now ≡ slice_range items.now start end }
{
    &items[start..end]
}
