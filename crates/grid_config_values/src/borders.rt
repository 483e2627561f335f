//! The glyphs of a table's boundaries, or what else belongs to each of them, as its colour.
ghost use Rattle.std.specs.Prelude.{◌≡◌, ◌<◌, ◌||◌, ⊤, Bool, if◌then◌else◌, is_some};
ghost use Rattle.grid_config_values.specs.Glyphs.{Between, BoundaryKind, First, Last, boundary_count, boundary_kind, has_column_boundary, has_row_boundary, no_borders};

use std::alloc::AllocError;

/// What may be around one cell.
#[derive(Copy, Debug, PartialEq, Eq, PartialOrd, Ord, Hash, Drop)]
pub struct Border<T> {
    /// Above it.
    pub top: Option<T>,
    /// Below it.
    pub bottom: Option<T>,
    /// To its left.
    pub left: Option<T>,
    /// To its right.
    pub right: Option<T>,
    /// At its left upper corner.
    pub left_top_corner: Option<T>,
    /// At its left lower corner.
    pub left_bottom_corner: Option<T>,
    /// At its right upper corner.
    pub right_top_corner: Option<T>,
    /// At its right lower corner.
    pub right_bottom_corner: Option<T>,
}

/// A copy, without allocating.
impl<T: Copy> Clone for Border<T> {
    ghost is_clone = { λ source copy. copy ≡ source };

    ghost is_infallible = { λ _. ⊤ };

    fn clone(&self) -> Result<Border<T>, AllocError> {
        Ok(*self)
    }
}

/// What may be on the boundaries of a table: before its first row or column, between two of
/// them, and after its last.
#[derive(Copy, Debug, PartialEq, Eq, PartialOrd, Ord, Hash, Drop)]
pub struct Borders<T> {
    /// Along the columns, above the first row.
    pub top: Option<T>,
    /// At the left upper corner.
    pub top_left: Option<T>,
    /// At the right upper corner.
    pub top_right: Option<T>,
    /// Between two columns, above the first row.
    pub top_intersection: Option<T>,

    /// Along the columns, below the last row.
    pub bottom: Option<T>,
    /// At the left lower corner.
    pub bottom_left: Option<T>,
    /// At the right lower corner.
    pub bottom_right: Option<T>,
    /// Between two columns, below the last row.
    pub bottom_intersection: Option<T>,

    /// Along the columns, between two rows.
    pub horizontal: Option<T>,
    /// Before the first column, between two rows.
    pub left_intersection: Option<T>,
    /// After the last column, between two rows.
    pub right_intersection: Option<T>,

    /// Between two columns, between two rows.
    pub intersection: Option<T>,

    /// In a row, between two columns.
    pub vertical: Option<T>,
    /// In a row, before the first column.
    pub left: Option<T>,
    /// In a row, after the last column.
    pub right: Option<T>,
}

/// A copy, without allocating.
impl<T: Copy> Clone for Borders<T> {
    ghost is_clone = { λ source copy. copy ≡ source };

    ghost is_infallible = { λ _. ⊤ };

    fn clone(&self) -> Result<Borders<T>, AllocError> {
        Ok(*self)
    }
}

// Whether one of the two is set. `is_some` is no `const` function.
const fn is_either_set<T>(a: &Option<T>, b: &Option<T>) -> bool
    ensures { result ≡ (is_some a.now || is_some b.now) }
{
    matches!(a, Some(_)) || matches!(b, Some(_))
}

impl<T> Borders<T> {
    /// Nothing is on any boundary.
    pub const fn empty() -> Borders<T>
        ensures { result ≡ no_borders }
    {
        Borders {
            top: None,
            top_left: None,
            top_right: None,
            top_intersection: None,
            bottom: None,
            bottom_left: None,
            bottom_right: None,
            bottom_intersection: None,
            horizontal: None,
            left_intersection: None,
            right_intersection: None,
            intersection: None,
            vertical: None,
            left: None,
            right: None,
        }
    }

    /// Whether one of `left`, `left_intersection`, `top_left`, `bottom_left` is set.
    pub const fn has_left(&self) -> bool
        ensures { result ≡ has_column_boundary self.now First }
    {
        is_either_set(&self.left, &self.left_intersection)
            || is_either_set(&self.top_left, &self.bottom_left)
    }

    /// Whether one of `right`, `right_intersection`, `top_right`, `bottom_right` is set.
    pub const fn has_right(&self) -> bool
        ensures { result ≡ has_column_boundary self.now Last }
    {
        is_either_set(&self.right, &self.right_intersection)
            || is_either_set(&self.top_right, &self.bottom_right)
    }

    /// Whether one of `top`, `top_intersection`, `top_left`, `top_right` is set.
    pub const fn has_top(&self) -> bool
        ensures { result ≡ has_row_boundary self.now First }
    {
        is_either_set(&self.top, &self.top_intersection)
            || is_either_set(&self.top_left, &self.top_right)
    }

    /// Whether one of `bottom`, `bottom_intersection`, `bottom_left`, `bottom_right` is set.
    pub const fn has_bottom(&self) -> bool
        ensures { result ≡ has_row_boundary self.now Last }
    {
        is_either_set(&self.bottom, &self.bottom_intersection)
            || is_either_set(&self.bottom_left, &self.bottom_right)
    }

    /// Whether one of `vertical`, `intersection`, `top_intersection`, `bottom_intersection` is set.
    pub const fn has_vertical(&self) -> bool
        ensures { result ≡ has_column_boundary self.now Between }
    {
        is_either_set(&self.vertical, &self.intersection)
            || is_either_set(&self.top_intersection, &self.bottom_intersection)
    }

    /// Whether one of `horizontal`, `intersection`, `left_intersection`, `right_intersection` is set.
    pub const fn has_horizontal(&self) -> bool
        ensures { result ≡ has_row_boundary self.now Between }
    {
        is_either_set(&self.horizontal, &self.intersection)
            || is_either_set(&self.left_intersection, &self.right_intersection)
    }

    /// Whether column boundary `j` of `columns` columns is there: `has_left` of the first, `has_right`
    /// of the last, `has_vertical` of any other.
    pub const fn has_vertical_at(&self, j: usize, columns: usize) -> bool
        ensures { result ≡ has_column_boundary self.now (boundary_kind j columns) }
    {
        if j == 0 {
            self.has_left()
        } else if j == columns {
            self.has_right()
        } else {
            self.has_vertical()
        }
    }

    /// Whether row boundary `i` of `rows` rows is there: `has_top` of the first, `has_bottom` of the
    /// last, `has_horizontal` of any other.
    pub const fn has_horizontal_at(&self, i: usize, rows: usize) -> bool
        ensures { result ≡ has_row_boundary self.now (boundary_kind i rows) }
    {
        if i == 0 {
            self.has_top()
        } else if i == rows {
            self.has_bottom()
        } else {
            self.has_horizontal()
        }
    }

    /// How many of the column boundaries from 0 to `columns` are there.
    pub const fn count_vertical(&self, columns: usize) -> usize
        requires { columns < usize.MAX }
        ensures { result ≡ boundary_count (has_column_boundary self.now) columns }
    {
        count_boundaries(
            columns,
            self.has_left(),
            self.has_vertical(),
            self.has_right(),
        )
    }

    /// How many of the row boundaries from 0 to `rows` are there.
    pub const fn count_horizontal(&self, rows: usize) -> usize
        requires { rows < usize.MAX }
        ensures { result ≡ boundary_count (has_row_boundary self.now) rows }
    {
        count_boundaries(
            rows,
            self.has_top(),
            self.has_horizontal(),
            self.has_bottom(),
        )
    }
}

// How many of the boundaries 0 to n are there, by whether the first, each between and the last is.
const fn count_boundaries(n: usize, first: bool, between: bool, last: bool) -> usize
    requires { n < usize.MAX }
    ensures { (is_there : BoundaryKind → Bool) → is_there First ≡ first → is_there Between ≡ between →
        is_there Last ≡ last → result ≡ boundary_count is_there n }
{
    if n == 0 {
        return count_if(first, 1);
    }
    count_if(first, 1) + count_if(between, n - 1) + count_if(last, 1)
}

// `n`, or 0.
const fn count_if(is_there: bool, n: usize) -> usize
    ensures { result ≡ (if is_there then n else 0) }
{
    if is_there { n } else { 0 }
}
