//! The sizes of columns and rows.
ghost use Rattle.std.specs.Prelude.{◌≡◌, ℕ};

/// The widths of columns and the heights of rows. It has one for each number, also where the table has no such
/// column or row.
pub trait Dimension {
    /// The width of each column.
    ghost width: { Self → ℕ → ℕ };

    /// The height of each row.
    ghost height: { Self → ℕ → ℕ };

    /// How many columns of the terminal this column takes.
    fn get_width(&self, column: usize) -> usize
        ensures { result ≡ width self.now column };

    /// How many lines this row takes.
    fn get_height(&self, row: usize) -> usize
        ensures { result ≡ height self.now row };
}

impl<D: Dimension> Dimension for &D {
    ghost width = { λ d. D.width d.now };

    ghost height = { λ d. D.height d.now };

    fn get_width(&self, column: usize) -> usize {
        D::get_width(self, column)
    }

    fn get_height(&self, row: usize) -> usize {
        D::get_height(self, row)
    }
}
