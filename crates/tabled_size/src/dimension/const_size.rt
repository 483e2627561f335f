//! A size for each column, or for each row, of constant length.
use crate::dimension::lists::{covers_first, size_or};

/// The widths of columns in columns of the terminal, or the heights of rows in lines.
#[derive(Clone, Copy, Debug)]
pub enum ConstSize<const N: usize> {
    /// Those of the list, and 0 past it.
    List([usize; N]),
    /// This one for all.
    Value(usize),
}

impl<const N: usize> ConstSize<N> {
    ghost use Rattle.std.specs.Prelude.{◌≡◌, ◌↔◌, IsTrue};
    ghost use Rattle.tabled_size.specs.Dimension.Sizes.{CoversFirst, given_size};
    ghost use Rattle.tabled_size.specs.Dimension.Values.{const_sizes};

    // The size of the column, or row, of this number.
    pub(crate) fn get(&self, index: usize) -> usize
        ensures { result ≡ given_size (const_sizes self.now) index }
    {
        match self {
            ConstSize::List(sizes) => size_or(sizes, index, 0),
            ConstSize::Value(size) => *size,
        }
    }

    // Whether no number below this one is past a list.
    pub(crate) fn covers(&self, count: usize) -> bool
        ensures { IsTrue result ↔ CoversFirst count (const_sizes self.now) }
    {
        match self {
            ConstSize::List(sizes) => covers_first(sizes, count),
            ConstSize::Value(_) => true,
        }
    }
}

/// This size for all.
impl From<usize> for ConstSize<0> {
    ghost use Rattle.std.specs.Prelude.{◌≡◌};
    ghost use Rattle.tabled_size.specs.Dimension.Sizes.{Alike};
    ghost use Rattle.tabled_size.specs.Dimension.Values.{const_sizes};

    ghost from_gives = { λ size sizes. const_sizes sizes ≡ Alike size };

    fn from(size: usize) -> ConstSize<0> {
        ConstSize::Value(size)
    }
}

/// The sizes of this list.
impl<const N: usize> From<[usize; N]> for ConstSize<N> {
    ghost use Rattle.std.specs.Prelude.{◌≡◌};
    ghost use Rattle.tabled_size.specs.Dimension.Sizes.{Listed};
    ghost use Rattle.tabled_size.specs.Dimension.Values.{const_sizes};

    ghost from_gives = { λ list sizes. const_sizes sizes ≡ Listed list };

    fn from(list: [usize; N]) -> ConstSize<N> {
        ConstSize::List(list)
    }
}
