//! A size for each column, or for each row.
use crate::dimension::lists::{covers_first, size_or};
use std::alloc::{AllocError, Global};

/// The widths of columns in columns of the terminal, or the heights of rows in lines.
#[derive(Debug, Drop)]
pub enum DimensionValue {
    /// This one for all.
    Exact(usize),
    /// Those of the list, and 0 past it.
    List(Vec<usize>),
    /// Those of the list, and this one past it.
    Partial(Vec<usize>, usize),
}

impl DimensionValue {
    ghost use Rattle.std.specs.Prelude.{◌≡◌, ◌↔◌, IfOk, IsOk, IsTrue};
    ghost use Rattle.tabled_size.specs.Dimension.Sizes.{Alike, CoversFirst, given_size};
    ghost use Rattle.tabled_size.specs.Dimension.Values.{value_sizes};

    /// The size of the column, or row, of this number. Numbers count from 0.
    pub fn get(&self, index: usize) -> usize
        ensures { result ≡ given_size (value_sizes self.now) index }
    {
        match self {
            DimensionValue::Exact(size) => *size,
            DimensionValue::List(sizes) => size_or(sizes, index, 0),
            DimensionValue::Partial(sizes, size) => size_or(sizes, index, *size),
        }
    }

    /// The same sizes again. Fails only where allocation fails, and never where there is no list.
    pub fn clone(&self, alloc: Global) -> Result<DimensionValue, AllocError>
        ensures sizes { IfOk result (λ copy. value_sizes copy ≡ value_sizes self.now) }
        ensures none { (size : _) → value_sizes self.now ≡ Alike size → IsOk result }
    {
        match self {
            DimensionValue::Exact(size) => Ok(DimensionValue::Exact(*size)),
            DimensionValue::List(sizes) => Ok(DimensionValue::List(Vec::from_slice(alloc, sizes)?)),
            DimensionValue::Partial(sizes, size) => Ok(DimensionValue::Partial(
                Vec::from_slice(alloc, sizes)?,
                *size,
            )),
        }
    }

    // Whether no number below this one is past a list.
    pub(crate) fn covers(&self, count: usize) -> bool
        ensures { IsTrue result ↔ CoversFirst count (value_sizes self.now) }
    {
        match self {
            DimensionValue::Exact(_) => true,
            DimensionValue::List(sizes) => covers_first(sizes, count),
            DimensionValue::Partial(sizes, _) => covers_first(sizes, count),
        }
    }
}
