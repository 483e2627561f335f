//! Sizes that are given.
use crate::dimension::value::DimensionValue;
use grid_config::Fault;
use grid_records_estimate::Estimate;
use grid_records_traits::Dimension;
use std::alloc::{AllocError, Global};
use std::marker::Model;

/// Widths and heights that are given once; an estimate leaves them as they are.
#[derive(Debug, Drop)]
pub struct StaticDimension {
    width: DimensionValue,
    height: DimensionValue,
}

impl Model for StaticDimension {
    ghost use Rattle.tabled_size.specs.Dimension.Sizes.{GivenSizes};
    ghost use Rattle.tabled_size.specs.Dimension.Values.{value_sizes};

    ghost Value = { GivenSizes × GivenSizes };

    ghost view = { λ dimension. (value_sizes dimension.width, value_sizes dimension.height) };
}

impl StaticDimension {
    ghost use Rattle.std.specs.Prelude.{◌≡◌, ◌↔◌, IfOk, IsOk, IsTrue};
    ghost use Rattle.tabled_size.specs.Dimension.Sizes.{Alike, CoversTable};
    ghost use Rattle.tabled_size.specs.Dimension.Values.{value_sizes};

    /// These widths and heights.
    pub fn new(width: DimensionValue, height: DimensionValue) -> StaticDimension
        ensures { result ≡ (value_sizes width, value_sizes height) }
    {
        StaticDimension { width, height }
    }

    /// Whether no column and no row of a table of `columns` columns and `rows` rows is past its list,
    /// that of a `Partial` included.
    pub fn covers(&self, columns: usize, rows: usize) -> bool
        ensures { IsTrue result ↔ CoversTable columns rows self.now }
    {
        self.width.covers(columns) && self.height.covers(rows)
    }

    /// The same sizes again. Fails only where allocation fails, and never where there are no lists.
    pub fn clone(&self, alloc: Global) -> Result<StaticDimension, AllocError>
        ensures sizes { IfOk result (λ copy. copy ≡ self.now) }
        ensures none { (width height : _) → self.now ≡ (Alike width, Alike height) → IsOk result }
    {
        Ok(StaticDimension {
            width: self.width.clone(alloc)?,
            height: self.height.clone(alloc)?,
        })
    }
}

impl Dimension for StaticDimension {
    ghost use Rattle.tabled_size.specs.Dimension.Sizes.{given_size};

    ghost width = { λ dimension. given_size dimension.0 };

    ghost height = { λ dimension. given_size dimension.1 };

    fn get_width(&self, column: usize) -> usize {
        self.width.get(column)
    }

    fn get_height(&self, row: usize) -> usize {
        self.height.get(row)
    }
}

/// It is never refused, and changes nothing.
impl<R: Drop, C> Estimate<R, C> for StaticDimension {
    ghost use Rattle.std.specs.Prelude.{◌≡◌, IsOk};

    ghost is_estimate = { λ _ _ before after. after ≡ before };

    ghost passes = { λ _ _ _. ⊥ };

    fn estimate(&mut self, _alloc: Global, _records: R, _cfg: &C) -> Result<(), Fault>
        ensures accepted { IsOk result }
        ensures same { self.new ≡ self.old }
    {
        Ok(())
    }
}

/// The width and the height.
impl From<StaticDimension> for (DimensionValue, DimensionValue) {
    ghost use Rattle.std.specs.Prelude.{◌≡◌};
    ghost use Rattle.tabled_size.specs.Dimension.Values.{value_sizes};

    ghost from_gives = { λ dimension pair. (value_sizes pair.0, value_sizes pair.1) ≡ dimension };

    fn from(dimension: StaticDimension) -> (DimensionValue, DimensionValue) {
        (dimension.width, dimension.height)
    }
}
