//! No sizes.
use grid_config::Fault;
use grid_records_estimate::Estimate;
use grid_records_traits::Dimension;
use std::alloc::Global;

/// Each size is 0.
#[derive(Clone, Copy, Debug, Default, PartialEq, Eq, PartialOrd, Ord, Hash)]
pub struct ZeroDimension {}

impl ZeroDimension {
    ghost use Rattle.std.specs.Prelude.{IsTrue};

    /// The one value.
    pub fn new() -> ZeroDimension {
        ZeroDimension {}
    }

    /// Whether there is a size for each column and row of a table of this size: there always is.
    pub fn covers(&self, _columns: usize, _rows: usize) -> bool
        ensures { IsTrue result }
    {
        true
    }
}

impl Dimension for ZeroDimension {
    ghost width = { λ _ _. 0 };

    ghost height = { λ _ _. 0 };

    fn get_width(&self, _column: usize) -> usize {
        0
    }

    fn get_height(&self, _row: usize) -> usize {
        0
    }
}

/// It is never refused, and changes nothing.
impl<R: Drop, C> Estimate<R, C> for ZeroDimension {
    ghost use Rattle.std.specs.Prelude.{◌≡◌, IsOk};

    ghost is_estimate = { λ _ _ before after. after ≡ before };

    ghost passes = { λ _ _ _. ⊥ };

    fn estimate(&mut self, _alloc: Global, _records: R, _cfg: &C) -> Result<(), Fault>
        ensures accepted { IsOk result }
        ensures same { self.new ≡ self.old }
    {
        Ok(())
    }
}
