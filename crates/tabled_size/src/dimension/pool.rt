//! Who takes what is left over in a table of nested boxes.
use crate::dimension::priority::DimensionPriority;
use std::marker::Model;

/// Who takes the columns and the lines that are left over in a table of nested boxes.
#[derive(Clone, Copy, Debug, PartialEq, Eq, PartialOrd, Ord)]
pub struct PoolTableDimension {
    width: DimensionPriority,
    height: DimensionPriority,
}

impl Model for PoolTableDimension {
    ghost use Rattle.tabled_size.specs.Dimension.Takers.{Takers};

    ghost Value = { Takers };

    ghost view = { λ dimension. record { width = dimension.width; height = dimension.height } };

    ghost inverse = { λ takers. record { width = takers.width; height = takers.height } };
}

impl PoolTableDimension {
    ghost use Rattle.std.specs.Prelude.{◌≡◌};

    /// These priorities: of the columns, and of the lines.
    pub fn new(width: DimensionPriority, height: DimensionPriority) -> PoolTableDimension
        ensures { result ≡ record { width = width; height = height } }
    {
        PoolTableDimension { width, height }
    }

    /// Who takes the columns.
    pub fn width(&self) -> DimensionPriority
        ensures { result ≡ self.now.width }
    {
        self.width
    }

    /// Who takes the lines.
    pub fn height(&self) -> DimensionPriority
        ensures { result ≡ self.now.height }
    {
        self.height
    }
}
