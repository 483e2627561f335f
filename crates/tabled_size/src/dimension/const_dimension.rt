//! Sizes of constant length that are given.
use crate::dimension::const_size::ConstSize;
use grid_config::Fault;
use grid_records_estimate::Estimate;
use grid_records_traits::Dimension;
use std::alloc::Global;
use std::marker::Model;

/// Widths and heights of constant length that are given once; an estimate leaves them as they are.
#[derive(Clone, Copy, Debug)]
pub struct ConstDimension<const COLUMNS: usize, const ROWS: usize> {
    width: ConstSize<COLUMNS>,
    height: ConstSize<ROWS>,
}

impl<const COLUMNS: usize, const ROWS: usize> Model for ConstDimension<COLUMNS, ROWS> {
    ghost use Rattle.tabled_size.specs.declared.dimension.const_size.ConstSize.{ConstSize as Given};

    ghost Value = { Given COLUMNS × Given ROWS };

    ghost view = { λ dimension. (dimension.width, dimension.height) };

    ghost inverse = { λ sizes. record { width = sizes.0; height = sizes.1 } };
}

impl<const COLUMNS: usize, const ROWS: usize> ConstDimension<COLUMNS, ROWS> {
    ghost use Rattle.std.specs.Prelude.{◌≡◌, ◌↔◌, IsTrue};
    ghost use Rattle.tabled_size.specs.Dimension.Sizes.{CoversTable};
    ghost use Rattle.tabled_size.specs.Dimension.Values.{const_sizes};

    /// These widths and heights.
    pub const fn new(
        width: ConstSize<COLUMNS>,
        height: ConstSize<ROWS>,
    ) -> ConstDimension<COLUMNS, ROWS>
        ensures { result ≡ (width.entry, height.entry) }
    {
        ConstDimension { width, height }
    }

    /// Whether no column and no row of a table of `columns` columns and `rows` rows is past its list.
    pub fn covers(&self, columns: usize, rows: usize) -> bool
        ensures { IsTrue result ↔ CoversTable columns rows (const_sizes self.now.0, const_sizes self.now.1) }
    {
        self.width.covers(columns) && self.height.covers(rows)
    }
}

impl<const COLUMNS: usize, const ROWS: usize> Dimension for ConstDimension<COLUMNS, ROWS> {
    ghost use Rattle.tabled_size.specs.Dimension.Sizes.{given_size};
    ghost use Rattle.tabled_size.specs.Dimension.Values.{const_sizes};

    ghost width = { λ dimension. given_size (const_sizes dimension.0) };

    ghost height = { λ dimension. given_size (const_sizes dimension.1) };

    fn get_width(&self, column: usize) -> usize {
        self.width.get(column)
    }

    fn get_height(&self, row: usize) -> usize {
        self.height.get(row)
    }
}

/// It is never refused, and changes nothing.
impl<R: Drop, C, const COLUMNS: usize, const ROWS: usize> Estimate<R, C>
    for ConstDimension<COLUMNS, ROWS> {
    ghost use Rattle.std.specs.Prelude.{◌≡◌, IfErr, IsOk, OnErr, OnOk};
    ghost use Rattle.grid_records_estimate.specs.Sizes.{IsRefusal};

    ghost is_estimate = { λ _ _ before after. after ≡ before };

    ghost passes = { λ _ _ _. ⊥ };

    fn estimate(&mut self, _alloc: Global, _records: R, _cfg: &C) -> Result<(), Fault>
        ensures ok { OnOk result (self.new ≡ self.old) }
        ensures refused { IfErr result (λ fault. IsRefusal fault ⊥) }
        ensures err { OnErr result (self.new ≡ self.old) }
        ensures accepted { IsOk result }
    {
        Ok(())
    }
}

/// The width and the height.
impl<const COLUMNS: usize, const ROWS: usize> From<ConstDimension<COLUMNS, ROWS>>
    for (ConstSize<COLUMNS>, ConstSize<ROWS>) {
    ghost use Rattle.std.specs.Prelude.{◌≡◌};

    ghost from_gives = { λ dimension pair. pair ≡ dimension };

    fn from(dimension: ConstDimension<COLUMNS, ROWS>) -> (ConstSize<COLUMNS>, ConstSize<ROWS>) {
        (dimension.width, dimension.height)
    }
}
