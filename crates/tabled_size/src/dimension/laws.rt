//! Laws of the definitions that the other contracts cite.
ghost use Rattle.std.specs.Prelude.{◌≡◌, ◌↔◌, ℕ, List, [], ◌∷◌, None, Some, true};
ghost use Rattle.std.specs.declared.cmp.Ordering.TheVariants.{Equal};
ghost use Rattle.grid_config_values.specs.declared.entity.Entity.TheVariants.{Cell, Column, Global, Row};
ghost use Rattle.grid_config.specs.Coloring.{Coloring as ColoredSettings};
ghost use Rattle.grid_config.specs.Settings.{Settings as TableSettings};
ghost use Rattle.grid_records_estimate.specs.Kept.{LeastSizes, least_sizes};
ghost use Rattle.grid_records_estimate.specs.Sizing.{sizing_of};
ghost use Rattle.tabled_size.specs.Dimension.Sizes.{Alike, Listed, ListedBefore, given_size};
ghost use Rattle.tabled_size.specs.Dimension.Stored.{CompletedPass, Stored as StoredSizes, completed, kept_after, none_stored, stored_sizes};
ghost use Rattle.tabled_size.specs.Dimension.Values.{BothSizes, ValuePair, const_sizes, value_sizes};
ghost use Rattle.tabled_size.specs.Dimension.Takers.{Takers as Both};
ghost use Rattle.tabled_size.specs.declared.dimension.const_size.ConstSize.{ConstSize as ConstWidth};
ghost use Rattle.tabled_size.specs.declared.dimension.priority.DimensionPriority.{DimensionPriority as Taker};
ghost use Rattle.tabled_size.specs.declared.dimension.suffix.SuffixLimit.{SuffixLimit as Limit};
ghost use Rattle.tabled_size.specs.declared.dimension.zero.ZeroDimension.{ZeroDimension as Zero};

use crate::dimension::complete::CompleteDimension;
use crate::dimension::const_dimension::ConstDimension;
use crate::dimension::const_size::ConstSize;
use crate::dimension::pool::PoolTableDimension;
use crate::dimension::priority::DimensionPriority;
use crate::dimension::static_dimension::StaticDimension;
use crate::dimension::suffix::SuffixLimit;
use crate::dimension::value::DimensionValue;
use crate::dimension::zero::ZeroDimension;
use grid_config::{ColoredConfig, SpannedConfig};
use grid_records_estimate::Estimate;
use grid_records_traits::{Dimension, Records};

/// What is kept after a change, by what was changed.
pub fn changes_clear_sizes()
    ensures all { (stored : StoredSizes) → kept_after (Some Global) stored ≡ none_stored }
    ensures column { (stored : StoredSizes) (column : ℕ) → kept_after (Some (Column column)) stored ≡ record { widths = None; heights = stored.heights } }
    ensures row { (stored : StoredSizes) (row : ℕ) → kept_after (Some (Row row)) stored ≡ record { widths = stored.widths; heights = None } }
    ensures cell { (stored : StoredSizes) (row column : ℕ) → kept_after (Some (Cell row column)) stored ≡ none_stored }
    ensures nothing { (stored : StoredSizes) → kept_after None stored ≡ stored }
{}

/// Sizes worked out by hand. Past a list a size is 0, and past a list with a size for the others it is
/// that one. What is set stays, and what is not is completed.
pub fn worked_sizes()
    ensures alike { given_size (Alike 3) 9 ≡ 3 }
    ensures listed { given_size (Listed (4 ∷ 5 ∷ [])) 1 ≡ 5 }
    ensures past { given_size (Listed (4 ∷ 5 ∷ [])) 2 ≡ 0 }
    ensures before { given_size (ListedBefore (4 ∷ []) 7) 0 ≡ 4 }
    ensures behind { given_size (ListedBefore (4 ∷ []) 7) 1 ≡ 7 }
    ensures completed { completed (record { widths = 1 ∷ []; heights = 2 ∷ [] }) (record { widths = Some (9 ∷ []); heights = None }) ≡
        record { widths = Some (9 ∷ []); heights = Some (2 ∷ []) } }
{}

/// The sizes of each kind, by their numbers.
pub fn sizes_by_number<const COLUMNS: usize, const ROWS: usize>()
    ensures kept_widths { (sizes : StoredSizes) (column : ℕ) → ⟦<CompleteDimension as Dimension>⟧.width sizes column ≡ given_size (stored_sizes sizes.widths) column }
    ensures kept_heights { (sizes : StoredSizes) (row : ℕ) → ⟦<CompleteDimension as Dimension>⟧.height sizes row ≡ given_size (stored_sizes sizes.heights) row }
    ensures given_widths { (sizes : BothSizes) (column : ℕ) → ⟦<StaticDimension as Dimension>⟧.width sizes column ≡ given_size sizes.0 column }
    ensures given_heights { (sizes : BothSizes) (row : ℕ) → ⟦<StaticDimension as Dimension>⟧.height sizes row ≡ given_size sizes.1 row }
    ensures constant_widths { (sizes : ConstWidth COLUMNS × ConstWidth ROWS) (column : ℕ) →
        ⟦<ConstDimension<COLUMNS, ROWS> as Dimension>⟧.width sizes column ≡ given_size (const_sizes sizes.0) column }
    ensures constant_heights { (sizes : ConstWidth COLUMNS × ConstWidth ROWS) (row : ℕ) →
        ⟦<ConstDimension<COLUMNS, ROWS> as Dimension>⟧.height sizes row ≡ given_size (const_sizes sizes.1) row }
    ensures zero_widths { (zero : Zero) (column : ℕ) → ⟦<ZeroDimension as Dimension>⟧.width zero column ≡ 0 }
    ensures zero_heights { (zero : Zero) (row : ℕ) → ⟦<ZeroDimension as Dimension>⟧.height zero row ≡ 0 }
{}

/// An estimate fills what is not set with the least sizes of the table, and what is set stays. Where it is
/// refused because a size passes the range, that is a size that it fills in. Colours take no width.
pub fn estimates_fill_what_is_not_set<R: Records>()
    ensures fills { (records : R) (cfg : TableSettings) (before after : StoredSizes) → ⟦<CompleteDimension as Estimate<R, SpannedConfig>>⟧.is_estimate records cfg before after →
        after ≡ completed (least_sizes (sizing_of cfg) (R.columns records) (R.rows records)) before }
    ensures range { (records : R) (cfg : TableSettings) (before : StoredSizes) → ⟦<CompleteDimension as Estimate<R, SpannedConfig>>⟧.passes records cfg before →
        CompletedPass (least_sizes (sizing_of cfg) (R.columns records) (R.rows records)) before }
    ensures colored { (records : R) (cfg : ColoredSettings) (before after : StoredSizes) → ⟦<CompleteDimension as Estimate<R, ColoredConfig>>⟧.is_estimate records cfg before after →
        after ≡ completed (least_sizes (sizing_of cfg.settings) (R.columns records) (R.rows records)) before }
    ensures colored_range { (records : R) (cfg : ColoredSettings) (before : StoredSizes) → ⟦<CompleteDimension as Estimate<R, ColoredConfig>>⟧.passes records cfg before →
        CompletedPass (least_sizes (sizing_of cfg.settings) (R.columns records) (R.rows records)) before }
    ensures widths_stay { (sizes : LeastSizes) (before : StoredSizes) (widths : List ℕ) → before.widths ≡ Some widths → (completed sizes before).widths ≡ Some widths }
    ensures heights_stay { (sizes : LeastSizes) (before : StoredSizes) (heights : List ℕ) → before.heights ≡ Some heights → (completed sizes before).heights ≡ Some heights }
    ensures widths_come { (sizes : LeastSizes) (before : StoredSizes) → before.widths ≡ None → (completed sizes before).widths ≡ Some sizes.widths }
    ensures heights_come { (sizes : LeastSizes) (before : StoredSizes) → before.heights ≡ None → (completed sizes before).heights ≡ Some sizes.heights }
{}

/// An estimate leaves sizes that are given as they are, and is not refused.
pub fn given_sizes_stay<R: Drop, C, const COLUMNS: usize, const ROWS: usize>()
    ensures given { (records : R) (cfg : C) (before after : BothSizes) → ⟦<StaticDimension as Estimate<R, C>>⟧.is_estimate records cfg before after → after ≡ before }
    ensures given_range { (records : R) (cfg : C) (before : BothSizes) → ¬ (⟦<StaticDimension as Estimate<R, C>>⟧.passes records cfg before) }
    ensures constant { (records : R) (cfg : C) (before after : ConstWidth COLUMNS × ConstWidth ROWS) →
        ⟦<ConstDimension<COLUMNS, ROWS> as Estimate<R, C>>⟧.is_estimate records cfg before after → after ≡ before }
    ensures constant_range { (records : R) (cfg : C) (before : ConstWidth COLUMNS × ConstWidth ROWS) →
        ¬ (⟦<ConstDimension<COLUMNS, ROWS> as Estimate<R, C>>⟧.passes records cfg before) }
    ensures zero_range { (records : R) (cfg : C) (before : Zero) → ¬ (⟦<ZeroDimension as Estimate<R, C>>⟧.passes records cfg before) }
{}

/// At first nothing is set. What sizes are made of is what they give back.
pub fn sizes_are_made_and_parted<const COLUMNS: usize, const ROWS: usize>()
    ensures first { (sizes : StoredSizes) → ⟦<CompleteDimension as Default>⟧.is_default sizes → sizes ≡ none_stored }
    ensures given { (sizes : BothSizes) (pair : ValuePair) → ⟦<(DimensionValue, DimensionValue) as From<StaticDimension>>⟧.from_gives sizes pair →
        (value_sizes pair.0, value_sizes pair.1) ≡ sizes }
    ensures constant { (sizes pair : ConstWidth COLUMNS × ConstWidth ROWS) →
        ⟦<(ConstSize<COLUMNS>, ConstSize<ROWS>) as From<ConstDimension<COLUMNS, ROWS>>>⟧.from_gives sizes pair → pair ≡ sizes }
    ensures one_size { (size : ℕ) (sizes : ConstWidth 0) → ⟦<ConstSize<0> as From<usize>>⟧.from_gives size sizes → const_sizes sizes ≡ Alike size }
    ensures list { (list : List ℕ) (sizes : ConstWidth COLUMNS) → ⟦<ConstSize<COLUMNS> as From<[usize; COLUMNS]>>⟧.from_gives list sizes → const_sizes sizes ≡ Listed list }
{}

/// `==` of values that can be copied is equality of all their parts, and `cmp` finds the same ones equal.
pub fn equal_values_are_the_same()
    ensures limits { (a b : Limit) → (⟦<SuffixLimit as PartialEq>⟧.eq a b ≡ true) ↔ (a ≡ b) }
    ensures limits_order { (a b : Limit) → (⟦<SuffixLimit as Ord>⟧.cmp a b ≡ Equal) ↔ (a ≡ b) }
    ensures takers { (a b : Taker) → (⟦<DimensionPriority as PartialEq>⟧.eq a b ≡ true) ↔ (a ≡ b) }
    ensures takers_order { (a b : Taker) → (⟦<DimensionPriority as Ord>⟧.cmp a b ≡ Equal) ↔ (a ≡ b) }
    ensures pools { (a b : Both) → (⟦<PoolTableDimension as PartialEq>⟧.eq a b ≡ true) ↔ (a ≡ b) }
    ensures pools_order { (a b : Both) → (⟦<PoolTableDimension as Ord>⟧.cmp a b ≡ Equal) ↔ (a ≡ b) }
    ensures zeros { (a b : Zero) → ⟦<ZeroDimension as PartialEq>⟧.eq a b ≡ true }
    ensures one_zero { (a b : Zero) → a ≡ b }
{}

/// `==` of sizes that a table keeps is equality of the widths and of the heights, and `cmp` finds the same
/// ones equal.
pub fn equal_sizes_are_the_same()
    ensures equality { (a b : StoredSizes) → (⟦<CompleteDimension as PartialEq>⟧.eq a b ≡ true) ↔ (a ≡ b) }
    ensures order { (a b : StoredSizes) → (⟦<CompleteDimension as Ord>⟧.cmp a b ≡ Equal) ↔ (a ≡ b) }
{}

/// A copy is the same value, and is never refused.
pub fn copies_are_the_same<const COLUMNS: usize, const ROWS: usize>()
    ensures limits { (a b : Limit) → ⟦<SuffixLimit as Clone>⟧.is_clone a b → b ≡ a }
    ensures takers { (a b : Taker) → ⟦<DimensionPriority as Clone>⟧.is_clone a b → b ≡ a }
    ensures pools { (a b : Both) → ⟦<PoolTableDimension as Clone>⟧.is_clone a b → b ≡ a }
    ensures constant { (a b : ConstWidth COLUMNS) → ⟦<ConstSize<COLUMNS> as Clone>⟧.is_clone a b → b ≡ a }
    ensures constants { (a b : ConstWidth COLUMNS × ConstWidth ROWS) → ⟦<ConstDimension<COLUMNS, ROWS> as Clone>⟧.is_clone a b → b ≡ a }
    ensures limits_come { (a : Limit) → ⟦<SuffixLimit as Clone>⟧.is_infallible a }
    ensures takers_come { (a : Taker) → ⟦<DimensionPriority as Clone>⟧.is_infallible a }
    ensures pools_come { (a : Both) → ⟦<PoolTableDimension as Clone>⟧.is_infallible a }
    ensures constant_comes { (a : ConstWidth COLUMNS) → ⟦<ConstSize<COLUMNS> as Clone>⟧.is_infallible a }
    ensures constants_come { (a : ConstWidth COLUMNS × ConstWidth ROWS) → ⟦<ConstDimension<COLUMNS, ROWS> as Clone>⟧.is_infallible a }
    ensures zeros_come { (a : Zero) → ⟦<ZeroDimension as Clone>⟧.is_infallible a }
{}
