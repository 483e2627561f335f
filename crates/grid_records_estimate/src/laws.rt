//! Laws of the definitions that the other contracts cite.
ghost use Rattle.std.specs.Prelude.{◌≡◌, ◌<◌, ◌⊎◌, ◌↔◌, IsTrue, ℕ, List, length, [], ◌∷◌, true, false, slice_index};
ghost use Rattle.grid_config.specs.Compact.{Compact as CompactSettings, compact_of};
ghost use Rattle.grid_config.specs.Looks.{compact_look, look_of};
ghost use Rattle.grid_config.specs.Settings.{Settings as TableSettings, StartsWith, compact_start};
ghost use Rattle.grid_config.specs.declared.compact.CompactConfig.{CompactConfig as CompactStored};
ghost use Rattle.grid_config_values.specs.Spans.Spans.{IsVisible};
ghost use Rattle.grid_config_values.specs.declared.spans.extent.Extent.{Extent};
ghost use Rattle.grid_config_values.specs.declared.position.Position.{Position as CellPosition};
ghost use Rattle.grid_config_values.specs.declared.sides.Indent.{Indent};
ghost use Rattle.grid_config_values.specs.declared.sides.Sides.{Sides};
ghost use Rattle.grid_records_traits.specs.Rows.{evened};
ghost use Rattle.grid_records_traits.specs.TextLines.{text_height, text_width};
ghost use Rattle.grid_records_estimate.specs.Alike.{AreAlike, HaveSameSizes};
ghost use Rattle.grid_records_estimate.specs.Estimates.{TrackNeeds, track_sizes};
ghost use Rattle.grid_records_estimate.specs.Collecting.{PassesMax};
ghost use Rattle.grid_records_estimate.specs.Kept.{LeastSizes, least_sizes};
ghost use Rattle.grid_records_estimate.specs.Room.{LeaveRoom};
ghost use Rattle.grid_records_estimate.specs.Sizes.{table_heights, table_widths};
ghost use Rattle.grid_records_estimate.specs.Sizing.{TableSizing, around_height, around_width, column_needs, compact_sizing, height_need, is_visible, row_needs, sizing_of, width_need};
ghost use Rattle.grid_records_estimate.specs.Totals.{total};
ghost use Rattle.grid_records_estimate.specs.Worked.{table};

use crate::dimension::GridDimension;
use crate::estimate::Estimate;
use crate::sizing::Sizing;
use grid_config::{CompactConfig, SpannedConfig};
use grid_records_traits::{Dimension, Records};

/// Estimates that were worked out by hand:
/// - a span of two over two, with a boundary between them; a remainder;
/// - a span that reaches out of the table, and one with a single column left;
/// - two spans that overlap; a short one after a long one; two over the same tracks;
/// - cells of one column, and hidden ones; no rows.
#[tactic(auto, unfolding(crate::specs::Estimates::track_sizes))]
pub fn worked_estimates()
    ensures shared { track_sizes (table true 2 (((2, 8) ∷ (0, 0) ∷ []) ∷ ((1, 1) ∷ (1, 1) ∷ []) ∷ [])) ≡ 4 ∷ 3 ∷ [] }
    ensures remainder { track_sizes (table false 3 (((3, 2) ∷ (0, 0) ∷ (0, 0) ∷ []) ∷ [])) ≡ 2 ∷ 0 ∷ 0 ∷ [] }
    ensures clipped { track_sizes (table false 3 (((3, 6) ∷ (0, 0) ∷ (0, 0) ∷ []) ∷ ((1, 0) ∷ (4, 5) ∷ (0, 0) ∷ []) ∷ [])) ≡ 1 ∷ 3 ∷ 2 ∷ [] }
    ensures one_left { track_sizes (table true 2 (((1, 1) ∷ (3, 7) ∷ []) ∷ [])) ≡ 1 ∷ 7 ∷ [] }
    ensures overlapping { track_sizes (table false 3 (((2, 4) ∷ (0, 9) ∷ (1, 1) ∷ []) ∷ ((1, 1) ∷ (2, 5) ∷ (0, 9) ∷ []) ∷ [])) ≡ 3 ∷ 3 ∷ 2 ∷ [] }
    ensures shorter_first { track_sizes (table false 3 (((3, 9) ∷ (0, 0) ∷ (0, 0) ∷ []) ∷ ((1, 0) ∷ (2, 6) ∷ (0, 0) ∷ []) ∷ [])) ≡ 1 ∷ 4 ∷ 4 ∷ [] }
    ensures greatest { track_sizes (table true 2 (((1, 3) ∷ (1, 1) ∷ []) ∷ ((1, 2) ∷ (0, 9) ∷ []) ∷ [])) ≡ 3 ∷ 1 ∷ [] }
    ensures by_cross_track { track_sizes (table false 2 (((2, 3) ∷ (0, 0) ∷ []) ∷ ((2, 4) ∷ (0, 0) ∷ []) ∷ [])) ≡ 3 ∷ 1 ∷ [] }
    ensures greater_first { track_sizes (table false 2 (((2, 4) ∷ (0, 0) ∷ []) ∷ ((2, 3) ∷ (0, 0) ∷ []) ∷ [])) ≡ 2 ∷ 2 ∷ [] }
    ensures no_rows { track_sizes (table true 2 []) ≡ [] }
{}

/// Totals that were worked out by hand.
pub fn worked_totals()
    ensures with_margins { total (4 ∷ 3 ∷ []) 3 1 2 ≡ 13 }
    ensures empty { total [] 1 5 6 ≡ 0 }
{}

/// What a cell needs, worked out by hand: of a text of 4 columns between paddings of 1 and 2, and of one of 2 lines
/// between paddings of 3 and 4; and those paddings alone.
pub fn needs_by_hand()
    ensures width { (sizing : TableSizing) (place : CellPosition) (text : List ℕ) → text_width text ≡ 4 →
        (sizing.padding place).left.size ≡ 1 → (sizing.padding place).right.size ≡ 2 → width_need sizing place text ≡ 7 }
    ensures height { (sizing : TableSizing) (place : CellPosition) (text : List ℕ) → text_height text ≡ 2 →
        (sizing.padding place).top.size ≡ 3 → (sizing.padding place).bottom.size ≡ 4 → height_need sizing place text ≡ 9 }
    ensures sides { (padding : Sides Indent) → padding.left.size ≡ 1 → padding.right.size ≡ 2 → around_width padding ≡ 3 }
    ensures ends { (padding : Sides Indent) → padding.top.size ≡ 3 → padding.bottom.size ≡ 4 → around_height padding ≡ 7 }
{}

/// Sizes and spans see the same cells: the test by which sizes are worked out is true of exactly the cells
/// that no other cell's rectangle holds.
pub fn sizes_see_what_spans_see()
    ensures { (spans : List (CellPosition × Extent)) (place : CellPosition) → IsTrue (is_visible spans place) ↔ IsVisible spans place }
{}

/// An estimate of a table with rows has a width for each column, and one of a table with columns a height
/// for each row.
pub fn estimates_have_a_size_for_each()
    ensures widths { (sizing : TableSizing) (columns : ℕ) (rows : List (List (List ℕ))) → 0 < length rows → length (table_widths sizing columns rows) ≡ columns }
    ensures heights { (sizing : TableSizing) (columns : ℕ) (rows : List (List (List ℕ))) → 0 < columns → length (table_heights sizing columns rows) ≡ length rows }
{}

/// The least sizes of a table leave each of its visible cells the size that it needs: the tracks that
/// the cell takes, and the boundaries between them, are together no less.
pub fn sizes_leave_room()
    ensures tracks { (track_needs : TrackNeeds) → LeaveRoom track_needs (track_sizes track_needs) }
    ensures widths { (sizing : TableSizing) (columns : ℕ) (rows : List (List (List ℕ))) →
        LeaveRoom (column_needs sizing columns (evened columns rows)) (table_widths sizing columns rows) }
    ensures heights { (sizing : TableSizing) (columns : ℕ) (rows : List (List (List ℕ))) →
        LeaveRoom (row_needs sizing columns (evened columns rows)) (table_heights sizing columns rows) }
{}

/// An estimate of a table keeps its least sizes, whatever was kept before. It is refused as out of range only
/// where one of them passes the greatest `usize`. Kept sizes are read by their numbers.
pub fn estimates_keep_the_least_sizes<R: Records, C: Sizing>()
    ensures kept { (records : R) (cfg : C) (before after : LeastSizes) →
        ⟦<GridDimension<C> as Estimate<R, C>>⟧.is_estimate records cfg before after → after ≡ least_sizes (C.sizing cfg) (R.columns records) (R.rows records) }
    ensures range { (records : R) (cfg : C) (before : LeastSizes) → ⟦<GridDimension<C> as Estimate<R, C>>⟧.passes records cfg before →
        PassesMax (table_widths (C.sizing cfg) (R.columns records) (R.rows records)) ⊎ PassesMax (table_heights (C.sizing cfg) (R.columns records) (R.rows records)) }
    ensures width { (sizes : LeastSizes) (column : ℕ) → ⟦<GridDimension<C> as Dimension>⟧.width sizes column ≡ slice_index sizes.widths column }
    ensures height { (sizes : LeastSizes) (row : ℕ) → ⟦<GridDimension<C> as Dimension>⟧.height sizes row ≡ slice_index sizes.heights row }
{}

/// The sizes and the totals of a table follow from the look of its settings alone: from what they say of
/// each cell, and not from the order or the form in which spans and paddings are kept.
pub fn sizes_follow_from_looks()
    ensures cells { (a b : TableSizing) → AreAlike a b → HaveSameSizes a b }
    ensures settings { (a b : TableSettings) → look_of a ≡ look_of b → HaveSameSizes (sizing_of a) (sizing_of b) }
    ensures compact { (settings : TableSettings) (compact : CompactSettings) →
        look_of settings ≡ compact_look compact → HaveSameSizes (sizing_of settings) (compact_sizing compact) }
{}

/// A compact table has the sizes and the totals of a table whose settings begin as the compact ones do. The
/// settings that `SpannedConfig::from_compact_config` makes of them begin so.
pub fn compact_settings_give_the_same_sizes()
    ensures { (compact : CompactSettings) (settings : TableSettings) →
        StartsWith (compact_start compact) settings → HaveSameSizes (sizing_of settings) (compact_sizing compact) }
{}

/// What sizes read of the settings of a table, and of a compact one.
pub fn settings_are_read_as_they_stand()
    ensures spanned { (settings : TableSettings) → ⟦<SpannedConfig as Sizing>⟧.sizing settings ≡ sizing_of settings }
    ensures compact { (settings : CompactStored) → ⟦<CompactConfig as Sizing>⟧.sizing settings ≡ compact_sizing (compact_of settings) }
{}
