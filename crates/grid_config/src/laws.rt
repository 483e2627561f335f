//! Laws of the definitions that the other contracts cite.

ghost use Rattle.std.specs.Prelude.{◌≡◌, ◌↔◌, IsTrue};
ghost use Rattle.std.specs.declared.cmp.Ordering.TheVariants.{Equal};
ghost use Rattle.grid_config.specs.declared.compact.CompactConfig.{CompactConfig as CompactSettings};
ghost use Rattle.grid_config.specs.Compact.{Compact, compact_of};
ghost use Rattle.grid_config.specs.Equality.{compared, equal};
ghost use Rattle.grid_config.specs.Looks.{compact_look, look_of};
ghost use Rattle.grid_config.specs.Settings.{Settings, StartsWith, compact_start};

pub use crate::colors::laws::{
    clones_of_colors_have_the_same_texts, color_faults_are_compared_cloned_and_printed_whole,
    equal_colors_have_the_same_texts, one_meaning,
};
use crate::compact::CompactConfig;
pub use grid_config_values::laws::{
    boundaries_by_name, cells_come_in_their_order, clones_are_never_refused, clones_are_the_same,
    clones_of_parts_are_the_same, equal_values_are_the_same, equality_compares_all_parts,
    faults_are_printed_whole, indents_begin_empty, ordered_sides_are_the_same,
    positions_go_by_rows, refused_growth_is_memory, the_last_call_decides,
};
pub use grid_config_values::spans::laws::{
    equal_extents_are_the_same, good_spans_part_the_table, owners_part_the_table,
    visible_cells_own_themselves, without_spans_all_is_visible,
};

/// `==` of the settings of compact tables is equality of all seven values, and `cmp` finds the same ones equal.
pub fn equal_settings_are_the_same()
    ensures equality { (a b : CompactSettings) → IsTrue (equal a b) ↔ (compact_of a ≡ compact_of b) }
    ensures order { (a b : CompactSettings) → (compared a b ≡ Equal) ↔ (compact_of a ≡ compact_of b) }
{}

/// Settings that start as those of a compact table look as they do.
pub fn compact_settings_look_the_same()
    ensures { (compact : Compact) (settings : Settings) → StartsWith (compact_start compact) settings →
        look_of settings ≡ compact_look compact }
{}

/// A clone of the settings of a compact table has all seven values, and is never refused.
pub fn clones_of_settings_are_the_same()
    ensures clone { (source clone : CompactSettings) → ⟦<CompactConfig as Clone>⟧.is_clone source clone → compact_of clone ≡ compact_of source }
    ensures comes { (source : CompactSettings) → ⟦<CompactConfig as Clone>⟧.is_infallible source }
{}
