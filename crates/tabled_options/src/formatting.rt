//! How the lines of texts are trimmed and aligned.
ghost use Rattle.std.specs.Prelude.{◌≡◌, IsOk, Some};
ghost use Rattle.grid_config_values.specs.declared.entity.Entity.TheVariants.{Global as EveryCell};
ghost use Rattle.tabled_options.specs.Formatting.{with_strategy, with_trim};
ghost use Rattle.tabled_steps.specs.States.{StepsTo, colored_state, looking};
ghost use Rattle.tabled_steps.specs.Stored.{Stored};

use grid_config::{ColoredConfig, Entity, Fault};
use grid_records_traits::records::RecordTexts;
use std::alloc::Global;
use tabled_steps::{CellOption, KeptSizes, TableOption};

/// What is aligned in a cell.
#[derive(Clone, Copy, Debug, PartialEq, Eq)]
pub enum AlignmentStrategy {
    /// The text as a block, as wide as its widest line.
    PerCell,
    /// Each line by itself.
    PerLine,
}

/// What is left out of texts where they are shown. Each leaves the other as it is; a `Setting` of a list turns
/// one off again.
#[derive(Clone, Copy, Debug, PartialEq, Eq)]
pub enum TrimStrategy {
    /// White space at both ends of each line.
    Horizontal,
    /// Lines of nothing but white space at both ends of a text.
    Vertical,
}

/// Sets what is aligned in the cells. Fails only where allocation fails, and for all cells never.
impl<R: RecordTexts> CellOption<R, ColoredConfig> for AlignmentStrategy {
    ghost step = { λ strategy at state outcome. looking (with_strategy strategy at) state ≡ outcome };

    ghost hint = { λ _. Some EveryCell };

    fn change(
        &self,
        _alloc: Global,
        records: &mut R,
        cfg: &mut ColoredConfig,
        entity: Entity,
    ) -> Result<(), Fault>
        ensures all_cells { entity ≡ EveryCell → IsOk result }
        ensures step { (sizes : Stored) → StepsTo (looking (with_strategy self.now entity)) result
            (colored_state (R.rows records.old) cfg.old sizes) (colored_state (R.rows records.new) cfg.new sizes) }
    {
        match self {
            AlignmentStrategy::PerCell => cfg.spanned_mut().set_line_alignment(entity, false),
            AlignmentStrategy::PerLine => cfg.spanned_mut().set_line_alignment(entity, true),
        }
    }

    fn hint_change(&self) -> Option<Entity> {
        Some(Entity::Global)
    }
}

/// Sets what is aligned in all cells. Does not allocate.
impl<R: RecordTexts, D: KeptSizes> TableOption<R, ColoredConfig, D> for AlignmentStrategy {
    ghost step = { λ strategy state outcome. looking (with_strategy strategy EveryCell) state ≡ outcome };

    ghost hint = { λ _. Some EveryCell };

    fn change(
        self,
        alloc: Global,
        records: &mut R,
        cfg: &mut ColoredConfig,
        dims: &mut D,
    ) -> Result<(), Fault>
        ensures answers { IsOk result }
        ensures step { StepsTo (looking (with_strategy self EveryCell)) result
            (colored_state (R.rows records.old) cfg.old (D.sizes dims.old)) (colored_state (R.rows records.new) cfg.new (D.sizes dims.new)) }
    {
        CellOption::<R, ColoredConfig>::change(&self, alloc, records, cfg, Entity::Global)
    }

    fn hint_change(&self) -> Option<Entity> {
        Some(Entity::Global)
    }
}

/// Sets that this is left out of the cells. Fails only where allocation fails, and for all cells never.
impl<R: RecordTexts> CellOption<R, ColoredConfig> for TrimStrategy {
    ghost step = { λ strategy at state outcome. looking (with_trim strategy at) state ≡ outcome };

    ghost hint = { λ _. Some EveryCell };

    fn change(
        &self,
        _alloc: Global,
        records: &mut R,
        cfg: &mut ColoredConfig,
        entity: Entity,
    ) -> Result<(), Fault>
        ensures all_cells { entity ≡ EveryCell → IsOk result }
        ensures step { (sizes : Stored) → StepsTo (looking (with_trim self.now entity)) result
            (colored_state (R.rows records.old) cfg.old sizes) (colored_state (R.rows records.new) cfg.new sizes) }
    {
        match self {
            TrimStrategy::Horizontal => cfg.spanned_mut().set_trim_horizontal(entity, true),
            TrimStrategy::Vertical => cfg.spanned_mut().set_trim_vertical(entity, true),
        }
    }

    fn hint_change(&self) -> Option<Entity> {
        Some(Entity::Global)
    }
}

/// Sets that this is left out of all cells. Does not allocate.
impl<R: RecordTexts, D: KeptSizes> TableOption<R, ColoredConfig, D> for TrimStrategy {
    ghost step = { λ strategy state outcome. looking (with_trim strategy EveryCell) state ≡ outcome };

    ghost hint = { λ _. Some EveryCell };

    fn change(
        self,
        alloc: Global,
        records: &mut R,
        cfg: &mut ColoredConfig,
        dims: &mut D,
    ) -> Result<(), Fault>
        ensures answers { IsOk result }
        ensures step { StepsTo (looking (with_trim self EveryCell)) result
            (colored_state (R.rows records.old) cfg.old (D.sizes dims.old)) (colored_state (R.rows records.new) cfg.new (D.sizes dims.new)) }
    {
        CellOption::<R, ColoredConfig>::change(&self, alloc, records, cfg, Entity::Global)
    }

    fn hint_change(&self) -> Option<Entity> {
        Some(Entity::Global)
    }
}
