//! Settings of cells that have no option of their own.
ghost use Rattle.std.specs.Prelude.{◌≡◌, IsOk, Some};
ghost use Rattle.grid_config_values.specs.declared.entity.Entity.TheVariants.{Global as EveryCell};
ghost use Rattle.tabled_list.specs.Looks.{with_cell_setting};
ghost use Rattle.tabled_steps.specs.States.{StepsTo, colored_state, looking};
ghost use Rattle.tabled_size.specs.Dimension.Stored.{Stored};

use grid_config::{AlignmentHorizontal, AlignmentVertical, ColoredConfig, Entity, Fault};
use grid_records_traits::records::RecordTexts;
use std::alloc::Global;
use tabled_steps::CellOption;

/// A setting of cells, by its setter.
#[derive(Clone, Copy)]
pub(crate) enum CellSetting {
    AlignHorizontal(AlignmentHorizontal),
    AlignVertical(AlignmentVertical),
    LineAlignment(bool),
    TrimHorizontal(bool),
    TrimVertical(bool),
    Justification(char),
}

/// Sets it. Fails only where allocation fails, and for all cells never.
impl<R: RecordTexts> CellOption<R, ColoredConfig> for CellSetting {
    ghost step = { λ setting at state outcome. looking (with_cell_setting setting at) state ≡ outcome };

    ghost hint = { λ _. Some EveryCell };

    fn change(
        &self,
        _alloc: Global,
        records: &mut R,
        cfg: &mut ColoredConfig,
        entity: Entity,
    ) -> Result<(), Fault>
        ensures all_cells { entity ≡ EveryCell → IsOk result }
        ensures step { (sizes : Stored) → StepsTo (looking (with_cell_setting self.now entity)) result
            (colored_state (R.rows records.old) cfg.old sizes) (colored_state (R.rows records.new) cfg.new sizes) }
    {
        let config = cfg.spanned_mut();
        match *self {
            CellSetting::AlignHorizontal(value) => config.set_alignment_horizontal(entity, value),
            CellSetting::AlignVertical(value) => config.set_alignment_vertical(entity, value),
            CellSetting::LineAlignment(on) => config.set_line_alignment(entity, on),
            CellSetting::TrimHorizontal(on) => config.set_trim_horizontal(entity, on),
            CellSetting::TrimVertical(on) => config.set_trim_vertical(entity, on),
            CellSetting::Justification(fill) => config.set_justification(entity, fill),
        }
    }

    fn hint_change(&self) -> Option<Entity> {
        Some(Entity::Global)
    }
}
