//! The colour of cells, which has no option of its own.
ghost use Rattle.std.specs.Prelude.{◌≡◌, IsOk, Some};
ghost use Rattle.grid_config_values.specs.declared.entity.Entity.TheVariants.{Global as EveryCell};
ghost use Rattle.tabled_list.specs.Settings.{coloring};
ghost use Rattle.tabled_steps.specs.States.{StepsTo, colored_state};

use grid_config::{ANSIBuf, ColoredConfig, Entity, Fault};
use grid_records_traits::records::RecordTexts;
use std::alloc::Global;
use tabled_steps::{KeptSizes, TableOption};

/// A colour of cells.
#[derive(Drop)]
pub(crate) struct Colored {
    pub(crate) at: Entity,
    pub(crate) color: ANSIBuf,
}

/// Sets it. Fails only where allocation fails, and for all cells never.
impl<R: RecordTexts, D: KeptSizes> TableOption<R, ColoredConfig, D> for Colored {
    ghost step = { λ option state outcome. coloring option.at option.color state ≡ outcome };

    ghost hint = { λ _. Some EveryCell };

    fn change(
        self,
        _alloc: Global,
        records: &mut R,
        cfg: &mut ColoredConfig,
        dims: &mut D,
    ) -> Result<(), Fault>
        ensures all_cells { self.at ≡ EveryCell → IsOk result }
        ensures step { StepsTo (coloring self.at self.color) result
            (colored_state (R.rows records.old) cfg.old (D.sizes dims.old)) (colored_state (R.rows records.new) cfg.new (D.sizes dims.new)) }
    {
        cfg.set_color(self.at, self.color)
    }

    fn hint_change(&self) -> Option<Entity> {
        Some(Entity::Global)
    }
}
