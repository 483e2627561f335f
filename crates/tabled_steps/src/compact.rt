//! Settings that are the same for all cells, as options see them, and whole such settings as an option.
ghost use Rattle.std.specs.Prelude.{◌≡◌, IsOk, None, Some};
ghost use Rattle.grid_config.specs.Compact.{compact_of};
ghost use Rattle.grid_config.specs.Looks.{compact_look};
ghost use Rattle.grid_config_values.specs.declared.entity.Entity.TheVariants.{Global as EveryCell};
ghost use Rattle.tabled_size.specs.Dimension.Stored.{none_stored};
ghost use Rattle.tabled_steps.specs.States.{StepsTo, compact_state, looking};

use crate::configuration::{Configuration, KeptSizes};
use crate::option::TableOption;
use grid_config::{CompactConfig, Entity, Fault};
use grid_records_traits::records::RecordTexts;
use std::alloc::Global;
use tabled_size::ZeroDimension;

/// All cells have the same settings, and none a colour.
impl Configuration for CompactConfig {
    ghost look = { λ config. compact_look (compact_of config) };

    ghost colors = { λ _ _. None };
}

/// No size is kept.
impl KeptSizes for ZeroDimension {
    ghost sizes = { λ _. none_stored };
}

/// Replaces all settings. Does not allocate.
impl<R: RecordTexts, D: KeptSizes> TableOption<R, CompactConfig, D> for CompactConfig {
    ghost step = { λ config state outcome. looking (λ _. compact_look (compact_of config)) state ≡ outcome };

    ghost hint = { λ _. Some EveryCell };

    fn change(
        self,
        _alloc: Global,
        records: &mut R,
        cfg: &mut CompactConfig,
        dims: &mut D,
    ) -> Result<(), Fault>
        ensures answers { IsOk result }
        ensures step { StepsTo (looking (λ _. compact_look (compact_of self))) result
            (compact_state (R.rows records.old) (compact_of cfg.old) (D.sizes dims.old)) (compact_state (R.rows records.new) (compact_of cfg.new) (D.sizes dims.new)) }
    {
        *cfg = self;
        Ok(())
    }

    fn hint_change(&self) -> Option<Entity> {
        Some(Entity::Global)
    }
}
