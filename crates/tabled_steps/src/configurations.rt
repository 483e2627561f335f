//! Whole settings as options of a table.
ghost use Rattle.std.specs.Prelude.{◌≡◌, IsOk, Ok, Some};
ghost use Rattle.grid_config_values.specs.declared.entity.Entity.TheVariants.{Global as EveryCell};
ghost use Rattle.grid_config_values.specs.Settings.{value_at};
ghost use Rattle.grid_config.specs.Compact.{compact_of};
ghost use Rattle.grid_config.specs.Looks.{compact_look, look_of};
ghost use Rattle.grid_config.specs.Settings.{IsUncolored};
ghost use Rattle.tabled_steps.specs.States.{StepsTo, colored_state, looking};

use crate::configuration::KeptSizes;
use crate::option::TableOption;
use grid_config::{ColoredConfig, CompactConfig, Entity, Fault, SpannedConfig};
use grid_records_traits::records::RecordTexts;
use std::alloc::Global;
use std::mem;

// Lets a value go that has many parts: dropping it in place would be proved part by part.
fn let_go<T: Drop>(_value: T) {}

/// Replaces all settings but the colours of the cells. Fails only where allocation fails, and not where no margin,
/// padding or border of the new settings has a colour with text.
impl<R: RecordTexts, D: KeptSizes> TableOption<R, ColoredConfig, D> for CompactConfig {
    ghost step = { λ config state outcome. looking (λ _. compact_look (compact_of config)) state ≡ outcome };

    ghost hint = { λ _. Some EveryCell };

    fn change(
        self,
        alloc: Global,
        records: &mut R,
        cfg: &mut ColoredConfig,
        dims: &mut D,
    ) -> Result<(), Fault>
        ensures answers { IsUncolored (compact_of self) → IsOk result }
        ensures step { StepsTo (looking (λ _. compact_look (compact_of self))) result
            (colored_state (R.rows records.old) cfg.old (D.sizes dims.old)) (colored_state (R.rows records.new) cfg.new (D.sizes dims.new)) }
    {
        let config = SpannedConfig::from_compact_config(alloc, self)?;
        let_go(mem::replace(cfg.spanned_mut(), config));
        Ok(())
    }

    fn hint_change(&self) -> Option<Entity> {
        Some(Entity::Global)
    }
}

/// Replaces all settings but the colours of the cells. Does not allocate.
impl<R: RecordTexts, D: KeptSizes> TableOption<R, ColoredConfig, D> for SpannedConfig {
    ghost step = { λ settings state outcome. looking (λ _. look_of settings) state ≡ outcome };

    ghost hint = { λ _. Some EveryCell };

    fn change(
        self,
        _alloc: Global,
        records: &mut R,
        cfg: &mut ColoredConfig,
        dims: &mut D,
    ) -> Result<(), Fault>
        ensures answers { IsOk result }
        ensures step { StepsTo (looking (λ _. look_of self)) result
            (colored_state (R.rows records.old) cfg.old (D.sizes dims.old)) (colored_state (R.rows records.new) cfg.new (D.sizes dims.new)) }
    {
        let_go(mem::replace(cfg.spanned_mut(), self));
        Ok(())
    }

    fn hint_change(&self) -> Option<Entity> {
        Some(Entity::Global)
    }
}

/// The same by a clone. Fails only where allocation fails.
impl<'a, R: RecordTexts, D: KeptSizes> TableOption<R, ColoredConfig, D> for &'a SpannedConfig {
    ghost step = { λ settings state outcome. looking (λ _. look_of settings.now) state ≡ outcome };

    ghost hint = { λ _. Some EveryCell };

    fn change(
        self,
        alloc: Global,
        _records: &mut R,
        cfg: &mut ColoredConfig,
        _dims: &mut D,
    ) -> Result<(), Fault> {
        let config = self.clone(alloc)?;
        let_go(mem::replace(cfg.spanned_mut(), config));
        Ok(())
    }

    fn hint_change(&self) -> Option<Entity> {
        Some(Entity::Global)
    }
}

/// Replaces all settings and the colours of the cells. Does not allocate.
impl<R: RecordTexts, D: KeptSizes> TableOption<R, ColoredConfig, D> for ColoredConfig {
    ghost step = { λ config state outcome. Ok (record state { look = look_of config.settings; colors = value_at config.colors }) ≡ outcome };

    ghost hint = { λ _. Some EveryCell };

    fn change(
        self,
        _alloc: Global,
        records: &mut R,
        cfg: &mut ColoredConfig,
        dims: &mut D,
    ) -> Result<(), Fault>
        ensures answers { IsOk result }
        ensures step { StepsTo (λ state. Ok (record state { look = look_of self.settings; colors = value_at self.colors })) result
            (colored_state (R.rows records.old) cfg.old (D.sizes dims.old)) (colored_state (R.rows records.new) cfg.new (D.sizes dims.new)) }
    {
        let_go(mem::replace(cfg, self));
        Ok(())
    }

    fn hint_change(&self) -> Option<Entity> {
        Some(Entity::Global)
    }
}
