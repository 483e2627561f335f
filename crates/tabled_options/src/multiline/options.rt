//! Options of tables of boxes whose cells are all alike.
ghost use Rattle.std.specs.Prelude.{◌≡◌, IsOk, None, Ok, Some};
ghost use Rattle.grid_config_values.specs.declared.entity.Entity.TheVariants.{Global as EveryCell};
ghost use Rattle.tabled_options.specs.Multiline.Multiline.{multiline_look, multiline_of, multiline_state};
ghost use Rattle.tabled_options.specs.Multiline.Takers.{takers_for_options};
ghost use Rattle.tabled_steps.specs.States.{StepsTo, looking};

use crate::FrameSettings;
use crate::multiline::config::CompactMultilineConfig;
use grid_config::{Borders, Entity, Fault, Indent, Sides};
use grid_records::EmptyRecords;
use grid_records_traits::records::RecordTexts;
use std::alloc::Global;
use tabled_size::PoolTableDimension;
use tabled_steps::{Configuration, KeptSizes, TableOption};

/// All cells have the same settings, and none a colour.
impl Configuration for CompactMultilineConfig {
    ghost look = { λ config. multiline_look (multiline_of config) };

    ghost colors = { λ _ _. None };
}

/// What options of a table of nested boxes change of its sizes: who takes what is left over.
#[derive(Clone, Copy, Debug)]
pub struct PoolSizes {
    pub dimension: PoolTableDimension,
}

/// No size is kept, but who takes what is left over.
impl KeptSizes for PoolSizes {
    ghost sizes = { λ sizes. takers_for_options sizes.dimension };
}

impl FrameSettings for CompactMultilineConfig {
    fn put_margin(&mut self, margin: Sides<Indent>) {
        self.set_margin(margin);
    }

    fn put_padding(&mut self, padding: Sides<Indent>) -> Result<(), Fault> {
        self.set_padding(padding);
        Ok(())
    }

    fn put_borders(&mut self, borders: Borders<char>) {
        self.set_borders(borders);
    }
}

/// Replaces all settings. Does not allocate.
impl<D: KeptSizes> TableOption<EmptyRecords, CompactMultilineConfig, D> for CompactMultilineConfig {
    ghost step = { λ option state outcome. looking (λ _. multiline_look (multiline_of option)) state ≡ outcome };

    ghost hint = { λ _. Some EveryCell };

    fn change(
        self,
        _alloc: Global,
        records: &mut EmptyRecords,
        cfg: &mut CompactMultilineConfig,
        dims: &mut D,
    ) -> Result<(), Fault>
        ensures answers { IsOk result }
        ensures step { StepsTo (looking (λ _. multiline_look (multiline_of self))) result
            (multiline_state (⟦<EmptyRecords as RecordTexts>⟧.rows records.old) (multiline_of cfg.old) (D.sizes dims.old))
            (multiline_state (⟦<EmptyRecords as RecordTexts>⟧.rows records.new) (multiline_of cfg.new) (D.sizes dims.new)) }
    {
        *cfg = self;
        Ok(())
    }

    fn hint_change(&self) -> Option<Entity> {
        Some(Entity::Global)
    }
}

/// Replaces who takes what is left over. Does not allocate.
impl TableOption<EmptyRecords, CompactMultilineConfig, PoolSizes> for PoolTableDimension {
    ghost step = { λ takers state outcome. Ok (record state { sizes = takers_for_options takers }) ≡ outcome };

    ghost hint = { λ _. Some EveryCell };

    fn change(
        self,
        _alloc: Global,
        records: &mut EmptyRecords,
        cfg: &mut CompactMultilineConfig,
        dims: &mut PoolSizes,
    ) -> Result<(), Fault>
        ensures answers { IsOk result }
        ensures step { StepsTo (λ state. Ok (record state { sizes = takers_for_options self })) result
            (multiline_state (⟦<EmptyRecords as RecordTexts>⟧.rows records.old) (multiline_of cfg.old) (takers_for_options dims.old.dimension))
            (multiline_state (⟦<EmptyRecords as RecordTexts>⟧.rows records.new) (multiline_of cfg.new) (takers_for_options dims.new.dimension)) }
    {
        dims.dimension = self;
        Ok(())
    }

    fn hint_change(&self) -> Option<Entity> {
        Some(Entity::Global)
    }
}
