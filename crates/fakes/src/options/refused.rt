//! Options and sizes that are refused.
ghost use Rattle.std.specs.Prelude.{◌≡◌, Err, Ok, Some};
ghost use Rattle.grid_config_values.specs.declared.entity.Entity.TheVariants.{Global as EveryCell};
ghost use Rattle.grid_config_values.specs.declared.fault.Fault.TheVariants.{Range as PassesMax};

use grid_config::{Entity, Fault, SpannedConfig};
use grid_records_traits::RecordTexts;
use grid_records_traits::records::{ExactRecords, PeekableRecords};
use std::alloc::Global;
use tabled_steps::{CellOption, Configuration, KeptSizes, Measurement, TableOption};

/// It changes nothing, and is refused as out of range: as an option of a table, as one of its cells, and as
/// a size.
#[derive(Clone, Copy, Debug)]
pub struct OutOfRange;

impl<R: RecordTexts, C: Configuration, D: KeptSizes> TableOption<R, C, D> for OutOfRange {
    ghost step = { λ _ _ outcome. Err PassesMax ≡ outcome };

    ghost hint = { λ _. Some EveryCell };

    fn change(
        self,
        _alloc: Global,
        _records: &mut R,
        _cfg: &mut C,
        _dims: &mut D,
    ) -> Result<(), Fault> {
        Err(Fault::Range)
    }

    fn hint_change(&self) -> Option<Entity> {
        Some(Entity::Global)
    }
}

impl<R: RecordTexts, C: Configuration> CellOption<R, C> for OutOfRange {
    ghost step = { λ _ _ _ outcome. Err PassesMax ≡ outcome };

    ghost hint = { λ _. Some EveryCell };

    fn change(
        &self,
        _alloc: Global,
        _records: &mut R,
        _cfg: &mut C,
        _entity: Entity,
    ) -> Result<(), Fault> {
        Err(Fault::Range)
    }

    fn hint_change(&self) -> Option<Entity> {
        Some(Entity::Global)
    }
}

impl<A> Measurement<A> for OutOfRange {
    ghost measures = { λ _ _ _ _ outcome. Err PassesMax ≡ outcome };

    fn measure<R: ExactRecords + PeekableRecords>(
        &self,
        _alloc: Global,
        _records: &R,
        _cfg: &SpannedConfig,
    ) -> Result<usize, Fault> {
        Err(Fault::Range)
    }
}

/// It changes nothing, and is refused as an option of a table, as if allocation failed.
#[derive(Clone, Copy, Debug)]
pub struct OutOfMemory;

impl<R: RecordTexts, C: Configuration, D: KeptSizes> TableOption<R, C, D> for OutOfMemory {
    ghost step = { λ _ state outcome. Ok state ≡ outcome };

    ghost hint = { λ _. Some EveryCell };

    fn change(
        self,
        _alloc: Global,
        _records: &mut R,
        _cfg: &mut C,
        _dims: &mut D,
    ) -> Result<(), Fault> {
        Err(Fault::Memory)
    }

    fn hint_change(&self) -> Option<Entity> {
        Some(Entity::Global)
    }
}
