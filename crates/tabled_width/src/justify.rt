//! Cells that are all as wide.
ghost use Rattle.std.specs.Prelude.{◌≡◌, Some};
ghost use Rattle.grid_config_values.specs.declared.entity.Entity.TheVariants.{Global as EveryCell};
ghost use Rattle.tabled_steps.specs.Changes.{changing};
ghost use Rattle.tabled_width_texts.specs.WrappedOrCut.{justifying};
ghost use Rattle.tabled_width.specs.Options.{justified_width};
ghost use Rattle.tabled_width.specs.WholeTables.Steps.{Measured};

use crate::tables::change_cells;
use crate::width::Width;
use grid_config::{ColoredConfig, Entity, Fault};
use grid_records::{FromText, VecRecords};
use std::alloc::Global;
use tabled_size::CompleteDimension;
use tabled_steps::{Max, Measurement, Min, TableOption};
use tabled_width_texts::Justifying;

/// Makes each cell of a table as wide: what is narrower is filled with spaces, and what is wider then is
/// cut.
#[derive(Clone, Copy, Debug, PartialEq, Eq, PartialOrd, Ord)]
pub struct Justify<W> {
    width: W,
}

impl<W> Justify<W> {
    /// To this width.
    pub fn new(width: W) -> Justify<W>
        ensures { justified_width result ≡ width }
    {
        Justify { width }
    }
}

impl Justify<Max> {
    /// To the greatest measure of a cell.
    pub fn max() -> Justify<Max> {
        Justify::new(Max)
    }
}

impl Justify<Min> {
    /// To the greatest over the rows of a row's least measure.
    pub fn min() -> Justify<Min> {
        Justify::new(Min)
    }
}

/// Fills, and then cuts, each cell. Refused as the measurement is, and as `Memory` where allocation fails.
impl<T: FromText, W: Measurement<Width> + Drop> TableOption<
    VecRecords<T>,
    ColoredConfig,
    CompleteDimension,
> for Justify<W> {
    ghost step = { λ option. Measured (W.measures (justified_width option)) (λ width state outcome. changing (λ _. justifying width) EveryCell state ≡ outcome) };

    ghost hint = { λ _. Some EveryCell };

    fn change(
        self,
        alloc: Global,
        records: &mut VecRecords<T>,
        cfg: &mut ColoredConfig,
        _dims: &mut CompleteDimension,
    ) -> Result<(), Fault> {
        let width = self.width.measure(alloc, records, cfg.spanned())?;
        change_cells(alloc, records, Entity::Global, width, &Justifying)
    }

    fn hint_change(&self) -> Option<Entity> {
        Some(Entity::Global)
    }
}
