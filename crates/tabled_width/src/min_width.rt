//! Tables, and cells, that are at least so wide.
ghost use Rattle.std.specs.Prelude.{◌≡◌, IsOk, None, Some, length};
ghost use Rattle.grid_config_values.specs.declared.entity.Entity.TheVariants.{Global as EveryCell};
ghost use Rattle.tabled_steps.specs.Changes.{changing};
ghost use Rattle.tabled_steps.specs.States.{Steps, colored_state};
ghost use Rattle.tabled_width_texts.specs.Filling.{filling};
ghost use Rattle.tabled_width.specs.Options.{widening};
ghost use Rattle.tabled_width.specs.WholeTables.Steps.{Measured};
ghost use Rattle.tabled_width.specs.WholeTables.Tables.{WidensTable};

use crate::table::widen_table;
use crate::tables::change_cells;
use crate::width::Width;
use grid_config::{ColoredConfig, Entity, Fault};
use grid_records::{FromText, VecRecords};
use grid_records_traits::records::{RecordColumns, RecordTexts};
use std::alloc::Global;
use tabled_size::CompleteDimension;
use tabled_size_priority::{Peaker, PriorityNone};
use tabled_steps::{CellOption, Measurement, TableOption};
use tabled_width_texts::Filling;

/// Makes a table at least so wide, by wider columns, or the lines of cells, by a character after them.
#[derive(Clone, Copy, Debug, PartialEq, Eq, PartialOrd, Ord)]
pub struct MinWidth<W = usize, P = PriorityNone> {
    width: W,
    fill: char,
    priority: P,
}

impl<W> MinWidth<W> {
    /// At least this width, filled with spaces, and the priority that takes columns one after the other.
    pub const fn new(width: W) -> MinWidth<W>
        ensures { widening result ≡ record { width = width; fill = 0x20; priority = 0 } }
    {
        MinWidth {
            width,
            fill: ' ',
            priority: PriorityNone::new(),
        }
    }
}

impl<W, P> MinWidth<W, P> {
    /// The same with this character after the lines of cells, which an option of a table doesn't look at.
    pub fn fill_with(self, c: char) -> MinWidth<W, P>
        ensures { widening result ≡ record (widening self) { fill = c } }
    {
        MinWidth {
            width: self.width,
            fill: c,
            priority: self.priority,
        }
    }

    /// The same with this priority of the columns of a table, which an option of cells doesn't look at.
    pub fn priority<PP: Peaker>(self, priority: PP) -> MinWidth<W, PP>
    where
        P: Drop,
        ensures { widening result ≡ record { width = (widening self).width; fill = (widening self).fill; priority = priority } }
    {
        MinWidth {
            width: self.width,
            fill: self.fill,
            priority,
        }
    }
}

/// Fills the lines of each cell that measures less than the width. Refused as the measurement is, and
/// as `Memory` where allocation fails.
impl<T: FromText, W: Measurement<Width>, P> CellOption<VecRecords<T>, ColoredConfig>
    for MinWidth<W, P> {
    ghost step = { λ option at. Measured (W.measures (widening option).width) (λ width state outcome. changing (λ _. filling (widening option).fill width) at state ≡ outcome) };

    ghost hint = { λ _. Some EveryCell };

    fn change(
        &self,
        alloc: Global,
        records: &mut VecRecords<T>,
        cfg: &mut ColoredConfig,
        entity: Entity,
    ) -> Result<(), Fault> {
        let width = self.width.measure(alloc, records, cfg.spanned())?;
        change_cells(alloc, records, entity, width, &Filling { fill: self.fill })
    }

    fn hint_change(&self) -> Option<Entity> {
        Some(Entity::Global)
    }
}

/// Where the table takes fewer columns than the width, with its margins, its columns grow by the priority.
/// The sizes that are not kept are estimated and kept. Nothing is done without rows or columns. Refused as
/// the measurement is, as `Range` where a size or the total passes `usize::MAX`, and as `Memory` where
/// allocation fails.
impl<T: FromText, W: Measurement<Width> + Drop, P: Peaker + Drop> TableOption<
    VecRecords<T>,
    ColoredConfig,
    CompleteDimension,
> for MinWidth<W, P> {
    ghost step = { λ option. WidensTable P.grows (widening option).priority (W.measures (widening option).width) };

    ghost hint = { λ _. None };

    fn change(
        self,
        alloc: Global,
        records: &mut VecRecords<T>,
        cfg: &mut ColoredConfig,
        dims: &mut CompleteDimension,
    ) -> Result<(), Fault>
        ensures no_rows { length (⟦<VecRecords<T> as RecordTexts>⟧.rows records.old) ≡ 0 → IsOk result }
        ensures no_columns { ⟦<VecRecords<T> as RecordColumns>⟧.columns records.old ≡ 0 → IsOk result }
        ensures step { Steps (WidensTable P.grows (widening self).priority (W.measures (widening self).width)) result
            (colored_state (⟦<VecRecords<T> as RecordTexts>⟧.rows records.old) cfg.old dims.old) (colored_state (⟦<VecRecords<T> as RecordTexts>⟧.rows records.new) cfg.new dims.new) }
    {
        let width = self.width;
        let priority = self.priority;
        widen_table(alloc, &*records, cfg.spanned(), dims, &width, priority)
    }

    fn hint_change(&self) -> Option<Entity> {
        None
    }
}
