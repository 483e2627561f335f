//! Heights of at least a given number of lines.
ghost use Rattle.std.specs.Prelude.{◌≡◌, ℕ, IsOk, List, None, Option, Some, length};
ghost use Rattle.std.specs.Option.{option_map};
ghost use Rattle.grid_config.specs.Colors.{Color};
ghost use Rattle.grid_config.specs.Looks.{Look};
ghost use Rattle.grid_config_values.specs.declared.entity.Entity.TheVariants.{Global as EveryCell};
ghost use Rattle.grid_config_values.specs.declared.position.Position.{Position as CellPosition};
ghost use Rattle.tabled_height.specs.Options.{increase_height, table_increase};
ghost use Rattle.tabled_height.specs.Steps.{RaisesCells, RaisesTable, keeping_heights};
ghost use Rattle.tabled_steps.specs.States.{Steps, colored_state, state_with};

use crate::height::Height;
use crate::lines::Raising;
use crate::rows::asked_rows;
use grid_config::{ColoredConfig, Entity, Fault};
use grid_records::{FromText, VecRecords};
use grid_records_traits::records::{RecordColumns, RecordTexts};
use std::alloc::Global;
use tabled_size::CompleteDimension;
use tabled_size_priority::{Peaker, PriorityNone};
use tabled_steps::{CellOption, Measurement, TableOption, change_texts};

/// At least a given number of lines: of cells each, or of a table, whose rows then get in turns what
/// it lacks.
#[derive(Clone, Copy, Debug, PartialEq, Eq, PartialOrd, Ord)]
pub struct CellHeightIncrease<W = usize> {
    height: W,
}

impl<W> CellHeightIncrease<W> {
    /// At least this height, in lines.
    pub fn new(height: W) -> CellHeightIncrease<W>
        ensures { increase_height result ≡ height }
    {
        CellHeightIncrease { height }
    }

    /// The same height of a table, whose rows grow by this priority.
    pub fn priority<P: Peaker>(self, priority: P) -> TableHeightIncrease<W, P>
        ensures { table_increase result ≡ (increase_height self, priority) }
    {
        TableHeightIncrease {
            height: self.height,
            priority,
        }
    }
}

/// Texts of the cells with fewer lines get line feeds at their ends; cells outside the table are passed
/// over. Refused as the height may be, and as `Memory` where allocation fails.
impl<T: FromText, W: Measurement<Height>> CellOption<VecRecords<T>, ColoredConfig>
    for CellHeightIncrease<W> {
    ghost step = { λ option at. RaisesCells (W.measures (increase_height option)) at };

    ghost hint = { λ _. Some EveryCell };

    fn change(
        &self,
        alloc: Global,
        records: &mut VecRecords<T>,
        cfg: &mut ColoredConfig,
        entity: Entity,
    ) -> Result<(), Fault> {
        let height = self.height.measure(alloc, &*records, cfg.spanned())?;
        change_texts(alloc, records, entity, &Raising { height })?;
        Ok(())
    }

    fn hint_change(&self) -> Option<Entity> {
        Some(Entity::Global)
    }
}

/// The step of a `TableHeightIncrease` of this height, whose rows grow in turns.
impl<T: FromText, W: Measurement<Height> + Drop> TableOption<
    VecRecords<T>,
    ColoredConfig,
    CompleteDimension,
> for CellHeightIncrease<W> {
    ghost step = { λ option. RaisesTable (W.measures (increase_height option)) ⟦<PriorityNone as Peaker>⟧.grows 0 };

    ghost hint = { λ _. None };

    fn change(
        self,
        alloc: Global,
        records: &mut VecRecords<T>,
        cfg: &mut ColoredConfig,
        dims: &mut CompleteDimension,
    ) -> Result<(), Fault> {
        TableHeightIncrease::new(self.height).change(alloc, records, cfg, dims)
    }

    fn hint_change(&self) -> Option<Entity> {
        None
    }
}

/// At least a given number of lines of a table.
#[derive(Clone, Debug, Drop)]
pub struct TableHeightIncrease<W = usize, P = PriorityNone> {
    height: W,
    priority: P,
}

impl<W> TableHeightIncrease<W, PriorityNone> {
    /// At least this height, in lines. The rows grow in turns.
    pub fn new(height: W) -> TableHeightIncrease<W, PriorityNone>
        ensures { table_increase result ≡ (height, 0) }
    {
        TableHeightIncrease {
            height,
            priority: PriorityNone::new(),
        }
    }

    /// The same height, and the rows grow by this priority.
    pub fn priority<P: Peaker>(self, priority: P) -> TableHeightIncrease<W, P>
        ensures { table_increase result ≡ ((table_increase self).0, priority) }
    {
        TableHeightIncrease {
            height: self.height,
            priority,
        }
    }
}

/// Where a new estimate of the table has fewer lines, its rows grow to that many, and these heights are
/// kept. Nothing is done without rows or columns. Refused as the height may be, as `Range` where the lines
/// of the estimate pass `usize::MAX`, and as `Memory` where allocation fails.
impl<T: FromText, W: Measurement<Height> + Drop, P: Peaker + Drop> TableOption<
    VecRecords<T>,
    ColoredConfig,
    CompleteDimension,
> for TableHeightIncrease<W, P> {
    ghost step = { λ option. RaisesTable (W.measures (table_increase option).0) P.grows (table_increase option).1 };

    ghost hint = { λ _. None };

    fn change(
        self,
        alloc: Global,
        records: &mut VecRecords<T>,
        cfg: &mut ColoredConfig,
        dims: &mut CompleteDimension,
    ) -> Result<(), Fault>
        ensures no_rows { length (⟦<VecRecords<T> as RecordTexts>⟧.rows records.old) ≡ 0 → IsOk result }
        ensures no_columns { ⟦<VecRecords<T> as RecordColumns>⟧.columns records.old ≡ 0 → IsOk result }
        ensures step { Steps (RaisesTable (W.measures (table_increase self).0) P.grows (table_increase self).1) result
            (colored_state (⟦<VecRecords<T> as RecordTexts>⟧.rows records.old) cfg.old dims.old) (colored_state (⟦<VecRecords<T> as RecordTexts>⟧.rows records.new) cfg.new dims.new) }
    {
        let asked = asked_rows(alloc, &self.height, &*records, cfg.spanned())?;
        let Some((rows, height)) = asked else {
            return Ok(());
        };
        keep_heights(dims, rows.grown(self.priority, height));
        Ok(())
    }

    fn hint_change(&self) -> Option<Entity> {
        None
    }
}

// Keeps heights where they are given.
fn keep_heights(dims: &mut CompleteDimension, heights: Option<Vec<usize>>)
    ensures { (rows : List (List (List ℕ))) (look : Look) (colors : CellPosition → Option Color) →
        keeping_heights (option_map (λ list. list.items) heights) (state_with rows look colors dims.old) ≡ state_with rows look colors dims.new }
{
    if let Some(heights) = heights {
        dims.set_heights(heights);
    }
}
