//! Heights of at most a given number of lines.
ghost use Rattle.std.specs.Prelude.{◌≡◌, IsOk, None, Ok, Option, Some, length};
ghost use Rattle.std.specs.Option.{option_map};
ghost use Rattle.grid_config.specs.Colors.{Color};
ghost use Rattle.grid_config.specs.Looks.{Look};
ghost use Rattle.grid_config_values.specs.declared.entity.Entity.TheVariants.{Global as EveryCell};
ghost use Rattle.grid_config_values.specs.declared.position.Position.{Position as CellPosition};
ghost use Rattle.tabled_height.specs.Options.{limit_height, table_limit};
ghost use Rattle.tabled_height.specs.Steps.{LimitsCells, LimitsTable, limiting_rows};
ghost use Rattle.tabled_steps.specs.States.{Steps, StepsTo, colored_state, state_with};

use crate::height::Height;
use crate::lines::{Limiting, LimitingRows};
use crate::rows::asked_rows;
use grid_config::{ColoredConfig, Entity, Fault};
use grid_records::{FromText, VecRecords};
use grid_records_traits::records::{RecordColumns, RecordTexts};
use std::alloc::Global;
use tabled_size::CompleteDimension;
use tabled_size_priority::{Peaker, PriorityNone};
use tabled_steps::{CellOption, Measurement, TableOption, change_texts};

/// At most a given number of lines: of cells each, or of a table, whose rows then give in turns what it has
/// too much.
#[derive(Clone, Copy, Debug, PartialEq, Eq, PartialOrd, Ord)]
pub struct CellHeightLimit<W = usize> {
    height: W,
}

impl<W> CellHeightLimit<W> {
    /// At most this height, in lines.
    pub fn new(height: W) -> CellHeightLimit<W>
        ensures { limit_height result ≡ height }
    {
        CellHeightLimit { height }
    }

    /// The same height of a table, whose rows shrink by this priority.
    pub fn priority<P: Peaker>(self, priority: P) -> TableHeightLimit<W, P>
        ensures { table_limit result ≡ (limit_height self, priority) }
    {
        TableHeightLimit {
            height: self.height,
            priority,
        }
    }
}

/// Texts of the cells with more lines keep as many from the first on. At a height of 0 no line is left of them. Cells
/// outside the table are passed over. Refused as the height may be, and as `Memory` where allocation fails.
impl<T: FromText, W: Measurement<Height>> CellOption<VecRecords<T>, ColoredConfig>
    for CellHeightLimit<W> {
    ghost step = { λ option at. LimitsCells (W.measures (limit_height option)) at };

    ghost hint = { λ _. Some EveryCell };

    fn change(
        &self,
        alloc: Global,
        records: &mut VecRecords<T>,
        cfg: &mut ColoredConfig,
        entity: Entity,
    ) -> Result<(), Fault> {
        let height = self.height.measure(alloc, &*records, cfg.spanned())?;
        change_texts(alloc, records, entity, &Limiting { height })?;
        Ok(())
    }

    fn hint_change(&self) -> Option<Entity> {
        Some(Entity::Global)
    }
}

/// The step of a `TableHeightLimit` of this height, whose rows shrink in turns.
impl<T: FromText, W: Measurement<Height> + Drop> TableOption<
    VecRecords<T>,
    ColoredConfig,
    CompleteDimension,
> for CellHeightLimit<W> {
    ghost step = { λ option. LimitsTable (W.measures (limit_height option)) ⟦<PriorityNone as Peaker>⟧.shrinks 0 };

    ghost hint = { λ _. None };

    fn change(
        self,
        alloc: Global,
        records: &mut VecRecords<T>,
        cfg: &mut ColoredConfig,
        dims: &mut CompleteDimension,
    ) -> Result<(), Fault> {
        TableHeightLimit::new(self.height).change(alloc, records, cfg, dims)
    }

    fn hint_change(&self) -> Option<Entity> {
        None
    }
}

/// At most a given number of lines of a table.
#[derive(Debug, Drop)]
pub struct TableHeightLimit<W = usize, P = PriorityNone> {
    height: W,
    priority: P,
}

impl<W> TableHeightLimit<W, PriorityNone> {
    /// At most this height, in lines. The rows shrink in turns.
    pub fn new(height: W) -> TableHeightLimit<W, PriorityNone>
        ensures { table_limit result ≡ (height, 0) }
    {
        TableHeightLimit {
            height,
            priority: PriorityNone::new(),
        }
    }

    /// The same height, and the rows shrink by this priority.
    pub fn priority<P: Peaker>(self, priority: P) -> TableHeightLimit<W, P>
        ensures { table_limit result ≡ ((table_limit self).0, priority) }
    {
        TableHeightLimit {
            height: self.height,
            priority,
        }
    }
}

/// Where a new estimate of the table has more lines, its rows shrink to that many, at least to 0. Each
/// text keeps as many lines as its row then has, those of hidden cells too, and these heights are kept.
/// Nothing is done without rows or columns. Refused as the height may be, as `Range` where the lines of
/// the estimate pass `usize::MAX`, and as `Memory` where allocation fails.
impl<T: FromText, W: Measurement<Height> + Drop, P: Peaker + Drop> TableOption<
    VecRecords<T>,
    ColoredConfig,
    CompleteDimension,
> for TableHeightLimit<W, P> {
    ghost step = { λ option. LimitsTable (W.measures (table_limit option).0) P.shrinks (table_limit option).1 };

    ghost hint = { λ _. None };

    fn change(
        self,
        alloc: Global,
        records: &mut VecRecords<T>,
        cfg: &mut ColoredConfig,
        dims: &mut CompleteDimension,
    ) -> Result<(), Fault>
        ensures no_rows { length (⟦<VecRecords<T> as RecordTexts>⟧.rows records.old) ≡ 0 → IsOk result }
        ensures no_columns { ⟦<VecRecords<T> as RecordColumns>⟧.columns records.old ≡ 0 → IsOk result }
        ensures step { Steps (LimitsTable (W.measures (table_limit self).0) P.shrinks (table_limit self).1) result
            (colored_state (⟦<VecRecords<T> as RecordTexts>⟧.rows records.old) cfg.old dims.old) (colored_state (⟦<VecRecords<T> as RecordTexts>⟧.rows records.new) cfg.new dims.new) }
    {
        let asked = asked_rows(alloc, &self.height, &*records, cfg.spanned())?;
        let Some((rows, height)) = asked else {
            return Ok(());
        };
        let heights = rows.shrunk(alloc, self.priority, height)?;
        limit_rows(alloc, records, dims, heights)
    }

    fn hint_change(&self) -> Option<Entity> {
        None
    }
}

// Where heights are given, each text keeps as many lines as its row then has, and they are kept. Fails only where
// allocation fails.
fn limit_rows<T: FromText>(
    alloc: Global,
    records: &mut VecRecords<T>,
    dims: &mut CompleteDimension,
    heights: Option<Vec<usize>>,
) -> Result<(), Fault>
    ensures { (look : Look) (colors : CellPosition → Option Color) → StepsTo (λ state. Ok (limiting_rows (option_map (λ list. list.items) heights) state)) result
        (state_with (⟦<VecRecords<T> as RecordTexts>⟧.rows records.old) look colors dims.old) (state_with (⟦<VecRecords<T> as RecordTexts>⟧.rows records.new) look colors dims.new) }
{
    let Some(heights) = heights else {
        return Ok(());
    };
    let limiting = LimitingRows { heights: &heights };
    change_texts(alloc, records, Entity::Global, &limiting)?;
    dims.set_heights(heights);
    Ok(())
}
