//! Tables that become narrower or wider as a whole.
ghost use Rattle.std.specs.Prelude.{◌≡◌, ◌<◌, Option, Some, length};
ghost use Rattle.grid_config.specs.Colors.{Color};
ghost use Rattle.grid_config_values.specs.declared.position.Position.{Position as CellPosition};
ghost use Rattle.grid_config.specs.Looks.{look_of};
ghost use Rattle.tabled_steps.specs.States.{Steps, state_with};
ghost use Rattle.tabled_width.specs.WholeTables.Tables.{Narrows, Widens};

use crate::tables::rooms::InRooms;
use crate::tables::table_sizes::{TableSizes, empty_widths, grown, shrunk};
use grid_config::{Entity, Fault, SpannedConfig};
use grid_records::{FromText, VecRecords};
use grid_records_traits::records::{ExactRecords, RecordColumns, RecordTexts};
use std::alloc::Global;
use tabled_size::CompleteDimension;
use tabled_size_priority::Peaker;
use tabled_steps::change_texts;
use tabled_width_texts::RoomChange;

/// Where a table that has rows takes more than the requested columns, its columns shrink by the priority, not
/// below their least. Each text changes to fit its cell, and the heights are not kept then. What is estimated is
/// kept. Refused as `Range` where a size or the total passes `usize::MAX`, and as `Memory` where allocation
/// fails, and then nothing has changed.
pub fn narrow<T: FromText, P: Peaker + Drop, X: RoomChange>(
    alloc: Global,
    records: &mut VecRecords<T>,
    cfg: &SpannedConfig,
    dims: &mut CompleteDimension,
    asked: usize,
    priority: P,
    change: &X,
) -> Result<(), Fault>
    requires { 0 < length (⟦<VecRecords<T> as RecordTexts>⟧.rows records.old) }
    ensures { (colors : CellPosition → Option Color) → Steps (Narrows P.shrinks priority (X.fitted change.now) asked) result
        (state_with (⟦<VecRecords<T> as RecordTexts>⟧.rows records.old) (look_of cfg.now) colors dims.old)
        (state_with (⟦<VecRecords<T> as RecordTexts>⟧.rows records.new) (look_of cfg.now) colors dims.new) }
{
    let table_sizes = TableSizes::estimate(alloc, &*records, cfg, &*dims)?;
    if table_sizes.whole <= asked {
        keep(dims, table_sizes);
        return Ok(());
    }
    let excess = table_sizes.whole - asked;
    let columns = table_sizes.into_columns();
    let least = empty_widths(alloc, cfg, records.count_columns(), records.count_rows())?;
    let widths = shrunk(priority, columns, &least, excess);
    let rooms = InRooms {
        cfg,
        least: &least,
        widths: &widths,
        change,
    };
    change_texts(alloc, records, Entity::Global, &rooms)?;
    dims.set_widths(widths);
    dims.clear_height();
    Ok(())
}

/// Where a table takes less than the requested columns, its columns grow by the priority. What is estimated is
/// kept. Refused as `Range` where a size or the total passes `usize::MAX`, and as `Memory` where allocation
/// fails, and then nothing has changed.
pub fn widen<T: FromText, P: Peaker + Drop>(
    alloc: Global,
    records: &VecRecords<T>,
    cfg: &SpannedConfig,
    dims: &mut CompleteDimension,
    asked: usize,
    priority: P,
) -> Result<(), Fault>
    ensures { (colors : CellPosition → Option Color) → let rows = ⟦<VecRecords<T> as RecordTexts>⟧.rows records.now in
        Steps (Widens P.grows priority asked) result (state_with rows (look_of cfg.now) colors dims.old) (state_with rows (look_of cfg.now) colors dims.new) }
{
    let table_sizes = TableSizes::estimate(alloc, records, cfg, &*dims)?;
    if asked <= table_sizes.whole {
        keep(dims, table_sizes);
        return Ok(());
    }
    let widths = grown(priority, table_sizes.columns, asked - table_sizes.whole);
    dims.set_widths(widths);
    dims.set_heights(table_sizes.heights);
    Ok(())
}

// Keeps these sizes.
fn keep(dims: &mut CompleteDimension, table_sizes: TableSizes)
    ensures { dims.new ≡ record { widths = Some table_sizes.widths.items; heights = Some table_sizes.heights.items } }
{
    dims.set_widths(table_sizes.widths);
    dims.set_heights(table_sizes.heights);
}
