//! Tables that become narrower or wider than a width that is measured.
ghost use Rattle.std.specs.Prelude.{◌≡◌, IsOk, Option, length};
ghost use Rattle.grid_config.specs.Colors.{Color};
ghost use Rattle.grid_config_values.specs.declared.position.Position.{Position as CellPosition};
ghost use Rattle.grid_config.specs.Looks.{look_of};
ghost use Rattle.tabled_steps.specs.States.{Steps, state_with};
ghost use Rattle.tabled_width.specs.WholeTables.Tables.{NarrowsTable, WidensTable};

use crate::tables::{narrow, widen};
use crate::width::Width;
use grid_config::{Fault, SpannedConfig};
use grid_records::{FromText, VecRecords};
use grid_records_traits::records::{ExactRecords, RecordColumns, RecordTexts};
use std::alloc::Global;
use tabled_size::CompleteDimension;
use tabled_size_priority::Peaker;
use tabled_steps::Measurement;
use tabled_width_texts::RoomChange;

/// Where the table takes more than the width, its columns shrink by the priority, not below their least. Each
/// text changes to fit its cell, and the heights are not kept then. What is estimated is kept. Nothing is done
/// without rows or columns. Refused as the width may be, as `Range` where a size or the total passes
/// `usize::MAX`, and as `Memory` where allocation fails. Then nothing has changed.
pub(crate) fn narrow_table<T: FromText, W: Measurement<Width>, P: Peaker + Drop, X: RoomChange>(
    alloc: Global,
    records: &mut VecRecords<T>,
    cfg: &SpannedConfig,
    dims: &mut CompleteDimension,
    width: &W,
    priority: P,
    change: &X,
) -> Result<(), Fault>
    ensures no_rows { length (⟦<VecRecords<T> as RecordTexts>⟧.rows records.old) ≡ 0 → IsOk result }
    ensures no_columns { ⟦<VecRecords<T> as RecordColumns>⟧.columns records.old ≡ 0 → IsOk result }
    ensures step { (colors : CellPosition → Option Color) → Steps (NarrowsTable P.shrinks priority (X.fitted change.now) (W.measures width.now)) result
        (state_with (⟦<VecRecords<T> as RecordTexts>⟧.rows records.old) (look_of cfg.now) colors dims.old)
        (state_with (⟦<VecRecords<T> as RecordTexts>⟧.rows records.new) (look_of cfg.now) colors dims.new) }
{
    if records.count_rows() == 0 || records.count_columns() == 0 {
        return Ok(());
    }
    let asked = width.measure(alloc, &*records, cfg)?;
    narrow(alloc, records, cfg, dims, asked, priority, change)
}

/// Where the table takes less than the width, its columns grow by the priority. What is estimated is kept.
/// Nothing is done without rows or columns. Refused as the width may be, as `Range` where a size or the
/// total passes `usize::MAX`, and as `Memory` where allocation fails. Then nothing has changed.
pub(crate) fn widen_table<T: FromText, W: Measurement<Width>, P: Peaker + Drop>(
    alloc: Global,
    records: &VecRecords<T>,
    cfg: &SpannedConfig,
    dims: &mut CompleteDimension,
    width: &W,
    priority: P,
) -> Result<(), Fault>
    ensures no_rows { length (⟦<VecRecords<T> as RecordTexts>⟧.rows records.now) ≡ 0 → IsOk result }
    ensures no_columns { ⟦<VecRecords<T> as RecordColumns>⟧.columns records.now ≡ 0 → IsOk result }
    ensures step { (colors : CellPosition → Option Color) → let rows = ⟦<VecRecords<T> as RecordTexts>⟧.rows records.now in
        Steps (WidensTable P.grows priority (W.measures width.now)) result (state_with rows (look_of cfg.now) colors dims.old) (state_with rows (look_of cfg.now) colors dims.new) }
{
    if records.count_rows() == 0 || records.count_columns() == 0 {
        return Ok(());
    }
    let asked = width.measure(alloc, records, cfg)?;
    widen(alloc, records, cfg, dims, asked, priority)
}
