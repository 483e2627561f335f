//! The sizes of a table, and what it takes with them.
ghost use Rattle.std.specs.Prelude.{◌≡◌, ◌<◌, ◌≤◌, ◌+◌, ◌^◌, ℕ, IfErr, IfOk, List, Ok, Result, length, slice_index, sum};
ghost use Rattle.grid_config.specs.Looks.{look_of};
ghost use Rattle.grid_config_values.specs.declared.fault.Fault.{Fault as TableFault};
ghost use Rattle.tabled_steps.specs.Outcomes.{◌≫=◌, AnswersStep, MayRefuseStep, all_sized};
ghost use Rattle.tabled_steps.specs.Sizes.{heights_or, natural_heights, natural_widths, widths_or};
ghost use Rattle.tabled_width.specs.WholeTables.Rooms.{column_widths as widths_of_columns, empty_widths as widths_of_empty};
ghost use Rattle.tabled_width.specs.WholeTables.Tables.{TableSizes as SizesOfTable, table_sizes as sizes_of_table, sizes_with};
ghost use Rattle.tabled_width.specs.WholeTables.Widths.{width_with_columns as width_of};

use crate::tables::columns::width_with_columns;
use grid_config::{Fault, SpannedConfig};
use grid_records::{EmptyRecords, FromText, VecRecords};
use grid_records_estimate::IterGridDimension;
use grid_records_traits::records::{RecordColumns, RecordTexts};
use std::alloc::{AllocError, Global};
use tabled_size::CompleteDimension;
use tabled_size_priority::Peaker;

/// The widths and the heights of a table, the widths of its columns, and what it takes with them.
#[derive(Drop)]
pub(crate) struct TableSizes {
    pub(crate) widths: Vec<usize>,
    pub(crate) heights: Vec<usize>,
    pub(crate) columns: Vec<usize>,
    pub(crate) whole: usize,
}

impl TableSizes {
    /// Of these records: the sizes that are kept, and in place of those that aren't the least that hold
    /// the texts. Refused as `Range` where one of these or the total width passes `usize::MAX`, and as
    /// `Memory` where allocation fails.
    pub(crate) fn estimate<T: FromText>(
        alloc: Global,
        records: &VecRecords<T>,
        cfg: &SpannedConfig,
        sizes: &CompleteDimension,
    ) -> Result<TableSizes, Fault>
        ensures table_sizes { AnswersStep (λ it. sizes_with it.widths.items it.heights.items it.whole) result
            (sizes_of_table (look_of cfg.now) (⟦<VecRecords<T> as RecordColumns>⟧.columns records.now) (⟦<VecRecords<T> as RecordTexts>⟧.rows records.now) sizes.now) }
        ensures columns { IfOk result (λ it. it.columns.items ≡ widths_of_columns (⟦<VecRecords<T> as RecordColumns>⟧.columns records.now) it.widths.items) }
        ensures whole { IfOk result (λ it. it.whole ≡ width_of (look_of cfg.now) it.columns.items) }
    {
        let (widths, heights) = sizes_or_least(alloc, records, cfg, sizes)?;
        let columns = column_widths(alloc, &widths, records.count_columns())?;
        let whole = width_with_columns(cfg, &columns)?;
        Ok(TableSizes {
            widths,
            heights,
            columns,
            whole,
        })
    }

    /// The widths of its columns alone.
    pub(crate) fn into_columns(self) -> Vec<usize>
        ensures { result.items ≡ self.columns.items }
    {
        self.columns
    }
}

/// The empty widths of the columns of a table: those of empty texts. Refused as `Range` where one of these
/// passes `usize::MAX`, and as `Memory` where allocation fails.
pub(crate) fn empty_widths(
    alloc: Global,
    cfg: &SpannedConfig,
    columns: usize,
    rows: usize,
) -> Result<Vec<usize>, Fault>
    requires { 0 < rows }
    ensures least { AnswersStep (λ list. list.items) result (all_sized (widths_of_empty (look_of cfg.now) columns rows)) }
    ensures count { IfOk result (λ list. length list.items ≡ columns) }
{
    let least = IterGridDimension::width(alloc, EmptyRecords::new(rows, columns), cfg)?;
    are_held(&least);
    Ok(least)
}

/// What a priority leaves of these widths that takes `by` columns of width from them.
pub(crate) fn shrunk<P: Peaker + Drop>(
    priority: P,
    widths: Vec<usize>,
    least: &[usize],
    by: usize,
) -> Vec<usize>
    requires range { sum widths.items < 2 ^ 64 }
    requires leasts { length least.now ≡ length widths.items }
    ensures shrunk { (after : P) × P.shrinks priority least.now by widths.items after result.items }
    ensures count { length result.items ≡ length widths.items }
    ensures less { sum result.items ≤ sum widths.items }
{
    let mut widths = widths;
    let mut priority = priority;
    priority.shrink(&mut widths, least, by);
    widths
}

/// What a priority makes of these widths that gives `by` columns of width to them.
pub(crate) fn grown<P: Peaker + Drop>(priority: P, widths: Vec<usize>, by: usize) -> Vec<usize>
    requires { sum widths.items + by < 2 ^ 64 }
    ensures { (after : P) × P.grows priority by widths.items after result.items }
{
    let mut widths = widths;
    let mut priority = priority;
    priority.grow(&mut widths, by);
    widths
}

// The widths and the heights that are kept, and else the least that hold the texts. Where neither are
// kept, each text is measured once.
fn sizes_or_least<T: FromText>(
    alloc: Global,
    records: &VecRecords<T>,
    cfg: &SpannedConfig,
    sizes: &CompleteDimension,
) -> Result<(Vec<usize>, Vec<usize>), Fault>
    ensures widths { IfOk result (λ lists. widths_or sizes.now.widths (look_of cfg.now)
        (⟦<VecRecords<T> as RecordColumns>⟧.columns records.now) (⟦<VecRecords<T> as RecordTexts>⟧.rows records.now) ≡ Ok lists.0.items) }
    ensures heights { IfOk result (λ lists. heights_or sizes.now.heights (look_of cfg.now)
        (⟦<VecRecords<T> as RecordColumns>⟧.columns records.now) (⟦<VecRecords<T> as RecordTexts>⟧.rows records.now) ≡ Ok lists.1.items) }
    ensures refused { let columns = ⟦<VecRecords<T> as RecordColumns>⟧.columns records.now in let rows = ⟦<VecRecords<T> as RecordTexts>⟧.rows records.now in
        IfErr result (λ fault. (next : List ℕ → List ℕ → Result SizesOfTable TableFault) →
        MayRefuseStep fault (λ outcome. (widths_or sizes.now.widths (look_of cfg.now) columns rows
        ≫= λ widths. heights_or sizes.now.heights (look_of cfg.now) columns rows ≫= next widths) ≡ outcome)) }
{
    if sizes.is_empty() {
        return least_sizes(alloc, records, cfg);
    }
    let widths = widths_or_least(alloc, records, cfg, sizes)?;
    let heights = heights_or_least(alloc, records, cfg, sizes)?;
    Ok((widths, heights))
}

// The least widths and heights that hold the texts, of one reading.
fn least_sizes<T: FromText>(
    alloc: Global,
    records: &VecRecords<T>,
    cfg: &SpannedConfig,
) -> Result<(Vec<usize>, Vec<usize>), Fault>
    ensures widths { IfOk result (λ lists. all_sized
        (natural_widths (look_of cfg.now) (⟦<VecRecords<T> as RecordColumns>⟧.columns records.now)
        (⟦<VecRecords<T> as RecordTexts>⟧.rows records.now)) ≡ Ok lists.0.items) }
    ensures heights { IfOk result (λ lists. all_sized
        (natural_heights (look_of cfg.now) (⟦<VecRecords<T> as RecordColumns>⟧.columns records.now)
        (⟦<VecRecords<T> as RecordTexts>⟧.rows records.now)) ≡ Ok lists.1.items) }
    ensures refused { let columns = ⟦<VecRecords<T> as RecordColumns>⟧.columns records.now in let rows = ⟦<VecRecords<T> as RecordTexts>⟧.rows records.now in
        IfErr result (λ fault. (next : List ℕ → List ℕ → Result SizesOfTable TableFault) →
        MayRefuseStep fault (λ outcome. (all_sized (natural_widths (look_of cfg.now) columns rows) ≫= λ widths. all_sized (natural_heights (look_of cfg.now) columns rows) ≫= next widths) ≡ outcome)) }
{
    let (widths, heights) = IterGridDimension::dimension(alloc, records, cfg)?;
    are_held(&widths);
    are_held(&heights);
    Ok((widths, heights))
}

// The widths that are kept, and else the least that hold the texts.
fn widths_or_least<T: FromText>(
    alloc: Global,
    records: &VecRecords<T>,
    cfg: &SpannedConfig,
    sizes: &CompleteDimension,
) -> Result<Vec<usize>, Fault>
    ensures { AnswersStep (λ list. list.items) result
        (widths_or sizes.now.widths (look_of cfg.now) (⟦<VecRecords<T> as RecordColumns>⟧.columns records.now) (⟦<VecRecords<T> as RecordTexts>⟧.rows records.now)) }
{
    if let Some(widths) = sizes.get_widths() {
        return Ok(Vec::from_slice(alloc, widths)?);
    }
    let widths = IterGridDimension::width(alloc, records, cfg)?;
    are_held(&widths);
    Ok(widths)
}

// The heights that are kept, and else the least that hold the texts.
fn heights_or_least<T: FromText>(
    alloc: Global,
    records: &VecRecords<T>,
    cfg: &SpannedConfig,
    sizes: &CompleteDimension,
) -> Result<Vec<usize>, Fault>
    ensures { AnswersStep (λ list. list.items) result
        (heights_or sizes.now.heights (look_of cfg.now) (⟦<VecRecords<T> as RecordColumns>⟧.columns records.now) (⟦<VecRecords<T> as RecordTexts>⟧.rows records.now)) }
{
    if let Some(heights) = sizes.get_heights() {
        return Ok(Vec::from_slice(alloc, heights)?);
    }
    let heights = IterGridDimension::height(alloc, records, cfg)?;
    are_held(&heights);
    Ok(heights)
}

// The widths of `columns` columns; after the end of the list each is 0.
fn column_widths(alloc: Global, widths: &[usize], columns: usize) -> Result<Vec<usize>, AllocError>
    ensures { IfOk result (λ list. list.items ≡ widths_of_columns columns widths.now) }
{
    let mut list = Vec::with_capacity(alloc, columns)?;
    for column in 0..columns {
        list.push(width_at(widths, column))?;
    }
    Ok(list)
}

// The width of a column; after the end of the list it is 0.
fn width_at(widths: &[usize], column: usize) -> usize
    ensures { result ≡ slice_index widths.now column }
{
    if column < widths.len() {
        widths[column]
    } else {
        0
    }
}

// Sizes of a table that are in a slice don't pass `usize::MAX`: this says so to contracts, and does
// nothing.
fn are_held(sizes: &[usize])
    ensures { all_sized sizes.now ≡ Ok sizes.now }
{
    let _sizes = sizes;
}
