//! A table is read once, row by row, and what its visible cells need is collected.
ghost use Rattle.std.specs.Prelude.{◌≡◌, ◌<◌, ◌≤◌, ℕ, ◌+◌, ◌++◌, [], ◌∷◌, Bool, IfOk, IsErr, List, OnOk, length};
ghost use Rattle.std.specs.Iterator.{IsFinite};
ghost use Rattle.grid_records_traits.specs.Giving.{GivesTexts};
ghost use Rattle.grid_records_traits.specs.Rows.{evened};
ghost use Rattle.grid_records_estimate.specs.CollectedNeeds.{AreCollectedNeeds, HasRead, Placed, row_cells_from, table_cells};

use crate::collector::Collector;
use crate::need::Need;
use crate::one_padding::OnePadding;
use crate::sizing::Sizing;
use grid_config::Position;
use grid_records_traits::{Cell, Records};
use std::alloc::{AllocError, Global};

/// The needs collected from a table: how many columns and rows it has, and what its visible cells need of them.
#[derive(Drop)]
pub(crate) struct CollectedNeeds {
    pub(crate) columns: usize,
    pub(crate) rows: usize,
    pub(crate) widths: Collector,
    pub(crate) heights: Collector,
}

/// Reads a table. Fails only where allocation fails.
pub(crate) fn read<R: Records, S: Sizing>(
    alloc: Global,
    records: R,
    cfg: &S,
) -> Result<CollectedNeeds, AllocError>
    ensures { IfOk result (λ collected. AreCollectedNeeds (S.sizing cfg.now) (R.columns records) (R.rows records) collected) }
{
    match OnePadding::of(cfg) {
        Some(alike) => read_by(alloc, records, &alike),
        None => read_by(alloc, records, cfg),
    }
}

// Reads a table by settings that are looked up for each cell.
fn read_by<R: Records, S: Sizing>(
    alloc: Global,
    records: R,
    cfg: &S,
) -> Result<CollectedNeeds, AllocError>
    ensures { IfOk result (λ collected. AreCollectedNeeds (S.sizing cfg.now) (R.columns records) (R.rows records) collected) }
{
    let columns = records.count_columns();
    let mut widths = Collector::new(alloc);
    let mut heights = Collector::new(alloc);
    let rows = collect(alloc, records, cfg, &mut widths, &mut heights)?;
    Ok(CollectedNeeds {
        columns,
        rows,
        widths,
        heights,
    })
}

// Collects what the visible cells of a table need of its columns and of its rows, and counts its rows.
fn collect<R: Records, S: Sizing>(
    alloc: Global,
    records: R,
    cfg: &S,
    widths: &mut Collector,
    heights: &mut Collector,
) -> Result<usize, AllocError>
    requires { R.columns records ≤ usize.MAX }
    ensures rows { IfOk result (λ rows. rows ≡ length (R.rows records)) }
    ensures read { HasRead (S.sizing cfg.now) widths.old heights.old [] →
        OnOk result (HasRead (S.sizing cfg.now) widths.new heights.new (table_cells 0 (evened (R.columns records) (R.rows records)))) }
{
    let mut row = 0usize;
    for cells in records.iter_rows() {
        let next = row_after(alloc, row)?;
        collect_row(cells, row, cfg, widths, heights)?;
        row = next;
    }
    Ok(row)
}

// The row after this one. Where a `usize` does not count it, memory for the heights of so many rows is requested.
fn row_after(alloc: Global, row: usize) -> Result<usize, AllocError>
    ensures { IfOk result (λ next. next ≡ row + 1) }
{
    match row.checked_add(1) {
        Some(next) => Ok(next),
        None => ask_past_max(alloc),
    }
}

// Requests memory for as many heights as a `usize` counts, and is refused it.
#[cold]
#[inline(never)]
fn ask_past_max(alloc: Global) -> Result<usize, AllocError>
    ensures { IsErr result }
{
    let mut heights: Vec<usize> = Vec::new(alloc);
    heights.reserve(usize::MAX)?;
    unreachable!()
}

// Collects what the visible cells of a row need.
fn collect_row<C: Cell, I: Iterator<Item = Result<C, AllocError>>, S: Sizing>(
    cells: I,
    row: usize,
    cfg: &S,
    widths: &mut Collector,
    heights: &mut Collector,
) -> Result<(), AllocError>
    requires can { I.can_next cells }
    requires ends { IsFinite (I.remaining cells) }
    requires counted { (texts : List (List ℕ)) × (can_fail : Bool) ×
        GivesTexts I.can_next I.remaining I.next_gives C.text can_fail cells texts × (length texts ≤ usize.MAX) }
    requires below_max { row < usize.MAX }
    ensures { (texts : List (List ℕ)) (can_fail : Bool) (before : List Placed) →
        GivesTexts I.can_next I.remaining I.next_gives C.text can_fail cells texts → HasRead (S.sizing cfg.now) widths.old heights.old before →
        OnOk result (HasRead (S.sizing cfg.now) widths.new heights.new (before ++ row_cells_from row 0 texts)) }
{
    let mut column = 0usize;
    for cell in cells {
        collect_cell(&cell?, Position::new(row, column), cfg, widths, heights)?;
        column += 1;
    }
    Ok(())
}

// Collects what a cell needs, where it is visible.
fn collect_cell<C: Cell, S: Sizing>(
    cell: &C,
    pos: Position,
    cfg: &S,
    widths: &mut Collector,
    heights: &mut Collector,
) -> Result<(), AllocError>
    requires row { pos.row < usize.MAX }
    requires column { pos.col < usize.MAX }
    ensures { (before : List Placed) → HasRead (S.sizing cfg.now) widths.old heights.old before →
        OnOk result (HasRead (S.sizing cfg.now) widths.new heights.new (before ++ (pos, C.text cell.now) ∷ [])) }
{
    if !cfg.is_visible(pos) {
        return Ok(());
    }
    let (lines, width) = cell.dimension();
    widths.add(Need {
        length: cfg.columns(pos),
        first: pos.col,
        cross_track: pos.row,
        size: width as u128 + cfg.across(pos),
    })?;
    heights.add(Need {
        length: cfg.rows(pos),
        first: pos.row,
        cross_track: pos.col,
        size: lines as u128 + cfg.along(pos),
    })
}
