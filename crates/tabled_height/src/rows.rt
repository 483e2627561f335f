//! How high rows are to be.
ghost use Rattle.std.specs.Prelude.{◌≡◌, ◌≤◌, IfOk, None, Ok, length, replicate, sum};
ghost use Rattle.std.specs.Option.{option_map};
ghost use Rattle.grid_config.specs.Looks.{look_of};
ghost use Rattle.tabled_steps.specs.Outcomes.{AnswersStep, GivesState};
ghost use Rattle.tabled_height.specs.Heights.{estimate_with, estimated};
ghost use Rattle.tabled_height.specs.Steps.{AsksRows, GrownRows, ShrunkRows};

use crate::height::Height;
use grid_config::{Fault, SpannedConfig};
use grid_records::{FromText, VecRecords};
use grid_records_estimate::{IterGridDimension, total};
use grid_records_traits::Records;
use grid_records_traits::records::{ExactRecords, RecordColumns, RecordTexts};
use std::alloc::{AllocError, Global};
use tabled_size_priority::Peaker;
use tabled_steps::Measurement;

/// The least heights of the rows of a table, and the height that is requested of it; nothing without rows or columns.
/// Refused as the height may be, as `Range` where the lines pass `usize::MAX`, and as `Memory` where allocation fails.
pub(crate) fn asked_rows<T: FromText, W: Measurement<Height>>(
    alloc: Global,
    asked: &W,
    records: &VecRecords<T>,
    cfg: &SpannedConfig,
) -> Result<Option<(RowHeights, usize)>, Fault>
    ensures no_rows { length (⟦<VecRecords<T> as RecordTexts>⟧.rows records.now) ≡ 0 → result ≡ Ok None }
    ensures no_columns { ⟦<VecRecords<T> as RecordColumns>⟧.columns records.now ≡ 0 → result ≡ Ok None }
    ensures asks { GivesState (option_map (λ found. (estimate_with found.0.heights.items found.0.lines, found.1))) result
        (AsksRows (W.measures asked.now) (⟦<VecRecords<T> as RecordColumns>⟧.columns records.now) (⟦<VecRecords<T> as RecordTexts>⟧.rows records.now) (look_of cfg.now)) }
{
    if records.count_rows() == 0 || records.count_columns() == 0 {
        return Ok(None);
    }
    let height = asked.measure(alloc, records, cfg)?;
    let rows = RowHeights::estimate(alloc, records, cfg)?;
    Ok(Some((rows, height)))
}

/// The least heights that hold the texts of a table, and how many lines the table has with them.
#[derive(Drop)]
pub(crate) struct RowHeights {
    heights: Vec<usize>,
    lines: usize,
    ghost fits: { sum heights.items ≤ lines },
}

impl RowHeights {
    /// Of these records. Refused as `Range` where the lines pass `usize::MAX`, and as `Memory` where
    /// allocation fails.
    pub(crate) fn estimate<R: Records>(
        alloc: Global,
        records: R,
        cfg: &SpannedConfig,
    ) -> Result<RowHeights, Fault>
        ensures { AnswersStep (λ rows. estimate_with rows.heights.items rows.lines) result (estimated (look_of cfg.now) (R.columns records) (R.rows records)) }
    {
        let heights = IterGridDimension::height(alloc, records, cfg)?;
        let boundaries = cfg.count_horizontal(heights.len());
        let margin = cfg.get_margin();
        let lines = total(&heights, boundaries, margin.top.size, margin.bottom.size)?;
        Ok(RowHeights { heights, lines })
    }

    /// How many lines the table has.
    pub(crate) fn lines(&self) -> usize
        ensures { result ≡ self.now.lines }
    {
        self.lines
    }

    /// The heights that the rows get where the table has fewer lines than `height`, and else none.
    pub(crate) fn grown<P: Peaker + Drop>(self, priority: P, height: usize) -> Option<Vec<usize>>
        ensures { GrownRows P.grows priority height (estimate_with self.heights.items self.lines) (option_map (λ list. list.items) result) }
    {
        if height <= self.lines {
            return None;
        }
        let mut heights = self.heights;
        let mut priority = priority;
        priority.grow(&mut heights, height - self.lines);
        Some(heights)
    }

    /// The heights that are left to the rows where the table has more lines than `height`, and else none.
    /// It fails only where allocation fails.
    pub(crate) fn shrunk<P: Peaker + Drop>(
        self,
        alloc: Global,
        priority: P,
        height: usize,
    ) -> Result<Option<Vec<usize>>, AllocError>
        ensures { IfOk result (λ found. ShrunkRows P.shrinks priority height (estimate_with self.heights.items self.lines) (option_map (λ list. list.items) found)) }
    {
        if self.lines <= height {
            return Ok(None);
        }
        let least = zeros(alloc, self.heights.len())?;
        let mut heights = self.heights;
        let mut priority = priority;
        priority.shrink(&mut heights, &least, self.lines - height);
        Ok(Some(heights))
    }
}

// `count` zeros.
fn zeros(alloc: Global, count: usize) -> Result<Vec<usize>, AllocError>
    ensures { IfOk result (λ zeros. zeros.items ≡ replicate count 0) }
{
    let mut zeros = Vec::with_capacity(alloc, count)?;
    for _ in 0..count {
        zeros.push(0)?;
    }
    Ok(zeros)
}
