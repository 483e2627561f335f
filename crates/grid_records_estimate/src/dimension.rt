//! The sizes of a table.
ghost use Rattle.std.specs.Prelude.{◌≡◌, ◌^◌, ◌≤◌, ◌⊎◌, IfErr, IfOk, slice_index};
ghost use Rattle.grid_records_estimate.specs.Collecting.{PassesMax};
ghost use Rattle.grid_records_estimate.specs.Kept.{least_sizes, none_kept};
ghost use Rattle.grid_records_estimate.specs.Sizes.{IsRefusal, height_total, table_heights, table_widths, width_total};

use crate::collected::{CollectedNeeds, read};
use crate::estimate::Estimate;
use crate::sizing::Sizing;
use crate::totals::total;
use grid_config::{CompactConfig, Fault, SpannedConfig};
use grid_records_traits::{Dimension, Records};
use std::alloc::Global;
use std::marker::{Model, PhantomData};

/// The sizes of a table with settings of this type: the least that hold its visible cells with their
/// paddings. Cells of one column or row come first, and then the spans, the shorter first.
#[derive(Debug, Drop)]
pub struct GridDimension<C> {
    widths: Vec<usize>,
    heights: Vec<usize>,
    settings: PhantomData<C>,
}

/// The sizes of a table whose cells are all alike.
pub type CompactGridDimension = GridDimension<CompactConfig>;

/// The sizes of a table that is read once.
pub type IterGridDimension = GridDimension<SpannedConfig>;

/// The sizes of a table whose cells are looked up: the same as those of one that is read once.
pub type PeekableGridDimension = GridDimension<SpannedConfig>;

impl<C> Model for GridDimension<C> {
    ghost use Rattle.grid_records_estimate.specs.Kept.{LeastSizes};

    ghost Value = { LeastSizes };

    ghost view = { λ sizes. record { widths = sizes.widths.items; heights = sizes.heights.items } };
}

impl<C: Sizing> GridDimension<C> {
    /// No sizes: each is 0. Does not allocate.
    pub fn default(alloc: Global) -> GridDimension<C>
        ensures { result ≡ none_kept }
    {
        GridDimension {
            widths: Vec::new(alloc),
            heights: Vec::new(alloc),
            settings: PhantomData,
        }
    }

    /// The least widths of the columns; none without rows. It looks at each cell, so that its time is
    /// rows times columns, empty ones too. Refused as `Range` where one passes `usize::MAX`, and as
    /// `Memory` where allocation fails.
    pub fn width<R: Records>(alloc: Global, records: R, cfg: &C) -> Result<Vec<usize>, Fault>
        ensures ok { IfOk result (λ sizes. sizes.items ≡ table_widths (C.sizing cfg.now) (R.columns records) (R.rows records)) }
        ensures refused { IfErr result (λ fault. IsRefusal fault (PassesMax (table_widths (C.sizing cfg.now) (R.columns records) (R.rows records)))) }
    {
        let CollectedNeeds {
            columns,
            rows,
            widths,
            ..
        } = read(alloc, records, cfg)?;
        widths.finish(columns, rows, cfg.borders().has_vertical())
    }

    /// The least heights of the rows; none without columns. It looks at each cell, so that its time is
    /// rows times columns, empty ones too. Refused as `Range` where one passes `usize::MAX`, and as
    /// `Memory` where allocation fails.
    pub fn height<R: Records>(alloc: Global, records: R, cfg: &C) -> Result<Vec<usize>, Fault>
        ensures ok { IfOk result (λ sizes. sizes.items ≡ table_heights (C.sizing cfg.now) (R.columns records) (R.rows records)) }
        ensures refused { IfErr result (λ fault. IsRefusal fault (PassesMax (table_heights (C.sizing cfg.now) (R.columns records) (R.rows records)))) }
    {
        let CollectedNeeds {
            columns,
            rows,
            heights,
            ..
        } = read(alloc, records, cfg)?;
        heights.finish(rows, columns, cfg.borders().has_horizontal())
    }

    /// The least widths and the least heights, found in one pass. It looks at each cell, so that its time is
    /// rows times columns, empty ones too. Refused as `Range` where one of either passes `usize::MAX`,
    /// and as `Memory` where allocation fails.
    pub fn dimension<R: Records>(
        alloc: Global,
        records: R,
        cfg: &C,
    ) -> Result<(Vec<usize>, Vec<usize>), Fault>
        ensures widths { IfOk result (λ sizes. sizes.0.items ≡ table_widths (C.sizing cfg.now) (R.columns records) (R.rows records)) }
        ensures heights { IfOk result (λ sizes. sizes.1.items ≡ table_heights (C.sizing cfg.now) (R.columns records) (R.rows records)) }
        ensures refused { IfErr result (λ fault. IsRefusal fault
            (PassesMax (table_widths (C.sizing cfg.now) (R.columns records) (R.rows records)) ⊎ PassesMax (table_heights (C.sizing cfg.now) (R.columns records) (R.rows records)))) }
    {
        let CollectedNeeds {
            columns,
            rows,
            widths,
            heights,
        } = read(alloc, records, cfg)?;
        let borders = cfg.borders();
        let widths = widths.finish(columns, rows, borders.has_vertical())?;
        let heights = heights.finish(rows, columns, borders.has_horizontal())?;
        Ok((widths, heights))
    }

    /// The columns that the table takes with its boundaries and margins, in time linear in its rows and
    /// columns, empty ones too; 0 without rows or columns. Refused as `Range` where they pass `usize::MAX`, and as
    /// `Memory` where allocation fails.
    pub fn width_total<R: Records>(alloc: Global, records: R, cfg: &C) -> Result<usize, Fault>
        ensures ok { IfOk result (λ n. n ≡ width_total (C.sizing cfg.now) (R.columns records) (R.rows records)) }
        ensures refused { IfErr result (λ fault. IsRefusal fault (2 ^ 64 ≤ width_total (C.sizing cfg.now) (R.columns records) (R.rows records))) }
    {
        let sizes = GridDimension::<C>::width(alloc, records, cfg)?;
        let boundaries = cfg.borders().count_vertical(sizes.len());
        let margin = cfg.margin();
        total(&sizes, boundaries, margin.left.size, margin.right.size)
    }

    /// The lines that the table takes with its boundaries and margins, in time linear in its rows and
    /// columns, empty ones too; 0 without rows or columns. Refused as `Range` where they pass `usize::MAX`, and as
    /// `Memory` where allocation fails.
    pub fn height_total<R: Records>(alloc: Global, records: R, cfg: &C) -> Result<usize, Fault>
        ensures ok { IfOk result (λ n. n ≡ height_total (C.sizing cfg.now) (R.columns records) (R.rows records)) }
        ensures refused { IfErr result (λ fault. IsRefusal fault (2 ^ 64 ≤ height_total (C.sizing cfg.now) (R.columns records) (R.rows records))) }
    {
        let sizes = GridDimension::<C>::height(alloc, records, cfg)?;
        let boundaries = cfg.borders().count_horizontal(sizes.len());
        let margin = cfg.margin();
        total(&sizes, boundaries, margin.top.size, margin.bottom.size)
    }
}

/// The sizes of the last estimate, by their numbers; after the last every size is 0.
impl<C> Dimension for GridDimension<C> {
    ghost width = { λ sizes column. slice_index sizes.widths column };

    ghost height = { λ sizes row. slice_index sizes.heights row };

    fn get_width(&self, column: usize) -> usize {
        self.widths.get(column).copied().unwrap_or(0)
    }

    fn get_height(&self, row: usize) -> usize {
        self.heights.get(row).copied().unwrap_or(0)
    }
}

impl<R: Records, C: Sizing> Estimate<R, C> for GridDimension<C> {
    ghost is_estimate = { λ records cfg _ sizes. sizes ≡ least_sizes (C.sizing cfg) (R.columns records) (R.rows records) };

    ghost passes = { λ records cfg _. PassesMax (table_widths (C.sizing cfg) (R.columns records) (R.rows records)) ⊎ PassesMax (table_heights (C.sizing cfg) (R.columns records) (R.rows records)) };

    fn estimate(&mut self, alloc: Global, records: R, cfg: &C) -> Result<(), Fault> {
        match GridDimension::<C>::dimension(alloc, records, cfg) {
            Ok((widths, heights)) => {
                self.widths = widths;
                self.heights = heights;
                Ok(())
            }
            Err(fault) => Err(fault),
        }
    }
}
