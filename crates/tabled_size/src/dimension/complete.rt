//! Sizes that a table keeps.
ghost use Rattle.std.specs.Prelude.{◌≡◌, ◌↔◌, None, IfOk, IsOk, IsTrue};
ghost use Rattle.std.specs.Option.{option_copied, option_map};
ghost use Rattle.tabled_size.specs.Dimension.Sizes.{CoversFirst, given_size};
ghost use Rattle.tabled_size.specs.Dimension.Stored.{stored_sizes};

use crate::dimension::lists::{covers_first, size_or};
use grid_config::{ColoredConfig, Entity, Fault, SpannedConfig};
use grid_records_estimate::{Estimate, IterGridDimension};
use grid_records_traits::{Dimension, Records};
use std::alloc::{AllocError, Global};
use std::marker::Model;

/// The widths and the heights that a table keeps, each perhaps not set. What is not set counts as an
/// empty list, and past a list each size is 0.
#[derive(Debug)]
pub struct CompleteDimension {
    widths: Option<Vec<usize>>,
    heights: Option<Vec<usize>>,
}

impl Drop for CompleteDimension {
    fn drop(self) {
        let CompleteDimension { widths, heights } = self;
        drop(widths);
        drop(heights);
    }
}

impl Model for CompleteDimension {
    ghost use Rattle.std.specs.Option.{option_map};
    ghost use Rattle.tabled_size.specs.Dimension.Stored.{Stored};

    ghost Value = { Stored };

    ghost view = { λ sizes. record { widths = option_map (λ list. list.items) sizes.widths; heights = option_map (λ list. list.items) sizes.heights } };
}

impl CompleteDimension {
    ghost use Rattle.std.specs.Prelude.{◌≡◌, ◌↔◌, ◌&&◌, None, Some, IfErr, IfOk, IsOk, IsSome, OnErr, OnOk, IsTrue, is_some, is_none};
    ghost use Rattle.std.specs.Option.{option_copied};
    ghost use Rattle.grid_records_estimate.specs.Kept.{least_sizes};
    ghost use Rattle.grid_records_estimate.specs.Sizes.{IsRefusal};
    ghost use Rattle.grid_records_estimate.specs.Sizing.{sizing_of};
    ghost use Rattle.tabled_size.specs.Dimension.Sizes.{CoversTable};
    ghost use Rattle.tabled_size.specs.Dimension.Stored.{CompletedPass, completed, kept_after, none_stored, stored_sizes};

    /// Whether the widths and the heights are set.
    pub fn is_complete(&self) -> bool
        ensures { result ≡ (is_some self.now.widths && is_some self.now.heights) }
    {
        self.widths.is_some() && self.heights.is_some()
    }

    /// Whether neither the widths nor the heights are set.
    pub fn is_empty(&self) -> bool
        ensures { result ≡ (is_none self.now.widths && is_none self.now.heights) }
    {
        self.widths.is_none() && self.heights.is_none()
    }

    /// Sets the widths, in columns of the terminal. Does not allocate.
    pub fn set_widths(&mut self, widths: Vec<usize>)
        ensures { self.new ≡ record self.old { widths = Some widths.items } }
    {
        self.widths = Some(widths);
    }

    /// Sets the heights, in lines. Does not allocate.
    pub fn set_heights(&mut self, heights: Vec<usize>)
        ensures { self.new ≡ record self.old { heights = Some heights.items } }
    {
        self.heights = Some(heights);
    }

    /// Forgets the widths.
    pub fn clear_width(&mut self)
        ensures { self.new ≡ record self.old { widths = None } }
    {
        self.widths = None;
    }

    /// Forgets the heights.
    pub fn clear_height(&mut self)
        ensures { self.new ≡ record self.old { heights = None } }
    {
        self.heights = None;
    }

    /// Forgets the widths and the heights.
    pub fn clear(&mut self)
        ensures { self.new ≡ none_stored }
    {
        self.clear_width();
        self.clear_height();
    }

    /// Forgets what a change of these cells may make wrong. After a change of a column it forgets the widths,
    /// and after one of a row the heights. After one of all cells or of a single cell it forgets both, and
    /// after none nothing.
    pub fn reastimate(&mut self, hint: Option<Entity>)
        ensures { self.new ≡ kept_after hint self.old }
    {
        match hint {
            None => {}
            Some(Entity::Column(_)) => self.clear_width(),
            Some(Entity::Row(_)) => self.clear_height(),
            Some(Entity::Global) | Some(Entity::Cell(..)) => self.clear(),
        }
    }

    /// The widths, where they are set.
    pub fn get_widths(&self) -> Option<&[usize]>
        ensures { option_copied result ≡ self.now.widths }
    {
        as_slice(&self.widths)
    }

    /// The heights, where they are set.
    pub fn get_heights(&self) -> Option<&[usize]>
        ensures { option_copied result ≡ self.now.heights }
    {
        as_slice(&self.heights)
    }

    /// Whether no column and no row of a table of `columns` columns and `rows` rows is past its list.
    pub fn covers(&self, columns: usize, rows: usize) -> bool
        ensures { IsTrue result ↔ CoversTable columns rows (stored_sizes self.now.widths, stored_sizes self.now.heights) }
    {
        covers(self.get_widths(), columns) && covers(self.get_heights(), rows)
    }

    /// The same sizes again. Fails only where allocation fails, and never where nothing is set.
    pub fn clone(&self, alloc: Global) -> Result<CompleteDimension, AllocError>
        ensures sizes { IfOk result (λ copy. copy ≡ self.now) }
        ensures none { self.now ≡ none_stored → IsOk result }
    {
        Ok(CompleteDimension {
            widths: copied(alloc, self.get_widths())?,
            heights: copied(alloc, self.get_heights())?,
        })
    }

    // Fills what is not set with the least sizes of the table. Refused as `Range` where one of these
    // passes `usize::MAX`, and as `Memory` where allocation fails, and then nothing has changed.
    fn fill<R: Records>(
        &mut self,
        alloc: Global,
        records: R,
        cfg: &SpannedConfig,
    ) -> Result<(), Fault>
        ensures ok { OnOk result (self.new ≡ completed (least_sizes (sizing_of cfg.now) (R.columns records) (R.rows records)) self.old) }
        ensures refused { IfErr result (λ fault. IsRefusal fault (CompletedPass (least_sizes (sizing_of cfg.now) (R.columns records) (R.rows records)) self.old)) }
        ensures err { OnErr result (self.new ≡ self.old) }
        ensures complete { IsSome self.old.widths → IsSome self.old.heights → IsOk result }
    {
        match (self.widths.is_some(), self.heights.is_some()) {
            (true, true) => {
                // records that are not read are to be let go of
                let _rows = records.iter_rows();
            }
            (true, false) => {
                let heights = IterGridDimension::height(alloc, records, cfg)?;
                self.set_heights(heights);
            }
            (false, true) => {
                let widths = IterGridDimension::width(alloc, records, cfg)?;
                self.set_widths(widths);
            }
            (false, false) => {
                let (widths, heights) = IterGridDimension::dimension(alloc, records, cfg)?;
                self.set_widths(widths);
                self.set_heights(heights);
            }
        }
        Ok(())
    }
}

// The list as a slice, where there is one.
fn as_slice(sizes: &Option<Vec<usize>>) -> Option<&[usize]>
    ensures { option_copied result ≡ option_map (λ list. list.items) sizes.now }
{
    match sizes {
        Some(sizes) => Some(sizes.as_slice()),
        None => None,
    }
}

// The size at this number.
fn size_at(sizes: Option<&[usize]>, number: usize) -> usize
    ensures { result ≡ given_size (stored_sizes (option_copied sizes.entry)) number }
{
    match sizes {
        Some(sizes) => size_or(sizes, number, 0),
        None => 0,
    }
}

// Whether no number below this one is past the list.
fn covers(sizes: Option<&[usize]>, count: usize) -> bool
    ensures { IsTrue result ↔ CoversFirst count (stored_sizes (option_copied sizes.entry)) }
{
    match sizes {
        Some(sizes) => covers_first(sizes, count),
        None => count == 0,
    }
}

// The list again, where there is one.
fn copied(alloc: Global, sizes: Option<&[usize]>) -> Result<Option<Vec<usize>>, AllocError>
    ensures sizes { IfOk result (λ copy. option_map (λ list. list.items) copy ≡ option_copied sizes.entry) }
    ensures none { option_copied sizes.entry ≡ None → IsOk result }
{
    match sizes {
        Some(sizes) => Ok(Some(Vec::from_slice(alloc, sizes)?)),
        None => Ok(None),
    }
}

/// Nothing is set. Does not allocate.
impl Default for CompleteDimension {
    ghost use Rattle.std.specs.Prelude.{◌≡◌};
    ghost use Rattle.tabled_size.specs.Dimension.Stored.{none_stored};

    ghost is_default = { λ sizes. sizes ≡ none_stored };

    fn default() -> CompleteDimension {
        CompleteDimension {
            widths: None,
            heights: None,
        }
    }
}

impl Dimension for CompleteDimension {
    ghost use Rattle.tabled_size.specs.Dimension.Sizes.{given_size};
    ghost use Rattle.tabled_size.specs.Dimension.Stored.{stored_sizes};

    ghost width = { λ sizes. given_size (stored_sizes sizes.widths) };

    ghost height = { λ sizes. given_size (stored_sizes sizes.heights) };

    fn get_width(&self, column: usize) -> usize {
        size_at(self.get_widths(), column)
    }

    fn get_height(&self, row: usize) -> usize {
        size_at(self.get_heights(), row)
    }
}

/// It fills what is not set; what is set stays, and where all is set it is not refused.
impl<R: Records> Estimate<R, SpannedConfig> for CompleteDimension {
    ghost use Rattle.std.specs.Prelude.{◌≡◌, IfErr, IsOk, IsSome, OnErr, OnOk};
    ghost use Rattle.grid_records_estimate.specs.Kept.{least_sizes};
    ghost use Rattle.grid_records_estimate.specs.Sizes.{IsRefusal};
    ghost use Rattle.grid_records_estimate.specs.Sizing.{sizing_of};
    ghost use Rattle.tabled_size.specs.Dimension.Stored.{CompletedPass, completed};

    ghost is_estimate = { λ records cfg before after. after ≡ completed (least_sizes (sizing_of cfg) (R.columns records) (R.rows records)) before };

    ghost passes = { λ records cfg before. CompletedPass (least_sizes (sizing_of cfg) (R.columns records) (R.rows records)) before };

    fn estimate(&mut self, alloc: Global, records: R, cfg: &SpannedConfig) -> Result<(), Fault>
        ensures ok { OnOk result (self.new ≡ completed (least_sizes (sizing_of cfg.now) (R.columns records) (R.rows records)) self.old) }
        ensures refused { IfErr result (λ fault. IsRefusal fault (CompletedPass (least_sizes (sizing_of cfg.now) (R.columns records) (R.rows records)) self.old)) }
        ensures err { OnErr result (self.new ≡ self.old) }
        ensures complete { IsSome self.old.widths → IsSome self.old.heights → IsOk result }
    {
        self.fill(alloc, records, cfg)
    }
}

/// It fills what is not set; what is set stays, and where all is set it is not refused. Colours take no
/// width.
impl<R: Records> Estimate<R, ColoredConfig> for CompleteDimension {
    ghost use Rattle.std.specs.Prelude.{◌≡◌, IfErr, IsOk, IsSome, OnErr, OnOk};
    ghost use Rattle.grid_records_estimate.specs.Kept.{least_sizes};
    ghost use Rattle.grid_records_estimate.specs.Sizes.{IsRefusal};
    ghost use Rattle.grid_records_estimate.specs.Sizing.{sizing_of};
    ghost use Rattle.tabled_size.specs.Dimension.Stored.{CompletedPass, completed};

    ghost is_estimate = { λ records cfg before after. after ≡ completed (least_sizes (sizing_of cfg.settings) (R.columns records) (R.rows records)) before };

    ghost passes = { λ records cfg before. CompletedPass (least_sizes (sizing_of cfg.settings) (R.columns records) (R.rows records)) before };

    fn estimate(&mut self, alloc: Global, records: R, cfg: &ColoredConfig) -> Result<(), Fault>
        ensures ok { OnOk result (self.new ≡ completed (least_sizes (sizing_of cfg.now.settings) (R.columns records) (R.rows records)) self.old) }
        ensures refused { IfErr result (λ fault. IsRefusal fault (CompletedPass (least_sizes (sizing_of cfg.now.settings) (R.columns records) (R.rows records)) self.old)) }
        ensures err { OnErr result (self.new ≡ self.old) }
        ensures complete { IsSome self.old.widths → IsSome self.old.heights → IsOk result }
    {
        self.fill(alloc, records, cfg.spanned())
    }
}
