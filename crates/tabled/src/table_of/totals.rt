//! How much a table takes as a whole.
ghost use Rattle.std.specs.Prelude.{◌≡◌, ◌≤◌, ◌^◌, IfErr, IfOk, Ok, true};
ghost use Rattle.grid_records_estimate.specs.Sizes.{IsRefusal};
ghost use Rattle.grid_records_estimate.specs.Collecting.{PassesMax};
ghost use Rattle.tabled.specs.Printing.{drawn_heights, drawn_sizes, drawn_widths};
ghost use Rattle.tabled.specs.Tables.{table_state};
ghost use Rattle.tabled.specs.Totals.{drawn_height, drawn_width};
ghost use Rattle.tabled_height.specs.Steps.{has_no_cells};

use crate::table_of::TableOf;
use crate::table_records::TableRecords;
use grid_config::Fault;
use papergrid_fits::{full_line_width, heights, total_height, widths};
use tabled_size::CompleteDimension;

impl<R: TableRecords> TableOf<R> {
    /// How many columns a line of the table takes, margins too, in the widths that it keeps and else in the
    /// least. It is 0 without rows or columns. The sequences of its texts change none of it. Refused as `Range` where
    /// that passes `usize::MAX`, and as `Memory` where allocation fails.
    pub fn total_width(&self) -> Result<usize, Fault>
        ensures total { IfOk result (λ total. total ≡ drawn_width (table_state R.rows self.now)) }
        ensures no_cells { has_no_cells (table_state R.rows self.now) ≡ true → result ≡ Ok 0 }
        ensures refused { IfErr result (λ fault. IsRefusal fault (2 ^ 64 ≤ drawn_width (table_state R.rows self.now))) }
    {
        if self.is_empty() {
            return Ok(0);
        }
        let sizes = self.sized_widths()?;
        match full_line_width(self.config.spanned(), &sizes, self.count_columns()) {
            Some(total) => Ok(total),
            None => Err(Fault::Range),
        }
    }

    /// How many lines the table takes, in the heights that it keeps and else in the least, margins too; 0
    /// without rows or columns. The sequences of its texts change none of it. Refused as `Range` where that
    /// passes `usize::MAX`, and as `Memory` where allocation fails.
    pub fn total_height(&self) -> Result<usize, Fault>
        ensures total { IfOk result (λ total. total ≡ drawn_height (table_state R.rows self.now)) }
        ensures no_cells { has_no_cells (table_state R.rows self.now) ≡ true → result ≡ Ok 0 }
        ensures refused { IfErr result (λ fault. IsRefusal fault (2 ^ 64 ≤ drawn_height (table_state R.rows self.now))) }
    {
        if self.is_empty() {
            return Ok(0);
        }
        let sizes = self.sized_heights()?;
        match total_height(self.config.spanned(), &sizes, self.count_rows()) {
            Some(total) => Ok(total),
            None => Err(Fault::Range),
        }
    }

    /// The widths of its columns as they are drawn: those that it keeps, and else the least. Nothing is changed,
    /// and nothing kept. Refused as `Range` exactly where one of them passes `usize::MAX`, and as `Memory` where
    /// allocation fails.
    pub fn widths(&self) -> Result<Vec<usize>, Fault>
        ensures widths { IfOk result (λ widths. widths.items ≡ drawn_widths (table_state R.rows self.now)) }
        ensures refused { IfErr result (λ fault. IsRefusal fault (PassesMax (drawn_widths (table_state R.rows self.now)))) }
    {
        let sizes = self.sized_widths()?;
        Ok(widths(self.alloc, &sizes, self.count_columns())?)
    }

    /// The heights of its rows as they are drawn: those that it keeps, and else the least. Nothing is changed,
    /// and nothing kept. Refused as `Range` exactly where one of them passes `usize::MAX`, and as `Memory` where
    /// allocation fails.
    pub fn heights(&self) -> Result<Vec<usize>, Fault>
        ensures heights { IfOk result (λ heights. heights.items ≡ drawn_heights (table_state R.rows self.now)) }
        ensures refused { IfErr result (λ fault. IsRefusal fault (PassesMax (drawn_heights (table_state R.rows self.now)))) }
    {
        let sizes = self.sized_heights()?;
        Ok(heights(self.alloc, &sizes, self.count_rows())?)
    }

    // The widths that are kept, and else the least; no heights.
    fn sized_widths(&self) -> Result<CompleteDimension, Fault>
        ensures widths { IfOk result (λ sizes. sizes.widths ≡ (drawn_sizes (table_state R.rows self.now)).widths) }
        ensures refused { IfErr result (λ fault. IsRefusal fault (2 ^ 64 ≤ drawn_width (table_state R.rows self.now))) }
        ensures passed { IfErr result (λ fault. IsRefusal fault (PassesMax (drawn_widths (table_state R.rows self.now)))) }
    {
        let mut sizes = self.dimension.clone(self.alloc)?;
        // what is set is not estimated, so that no height refuses
        sizes.set_heights(Vec::new(self.alloc));
        self.records
            .complete_sizes(self.alloc, self.config.spanned(), &mut sizes)?;
        Ok(sizes)
    }

    // The heights that are kept, and else the least; no widths.
    fn sized_heights(&self) -> Result<CompleteDimension, Fault>
        ensures heights { IfOk result (λ sizes. sizes.heights ≡ (drawn_sizes (table_state R.rows self.now)).heights) }
        ensures refused { IfErr result (λ fault. IsRefusal fault (2 ^ 64 ≤ drawn_height (table_state R.rows self.now))) }
        ensures passed { IfErr result (λ fault. IsRefusal fault (PassesMax (drawn_heights (table_state R.rows self.now)))) }
    {
        let mut sizes = self.dimension.clone(self.alloc)?;
        // what is set is not estimated, so that no width refuses
        sizes.set_widths(Vec::new(self.alloc));
        self.records
            .complete_sizes(self.alloc, self.config.spanned(), &mut sizes)?;
        Ok(sizes)
    }
}
