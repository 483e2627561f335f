//! Where the cells of a text end, row by row, and the widest of each column.
use crate::ends::{CellEnd, CellEnds};
use std::alloc::{AllocError, Global};
use std::marker::Model;

/// Where cells end in a text, by their rows, as they are read. The cells come one after the other, separated by one
/// byte each. It keeps the greatest width of each column on the way, so that no cell is looked at again for it.
pub struct RowEnds {
    ends: CellEnds,
    // How many cells each row has, and how many the row that isn't ended.
    counts: Vec<usize>,
    begun: usize,
    // What the widest cell of each column takes.
    widest: Vec<usize>,
}

impl Drop for RowEnds {
    fn drop(self) {
        let RowEnds {
            ends,
            counts,
            begun: _,
            widest,
        } = self;
        drop(ends);
        drop(counts);
        drop(widest);
    }
}

impl Model for RowEnds {
    ghost use Rattle.std.specs.Prelude.{◌≡◌, ◌+◌, ◌++◌, ◌∷◌, [], length, sum};
    ghost use Rattle.columns_table.specs.Columns.{AreWidest, end_widths};
    ghost use Rattle.columns_table.specs.RowEnds.{EndedRows};

    ghost Value = { EndedRows };

    ghost view = { λ rows. record { ends = rows.ends; counts = rows.counts.items; begun = rows.begun } };

    ghost invariant = { λ rows. (sum rows.counts.items + rows.begun ≡ length rows.ends)
        × AreWidest rows.widest.items (rows.counts.items ++ rows.begun ∷ []) (end_widths rows.ends) };
}

impl RowEnds {
    ghost use Rattle.std.specs.Prelude.{◌≡◌, ◌<◌, ◌+◌, ◌-◌, ◌++◌, ◌∷◌, [], IfOk, IsTrue, OnErr, OnOk, length, nat_lt, sum};
    ghost use Rattle.columns_table.specs.Columns.{AreWidest, end_widths};
    ghost use Rattle.columns_table.specs.Ends.{start_behind};
    ghost use Rattle.columns_table.specs.RowEnds.{no_rows, row_ended, with_cell};

    /// No rows. Fails only where allocation fails.
    pub fn new(alloc: Global) -> Result<RowEnds, AllocError>
        ensures { IfOk result (λ rows. rows ≡ no_rows) }
    {
        Ok(RowEnds {
            ends: CellEnds::new(alloc)?,
            counts: Vec::new(alloc),
            begun: 0,
            widest: Vec::new(alloc),
        })
    }

    /// No rows, with capacity for so many cells and rows, so that it need not grow before there are more. Fails only
    /// where allocation fails.
    pub fn with_capacity(alloc: Global, cells: usize, rows: usize) -> Result<RowEnds, AllocError>
        ensures { IfOk result (λ rows. rows ≡ no_rows) }
    {
        Ok(RowEnds {
            ends: CellEnds::with_capacity(alloc, cells)?,
            counts: Vec::with_capacity(alloc, rows)?,
            begun: 0,
            widest: Vec::new(alloc),
        })
    }

    /// Whether the row that isn't ended has a cell.
    #[inline(always)]
    pub fn has_begun(&self) -> bool
        ensures { result ≡ nat_lt 0 self.now.begun }
    {
        self.begun > 0
    }

    /// Appends the end of a cell, below `usize::MAX`, to the row that isn't ended. Fails only where
    /// allocation fails, and then nothing has changed.
    #[inline(always)]
    pub fn push(&mut self, cell: CellEnd) -> Result<(), AllocError>
        requires { cell.end < usize.MAX }
        ensures more { OnOk result (self.new ≡ with_cell self.old cell) }
        ensures err { OnErr result (self.new ≡ self.old) }
    {
        self.push_end(cell, false)
    }

    /// Appends the end of a cell that takes as many columns as it has bytes, which is not tested again. Otherwise as
    /// `push`.
    #[inline(always)]
    pub fn push_printable(&mut self, cell: CellEnd) -> Result<(), AllocError>
        requires below_max { cell.end < usize.MAX }
        requires bytes { cell.width ≡ cell.end - start_behind self.old.ends }
        ensures more { OnOk result (self.new ≡ with_cell self.old cell) }
        ensures err { OnErr result (self.new ≡ self.old) }
    {
        self.push_end(cell, true)
    }

    // Appends the end of a cell, whose columns are not tested where it is `printable`.
    #[inline(always)]
    fn push_end(&mut self, cell: CellEnd, printable: bool) -> Result<(), AllocError>
        requires below_max { cell.end < usize.MAX }
        requires bytes { IsTrue printable → cell.width ≡ cell.end - start_behind self.old.ends }
        ensures more { OnOk result (self.new ≡ with_cell self.old cell) }
        ensures err { OnErr result (self.new ≡ self.old) }
    {
        let column = self.begun;
        if column >= self.widest.len() {
            self.widest.push(0)?;
        }
        let widest = &mut self.widest[column];
        self.ends.push_end(cell, printable)?;
        *widest = (*widest).max(cell.width);
        self.begun = column + 1;
        Ok(())
    }

    /// Ends the row. Fails only where allocation fails, and then nothing has changed.
    #[inline(always)]
    pub fn end_row(&mut self) -> Result<(), AllocError>
        ensures ended { OnOk result (self.new ≡ row_ended self.old) }
        ensures err { OnErr result (self.new ≡ self.old) }
    {
        self.counts.push(self.begun)?;
        self.begun = 0;
        Ok(())
    }

    // Where the cells end, how many each row has, and what the widest cell of each column takes.
    pub(crate) fn into_parts(self) -> (CellEnds, Vec<usize>, Vec<usize>)
        ensures ends { result.0 ≡ self.ends }
        ensures counts { result.1.items ≡ self.counts }
        ensures total { sum result.1.items + self.begun ≡ length result.0 }
        ensures widest { AreWidest result.2.items (result.1.items ++ self.begun ∷ []) (end_widths result.0) }
    {
        let RowEnds {
            ends,
            counts,
            begun: _,
            widest,
        } = self;
        (ends, counts, widest)
    }
}
