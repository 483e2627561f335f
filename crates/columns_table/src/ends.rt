//! Where the cells of a text end.
ghost use Rattle.std.specs.Prelude.{◌≡◌, ◌+◌, ◌<◌, OnOk, length};
ghost use Rattle.columns_table.specs.KeptEnds.{ends_of};

use std::alloc::{AllocError, Global};
use std::marker::Model;

/// Where a cell of a text ends, and the columns that it takes.
#[derive(Clone, Copy)]
pub struct CellEnd {
    pub end: usize,
    pub width: usize,
}

/// Where cells end that come one after the other in a text, separated by one byte each. In a contract it is the
/// list of their ends. A cell takes 8 bytes of memory. It takes 16 where it, or a later cell, takes another number of
/// columns than it has bytes.
#[derive(Drop)]
pub struct CellEnds {
    // Where each cell begins, the first at the start of the text, and where one more would.
    pub(crate) starts: Vec<usize>,
    // The columns that the first of the cells take. A cell after the last of them takes as many as it has bytes.
    pub(crate) widths: Vec<usize>,
}

impl Model for CellEnds {
    ghost use Rattle.std.specs.Prelude.{◌<◌, List, length};
    ghost use Rattle.columns_table.specs.declared.ends.CellEnd.{CellEnd};
    ghost use Rattle.columns_table.specs.KeptEnds.{AreFromStart, ends_of};

    ghost Value = { List CellEnd };

    ghost view = { λ ends. ends_of ends.widths.items ends.starts.items };

    ghost invariant = { λ ends. (length ends.widths.items < length ends.starts.items) × AreFromStart ends.starts.items };
}

impl CellEnds {
    ghost use Rattle.std.specs.Prelude.{◌≡◌, ◌<◌, ◌-◌, [], ◌∷◌, ◌++◌, IfOk, IsTrue, OnErr, OnOk};
    ghost use Rattle.columns_table.specs.Ends.{start_behind};

    /// No cells. Fails only where allocation fails.
    pub fn new(alloc: Global) -> Result<CellEnds, AllocError>
        ensures { IfOk result (λ ends. ends ≡ []) }
    {
        CellEnds::with_capacity(alloc, 0)
    }

    /// No cells, with capacity for `cells` of them. Fails only where allocation fails.
    pub fn with_capacity(alloc: Global, cells: usize) -> Result<CellEnds, AllocError>
        ensures { IfOk result (λ ends. ends ≡ []) }
    {
        let mut starts = Vec::with_capacity(alloc, cells.saturating_add(1))?;
        starts.push(0)?;
        Ok(CellEnds {
            starts,
            widths: Vec::new(alloc),
        })
    }

    /// Appends the end of a cell, which must be below `usize::MAX`. Fails only where allocation fails, and
    /// then nothing has changed.
    #[inline(always)]
    pub fn push(&mut self, cell: CellEnd) -> Result<(), AllocError>
        requires { cell.end < usize.MAX }
        ensures more { OnOk result (self.new ≡ self.old ++ cell ∷ []) }
        ensures err { OnErr result (self.new ≡ self.old) }
    {
        let start = self.starts[self.starts.len() - 1];
        if cell.width == cell.end.saturating_sub(start) {
            return self.push_printable(cell);
        }
        self.push_with_width(cell)
    }

    /// Appends the end of a cell that takes as many columns as it has bytes, which is not tested again. Fails only
    /// where allocation fails, and then nothing has changed.
    #[inline(always)]
    pub fn push_printable(&mut self, cell: CellEnd) -> Result<(), AllocError>
        requires below_max { cell.end < usize.MAX }
        requires bytes { cell.width ≡ cell.end - start_behind self.old }
        ensures more { OnOk result (self.new ≡ self.old ++ cell ∷ []) }
        ensures err { OnErr result (self.new ≡ self.old) }
    {
        self.starts.push(cell.end + 1)?;
        Ok(())
    }

    /// Appends the end of a cell, as `push_printable` does where it is `printable`, and else as `push` does.
    #[inline(always)]
    pub(crate) fn push_end(&mut self, cell: CellEnd, printable: bool) -> Result<(), AllocError>
        requires below_max { cell.end < usize.MAX }
        requires bytes { IsTrue printable → cell.width ≡ cell.end - start_behind self.old }
        ensures more { OnOk result (self.new ≡ self.old ++ cell ∷ []) }
        ensures err { OnErr result (self.new ≡ self.old) }
    {
        if printable {
            self.push_printable(cell)
        } else {
            self.push(cell)
        }
    }

    // Appends the end of a cell, and keeps the columns that it takes.
    #[inline(always)]
    fn push_with_width(&mut self, cell: CellEnd) -> Result<(), AllocError>
        requires { cell.end < usize.MAX }
        ensures more { OnOk result (self.new ≡ self.old ++ cell ∷ []) }
        ensures err { OnErr result (self.new ≡ self.old) }
    {
        give_widths(&mut self.widths, &self.starts)?;
        self.widths.push(cell.width)?;
        match self.starts.push(cell.end + 1) {
            Ok(()) => Ok(()),
            Err(error) => {
                self.widths.pop();
                Err(error.into())
            }
        }
    }
}

// Gives each cell without columns as many as it has bytes.
#[inline(always)]
fn give_widths(widths: &mut Vec<usize>, starts: &[usize]) -> Result<(), AllocError>
    requires within { length widths.old.items < length starts.now }
    ensures within { length widths.new.items < length starts.now }
    ensures all { OnOk result (length widths.new.items + 1 ≡ length starts.now) }
    ensures same { ends_of widths.new.items starts.now ≡ ends_of widths.old.items starts.now }
{
    while widths.len() < starts.len() - 1 {
        let cell = widths.len();
        let end = starts[cell + 1].saturating_sub(1);
        widths.push(end.saturating_sub(starts[cell]))?;
    }
    Ok(())
}
