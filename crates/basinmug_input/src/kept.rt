//! The rows that are kept of all that are read.
ghost use Rattle.std.specs.Prelude.{◌≡◌, ◌+◌, ◌<◌, ◌^◌, ◌++◌, ◌∷◌, ℕ, List, [], IfOk, OnOk};
ghost use Rattle.basinmug_input.specs.Kept.{HasKept, IsReadRows, StandsFor, kept_rows, rows_before};

use basinmug_cells::Rows;
use std::alloc::{AllocError, Global};

/// How many rows that are not kept are held at least, before they are removed.
const SPARE_ROWS: usize = 64;

/// Which rows of a text are kept.
#[derive(Clone, Copy, Debug, PartialEq, Eq)]
pub enum RowChoice {
    /// All.
    All,
    /// The first `first`, and of those after them the last `last`.
    Ends { first: usize, last: usize },
}

/// The rows of a text that are kept, and what is known of all its rows.
#[derive(Drop)]
pub struct ReadRows<'a> {
    /// The rows that are kept, in their order.
    pub rows: Rows<'a>,
    /// How many of them come before the rows that are left out.
    pub before: usize,
    /// How many rows are left out, all one after the other.
    pub left_out: usize,
    /// How many fields the longest of all rows has, kept or left out.
    pub columns: usize,
}

/// The rows that are kept of those that have come so far, and some others.
pub(crate) struct KeptRows<'a> {
    choice: RowChoice,
    pub(crate) rows: Rows<'a>,
    count: usize,
    columns: usize,
}

impl Drop for KeptRows<'_> {
    fn drop(self) {
        let KeptRows {
            choice: _choice,
            rows,
            count: _count,
            columns: _columns,
        } = self;
        drop(rows);
    }
}

impl<'a> KeptRows<'a> {
    /// No rows yet, of whose cells parts of this text may be, with capacity for so many cells. Fails only where allocation
    /// fails.
    pub(crate) fn with_capacity(
        alloc: Global,
        choice: RowChoice,
        text: &'a str,
        cells: usize,
    ) -> Result<KeptRows<'a>, AllocError>
        ensures { IfOk result (HasKept choice text.now [] []) }
    {
        Ok(KeptRows {
            choice,
            rows: Rows::with_capacity(alloc, text, cells, 0)?,
            count: 0,
            columns: 0,
        })
    }

    /// Ends the next row. Fails only where allocation fails.
    #[inline]
    pub(crate) fn end_row(&mut self) -> Result<(), AllocError>
        requires { self.old.count + 1 < 2 ^ 64 }
        ensures { OnOk result ((choice : _) (text : List ℕ) (rows : List (List (List ℕ))) (begun : List (List ℕ)) → HasKept choice text rows begun self.old → HasKept choice text (rows ++ begun ∷ []) [] self.new) }
    {
        self.columns = self.columns.max(self.rows.begun_len());
        self.rows.end_row()?;
        self.count += 1;
        if let RowChoice::Ends { first, last } = self.choice {
            remove_others(&mut self.rows, first, last);
        }
        Ok(())
    }

    /// The rows that are kept, and what is known of all. Does not allocate.
    pub(crate) fn finish(self) -> ReadRows<'a>
        ensures { (choice : _) (text : List ℕ) (rows : List (List (List ℕ))) → HasKept choice text rows [] self.entry → IsReadRows choice rows result }
    {
        let KeptRows {
            choice,
            mut rows,
            count,
            columns,
        } = self;
        remove_all_others(&mut rows, choice);
        let left_out = count.saturating_sub(rows.len());
        ReadRows {
            rows,
            before: rows_before(choice, count),
            left_out,
            columns,
        }
    }
}

// Removes the rows that are not kept, where they are as many as those that are, and at least `SPARE_ROWS`: the others are
// moved once for each of them, and no more.
fn remove_others(rows: &mut Rows<'_>, first: usize, last: usize)
    ensures { StandsFor (RowChoice.Ends first last) rows.old rows.new }
{
    let most = first.saturating_add(last);
    if rows.len() >= most.saturating_add(most.max(SPARE_ROWS)) {
        rows.keep_ends(first, last);
    }
}

// Removes all rows that are not kept.
fn remove_all_others(rows: &mut Rows<'_>, choice: RowChoice)
    ensures { rows.new ≡ record rows.old { rows = kept_rows choice rows.old.rows } }
{
    if let RowChoice::Ends { first, last } = choice {
        rows.keep_ends(first, last);
    }
}

// How many of the kept rows come before those that are left out, where there are so many rows.
fn rows_before(choice: RowChoice, count: usize) -> usize
    ensures { result ≡ rows_before choice count }
{
    match choice {
        RowChoice::All => count,
        RowChoice::Ends { first, .. } => first.min(count),
    }
}
