//! The cells of a source, cut at the widths of their columns.
ghost use Rattle.std.specs.Prelude.{◌≡◌, ◌<◌, ◌≤◌, IfErr, IfOk, IfSome, Ok, refl, true};
ghost use Rattle.std.specs.Iterator.{at_most};
ghost use Rattle.grid_records_measure.specs.TextLines.{text_width};
ghost use Rattle.grid_records.specs.RecordRows.Buffering.{of_rest};
ghost use Rattle.grid_records.specs.RecordRows.Truncating.{GivesTruncated, GivesTruncatedRow, next_column, text_of_truncated, truncated_row, truncated_rows, truncated_text};
ghost use Rattle.grid_records.specs.declared.rows.records.into_records.truncate_content.Truncated.TheVariants.{Whole};
ghost use Rattle.grid_records_traits.specs.Laws.Leaving.{passed_made};
ghost use Rattle.grid_records.specs.RecordRows.Laws.Truncating.{truncated_rows_give};

use crate::rows::dimension::Dimension;
use crate::rows::records::RecordTexts;
use crate::rows::records::into_records::IntoRecords;
use crate::rows::records::vec_records::Cell;
use grid_records_measure::cut_width;
use std::alloc::{AllocError, Global};

/// The cells of a source, each cut at the width of its column where it measures more. A cell is cut when
/// it is read, which fails where allocation fails; a cell that fits never fails.
#[derive(Debug, Drop)]
pub struct TruncateContent<I, D> {
    alloc: Global,
    records: I,
    dimension: D,
}

impl<I: IntoRecords, D: Dimension + Copy> TruncateContent<I, D> {
    /// The cells of the source, cut at these widths. Does not allocate itself.
    pub fn new(alloc: Global, records: I, dimension: D) -> TruncateContent<I, D>
        ensures { ⟦<TruncateContent<I, D> as RecordTexts>⟧.rows result ≡ truncated_rows (D.width dimension) (I.RecordTexts.rows records) }
    {
        TruncateContent {
            alloc,
            records,
            dimension,
        }
    }
}

impl<I: IntoRecords, D: Dimension + Copy> RecordTexts for TruncateContent<I, D> {
    ghost rows = { λ s. truncated_rows (D.width s.dimension) (I.RecordTexts.rows s.records) };

    ghost can_fail = { λ _. true };
}

impl<I: IntoRecords, D: Dimension + Copy> IntoRecords for TruncateContent<I, D> {
    type Cell = Truncated<I::Cell>;

    type IterColumns = TruncatedCells<I::IterColumns, D>;

    type IterRows = TruncatedRows<I::IterRows, D>;

    ghost rows_left = { λ s. truncated_rows (D.width s.dimension) (I.rows_left s.rows) };

    ghost can_fail_left = { λ _. true };

    ghost gives = { λ s. truncated_rows_give I.IterRows.next_gives I.IterColumns.next_gives I.Cell.text D.width s (I.gives s.rows) };

    ghost passes = { λ s t cells step. (passed_made (λ d. truncated_row (D.width d) 0) _ _ _ _ step.0 (I.passes s.rows t.rows step.1.0 step.1.1).0, refl) };

    fn iter_rows(self) -> TruncatedRows<I::IterRows, D> {
        TruncatedRows {
            alloc: self.alloc,
            rows: self.records.iter_rows(),
            dimension: self.dimension,
        }
    }
}

/// A cell as it came, or what is left of its text.
#[derive(Debug, Drop)]
pub enum Truncated<C> {
    /// The cell as it came.
    Whole(C),
    /// Its text, cut at the width.
    Cut(String),
}

impl<C: Cell> Cell for Truncated<C> {
    ghost text = { λ cell. text_of_truncated C.text cell };

    fn text(&self) -> &str {
        match self {
            Truncated::Whole(cell) => cell.text(),
            Truncated::Cut(text) => text.as_str(),
        }
    }
}

// The cell as it is, or cut where it measures more than this width. Only a cut may fail, where allocation fails.
fn truncate<C: Cell>(alloc: Global, cell: C, width: usize) -> Result<Truncated<C>, AllocError>
    ensures ok { IfOk result (λ out. text_of_truncated C.text out ≡ truncated_text width (C.text cell)) }
    ensures whole { text_width (C.text cell) ≤ width → result ≡ Ok (Whole cell) }
    ensures refused { IfErr result (λ _. width < text_width (C.text cell)) }
{
    if cell.width() <= width {
        return Ok(Truncated::Whole(cell));
    }
    let cut = cut_width(alloc, cell.text(), width)?.into_owned(alloc)?;
    Ok(Truncated::Cut(cut))
}

/// Rows whose cells are cut.
#[derive(Debug, Drop)]
pub struct TruncatedRows<I, D> {
    alloc: Global,
    rows: I,
    dimension: D,
}

impl<C: Cell, D: Dimension + Copy, I: Iterator> Iterator for TruncatedRows<I, D>
where
    I::Item: Iterator<Item = Result<C, AllocError>>,
{
    type Item = TruncatedCells<I::Item, D>;

    ghost can_next = { λ s. I.can_next s.rows };

    ghost next_gives = { GivesTruncatedRow I.next_gives };

    ghost remaining = { λ s. I.remaining s.rows };

    fn next(&mut self) -> Option<TruncatedCells<I::Item, D>> {
        let cells = self.rows.next()?;
        Some(TruncatedCells {
            alloc: self.alloc,
            cells: Some(cells),
            dimension: self.dimension,
            column: 0,
        })
    }
}

/// The cells of a row, cut; none after a refusal.
#[derive(Debug, Drop)]
pub struct TruncatedCells<I, D> {
    alloc: Global,
    cells: Option<I>,
    dimension: D,
    column: usize,
}

impl<C: Cell, D: Dimension + Copy, I: Iterator<Item = Result<C, AllocError>>> Iterator
    for TruncatedCells<I, D> {
    type Item = Result<Truncated<C>, AllocError>;

    ghost can_next = { λ s. IfSome s.cells I.can_next };

    ghost next_gives = { GivesTruncated I.next_gives C.text D.width };

    ghost remaining = { λ s. of_rest I.remaining (at_most 0) s.cells };

    fn next(&mut self) -> Option<Result<Truncated<C>, AllocError>> {
        let Some(cells) = &mut self.cells else {
            return None;
        };
        let answer = match cells.next()? {
            Ok(cell) => truncate(self.alloc, cell, self.dimension.get_width(self.column)),
            Err(refusal) => Err(refusal),
        };
        match answer {
            Ok(cell) => {
                self.column = next_column(self.column);
                Some(Ok(cell))
            }
            Err(refusal) => {
                self.cells = None;
                Some(Err(refusal))
            }
        }
    }
}

// The number of the next column; no number is greater than the greatest.
fn next_column(column: usize) -> usize
    ensures { result ≡ next_column column }
{
    if column < usize::MAX {
        column + 1
    } else {
        column
    }
}
