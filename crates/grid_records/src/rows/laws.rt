//! Laws of the definitions that the other contracts cite.
ghost use Rattle.std.specs.Prelude.{◌≡◌, ◌↔◌, ℕ, List, None, Option, Result, Some, [], false, length, true};
ghost use Rattle.std.specs.Borrow.{Bor};
ghost use Rattle.std.specs.Iterator.{at_most};
ghost use Rattle.std.specs.declared.alloc.AllocError.{AllocError as Refused};
ghost use Rattle.grid_records_traits.specs.Rows.{row_at};
ghost use Rattle.std.specs.declared.iter.Take.{Take as FirstOf};
ghost use Rattle.std.specs.declared.vec.IntoIter.{IntoIter as CellsIn};
ghost use Rattle.std.specs.Global.{Global as Heap};
ghost use Rattle.either.specs.declared.Either.{Either as KeptOrRest};
ghost use Rattle.grid_records_traits.specs.declared.records.into_records.given.GivenCells.{GivenCells as CellsKept};
ghost use Rattle.grid_records.specs.RecordRows.Buffering.{GivesKeptFirst};
ghost use Rattle.grid_records.specs.RecordRows.EvenRows.{EvensCell, GivesEvened};
ghost use Rattle.grid_records.specs.RecordRows.Sources.{GivesTaken};
ghost use Rattle.grid_records.specs.RecordRows.Truncating.{GivesTruncated, GivesTruncatedRow};
ghost use Rattle.grid_records.specs.declared.rows.records.empty.EmptyCells.{EmptyCells as BlankCells};
ghost use Rattle.grid_records.specs.declared.rows.records.empty.EmptyRecords.{EmptyRecords as Blank};
ghost use Rattle.grid_records.specs.declared.rows.records.empty.EmptyRows.{EmptyRows as BlankRows};
ghost use Rattle.grid_records.specs.declared.rows.records.into_records.truncate_content.Truncated.{Truncated as CutCell};
ghost use Rattle.grid_records.specs.declared.rows.records.into_records.truncate_content.TruncatedCells.{TruncatedCells as CutCells};
ghost use Rattle.grid_records.specs.declared.rows.records.into_records.truncate_content.TruncatedRows.{TruncatedRows as CutRows};
ghost use Rattle.grid_records.specs.declared.rows.records.into_records.buf_records.BufferedRows.{BufferedRows as RowsBuffered};
ghost use Rattle.grid_records.specs.declared.rows.records.into_records.evened.EvenedCells.{EvenedCells as CellsMadeEven};
ghost use Rattle.grid_records.specs.declared.rows.records.into_records.evened.EvenedRows.{EvenedRows as RowsMadeEven};
ghost use Rattle.grid_records.specs.declared.rows.records.into_records.limit_columns.LimitedRows.{LimitedRows as RowsInLimit};
ghost use Rattle.grid_records.specs.declared.rows.records.peeked_records.PeekedCells.{PeekedCells as CellsByPlace};
ghost use Rattle.grid_records.specs.declared.rows.records.peeked_records.PeekedRows.{PeekedRows as RowsByPlace};
ghost use Rattle.grid_records.specs.declared.rows.records.iter_records.IterRecords.{IterRecords as Sequence};
ghost use Rattle.grid_records.specs.declared.rows.records.vec_records.VecRecords.{VecRecords as Vectors};

use crate::rows::dimension::Dimension;
use crate::rows::records::empty::{EmptyCells, EmptyRecords, EmptyRows};
use crate::rows::records::into_records::buf_records::BufferedRows;
use crate::rows::records::into_records::evened::{EvenedCells, EvenedRows};
use crate::rows::records::into_records::truncate_content::{TruncatedCells, TruncatedRows};
use crate::rows::records::into_records::{GivenRows, IntoRecords, LimitedRows};
use crate::rows::records::iter_records::IterRecords;
use crate::rows::records::peeked_records::{PeekedCells, PeekedRecords, PeekedRows};
use crate::rows::records::vec_records::{Cell, Text, VecRecords};
use crate::rows::records::{ExactRecords, PeekableRecords, RecordColumns, RecordTexts, Records};
use std::alloc::AllocError;
use std::vec;

/// Rows in vectors have as many columns as the first row has cells, and give their count as the hint.
/// So both follow from the texts, also after one was set. They refuse no cell.
pub fn vectors_count_what_they_hold<T: Cell>()
    ensures columns { (records : Vectors T) → ⟦<VecRecords<T> as RecordColumns>⟧.columns records ≡ length (row_at (⟦<VecRecords<T> as RecordTexts>⟧.rows records) 0) }
    ensures refuses_none { (records : Vectors T) → ⟦<VecRecords<T> as RecordTexts>⟧.can_fail records ≡ false }
    ensures hint { (records : Vectors T) → ⟦<VecRecords<T> as Records>⟧.hint records ≡ Some (length (⟦<VecRecords<T> as RecordTexts>⟧.rows records)) }
{}

/// `==` of rows of empty texts is equality of both counts. A clone has the same counts, and is never refused. Those
/// that are made by default have no row and no column. None of them refuses a cell.
pub fn empty_records_are_compared_and_cloned_whole()
    ensures equality { (a b : Blank) → (⟦<EmptyRecords as PartialEq>⟧.eq a b ≡ true) ↔ (a ≡ b) }
    ensures clone { (source clone : Blank) → ⟦<EmptyRecords as Clone>⟧.is_clone source clone → clone ≡ source }
    ensures comes { (source : Blank) → ⟦<EmptyRecords as Clone>⟧.is_infallible source }
    ensures at_first { (begun : Blank) → ⟦<EmptyRecords as Default>⟧.is_default begun → ⟦<EmptyRecords as RecordTexts>⟧.rows begun ≡ [] }
    ensures at_first_columns { (begun : Blank) → ⟦<EmptyRecords as Default>⟧.is_default begun → ⟦<EmptyRecords as RecordColumns>⟧.columns begun ≡ 0 }
    ensures refuses_none { (records : Blank) → ⟦<EmptyRecords as RecordTexts>⟧.can_fail records ≡ false }
{}

/// A clone of rows of empty texts that are left, or of what is left of one, is the same, and is never refused.
pub fn clones_of_empty_rows_are_the_same()
    ensures rows { (source clone : BlankRows) → ⟦<EmptyRows as Clone>⟧.is_clone source clone → clone ≡ source }
    ensures texts { (source clone : BlankCells) → ⟦<EmptyCells as Clone>⟧.is_clone source clone → clone ≡ source }
    ensures rows_come { (source : BlankRows) → ⟦<EmptyRows as Clone>⟧.is_infallible source }
    ensures texts_come { (source : BlankCells) → ⟦<EmptyCells as Clone>⟧.is_infallible source }
{}

/// After its end an iterator over rows of empty texts has none left; no more are left than are still to come.
pub fn empty_rows_end_for_good()
    ensures rows { (before after : BlankRows) → ⟦<EmptyRows as Iterator>⟧.next_gives before None after → ⟦<EmptyRecords as IntoRecords>⟧.rows_left after ≡ [] }
    ensures left { (rows : BlankRows) → ⟦<EmptyRows as Iterator>⟧.remaining rows ≡ at_most (length (⟦<EmptyRecords as IntoRecords>⟧.rows_left rows)) }
{}

/// A row has no more empty texts left than it has columns, and none after their end.
pub fn empty_texts_end_for_good()
    ensures row { (before after : BlankRows) (texts : BlankCells) → ⟦<EmptyRows as Iterator>⟧.next_gives before (Some texts) after →
        ⟦<EmptyCells as Iterator>⟧.remaining texts ≡ at_most (length (row_at (⟦<EmptyRecords as IntoRecords>⟧.rows_left before) 0)) }
    ensures end { (before after : BlankCells) → ⟦<EmptyCells as Iterator>⟧.next_gives before None after → ⟦<EmptyCells as Iterator>⟧.remaining after ≡ at_most 0 }
{}

/// A call gives what is left of the next cell of a row at its width, and refuses none that fits.
pub fn cut_cells_come_in_their_order<
    C: Cell,
    D: Dimension + Copy,
    I: Iterator<Item = Result<C, AllocError>>,
>()
    ensures { (before after : CutCells I D) (given : Option (Result (CutCell C) Refused)) →
        ⟦<TruncatedCells<I, D> as Iterator>⟧.next_gives before given after → GivesTruncated I.next_gives C.text D.width before given after }
{}

/// A call gives the next row of those that are cut, from its first column on; at the end its state follows the rows.
pub fn cut_rows_come_in_their_order<C: Cell, D: Dimension + Copy, I: Iterator>()
where
    I::Item: Iterator<Item = Result<C, AllocError>>,
    ensures { (before after : CutRows I D) (given : Option (CutCells I.Item D)) →
        ⟦<TruncatedRows<I, D> as Iterator>⟧.next_gives before given after → GivesTruncatedRow I.next_gives before given after }
{}

/// A call gives the next row, with the same count of wanted cells for each; at the end its state follows the rows.
pub fn evened_rows_come_in_their_order<C, I: Iterator>()
where
    I::Item: Iterator<Item = Result<C, AllocError>>,
    ensures { (before after : RowsMadeEven I) (given : Option (CellsMadeEven I.Item)) → ⟦<EvenedRows<I> as Iterator>⟧.next_gives before given after → GivesEvened I.next_gives before given after }
{}

/// A call gives the next cell of a row, or none where it lacks one, as long as one is wanted; then it stays as it is.
pub fn evened_cells_come_in_their_order<C, I: Iterator<Item = Result<C, AllocError>>>()
    ensures { (before after : CellsMadeEven I) (given : Option (Result (Option C) Refused)) → ⟦<EvenedCells<I> as Iterator>⟧.next_gives before given after → EvensCell I.next_gives before given after }
{}

/// A call gives the first cells of the next row; at the end its state follows the rows.
pub fn first_cells_come_in_their_order<I: Iterator>()
where
    I::Item: Iterator,
    ensures { (before after : RowsInLimit I) (given : Option (FirstOf I.Item)) → ⟦<LimitedRows<I> as Iterator>⟧.next_gives before given after → GivesTaken I.next_gives before given after }
{}

/// A call gives the next of the rows that are kept, and after the last of them the next of the rest; at the end its
/// state follows both.
pub fn kept_rows_come_first<C: Drop, I: Iterator>()
    ensures { (before after : RowsBuffered C I) (given : Option (KeptOrRest (CellsKept (CellsIn C Heap)) I.Item)) →
        ⟦<BufferedRows<C, I> as Iterator>⟧.next_gives before given after →
        GivesKeptFirst ⟦<GivenRows<vec::IntoIter<Vec<C>>> as Iterator>⟧.next_gives I.next_gives before given after }
{}

/// After its end an iterator over rows that are looked up has none left, nor has one over the cells of such a row.
pub fn peeked_rows_end_for_good<'a, R: ExactRecords + PeekableRecords + 'a>()
    ensures rows { (before after : RowsByPlace R) → ⟦<PeekedRows<'a, R> as Iterator>⟧.next_gives before None after → ⟦<PeekedRecords<'a, R> as IntoRecords>⟧.rows_left after ≡ [] }
    ensures cells { (before after : CellsByPlace R) → ⟦<PeekedCells<'a, R> as Iterator>⟧.next_gives before None after → ⟦<PeekedCells<'a, R> as Iterator>⟧.remaining after ≡ at_most 0 }
{}

/// A reference to rows gives the hint of the rows that it refers to.
pub fn references_give_the_same_hint<'a, T: Cell + 'a, I: IntoRecords + Copy + 'a>()
    ensures vectors { (records : Bor (Vectors T)) → ⟦<&'a VecRecords<T> as Records>⟧.hint records ≡ ⟦<VecRecords<T> as Records>⟧.hint records.now }
    ensures source { (records : Bor (Sequence I)) → ⟦<&'a IterRecords<I> as Records>⟧.hint records ≡ ⟦<IterRecords<I> as Records>⟧.hint records.now }
{}

/// The text of a `Text` as a cell is the `Text` itself.
pub fn texts_are_their_own()
    ensures { (text : List ℕ) → ⟦<Text as Cell>⟧.text text ≡ text }
{}
