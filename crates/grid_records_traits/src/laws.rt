//! Laws of the definitions that the other contracts cite.
ghost use Rattle.std.specs.Borrow.{Bor};
ghost use Rattle.std.specs.Prelude.{◌≡◌, ℕ, List, None, Option, Result, Some, String as Bytes, [], false, length, map, string_bytes};
ghost use Rattle.std.specs.Global.{Vec as VecOf};
ghost use Rattle.std.proofs.Common.{Global as Heap};
ghost use Rattle.ansi_scan.specs.Pieces.{pieces as pieces_of};
ghost use Rattle.grid_records_measure.specs.TextLines.{line_measure, shown_lines, text_height, text_lines, text_width};
ghost use Rattle.std.specs.declared.alloc.AllocError.{AllocError as Refused};
ghost use Rattle.grid_records_traits.specs.Giving.{AnswersCell, GivesCellsOf};
ghost use Rattle.grid_records_traits.specs.Sources.{texts_of_rows};
ghost use Rattle.grid_records_traits.specs.declared.records.into_records.given.GivenCells.{GivenCells as CellsGiven};
ghost use Rattle.grid_records_traits.specs.declared.records.into_records.given.GivenRows.{GivenRows as RowsGiven};
ghost use Rattle.grid_records_traits.specs.Cells.{HasLineCount, HasLineWidth, HasWidth, IsLineAt, line_at};

use crate::dimension::Dimension;
use crate::records::into_records::{GivenCells, GivenRows};
use crate::records::{Cell, RecordColumns, RecordTexts};

/// A reference has the rows of the source that it refers to, and may refuse a cell where that source may.
pub fn references_have_the_same_rows<'a, R: RecordTexts + 'a>()
    ensures rows { (records : Bor R) → ⟦<&'a R as RecordTexts>⟧.rows records ≡ R.rows records.now }
    ensures can_fail { (records : Bor R) → ⟦<&'a R as RecordTexts>⟧.can_fail records ≡ R.can_fail records.now }
{}

/// A reference has as many columns as the source that it refers to.
pub fn references_have_as_many_columns<'a, R: RecordColumns + 'a>()
    ensures { (records : Bor R) → ⟦<&'a R as RecordColumns>⟧.columns records ≡ R.columns records.now }
{}

/// A reference has the sizes of what it refers to.
pub fn references_have_the_same_sizes<'a, D: Dimension + 'a>()
    ensures width { (sizes : Bor D) (column : ℕ) → ⟦<&'a D as Dimension>⟧.width sizes column ≡ D.width sizes.now column }
    ensures height { (sizes : Bor D) (row : ℕ) → ⟦<&'a D as Dimension>⟧.height sizes row ≡ D.height sizes.now row }
{}

/// A text is its own text as a cell. A reference has the text of the cell that it refers to. An option has the text
/// of the cell in it, or the empty one.
pub fn cells_have_their_texts<'a, C: Cell + 'a>()
    ensures borrowed { (cell : Bor (List ℕ)) → ⟦<&'a str as Cell>⟧.text cell ≡ cell.now }
    ensures owned { (cell : Bytes Heap) → ⟦<String as Cell>⟧.text cell ≡ string_bytes cell }
    ensures referred { (cell : Bor C) → ⟦<&'a C as Cell>⟧.text cell ≡ C.text cell.now }
    ensures some { (cell : C) → ⟦<Option<C> as Cell>⟧.text (Some cell) ≡ C.text cell }
    ensures none { ⟦<Option<C> as Cell>⟧.text None ≡ [] }
{}

/// What a cell returns for its lines, as functions of its text.
pub fn cells_answer_by_their_texts()
    ensures line { (text bytes : List ℕ) (index : ℕ) → IsLineAt text index bytes → bytes ≡ line_at (text_lines text) index }
    ensures count { (text : List ℕ) (count : ℕ) → HasLineCount text count → count ≡ length (text_lines text) }
    ensures height { (text : List ℕ) (count : ℕ) → HasLineCount text count → count ≡ text_height text }
    ensures width { (text : List ℕ) (width : ℕ) → HasWidth text width → width ≡ text_width text }
    ensures line_width { (text : List ℕ) (index width : ℕ) → HasLineWidth text index width →
        width ≡ line_measure (line_at (shown_lines (pieces_of text)) index) }
{}

/// The relations of a cell's lines hold of what the functions of its text give; by `cells_answer_by_their_texts`
/// they hold of nothing else.
pub fn texts_have_their_answers()
    ensures line { (text : List ℕ) (index : ℕ) → IsLineAt text index (line_at (text_lines text) index) }
    ensures count { (text : List ℕ) → HasLineCount text (length (text_lines text)) }
    ensures height { (text : List ℕ) → HasLineCount text (text_height text) }
    ensures width { (text : List ℕ) → HasWidth text (text_width text) }
    ensures line_width { (text : List ℕ) (index : ℕ) → HasLineWidth text index (line_measure (line_at (shown_lines (pieces_of text)) index)) }
{}

/// Vectors, slices and arrays of rows have the texts of their cells, row by row, and refuse no cell.
pub fn sources_have_their_rows<'a, T: Cell + 'a, const C: usize, const R: usize>()
    ensures slice { (rows : Bor (List (VecOf T))) → ⟦<&'a [Vec<T>] as RecordTexts>⟧.rows rows ≡ texts_of_rows T.text rows.now }
    ensures vector { (rows : VecOf (VecOf T)) → ⟦<Vec<Vec<T>> as RecordTexts>⟧.rows rows ≡ texts_of_rows T.text rows.items }
    ensures array { (rows : List (List T)) → ⟦<[[T; C]; R] as RecordTexts>⟧.rows rows ≡ map (map T.text) rows }
    ensures slice_comes { (rows : Bor (List (VecOf T))) → ⟦<&'a [Vec<T>] as RecordTexts>⟧.can_fail rows ≡ false }
    ensures vector_comes { (rows : VecOf (VecOf T)) → ⟦<Vec<Vec<T>> as RecordTexts>⟧.can_fail rows ≡ false }
    ensures array_comes { (rows : List (List T)) → ⟦<[[T; C]; R] as RecordTexts>⟧.can_fail rows ≡ false }
{}

/// `GivenRows` gives the rows of its iterator in the same order, each as an iterator over its cells. Where that
/// iterator gives none, it gives none, and is left with what the iterator has left.
pub fn given_rows_come_in_their_order<I: Iterator>()
where
    I::Item: IntoIterator,
    ensures { (before after : RowsGiven I) (given : Option (CellsGiven I.Item.IntoIter)) →
        ⟦<GivenRows<I> as Iterator>⟧.next_gives before given after →
        GivesCellsOf I.next_gives I.Item.into_iter_gives before.0 given (λ cells. cells.0) after.0 }
{}

/// `GivenCells` gives the cells of its iterator in the same order, and refuses none. Where that iterator gives none,
/// it gives none, and is left with what the iterator has left.
pub fn given_cells_come_in_their_order<I: Iterator>()
    ensures { (before after : CellsGiven I) (given : Option (Result I.Item Refused)) → ⟦<GivenCells<I> as Iterator>⟧.next_gives before given after → AnswersCell I.next_gives before.0 given after.0 }
{}
