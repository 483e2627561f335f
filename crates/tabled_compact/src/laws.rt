//! Laws of the definitions that the contracts cite.
ghost use Rattle.std.specs.Prelude.{◌≡◌, ◌↔◌, [], ◌∷◌, Some, codes, true};
ghost use Rattle.grid_config.specs.Compact.{Compact};
ghost use Rattle.grid_config.specs.Looks.{compact_look};
ghost use Rattle.papergrid.specs.Compact.{without_high_padding};
ghost use Rattle.tabled_compact.specs.Tables.{begun, compacted, flat_look, shown_rows};
ghost use Rattle.tabled_compact.specs.Columns.{begun_by_texts};
ghost use Rattle.tabled_size.specs.declared.dimension.const_size.ConstSize.{ConstSize as ConstWidth};
ghost use Rattle.tabled_compact.specs.declared.table.CompactTable.{CompactTable as OneTable};

use crate::columns::RowArray;
use crate::table::CompactTable;
use grid_records_traits::{Dimension, RecordTexts};
use tabled_size::ConstDimension;

/// Rows that a table shows, worked out by hand. They come after those that are passed over, and are as many as
/// are kept. Each has as many cells as there are columns.
pub fn worked_rows()
    ensures all { let rows = (codes "a" ∷ []) ∷ (codes "b" ∷ []) ∷ (codes "c" ∷ []) ∷ [] in
        shown_rows (record (begun rows (λ _. 2)) { columns = 1 }) ≡ rows }
    ensures skipped_first { shown_rows (record (begun ((codes "a" ∷ []) ∷ (codes "b" ∷ []) ∷ (codes "c" ∷ []) ∷ []) (λ _. 2)) { columns = 1; skipped = 1; kept = Some 1 }) ≡ (codes "b" ∷ []) ∷ [] }
    ensures fewer { shown_rows (record (begun ((codes "a" ∷ []) ∷ []) (λ _. 2)) { columns = 1; skipped = 2; kept = Some 1 }) ≡ [] }
    ensures empty_cells { shown_rows (record (begun ((codes "a" ∷ []) ∷ []) (λ _. 2)) { columns = 2 }) ≡ (codes "a" ∷ [] ∷ []) ∷ [] }
    ensures left_out { shown_rows (record (begun ((codes "a" ∷ codes "b" ∷ []) ∷ []) (λ _. 2)) { columns = 1 }) ≡ (codes "a" ∷ []) ∷ [] }
{}

/// What a table prints of its settings is seen by its options: it has their look, without padding above
/// and below texts.
pub fn options_see_what_is_printed()
    ensures { (compact : Compact) → compact_look (without_high_padding compact) ≡ flat_look (compact_look compact) }
{}

/// A clone of a table is the same table, where a clone of its source has the same rows, and one of its sizes the
/// same widths. It is never refused, where these never are.
pub fn clones_are_the_same<I: RecordTexts + Clone, D: Dimension + Clone>()
    ensures clone { ((x y : I) → I.Clone.is_clone x y → I.RecordTexts.rows y ≡ I.RecordTexts.rows x) →
        ((x y : D) → D.Clone.is_clone x y → D.Dimension.width y ≡ D.Dimension.width x) →
        (source clone : OneTable I D) → ⟦<CompactTable<I, D> as Clone>⟧.is_clone source clone →
        compacted I.RecordTexts.rows D.Dimension.width clone ≡ compacted I.RecordTexts.rows D.Dimension.width source }
    ensures comes { ((x : I) → I.Clone.is_infallible x) → ((x : D) → D.Clone.is_infallible x) → (source : OneTable I D) → ⟦<CompactTable<I, D> as Clone>⟧.is_infallible source }
{}

/// A table that is made of an array of rows has a column for each cell of a row. Each column is as wide as its
/// widest text and 2 more, or `usize::MAX` where that passes it.
pub fn tables_of_arrays_are_as_wide_as_their_texts<
    I: RowArray<COLUMNS, ROWS>,
    const COLUMNS: usize,
    const ROWS: usize,
>()
    ensures { (rows : I) (table : OneTable I (ConstWidth COLUMNS × ConstWidth ROWS)) → ⟦<CompactTable<I, ConstDimension<COLUMNS, ROWS>> as From<I>>⟧.from_gives rows table →
        compacted I.rows ⟦<ConstDimension<COLUMNS, ROWS> as Dimension>⟧.width table ≡ begun_by_texts COLUMNS (I.rows rows) }
{}
