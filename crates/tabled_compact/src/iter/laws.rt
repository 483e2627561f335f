//! Laws: when tables are equal, what a clone of one is, and tables that are worked out by hand.
ghost use Rattle.std.specs.Prelude.{◌≡◌, ◌∷◌, [], Some, codes, true};
ghost use Rattle.tabled_compact.specs.Iter.Tables.{begun, printed, streamed};
ghost use Rattle.tabled_compact.specs.declared.iter.table.IterTable.{IterTable as OneTable};

use crate::iter::table::IterTable;
use grid_records_traits::RecordTexts;

/// Tables that are equal by `==` have the same rows, the same settings and the same that is set of their shapes.
/// For this, sources that are equal by `==` must have the same rows. A table is equal to itself, where its source is.
pub fn equal_tables_are_the_same<I: RecordTexts + PartialEq>()
    ensures equality { ((x y : I) → I.PartialEq.eq x y ≡ true → I.RecordTexts.rows x ≡ I.RecordTexts.rows y) →
        (a b : OneTable I) → ⟦<IterTable<I> as PartialEq>⟧.eq a b ≡ true → streamed I.RecordTexts.rows a ≡ streamed I.RecordTexts.rows b }
    ensures itself { ((x : I) → I.PartialEq.eq x x ≡ true) → (a : OneTable I) → ⟦<IterTable<I> as PartialEq>⟧.eq a a ≡ true }
{}

/// A clone of a table is the same table, where a clone of its source has the same rows. It is never refused where
/// that of the source never is.
pub fn clones_are_the_same<I: RecordTexts + Clone>()
    ensures comes { ((x : I) → I.Clone.is_infallible x) → (source : OneTable I) → ⟦<IterTable<I> as Clone>⟧.is_infallible source }
    ensures clone { ((x y : I) → I.Clone.is_clone x y → I.RecordTexts.rows y ≡ I.RecordTexts.rows x) →
        (source clone : OneTable I) → ⟦<IterTable<I> as Clone>⟧.is_clone source clone → streamed I.RecordTexts.rows clone ≡ streamed I.RecordTexts.rows source }
{}

/// Tables worked out by hand, by their bytes. A cell past the columns that are set, or past those of the rows that
/// are read ahead, is not printed. It adds no line to its row. A row that is too short is filled up. A text is cut
/// that is wider than the rows that are read ahead, or than the width that is set. With a width that is set each row
/// has one line, if no height is set.
pub fn tables_by_hand()
    ensures past_the_columns { printed (record (begun ((codes "a" ∷ codes "b" ∷ []) ∷ [])) { columns = Some 1 }) ≡ codes "+---+\n| a |\n+---+" }
    ensures lines_past_the_columns { printed (record (begun ((codes "a" ∷ codes "b\nc" ∷ []) ∷ [])) { columns = Some 1 }) ≡ codes "+---+\n| a |\n+---+" }
    ensures past_the_first_row { printed (record (begun ((codes "a" ∷ []) ∷ (codes "b" ∷ codes "c" ∷ []) ∷ [])) { sniff = 1 }) ≡ codes "+---+\n| a |\n+---+\n| b |\n+---+" }
    ensures short { printed (record (begun ((codes "a" ∷ codes "b" ∷ []) ∷ (codes "c" ∷ []) ∷ [])) { sniff = 2 }) ≡ codes "+---+---+\n| a | b |\n+---+---+\n| c |   |\n+---+---+" }
    ensures cut { printed (record (begun ((codes "First" ∷ codes "row" ∷ []) ∷ (codes "Second" ∷ codes "row" ∷ []) ∷ [])) { sniff = 1 }) ≡ codes "+-------+-----+\n| First | row |\n+-------+-----+\n| Secon | row |\n+-------+-----+" }
    ensures one_line { printed (record (begun ((codes "ab\nc" ∷ []) ∷ [])) { width = Some 1 }) ≡ codes "+---+\n| a |\n+---+" }
    ensures two_lines { printed (record (begun ((codes "a" ∷ []) ∷ (codes "b\nc" ∷ []) ∷ [])) { height = Some 2 }) ≡ codes "+---+\n| a |\n|   |\n+---+\n| b |\n| c |\n+---+" }
    ensures own_lines { printed (record (begun ((codes "a\nb" ∷ []) ∷ (codes "c\nd" ∷ []) ∷ [])) { sniff = 1 }) ≡ codes "+---+\n| a |\n| b |\n+---+\n| c |\n+---+" }
    ensures kept { printed (record (begun ((codes "a" ∷ []) ∷ (codes "bc" ∷ []) ∷ [])) { kept = Some 1 }) ≡ codes "+----+\n| a  |\n+----+" }
{}
