//! Laws of the definitions that the contracts cite. The functions do nothing.
ghost use Rattle.std.specs.Prelude.{◌≡◌, ◌∷◌, ℕ, None, Some, [], codes};
ghost use Rattle.basinmug_cells.specs.Held.{first_and_last};
ghost use Rattle.basinmug_cells.specs.Selecting.{selected};
ghost use Rattle.basinmug_cells.specs.Fields.{field_text};
ghost use Rattle.basinmug_cells.specs.declared.field.Field.{Field as OneField};

use crate::field::Field;
use grid_records_traits::Cell;

/// A field, as a cell, has the part of a text that it is, or its own text.
pub fn fields_have_their_texts<'a>()
    ensures { (field : OneField) → ⟦<Field<'a> as Cell>⟧.text field ≡ field_text field }
{}

/// The cells of a row in chosen columns: in any order, with a mark for columns that are left out, and empty where the row has no cell.
pub fn chosen_columns_by_hand()
    ensures { selected (Some 1 ∷ None ∷ Some 0 ∷ Some 5 ∷ []) (codes "-") (codes "a" ∷ codes "b" ∷ []) ≡ codes "b" ∷ codes "-" ∷ codes "a" ∷ [] ∷ [] }
{}

/// The rows that are kept of others: so many of the first, and so many of the last of those after them.
pub fn kept_ends_by_hand()
    ensures ends { first_and_last {X = ℕ} 1 2 (1 ∷ 2 ∷ 3 ∷ 4 ∷ 5 ∷ []) ≡ 1 ∷ 4 ∷ 5 ∷ [] }
    ensures overlapping { first_and_last {X = ℕ} 3 4 (1 ∷ 2 ∷ 3 ∷ 4 ∷ 5 ∷ []) ≡ 1 ∷ 2 ∷ 3 ∷ 4 ∷ 5 ∷ [] }
    ensures first { first_and_last {X = ℕ} 2 0 (1 ∷ 2 ∷ 3 ∷ []) ≡ 1 ∷ 2 ∷ [] }
{}
