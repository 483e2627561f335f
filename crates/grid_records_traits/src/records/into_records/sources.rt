//! Vectors, slices and arrays of rows.
ghost use Rattle.std.specs.Array.Iter.{array_into_iter_items};
ghost use Rattle.std.specs.Prelude.{false, map, refl, vec_items};
ghost use Rattle.std.proofs.Common.{◌∙◌};
ghost use Rattle.std.specs.Slice.Iter.{iter_rest};
ghost use Rattle.grid_records_traits.specs.Sources.{items_left, texts_of_rows};
ghost use Rattle.grid_records_traits.specs.Laws.Given.{array_gives, slice_gives, vec_gives, vec_passes};
ghost use Rattle.grid_records_traits.specs.Laws.Leaving.{passed_item};
ghost use Rattle.grid_records_traits.specs.Laws.Sources.{all_items};

use crate::records::RecordTexts;
use crate::records::cell::Cell;
use crate::records::into_records::IntoRecords;
use crate::records::into_records::given::{GivenCells, GivenRows};
use std::{array, slice, vec};

impl<'a, T: Cell> RecordTexts for &'a [Vec<T>] {
    ghost rows = { λ rows. texts_of_rows T.text rows.now };

    ghost can_fail = { λ _. false };
}

impl<'a, T: Cell> IntoRecords for &'a [Vec<T>] {
    type Cell = &'a T;

    type IterColumns = GivenCells<slice::Iter<'a, T>>;

    type IterRows = GivenRows<slice::Iter<'a, Vec<T>>>;

    ghost rows_left = { λ s. texts_of_rows T.text (iter_rest s.0) };

    ghost can_fail_left = { λ _. false };

    ghost gives = { λ s. record { can_next = tt; ends = tt; each = slice_gives T.text _ _ _ (λ _. (tt, tt)) (λ s. s.0) (λ cells. cells.0) (λ _ _ became. became.0) s } };

    ghost passes = { λ s t _ step. (passed_item (λ row. map T.text (vec_items row)) (iter_rest s.0) (iter_rest t.0) step.0.now step.1, refl) };

    fn iter_rows(self) -> GivenRows<slice::Iter<'a, Vec<T>>> {
        GivenRows(self.iter())
    }
}

impl<T: Cell> RecordTexts for Vec<Vec<T>> {
    ghost rows = { λ rows. texts_of_rows T.text rows.items };

    ghost can_fail = { λ _. false };
}

impl<T: Cell> IntoRecords for Vec<Vec<T>> {
    type Cell = T;

    type IterColumns = GivenCells<vec::IntoIter<T>>;

    type IterRows = GivenRows<vec::IntoIter<Vec<T>>>;

    ghost rows_left = { λ s. texts_of_rows T.text (items_left s.0) };

    ghost can_fail_left = { λ _. false };

    ghost gives = { λ s. record {
      can_next = tt;
      ends = tt;
      each = vec_gives T.text _ _ _ (λ _. (tt, tt)) (λ s. s.0) (λ cells. cells.0)
          (λ row it became. all_items it _ became.0 (became.1 ∙ row.ok.0)) s;
    } };

    ghost passes = { λ s t _ step. (vec_passes T.text s.0 t.0 step.0 step.1, refl) };

    fn iter_rows(self) -> GivenRows<vec::IntoIter<Vec<T>>> {
        GivenRows(self.into_iter())
    }
}

impl<T: Cell, const C: usize, const R: usize> RecordTexts for [[T; C]; R] {
    ghost rows = { λ rows. map (λ row. map T.text row) rows };

    ghost can_fail = { λ _. false };
}

impl<T: Cell, const C: usize, const R: usize> IntoRecords for [[T; C]; R] {
    type Cell = T;

    type IterColumns = GivenCells<array::IntoIter<T, C>>;

    type IterRows = GivenRows<array::IntoIter<[T; C], R>>;

    ghost rows_left = { λ s. map (λ row. map T.text row) (array_into_iter_items s.0) };

    ghost can_fail_left = { λ _. false };

    ghost gives = { λ s. record { can_next = tt; ends = tt; each = array_gives T.text _ _ _ (λ _. (tt, tt)) (λ s. s.0) (λ cells. cells.0) (λ _ _ became. became.0) s } };

    ghost passes = { λ s t _ step. (passed_item (map T.text) (array_into_iter_items s.0) (array_into_iter_items t.0) step.0 step.1, refl) };

    fn iter_rows(self) -> GivenRows<array::IntoIter<[T; C], R>> {
        GivenRows(self.into_iter())
    }
}
