//! Laws of the definitions that the other contracts cite.
ghost use Rattle.std.specs.Prelude.{◌≡◌, ◌≢◌, ◌↔◌, ℕ, IsTrue, List, [], true};
ghost use Rattle.grid_config_values.specs.declared.position.Position.{Position as CellPosition};
ghost use Rattle.grid_config_values.specs.declared.spans.extent.Extent.{Extent as Size};
ghost use Rattle.grid_config_values.specs.Order.{same_place};
ghost use Rattle.grid_config_values.specs.Spans.Owners.{owner};
ghost use Rattle.grid_config_values.specs.Spans.Rectangles.{Holds};
ghost use Rattle.grid_config_values.specs.Spans.Spans.{AreGood, ArePositive, IsInTable, IsVisible, extent_at, single};

use crate::spans::extent::Extent;

/// Where the spans of a table are good, two visible cells share no place of it, and a cell whose
/// rectangle holds another place of it is visible.
pub fn good_spans_part_the_table()
    ensures apart { (spans : List (CellPosition × Size)) (rows columns : ℕ) (a b place : CellPosition) → AreGood spans rows columns →
        IsInTable rows columns place → IsVisible spans a → IsVisible spans b →
        Holds a (extent_at spans a) place → Holds b (extent_at spans b) place → a ≡ b }
    ensures seen { (spans : List (CellPosition × Size)) (rows columns : ℕ) (a place : CellPosition) → AreGood spans rows columns →
        IsInTable rows columns place → Holds a (extent_at spans a) place → a ≢ place → IsVisible spans a }
{}

/// Where no span is set, each cell is visible and the spans are good.
pub fn without_spans_all_is_visible()
    ensures visible { (place : CellPosition) → IsVisible [] place }
    ensures good { (rows columns : ℕ) → AreGood [] rows columns }
{}

/// Where the spans of a table are good and each cell takes at least one row and one column, each place of
/// it has one owner, which holds it, is visible and in the table, and owns every place of the table that its
/// rectangle holds.
pub fn owners_part_the_table()
    ensures holds { (spans : List (CellPosition × Size)) (place : CellPosition) → ArePositive spans →
        Holds (owner (extent_at spans) place) (extent_at spans (owner (extent_at spans) place)) place }
    ensures visible { (spans : List (CellPosition × Size)) (rows columns : ℕ) (place : CellPosition) → AreGood spans rows columns →
        IsInTable rows columns place → IsVisible spans (owner (extent_at spans) place) }
    ensures inside { (spans : List (CellPosition × Size)) (rows columns : ℕ) (place : CellPosition) → IsInTable rows columns place →
        IsInTable rows columns (owner (extent_at spans) place) }
    ensures only { (spans : List (CellPosition × Size)) (rows columns : ℕ) (a place : CellPosition) → ArePositive spans → AreGood spans rows columns →
        IsInTable rows columns place → IsVisible spans a → Holds a (extent_at spans a) place → a ≡ owner (extent_at spans) place }
    ensures owns { (spans : List (CellPosition × Size)) (rows columns : ℕ) (place other : CellPosition) → ArePositive spans → AreGood spans rows columns →
        IsInTable rows columns place → IsInTable rows columns other →
        Holds (owner (extent_at spans) place) (extent_at spans (owner (extent_at spans) place)) other →
        owner (extent_at spans) other ≡ owner (extent_at spans) place }
{}

/// A place is its own owner exactly where it is visible; without spans, and where all cells are single,
/// each is.
pub fn visible_cells_own_themselves()
    ensures visible { (spans : List (CellPosition × Size)) (place : CellPosition) →
        IsTrue (same_place (owner (extent_at spans) place) place) ↔ IsVisible spans place }
    ensures without { (place : CellPosition) → owner (extent_at []) place ≡ place }
    ensures single { (place : CellPosition) → owner (λ _. single) place ≡ place }
{}

/// `==` of extents is equality of both counts; a clone is the same extent, and is never refused.
pub fn equal_extents_are_the_same()
    ensures equality { (a b : Size) → (⟦<Extent as PartialEq>⟧.eq a b ≡ true) ↔ (a ≡ b) }
    ensures clone { (source clone : Size) → ⟦<Extent as Clone>⟧.is_clone source clone → clone ≡ source }
    ensures comes { (source : Size) → ⟦<Extent as Clone>⟧.is_infallible source }
{}
