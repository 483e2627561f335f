//! Laws of the definitions that the other contracts cite.
ghost use Rattle.std.specs.Prelude.{◌≡◌, ◌<◌, ◌||◌, ◌⊎◌, ◌↔◌, All, IsTrue, List, Option, Some, ◌∷◌, ◌++◌, false, is_some, true};
ghost use Rattle.std.specs.Iterator.{YieldsFirst, item_count};
ghost use Rattle.std.specs.declared.alloc.AllocError.{AllocError as Refused};
ghost use Rattle.std.specs.declared.cmp.Ordering.TheVariants.{Equal, Less};
ghost use Rattle.grid_config_values.specs.declared.alignment.AlignmentHorizontal.{AlignmentHorizontal as Horizontal};
ghost use Rattle.grid_config_values.specs.declared.alignment.AlignmentVertical.{AlignmentVertical as Vertical};
ghost use Rattle.grid_config_values.specs.declared.borders.Border.{Border as OneBorder};
ghost use Rattle.grid_config_values.specs.declared.borders.Borders.{Borders as BorderSet};
ghost use Rattle.grid_config_values.specs.declared.entity.Entity.{Entity as CellSet};
ghost use Rattle.grid_config_values.specs.declared.entity_map.EntityMap.{EntityMap as CellMap};
ghost use Rattle.grid_config_values.specs.declared.fault.Fault.{Fault as OneFault};
ghost use Rattle.grid_config_values.specs.declared.fault.Fault.TheVariants.{Memory};
ghost use Rattle.grid_config_values.specs.declared.formatting.Formatting.{Formatting as TextFormatting};
ghost use Rattle.grid_config_values.specs.declared.position.Position.{Position as CellPosition};
ghost use Rattle.grid_config_values.specs.declared.sides.Indent.{Indent as OneIndent};
ghost use Rattle.grid_config_values.specs.declared.sides.Sides.{Sides as FourSides};
ghost use Rattle.grid_config_values.specs.Entities.{covers};
ghost use Rattle.grid_config_values.specs.Fault.{fault_text};
ghost use Rattle.grid_config_values.specs.Glyphs.{Between, First, Last, has_column_boundary, has_row_boundary};
ghost use Rattle.grid_config_values.specs.Order.{position_cmp};
ghost use Rattle.grid_config_values.specs.Settings.{AreSet, value_at};

use crate::alignment::{AlignmentHorizontal, AlignmentVertical};
use crate::borders::{Border, Borders};
use crate::entity::Entity;
use crate::entity_iterator::EntityIterator;
use crate::fault::Fault;
use crate::formatting::Formatting;
use crate::position::Position;
use crate::sides::{Indent, Sides};
use std::alloc::{AllocError, AllocFailed};
use std::fmt::Display;

/// Of settings made one after the other, the last one that covers a position decides, whatever comes
/// before it; where none covers it the value is the one from the start.
pub fn the_last_call_decides<T>()
    ensures last { (old new : CellMap T) (earlier later : List (CellSet × T)) (call : CellSet × T) (p : CellPosition) →
        AreSet (earlier ++ call ∷ later) old new → IsTrue (covers call.0 p) → All (λ other. covers other.0 p ≡ false) later →
        value_at new p ≡ call.1 }
    ensures none { (old new : CellMap T) (calls : List (CellSet × T)) (p : CellPosition) →
        AreSet calls old new → All (λ call. covers call.0 p ≡ false) calls → value_at new p ≡ value_at old p }
{}

/// Positions are compared by rows, and in a row by columns; those that compare equal are the same.
pub fn positions_go_by_rows()
    ensures less { (a b : CellPosition) → (position_cmp a b ≡ Less) ↔ ((a.row < b.row) ⊎ ((a.row ≡ b.row) × (a.col < b.col))) }
    ensures equal { (a b : CellPosition) → (position_cmp a b ≡ Equal) ↔ (a ≡ b) }
{}

/// The six kinds of boundaries, by the names of what may be on them.
pub fn boundaries_by_name<T>()
    ensures left { (b : BorderSet T) → has_column_boundary b First ≡ (is_some b.left || is_some b.top_left || is_some b.left_intersection || is_some b.bottom_left) }
    ensures vertical { (b : BorderSet T) → has_column_boundary b Between ≡ (is_some b.vertical || is_some b.top_intersection || is_some b.intersection || is_some b.bottom_intersection) }
    ensures right { (b : BorderSet T) → has_column_boundary b Last ≡ (is_some b.right || is_some b.top_right || is_some b.right_intersection || is_some b.bottom_right) }
    ensures top { (b : BorderSet T) → has_row_boundary b First ≡ (is_some b.top || is_some b.top_left || is_some b.top_intersection || is_some b.top_right) }
    ensures horizontal { (b : BorderSet T) → has_row_boundary b Between ≡ (is_some b.horizontal || is_some b.left_intersection || is_some b.intersection || is_some b.right_intersection) }
    ensures bottom { (b : BorderSet T) → has_row_boundary b Last ≡ (is_some b.bottom || is_some b.bottom_left || is_some b.bottom_intersection || is_some b.bottom_right) }
{}

/// `==` of these values is equality, all of their parts compared, and where they have an order `cmp` finds the
/// same ones equal.
pub fn equality_compares_all_parts()
    ensures positions { (a b : CellPosition) → (⟦<Position as PartialEq>⟧.eq a b ≡ true) ↔ (a ≡ b) }
    ensures entities { (a b : CellSet) → (⟦<Entity as PartialEq>⟧.eq a b ≡ true) ↔ (a ≡ b) }
    ensures faults { (a b : OneFault) → (⟦<Fault as PartialEq>⟧.eq a b ≡ true) ↔ (a ≡ b) }
    ensures horizontal { (a b : Horizontal) → (⟦<AlignmentHorizontal as PartialEq>⟧.eq a b ≡ true) ↔ (a ≡ b) }
    ensures vertical { (a b : Vertical) → (⟦<AlignmentVertical as PartialEq>⟧.eq a b ≡ true) ↔ (a ≡ b) }
    ensures formatting { (a b : TextFormatting) → (⟦<Formatting as PartialEq>⟧.eq a b ≡ true) ↔ (a ≡ b) }
    ensures entities_order { (a b : CellSet) → (⟦<Entity as Ord>⟧.cmp a b ≡ Equal) ↔ (a ≡ b) }
    ensures positions_order { (a b : CellPosition) → ⟦<Position as Ord>⟧.cmp a b ≡ position_cmp a b }
    ensures horizontal_order { (a b : Horizontal) → (⟦<AlignmentHorizontal as Ord>⟧.cmp a b ≡ Equal) ↔ (a ≡ b) }
    ensures vertical_order { (a b : Vertical) → (⟦<AlignmentVertical as Ord>⟧.cmp a b ≡ Equal) ↔ (a ≡ b) }
    ensures formatting_order { (a b : TextFormatting) → (⟦<Formatting as Ord>⟧.cmp a b ≡ Equal) ↔ (a ≡ b) }
    ensures indents_order { (a b : OneIndent) → (⟦<Indent as Ord>⟧.cmp a b ≡ Equal) ↔ (a ≡ b) }
{}

/// Sides and borders that are equal by `==` have the same parts, where what is equal by `==` of the parts is the
/// same.
pub fn equal_values_are_the_same<T: PartialEq>()
    ensures indents { (a b : OneIndent) → ⟦<Indent as PartialEq>⟧.eq a b ≡ true → a ≡ b }
    ensures sides { ((x y : T) → T.eq x y ≡ true → x ≡ y) → (a b : FourSides T) → ⟦<Sides<T> as PartialEq>⟧.eq a b ≡ true → a ≡ b }
    ensures border { ((x y : T) → T.eq x y ≡ true → x ≡ y) → (a b : OneBorder T) → ⟦<Border<T> as PartialEq>⟧.eq a b ≡ true → a ≡ b }
    ensures borders { ((x y : T) → T.eq x y ≡ true → x ≡ y) → (a b : BorderSet T) → ⟦<Borders<T> as PartialEq>⟧.eq a b ≡ true → a ≡ b }
{}

/// Sides that `cmp` finds equal have the same parts, where what it finds equal of the parts is the same.
pub fn ordered_sides_are_the_same<T: Ord>()
    ensures { ((x y : T) → T.Ord.cmp x y ≡ Equal → x ≡ y) → (a b : FourSides T) → ⟦<Sides<T> as Ord>⟧.cmp a b ≡ Equal → a ≡ b }
{}

/// A clone of one of these values is the value.
pub fn clones_are_the_same()
    ensures positions { (source clone : CellPosition) → ⟦<Position as Clone>⟧.is_clone source clone → clone ≡ source }
    ensures entities { (source clone : CellSet) → ⟦<Entity as Clone>⟧.is_clone source clone → clone ≡ source }
    ensures faults { (source clone : OneFault) → ⟦<Fault as Clone>⟧.is_clone source clone → clone ≡ source }
    ensures horizontal { (source clone : Horizontal) → ⟦<AlignmentHorizontal as Clone>⟧.is_clone source clone → clone ≡ source }
    ensures vertical { (source clone : Vertical) → ⟦<AlignmentVertical as Clone>⟧.is_clone source clone → clone ≡ source }
    ensures formatting { (source clone : TextFormatting) → ⟦<Formatting as Clone>⟧.is_clone source clone → clone ≡ source }
    ensures indents { (source clone : OneIndent) → ⟦<Indent as Clone>⟧.is_clone source clone → clone ≡ source }
{}

/// A clone of sides or of borders is the value, where one of a part is the part.
pub fn clones_of_parts_are_the_same<T: Copy>()
    ensures sides { ((x y : T) → T.Clone.is_clone x y → y ≡ x) → (source clone : FourSides T) → ⟦<Sides<T> as Clone>⟧.is_clone source clone → clone ≡ source }
    ensures border { (source clone : OneBorder T) → ⟦<Border<T> as Clone>⟧.is_clone source clone → clone ≡ source }
    ensures borders { (source clone : BorderSet T) → ⟦<Borders<T> as Clone>⟧.is_clone source clone → clone ≡ source }
{}

/// An indent that is made by default has no size, and spaces.
pub fn indents_begin_empty()
    ensures { (begun : OneIndent) → ⟦<Indent as Default>⟧.is_default begun → begun ≡ record { size = 0; fill = 32 } }
{}

/// A clone of one of these values is never refused, of sides where one of a part never is.
pub fn clones_are_never_refused<T: Copy>()
    ensures sides { ((x : T) → T.Clone.is_infallible x) → (source : FourSides T) → ⟦<Sides<T> as Clone>⟧.is_infallible source }
    ensures positions { (source : CellPosition) → ⟦<Position as Clone>⟧.is_infallible source }
    ensures entities { (source : CellSet) → ⟦<Entity as Clone>⟧.is_infallible source }
    ensures faults { (source : OneFault) → ⟦<Fault as Clone>⟧.is_infallible source }
    ensures horizontal { (source : Horizontal) → ⟦<AlignmentHorizontal as Clone>⟧.is_infallible source }
    ensures vertical { (source : Vertical) → ⟦<AlignmentVertical as Clone>⟧.is_infallible source }
    ensures formatting { (source : TextFormatting) → ⟦<Formatting as Clone>⟧.is_infallible source }
    ensures indents { (source : OneIndent) → ⟦<Indent as Clone>⟧.is_infallible source }
    ensures border { (source : OneBorder T) → ⟦<Border<T> as Clone>⟧.is_infallible source }
    ensures borders { (source : BorderSet T) → ⟦<Borders<T> as Clone>⟧.is_infallible source }
{}

/// Each refusal prints a text of its own.
pub fn faults_are_printed_whole()
    ensures { (fault : OneFault) → ⟦<Fault as Display>⟧.output fault ≡ Some (fault_text fault) }
{}

/// A growth that was refused becomes `Memory`, also where it hands back a value that was not pushed.
pub fn refused_growth_is_memory<T: Drop>()
    ensures growth { (given : Refused) (fault : OneFault) → ⟦<Fault as From<AllocError>>⟧.from_gives given fault → fault ≡ Memory }
    ensures push { (given : _) (fault : OneFault) → ⟦<Fault as From<AllocFailed<T>>>⟧.from_gives given fault → fault ≡ Memory }
{}

/// The cells of an entity come one after the other, and then none; the next may be requested at any time, and no
/// more are left than are still to come.
pub fn cells_come_in_their_order()
    ensures asked { (places : List CellPosition) → ⟦<EntityIterator as Iterator>⟧.can_next places }
    ensures left { (places : List CellPosition) → ⟦<EntityIterator as Iterator>⟧.remaining places ≡ item_count (λ (places : List CellPosition). places) places }
    ensures next { (before after : List CellPosition) (given : Option CellPosition) → ⟦<EntityIterator as Iterator>⟧.next_gives before given after →
        YieldsFirst (λ (places : List CellPosition). places) before given after }
{}
