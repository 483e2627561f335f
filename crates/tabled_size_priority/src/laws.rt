//! Laws of the definitions that the other contracts cite.
ghost use Rattle.std.specs.Prelude.{◌≡◌, ◌↔◌, ◌+◌, ◌^◌, ℕ, Bool, List, Option, [], ◌∷◌, true, false, length};
ghost use Rattle.std.specs.declared.cmp.Ordering.TheVariants.{Equal};
ghost use Rattle.tabled_size_priority.specs.LevelRules.Columns.{from_side};
ghost use Rattle.tabled_size_priority.specs.Choices.{IsGrownByChoice, IsShrunkByChoice};
ghost use Rattle.tabled_size_priority.specs.Chosen.{HoldsThen, chosen};
ghost use Rattle.tabled_size_priority.specs.Growing.{IsGrownByNarrowest, IsGrownByWidest, IsGrownFromSide, IsGrownInTurns, grown_to_level};
ghost use Rattle.tabled_size_priority.specs.Leasts.{NamesInTwoSteps, OwnLeasts};
ghost use Rattle.tabled_size_priority.specs.Levels.{AreAtLeast, AreAtMost, CouldBeGrown, CouldBeShrunk, IsGreatestLevel, IsLeastLevel};
ghost use Rattle.tabled_size_priority.specs.Peaks.{narrowest_peaks, side_peaks, start_of, turn_peaks, widest_peaks};
ghost use Rattle.tabled_size_priority.specs.Running.{IsGrownBy, IsShrunkBy};
ghost use Rattle.tabled_size_priority.specs.Shrinking.{IsOfForm, IsShrunkByNarrowest, IsShrunkByWidest, IsShrunkFromSide, IsShrunkInTurns, shrunk_sum, shrunk_to_level};
ghost use Rattle.tabled_size_priority.specs.Turns.{grows_in_turns, shrinks_in_turns};
ghost use Rattle.tabled_size_priority.specs.declared.choice.Choice.{Choice as OneChoice};
ghost use Rattle.tabled_size_priority.specs.declared.choice.Choice.TheVariants.{None as InTurns, MinLeft, MinRight, MaxLeft, MaxRight, Left, Right};
ghost use Rattle.tabled_size_priority.specs.declared.chosen.PriorityChosen.{PriorityChosen as OneChosen};
ghost use Rattle.tabled_size_priority.specs.declared.chosen.PriorityChosen.TheVariants.{None as GoesRound, Min as NarrowestFirst, Max as WidestFirst, Left as LeftFirst, Right as RightFirst};
ghost use Rattle.tabled_size_priority.specs.declared.left.PriorityLeft.{PriorityLeft as FromLeft};
ghost use Rattle.tabled_size_priority.specs.declared.levels.order.Order.{Order as OneOrder};
ghost use Rattle.tabled_size_priority.specs.declared.levels.rule.Rule.{Rule as OneRule};
ghost use Rattle.tabled_size_priority.specs.declared.right.PriorityRight.{PriorityRight as FromRight};

use crate::choice::Choice;
use crate::chosen::PriorityChosen;
use crate::least::PriorityLeast;
use crate::left::PriorityLeft;
use crate::levels::{Order, Rule};
use crate::max::PriorityMax;
use crate::min::PriorityMin;
use crate::none::PriorityNone;
use crate::peaker::Peaker;
use crate::right::PriorityRight;

/// Shrunk lists that were worked out by hand: in turns, from a side, by the widest and the narrowest, with
/// ties to both sides; one too large to be taken column by column; missing leasts; more requested than there
/// is; a least above its width; no columns.
pub fn worked_shrinks()
    ensures turns { IsShrunkInTurns 0 (2 ∷ 2 ∷ 2 ∷ []) 8 (6 ∷ 7 ∷ 6 ∷ []) (3 ∷ 4 ∷ 4 ∷ []) }
    ensures turns_from_the_last { IsShrunkInTurns 2 (0 ∷ 0 ∷ 0 ∷ []) 2 (1 ∷ 1 ∷ 1 ∷ []) (0 ∷ 1 ∷ 0 ∷ []) }
    ensures left { IsShrunkFromSide false (2 ∷ 2 ∷ 2 ∷ []) 8 (6 ∷ 7 ∷ 6 ∷ []) (2 ∷ 3 ∷ 6 ∷ []) }
    ensures right { IsShrunkFromSide true (2 ∷ 2 ∷ 2 ∷ []) 8 (6 ∷ 7 ∷ 6 ∷ []) (6 ∷ 3 ∷ 2 ∷ []) }
    ensures widest { IsShrunkByWidest true (2 ∷ 2 ∷ 2 ∷ []) 8 (6 ∷ 7 ∷ 6 ∷ []) (4 ∷ 4 ∷ 3 ∷ []) }
    ensures narrowest_left { IsShrunkByNarrowest false (0 ∷ 0 ∷ []) 1 (6 ∷ 6 ∷ []) (5 ∷ 6 ∷ []) }
    ensures narrowest_right { IsShrunkByNarrowest true (0 ∷ 0 ∷ []) 1 (6 ∷ 6 ∷ []) (6 ∷ 5 ∷ []) }
    ensures large { IsShrunkByWidest false (0 ∷ 5 ∷ []) (2 ^ 61) (2 ^ 62 ∷ 5 ∷ []) (2 ^ 61 ∷ 5 ∷ []) }
    ensures missing { IsShrunkFromSide false [] 3 (2 ∷ 2 ∷ []) (0 ∷ 1 ∷ []) }
    ensures too_much { IsShrunkByWidest false (1 ∷ 1 ∷ []) 9 (3 ∷ 1 ∷ []) (1 ∷ 1 ∷ []) }
    ensures above { IsShrunkByNarrowest false (4 ∷ 0 ∷ []) 2 (3 ∷ 3 ∷ []) (3 ∷ 1 ∷ []) }
    ensures none { IsShrunkInTurns 0 [] 3 [] [] }
{}

/// Grown lists that were worked out by hand: large ones, by the narrowest and in turns; the narrowest is 0;
/// all are 0; no columns.
pub fn worked_growths()
    ensures narrowest { IsGrownByNarrowest false (2 ^ 40) (1 ∷ 3 ∷ []) ((2 ^ 39 + 2) ∷ (2 ^ 39 + 2) ∷ []) }
    ensures narrowest_right { IsGrownByNarrowest true 2 (1 ∷ 1 ∷ 1 ∷ []) (1 ∷ 2 ∷ 2 ∷ []) }
    ensures turns { IsGrownInTurns 0 (2 ^ 40 + 1) (1 ∷ 0 ∷ 1 ∷ []) ((2 ^ 39 + 2) ∷ 0 ∷ (2 ^ 39 + 1) ∷ []) }
    ensures nothing { IsGrownByNarrowest false 4 (0 ∷ 3 ∷ []) (0 ∷ 3 ∷ []) }
    ensures zeros { IsGrownInTurns 0 4 (0 ∷ 0 ∷ []) (0 ∷ 0 ∷ []) }
    ensures none { IsGrownByNarrowest true 4 [] [] }
{}

/// By each priority widths shrink to one list at most.
pub fn one_shrunk_list()
    ensures side { (right : Bool) (least : List ℕ) (by : ℕ) (widths xs ys : List ℕ) →
        IsShrunkFromSide right least by widths xs → IsShrunkFromSide right least by widths ys → xs ≡ ys }
    ensures narrowest { (right : Bool) (least : List ℕ) (by : ℕ) (widths xs ys : List ℕ) →
        IsShrunkByNarrowest right least by widths xs → IsShrunkByNarrowest right least by widths ys → xs ≡ ys }
    ensures widest { (right : Bool) (least : List ℕ) (by : ℕ) (widths xs ys : List ℕ) →
        IsShrunkByWidest right least by widths xs → IsShrunkByWidest right least by widths ys → xs ≡ ys }
    ensures turns { (start : ℕ) (least : List ℕ) (by : ℕ) (widths xs ys : List ℕ) →
        IsShrunkInTurns start least by widths xs → IsShrunkInTurns start least by widths ys → xs ≡ ys }
{}

/// By each priority widths grow to one list at most.
pub fn one_grown_list()
    ensures side { (right : Bool) (by : ℕ) (widths xs ys : List ℕ) →
        IsGrownFromSide right by widths xs → IsGrownFromSide right by widths ys → xs ≡ ys }
    ensures narrowest { (right : Bool) (by : ℕ) (widths xs ys : List ℕ) →
        IsGrownByNarrowest right by widths xs → IsGrownByNarrowest right by widths ys → xs ≡ ys }
    ensures widest { (right : Bool) (by : ℕ) (widths xs ys : List ℕ) →
        IsGrownByWidest right by widths xs → IsGrownByWidest right by widths ys → xs ≡ ys }
    ensures turns { (start by : ℕ) (widths xs ys : List ℕ) →
        IsGrownInTurns start by widths xs → IsGrownInTurns start by widths ys → xs ≡ ys }
{}

/// The widest first cuts to the least level at which enough is left, and then takes one more from the first
/// columns at that level. The narrowest first raises to the greatest level for which there is enough, and
/// then gives one more to the first columns at that level.
pub fn levels_are_named()
    ensures least { (right : Bool) (least : List ℕ) (by : ℕ) (widths sizes : List ℕ) (level : ℕ) →
        IsShrunkByWidest right least by widths sizes → IsLeastLevel least widths (shrunk_sum least widths by) level →
        (c : ℕ) × (sizes ≡ shrunk_to_level (from_side right (length widths)) least widths level c) }
    ensures greatest { (right : Bool) (widths : List ℕ) (total : ℕ) (sizes : List ℕ) (level : ℕ) →
        IsOfForm (grown_to_level (from_side right (length widths)) widths) total sizes → IsGreatestLevel widths total level →
        (c : ℕ) × (sizes ≡ grown_to_level (from_side right (length widths)) widths level c) }
{}

/// The widest first leaves the least greatest width: each bound of the widths of another list between the
/// floors and the widths, with the same sum, bounds what is left.
pub fn widest_first_is_best()
    ensures { (right : Bool) (least : List ℕ) (by : ℕ) (widths sizes others : List ℕ) (most : ℕ) →
        IsShrunkByWidest right least by widths sizes → CouldBeShrunk least widths sizes others → AreAtMost others most → AreAtMost sizes most }
{}

/// The narrowest first gives the greatest least width, where there are columns and none is 0: what each
/// width of another list at or above the widths, with the same sum, reaches is reached by all.
pub fn narrowest_first_is_best()
    ensures { (right : Bool) (by : ℕ) (widths sizes others : List ℕ) (fewest : ℕ) →
        AreAtLeast widths 1 → IsGrownByNarrowest right by widths sizes → CouldBeGrown widths sizes others → AreAtLeast others fewest → AreAtLeast sizes fewest }
{}

/// `==` of priorities, of `Choice` and of `PriorityChosen` is equality of what they keep, and where they have an order `cmp` finds the
/// same ones equal; a clone is the same, and is never refused; made by default, a priority goes on at the first
/// column, or prefers the left.
pub fn priorities_are_compared_and_cloned_whole()
    ensures none { (a b : ℕ) → (⟦<PriorityNone as PartialEq>⟧.eq a b ≡ true) ↔ (a ≡ b) }
    ensures widest { (a b : Bool) → (⟦<PriorityMax as PartialEq>⟧.eq a b ≡ true) ↔ (a ≡ b) }
    ensures narrowest { (a b : Bool) → (⟦<PriorityMin as PartialEq>⟧.eq a b ≡ true) ↔ (a ≡ b) }
    ensures names { (a b : OneChoice) → (⟦<Choice as PartialEq>⟧.eq a b ≡ true) ↔ (a ≡ b) }
    ensures chosen { (a b : OneChosen) → (⟦<PriorityChosen as PartialEq>⟧.eq a b ≡ true) ↔ (a ≡ b) }
    ensures clone_of_none { (source clone : ℕ) → ⟦<PriorityNone as Clone>⟧.is_clone source clone → clone ≡ source }
    ensures clone_of_widest { (source clone : Bool) → ⟦<PriorityMax as Clone>⟧.is_clone source clone → clone ≡ source }
    ensures clone_of_narrowest { (source clone : Bool) → ⟦<PriorityMin as Clone>⟧.is_clone source clone → clone ≡ source }
    ensures clone_of_name { (source clone : OneChoice) → ⟦<Choice as Clone>⟧.is_clone source clone → clone ≡ source }
    ensures clone_of_chosen { (source clone : OneChosen) → ⟦<PriorityChosen as Clone>⟧.is_clone source clone → clone ≡ source }
    ensures none_comes { (source : ℕ) → ⟦<PriorityNone as Clone>⟧.is_infallible source }
    ensures widest_comes { (source : Bool) → ⟦<PriorityMax as Clone>⟧.is_infallible source }
    ensures narrowest_comes { (source : Bool) → ⟦<PriorityMin as Clone>⟧.is_infallible source }
    ensures name_comes { (source : OneChoice) → ⟦<Choice as Clone>⟧.is_infallible source }
    ensures chosen_comes { (source : OneChosen) → ⟦<PriorityChosen as Clone>⟧.is_infallible source }
    ensures none_order { (a b : ℕ) → (⟦<PriorityNone as Ord>⟧.cmp a b ≡ Equal) ↔ (a ≡ b) }
    ensures widest_order { (a b : Bool) → (⟦<PriorityMax as Ord>⟧.cmp a b ≡ Equal) ↔ (a ≡ b) }
    ensures narrowest_order { (a b : Bool) → (⟦<PriorityMin as Ord>⟧.cmp a b ≡ Equal) ↔ (a ≡ b) }
    ensures left { (a b : FromLeft) → ⟦<PriorityLeft as PartialEq>⟧.eq a b ≡ true }
    ensures right { (a b : FromRight) → ⟦<PriorityRight as PartialEq>⟧.eq a b ≡ true }
    ensures left_comes { (source : FromLeft) → ⟦<PriorityLeft as Clone>⟧.is_infallible source }
    ensures right_comes { (source : FromRight) → ⟦<PriorityRight as Clone>⟧.is_infallible source }
    ensures none_at_first { (begun : ℕ) → ⟦<PriorityNone as Default>⟧.is_default begun → begun ≡ 0 }
    ensures widest_at_first { (begun : Bool) → ⟦<PriorityMax as Default>⟧.is_default begun → begun ≡ false }
    ensures narrowest_at_first { (begun : Bool) → ⟦<PriorityMin as Default>⟧.is_default begun → begun ≡ false }
{}

/// A priority but `PriorityNone` keeps what it kept when it shrinks or grows. That one goes round, from the
/// column at which it goes on, which then is the one after the last that it changed, or where it was.
pub fn sides_are_kept()
    ensures shrunk_in_turns { (next after : ℕ) (least widths sizes : List ℕ) (by : ℕ) →
        ⟦<PriorityNone as Peaker>⟧.shrinks next least by widths after sizes → shrinks_in_turns next least by widths after sizes }
    ensures grown_in_turns { (next after : ℕ) (widths sizes : List ℕ) (by : ℕ) → ⟦<PriorityNone as Peaker>⟧.grows next by widths after sizes → grows_in_turns next by widths after sizes }
    ensures shrunk_by_widest { (side after : Bool) (least widths sizes : List ℕ) (by : ℕ) → ⟦<PriorityMax as Peaker>⟧.shrinks side least by widths after sizes → after ≡ side }
    ensures grown_by_widest { (side after : Bool) (widths sizes : List ℕ) (by : ℕ) → ⟦<PriorityMax as Peaker>⟧.grows side by widths after sizes → after ≡ side }
    ensures shrunk_by_narrowest { (side after : Bool) (least widths sizes : List ℕ) (by : ℕ) → ⟦<PriorityMin as Peaker>⟧.shrinks side least by widths after sizes → after ≡ side }
    ensures grown_by_narrowest { (side after : Bool) (widths sizes : List ℕ) (by : ℕ) → ⟦<PriorityMin as Peaker>⟧.grows side by widths after sizes → after ≡ side }
{}

/// What a priority makes of widths is the list of its closed form, so that the laws on those lists hold of what
/// `shrink` and `grow` leave: from its side, by the widest or the narrowest with its side for ties, or in
/// turns from the column at which it goes on.
pub fn priorities_make_the_lists_of_their_forms()
    ensures shrunk_from_left { (before after : FromLeft) (least widths sizes : List ℕ) (by : ℕ) →
        ⟦<PriorityLeft as Peaker>⟧.shrinks before least by widths after sizes → IsShrunkFromSide false least by widths sizes }
    ensures grown_from_left { (before after : FromLeft) (widths sizes : List ℕ) (by : ℕ) → ⟦<PriorityLeft as Peaker>⟧.grows before by widths after sizes → IsGrownFromSide false by widths sizes }
    ensures shrunk_from_right { (before after : FromRight) (least widths sizes : List ℕ) (by : ℕ) →
        ⟦<PriorityRight as Peaker>⟧.shrinks before least by widths after sizes → IsShrunkFromSide true least by widths sizes }
    ensures grown_from_right { (before after : FromRight) (widths sizes : List ℕ) (by : ℕ) → ⟦<PriorityRight as Peaker>⟧.grows before by widths after sizes → IsGrownFromSide true by widths sizes }
    ensures shrunk_by_widest { (side after : Bool) (least widths sizes : List ℕ) (by : ℕ) →
        ⟦<PriorityMax as Peaker>⟧.shrinks side least by widths after sizes → IsShrunkByWidest side least by widths sizes }
    ensures grown_by_widest { (side after : Bool) (widths sizes : List ℕ) (by : ℕ) → ⟦<PriorityMax as Peaker>⟧.grows side by widths after sizes → IsGrownByWidest side by widths sizes }
    ensures shrunk_by_narrowest { (side after : Bool) (least widths sizes : List ℕ) (by : ℕ) →
        ⟦<PriorityMin as Peaker>⟧.shrinks side least by widths after sizes → IsShrunkByNarrowest side least by widths sizes }
    ensures grown_by_narrowest { (side after : Bool) (widths sizes : List ℕ) (by : ℕ) → ⟦<PriorityMin as Peaker>⟧.grows side by widths after sizes → IsGrownByNarrowest side by widths sizes }
    ensures shrunk_in_turns { (next after : ℕ) (least widths sizes : List ℕ) (by : ℕ) →
        ⟦<PriorityNone as Peaker>⟧.shrinks next least by widths after sizes →
        IsShrunkInTurns (start_of next (length widths)) least by widths sizes }
    ensures grown_in_turns { (next after : ℕ) (widths sizes : List ℕ) (by : ℕ) →
        ⟦<PriorityNone as Peaker>⟧.grows next by widths after sizes → IsGrownInTurns (start_of next (length widths)) by widths sizes }
{}

/// What `PriorityMax::shrink` leaves has the least greatest width, and what `PriorityMin::grow` leaves the greatest
/// least width, where there are columns and none is 0: of all lists between the floors and the widths, or at or
/// above the widths, with the same sum.
pub fn priorities_leave_the_best_lists()
    ensures widest { (side after : Bool) (least widths sizes others : List ℕ) (by most : ℕ) →
        ⟦<PriorityMax as Peaker>⟧.shrinks side least by widths after sizes → CouldBeShrunk least widths sizes others → AreAtMost others most → AreAtMost sizes most }
    ensures narrowest { (side after : Bool) (widths sizes others : List ℕ) (by fewest : ℕ) →
        AreAtLeast widths 1 → ⟦<PriorityMin as Peaker>⟧.grows side by widths after sizes → CouldBeGrown widths sizes others → AreAtLeast others fewest → AreAtLeast sizes fewest }
{}

/// A name makes of widths what its priority, as its constructor gives it, makes of them: in turns from the first
/// column, from the narrowest or the widest with the side for ties, or from a side.
pub fn names_stand_for_their_priorities()
    ensures shrunk_in_turns { (after : ℕ) (least widths sizes : List ℕ) (by : ℕ) → ⟦<PriorityNone as Peaker>⟧.shrinks 0 least by widths after sizes → IsShrunkByChoice InTurns least by widths sizes }
    ensures shrunk_by_narrowest_left { (least widths sizes : List ℕ) (by : ℕ) → (IsShrunkByChoice MinLeft least by widths sizes ↔ ⟦<PriorityMin as Peaker>⟧.shrinks false least by widths false sizes) }
    ensures shrunk_by_narrowest_right { (least widths sizes : List ℕ) (by : ℕ) → (IsShrunkByChoice MinRight least by widths sizes ↔ ⟦<PriorityMin as Peaker>⟧.shrinks true least by widths true sizes) }
    ensures shrunk_by_widest_left { (least widths sizes : List ℕ) (by : ℕ) → (IsShrunkByChoice MaxLeft least by widths sizes ↔ ⟦<PriorityMax as Peaker>⟧.shrinks false least by widths false sizes) }
    ensures shrunk_by_widest_right { (least widths sizes : List ℕ) (by : ℕ) → (IsShrunkByChoice MaxRight least by widths sizes ↔ ⟦<PriorityMax as Peaker>⟧.shrinks true least by widths true sizes) }
    ensures shrunk_from_left { (before after : FromLeft) (least widths sizes : List ℕ) (by : ℕ) →
        (IsShrunkByChoice Left least by widths sizes ↔ ⟦<PriorityLeft as Peaker>⟧.shrinks before least by widths after sizes) }
    ensures shrunk_from_right { (before after : FromRight) (least widths sizes : List ℕ) (by : ℕ) →
        (IsShrunkByChoice Right least by widths sizes ↔ ⟦<PriorityRight as Peaker>⟧.shrinks before least by widths after sizes) }
    ensures grown_in_turns { (after : ℕ) (widths sizes : List ℕ) (by : ℕ) → ⟦<PriorityNone as Peaker>⟧.grows 0 by widths after sizes → IsGrownByChoice InTurns by widths sizes }
    ensures grown_by_narrowest_left { (widths sizes : List ℕ) (by : ℕ) → (IsGrownByChoice MinLeft by widths sizes ↔ ⟦<PriorityMin as Peaker>⟧.grows false by widths false sizes) }
    ensures grown_by_narrowest_right { (widths sizes : List ℕ) (by : ℕ) → (IsGrownByChoice MinRight by widths sizes ↔ ⟦<PriorityMin as Peaker>⟧.grows true by widths true sizes) }
    ensures grown_by_widest_left { (widths sizes : List ℕ) (by : ℕ) → (IsGrownByChoice MaxLeft by widths sizes ↔ ⟦<PriorityMax as Peaker>⟧.grows false by widths false sizes) }
    ensures grown_by_widest_right { (widths sizes : List ℕ) (by : ℕ) → (IsGrownByChoice MaxRight by widths sizes ↔ ⟦<PriorityMax as Peaker>⟧.grows true by widths true sizes) }
    ensures grown_from_left { (before after : FromLeft) (widths sizes : List ℕ) (by : ℕ) → (IsGrownByChoice Left by widths sizes ↔ ⟦<PriorityLeft as Peaker>⟧.grows before by widths after sizes) }
    ensures grown_from_right { (before after : FromRight) (widths sizes : List ℕ) (by : ℕ) → (IsGrownByChoice Right by widths sizes ↔ ⟦<PriorityRight as Peaker>⟧.grows before by widths after sizes) }
{}

/// A chosen priority names the columns, and makes of widths the lists, that the one which it holds does, and then
/// holds that one as it is then.
pub fn chosen_priorities_do_as_those_that_they_hold()
    ensures names_in_turns { (held : ℕ) (after : OneChosen) (least sizes : List ℕ) (answer : Option ℕ) →
        ⟦<PriorityChosen as Peaker>⟧.peaks (GoesRound held) least sizes answer after →
        HoldsThen GoesRound after (λ then. ⟦<PriorityNone as Peaker>⟧.peaks held least sizes answer then) }
    ensures names_narrowest { (held : Bool) (after : OneChosen) (least sizes : List ℕ) (answer : Option ℕ) →
        ⟦<PriorityChosen as Peaker>⟧.peaks (NarrowestFirst held) least sizes answer after →
        HoldsThen NarrowestFirst after (λ then. ⟦<PriorityMin as Peaker>⟧.peaks held least sizes answer then) }
    ensures names_widest { (held : Bool) (after : OneChosen) (least sizes : List ℕ) (answer : Option ℕ) →
        ⟦<PriorityChosen as Peaker>⟧.peaks (WidestFirst held) least sizes answer after →
        HoldsThen WidestFirst after (λ then. ⟦<PriorityMax as Peaker>⟧.peaks held least sizes answer then) }
    ensures names_left { (held : FromLeft) (after : OneChosen) (least sizes : List ℕ) (answer : Option ℕ) →
        ⟦<PriorityChosen as Peaker>⟧.peaks (LeftFirst held) least sizes answer after →
        HoldsThen LeftFirst after (λ then. ⟦<PriorityLeft as Peaker>⟧.peaks held least sizes answer then) }
    ensures names_right { (held : FromRight) (after : OneChosen) (least sizes : List ℕ) (answer : Option ℕ) →
        ⟦<PriorityChosen as Peaker>⟧.peaks (RightFirst held) least sizes answer after →
        HoldsThen RightFirst after (λ then. ⟦<PriorityRight as Peaker>⟧.peaks held least sizes answer then) }
    ensures shrunk_in_turns { (held : ℕ) (after : OneChosen) (least widths sizes : List ℕ) (by : ℕ) →
        ⟦<PriorityChosen as Peaker>⟧.shrinks (GoesRound held) least by widths after sizes →
        HoldsThen GoesRound after (λ then. ⟦<PriorityNone as Peaker>⟧.shrinks held least by widths then sizes) }
    ensures shrunk_narrowest { (held : Bool) (after : OneChosen) (least widths sizes : List ℕ) (by : ℕ) →
        ⟦<PriorityChosen as Peaker>⟧.shrinks (NarrowestFirst held) least by widths after sizes →
        HoldsThen NarrowestFirst after (λ then. ⟦<PriorityMin as Peaker>⟧.shrinks held least by widths then sizes) }
    ensures shrunk_widest { (held : Bool) (after : OneChosen) (least widths sizes : List ℕ) (by : ℕ) →
        ⟦<PriorityChosen as Peaker>⟧.shrinks (WidestFirst held) least by widths after sizes →
        HoldsThen WidestFirst after (λ then. ⟦<PriorityMax as Peaker>⟧.shrinks held least by widths then sizes) }
    ensures shrunk_left { (held : FromLeft) (after : OneChosen) (least widths sizes : List ℕ) (by : ℕ) →
        ⟦<PriorityChosen as Peaker>⟧.shrinks (LeftFirst held) least by widths after sizes →
        HoldsThen LeftFirst after (λ then. ⟦<PriorityLeft as Peaker>⟧.shrinks held least by widths then sizes) }
    ensures shrunk_right { (held : FromRight) (after : OneChosen) (least widths sizes : List ℕ) (by : ℕ) →
        ⟦<PriorityChosen as Peaker>⟧.shrinks (RightFirst held) least by widths after sizes →
        HoldsThen RightFirst after (λ then. ⟦<PriorityRight as Peaker>⟧.shrinks held least by widths then sizes) }
    ensures grown_in_turns { (held : ℕ) (after : OneChosen) (widths sizes : List ℕ) (by : ℕ) →
        ⟦<PriorityChosen as Peaker>⟧.grows (GoesRound held) by widths after sizes →
        HoldsThen GoesRound after (λ then. ⟦<PriorityNone as Peaker>⟧.grows held by widths then sizes) }
    ensures grown_narrowest { (held : Bool) (after : OneChosen) (widths sizes : List ℕ) (by : ℕ) →
        ⟦<PriorityChosen as Peaker>⟧.grows (NarrowestFirst held) by widths after sizes →
        HoldsThen NarrowestFirst after (λ then. ⟦<PriorityMin as Peaker>⟧.grows held by widths then sizes) }
    ensures grown_widest { (held : Bool) (after : OneChosen) (widths sizes : List ℕ) (by : ℕ) →
        ⟦<PriorityChosen as Peaker>⟧.grows (WidestFirst held) by widths after sizes →
        HoldsThen WidestFirst after (λ then. ⟦<PriorityMax as Peaker>⟧.grows held by widths then sizes) }
    ensures grown_left { (held : FromLeft) (after : OneChosen) (widths sizes : List ℕ) (by : ℕ) →
        ⟦<PriorityChosen as Peaker>⟧.grows (LeftFirst held) by widths after sizes →
        HoldsThen LeftFirst after (λ then. ⟦<PriorityLeft as Peaker>⟧.grows held by widths then sizes) }
    ensures grown_right { (held : FromRight) (after : OneChosen) (widths sizes : List ℕ) (by : ℕ) →
        ⟦<PriorityChosen as Peaker>⟧.grows (RightFirst held) by widths after sizes →
        HoldsThen RightFirst after (λ then. ⟦<PriorityRight as Peaker>⟧.grows held by widths then sizes) }
{}

/// The priority that a name gives makes of widths what its name makes of them.
pub fn chosen_priorities_do_as_their_names()
    ensures shrunk { (name : OneChoice) (after : OneChosen) (least widths sizes : List ℕ) (by : ℕ) →
        ⟦<PriorityChosen as Peaker>⟧.shrinks (chosen name) least by widths after sizes → IsShrunkByChoice name least by widths sizes }
    ensures grown { (name : OneChoice) (after : OneChosen) (widths sizes : List ℕ) (by : ℕ) →
        ⟦<PriorityChosen as Peaker>⟧.grows (chosen name) by widths after sizes → IsGrownByChoice name by widths sizes }
{}

/// A priority names the column of its kind, whether one is to give or to grow.
pub fn priorities_name_their_columns()
    ensures turns { (next after : ℕ) (least sizes : List ℕ) (answer : Option ℕ) → ⟦<PriorityNone as Peaker>⟧.peaks next least sizes answer after → turn_peaks next least sizes answer after }
    ensures left { (before after : FromLeft) (least sizes : List ℕ) (answer : Option ℕ) →
        ⟦<PriorityLeft as Peaker>⟧.peaks before least sizes answer after → side_peaks false before least sizes answer after }
    ensures right { (before after : FromRight) (least sizes : List ℕ) (answer : Option ℕ) →
        ⟦<PriorityRight as Peaker>⟧.peaks before least sizes answer after → side_peaks true before least sizes answer after }
    ensures widest { (side after : Bool) (least sizes : List ℕ) (answer : Option ℕ) → ⟦<PriorityMax as Peaker>⟧.peaks side least sizes answer after → widest_peaks side least sizes answer after }
    ensures narrowest { (side after : Bool) (least sizes : List ℕ) (answer : Option ℕ) → ⟦<PriorityMin as Peaker>⟧.peaks side least sizes answer after → narrowest_peaks side least sizes answer after }
{}

/// A priority with leasts of its own names the columns that its two steps name, and shrinks and grows by those, one column
/// of width at a time.
pub fn own_leasts_go_in_two_steps<P: Peaker>()
    ensures peaks { (before after : OwnLeasts P) (least sizes : List ℕ) (answer : Option ℕ) →
        ⟦<PriorityLeast<P> as Peaker>⟧.peaks before least sizes answer after → NamesInTwoSteps P.peaks before least sizes answer after }
    ensures shrunk { (before after : OwnLeasts P) (least widths sizes : List ℕ) (by : ℕ) →
        ⟦<PriorityLeast<P> as Peaker>⟧.shrinks before least by widths after sizes → IsShrunkBy (NamesInTwoSteps P.peaks) before least by widths after sizes }
    ensures grown { (before after : OwnLeasts P) (widths sizes : List ℕ) (by : ℕ) →
        ⟦<PriorityLeast<P> as Peaker>⟧.grows before by widths after sizes → IsGrownBy (NamesInTwoSteps P.peaks) before by widths after sizes }
{}

/// A clone of an order of columns, or of a rule by which they move, is the same.
pub fn clones_of_orders_are_the_same()
    ensures order { (source clone : OneOrder) → ⟦<Order as Clone>⟧.is_clone source clone → clone ≡ source }
    ensures rule { (source clone : OneRule) → ⟦<Rule as Clone>⟧.is_clone source clone → clone ≡ source }
    ensures order_comes { (source : OneOrder) → ⟦<Order as Clone>⟧.is_infallible source }
    ensures rule_comes { (source : OneRule) → ⟦<Rule as Clone>⟧.is_infallible source }
{}
