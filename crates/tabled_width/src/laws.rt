//! Laws: which step each option is, and which sizes it clears; what measurements give; and lists worked
//! out by hand.
ghost use Rattle.std.specs.Prelude.{◌≡◌, ◌↔◌, Bool, false, true, ℕ, List, None, Ok, Result, Some, [], ◌∷◌, ◌++◌, codes};
ghost use Rattle.std.specs.Global.{Vec as VecOf};
ghost use Rattle.std.specs.declared.cmp.Ordering.TheVariants.{Equal};
ghost use Rattle.std.specs.Ordering.{nat_cmp};
ghost use Rattle.grid_config.specs.Looks.{Look};
ghost use Rattle.grid_config_values.specs.declared.entity.Entity.{Entity as Cells};
ghost use Rattle.grid_config_values.specs.declared.entity.Entity.TheVariants.{Global as EveryCell, Row as OneRow};
ghost use Rattle.grid_config_values.specs.declared.fault.Fault.{Fault as TableFault};
ghost use Rattle.tabled_size.specs.Dimension.Stored.{none_stored};
ghost use Rattle.tabled_steps.specs.Changes.{changing};
ghost use Rattle.tabled_steps.specs.States.{Outcome, State};
ghost use Rattle.tabled_steps.specs.declared.measurement.Max.{Max as Greatest};
ghost use Rattle.tabled_steps.specs.declared.measurement.Min.{Min as LeastThatHolds};
ghost use Rattle.tabled_steps.specs.declared.measurement.Percent.{Percent as Hundredths};
ghost use Rattle.tabled_steps.specs.Worked.{letters};
ghost use Rattle.tabled_width.specs.Measures.{greatest_smallest_width, greatest_width, percent_of_width};
ghost use Rattle.grid_records_estimate.specs.Estimates.{smallest};
ghost use Rattle.tabled_width.specs.Lists.{with_width_list};
ghost use Rattle.tabled_width.specs.WholeTables.Steps.{Measured};
ghost use Rattle.tabled_width.specs.Options.{justified_width, truncation, widening, wrapping};
ghost use Rattle.tabled_width.specs.Order.{truncation_cmp, widening_cmp};
ghost use Rattle.tabled_width.specs.WholeTables.Tables.{NarrowsTable, WidensTable};
ghost use Rattle.tabled_width_texts.specs.Cutting.{SuffixedCut, truncating};
ghost use Rattle.tabled_width.specs.WholeTables.Rooms.{column_widths, in_room};
ghost use Rattle.tabled_size_wrap.specs.Bytes.{wrapped_text};
ghost use Rattle.tabled_size_wrap.specs.Staying.{stays};
ghost use Rattle.tabled_width_texts.specs.WrappedOrCut.{wrapping_each, wrapping_others, cutting_wider, justifying, one_then_other, wrapping_wider};
ghost use Rattle.tabled_width_texts.specs.Filling.{filling};
ghost use Rattle.tabled_width.specs.declared.min_width.MinWidth.{MinWidth as OneMinWidth};
ghost use Rattle.tabled_width.specs.declared.truncate.Truncate.{Truncate as OneTruncate};
ghost use Rattle.tabled_width.specs.declared.wrap.Wrap.{Wrap as OneWrap};
ghost use Rattle.tabled_width.specs.declared.justify.Justify.{Justify as OneJustify};

use crate::justify::Justify;
use crate::list::WidthList;
use crate::min_width::MinWidth;
use crate::truncate::Truncate;
use crate::width::Width;
use crate::wrap::Wrap;
use grid_config::ColoredConfig;
use grid_records::{FromText, VecRecords};
use tabled_size::CompleteDimension;
use tabled_size_priority::{Peaker, PriorityNone};
use tabled_steps::{CellOption, Max, Measurement, Min, Percent, TableOption};

/// A list is the step that keeps its widths, and clears nothing.
pub fn lists_are_their_steps<T: FromText>()
    ensures step { (widths : List ℕ) (state : State) (outcome : Outcome) → ⟦<WidthList as TableOption<VecRecords<T>, ColoredConfig, CompleteDimension>>⟧.step widths state outcome →
        with_width_list widths state ≡ outcome }
    ensures hint { (widths : List ℕ) → ⟦<WidthList as TableOption<VecRecords<T>, ColoredConfig, CompleteDimension>>⟧.hint widths ≡ None }
{}

/// An option of cells is the step that fills, wraps or cuts the texts of an entity. It does so at a width that
/// its measurement gives, and clears all sizes.
pub fn cell_options_are_their_steps<'a, T: FromText, W: Measurement<Width>, P>()
    ensures filling { (option : OneMinWidth W P) (at : Cells) (state : State) (outcome : Outcome) → ⟦<MinWidth<W, P> as CellOption<VecRecords<T>, ColoredConfig>>⟧.step option at state outcome →
        Measured (W.measures (widening option).width) (λ width state outcome. changing (λ _. filling (widening option).fill width) at state ≡ outcome) state outcome }
    ensures wrapping { (option : OneWrap W P) (at : Cells) (state : State) (outcome : Outcome) → ⟦<Wrap<W, P> as CellOption<VecRecords<T>, ColoredConfig>>⟧.step option at state outcome →
        Measured (W.measures (wrapping option).width) (λ width state outcome. changing (λ _. wrapping_wider (wrapping option).keep_words width) at state ≡ outcome) state outcome }
    ensures cutting { (option : OneTruncate W P) (at : Cells) (state : State) (outcome : Outcome) → ⟦<Truncate<'a, W, P> as CellOption<VecRecords<T>, ColoredConfig>>⟧.step option at state outcome →
        Measured (W.measures (truncation option).width) (λ width state outcome. changing (λ _. truncating (truncation option).cutting width) at state ≡ outcome) state outcome }
    ensures cutting_hint { (option : OneTruncate W P) → ⟦<Truncate<'a, W, P> as CellOption<VecRecords<T>, ColoredConfig>>⟧.hint option ≡ Some EveryCell }
    ensures filling_hint { (option : OneMinWidth W P) → ⟦<MinWidth<W, P> as CellOption<VecRecords<T>, ColoredConfig>>⟧.hint option ≡ Some EveryCell }
    ensures wrapping_hint { (option : OneWrap W P) → ⟦<Wrap<W, P> as CellOption<VecRecords<T>, ColoredConfig>>⟧.hint option ≡ Some EveryCell }
{}

/// An option of a table is a step by a width that its measurement gives. Where the table takes more, it makes
/// the table narrower by the priority and by wrapped or cut texts. Where it takes less, it makes the table wider
/// by the priority alone. Wrapped texts clear the heights after it, the others nothing.
pub fn table_options_are_their_steps<
    'a,
    T: FromText,
    W: Measurement<Width> + Drop,
    P: Peaker + Drop,
>()
    ensures wrapping { (option : OneWrap W P) (state : State) (outcome : Outcome) → ⟦<Wrap<W, P> as TableOption<VecRecords<T>, ColoredConfig, CompleteDimension>>⟧.step option state outcome →
        NarrowsTable P.shrinks (wrapping option).priority (wrapping_each (wrapping option).keep_words) (W.measures (wrapping option).width) state outcome }
    ensures widening { (option : OneMinWidth W P) (state : State) (outcome : Outcome) → ⟦<MinWidth<W, P> as TableOption<VecRecords<T>, ColoredConfig, CompleteDimension>>⟧.step option state outcome →
        WidensTable P.grows (widening option).priority (W.measures (widening option).width) state outcome }
    ensures cutting { (option : OneTruncate W P) (state : State) (outcome : Outcome) →
        ⟦<Truncate<'a, W, P> as TableOption<VecRecords<T>, ColoredConfig, CompleteDimension>>⟧.step option state outcome →
        NarrowsTable P.shrinks (truncation option).priority (truncating (truncation option).cutting) (W.measures (truncation option).width) state outcome }
    ensures cutting_hint { (option : OneTruncate W P) → ⟦<Truncate<'a, W, P> as TableOption<VecRecords<T>, ColoredConfig, CompleteDimension>>⟧.hint option ≡ None }
    ensures wrapping_hint { (option : OneWrap W P) → ⟦<Wrap<W, P> as TableOption<VecRecords<T>, ColoredConfig, CompleteDimension>>⟧.hint option ≡ Some (OneRow 0) }
    ensures widening_hint { (option : OneMinWidth W P) → ⟦<MinWidth<W, P> as TableOption<VecRecords<T>, ColoredConfig, CompleteDimension>>⟧.hint option ≡ None }
{}

/// A table whose cells are justified: each text is filled and then cut at a width that the measurement
/// gives, and no size is kept.
pub fn justifying_is_its_step<T: FromText, W: Measurement<Width> + Drop>()
    ensures step { (option : OneJustify W) (state : State) (outcome : Outcome) → ⟦<Justify<W> as TableOption<VecRecords<T>, ColoredConfig, CompleteDimension>>⟧.step option state outcome →
        Measured (W.measures (justified_width option)) (λ width state outcome. changing (λ _. justifying width) EveryCell state ≡ outcome) state outcome }
    ensures hint { (option : OneJustify W) → ⟦<Justify<W> as TableOption<VecRecords<T>, ColoredConfig, CompleteDimension>>⟧.hint option ≡ Some EveryCell }
{}

/// One change and then another, by hand: both, the first alone, the second alone, and none.
pub fn worked_changes()
    ensures both { one_then_other (λ _. Some (codes "ab")) (λ _. Some (codes "a")) (codes "b") ≡ Some (codes "a") }
    ensures first { one_then_other (λ _. Some (codes "ab")) (λ _. None) (codes "b") ≡ Some (codes "ab") }
    ensures second { one_then_other (λ _. None) (λ text. Some (text ++ codes "!")) (codes "b") ≡ Some (codes "b!") }
    ensures none { one_then_other (λ _. None) (λ _. None) (codes "b") ≡ None }
{}

/// A text that stays at a width is what it is wrapped to there, so that nothing has to be set. Any other is set to
/// what it is wrapped to.
pub fn texts_that_stay()
    ensures same { (keep_words : Bool) (width : ℕ) (text : List ℕ) → stays keep_words width text ≡ true → wrapped_text width keep_words text ≡ text }
    ensures others { (keep_words : Bool) (width : ℕ) (text : List ℕ) → stays keep_words width text ≡ false → wrapping_others keep_words width text ≡ wrapping_each keep_words width text }
{}

/// Without a suffix, and as one text, a text that measures more than the width given to it is its cut there,
/// whatever else was requested.
pub fn without_suffix_texts_are_cut()
    ensures { (cutting : SuffixedCut) (room : ℕ) (text : List ℕ) → truncating (record cutting { suffix = []; multiline = false }) room text ≡ cutting_wider room text }
{}

/// By hand: the widths of three columns where two are kept, and of one where two are; and a text that is given
/// no width.
pub fn worked_rooms()
    ensures more { column_widths 3 (2 ∷ 4 ∷ []) ≡ 2 ∷ 4 ∷ 0 ∷ [] }
    ensures fewer { column_widths 1 (2 ∷ 4 ∷ []) ≡ 2 ∷ [] }
    ensures stays { in_room (λ _ text. Some text) (codes "a") None ≡ None }
{}

/// What the three measurements give as a width: each gives one.
pub fn measurements_give_their_widths()
    ensures max { (it : Greatest) (columns : ℕ) (rows : List (List (List ℕ))) (look : Look) (outcome : Result ℕ TableFault) →
        ⟦<Max as Measurement<Width>>⟧.measures it columns rows look outcome → Ok (greatest_width columns rows) ≡ outcome }
    ensures min { (it : LeastThatHolds) (columns : ℕ) (rows : List (List (List ℕ))) (look : Look) (outcome : Result ℕ TableFault) →
        ⟦<Min as Measurement<Width>>⟧.measures it columns rows look outcome → Ok (greatest_smallest_width columns rows) ≡ outcome }
    ensures percent { (it : Hundredths) (columns : ℕ) (rows : List (List (List ℕ))) (look : Look) (outcome : Result ℕ TableFault) →
        ⟦<Percent as Measurement<Width>>⟧.measures it columns rows look outcome → percent_of_width it.0 columns rows look ≡ outcome }
{}

/// The smallest of a list, by hand; and a list of widths that is as long as the table, and one that is
/// shorter.
pub fn worked_lists()
    ensures none { smallest [] ≡ 0 }
    ensures first { smallest (2 ∷ 3 ∷ []) ≡ 2 }
    ensures last { smallest (3 ∷ 5 ∷ 1 ∷ []) ≡ 1 }
    ensures kept { (s : State) → with_width_list (3 ∷ 4 ∷ []) (record s { rows = letters; sizes = none_stored })
        ≡ Ok (record s { rows = letters; sizes = record { widths = Some (3 ∷ 4 ∷ []); heights = None } }) }
    ensures shorter { (s : State) → with_width_list (3 ∷ []) (record s { rows = letters }) ≡ Ok (record s { rows = letters }) }
{}

/// A list of widths is the numbers of its vector.
pub fn lists_are_made_of_their_widths()
    ensures { (widths : VecOf ℕ) (list : List ℕ) → ⟦<WidthList as From<Vec<usize>>>⟧.from_gives widths list → list ≡ widths.items }
{}

/// `==` of options by numbers is equality of all that they hold, of a suffix by its text. `cmp` of those
/// without a suffix finds the same ones equal.
pub fn options_are_compared_whole<'a>()
    ensures widening { (a b : OneMinWidth ℕ ℕ) → (⟦<MinWidth<usize, PriorityNone> as PartialEq>⟧.eq a b ≡ true) ↔ (widening a ≡ widening b) }
    ensures widening_order { (a b : OneMinWidth ℕ ℕ) → (⟦<MinWidth<usize, PriorityNone> as Ord>⟧.cmp a b ≡ Equal) ↔ (widening a ≡ widening b) }
    ensures cutting { (a b : OneTruncate ℕ ℕ) → (⟦<Truncate<'a, usize, PriorityNone> as PartialEq>⟧.eq a b ≡ true) ↔ (truncation a ≡ truncation b) }
    ensures justifying { (a b : OneJustify ℕ) → (⟦<Justify<usize> as PartialEq>⟧.eq a b ≡ true) ↔ (justified_width a ≡ justified_width b) }
    ensures justifying_order { (a b : OneJustify ℕ) → (⟦<Justify<usize> as Ord>⟧.cmp a b ≡ Equal) ↔ (justified_width a ≡ justified_width b) }
{}

/// `cmp` of options by numbers goes by their parts, one after the other. These are the width, the character after
/// lines and the priority; or the width, the suffix byte by byte, its limit, the two switches and the
/// priority. `partial_cmp` returns the same.
pub fn options_are_ordered_by_their_parts<'a>()
    ensures widening { (a b : OneMinWidth ℕ ℕ) → ⟦<MinWidth<usize, PriorityNone> as Ord>⟧.cmp a b ≡ widening_cmp (widening a) (widening b) }
    ensures widening_partly { (a b : OneMinWidth ℕ ℕ) → ⟦<MinWidth<usize, PriorityNone> as PartialOrd>⟧.partial_cmp a b ≡ Some (widening_cmp (widening a) (widening b)) }
    ensures cutting { (a b : OneTruncate ℕ ℕ) → ⟦<Truncate<'a, usize, PriorityNone> as Ord>⟧.cmp a b ≡ truncation_cmp (truncation a) (truncation b) }
    ensures cutting_partly { (a b : OneTruncate ℕ ℕ) → ⟦<Truncate<'a, usize, PriorityNone> as PartialOrd>⟧.partial_cmp a b ≡ Some (truncation_cmp (truncation a) (truncation b)) }
    ensures justifying { (a b : OneJustify ℕ) → ⟦<Justify<usize> as Ord>⟧.cmp a b ≡ nat_cmp (justified_width a) (justified_width b) }
    ensures justifying_partly { (a b : OneJustify ℕ) → ⟦<Justify<usize> as PartialOrd>⟧.partial_cmp a b ≡ Some (nat_cmp (justified_width a) (justified_width b)) }
{}

/// A clone of an option holds the same, where clones of its width and of its priority are the same.
pub fn clones_are_the_same<'a, W: Clone, P: Clone>()
    ensures widening { ((x y : W) → W.is_clone x y → y ≡ x) → ((x y : P) → P.is_clone x y → y ≡ x) →
        (source clone : OneMinWidth W P) → ⟦<MinWidth<W, P> as Clone>⟧.is_clone source clone → widening clone ≡ widening source }
    ensures wrapping { ((x y : W) → W.is_clone x y → y ≡ x) → ((x y : P) → P.is_clone x y → y ≡ x) →
        (source clone : OneWrap W P) → ⟦<Wrap<W, P> as Clone>⟧.is_clone source clone → wrapping clone ≡ wrapping source }
    ensures cutting { ((x y : W) → W.is_clone x y → y ≡ x) → ((x y : P) → P.is_clone x y → y ≡ x) →
        (source clone : OneTruncate W P) → ⟦<Truncate<'a, W, P> as Clone>⟧.is_clone source clone → truncation clone ≡ truncation source }
    ensures justifying { ((x y : W) → W.is_clone x y → y ≡ x) →
        (source clone : OneJustify W) → ⟦<Justify<W> as Clone>⟧.is_clone source clone → justified_width clone ≡ justified_width source }
{}

/// A clone of an option is never refused, where clones of its width and of its priority never are.
pub fn clones_are_never_refused<'a, W: Clone, P: Clone>()
    ensures widening { ((x : W) → W.is_infallible x) → ((x : P) → P.is_infallible x) → (source : OneMinWidth W P) → ⟦<MinWidth<W, P> as Clone>⟧.is_infallible source }
    ensures wrapping { ((x : W) → W.is_infallible x) → ((x : P) → P.is_infallible x) → (source : OneWrap W P) → ⟦<Wrap<W, P> as Clone>⟧.is_infallible source }
    ensures cutting { ((x : W) → W.is_infallible x) → ((x : P) → P.is_infallible x) → (source : OneTruncate W P) → ⟦<Truncate<'a, W, P> as Clone>⟧.is_infallible source }
    ensures justifying { ((x : W) → W.is_infallible x) → (source : OneJustify W) → ⟦<Justify<W> as Clone>⟧.is_infallible source }
{}
