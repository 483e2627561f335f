//! Laws: what the definitions come to by hand, which step each option is, which sizes it clears, and what the
//! measurements are.
ghost use Rattle.std.specs.Prelude.{◌≡◌, ◌↔◌, ◌-◌, ◌^◌, ℕ, List, [], ◌∷◌, Err, None, Ok, Result, Some, codes, true};
ghost use Rattle.std.specs.declared.cmp.Ordering.TheVariants.{Equal};
ghost use Rattle.std.specs.Global.{Vec as VecOf};
ghost use Rattle.grid_config_values.specs.declared.entity.Entity.{Entity as Cells};
ghost use Rattle.grid_config_values.specs.declared.entity.Entity.TheVariants.{Global as EveryCell};
ghost use Rattle.grid_config_values.specs.Glyphs.{no_borders};
ghost use Rattle.grid_config_values.specs.declared.fault.Fault.{Fault as TableFault};
ghost use Rattle.grid_config_values.specs.declared.fault.Fault.TheVariants.{Range as PassesMax};
ghost use Rattle.grid_config.specs.Looks.{Look};
ghost use Rattle.grid_records_estimate.specs.Sizing.{position_at};
ghost use Rattle.tabled_steps.specs.States.{Outcome, State};
ghost use Rattle.tabled_steps.specs.declared.measurement.Max.{Max as Greatest};
ghost use Rattle.tabled_steps.specs.declared.measurement.Min.{Min as Least};
ghost use Rattle.tabled_steps.specs.declared.measurement.Percent.{Percent as Hundredths};
ghost use Rattle.tabled_height.specs.Heights.{fewest_lines, hundredths, lines_with_heights, most_lines, percent_of_height};
ghost use Rattle.tabled_height.specs.Lines.{limited, raised};
ghost use Rattle.tabled_height.specs.Options.{increase_height, limit_height, table_increase, table_limit};
ghost use Rattle.tabled_height.specs.Steps.{LimitsCells, LimitsTable, RaisesCells, RaisesTable, listing_heights};
ghost use Rattle.tabled_height.specs.Worked.{margins, uneven};
ghost use Rattle.tabled_height.specs.declared.increase.CellHeightIncrease.{CellHeightIncrease as CellIncrease};
ghost use Rattle.tabled_height.specs.declared.increase.TableHeightIncrease.{TableHeightIncrease as TableIncrease};
ghost use Rattle.tabled_height.specs.declared.limit.CellHeightLimit.{CellHeightLimit as CellLimit};
ghost use Rattle.tabled_height.specs.declared.limit.TableHeightLimit.{TableHeightLimit as TableLimit};

use crate::height::Height;
use crate::increase::{CellHeightIncrease, TableHeightIncrease};
use crate::limit::{CellHeightLimit, TableHeightLimit};
use crate::list::HeightList;
use grid_config::ColoredConfig;
use grid_records::{FromText, VecRecords};
use grid_records_traits::records::ExactRecords;
use tabled_size::CompleteDimension;
use tabled_size_priority::{Peaker, PriorityNone};
use tabled_steps::{CellOption, Configuration, Max, Measurement, Min, Percent, TableOption};

/// How many lines texts have, and what is added to them or left of them, by hand.
pub fn worked_texts()
    ensures most { most_lines 2 uneven ≡ 3 }
    ensures fewest { fewest_lines 2 uneven ≡ 2 }
    ensures no_rows { fewest_lines 2 [] ≡ 0 }
    ensures no_columns { fewest_lines 0 ([] ∷ [] ∷ []) ≡ 0 }
    ensures raised { raised 3 (position_at 0 0) (codes "a") ≡ Some (codes "a\n\n") }
    ensures stays_raised { raised 1 (position_at 0 0) (codes "a") ≡ None }
    ensures limited { limited 2 (position_at 0 0) (codes "a\nb\nc") ≡ Some (codes "a\nb") }
    ensures nothing_left { limited 0 (position_at 0 0) (codes "a") ≡ Some [] }
    ensures stays_limited { limited 1 (position_at 0 0) (codes "a") ≡ None }
{}

/// How many lines a table has with its margins, hundredths of them, and given heights, by hand.
pub fn worked_heights()
    ensures margins { (look : Look) → lines_with_heights (record look { borders = no_borders; margin = margins 1 2 }) (2 ∷ 3 ∷ []) ≡ 8 }
    ensures no_rows { (look : Look) → lines_with_heights look [] ≡ 0 }
    ensures rounded_down { hundredths 50 7 ≡ Ok 3 }
    ensures product { hundredths 2 (2 ^ 64 - 1) ≡ Err PassesMax }
    ensures listed { (s : State) → listing_heights (4 ∷ 5 ∷ []) (record s { rows = uneven }) ≡ Ok (record s { rows = uneven; sizes = record s.sizes { heights = Some (4 ∷ 5 ∷ []) } }) }
    ensures too_short { (s : State) → listing_heights (4 ∷ []) (record s { rows = uneven }) ≡ Ok (record s { rows = uneven }) }
{}

/// Each option of a table is the step of its height. On a table, the two options of cells are the steps of the
/// priority that goes round from the first row. None of them clears a kept size.
pub fn options_are_their_steps<
    T: FromText,
    W: Measurement<Height> + Drop,
    P: Peaker + Drop,
    R: ExactRecords,
    C: Configuration,
>()
    ensures increase { (option : TableIncrease W P) (state : State) (outcome : Outcome) →
        ⟦<TableHeightIncrease<W, P> as TableOption<VecRecords<T>, ColoredConfig, CompleteDimension>>⟧.step option state outcome →
        RaisesTable (W.measures (table_increase option).0) P.grows (table_increase option).1 state outcome }
    ensures limit { (option : TableLimit W P) (state : State) (outcome : Outcome) →
        ⟦<TableHeightLimit<W, P> as TableOption<VecRecords<T>, ColoredConfig, CompleteDimension>>⟧.step option state outcome →
        LimitsTable (W.measures (table_limit option).0) P.shrinks (table_limit option).1 state outcome }
    ensures cell_increase { (option : CellIncrease W) (state : State) (outcome : Outcome) →
        ⟦<CellHeightIncrease<W> as TableOption<VecRecords<T>, ColoredConfig, CompleteDimension>>⟧.step option state outcome →
        RaisesTable (W.measures (increase_height option)) ⟦<PriorityNone as Peaker>⟧.grows 0 state outcome }
    ensures cell_limit { (option : CellLimit W) (state : State) (outcome : Outcome) → ⟦<CellHeightLimit<W> as TableOption<VecRecords<T>, ColoredConfig, CompleteDimension>>⟧.step option state outcome →
        LimitsTable (W.measures (limit_height option)) ⟦<PriorityNone as Peaker>⟧.shrinks 0 state outcome }
    ensures list { (heights : List ℕ) (state : State) (outcome : Outcome) → ⟦<HeightList as TableOption<R, C, CompleteDimension>>⟧.step heights state outcome →
        listing_heights heights state ≡ outcome }
    ensures increase_hint { (option : TableIncrease W P) → ⟦<TableHeightIncrease<W, P> as TableOption<VecRecords<T>, ColoredConfig, CompleteDimension>>⟧.hint option ≡ None }
    ensures limit_hint { (option : TableLimit W P) → ⟦<TableHeightLimit<W, P> as TableOption<VecRecords<T>, ColoredConfig, CompleteDimension>>⟧.hint option ≡ None }
    ensures cell_increase_hint { (option : CellIncrease W) → ⟦<CellHeightIncrease<W> as TableOption<VecRecords<T>, ColoredConfig, CompleteDimension>>⟧.hint option ≡ None }
    ensures cell_limit_hint { (option : CellLimit W) → ⟦<CellHeightLimit<W> as TableOption<VecRecords<T>, ColoredConfig, CompleteDimension>>⟧.hint option ≡ None }
    ensures list_hint { (heights : List ℕ) → ⟦<HeightList as TableOption<R, C, CompleteDimension>>⟧.hint heights ≡ None }
{}

/// Each option of cells is the step of its height on the cells of an entity, and clears all sizes.
pub fn cell_options_are_their_steps<T: FromText, W: Measurement<Height>>()
    ensures increase { (option : CellIncrease W) (at : Cells) (state : State) (outcome : Outcome) → ⟦<CellHeightIncrease<W> as CellOption<VecRecords<T>, ColoredConfig>>⟧.step option at state outcome →
        RaisesCells (W.measures (increase_height option)) at state outcome }
    ensures limit { (option : CellLimit W) (at : Cells) (state : State) (outcome : Outcome) → ⟦<CellHeightLimit<W> as CellOption<VecRecords<T>, ColoredConfig>>⟧.step option at state outcome →
        LimitsCells (W.measures (limit_height option)) at state outcome }
    ensures increase_hint { (option : CellIncrease W) → ⟦<CellHeightIncrease<W> as CellOption<VecRecords<T>, ColoredConfig>>⟧.hint option ≡ Some EveryCell }
    ensures limit_hint { (option : CellLimit W) → ⟦<CellHeightLimit<W> as CellOption<VecRecords<T>, ColoredConfig>>⟧.hint option ≡ Some EveryCell }
{}

/// What the measurements of heights may return.
pub fn measurements_of_heights()
    ensures greatest { (max : Greatest) (columns : ℕ) (rows : List (List (List ℕ))) (look : Look) (outcome : Result ℕ TableFault) →
        ⟦<Max as Measurement<Height>>⟧.measures max columns rows look outcome → Ok (most_lines columns rows) ≡ outcome }
    ensures least { (min : Least) (columns : ℕ) (rows : List (List (List ℕ))) (look : Look) (outcome : Result ℕ TableFault) →
        ⟦<Min as Measurement<Height>>⟧.measures min columns rows look outcome → Ok (fewest_lines columns rows) ≡ outcome }
    ensures hundredths { (percent : Hundredths) (columns : ℕ) (rows : List (List (List ℕ))) (look : Look) (outcome : Result ℕ TableFault) →
        ⟦<Percent as Measurement<Height>>⟧.measures percent columns rows look outcome → percent_of_height percent.0 columns rows look ≡ outcome }
{}

/// A height list keeps the numbers of its vector.
pub fn lists_are_made_of_their_heights()
    ensures { (heights : VecOf ℕ) (list : List ℕ) → ⟦<HeightList as From<Vec<usize>>>⟧.from_gives heights list → list ≡ heights.items }
{}

/// `==` of options of cells by numbers is equality of the numbers, and `cmp` finds the same ones equal.
pub fn options_are_compared_whole()
    ensures increase { (a b : CellIncrease ℕ) → (⟦<CellHeightIncrease<usize> as PartialEq>⟧.eq a b ≡ true) ↔ (a ≡ b) }
    ensures increase_order { (a b : CellIncrease ℕ) → (⟦<CellHeightIncrease<usize> as Ord>⟧.cmp a b ≡ Equal) ↔ (a ≡ b) }
    ensures limit { (a b : CellLimit ℕ) → (⟦<CellHeightLimit<usize> as PartialEq>⟧.eq a b ≡ true) ↔ (a ≡ b) }
    ensures limit_order { (a b : CellLimit ℕ) → (⟦<CellHeightLimit<usize> as Ord>⟧.cmp a b ≡ Equal) ↔ (a ≡ b) }
{}

/// A clone of an option has the same height and the same priority, where clones of these are the same.
pub fn clones_are_the_same<W: Clone, P: Clone>()
    ensures increase { ((x y : W) → W.is_clone x y → y ≡ x) → (source clone : CellIncrease W) → ⟦<CellHeightIncrease<W> as Clone>⟧.is_clone source clone → clone ≡ source }
    ensures limit { ((x y : W) → W.is_clone x y → y ≡ x) → (source clone : CellLimit W) → ⟦<CellHeightLimit<W> as Clone>⟧.is_clone source clone → clone ≡ source }
    ensures table_increase { ((x y : W) → W.is_clone x y → y ≡ x) → ((x y : P) → P.is_clone x y → y ≡ x) →
        (source clone : TableIncrease W P) → ⟦<TableHeightIncrease<W, P> as Clone>⟧.is_clone source clone → table_increase clone ≡ table_increase source }
{}

/// A clone of an option is never refused, where clones of its height and of its priority never are.
pub fn clones_are_never_refused<W: Clone, P: Clone>()
    ensures increase { ((x : W) → W.is_infallible x) → (source : CellIncrease W) → ⟦<CellHeightIncrease<W> as Clone>⟧.is_infallible source }
    ensures limit { ((x : W) → W.is_infallible x) → (source : CellLimit W) → ⟦<CellHeightLimit<W> as Clone>⟧.is_infallible source }
    ensures table_increase { ((x : W) → W.is_infallible x) → ((x : P) → P.is_infallible x) → (source : TableIncrease W P) → ⟦<TableHeightIncrease<W, P> as Clone>⟧.is_infallible source }
{}
