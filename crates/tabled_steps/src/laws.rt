//! Laws of the definitions that the contracts cite.
ghost use Rattle.std.specs.Borrow.{Bor};
ghost use Rattle.std.specs.Prelude.{◌≡◌, ◌<◌, ◌+◌, ◌-◌, ◌^◌, length, unwrap_or, ℕ, List, Result, ◌==◌, ◌++◌, if◌then◌else◌, [], ◌∷◌, Err, None, Ok, Option, Some, codes};
ghost use Rattle.grid_config_values.specs.Spans.Spans.{single};
ghost use Rattle.grid_config.specs.Coloring.{Coloring};
ghost use Rattle.grid_config.specs.Compact.{compact_of};
ghost use Rattle.grid_config.specs.Looks.{Look, compact_look, look_of};
ghost use Rattle.grid_config.specs.Settings.{Settings};
ghost use Rattle.grid_config.specs.declared.compact.CompactConfig.{CompactConfig as CompactSettings};
ghost use Rattle.grid_config_values.specs.Settings.{value_at};
ghost use Rattle.grid_config_values.specs.declared.fault.Fault.{Fault as TableFault};
ghost use Rattle.grid_config_values.specs.declared.position.Position.{Position as CellPosition};
ghost use Rattle.grid_config_values.specs.declared.entity.Entity.{Entity as Cells};
ghost use Rattle.grid_config_values.specs.declared.entity.Entity.TheVariants.{Cell as OneCell, Column, Global as EveryCell, Row};
ghost use Rattle.grid_config_values.specs.declared.fault.Fault.TheVariants.{Range as Passed, Spans as BadSpan};
ghost use Rattle.grid_config_values.specs.Entities.{covers};
ghost use Rattle.grid_records_traits.specs.Rows.{HasCell, row_at, text_at};
ghost use Rattle.tabled_steps.specs.Changes.{changed_rows};
ghost use Rattle.tabled_steps.specs.Looks.{changing_inside, covering, placing, with_column_span, with_columns, with_extents, with_row_span, with_rows};
ghost use Rattle.tabled_steps.specs.Outcomes.{◌≫=◌, all_sized, sized};
ghost use Rattle.tabled_steps.specs.States.{Outcome, Settles, State, column_count, looking, positive, settled};
ghost use Rattle.tabled_size.specs.Dimension.Stored.{Stored, none_stored};
ghost use Rattle.tabled_size.specs.declared.dimension.zero.ZeroDimension.{ZeroDimension as Zero};
ghost use Rattle.grid_records_estimate.specs.Sizing.{position_at};
ghost use Rattle.tabled_steps.specs.Worked.{keeping, letters};
ghost use Rattle.tabled_steps.specs.declared.measurement.Max.{Max as Greatest};
ghost use Rattle.tabled_steps.specs.declared.measurement.Min.{Min as LeastThatHolds};
ghost use Rattle.tabled_steps.specs.declared.measurement.Percent.{Percent as Hundredths};

use crate::configuration::{Configuration, KeptSizes};
use crate::measurement::{Max, Measurement, Min, Percent};
use crate::option::TableOption;
use grid_config::{ColoredConfig, CompactConfig, SpannedConfig};
use grid_records_traits::records::RecordTexts;
use tabled_size::{CompleteDimension, ZeroDimension};

/// Texts that changed, worked out by hand. They are those of one column, those that their place names, those
/// of a row that isn't there, and those that stay.
pub fn worked_changes()
    ensures column { changed_rows (λ _ _. Some (codes "x")) (Column 1) 2 letters ≡ (codes "a" ∷ codes "x" ∷ []) ∷ (codes "c" ∷ codes "x" ∷ []) ∷ [] }
    ensures by_place { changed_rows (λ p text. if p.row == p.col then Some (text ++ codes "!") else None) EveryCell 2 letters ≡ (codes "a!" ∷ codes "b" ∷ []) ∷ (codes "c" ∷ codes "d!" ∷ []) ∷ [] }
    ensures outside { changed_rows (λ _ _. Some (codes "x")) (Row 2) 2 letters ≡ letters }
    ensures kept { changed_rows (λ _ _. None) EveryCell 2 letters ≡ letters }
{}

/// Where the entity covers a place of the table, its text becomes what the change returns for it, if it returns
/// one. Elsewhere it stays. There are as many rows, each of as many texts.
pub fn texts_change_where_the_entity_covers()
    ensures texts { (change : CellPosition → List ℕ → Option (List ℕ)) (at : Cells) (rows : List (List (List ℕ))) (p : CellPosition) → HasCell rows p → p.col < column_count rows →
        text_at (changed_rows change at (column_count rows) rows) p ≡ (if covers at p then unwrap_or (change p (text_at rows p)) (text_at rows p) else text_at rows p) }
    ensures rows { (change : CellPosition → List ℕ → Option (List ℕ)) (at : Cells) (columns : ℕ) (rows : List (List (List ℕ))) → length (changed_rows change at columns rows) ≡ length rows }
    ensures row { (change : CellPosition → List ℕ → Option (List ℕ)) (at : Cells) (columns : ℕ) (rows : List (List (List ℕ))) (i : ℕ) → i < length rows →
        length (row_at (changed_rows change at columns rows) i) ≡ length (row_at rows i) }
{}

/// What is worked out one after the other, up to the first refusal, by hand.
pub fn worked_outcomes()
    ensures last_held { sized (2 ^ 64 - 1) ≡ Ok (2 ^ 64 - 1) }
    ensures first_passed { sized (2 ^ 64) ≡ Err Passed }
    ensures held { (sized 3 ≫= λ n. Ok (n + 1)) ≡ Ok 4 }
    ensures refused { (sized (2 ^ 64) ≫= λ n. Ok (n + 1)) ≡ Err Passed }
    ensures each { all_sized (1 ∷ 2 ∷ []) ≡ Ok (1 ∷ 2 ∷ []) }
    ensures one { all_sized (1 ∷ (2 ^ 64) ∷ []) ≡ Err Passed }
{}

/// Settings of cells, worked out by hand: of a column, and of a place. The last are those of the cells that a
/// column names, in a table of two columns and one row.
pub fn worked_settings()
    ensures covered { covering (Column 1) (codes "b") (λ _. codes "a") (position_at 3 1) ≡ codes "b" }
    ensures others { covering (Column 1) (codes "b") (λ _. codes "a") (position_at 1 3) ≡ codes "a" }
    ensures placed { placing (position_at 0 1) (with_columns 2 single) (λ _. single) (position_at 0 1) ≡ record { rows = 1; columns = 2 } }
    ensures not_placed { placing (position_at 0 1) (with_rows 2 single) (λ _. single) (position_at 1 0) ≡ single }
    ensures inside { changing_inside (with_rows 2) (Column 1) 1 2 (λ _. single) (position_at 0 1) ≡ record { rows = 2; columns = 1 } }
    ensures columns { (look : Look) → (with_column_span (position_at 0 1) 2 look).extent (position_at 0 1) ≡ record (look.extent (position_at 0 1)) { columns = 2 } }
    ensures rows { (look : Look) → (with_row_span (position_at 0 1) 2 look).extent (position_at 0 1) ≡ record (look.extent (position_at 0 1)) { rows = 2 } }
    ensures others_stay { (look : Look) → (with_row_span (position_at 0 1) 2 look).extent (position_at 1 1) ≡ look.extent (position_at 1 1) }
    ensures extents { (look : Look) → (with_extents (with_columns 3) (Row 0) 1 2 look).extent (position_at 0 1) ≡ record (look.extent (position_at 0 1)) { columns = 3 } }
    ensures past_the_rows { changing_inside (with_rows 2) (Column 1) 1 2 (λ _. single) (position_at 1 1) ≡ single }
    ensures past_the_columns { changing_inside (with_rows 2) EveryCell 1 2 (λ _. single) (position_at 0 2) ≡ single }
{}

/// What a step's hint clears, by hand; and a refused step has none.
pub fn worked_hints()
    ensures nothing { (s : State) → settled None (Ok (keeping s)) ≡ Ok (keeping s) }
    ensures all { (s : State) → settled (Some EveryCell) (Ok (keeping s)) ≡ Ok (record s { sizes = none_stored }) }
    ensures cell { (s : State) → settled (Some (OneCell 0 0)) (Ok (keeping s)) ≡ Ok (record s { sizes = none_stored }) }
    ensures row { (s : State) → settled (Some (Row 0)) (Ok (keeping s)) ≡ Ok (record s { sizes = record { widths = Some (3 ∷ []); heights = None } }) }
    ensures column { (s : State) → settled (Some (Column 0)) (Ok (keeping s)) ≡ Ok (record s { sizes = record { widths = None; heights = Some (1 ∷ []) } }) }
    ensures refused { settled (Some EveryCell) (Err BadSpan) ≡ Err BadSpan }
    ensures zero { (step : State → Outcome) (s : State) → positive 0 step s ≡ Err BadSpan }
    ensures one { (step : State → Outcome) (s : State) → positive 1 step s ≡ step s }
{}

/// A step that leads to one outcome settles to one.
pub fn one_outcome_settles_to_one()
    ensures { (hint : Option Cells) (step : State → Outcome) (s : State) (outcome : Outcome) → Settles hint (λ s changed. step s ≡ changed) s outcome → settled hint (step s) ≡ outcome }
{}

/// Whole settings as an option replace the settings, and none but `ColoredConfig` the colours of cells; and
/// they clear all sizes.
pub fn settings_are_their_steps<'a, R: RecordTexts, D: KeptSizes>()
    ensures compact { (settings : CompactSettings) (s : State) (outcome : Outcome) → ⟦<CompactConfig as TableOption<R, ColoredConfig, D>>⟧.step settings s outcome →
        looking (λ _. compact_look (compact_of settings)) s ≡ outcome }
    ensures spanned { (settings : Settings) (s : State) (outcome : Outcome) → ⟦<SpannedConfig as TableOption<R, ColoredConfig, D>>⟧.step settings s outcome →
        looking (λ _. look_of settings) s ≡ outcome }
    ensures lent { (settings : Bor Settings) (s : State) (outcome : Outcome) → ⟦<&'a SpannedConfig as TableOption<R, ColoredConfig, D>>⟧.step settings s outcome →
        looking (λ _. look_of settings.now) s ≡ outcome }
    ensures colored { (settings : Coloring) (s : State) (outcome : Outcome) → ⟦<ColoredConfig as TableOption<R, ColoredConfig, D>>⟧.step settings s outcome →
        Ok (record s { look = look_of settings.settings; colors = value_at settings.colors }) ≡ outcome }
    ensures compact_hint { (settings : CompactSettings) → ⟦<CompactConfig as TableOption<R, ColoredConfig, D>>⟧.hint settings ≡ Some EveryCell }
    ensures alike { (settings : CompactSettings) (s : State) (outcome : Outcome) → ⟦<CompactConfig as TableOption<R, CompactConfig, D>>⟧.step settings s outcome →
        looking (λ _. compact_look (compact_of settings)) s ≡ outcome }
    ensures alike_hint { (settings : CompactSettings) → ⟦<CompactConfig as TableOption<R, CompactConfig, D>>⟧.hint settings ≡ Some EveryCell }
    ensures spanned_hint { (settings : Settings) → ⟦<SpannedConfig as TableOption<R, ColoredConfig, D>>⟧.hint settings ≡ Some EveryCell }
    ensures lent_hint { (settings : Bor Settings) → ⟦<&'a SpannedConfig as TableOption<R, ColoredConfig, D>>⟧.hint settings ≡ Some EveryCell }
    ensures colored_hint { (settings : Coloring) → ⟦<ColoredConfig as TableOption<R, ColoredConfig, D>>⟧.hint settings ≡ Some EveryCell }
{}

/// What options see of settings, of kept sizes, and of a number as a size.
pub fn what_options_see<A>()
    ensures look { (settings : Coloring) → ⟦<ColoredConfig as Configuration>⟧.look settings ≡ look_of settings.settings }
    ensures colors { (settings : Coloring) (place : CellPosition) → ⟦<ColoredConfig as Configuration>⟧.colors settings place ≡ value_at settings.colors place }
    ensures alike { (settings : CompactSettings) → ⟦<CompactConfig as Configuration>⟧.look settings ≡ compact_look (compact_of settings) }
    ensures plain { (settings : CompactSettings) (place : CellPosition) → ⟦<CompactConfig as Configuration>⟧.colors settings place ≡ None }
    ensures sizes { (stored : Stored) → ⟦<CompleteDimension as KeptSizes>⟧.sizes stored ≡ stored }
    ensures no_sizes { (zero : Zero) → ⟦<ZeroDimension as KeptSizes>⟧.sizes zero ≡ none_stored }
    ensures number { (n columns : ℕ) (rows : List (List (List ℕ))) (look : Look) (outcome : Result ℕ TableFault) →
        ⟦<usize as Measurement<A>>⟧.measures n columns rows look outcome → Ok n ≡ outcome }
{}

/// A clone of a size that is taken from a table is the same, and is never refused.
pub fn clones_of_sizes_are_the_same()
    ensures percent { (source clone : Hundredths) → ⟦<Percent as Clone>⟧.is_clone source clone → clone ≡ source }
    ensures percent_comes { (source : Hundredths) → ⟦<Percent as Clone>⟧.is_infallible source }
    ensures greatest_comes { (source : Greatest) → ⟦<Max as Clone>⟧.is_infallible source }
    ensures least_comes { (source : LeastThatHolds) → ⟦<Min as Clone>⟧.is_infallible source }
{}
