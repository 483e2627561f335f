//! Laws: what settings say is all of them, and which step each option is.
ghost use Rattle.std.specs.Prelude.{◌≡◌, ◌↔◌, Ok, Some, true};
ghost use Rattle.std.specs.Cmp.{IsTotalOrder};
ghost use Rattle.std.specs.declared.cmp.Ordering.TheVariants.{Equal};
ghost use Rattle.grid_config_values.specs.declared.entity.Entity.TheVariants.{Global as EveryCell};
ghost use Rattle.grid_config.specs.Compact.{compact_of, new_compact};
ghost use Rattle.grid_config.specs.declared.compact.CompactConfig.{CompactConfig as CompactSettings};
ghost use Rattle.tabled_options.specs.Multiline.Multiline.{multiline_look, multiline_of, over};
ghost use Rattle.tabled_options.specs.Multiline.Takers.{takers_for_options};
ghost use Rattle.tabled_options.specs.declared.multiline.config.CompactMultilineConfig.{CompactMultilineConfig as MultilineSettings};
ghost use Rattle.tabled_options.specs.Options.{margin_sides, padding_sides};
ghost use Rattle.tabled_options.specs.Styles.{style_borders};
ghost use Rattle.tabled_options.specs.declared.margin.Margin.{Margin as OneMargin};
ghost use Rattle.tabled_options.specs.declared.padding.Padding.{Padding as OnePadding};
ghost use Rattle.tabled_options.specs.declared.style.Style.{Style as OneStyle};
ghost use Rattle.tabled_size.specs.Dimension.Takers.{Takers as BothTakers};
ghost use Rattle.tabled_steps.specs.Looks.{with_borders, with_margin, with_padding};
ghost use Rattle.tabled_steps.specs.States.{Outcome, State, looking};

use crate::multiline::config::CompactMultilineConfig;
use crate::multiline::options::PoolSizes;
use crate::{Margin, Padding, Style};
use grid_config::CompactConfig;
use grid_records::EmptyRecords;
use tabled_size::PoolTableDimension;
use tabled_steps::{KeptSizes, TableOption};

/// A clone has all settings, and is never refused.
pub fn clones_are_the_same()
    ensures clone { (source clone : MultilineSettings) → ⟦<CompactMultilineConfig as Clone>⟧.is_clone source clone → multiline_of clone ≡ multiline_of source }
    ensures comes { (source : MultilineSettings) → ⟦<CompactMultilineConfig as Clone>⟧.is_infallible source }
{}

/// `==` of settings is equality of all of them, and `cmp` finds the same ones equal. Their order is a total one,
/// which `partial_cmp` answers too.
pub fn equal_settings_are_the_same()
    ensures equality { (a b : MultilineSettings) → (⟦<CompactMultilineConfig as PartialEq>⟧.eq a b ≡ true) ↔ (multiline_of a ≡ multiline_of b) }
    ensures order { (a b : MultilineSettings) → (⟦<CompactMultilineConfig as Ord>⟧.cmp a b ≡ Equal) ↔ (multiline_of a ≡ multiline_of b) }
    ensures partial { (a b : MultilineSettings) → ⟦<CompactMultilineConfig as PartialOrd>⟧.partial_cmp a b ≡ Some (⟦<CompactMultilineConfig as Ord>⟧.cmp a b) }
    ensures total { IsTotalOrder ⟦<CompactMultilineConfig as Ord>⟧.cmp }
{}

/// Settings are made of those of a compact table, and give them back.
pub fn settings_are_made_and_parted()
    ensures default { (config : MultilineSettings) → ⟦<CompactMultilineConfig as Default>⟧.is_default config → multiline_of config ≡ over new_compact }
    ensures of_compact { (c : CompactSettings) (config : MultilineSettings) → ⟦<CompactMultilineConfig as From<CompactConfig>>⟧.from_gives c config → multiline_of config ≡ over (compact_of c) }
    ensures compact { (config : MultilineSettings) (c : CompactSettings) → ⟦<CompactConfig as From<CompactMultilineConfig>>⟧.from_gives config c → compact_of c ≡ (multiline_of config).compact }
{}

/// Each option is the step that sets its own setting, and after it no size is kept.
pub fn options_are_their_steps<D: KeptSizes>()
    ensures margin { (margin : OneMargin) (state : State) (outcome : Outcome) → ⟦<Margin as TableOption<EmptyRecords, CompactMultilineConfig, D>>⟧.step margin state outcome →
        looking (with_margin (margin_sides margin)) state ≡ outcome }
    ensures style { (style : OneStyle) (state : State) (outcome : Outcome) → ⟦<Style as TableOption<EmptyRecords, CompactMultilineConfig, D>>⟧.step style state outcome →
        looking (with_borders (style_borders style)) state ≡ outcome }
    ensures padding { (padding : OnePadding) (state : State) (outcome : Outcome) → ⟦<Padding as TableOption<EmptyRecords, CompactMultilineConfig, D>>⟧.step padding state outcome →
        looking (with_padding EveryCell (padding_sides padding)) state ≡ outcome }
    ensures whole { (settings : MultilineSettings) (state : State) (outcome : Outcome) →
        ⟦<CompactMultilineConfig as TableOption<EmptyRecords, CompactMultilineConfig, D>>⟧.step settings state outcome →
        looking (λ _. multiline_look (multiline_of settings)) state ≡ outcome }
    ensures margin_hint { (margin : OneMargin) → ⟦<Margin as TableOption<EmptyRecords, CompactMultilineConfig, D>>⟧.hint margin ≡ Some EveryCell }
    ensures style_hint { (style : OneStyle) → ⟦<Style as TableOption<EmptyRecords, CompactMultilineConfig, D>>⟧.hint style ≡ Some EveryCell }
    ensures padding_hint { (padding : OnePadding) → ⟦<Padding as TableOption<EmptyRecords, CompactMultilineConfig, D>>⟧.hint padding ≡ Some EveryCell }
    ensures whole_hint { (settings : MultilineSettings) → ⟦<CompactMultilineConfig as TableOption<EmptyRecords, CompactMultilineConfig, D>>⟧.hint settings ≡ Some EveryCell }
{}

/// Who takes what is left over is replaced as a whole, and after that no size is kept. Options that see the same see
/// the same takers.
pub fn takers_are_replaced()
    ensures step { (takers : BothTakers) (state : State) (outcome : Outcome) → ⟦<PoolTableDimension as TableOption<EmptyRecords, CompactMultilineConfig, PoolSizes>>⟧.step takers state outcome →
        Ok (record state { sizes = takers_for_options takers }) ≡ outcome }
    ensures hint { (takers : BothTakers) → ⟦<PoolTableDimension as TableOption<EmptyRecords, CompactMultilineConfig, PoolSizes>>⟧.hint takers ≡ Some EveryCell }
    ensures seen { (a b : BothTakers) → takers_for_options a ≡ takers_for_options b → a ≡ b }
{}
