//! Laws: which step each option is, and which sizes it clears.
ghost use Rattle.std.specs.Prelude.{◌≡◌, ◌↔◌, Err, Some, true};
ghost use Rattle.std.specs.declared.cmp.Ordering.TheVariants.{Equal};
ghost use Rattle.grid_config_values.specs.declared.entity.Entity.{Entity as Cells};
ghost use Rattle.grid_config_values.specs.declared.entity.Entity.TheVariants.{Global as EveryCell};
ghost use Rattle.grid_config_values.specs.declared.sides.Indent.{Indent as OneIndent};
ghost use Rattle.grid_config_values.specs.declared.sides.Sides.{Sides as FourSides};
ghost use Rattle.tabled_options.specs.Formatting.{with_strategy, with_trim};
ghost use Rattle.tabled_options.specs.Options.{margin_sides, padding_sides, with_alignment};
ghost use Rattle.tabled_options.specs.Spanning.{span_size, spanning};
ghost use Rattle.tabled_options.specs.Styles.{style_borders};
ghost use Rattle.grid_config_values.specs.declared.fault.Fault.TheVariants.{Spans as BadSpan};
ghost use Rattle.tabled_options.specs.declared.span.Span.{Span as OneSpan};
ghost use Rattle.tabled_options.specs.declared.alignment.Alignment.{Alignment as OneAlignment};
ghost use Rattle.tabled_options.specs.declared.formatting.AlignmentStrategy.{AlignmentStrategy as OneStrategy};
ghost use Rattle.tabled_options.specs.declared.formatting.TrimStrategy.{TrimStrategy as OneTrim};
ghost use Rattle.tabled_options.specs.declared.margin.Margin.{Margin as OneMargin};
ghost use Rattle.tabled_options.specs.declared.padding.Padding.{Padding as OnePadding};
ghost use Rattle.tabled_options.specs.declared.padding.PaddingExpand.{PaddingExpand as OneExpand};
ghost use Rattle.tabled_options.specs.declared.style.Style.{Style as OneStyle};
ghost use Rattle.tabled_steps.specs.Looks.{with_borders, with_margin, with_padding};
ghost use Rattle.tabled_steps.specs.States.{Outcome, State, looking};

use crate::alignment::Alignment;
use crate::formatting::{AlignmentStrategy, TrimStrategy};
use crate::margin::Margin;
use crate::padding::{Padding, PaddingExpand};
use crate::span::Span;
use crate::style::Style;
use grid_config::{ColoredConfig, CompactConfig, Indent, Sides};
use grid_records::{FromText, VecRecords};
use grid_records_traits::records::RecordTexts;
use tabled_steps::{CellOption, KeptSizes, TableOption};

/// Each option of a table is the step that sets its own setting, of the whole table or of all cells.
pub fn options_are_their_steps<R: RecordTexts, D: KeptSizes>()
    ensures margin { (margin : OneMargin) (state : State) (outcome : Outcome) → ⟦<Margin as TableOption<R, ColoredConfig, D>>⟧.step margin state outcome →
        looking (with_margin (margin_sides margin)) state ≡ outcome }
    ensures style { (style : OneStyle) (state : State) (outcome : Outcome) → ⟦<Style as TableOption<R, ColoredConfig, D>>⟧.step style state outcome →
        looking (with_borders (style_borders style)) state ≡ outcome }
    ensures padding { (padding : OnePadding) (state : State) (outcome : Outcome) → ⟦<Padding as TableOption<R, ColoredConfig, D>>⟧.step padding state outcome →
        looking (with_padding EveryCell (padding_sides padding)) state ≡ outcome }
    ensures alignment { (alignment : OneAlignment) (state : State) (outcome : Outcome) → ⟦<Alignment as TableOption<R, ColoredConfig, D>>⟧.step alignment state outcome →
        looking (with_alignment alignment EveryCell) state ≡ outcome }
    ensures strategy { (strategy : OneStrategy) (state : State) (outcome : Outcome) → ⟦<AlignmentStrategy as TableOption<R, ColoredConfig, D>>⟧.step strategy state outcome →
        looking (with_strategy strategy EveryCell) state ≡ outcome }
    ensures trim { (trim : OneTrim) (state : State) (outcome : Outcome) → ⟦<TrimStrategy as TableOption<R, ColoredConfig, D>>⟧.step trim state outcome →
        looking (with_trim trim EveryCell) state ≡ outcome }
{}

/// Each option of cells is the step that sets its own setting of the cells of an entity.
pub fn cell_options_are_their_steps<R: RecordTexts>()
    ensures padding { (padding : OnePadding) (at : Cells) (state : State) (outcome : Outcome) → ⟦<Padding as CellOption<R, ColoredConfig>>⟧.step padding at state outcome →
        looking (with_padding at (padding_sides padding)) state ≡ outcome }
    ensures alignment { (alignment : OneAlignment) (at : Cells) (state : State) (outcome : Outcome) → ⟦<Alignment as CellOption<R, ColoredConfig>>⟧.step alignment at state outcome →
        looking (with_alignment alignment at) state ≡ outcome }
    ensures strategy { (strategy : OneStrategy) (at : Cells) (state : State) (outcome : Outcome) → ⟦<AlignmentStrategy as CellOption<R, ColoredConfig>>⟧.step strategy at state outcome →
        looking (with_strategy strategy at) state ≡ outcome }
    ensures trim { (trim : OneTrim) (at : Cells) (state : State) (outcome : Outcome) → ⟦<TrimStrategy as CellOption<R, ColoredConfig>>⟧.step trim at state outcome →
        looking (with_trim trim at) state ≡ outcome }
{}

/// A span of cells is the step that sets how many columns, or rows, the cells of the table take that the
/// entity covers. It is refused for 0, and clears all sizes.
pub fn spans_are_their_steps<T: FromText>()
    ensures step { (span : OneSpan) (at : Cells) (state : State) (outcome : Outcome) → ⟦<Span as CellOption<VecRecords<T>, ColoredConfig>>⟧.step span at state outcome →
        spanning span at state ≡ outcome }
    ensures zero { (span : OneSpan) (at : Cells) (state : State) → span_size span ≡ 0 → spanning span at state ≡ Err BadSpan }
    ensures hint { (span : OneSpan) → ⟦<Span as CellOption<VecRecords<T>, ColoredConfig>>⟧.hint span ≡ Some EveryCell }
{}

/// After each of these options no size is kept.
pub fn options_clear_all_sizes<R: RecordTexts, D: KeptSizes>()
    ensures margin { (margin : OneMargin) → ⟦<Margin as TableOption<R, ColoredConfig, D>>⟧.hint margin ≡ Some EveryCell }
    ensures style { (style : OneStyle) → ⟦<Style as TableOption<R, ColoredConfig, D>>⟧.hint style ≡ Some EveryCell }
    ensures padding { (padding : OnePadding) → ⟦<Padding as TableOption<R, ColoredConfig, D>>⟧.hint padding ≡ Some EveryCell }
    ensures alignment { (alignment : OneAlignment) → ⟦<Alignment as TableOption<R, ColoredConfig, D>>⟧.hint alignment ≡ Some EveryCell }
    ensures cell_padding { (padding : OnePadding) → ⟦<Padding as CellOption<R, ColoredConfig>>⟧.hint padding ≡ Some EveryCell }
    ensures cell_alignment { (alignment : OneAlignment) → ⟦<Alignment as CellOption<R, ColoredConfig>>⟧.hint alignment ≡ Some EveryCell }
    ensures strategy { (strategy : OneStrategy) → ⟦<AlignmentStrategy as TableOption<R, ColoredConfig, D>>⟧.hint strategy ≡ Some EveryCell }
    ensures trim { (trim : OneTrim) → ⟦<TrimStrategy as TableOption<R, ColoredConfig, D>>⟧.hint trim ≡ Some EveryCell }
    ensures cell_strategy { (strategy : OneStrategy) → ⟦<AlignmentStrategy as CellOption<R, ColoredConfig>>⟧.hint strategy ≡ Some EveryCell }
    ensures cell_trim { (trim : OneTrim) → ⟦<TrimStrategy as CellOption<R, ColoredConfig>>⟧.hint trim ≡ Some EveryCell }
{}

/// Where all cells are alike, each option of a table is the same step, and after it no size is kept.
pub fn options_of_like_cells_are_their_steps<R: RecordTexts, D: KeptSizes>()
    ensures margin { (margin : OneMargin) (state : State) (outcome : Outcome) → ⟦<Margin as TableOption<R, CompactConfig, D>>⟧.step margin state outcome →
        looking (with_margin (margin_sides margin)) state ≡ outcome }
    ensures style { (style : OneStyle) (state : State) (outcome : Outcome) → ⟦<Style as TableOption<R, CompactConfig, D>>⟧.step style state outcome →
        looking (with_borders (style_borders style)) state ≡ outcome }
    ensures padding { (padding : OnePadding) (state : State) (outcome : Outcome) → ⟦<Padding as TableOption<R, CompactConfig, D>>⟧.step padding state outcome →
        looking (with_padding EveryCell (padding_sides padding)) state ≡ outcome }
    ensures margin_hint { (margin : OneMargin) → ⟦<Margin as TableOption<R, CompactConfig, D>>⟧.hint margin ≡ Some EveryCell }
    ensures style_hint { (style : OneStyle) → ⟦<Style as TableOption<R, CompactConfig, D>>⟧.hint style ≡ Some EveryCell }
    ensures padding_hint { (padding : OnePadding) → ⟦<Padding as TableOption<R, CompactConfig, D>>⟧.hint padding ≡ Some EveryCell }
{}

/// A margin and a padding are their four indents.
pub fn indents_are_made_and_parted()
    ensures margin { (margin : OneMargin) (sides : FourSides OneIndent) → ⟦<Sides<Indent> as From<Margin>>⟧.from_gives margin sides → sides ≡ margin_sides margin }
    ensures of_margin { (margin : OneMargin) (sides : FourSides OneIndent) → ⟦<Margin as From<Sides<Indent>>>⟧.from_gives sides margin → margin_sides margin ≡ sides }
    ensures padding { (padding : OnePadding) (sides : FourSides OneIndent) → ⟦<Sides<Indent> as From<Padding>>⟧.from_gives padding sides → sides ≡ padding_sides padding }
    ensures of_padding { (padding : OnePadding) (sides : FourSides OneIndent) → ⟦<Padding as From<Sides<Indent>>>⟧.from_gives sides padding → padding_sides padding ≡ sides }
{}

/// A clone of a margin, a padding, an alignment, a span, a style or a `PaddingExpand` is the same.
pub fn clones_are_the_same()
    ensures margin { (source clone : OneMargin) → ⟦<Margin as Clone>⟧.is_clone source clone → clone ≡ source }
    ensures padding { (source clone : OnePadding) → ⟦<Padding as Clone>⟧.is_clone source clone → clone ≡ source }
    ensures alignment { (source clone : OneAlignment) → ⟦<Alignment as Clone>⟧.is_clone source clone → clone ≡ source }
    ensures span { (source clone : OneSpan) → ⟦<Span as Clone>⟧.is_clone source clone → clone ≡ source }
    ensures style { (source clone : OneStyle) → ⟦<Style as Clone>⟧.is_clone source clone → clone ≡ source }
    ensures expand { (source clone : OneExpand) → ⟦<PaddingExpand as Clone>⟧.is_clone source clone → clone ≡ source }
{}

/// A clone of any of these six is never refused.
pub fn clones_are_never_refused()
    ensures margin { (source : OneMargin) → ⟦<Margin as Clone>⟧.is_infallible source }
    ensures padding { (source : OnePadding) → ⟦<Padding as Clone>⟧.is_infallible source }
    ensures alignment { (source : OneAlignment) → ⟦<Alignment as Clone>⟧.is_infallible source }
    ensures span { (source : OneSpan) → ⟦<Span as Clone>⟧.is_infallible source }
    ensures style { (source : OneStyle) → ⟦<Style as Clone>⟧.is_infallible source }
    ensures expand { (source : OneExpand) → ⟦<PaddingExpand as Clone>⟧.is_infallible source }
{}

/// `==` of paddings is equality of their four indents, and `cmp` finds the same ones equal.
pub fn equal_paddings_are_the_same()
    ensures equality { (a b : OnePadding) → (⟦<Padding as PartialEq>⟧.eq a b ≡ true) ↔ (a ≡ b) }
    ensures order { (a b : OnePadding) → (⟦<Padding as Ord>⟧.cmp a b ≡ Equal) ↔ (a ≡ b) }
{}
