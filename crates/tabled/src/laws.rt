//! Laws of the definitions that the contracts cite.
ghost use Rattle.std.specs.Iterator.{YieldsFirst, item_count};
ghost use Rattle.std.specs.List.{join_with_byte, range_with_len};
ghost use Rattle.std.specs.Prelude.{◌≡◌, ◌↔◌, ◌<◌, ◌≤◌, ◌-◌, ◌++◌, ℕ, Bool, IfSome, String, [], ◌∷◌, List, None, Ok, Option, Some, chars, length, map, true, unwrap_or};
ghost use Rattle.std.specs.declared.cmp.Ordering.TheVariants.{Equal};
ghost use Rattle.std.proofs.Common.{Global as Heap};
ghost use Rattle.ansi_scan.specs.Pieces.{pieces};
ghost use Rattle.ansi_str.specs.StyledText.{strip, styled};
ghost use Rattle.grid_config.specs.Settings.{Settings};
ghost use Rattle.grid_config_values.specs.declared.entity.Entity.TheVariants.{Row as OneRow};
ghost use Rattle.grid_config_values.specs.declared.position.Position.{Position as CellPosition};
ghost use Rattle.grid_records_measure.specs.Cutting.{ShowsCut};
ghost use Rattle.grid_records_measure.specs.Measures.{measure};
ghost use Rattle.grid_records_measure.specs.TextLines.{line_feed};
ghost use Rattle.grid_records_traits.specs.Rows.{HasCell, text_at};
ghost use Rattle.papergrid_picture.specs.Shown.{IsWholeText};
ghost use Rattle.tabled.specs.RowBatches.{batches, begun_batches, multiples, values_left};
ghost use Rattle.tabled.specs.Narrowed.{GivesOnly, IsPlainlyPrinted, TakesAll, empty_total, line_columns};
ghost use Rattle.tabled.specs.Printing.{printed};
ghost use Rattle.tabled.specs.Tables.{new_state};
ghost use Rattle.tabled.specs.Totals.{drawn_height, drawn_line, drawn_width};
ghost use Rattle.tabled.specs.declared.layout.LayoutIterator.{LayoutIterator as BatchRows};
ghost use Rattle.tabled_list.specs.Amounts.{width_of};
ghost use Rattle.tabled_list.specs.Priorities.{shrinks_so};
ghost use Rattle.tabled_list.specs.Settings.{setting_step};
ghost use Rattle.tabled_list.specs.declared.amount.Amount.{Amount as AskedAmount};
ghost use Rattle.tabled_list.specs.declared.setting.Setting.TheVariants.{Truncate as CutTable, Wrap as WrapTable};
ghost use Rattle.tabled_size.specs.declared.dimension.suffix.SuffixLimit.{SuffixLimit as OneLimit};
ghost use Rattle.tabled_size_priority.specs.Choices.{IsShrunkByChoice};
ghost use Rattle.tabled_size_priority.specs.declared.choice.Choice.{Choice as PriorityName};
ghost use Rattle.tabled_size_wrap.specs.Bytes.{cut_at};
ghost use Rattle.tabled_size_wrap.specs.Showing.{ShowsWrapped};
ghost use Rattle.tabled_steps.specs.States.{Settles, State, column_count};
ghost use Rattle.tabled_width.specs.WrappedOrCut.{wrapping_each, cutting_wider};
ghost use Rattle.tabled_width.specs.Cutting.{SuffixedCut, cut_line, suffix_behind};
ghost use Rattle.tabled_width.specs.Options.{truncation, wrapping};
ghost use Rattle.tabled_width.specs.Rooms.{in_room, text_room};
ghost use Rattle.tabled_width.specs.Tables.{narrowed_state};
ghost use Rattle.tabled_width.specs.declared.truncate.Truncate.{Truncate as OneTruncate};
ghost use Rattle.tabled_width.specs.declared.wrap.Wrap.{Wrap as OneWrap};

use crate::building::BuildTable;
use crate::layout::LayoutIterator;
use grid_config::ColoredConfig;
use grid_records::{FromText, VecRecords};
use tabled_size::CompleteDimension;
use tabled_size_priority::{
    Peaker, PriorityLeft, PriorityMax, PriorityMin, PriorityNone, PriorityRight,
};
use tabled_steps::{Measurement, TableOption};
use tabled_text::Builder;
use tabled_width::{Truncate, Width, Wrap};

/// Batches of rows, worked by hand: five rows by two, four by two, none of size 0, and none of no rows.
pub fn batches_by_hand()
    ensures with_a_rest { multiples (batches 5 2) 2 ≡ 0 ∷ 2 ∷ 4 ∷ [] }
    ensures even { multiples (batches 4 2) 2 ≡ 0 ∷ 2 ∷ [] }
    ensures of_nothing { multiples (batches 5 0) 0 ≡ [] }
    ensures no_rows { multiples (batches 0 2) 2 ≡ [] }
{}

/// `==` of iterators over batches is equality of all their parts, and `cmp` finds the same ones equal. A clone
/// is the same iterator and is never refused. An iterator gives the numbers that are left, one after the other.
/// The next may be requested at any time, and no more are left than are still to come. An iterator that is made
/// by default is that over no rows.
pub fn iterators_are_compared_and_cloned_whole()
    ensures equality { (a b : BatchRows) → (⟦<LayoutIterator as PartialEq>⟧.eq a b ≡ true) ↔ (a ≡ b) }
    ensures order { (a b : BatchRows) → (⟦<LayoutIterator as Ord>⟧.cmp a b ≡ Equal) ↔ (a ≡ b) }
    ensures clone { (source clone : BatchRows) → ⟦<LayoutIterator as Clone>⟧.is_clone source clone → clone ≡ source }
    ensures comes { (source : BatchRows) → ⟦<LayoutIterator as Clone>⟧.is_infallible source }
    ensures at_first { (begun : BatchRows) → ⟦<LayoutIterator as Default>⟧.is_default begun → begun ≡ begun_batches 0 0 }
    ensures asked { (begun : BatchRows) → ⟦<LayoutIterator as Iterator>⟧.can_next begun }
    ensures left { (begun : BatchRows) → ⟦<LayoutIterator as Iterator>⟧.remaining begun ≡ item_count values_left begun }
    ensures gives { (begun after : BatchRows) (given : Option ℕ) → ⟦<LayoutIterator as Iterator>⟧.next_gives begun given after → YieldsFirst values_left begun given after }
{}

/// The rows of a builder are those that a table is built of.
pub fn builders_have_their_rows()
    ensures { (rows : List (List (List ℕ))) → ⟦<Builder as BuildTable>⟧.rows rows ≡ rows }
{}

/// The text of a table is its lines, as many as its total height says, with a line feed between each two. Each line
/// takes the columns that its total width says, whatever is trimmed. For this the table must have rows and columns,
/// and fit its sizes. Its cells must show plain characters and line feeds, in no colours but such as close. Each
/// glyph, fill and character for justification must cost one column.
pub fn totals_count_lines_and_columns()
    ensures lines { (s : State) → printed s ≡ join_with_byte line_feed (map (drawn_line s) (range_with_len 0 (drawn_height s))) }
    ensures columns { (settings : Settings) (s : State) (y : ℕ) → IsPlainlyPrinted settings s → line_columns s y ≡ drawn_width s }
{}

/// What narrower columns make of a text: it is wrapped or cut at the width given to it, and stays without one. A
/// wrapped text shows the lines of the text, each wrapped by the runs of its characters, whatever their styles.
/// A cut one shows the longest prefix of its characters that fits. Each character has the style that it has in the
/// text, and U+FFFD the plain style. A suffix comes after such a prefix for the columns that the suffix leaves.
pub fn narrowed_texts_show_their_lines()
    ensures texts { (change : ℕ → List ℕ → Option (List ℕ)) (least widths : List ℕ) (s : State) (place : CellPosition) → HasCell s.rows place → place.col < column_count s.rows →
        let text = text_at s.rows place in
        text_at (narrowed_state change least widths s).rows place ≡ unwrap_or (in_room change text (text_room s.look least widths place)) text }
    ensures wrapped { (width : ℕ) (keep_words : Bool) (text : List ℕ) → 0 < width → IsWholeText text →
        IfSome (wrapping_each keep_words width text) (λ bytes. ShowsWrapped width keep_words (styled (pieces text)) (styled (pieces bytes))) }
    ensures cut { (width : ℕ) (text : List ℕ) → IsWholeText text →
        IfSome (cutting_wider width text) (λ bytes. ShowsCut width (pieces text) (pieces bytes)) }
    ensures before_suffix { (cutting : SuffixedCut) (room : ℕ) (text : List ℕ) → IsWholeText text → 0 < length cutting.suffix →
        let taken = measure (chars (strip (pieces cutting.suffix))) in taken < room →
        (cut_line cutting room text ≡ cut_at (room - taken) text ++ suffix_behind cutting (room - taken) text) × ShowsCut (room - taken) (pieces text) (pieces (cut_at (room - taken) text)) }
{}

/// A line of a table that `Wrap` or `Truncate` has changed takes at most the columns that were requested. For this
/// its columns in their empty widths, with boundaries and margins, must take no more. The priority must take all
/// that it is to take, and the lines of the new table must be of plain characters.
pub fn narrowed_tables_are_no_wider_than_asked<
    'a,
    T: FromText,
    W: Measurement<Width> + Drop,
    P: Peaker + Drop,
>()
    ensures wrapped { (option : OneWrap W P) (settings : Settings) (s new : State) (asked y : ℕ) →
        Settles (Some (OneRow 0)) (⟦<Wrap<W, P> as TableOption<VecRecords<T>, ColoredConfig, CompleteDimension>>⟧.step option) s (Ok new) →
        TakesAll P.shrinks → GivesOnly (W.measures (wrapping option).width) s asked → IsPlainlyPrinted settings new →
        empty_total s ≤ asked → line_columns new y ≤ asked }
    ensures cut { (option : OneTruncate W P) (settings : Settings) (s new : State) (asked y : ℕ) →
        Settles None (⟦<Truncate<'a, W, P> as TableOption<VecRecords<T>, ColoredConfig, CompleteDimension>>⟧.step option) s (Ok new) →
        TakesAll P.shrinks → GivesOnly (W.measures (truncation option).width) s asked → IsPlainlyPrinted settings new →
        empty_total s ≤ asked → line_columns new y ≤ asked }
{}

/// The same of the settings of these names in a list, whose priorities take all that they are to take.
pub fn listed_settings_keep_to_the_asked_width()
    ensures wrapped { (width : AskedAmount) (keep_words : Bool) (priority : PriorityName) (settings : Settings) (s new : State) (asked y : ℕ) →
        setting_step (WrapTable width keep_words priority) s (Ok new) → width_of width (column_count s.rows) s.rows s.look ≡ Ok asked →
        IsPlainlyPrinted settings new → empty_total s ≤ asked → line_columns new y ≤ asked }
    ensures cut { (width : AskedAmount) (suffix : String Heap) (limit : OneLimit) (multiline try_color : Bool) (priority : PriorityName) (settings : Settings) (s new : State) (asked y : ℕ) →
        setting_step (CutTable width suffix limit multiline try_color priority) s (Ok new) → width_of width (column_count s.rows) s.rows s.look ≡ Ok asked →
        IsPlainlyPrinted settings new → empty_total s ≤ asked → line_columns new y ≤ asked }
{}

/// The five priorities take all that they are to take, also by their names; what leaves widths as they are
/// doesn't.
pub fn priorities_take_all()
    ensures turns { TakesAll ⟦<PriorityNone as Peaker>⟧.shrinks }
    ensures left { TakesAll ⟦<PriorityLeft as Peaker>⟧.shrinks }
    ensures right { TakesAll ⟦<PriorityRight as Peaker>⟧.shrinks }
    ensures widest { TakesAll ⟦<PriorityMax as Peaker>⟧.shrinks }
    ensures narrowest { TakesAll ⟦<PriorityMin as Peaker>⟧.shrinks }
    ensures named { (name : PriorityName) → TakesAll (shrinks_so (IsShrunkByChoice name)) }
    ensures idle { ¬ (TakesAll (λ (_ : Bool) _ _ widths _ left. left ≡ widths)) }
{}

/// What two columns take at least, by hand: a padding of 1 at each side of their cells, and three
/// boundaries.
pub fn empty_total_by_hand()
    ensures { empty_total (new_state (([] ∷ [] ∷ []) ∷ [])) ≡ 7 }
{}
