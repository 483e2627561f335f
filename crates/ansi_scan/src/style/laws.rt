//! Laws of the definitions that the other contracts cite.

ghost use Rattle.std.specs.Prelude.{◌≡◌, ◌≢◌, ◌==◌, ◌<◌, ◌≤◌, ◌↔◌, ℕ, All, IsSome, IsTrue, codes, false, true, List, Option, None, Some, [], ◌∷◌, ◌++◌, fold, length};
ghost use Rattle.std.specs.Fmt.{decimal};
ghost use Rattle.std.specs.List.{AllByRecursion, concat, filter, list_all, list_any, range_with_len};
ghost use Rattle.std.specs.declared.cmp.Ordering.TheVariants.{Equal};
ghost use Rattle.ansi_scan.specs.declared.style.color.AnsiColor.{AnsiColor as OneAnsiColor};
ghost use Rattle.ansi_scan.specs.declared.style.color.Color.{Color as OneColor};
ghost use Rattle.ansi_scan.specs.declared.style.color.Color.TheVariants.{BrightPurple, Purple};
ghost use Rattle.ansi_scan.specs.declared.style.next.Layer.{Layer};
ghost use Rattle.ansi_scan.specs.Styles.Attributes.{Attributes, IsRendition, after_code, plain_attributes};
ghost use Rattle.ansi_scan.specs.Styles.Color.{as_color};
ghost use Rattle.ansi_scan.specs.Styles.Rendition.{after_parameters, applied, is_numeric, number, sgr_parameters};
ghost use Rattle.ansi_scan.specs.Styles.ColorForms.{after_color, color_at_front, is_color_code};
ghost use Rattle.ansi_scan.specs.Styles.Equality.{compared, equal};
ghost use Rattle.ansi_scan.specs.Styles.Sequences.{clearing_codes, code_rows, is_set_after, layer_code, start_sequences, start_bytes, end_sequences, end_bytes};

use crate::style::RESET_ALL;
use crate::style::color::{AnsiColor, Color};
use crate::style::sequences::{AnsiSequenceEnd, AnsiSequenceStart};
use crate::style::style::Style;
use std::fmt::Display;

/// A start reads as its style: from plain it gives it, and from the style itself it leaves it.
pub fn start_reads_as_its_style()
    ensures from_plain { (a : Attributes) → IsRendition a → fold applied plain_attributes (start_sequences a) ≡ a }
    ensures from_itself { (a : Attributes) → IsRendition a → fold applied a (start_sequences a) ≡ a }
{}

/// The table of codes: each attribute is set and cleared by the codes of its row, and every other code
/// leaves it. The codes that clear are those of the rows.
pub fn codes_follow_the_table()
    ensures codes { (a : Attributes) (code : ℕ) → AllByRecursion (λ row. row.is_set (after_code a code) ≡ is_set_after row code (row.is_set a)) code_rows }
    ensures clearing { clearing_codes ≡ filter (λ code. list_any (λ row. row.clears == code) code_rows) (range_with_len 0 256) }
{}

/// An end clears its style.
pub fn end_clears_its_style()
    ensures { (a : Attributes) → fold applied a (end_sequences a) ≡ plain_attributes }
{}

/// A style in which nothing is set writes nothing.
pub fn plain_writes_nothing()
    ensures start { start_bytes plain_attributes ≡ [] }
    ensures end { end_bytes plain_attributes ≡ [] }
{}

/// `RESET_ALL` is `ESC [ 0 m`, and clears every style.
pub fn reset_clears_all()
    ensures spelled { RESET_ALL.now ≡ codes "\u{1b}[0m" }
    ensures clears { (a : Attributes) → applied a RESET_ALL.now ≡ plain_attributes }
{}

/// The bytes of a start and of an end are those of such sequences alone.
pub fn bytes_are_sequences()
    ensures start { (a : Attributes) → start_bytes a ≡ concat (start_sequences a) }
    ensures start_read { (a : Attributes) → IsRendition a → All (λ bytes. IsSome (sgr_parameters bytes)) (start_sequences a) }
    ensures end { (a : Attributes) → end_bytes a ≡ concat (end_sequences a) }
    ensures end_read { (a : Attributes) → All (λ bytes. IsSome (sgr_parameters bytes)) (end_sequences a) }
{}

/// A start takes at most 163 bytes, and an end at most 80.
pub fn bytes_are_few()
    ensures start { (a : Attributes) → IsRendition a → length (start_bytes a) ≤ 163 }
    ensures end { (a : Attributes) → length (end_bytes a) ≤ 80 }
{}

/// What sequences set from plain on is what a style can be.
pub fn sequences_give_renditions()
    ensures plain { IsRendition plain_attributes }
    ensures one { (a : Attributes) (bytes : List ℕ) → IsRendition a → IsRendition (applied a bytes) }
    ensures all { (sequences : List (List ℕ)) → IsRendition (fold applied plain_attributes sequences) }
{}

/// A sequence with parameters is `ESC [`, these parameters, and `m`; other bytes change nothing.
pub fn sequence_form()
    ensures form { (bytes parameters : List ℕ) → (sgr_parameters bytes ≡ Some parameters) ↔ ((bytes ≡ 27 ∷ 91 ∷ (parameters ++ 109 ∷ [])) × IsTrue (list_all is_numeric parameters)) }
    ensures other { (a : Attributes) (bytes : List ℕ) → sgr_parameters bytes ≡ None → applied a bytes ≡ a }
{}

/// An empty parameter is 0, leading zeros do not count, and the digits of a number up to 255 are
/// that number.
pub fn parameters_are_numbers()
    ensures empty { number [] ≡ Some 0 }
    ensures leading_zero { (digits : List ℕ) → number (48 ∷ digits) ≡ number digits }
    ensures digits { (n : ℕ) → n < 256 → number (decimal n) ≡ Some n }
{}

/// Parameters have their effects in order. One that is no number has none; a code that a colour
/// follows sets it, and ends the reading where none follows.
pub fn parameters_in_order()
    ensures none_left { (a : Attributes) → after_parameters a [] ≡ a }
    ensures no_number { (a : Attributes) (others : List (Option ℕ)) → after_parameters a (None ∷ others) ≡ after_parameters a others }
    ensures code { (a : Attributes) (code : ℕ) (others : List (Option ℕ)) → is_color_code code ≡ false → after_parameters a (Some code ∷ others) ≡ after_parameters (after_code a code) others }
    ensures color { (a : Attributes) (layer : Layer) (others : List (Option ℕ)) → after_parameters a (Some (layer_code layer) ∷ others) ≡ after_color a layer (color_at_front others) }
{}

/// `==` of styles is equality of all attributes, and `cmp` finds the same ones equal.
pub fn equal_styles_set_the_same()
    ensures equality { (a b : Attributes) → IsTrue (equal a b) ↔ (a ≡ b) }
    ensures order { (a b : Attributes) → (compared a b ≡ Equal) ↔ (a ≡ b) }
{}

/// No colour is read as purple.
pub fn no_color_is_purple()
    ensures dark { (color : OneAnsiColor) → as_color color ≢ Purple }
    ensures bright { (color : OneAnsiColor) → as_color color ≢ BrightPurple }
{}

/// `==` of colours is equality, all of their parts compared, and `cmp` finds the same ones equal.
pub fn equal_colors_are_the_same()
    ensures colors { (a b : OneColor) → (⟦<Color as PartialEq>⟧.eq a b ≡ true) ↔ (a ≡ b) }
    ensures ansi_colors { (a b : OneAnsiColor) → (⟦<AnsiColor as PartialEq>⟧.eq a b ≡ true) ↔ (a ≡ b) }
    ensures colors_order { (a b : OneColor) → (⟦<Color as Ord>⟧.cmp a b ≡ Equal) ↔ (a ≡ b) }
    ensures ansi_colors_order { (a b : OneAnsiColor) → (⟦<AnsiColor as Ord>⟧.cmp a b ≡ Equal) ↔ (a ≡ b) }
{}

/// A colour that a sequence sets becomes the one of its name.
pub fn colors_have_their_names()
    ensures { (color : OneAnsiColor) (name : OneColor) → ⟦<Color as From<AnsiColor>>⟧.from_gives color name → name ≡ as_color color }
{}

/// A start and an end of a style are printed as their bytes.
pub fn starts_and_ends_are_printed_whole()
    ensures starts { (style : Attributes) → ⟦<AnsiSequenceStart as Display>⟧.output style ≡ Some (start_bytes style) }
    ensures ends { (style : Attributes) → ⟦<AnsiSequenceEnd as Display>⟧.output style ≡ Some (end_bytes style) }
{}

/// A clone of a colour is that colour. A clone of a style, of a start or of an end sets, or clears, the same.
/// No clone is refused.
pub fn clones_set_the_same()
    ensures colors { (source clone : OneColor) → ⟦<Color as Clone>⟧.is_clone source clone → clone ≡ source }
    ensures ansi_colors { (source clone : OneAnsiColor) → ⟦<AnsiColor as Clone>⟧.is_clone source clone → clone ≡ source }
    ensures styles { (source clone : Attributes) → ⟦<Style as Clone>⟧.is_clone source clone → clone ≡ source }
    ensures starts { (source clone : Attributes) → ⟦<AnsiSequenceStart as Clone>⟧.is_clone source clone → clone ≡ source }
    ensures ends { (source clone : Attributes) → ⟦<AnsiSequenceEnd as Clone>⟧.is_clone source clone → clone ≡ source }
    ensures colors_come { (source : OneColor) → ⟦<Color as Clone>⟧.is_infallible source }
    ensures ansi_colors_come { (source : OneAnsiColor) → ⟦<AnsiColor as Clone>⟧.is_infallible source }
    ensures styles_come { (source : Attributes) → ⟦<Style as Clone>⟧.is_infallible source }
    ensures starts_come { (source : Attributes) → ⟦<AnsiSequenceStart as Clone>⟧.is_infallible source }
    ensures ends_come { (source : Attributes) → ⟦<AnsiSequenceEnd as Clone>⟧.is_infallible source }
{}
