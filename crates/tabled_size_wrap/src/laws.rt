//! Laws of the definitions that the other contracts cite.

ghost use Rattle.std.specs.Prelude.{All, ◌≡◌, ◌↔◌, ◌≤◌, ◌<◌, ◌||◌, ℕ, Bool, List, [], chars, codes, encode_utf8_all, false, flat_map, length, true};
ghost use Rattle.std.specs.List.{join_with_byte, list_all};
ghost use Rattle.std.specs.Str.{IsUtf8};
ghost use Rattle.ansi_scan.specs.Sequences.{Piece, ArePiecesOf, AreWholePiecesOf};
ghost use Rattle.ansi_str.specs.StyledText.{strip, styled};
ghost use Rattle.ansi_str.specs.Lines.{IsClosedLine};
ghost use Rattle.grid_records_measure.specs.Measures.{own_width};
ghost use Rattle.grid_records_measure.specs.PlainCharacters.{is_plain_character};
ghost use Rattle.grid_records_measure.specs.TextLines.{AreLinesOf, is_line_feed, line_feed, shown_lines, widest};
ghost use Rattle.tabled_size_wrap.specs.FittingRuns.{AreRunsOf, AreFittingRuns};
ghost use Rattle.tabled_size_wrap.specs.Bytes.{wrapped_text};
ghost use Rattle.tabled_size_wrap.specs.Showing.{AddsLineFeeds, ShowsWrapped};
ghost use Rattle.tabled_size_wrap.specs.Runs.{runs_of};
ghost use Rattle.tabled_size_wrap.specs.Units.{LineUnit, line_units};
ghost use Rattle.tabled_size_wrap.specs.Worked.{CutsTo, WrapsTo};
ghost use Rattle.tabled_size_wrap.specs.Wrapping.{IsWrapped};
ghost use Rattle.tabled_size_wrap.specs.declared.line_units.Unit.{Unit as OneUnit};

use crate::line_units::Unit;
pub use grid_records_measure::laws::the_cut_text;

/// Wrapped at a width of at least 1, units have one list of runs, that of the function `runs_of`. There is
/// such a list, and no other.
pub fn one_list_of_runs()
    ensures there { (width : ℕ) (units : List LineUnit) → 0 < width → AreRunsOf width units (runs_of width units) }
    ensures one { (width : ℕ) (units : List LineUnit) (runs others : List (List LineUnit)) →
        AreRunsOf width units runs → AreRunsOf width units others → runs ≡ others }
{}

/// A text that is wrapped is one text: there is such a text, and no other.
pub fn one_wrapped_text()
    ensures there { (width : ℕ) (keep_words : Bool) (pieces : List Piece) → (bytes : List ℕ) × IsWrapped width keep_words pieces bytes }
    ensures one { (width : ℕ) (keep_words : Bool) (pieces : List Piece) (bytes others : List ℕ) →
        IsWrapped width keep_words pieces bytes → IsWrapped width keep_words pieces others → bytes ≡ others }
{}

/// The function `wrapped_text` gives the text that is wrapped, and no other text is.
pub fn the_wrapped_text()
    ensures meets { (width : ℕ) (keep_words : Bool) (text : List ℕ) (pieces : List Piece) → ArePiecesOf text pieces →
        IsWrapped width keep_words pieces (wrapped_text width keep_words text) }
    ensures one { (width : ℕ) (keep_words : Bool) (text bytes : List ℕ) (pieces : List Piece) → ArePiecesOf text pieces →
        IsWrapped width keep_words pieces bytes → bytes ≡ wrapped_text width keep_words text }
{}

/// Wrapped at a width of at least 1, units have runs that are fitting runs of them. No fitting runs of the
/// same units are fewer.
pub fn fewest_runs()
    ensures joined { (width : ℕ) (units : List LineUnit) (runs : List (List LineUnit)) → 0 < width →
        AreRunsOf width units runs → AreFittingRuns width units runs }
    ensures fewest { (width : ℕ) (units : List LineUnit) (runs others : List (List LineUnit)) → 0 < width →
        AreRunsOf width units runs → AreFittingRuns width units others → 0 < length others → length runs ≤ length others }
{}

/// The units of a line make it up: their texts joined are the line.
pub fn units_make_up_the_line()
    ensures { (width : ℕ) (keep_words : Bool) (line : List ℕ) →
        flat_map (λ (unit : LineUnit). unit.text) (line_units width keep_words line) ≡ line }
{}

/// A whole text that is wrapped at a width of at least 1 shows the lines of the text, each wrapped by
/// itself. They show the characters of its runs in the styles that they have in the text, and U+FFFD in the
/// plain style. Its lines are closed as they are: no style is open at the end of one.
pub fn wrapped_lines_show_their_runs()
    ensures shown { (width : ℕ) (keep_words : Bool) (text bytes : List ℕ) (pieces of_wrapped : List Piece) → 0 < width → IsUtf8 text →
        AreWholePiecesOf text pieces → IsWrapped width keep_words pieces bytes → ArePiecesOf bytes of_wrapped →
        ShowsWrapped width keep_words (styled pieces) (styled of_wrapped) }
    ensures closed { (width : ℕ) (keep_words : Bool) (text bytes : List ℕ) (pieces of_wrapped : List Piece) (lines : List (List ℕ)) → 0 < width → IsUtf8 text →
        AreWholePiecesOf text pieces → IsWrapped width keep_words pieces bytes → ArePiecesOf bytes of_wrapped →
        AreLinesOf of_wrapped lines → All IsClosedLine lines × (join_with_byte line_feed lines ≡ bytes) }
{}

/// A whole text may be wrapped at a width of at least 1, which no character exceeds. It is then the text with
/// line feeds put into its lines. Without them it shows the same characters, all but its own line feeds in the
/// same styles.
pub fn wrapping_adds_line_feeds()
    ensures { (width : ℕ) (keep_words : Bool) (text bytes : List ℕ) (pieces of_wrapped : List Piece) → 0 < width → IsUtf8 text →
        AreWholePiecesOf text pieces → IsWrapped width keep_words pieces bytes → ArePiecesOf bytes of_wrapped →
        All (λ c. own_width c ≤ width) (chars (strip pieces)) → AddsLineFeeds (styled pieces) (styled of_wrapped) }
{}

/// A whole text of plain characters and line feeds may be wrapped at a width of at least 1, which no
/// character exceeds. It then has no line that measures more than the width.
pub fn wrapped_lines_fit()
    ensures { (width : ℕ) (keep_words : Bool) (text bytes : List ℕ) (pieces of_wrapped : List Piece) → 0 < width → IsUtf8 text →
        AreWholePiecesOf text pieces → IsWrapped width keep_words pieces bytes → ArePiecesOf bytes of_wrapped →
        All (λ c. own_width c ≤ width) (chars (strip pieces)) →
        list_all (λ c. is_plain_character c || is_line_feed c) (chars (strip pieces)) ≡ true → widest (shown_lines of_wrapped) ≤ width }
{}

/// Wraps worked out by hand. Words are kept. A character that costs more than the width takes the columns
/// that are left, or those of a new line, be they one or two, with U+FFFD in each. Each line opens and ends
/// its own styles. At width 0 nothing is left.
pub fn worked_wraps()
    ensures words { WrapsTo 4 true (codes "111 234 1") (codes "111 \n234 \n1") }
    ensures marks { WrapsTo 1 false (encode_utf8_all (codes "😳12😳3"))
        (encode_utf8_all (codes "�\n1\n2\n�\n3")) }
    ensures marks_in_each { WrapsTo 2 false (encode_utf8_all (codes "៘a៘b")) (encode_utf8_all (codes "��\na�\nb")) }
    ensures mark_between { WrapsTo 1 false (encode_utf8_all (codes "a😳b")) (encode_utf8_all (codes "a\n�\nb")) }
    ensures styles { WrapsTo 7 true (codes "\u{1b}[37mHello World\u{1b}[0m")
        (codes "\u{1b}[37mHello \u{1b}[39m\n\u{1b}[37mWorld\u{1b}[0m") }
    ensures nothing { (keep_words : Bool) (text : List ℕ) → WrapsTo 0 keep_words text [] }
{}

/// Cuts worked out by hand. Sequences stay, also those after the cut that end the style. A line feed ends
/// a line. A column that a wide character can't fill is marked, and so are two.
pub fn worked_cuts()
    ensures all_sequences { CutsTo 0 (codes "\u{1b}[31;100m123456\u{1b}[39m\u{1b}[49m") (codes "\u{1b}[31;100m\u{1b}[39m\u{1b}[49m") }
    ensures styles { CutsTo 3 (codes "\u{1b}[31;100m123456\u{1b}[39m\u{1b}[49m") (codes "\u{1b}[31;100m123\u{1b}[39m\u{1b}[49m") }
    ensures whole { CutsTo 10 (codes "\u{1b}[31;100m123456\u{1b}[39m\u{1b}[49m") (codes "\u{1b}[31;100m123456\u{1b}[39m\u{1b}[49m") }
    ensures mark { CutsTo 3 (encode_utf8_all (codes "😳😳😳😳😳"))
        (encode_utf8_all (codes "😳�")) }
    ensures marks { CutsTo 3 (encode_utf8_all (codes "a៘b")) (encode_utf8_all (codes "a��")) }
    ensures first_line { CutsTo 3 (codes "123\n456789") (codes "123") }
    ensures second_line { CutsTo 4 (codes "123\n456789") (codes "123\n4567") }
{}

/// `==` of units is equality of all parts; a clone is the same unit, and is never refused.
pub fn units_are_compared_and_cloned_whole()
    ensures equality { (a b : OneUnit) → (⟦<Unit as PartialEq>⟧.eq a b ≡ true) ↔ (a ≡ b) }
    ensures clone { (source clone : OneUnit) → ⟦<Unit as Clone>⟧.is_clone source clone → clone ≡ source }
    ensures comes { (source : OneUnit) → ⟦<Unit as Clone>⟧.is_infallible source }
{}
