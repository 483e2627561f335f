//! Laws of the definitions that the other contracts cite.

ghost use Rattle.std.specs.Prelude.{All, ◌≡◌, ◌<◌, ℕ, List, Option, Result, length, map, true};
ghost use Rattle.std.specs.Iterator.{at_most};
ghost use Rattle.std.specs.declared.alloc.AllocError.{AllocError as Refused};
ghost use Rattle.std.specs.declared.borrow.CowStr.{CowStr as LineText};
ghost use Rattle.std.proofs.Common.{Global as Heap};
ghost use Rattle.std.specs.List.{join_with_byte, list_all, sum_by};
ghost use Rattle.std.specs.Str.{IsUtf8};
ghost use Rattle.ansi_scan.specs.Pieces.{pieces as pieces_of};
ghost use Rattle.ansi_scan.specs.Sequences.{Piece, ArePiecesOf, AreWholePiecesOf};
ghost use Rattle.ansi_str.specs.Splitting.{GivesPart, PartsLeft};
ghost use Rattle.ansi_str.specs.StyledText.{strip};
ghost use Rattle.ansi_str.specs.Keeping.{IsTrimmed};
ghost use Rattle.ansi_str.specs.Lines.{IsClosedLine};
ghost use Rattle.grid_records_measure.specs.Measures.{line_cost, measure, own_width};
ghost use Rattle.grid_records_measure.specs.PlainCharacters.{is_one_column, is_plain_character, is_two_columns};
ghost use Rattle.grid_records_measure.specs.TextLines.{AreLinesOf, line_feed, shown_lines, text_height, text_lines};
ghost use Rattle.grid_records_measure.specs.Trimming.{trimmed};
ghost use Rattle.grid_records_measure.specs.CutTexts.{cut_at};
ghost use Rattle.grid_records_measure.specs.Cutting.{IsCutAt, IsLongestFront, ShowsCut};

use crate::text_lines::Lines;

/// The lines of a text are one list: there is such a list, and no other.
pub fn one_list_of_lines()
    ensures there { (pieces : List Piece) → (lines : List (List ℕ)) × AreLinesOf pieces lines }
    ensures one { (pieces : List Piece) (lines others : List (List ℕ)) →
        AreLinesOf pieces lines → AreLinesOf pieces others → lines ≡ others }
{}

/// `text_lines` of a text are its lines: they are those of its pieces, as many as its height says.
pub fn lines_of_texts()
    ensures lines { (text : List ℕ) → AreLinesOf (pieces_of text) (text_lines text) }
    ensures one { (text : List ℕ) (pieces : List Piece) (lines : List (List ℕ)) →
        ArePiecesOf text pieces → AreLinesOf pieces lines → lines ≡ text_lines text }
    ensures count { (text : List ℕ) → length (text_lines text) ≡ text_height text }
{}

/// `trimmed` of a text is the text without the white space at both ends of what it shows, and no other text
/// is.
pub fn trimmed_texts()
    ensures there { (text : List ℕ) → IsUtf8 text → IsTrimmed (pieces_of text) (trimmed text) }
    ensures one { (text bytes : List ℕ) (pieces : List Piece) →
        ArePiecesOf text pieces → IsTrimmed pieces bytes → bytes ≡ trimmed text }
{}

/// Each line of a whole text is closed: it holds no broken ESC and no line feed, and no style is open
/// at its end.
pub fn lines_are_closed()
    ensures { (text : List ℕ) (pieces : List Piece) (lines : List (List ℕ)) →
        AreWholePiecesOf text pieces → AreLinesOf pieces lines → All IsClosedLine lines }
{}

/// Closed lines that are joined by line feeds are the lines of that text.
pub fn closed_lines_join()
    ensures { (lines others : List (List ℕ)) (pieces : List Piece) → 0 < length lines → All IsClosedLine lines →
        ArePiecesOf (join_with_byte line_feed lines) pieces → AreLinesOf pieces others → others ≡ lines }
{}

/// Without their sequences the lines of a whole text are those that it shows: the text without its own,
/// split at its line feeds.
pub fn lines_are_shown_lines()
    ensures { (text : List ℕ) (pieces : List Piece) (lines : List (List ℕ)) →
        AreWholePiecesOf text pieces → AreLinesOf pieces lines →
        map (λ line. strip (pieces_of line)) lines ≡ shown_lines pieces }
{}

/// The characters that a cut keeps are one list: there is exactly one longest prefix that fits.
pub fn one_longest_front()
    ensures there { (width : ℕ) (characters : List ℕ) →
        (kept : List ℕ) × (left : List ℕ) × IsLongestFront width characters kept left }
    ensures one { (width : ℕ) (characters kept left others more : List ℕ) →
        IsLongestFront width characters kept left → IsLongestFront width characters others more → kept ≡ others }
{}

/// The function `cut_at` gives the cut of a text at a width, and no other text is its cut. It is the cut that
/// `cut_width` gives, and so do tables that cut their texts.
pub fn the_cut_text()
    ensures meets { (width : ℕ) (text : List ℕ) (pieces : List Piece) → ArePiecesOf text pieces → IsCutAt width pieces (cut_at width text) }
    ensures one { (width : ℕ) (text bytes : List ℕ) (pieces : List Piece) → ArePiecesOf text pieces →
        IsCutAt width pieces bytes → bytes ≡ cut_at width text }
{}

/// The cut of a whole text at a width shows the characters of its longest prefix that fits. They have the styles that
/// they have in the text. Replacement characters in the plain style follow. The cut is closed.
pub fn cuts_show_their_fronts()
    ensures { (width : ℕ) (text bytes : List ℕ) (pieces of_cut : List Piece) → IsUtf8 text → AreWholePiecesOf text pieces →
        IsCutAt width pieces bytes → ArePiecesOf bytes of_cut → ShowsCut width pieces of_cut }
{}

/// Where all characters are plain, a line measures the sum of the columns that they take one by one. That is also
/// the sum of what they cost. A plain character takes one column or two.
pub fn plain_characters_add_up()
    ensures one { (c : ℕ) → is_one_column c ≡ true → own_width c ≡ 1 }
    ensures two { (c : ℕ) → is_two_columns c ≡ true → own_width c ≡ 2 }
    ensures sum { (characters : List ℕ) → list_all is_plain_character characters ≡ true →
        measure characters ≡ sum_by own_width characters }
    ensures costs { (characters : List ℕ) → list_all is_plain_character characters ≡ true →
        line_cost characters ≡ measure characters }
{}

/// The lines of a text come one after the other, and then none; after a refusal none comes. `next` may be
/// called at any time, and no more are left than there are lines.
pub fn lines_come_in_their_order()
    ensures asked { (lines : PartsLeft) → ⟦<Lines<'static> as Iterator>⟧.can_next lines }
    ensures left { (lines : PartsLeft) → ⟦<Lines<'static> as Iterator>⟧.remaining lines ≡ at_most (length lines.parts) }
    ensures next { (before after : PartsLeft) (given : Option (Result (LineText Heap) Refused)) → ⟦<Lines<'static> as Iterator>⟧.next_gives before given after → GivesPart before given after }
{}
