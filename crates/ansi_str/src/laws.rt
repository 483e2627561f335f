//! Laws of the definitions that the other contracts cite.

ghost use Rattle.std.specs.Prelude.{All, ◌≡◌, ◌≤◌, ◌-◌, ℕ, List, [], ◌∷◌, ◌++◌, codes, length, slice_range, ◌↔◌, Bool, IsTrue};
ghost use Rattle.std.specs.Prelude.{Option, is_some, None, Some, String as Bytes, ◌⊎◌, string_bytes, true};
ghost use Rattle.std.specs.Borrow.{Bor};
ghost use Rattle.std.specs.Range.{range_inclusive_end, range_inclusive_exhausted, range_inclusive_start};
ghost use Rattle.std.specs.Str.{IsCharBoundary, IsUtf8, trim};
ghost use Rattle.std.specs.declared.ops.Range.{Range as Between};
ghost use Rattle.std.specs.declared.ops.RangeFrom.{RangeFrom as Onward};
ghost use Rattle.std.specs.declared.ops.RangeFull.{RangeFull as Full};
ghost use Rattle.std.specs.declared.ops.RangeInclusive.{RangeInclusive as Through};
ghost use Rattle.std.specs.declared.ops.RangeTo.{RangeTo as UpTo};
ghost use Rattle.std.specs.declared.ops.RangeToInclusive.{RangeToInclusive as UpThrough};
ghost use Rattle.std.proofs.Common.{Global as Heap};
ghost use Rattle.ansi_scan.specs.Sequences.{Piece, ArePiecesOf, AreWholePiecesOf, IsWhole, NoneBroken, joined};
ghost use Rattle.ansi_scan.specs.Attributes.{after_code, plain_attributes};
ghost use Rattle.ansi_scan.specs.Pieces.{pieces as pieces_of};
ghost use Rattle.ansi_str.specs.StyledText.{IsClosed, strip, style_after_all, styled, styled_from};
ghost use Rattle.ansi_str.specs.Cuts.{AreGoodBounds, ShowsSlice, cut_part, later_part, parts_at};
ghost use Rattle.ansi_str.specs.Walking.{from_text, sequences};
ghost use Rattle.ansi_scan.specs.StartsAndEnds.{end_bytes};
ghost use Rattle.ansi_str.specs.Parts.{before_place, dressed, from_place, through_place, IsGoodBound};
ghost use Rattle.ansi_str.specs.WorkedCuts.{black_word, half_red_text, red_text, red_word, spaced_text};
ghost use Rattle.ansi_str.specs.Searches.{BeginsWith, EndsWith, IsFoundWhere};
ghost use Rattle.ansi_str.specs.Keeping.{IsTrimmed, kept, sequences_among, without_end, without_front};
ghost use Rattle.ansi_str.specs.declared.edits.Edit.{Edit as OneEdit};
ghost use Rattle.ansi_str.specs.Edits.{IsInUtf8, OneFails, ShowsItsSlice, StandAmong, TakeInTurn, TakesTo};
ghost use Rattle.ansi_str.specs.Matches.{styled_slice};
ghost use Rattle.ansi_str.specs.Ranges.{end_behind, inclusive_start};
ghost use Rattle.ansi_str.specs.Equality.{AreSame};

use crate::edits::Edit;
use crate::ranges::AnsiRange;
use crate::text::AnsiStr;
pub use ansi_str_search::laws::{
    closed_lines_join, cut_at_places, nothing_to_strip, one_list_of_matches,
    parts_are_closed_texts, parts_are_slices, parts_are_stripped_slices, parts_come_in_their_order,
    parts_in_order, parts_show_their_slices, split_as_std, split_at_nothing, split_at_one_byte,
    split_between_characters, split_shows_its_slices, starts_and_ends_as_texts, stripped_once,
    worked_parts, worked_splits,
};
pub use ansi_str_search::text::laws::{
    blocks_and_characters_come_in_their_order, blocks_in_order, clones_of_blocks_are_the_same,
};
use std::ops::{Range, RangeFrom, RangeFull, RangeInclusive, RangeTo, RangeToInclusive};

/// A prefix is taken away exactly where the text begins with it, and a suffix where it ends with it.
pub fn taken_where_they_are()
    ensures prefix { (prefix : List ℕ) (pieces : List Piece) (begins : Bool) (found : Option (List ℕ)) →
        (IsTrue begins ↔ BeginsWith prefix (strip pieces)) →
        IsFoundWhere (BeginsWith prefix (strip pieces)) (λ left. left ≡ without_front (length prefix) pieces) found → is_some found ≡ begins }
    ensures suffix { (suffix : List ℕ) (pieces : List Piece) (ends : Bool) (found : Option (List ℕ)) →
        (IsTrue ends ↔ EndsWith suffix (strip pieces)) →
        IsFoundWhere (EndsWith suffix (strip pieces)) (λ left. left ≡ without_end (length suffix) pieces) found → is_some found ≡ ends }
{}

/// Text may be taken away at the ends of a whole text. What is left then shows the text between them, has
/// the same sequences, and is whole. In UTF-8 it shows the characters between them, each in the style that
/// it has in the text.
pub fn sequences_are_kept()
    ensures shown { (a b : ℕ) (text : List ℕ) (pieces left : List Piece) → AreWholePiecesOf text pieces →
        ArePiecesOf (kept a b pieces) left → strip left ≡ slice_range (strip pieces) a b }
    ensures sequences { (a b : ℕ) (text : List ℕ) (pieces left : List Piece) → AreWholePiecesOf text pieces →
        ArePiecesOf (kept a b pieces) left → sequences_among left ≡ sequences_among pieces }
    ensures whole { (a b : ℕ) (text : List ℕ) (pieces left : List Piece) → AreWholePiecesOf text pieces →
        ArePiecesOf (kept a b pieces) left → NoneBroken left }
    ensures slice { (a b : ℕ) (text : List ℕ) (pieces left : List Piece) → a ≤ b → IsUtf8 text →
        AreWholePiecesOf text pieces → IsCharBoundary (strip pieces) a → IsCharBoundary (strip pieces) b →
        ArePiecesOf (kept a b pieces) left →
        styled left ≡ styled_slice pieces a b }
{}

/// Without its sequences a trimmed whole text is the trimmed text without its own.
pub fn trimmed_as_std()
    ensures { (text bytes : List ℕ) (pieces left : List Piece) → AreWholePiecesOf text pieces →
        IsTrimmed pieces bytes → ArePiecesOf bytes left → strip left ≡ trim (strip pieces) }
{}

/// What is kept, worked out by hand.
pub fn worked_keeping()
    ensures prefix { without_front 1 red_text ≡ codes "\u{1b}[31mb\u{1b}[0mc" }
    ensures suffix { without_end 2 red_text ≡ codes "\u{1b}[31ma\u{1b}[0m" }
    ensures nothing { without_front 3 red_text ≡ codes "\u{1b}[31m\u{1b}[0m" }
    ensures trimmed { kept 2 3 spaced_text ≡ codes "\u{1b}[1ma" }
{}

/// A cut is the sequences before its start and one slice of the text, and the end of the style then open.
pub fn cuts_are_slices()
    ensures { (a b : ℕ) (pieces : List Piece) → a ≤ b →
        cut_part a b pieces ≡ sequences (before_place a pieces) ++ (joined (through_place (b - a) (from_place a pieces))
        ++ end_bytes (style_after_all plain_attributes (through_place b pieces))) }
{}

/// The parts of a split at places are slices of the text. The first one begins at the start of the text,
/// and a later one after the sequences at the place before it. A later part begins with the start of
/// the style known there.
pub fn parts_at_places_are_slices()
    ensures first { (b : ℕ) (pieces : List Piece) →
        cut_part 0 b pieces ≡ dressed plain_attributes (through_place b pieces) }
    ensures later { (text : List ℕ) (pieces : List Piece) (a b : ℕ) → a ≤ b → ArePiecesOf text pieces →
        later_part a b pieces ≡ dressed (style_after_all plain_attributes (through_place a pieces))
        (through_place (b - a) (from_text (from_place a pieces))) }
{}

/// Cuts and splits at places worked out by hand. A sequence before a cut stays, and one at a
/// place of a split is in the part before it alone.
pub fn worked_cuts()
    ensures cut { cut_part 1 3 black_word ≡ codes "\u{1b}[30mEX\u{1b}[39m" }
    ensures behind { parts_at (2 ∷ []) half_red_text ≡ codes "\u{1b}[31mab\u{1b}[0m" ∷ codes "cd" ∷ [] }
    ensures inside { parts_at (1 ∷ []) half_red_text ≡
        codes "\u{1b}[31ma\u{1b}[39m" ∷ codes "\u{1b}[31mb\u{1b}[0mcd" ∷ [] }
    ensures front { parts_at (0 ∷ []) red_word ≡ codes "\u{1b}[31m\u{1b}[39m" ∷ codes "\u{1b}[31mab\u{1b}[39m" ∷ [] }
    ensures whole { parts_at [] red_word ≡ codes "\u{1b}[31mab\u{1b}[39m" ∷ [] }
    ensures good { AreGoodBounds (codes "TEXT") 1 (Some 3) }
    ensures reversed { ¬ (AreGoodBounds (codes "TEXT") 2 (Some 1)) }
    ensures divided { ¬ (AreGoodBounds (0xc3 ∷ 0xa9 ∷ []) 1 None) }
{}

/// A whole text is split at places. The first part, which is a cut, and each later one show the characters
/// of their slices, each in the style that the text gives it. No style is open at their ends. In UTF-8 a
/// later part shows what is between its places, as a part of a split does.
pub fn parts_at_places_show_their_slices()
    ensures first { (text : List ℕ) (pieces of_part : List Piece) (b : ℕ) → AreWholePiecesOf text pieces →
        ArePiecesOf (cut_part 0 b pieces) of_part → styled of_part ≡ styled_from plain_attributes (through_place b pieces) }
    ensures first_closed { (text : List ℕ) (pieces of_part : List Piece) (b : ℕ) → AreWholePiecesOf text pieces →
        ArePiecesOf (cut_part 0 b pieces) of_part → IsClosed of_part }
    ensures later { (text : List ℕ) (pieces of_part : List Piece) (a b : ℕ) → a ≤ b → AreWholePiecesOf text pieces →
        ArePiecesOf (later_part a b pieces) of_part →
        ShowsSlice of_part pieces a b (styled_from (style_after_all plain_attributes (through_place a pieces))
        (through_place (b - a) (from_text (from_place a pieces)))) }
    ensures later_slice { (text : List ℕ) (pieces of_part : List Piece) (a b : ℕ) → a ≤ b → IsUtf8 text →
        AreWholePiecesOf text pieces → IsCharBoundary (strip pieces) a → IsCharBoundary (strip pieces) b →
        ArePiecesOf (later_part a b pieces) of_part →
        styled of_part ≡ styled_slice pieces a b }
{}

/// Split at a place, a whole text has two sides. One after the other, they show what the text shows, each
/// character in its style.
pub fn sides_show_the_text()
    ensures { (text : List ℕ) (pieces first second : List Piece) (mid : ℕ) → IsUtf8 text → AreWholePiecesOf text pieces →
        mid ≤ length (strip pieces) → IsGoodBound (strip pieces) mid →
        ArePiecesOf (cut_part 0 mid pieces) first → ArePiecesOf (later_part mid (length (strip pieces)) pieces) second →
        styled first ++ styled second ≡ styled pieces }
{}

/// A cut of a whole text shows the characters of its slice, each in the style that the text gives it. It
/// ends with no style open. In UTF-8 these are the characters between its places.
pub fn cuts_show_their_slices()
    ensures shown { (text : List ℕ) (pieces of_cut : List Piece) (a b : ℕ) → a ≤ b → AreWholePiecesOf text pieces →
        ArePiecesOf (cut_part a b pieces) of_cut →
        ShowsSlice of_cut pieces a b (styled_from (style_after_all plain_attributes (before_place a pieces))
        (through_place (b - a) (from_place a pieces))) }
    ensures slice { (text : List ℕ) (pieces of_cut : List Piece) (a b : ℕ) → a ≤ b → IsUtf8 text →
        AreWholePiecesOf text pieces → IsCharBoundary (strip pieces) a → IsCharBoundary (strip pieces) b →
        ArePiecesOf (cut_part a b pieces) of_cut →
        styled of_cut ≡ styled_slice pieces a b }
{}

/// Of two lists of edits in a row, those of the second are done after those of the first. What edits leave
/// of a text is one text, and where they leave one none of them fails. Of a whole text they leave a whole text.
pub fn edits_in_turn()
    ensures leave { (first second : List OneEdit) (text left : List ℕ) →
        (TakeInTurn (first ++ second) text left ↔ ((next : List ℕ) × TakeInTurn first text next × TakeInTurn second next left)) }
    ensures fail { (first second : List OneEdit) (text : List ℕ) →
        (OneFails (first ++ second) text ↔ (OneFails first text ⊎ ((next : List ℕ) × TakeInTurn first text next × OneFails second next))) }
    ensures one { (edits : List OneEdit) (text left other : List ℕ) →
        TakeInTurn edits text left → TakeInTurn edits text other → left ≡ other }
    ensures not_both { (edits : List OneEdit) (text left : List ℕ) →
        TakeInTurn edits text left → ¬ (OneFails edits text) }
    ensures whole { (edits : List OneEdit) (text left : List ℕ) → IsWhole text → TakeInTurn edits text left → IsWhole left }
{}

/// What an edit leaves of a whole text in UTF-8 is in UTF-8. It shows a slice of the characters that the
/// text shows, each in its style, between the two places of the edit. So what edits in turn leave shows
/// some of these characters, one after another.
pub fn edits_show_slices()
    ensures one { (edit : OneEdit) (text left : List ℕ) (pieces of_left : List Piece) → IsInUtf8 edit → IsUtf8 text →
        AreWholePiecesOf text pieces → TakesTo edit text left → ArePiecesOf left of_left →
        ShowsItsSlice edit pieces of_left }
    ensures utf8 { (edits : List OneEdit) (text left : List ℕ) → All IsInUtf8 edits → IsUtf8 text →
        TakeInTurn edits text left → IsUtf8 left }
    ensures in_turn { (edits : List OneEdit) (text left : List ℕ) (pieces of_left : List Piece) → All IsInUtf8 edits → IsUtf8 text →
        AreWholePiecesOf text pieces → TakeInTurn edits text left → ArePiecesOf left of_left →
        StandAmong (styled of_left) (styled pieces) }
{}

/// An edit worked out by hand. Of two red characters and a plain one, what is left after the first shows
/// the second in red and the third as it is.
pub fn worked_edits()
    ensures before { ArePiecesOf (codes "\u{1b}[31mab\u{1b}[0mc") red_text }
    ensures taken { (prefix : Bor (List ℕ)) → prefix.now ≡ codes "a" →
        TakesTo (OneEdit.Prefix prefix) (codes "\u{1b}[31mab\u{1b}[0mc") (codes "\u{1b}[31mb\u{1b}[0mc") }
    ensures slice { styled_slice red_text 1 3 ≡ (0x62, after_code plain_attributes 31) ∷ (0x63, plain_attributes) ∷ [] }
    ensures shown { styled (pieces_of (codes "\u{1b}[31mb\u{1b}[0mc")) ≡
        (0x62, after_code plain_attributes 31) ∷ (0x63, plain_attributes) ∷ [] }
{}

/// `==` of edits is equality, all of their parts compared, texts by their bytes.
pub fn equal_edits_are_the_same()
    ensures { (a b : OneEdit) → (⟦<Edit<'static> as PartialEq>⟧.eq a b ≡ true) ↔ AreSame a b }
{}

/// A clone of an edit has the same parts, and is never refused.
pub fn clones_of_edits_are_the_same()
    ensures clone { (source clone : OneEdit) → ⟦<Edit<'static> as Clone>⟧.is_clone source clone → AreSame clone source }
    ensures comes { (source : OneEdit) → ⟦<Edit<'static> as Clone>⟧.is_infallible source }
{}

/// What is read from each kind of range, and from a text.
pub fn ranges_and_texts_are_read_as_they_are()
    ensures range_start { (range : Between ℕ) → ⟦<Range<usize> as AnsiRange>⟧.start range ≡ range.start }
    ensures range_end { (range : Between ℕ) → ⟦<Range<usize> as AnsiRange>⟧.end range ≡ Some range.end }
    ensures from_start { (range : Onward ℕ) → ⟦<RangeFrom<usize> as AnsiRange>⟧.start range ≡ range.start }
    ensures from_end { (range : Onward ℕ) → ⟦<RangeFrom<usize> as AnsiRange>⟧.end range ≡ None }
    ensures to_start { (range : UpTo ℕ) → ⟦<RangeTo<usize> as AnsiRange>⟧.start range ≡ 0 }
    ensures to_end { (range : UpTo ℕ) → ⟦<RangeTo<usize> as AnsiRange>⟧.end range ≡ Some range.end }
    ensures full_start { (range : Full) → ⟦<RangeFull as AnsiRange>⟧.start range ≡ 0 }
    ensures full_end { (range : Full) → ⟦<RangeFull as AnsiRange>⟧.end range ≡ None }
    ensures through_start { (range : Through ℕ) →
        ⟦<RangeInclusive<usize> as AnsiRange>⟧.start range ≡ inclusive_start (range_inclusive_exhausted range) (range_inclusive_start range)
        (range_inclusive_end range) }
    ensures through_end { (range : Through ℕ) → ⟦<RangeInclusive<usize> as AnsiRange>⟧.end range ≡ end_behind (range_inclusive_end range) }
    ensures to_through_start { (range : UpThrough ℕ) → ⟦<RangeToInclusive<usize> as AnsiRange>⟧.start range ≡ 0 }
    ensures to_through_end { (range : UpThrough ℕ) → ⟦<RangeToInclusive<usize> as AnsiRange>⟧.end range ≡ end_behind range.end }
    ensures borrowed { (text : Bor (List ℕ)) → ⟦<&'static str as AnsiStr>⟧.text text ≡ text.now }
    ensures owned { (text : Bytes Heap) → ⟦<String as AnsiStr>⟧.text text ≡ string_bytes text }
{}
