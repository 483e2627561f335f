//! Laws of the definitions that the other contracts cite.

ghost use Rattle.std.specs.Prelude.{All, ◌≡◌, ◌<◌, ◌≤◌, ◌-◌, ◌==◌, ℕ, List, Option, Result, [], ◌∷◌, ◌++◌, chars, codes, drop, encode_utf8, false, length, map, slice_range, true};
ghost use Rattle.std.specs.Borrow.{Bor};
ghost use Rattle.std.specs.Iterator.{AlwaysYields, at_most};
ghost use Rattle.std.specs.List.{join_with_byte, slice_split};
ghost use Rattle.std.specs.Str.{IsCharBoundary, IsUtf8};
ghost use Rattle.std.specs.Str.Iter.{split_has_more, split_pattern, split_steps, split_text};
ghost use Rattle.std.specs.Str.Pattern.{FindsText};
ghost use Rattle.std.specs.declared.str.Split.{Split};
ghost use Rattle.ansi_scan.specs.Pieces.{pieces as pieces_of};
ghost use Rattle.ansi_scan.specs.Sequences.{Piece, ArePiecesOf, AreWholePiecesOf, ForPieces, NoneBroken, joined};
ghost use Rattle.ansi_scan.specs.Attributes.{Attributes, IsRendition, plain_attributes};
ghost use Rattle.ansi_str_search.specs.Text.StyledText.{IsClosed, has_escape, strip, style_after_all, styled, styled_from};
ghost use Rattle.ansi_scan.specs.StartsAndEnds.{start_bytes, end_bytes};
ghost use Rattle.std.specs.declared.alloc.AllocError.{AllocError as Refused};
ghost use Rattle.std.specs.declared.borrow.CowStr.{CowStr as PartText};
ghost use Rattle.std.proofs.Common.{Global as Heap};
ghost use Rattle.ansi_str_search.specs.Splitting.{GivesPart, PartsLeft};
ghost use Rattle.ansi_str_search.specs.Parts.{before_place, dressed, from_place, split_part, through_place};
ghost use Rattle.ansi_str_search.specs.Matches.{AreMatches, AreParts, IsCutBetweenCharacters, split_bounds, styled_parts, styled_slice, text_parts};
ghost use Rattle.ansi_str_search.specs.Lines.{IsClosedLine, IsClosedText};
ghost use Rattle.ansi_str_search.specs.WorkedParts.{black_text, two_lines};

use crate::split::AnsiSplit;

/// Read as a text, the start of a style gives it from plain, and leaves it where it is known. Its end
/// gives plain from it. Both are whole texts of sequences alone, which show nothing.
pub fn starts_and_ends_as_texts()
    ensures start { (a : Attributes) (pieces : List Piece) → IsRendition a → ArePiecesOf (start_bytes a) pieces →
        (style_after_all plain_attributes pieces ≡ a) × (style_after_all a pieces ≡ a) }
    ensures start_shows { (a : Attributes) (pieces : List Piece) → IsRendition a → ArePiecesOf (start_bytes a) pieces →
        (strip pieces ≡ []) × NoneBroken pieces }
    ensures end { (a : Attributes) (pieces : List Piece) → ArePiecesOf (end_bytes a) pieces →
        style_after_all a pieces ≡ plain_attributes }
    ensures end_shows { (a : Attributes) (pieces : List Piece) → ArePiecesOf (end_bytes a) pieces →
        (strip pieces ≡ []) × NoneBroken pieces }
{}

/// Without its sequences a text has no ESC, and without its sequences once more it is the same.
pub fn stripped_once()
    ensures no_escape { (text : List ℕ) (pieces : List Piece) →
        ArePiecesOf text pieces → has_escape (strip pieces) ≡ false }
    ensures same { (text : List ℕ) (pieces again : List Piece) →
        ArePiecesOf text pieces → ArePiecesOf (strip pieces) again → strip again ≡ strip pieces }
{}

/// Without its sequences a text without ESC is the same, and its parts are its slices.
pub fn nothing_to_strip()
    ensures same { (text : List ℕ) (pieces : List Piece) →
        ArePiecesOf text pieces → has_escape text ≡ false → strip pieces ≡ text }
    ensures parts { (pattern text : List ℕ) (pieces : List Piece) (matches : List ℕ) →
        has_escape text ≡ false → ArePiecesOf text pieces → AreMatches pattern text matches →
        styled_parts pieces (split_bounds pattern text matches) ≡ text_parts text (split_bounds pattern text matches) }
{}

/// A text is cut at a place into two, which are the text when they are joined. What is after the place are
/// pieces of a text, and it shows what the text shows from there on.
pub fn cut_at_places()
    ensures joined { (n : ℕ) (pieces : List Piece) →
        joined pieces ≡ joined (before_place n pieces) ++ joined (from_place n pieces) }
    ensures pieces { (text : List ℕ) (pieces : List Piece) (n : ℕ) →
        ArePiecesOf text pieces → ArePiecesOf (joined (from_place n pieces)) (from_place n pieces) }
    ensures strip { (n : ℕ) (pieces : List Piece) →
        strip (from_place n pieces) ≡ drop n (strip pieces) }
{}

/// The parts of a text lie within it: no part ends before it begins, or after the end of the text.
pub fn parts_in_order()
    ensures { (pattern text matches : List ℕ) → AreMatches pattern text matches →
        All (λ bound. (bound.0 ≤ bound.1) × (bound.1 ≤ length text)) (split_bounds pattern text matches) }
{}

/// A part of a split is one slice of the text. Before it is the start of the style known at the slice,
/// and after it the end of the style then open.
pub fn parts_are_slices()
    ensures { (a b : ℕ) (pieces : List Piece) → a ≤ b →
        split_part a b pieces ≡ dressed (style_after_all plain_attributes (before_place a pieces))
        (through_place (b - a) (from_place a pieces)) }
{}

/// A part of a split of a whole text is closed, and shows the characters of its slice in the styles that
/// they have in the text. In UTF-8, the characters that it shows, each with its style, are a slice of those
/// that the text shows. This slice begins after as many characters as come before the part.
pub fn parts_show_their_slices()
    ensures shown { (text : List ℕ) (pieces of_part : List Piece) (a b : ℕ) → a ≤ b →
        AreWholePiecesOf text pieces → ArePiecesOf (split_part a b pieces) of_part →
        styled of_part ≡ styled_from (style_after_all plain_attributes (before_place a pieces))
        (through_place (b - a) (from_place a pieces)) }
    ensures closed { (text : List ℕ) (pieces of_part : List Piece) (a b : ℕ) → a ≤ b →
        AreWholePiecesOf text pieces → ArePiecesOf (split_part a b pieces) of_part → IsClosed of_part }
    ensures slice { (text : List ℕ) (pieces of_part : List Piece) (a b : ℕ) → a ≤ b → IsUtf8 text →
        AreWholePiecesOf text pieces →
        IsCharBoundary (strip pieces) a → IsCharBoundary (strip pieces) b →
        ArePiecesOf (split_part a b pieces) of_part →
        styled of_part ≡ styled_slice pieces a b }
{}

/// Without its sequences, a part of a split of a whole text is the slice of the text without its own.
/// So are all parts together.
pub fn parts_are_stripped_slices()
    ensures one { (text : List ℕ) (pieces of_part : List Piece) (a b : ℕ) → a ≤ b →
        AreWholePiecesOf text pieces → ArePiecesOf (split_part a b pieces) of_part →
        strip of_part ≡ slice_range (strip pieces) a b }
    ensures all { (pattern text : List ℕ) (pieces : List Piece) (matches : List ℕ) →
        AreWholePiecesOf text pieces → AreMatches pattern (strip pieces) matches →
        map (λ part. strip (pieces_of part)) (styled_parts pieces (split_bounds pattern (strip pieces) matches)) ≡
        text_parts (strip pieces) (split_bounds pattern (strip pieces) matches) }
{}

/// The parts of a split of a whole text are closed texts, in UTF-8 where the text and the pattern are.
/// Between its line feeds they are closed lines.
pub fn parts_are_closed_texts()
    ensures closed { (pattern text : List ℕ) (pieces : List Piece) (parts : List (List ℕ)) →
        AreWholePiecesOf text pieces → AreParts pattern pieces parts → All IsClosedText parts }
    ensures text { (pattern text : List ℕ) (pieces : List Piece) (parts : List (List ℕ)) →
        ArePiecesOf text pieces → AreParts pattern pieces parts → IsUtf8 text → IsUtf8 pattern → All IsUtf8 parts }
    ensures lines { (text : List ℕ) (pieces : List Piece) (parts : List (List ℕ)) →
        AreWholePiecesOf text pieces → AreParts (0x0a ∷ []) pieces parts → All IsClosedLine parts }
{}

/// Split at an ASCII character, a whole text has parts that show what the text shows, each character in
/// its style, cut at that character.
pub fn split_shows_its_slices()
    ensures { (c : ℕ) (text : List ℕ) (pieces : List Piece) (parts : List (List ℕ)) → c < 128 → IsUtf8 text →
        AreWholePiecesOf text pieces → AreParts (c ∷ []) pieces parts →
        map (λ part. styled (pieces_of part)) parts ≡ slice_split (λ x. x.0 == c) (styled pieces) }
{}

/// A text in UTF-8 that is split at a pattern in UTF-8, of any number of bytes or none, is cut between
/// characters. So each part of a whole text shows the slice of the characters that the text shows, each
/// in its style.
pub fn split_between_characters()
    ensures bounds { (pattern text matches : List ℕ) → IsUtf8 text → IsUtf8 pattern → AreMatches pattern text matches →
        All (IsCutBetweenCharacters text) (split_bounds pattern text matches) }
    ensures stripped { (pattern text : List ℕ) (pieces : List Piece) (matches : List ℕ) → IsUtf8 text → IsUtf8 pattern →
        ArePiecesOf text pieces → AreMatches pattern (strip pieces) matches →
        All (IsCutBetweenCharacters (strip pieces)) (split_bounds pattern (strip pieces) matches) }
    ensures shown { (pattern text : List ℕ) (pieces : List Piece) (matches : List ℕ) → IsUtf8 text → IsUtf8 pattern →
        AreWholePiecesOf text pieces → AreMatches pattern (strip pieces) matches →
        map (λ part. styled (pieces_of part)) (styled_parts pieces (split_bounds pattern (strip pieces) matches)) ≡
        map (λ bound. styled_slice pieces bound.0 bound.1) (split_bounds pattern (strip pieces) matches) }
{}

/// At the empty pattern a text in UTF-8 is split into an empty part, each of its characters by itself,
/// and an empty part. So the parts of a whole text show nothing, one character each in its style, and
/// nothing.
pub fn split_at_nothing()
    ensures parts { (text matches : List ℕ) → IsUtf8 text → AreMatches [] text matches →
        text_parts text (split_bounds [] text matches) ≡ [] ∷ (map encode_utf8 (chars text) ++ [] ∷ []) }
    ensures stripped { (text : List ℕ) (pieces : List Piece) (parts : List (List ℕ)) → IsUtf8 text →
        AreWholePiecesOf text pieces → AreParts [] pieces parts →
        map (λ part. strip (pieces_of part)) parts ≡ [] ∷ (map encode_utf8 (chars (strip pieces)) ++ [] ∷ []) }
    ensures shown { (text : List ℕ) (pieces : List Piece) (parts : List (List ℕ)) → IsUtf8 text →
        AreWholePiecesOf text pieces → AreParts [] pieces parts →
        map (λ part. styled (pieces_of part)) parts ≡ [] ∷ (map (λ x. x ∷ []) (styled pieces) ++ [] ∷ []) }
{}

/// Closed lines that are joined by line feeds are the parts of the text when it is split at the line feed.
pub fn closed_lines_join()
    ensures { (lines parts : List (List ℕ)) (pieces : List Piece) → 0 < length lines → All IsClosedLine lines →
        ArePiecesOf (join_with_byte 0x0a lines) pieces → AreParts (0x0a ∷ []) pieces parts → parts ≡ lines }
{}

/// Parts worked out by hand: a text split at `456`, and one split at its line feed.
pub fn worked_parts()
    ensures black { ArePiecesOf (codes "\u{1b}[30m123:456\u{1b}[39m") black_text }
    ensures black_match { AreMatches (codes "456") (strip black_text) (4 ∷ []) }
    ensures before { split_part 0 4 black_text ≡ codes "\u{1b}[30m123:\u{1b}[39m" }
    ensures behind { split_part 7 7 black_text ≡ codes "\u{1b}[30m\u{1b}[39m" }
    ensures lines { ArePiecesOf (codes "\u{1b}[2;48;5;10m\u{1b}[38;5;20mDar\nren\u{1b}[0m") two_lines }
    ensures line_match { AreMatches (0x0a ∷ []) (strip two_lines) (3 ∷ []) }
    ensures first_line { split_part 0 3 two_lines ≡
        codes "\u{1b}[2;48;5;10m\u{1b}[38;5;20mDar\u{1b}[22m\u{1b}[39m\u{1b}[49m" }
    ensures second_line { split_part 4 7 two_lines ≡
        codes "\u{1b}[2m\u{1b}[38;5;20m\u{1b}[48;5;10mren\u{1b}[0m" }
{}

/// Splits worked out by hand: at an empty pattern, and with a sequence within a match, or on either side of it.
/// Further ones have a broken ESC, or a pattern that is a byte of a sequence, and so not text.
pub fn worked_splits()
    ensures empty_pattern { ForPieces (codes "\u{1b}[1ma") (λ pieces. AreParts [] pieces
        (codes "\u{1b}[1m\u{1b}[22m" ∷ codes "\u{1b}[1ma\u{1b}[22m" ∷ codes "\u{1b}[1m\u{1b}[22m" ∷ [])) }
    ensures within_match { ForPieces (codes "4\u{1b}[1m56") (λ pieces. AreParts (codes "45") pieces
        ([] ∷ codes "\u{1b}[1m6\u{1b}[22m" ∷ [])) }
    ensures beside_match { ForPieces (codes "a\u{1b}[31m,\u{1b}[0mb") (λ pieces. AreParts (codes ",") pieces
        (codes "a\u{1b}[31m\u{1b}[39m" ∷ codes "\u{1b}[31m\u{1b}[0mb" ∷ [])) }
    ensures broken { ForPieces (codes "a\u{1b}\nb") (λ pieces. AreParts (codes "\n") pieces
        (codes "a\u{1b}" ∷ codes "b" ∷ [])) }
    ensures within_sequence { ForPieces (codes "a\u{1b},b") (λ pieces. AreParts (codes ",") pieces
        (codes "a\u{1b},b" ∷ [])) }
{}

/// The places at which a pattern matches in a text are one list: there is such a list, and no other. By
/// hand: those of `aa` in `aaaaa` are 0 and 2, and those of the empty pattern in `éa` are 0, 2 and 3.
pub fn one_list_of_matches()
    ensures there { (pattern text : List ℕ) →
        (matches : List ℕ) × AreMatches pattern text matches }
    ensures one { (pattern text matches others : List ℕ) →
        AreMatches pattern text matches → AreMatches pattern text others → matches ≡ others }
    ensures apart { AreMatches (codes "aa") (codes "aaaaa") (0 ∷ 2 ∷ []) }
    ensures everywhere { AreMatches [] (0xc3 ∷ 0xa9 ∷ codes "a") (0 ∷ 2 ∷ 3 ∷ []) }
{}

/// The parts of a text without sequences are those that `str::split` gives, where the pattern is not
/// empty. By hand: the parts of `aaaaa` at `aa`, and those of `éa` and of the empty text at the empty
/// pattern. There the first and the last part are empty.
pub fn split_as_std()
    ensures parts { (pattern text matches : List ℕ) (split : Split (Bor (List ℕ))) →
        0 < length pattern → IsUtf8 pattern → split_text split ≡ text → split_has_more split ≡ true →
        (split_pattern split).now ≡ pattern → AreMatches pattern text matches →
        AlwaysYields (split_steps (λ n. FindsText n.now) (λ n m. m.now ≡ n.now)) (λ part. part.now) split
        (text_parts text (split_bounds pattern text matches)) }
    ensures worked { text_parts (codes "aaaaa") (split_bounds (codes "aa") (codes "aaaaa") (0 ∷ 2 ∷ []))
        ≡ [] ∷ [] ∷ codes "a" ∷ [] }
    ensures empty_pattern { text_parts (0xc3 ∷ 0xa9 ∷ codes "a")
        (split_bounds [] (0xc3 ∷ 0xa9 ∷ codes "a") (0 ∷ 2 ∷ 3 ∷ []))
        ≡ [] ∷ (0xc3 ∷ 0xa9 ∷ []) ∷ codes "a" ∷ [] ∷ [] }
    ensures empty_text { AreMatches [] [] (0 ∷ []) }
    ensures two_empty_parts { text_parts [] (split_bounds [] [] (0 ∷ [])) ≡ [] ∷ [] ∷ [] }
{}

/// Where the pattern is one ASCII character, a text without sequences is cut at each such byte.
pub fn split_at_one_byte()
    ensures parts { (c : ℕ) (text matches : List ℕ) → c < 128 → AreMatches (c ∷ []) text matches →
        text_parts text (split_bounds (c ∷ []) text matches) ≡ slice_split (λ b. b == c) text }
    ensures worked { text_parts (codes "a,b,") (split_bounds (codes ",") (codes "a,b,") (1 ∷ 3 ∷ []))
        ≡ codes "a" ∷ codes "b" ∷ [] ∷ [] }
{}

/// The parts of a split come one after the other, and then none; after a refusal none comes. The next may be
/// requested at any time, and no more are left than there are parts.
pub fn parts_come_in_their_order()
    ensures asked { (parts : PartsLeft) → ⟦<AnsiSplit<'static> as Iterator>⟧.can_next parts }
    ensures left { (parts : PartsLeft) → ⟦<AnsiSplit<'static> as Iterator>⟧.remaining parts ≡ at_most (length parts.parts) }
    ensures next { (before after : PartsLeft) (given : Option (Result (PartText Heap) Refused)) → ⟦<AnsiSplit<'static> as Iterator>⟧.next_gives before given after → GivesPart before given after }
{}
