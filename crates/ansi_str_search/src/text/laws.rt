//! Laws of the definitions that the other contracts cite.

ghost use Rattle.std.specs.Prelude.{◌≡◌, ℕ, List, Option, ◌∷◌, ◌++◌, flat_map};
ghost use Rattle.std.specs.Iterator.{YieldsFirst, YieldsLast, item_count};
ghost use Rattle.ansi_scan.specs.Sequences.{Piece, ArePiecesOf, escape, string_terminator};
ghost use Rattle.ansi_scan.specs.Attributes.{plain_attributes};
ghost use Rattle.ansi_str_search.specs.Text.StyledText.{strip, styled};
ghost use Rattle.ansi_str_search.specs.Text.Cutting.{IsOpenString, EndsNoString, string_kind};
ghost use Rattle.ansi_str_search.specs.Text.Blocks.{Block, blocks_from, text_of_block, styled_of_block};

use crate::text::blocks::{AnsiBlock, AnsiBlockIter};
use crate::text::characters::StrippedChars;

/// The blocks of a text, one after the other, are the text without its sequences. Their characters are
/// those that the text shows, in the same styles.
pub fn blocks_in_order()
    ensures text { (pieces : List Piece) →
        flat_map text_of_block (blocks_from plain_attributes pieces) ≡ strip pieces }
    ensures characters { (pieces : List Piece) →
        flat_map styled_of_block (blocks_from plain_attributes pieces) ≡ styled pieces }
{}

/// A text, and a text after it that begins with ESC, keep their pieces where they are put together. The
/// exception is a string open at the end of the first, whose end (ESC and `\`) that ESC begins. There the
/// string is one piece from the ESC that opens it on.
pub fn parted_at_an_escape()
    ensures apart { (text behind : List ℕ) (ps qs : List Piece) →
        ArePiecesOf text ps → ArePiecesOf (escape ∷ behind) qs → EndsNoString text behind →
        ArePiecesOf (text ++ escape ∷ behind) (ps ++ qs) }
    ensures ended { (before string behind : List ℕ) (opener : ℕ) (ps qs : List Piece) →
        IsOpenString opener string → ArePiecesOf before ps → ArePiecesOf behind qs →
        ArePiecesOf (before ++ ((escape ∷ opener ∷ (string ++ string_terminator)) ++ behind))
        (ps ++ record { kind = string_kind opener; bytes = escape ∷ opener ∷ (string ++ string_terminator) } ∷ qs) }
{}

/// A clone of a block has its text and its style, and is never refused.
pub fn clones_of_blocks_are_the_same()
    ensures clone { (source clone : Block) → ⟦<AnsiBlock<'static> as Clone>⟧.is_clone source clone → clone ≡ source }
    ensures comes { (source : Block) → ⟦<AnsiBlock<'static> as Clone>⟧.is_infallible source }
{}

/// Blocks and characters come one after the other, and then none; characters from the back too. The next may be
/// requested at any time, and no more are left than are still to come.
pub fn blocks_and_characters_come_in_their_order()
    ensures asked { (blocks : List Block) → ⟦<AnsiBlockIter<'static> as Iterator>⟧.can_next blocks }
    ensures asked_for_characters { (characters : List ℕ) → ⟦<StrippedChars<'static> as Iterator>⟧.can_next characters }
    ensures asked_from_the_back { (characters : List ℕ) → ⟦<StrippedChars<'static> as DoubleEndedIterator>⟧.can_next_back characters }
    ensures left { (blocks : List Block) → ⟦<AnsiBlockIter<'static> as Iterator>⟧.remaining blocks ≡ item_count (λ (blocks : List Block). blocks) blocks }
    ensures characters_left { (characters : List ℕ) → ⟦<StrippedChars<'static> as Iterator>⟧.remaining characters ≡ item_count (λ (characters : List ℕ). characters) characters }
    ensures blocks { (before after : List Block) (given : Option Block) →
        ⟦<AnsiBlockIter<'static> as Iterator>⟧.next_gives before given after →
        YieldsFirst (λ (blocks : List Block). blocks) before given after }
    ensures characters { (before after : List ℕ) (given : Option ℕ) → ⟦<StrippedChars<'static> as Iterator>⟧.next_gives before given after →
        YieldsFirst (λ (characters : List ℕ). characters) before given after }
    ensures from_the_back { (before after : List ℕ) (given : Option ℕ) →
        ⟦<StrippedChars<'static> as DoubleEndedIterator>⟧.next_back_gives before given after →
        YieldsLast (λ (characters : List ℕ). characters) before given after }
{}
