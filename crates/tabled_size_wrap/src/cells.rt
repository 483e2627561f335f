//! What becomes of a cell that is wrapped or cut at a width: definitions and laws alone.
//!
//! Laws of resized cells, each the contract of a function that does nothing.
ghost use Rattle.std.specs.Prelude.{◌≡◌, ℕ, List, chars, encode_utf8_all, map};
ghost use Rattle.ansi_scan.specs.Pieces.{pieces};
ghost use Rattle.ansi_scan.specs.Sequences.{Piece, ArePiecesOf};
ghost use Rattle.ansi_str.specs.StyledText.{strip, styled};
ghost use Rattle.papergrid_picture.specs.Shown.{IsWholeText, Styled, character_of, in_plain};
ghost use Rattle.tabled_size_wrap.specs.Cells.Resized.{IsResizedCell};
ghost use Rattle.tabled_size_wrap.specs.Cells.Resizing.{Resize, resized, resized_text};

/// A resized cell is the same as a text and as styled characters. What a resized whole text shows is the
/// resized list of the characters that the text shows, in their styles. U+FFFD and line feeds that are put in
/// have the plain style. The resized text is whole too.
pub fn resized_texts_show_resized_cells()
    ensures shown { (resize : Resize) (text : List ℕ) → IsWholeText text →
        styled (pieces (resized_text resize text)) ≡ resized character_of in_plain resize (styled (pieces text)) }
    ensures whole { (resize : Resize) (text : List ℕ) → IsWholeText text → IsWholeText (resized_text resize text) }
{}

/// What becomes of a cell, whatever walk finds it. One that is cut shows the longest prefix of it that fits, and
/// U+FFFD in the columns that are lacking. One that is wrapped shows, line by line, runs of its units; each run is
/// the longest that fits of what the ones before it left. The functions that walk give such a cell, and no other
/// cell is one. The same holds of whole texts, by what their pieces show.
pub fn resized_cells_are_longest_fronts_and_runs<X>()
    ensures meets { (character : X → ℕ) (bare : ℕ → X) (resize : Resize) (cell : List X) → IsResizedCell character bare resize cell (resized character bare resize cell) }
    ensures one { (character : X → ℕ) (bare : ℕ → X) (resize : Resize) (cell made : List X) →
        IsResizedCell character bare resize cell made → made ≡ resized character bare resize cell }
    ensures texts { (resize : Resize) (text : List ℕ) (ps qs : List Piece) → IsWholeText text → ArePiecesOf text ps → ArePiecesOf (resized_text resize text) qs →
        IsResizedCell character_of in_plain resize (styled ps) (styled qs) }
{}

/// Where a cell is wrapped or cut follows from its characters alone. Without its styles, a resized cell is the
/// resized list of its characters. So is a resized whole text without its sequences.
pub fn cells_are_resized_by_characters()
    ensures cells { (resize : Resize) (cell : List Styled) →
        map character_of (resized character_of in_plain resize cell) ≡ resized (λ c. c) (λ c. c) resize (map character_of cell) }
    ensures texts { (resize : Resize) (text : List ℕ) → IsWholeText text →
        strip (pieces (resized_text resize text)) ≡ encode_utf8_all (resized (λ c. c) (λ c. c) resize (chars (strip (pieces text)))) }
{}
