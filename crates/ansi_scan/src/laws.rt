//! Laws of the definitions that the other contracts cite.

ghost use Rattle.std.specs.Prelude.{◌≡◌, ◌≤◌, ◌*◌, ◌↔◌, ℕ, List, Option, [], ◌∷◌, length, map, ◌++◌, IsSome, true};
ghost use Rattle.std.specs.Iterator.{YieldsFirst, item_count};
ghost use Rattle.ansi_scan.specs.declared.items.Item.{Item as OneItem};
ghost use Rattle.ansi_scan.specs.declared.items.Kind.{Kind as OneKind};
ghost use Rattle.ansi_scan.specs.declared.items.Scan.{Scan as OneScan};
ghost use Rattle.ansi_scan.specs.Scan.{items_left};
ghost use Rattle.ansi_scan.specs.Sequences.{Piece, ArePiecesOf, AreWholePiecesOf, IsWhole, IsFirstBroken, IsSgr};
ghost use Rattle.ansi_scan.specs.Pieces.{pieces};
ghost use Rattle.ansi_scan.specs.Places.{placed, piece_at};
ghost use Rattle.ansi_scan.specs.Joining.{put_all_before};
ghost use Rattle.ansi_scan.specs.Reads.{reads_over};
ghost use Rattle.ansi_scan.specs.Styles.Attributes.{Attributes};
ghost use Rattle.ansi_scan.specs.Styles.Rendition.{applied, sgr_parameters};

use crate::items::{Item, Kind, Scan};
pub use crate::style::laws::{
    bytes_are_few, bytes_are_sequences, clones_set_the_same, colors_have_their_names,
    end_clears_its_style, equal_colors_are_the_same, equal_styles_set_the_same, no_color_is_purple,
    parameters_are_numbers, parameters_in_order, plain_writes_nothing, reset_clears_all,
    sequence_form, sequences_give_renditions, start_reads_as_its_style,
    starts_and_ends_are_printed_whole,
};

/// Every list of bytes has one list of pieces, and a function gives it.
pub fn one_list()
    ensures exists { (text : List ℕ) → (ps : List Piece) × ArePiecesOf text ps }
    ensures unique { (text : List ℕ) (ps qs : List Piece) →
        ArePiecesOf text ps → ArePiecesOf text qs → ps ≡ qs }
    ensures computed { (text : List ℕ) → ArePiecesOf text (pieces text) }
{}

/// A text has one first Broken piece at most, and a whole text has none.
pub fn one_first_broken()
    ensures unique { (text : List ℕ) (at other : ℕ) →
        IsFirstBroken text at → IsFirstBroken text other → at ≡ other }
    ensures not_whole { (text : List ℕ) (at : ℕ) → IsFirstBroken text at → ¬ IsWhole text }
{}

/// Read again at their places, the pieces of a text are what they were.
pub fn read_at_places()
    ensures { (text : List ℕ) (ps : List Piece) →
        ArePiecesOf text ps → map (piece_at text) (placed 0 ps) ≡ ps }
{}

/// The pieces of a whole text and of any text after it are the pieces of both together, where
/// neighbouring Text pieces are made one. So two whole texts make a whole text.
pub fn whole_texts_join()
    ensures joins { (text other : List ℕ) (ps qs : List Piece) →
        AreWholePiecesOf text ps → ArePiecesOf other qs →
        ArePiecesOf (text ++ other) (put_all_before ps qs) }
    ensures whole { (text other : List ℕ) → IsWhole text → IsWhole other → IsWhole (text ++ other) }
{}

/// A scan makes three reads at most for each byte of its text. Of `a` it makes one; of ESC `[m` and `a` four;
/// of ESC `[` and ESC `[` eight, three at the ESC between them.
pub fn reads_are_few()
    ensures few { (text : List ℕ) (ps : List Piece) → ArePiecesOf text ps → reads_over ps ≤ 3 * length text }
    ensures plain { reads_over (pieces (0x61 ∷ [])) ≡ 1 }
    ensures sequence { reads_over (pieces (0x1b ∷ 0x5b ∷ 0x6d ∷ 0x61 ∷ [])) ≡ 4 }
    ensures broken { reads_over (pieces (0x1b ∷ 0x5b ∷ 0x1b ∷ 0x5b ∷ [])) ≡ 8 }
{}

/// The sequences that a style reads are those of the kind Sgr, and no other bytes change it.
pub fn renditions_apply()
    ensures same { (bytes : List ℕ) → IsSgr bytes ↔ IsSome (sgr_parameters bytes) }
    ensures other { (a : Attributes) (bytes : List ℕ) → ¬ IsSgr bytes → applied a bytes ≡ a }
{}

/// `==` of kinds and of items is equality, all of their parts compared.
pub fn equal_items_are_the_same()
    ensures kinds { (a b : OneKind) → (⟦<Kind as PartialEq>⟧.eq a b ≡ true) ↔ (a ≡ b) }
    ensures items { (a b : OneItem) → (⟦<Item as PartialEq>⟧.eq a b ≡ true) ↔ (a ≡ b) }
{}

/// A clone of a kind or of an item is the same, and is never refused.
pub fn clones_of_items_are_the_same()
    ensures kinds { (source clone : OneKind) → ⟦<Kind as Clone>⟧.is_clone source clone → clone ≡ source }
    ensures items { (source clone : OneItem) → ⟦<Item as Clone>⟧.is_clone source clone → clone ≡ source }
    ensures kinds_come { (source : OneKind) → ⟦<Kind as Clone>⟧.is_infallible source }
    ensures items_come { (source : OneItem) → ⟦<Item as Clone>⟧.is_infallible source }
{}

/// The items of a text come one after the other, and then none. The next may be requested at any time. No
/// more are left than are still to come.
pub fn items_come_in_their_order()
    ensures asked { (items : OneScan) → ⟦<Scan<'static> as Iterator>⟧.can_next items }
    ensures left { (items : OneScan) → ⟦<Scan<'static> as Iterator>⟧.remaining items ≡ item_count items_left items }
    ensures next { (before after : OneScan) (given : Option OneItem) → ⟦<Scan<'static> as Iterator>⟧.next_gives before given after → YieldsFirst items_left before given after }
{}
