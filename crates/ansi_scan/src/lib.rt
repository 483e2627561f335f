//! The items of a text that may hold control sequences (ECMA-48): what is text, and what is a
//! control sequence. And the styles that its sequences of SELECT GRAPHIC RENDITION set.
#![tactic(auto)]

ghost use Rattle.std.specs.Prelude.{◌≡◌, ◌≤◌, ◌↔◌, List, All, IfSome, IsNone, IsTrue, find, length};
ghost use Rattle.std.specs.Option.{option_map};
ghost use Rattle.ansi_scan.specs.Sequences.{Piece, ArePiecesOf, IsWhole, IsFirstBroken};
ghost use Rattle.ansi_scan.specs.Places.{AreItemsOf, CanBeCutAround, is_broken};
ghost use Rattle.ansi_scan.specs.Reads.{reads_over};
ghost use Rattle.ansi_scan.specs.Scan.{items_left, reads_in_all, reads_taken, text_length};

mod items;
pub mod laws;
mod sequences;
mod style;

pub use items::{Item, Kind, Scan};
pub use sequences::ESC;
pub use style::{AnsiColor, AnsiSequenceEnd, AnsiSequenceStart, Color, RESET_ALL, Style};

/// The items of a text in order, each with the bytes at which it begins and ends.
/// Together they cover the text, and a text can be cut at each place. Does not allocate.
/// The forms are the seven-bit ones of ECMA-48. It makes at most three reads of each byte, which
/// `Scan::looks` counts.
pub fn scan(text: &str) -> Scan<'_>
    ensures items { AreItemsOf text.now (items_left result) }
    ensures cuts { All (CanBeCutAround text.now) (items_left result) }
    ensures count { length (items_left result) ≤ length text.now }
    ensures text { text_length result ≡ length text.now }
    ensures reads { (ps : List Piece) → ArePiecesOf text.now ps → reads_in_all result ≡ reads_over ps }
    ensures none_taken { reads_taken result ≡ 0 }
{
    Scan::new(text.as_bytes())
}

/// Whether no item of the text is `Kind::Broken`. Does not allocate.
pub fn is_whole(text: &str) -> bool
    ensures { IsTrue result ↔ IsWhole text.now }
{
    first_broken(text).is_none()
}

/// The byte at which the first `Kind::Broken` item of the text begins, or `None` where the text is
/// whole. Does not allocate.
pub fn first_broken(text: &str) -> Option<usize>
    ensures broken { IfSome result (IsFirstBroken text.now) }
    ensures whole { IsNone result ↔ IsWhole text.now }
{
    first_broken_start(scan(text))
}

// Where the first `Kind::Broken` of the items begins.
fn first_broken_start(mut items: Scan<'_>) -> Option<usize>
    ensures { result ≡ option_map (λ item. item.start) (find is_broken (items_left items.entry)) }
{
    items
        .find(|item| item.kind == Kind::Broken)
        .map(|item| item.start)
}
