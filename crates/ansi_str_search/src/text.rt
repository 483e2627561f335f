//! The text of a text with escape sequences (ECMA-48), item by item, without allocating.

ghost use Rattle.std.specs.Prelude.{◌≡◌, ◌≤◌, chars, length};
ghost use Rattle.ansi_scan.specs.Sequences.{ForPieces};
ghost use Rattle.ansi_scan.specs.Attributes.{plain_attributes};
ghost use Rattle.ansi_str_search.specs.Text.StyledText.{strip};
ghost use Rattle.ansi_str_search.specs.Text.Blocks.{blocks_from};

mod blocks;
mod characters;
mod last;
pub mod laws;

pub use blocks::{AnsiBlock, AnsiBlockIter};
pub use characters::StrippedChars;

/// The blocks of a text: one for each of its items of text, with the style known before it. Does
/// not allocate.
pub fn get_blocks(text: &str) -> AnsiBlockIter<'_>
    ensures blocks { ForPieces text.now (λ pieces. result ≡ blocks_from plain_attributes pieces) }
    ensures count { length result ≤ length text.now }
{
    AnsiBlockIter::new(text)
}

/// The characters of a text without its sequences, from either end. Does not allocate.
pub fn stripped_chars(text: &str) -> StrippedChars<'_>
    ensures characters { ForPieces text.now (λ pieces. result ≡ chars (strip pieces)) }
    ensures count { length result ≤ length text.now }
{
    StrippedChars::new(text)
}
