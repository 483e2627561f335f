//! Whether a suffix clears what its prefix sets.
ghost use Rattle.std.specs.Prelude.{◌≡◌, ◌↔◌, IsTrue};
ghost use Rattle.ansi_scan.specs.Sequences.{ForPieces};
ghost use Rattle.ansi_str_search.specs.Text.StyledText.{style_after_all};
ghost use Rattle.grid_config.specs.Ansi.Closing.{AreSequences, Clears, Closes};

use ansi_scan::{Kind, Style, is_whole, scan};
use ansi_str_search::text::get_blocks;

/// Whether the prefix and the suffix are sequences, and the second clears what the first leaves.
pub(crate) fn closes(prefix: &str, suffix: &str) -> bool
    ensures { IsTrue result ↔ Closes (record { prefix = prefix.now; suffix = suffix.now }) }
{
    are_sequences(prefix)
        && are_sequences(suffix)
        && clears(style_behind(Style::plain(), prefix), suffix)
}

// Whether the text is whole and shows nothing.
fn are_sequences(text: &str) -> bool
    ensures { ForPieces text.now (λ pieces. IsTrue result ↔ AreSequences pieces) }
{
    is_whole(text) && get_blocks(text).next().is_none()
}

// Whether the text, read from plain and read from the style, ends plain.
fn clears(style: Style, text: &str) -> bool
    ensures { ForPieces text.now (λ pieces. IsTrue result ↔ Clears style pieces) }
{
    style_behind(Style::plain(), text).is_plain() && style_behind(style, text).is_plain()
}

// The style after a text, where this one is before it.
fn style_behind(before: Style, text: &str) -> Style
    ensures { ForPieces text.now (λ pieces. result ≡ style_after_all before pieces) }
{
    let mut style = before;
    for item in scan(text) {
        if let Kind::Sgr = item.kind {
            style = style.apply(&text[item.start..item.end]);
        }
    }
    style
}
