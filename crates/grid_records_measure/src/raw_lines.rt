//! The lines of a text, byte for byte, between the line feeds that it shows.
ghost use Rattle.std.specs.Prelude.{◌≡◌, ◌<◌, ◌∷◌, IfSome, length};
ghost use Rattle.std.specs.List.{prefix_len};
ghost use Rattle.ansi_scan.specs.Pieces.{pieces};
ghost use Rattle.ansi_str.specs.StyledText.{strip};
ghost use Rattle.ansi_str.specs.Walking.{is_other};
ghost use Rattle.grid_records_measure.specs.TextLines.{line_feed, shown_lines};
ghost use Rattle.grid_records_measure.specs.RawLines.{IsFromLineFeed, IsLineAndRest, lines_behind};

use ansi_scan::ESC;
use ansi_str_search::{begins_with_escape, behind_item};
use memchr::memchr2;

/// The first line of a text, byte for byte, and the rest after its line feed. Where the text shows no line
/// feed, the line is the whole text. Does not allocate.
pub fn split_line(text: &str) -> (&str, Option<&str>)
    ensures parted { IsLineAndRest text.now result.0.now result.1 }
    ensures lines { shown_lines (pieces text.now) ≡ strip (pieces result.0.now) ∷ lines_behind result.1 }
    ensures shorter { IfSome result.1 (λ rest. length rest.now < length text.now) }
{
    let rest = from_line_feed(text);
    let line = &text[..text.len() - rest.len()];
    if rest.is_empty() {
        return (line, None);
    }
    (line, Some(&rest[1..]))
}

// The text from the first line feed on that it shows; empty where it shows none.
fn from_line_feed(text: &str) -> &str
    ensures { IsFromLineFeed text.now result.now }
{
    let mut rest = &text[run_len(text)..];
    while begins_with_escape(rest) {
        rest = behind_item(rest);
        rest = &rest[run_len(rest)..];
    }
    rest
}

// How many bytes come before the first ESC or line feed; all of them where there is neither.
fn run_len(text: &str) -> usize
    ensures value { result ≡ prefix_len (is_other line_feed) text.now }
{
    match memchr2(ESC, b'\n', text.as_bytes()) {
        Some(len) => len,
        None => text.len(),
    }
}
