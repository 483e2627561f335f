//! The width of a text that shows printable ASCII alone: each byte takes one column.
ghost use Rattle.std.specs.Prelude.{◌≡◌, MatchOption, chars, false};
ghost use Rattle.ansi_scan.specs.Pieces.{pieces};
ghost use Rattle.ansi_str.specs.StyledText.{strip};
ghost use Rattle.grid_records_measure.specs.Measures.{are_printable, measure};

use ansi_scan::{Kind, scan};

/// The columns that the text takes without its sequences, where it shows printable ASCII alone; else `None`.
pub(crate) fn printable_width(text: &str) -> Option<usize>
    ensures { MatchOption result (are_printable (strip (pieces text.now)) ≡ false) (λ width. width ≡ measure (chars (strip (pieces text.now)))) }
{
    let mut width = 0;
    let mut rest = text;
    while let Some(item) = scan(rest).next() {
        if let Kind::Text = item.kind {
            let shown = &rest[..item.end];
            if !is_printable(shown) {
                return None;
            }
            width += shown.len();
        }
        rest = &rest[item.end..];
    }
    Some(width)
}

/// Whether each byte of a text is printable ASCII, which takes one column. Each byte is looked at, so that many are
/// compared at a time. Does not allocate.
pub fn is_printable(text: &str) -> bool
    ensures { result ≡ are_printable text.now }
{
    let mut printable = true;
    for byte in text.as_bytes() {
        printable &= matches!(*byte, b' '..=b'~');
    }
    printable
}
