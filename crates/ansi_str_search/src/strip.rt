//! A text without its sequences.
ghost use Rattle.std.specs.Prelude.{◌≡◌, IfOk, IsOk, false, string_bytes};
ghost use Rattle.std.specs.Cow.{cow_str_bytes};
ghost use Rattle.ansi_scan.specs.Sequences.{ForPieces};
ghost use Rattle.ansi_str_search.specs.Text.StyledText.{BorrowsWithoutEscape, has_escape, strip};

use ansi_scan::{ESC, Kind, scan};
use std::alloc::{AllocError, Global};
use std::borrow::CowStr;

/// The text without its sequences: its items of text, joined. A text without ESC is answered by a
/// borrow, without allocating; else it fails only where allocation fails.
pub fn strip_text<'a>(alloc: Global, text: &'a str) -> Result<CowStr<'a>, AllocError>
    ensures strips { IfOk result (λ out. ForPieces text.now (λ pieces. cow_str_bytes out ≡ strip pieces)) }
    ensures answers { has_escape text.now ≡ false → IsOk result }
    ensures borrows { IfOk result (BorrowsWithoutEscape text.now) }
{
    if !has_escape(text) {
        return Ok(CowStr::Borrowed(text));
    }
    Ok(CowStr::Owned(joined_texts(alloc, text)?))
}

// The text items, joined.
fn joined_texts(alloc: Global, text: &str) -> Result<String, AllocError>
    ensures { IfOk result (λ out. ForPieces text.now (λ pieces. string_bytes out ≡ strip pieces)) }
{
    let mut out = String::with_capacity(alloc, text.len())?;
    for item in scan(text) {
        if let Kind::Text = item.kind {
            out.push_str(&text[item.start..item.end])?;
        }
    }
    Ok(out)
}

/// Whether the text holds an ESC. Does not allocate.
pub fn has_escape(text: &str) -> bool
    ensures { result ≡ has_escape text.now }
{
    text.as_bytes().contains(&ESC)
}
