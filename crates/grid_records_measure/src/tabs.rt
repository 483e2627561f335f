//! Tabs of a text.
ghost use Rattle.std.specs.Prelude.{◌≡◌, ◌++◌, IfOk, IsOk, IsTrue, OnOk, false, string_bytes};
ghost use Rattle.std.specs.Cow.{IsOwnedStr, cow_str_bytes};
ghost use Rattle.ansi_scan.specs.Sequences.{ForPieces};
ghost use Rattle.ansi_scan.specs.Pieces.{pieces as pieces_of};
ghost use Rattle.ansi_str.specs.StyledText.{strip};
ghost use Rattle.grid_records_measure.specs.Tabs.{has_tab, put_for_tabs, tabs_replaced};

use ansi_scan::{Kind, scan};
use ansi_str::get_blocks;
use std::alloc::{AllocError, Global};
use std::borrow::CowStr;

/// The text with `n` spaces in the place of each tab that it shows; its sequences stay as they are. Where
/// it shows no tab it is returned as a borrow, without allocating; else it fails only where allocation
/// fails.
pub fn replace_tab<'a>(alloc: Global, text: &'a str, n: usize) -> Result<CowStr<'a>, AllocError>
    ensures replaces { IfOk result (λ out. ForPieces text.now (λ pieces. cow_str_bytes out ≡ tabs_replaced n pieces)) }
    ensures answers { ForPieces text.now (λ pieces. has_tab (strip pieces) ≡ false → IsOk result) }
    ensures borrows { IfOk result (λ out. IsOwnedStr out → ForPieces text.now (λ pieces. IsTrue (has_tab (strip pieces)))) }
{
    if !shows_tab(text) {
        return Ok(CowStr::Borrowed(text));
    }
    Ok(CowStr::Owned(with_spaces(alloc, text, n)?))
}

// Whether a text shows a tab.
fn shows_tab(text: &str) -> bool
    ensures { result ≡ has_tab (strip (pieces_of text.now)) }
{
    for block in get_blocks(text) {
        if has_tab(block.text()) {
            return true;
        }
    }
    false
}

// Whether a text without sequences has a tab.
fn has_tab(text: &str) -> bool
    ensures { result ≡ has_tab text.now }
{
    text.as_bytes().contains(&b'\t')
}

// The text with `n` spaces in the place of each tab that it shows.
fn with_spaces(alloc: Global, text: &str, n: usize) -> Result<String, AllocError>
    ensures { IfOk result (λ out. string_bytes out ≡ tabs_replaced n (pieces_of text.now)) }
{
    let spaces = " ".repeat(alloc, n)?;
    let mut out = String::with_capacity(alloc, text.len())?;
    for item in scan(text) {
        let bytes = &text[item.start..item.end];
        match item.kind {
            Kind::Text => push_with(&mut out, bytes, &spaces)?,
            _ => out.push_str(bytes)?,
        }
    }
    Ok(out)
}

// Appends a text without sequences, with `put` in the place of each tab.
fn push_with(out: &mut String, text: &str, put: &str) -> Result<(), AllocError>
    ensures { OnOk result (string_bytes out.new ≡ string_bytes out.old ++ put_for_tabs put.now text.now) }
{
    let mut rest = text;
    while let Some((before, behind)) = rest.split_once('\t') {
        out.push_str(before)?;
        out.push_str(put)?;
        rest = behind;
    }
    out.push_str(rest)
}
