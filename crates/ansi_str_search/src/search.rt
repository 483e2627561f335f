//! Searches in what a text shows, which is not built for them: none allocates.
ghost use Rattle.std.specs.Prelude.{◌≡◌, ◌≤◌, ◌+◌, ◌↔◌, IsTrue, drop, length};
ghost use Rattle.std.specs.Str.{IsCharBoundary};
ghost use Rattle.ansi_scan.specs.Pieces.{pieces as pieces_of};
ghost use Rattle.ansi_scan.specs.Sequences.{ForPieces};
ghost use Rattle.ansi_str_search.specs.Text.StyledText.{strip};
ghost use Rattle.ansi_str_search.specs.Parts.{from_place};
ghost use Rattle.ansi_str_search.specs.PartsLeft.{begins_with, first_match};
ghost use Rattle.ansi_str_search.specs.Searches.{BeginsWith, EndsWith, IsFound, IsFoundWhere};
ghost use Rattle.ansi_str_search.specs.Walking.{begins_with_escape, shared_len};

use crate::matches::{behind_sequences, find_byte, first_character};
use crate::places::{behind_item, split_item, text_len};
use ansi_scan::{ESC, Kind};

/// Whether a character begins at this byte of what the text shows, or what it shows ends there.
pub fn is_char_boundary(text: &str, index: usize) -> bool
    ensures { ForPieces text.now (λ pieces. IsTrue result ↔ IsCharBoundary (strip pieces) index) }
{
    behind_place(text, index).is_some()
}

/// Whether what the text shows begins with the pattern.
pub fn starts_with(text: &str, pattern: &str) -> bool
    ensures { ForPieces text.now (λ pieces. IsTrue result ↔ BeginsWith pattern.now (strip pieces)) }
{
    shows_first(text, pattern)
}

// The same, as a test of the pieces that are computed.
fn shows_first(text: &str, pattern: &str) -> bool
    ensures { result ≡ begins_with pattern.now (strip (pieces_of text.now)) }
{
    let mut rest = text;
    let mut left = pattern.as_bytes();
    while !left.is_empty() {
        let len = shared_len(left, rest.as_bytes());
        let (_, others) = left.split_at(len);
        left = others;
        if !left.is_empty() {
            if !is_escape_at(rest, len) {
                return false;
            }
            rest = behind_item(&rest[len..]);
        }
    }
    true
}

/// Whether what the text shows ends with the pattern.
pub fn ends_with(text: &str, pattern: &str) -> bool
    ensures { ForPieces text.now (λ pieces. IsTrue result ↔ EndsWith pattern.now (strip pieces)) }
{
    find_end(text, pattern).is_some()
}

/// How many bytes the text shows before the pattern, where what it shows ends with that, else none.
pub fn find_end(text: &str, pattern: &str) -> Option<usize>
    ensures { let shown = strip (pieces_of text.now) in
        IsFoundWhere (EndsWith pattern.now shown) (λ n. (n + length pattern.now ≡ length shown) × IsCharBoundary shown n) result }
{
    let len = shown_len(text);
    if len < pattern.len() {
        return None;
    }
    let n = len - pattern.len();
    let Some(rest) = behind_place(text, n) else {
        return None;
    };
    if shows_first(rest, pattern) {
        Some(n)
    } else {
        None
    }
}

/// The first byte of what the text shows at which the pattern occurs, and none where it does not occur.
pub fn find(text: &str, pattern: &str) -> Option<usize>
    ensures { ForPieces text.now (λ pieces. IsFound pattern.now (strip pieces) result) }
{
    match pattern.as_bytes() {
        [] => Some(0),
        [byte] if byte.is_ascii() => find_byte(text, *byte),
        _ => find_at_characters(text, pattern),
    }
}

// The same, by a comparison at each character.
fn find_at_characters(text: &str, pattern: &str) -> Option<usize>
    ensures { result ≡ first_match pattern.now 0 (strip (pieces_of text.now)) }
{
    let mut rest = behind_sequences(text);
    let mut passed = 0;
    while !shows_first(rest, pattern) {
        let len = first_character(rest)?;
        passed += len;
        rest = behind_sequences(&rest[len..]);
    }
    Some(passed)
}

/// The text after `n` bytes of what it shows. None where no character begins there and what it shows does
/// not end there.
pub fn behind_place(text: &str, n: usize) -> Option<&str>
    ensures { IsFoundWhere (IsCharBoundary (strip (pieces_of text.now)) n) (λ rest. pieces_of rest.now ≡ from_place n (pieces_of text.now)) result }
{
    let mut rest = text;
    let mut left = n;
    while left > 0 {
        let len = text_len(rest, left);
        if !rest.is_char_boundary(len) {
            return None;
        }
        rest = &rest[len..];
        left -= len;
        if left > 0 {
            if rest.is_empty() {
                return None;
            }
            rest = behind_item(rest);
        }
    }
    Some(rest)
}

/// How many bytes the text shows.
pub(crate) fn shown_len(text: &str) -> usize
    ensures { result ≡ length (strip (pieces_of text.now)) }
{
    let mut rest = text;
    let mut len = 0;
    while let Some((kind, bytes, behind)) = split_item(rest) {
        if let Kind::Text = kind {
            len += bytes.len();
        }
        rest = behind;
    }
    len
}

// How many of the first bytes are the same, and not ESC.
fn shared_len(pattern: &[u8], text: &[u8]) -> usize
    ensures value { result ≡ shared_len pattern.now text.now }
    ensures in_pattern { result ≤ length pattern.now }
{
    for (i, byte) in pattern.iter().enumerate() {
        if *byte == ESC || text.get(i) != Some(byte) {
            return i;
        }
    }
    pattern.len()
}

// Whether the byte at this place is ESC.
fn is_escape_at(text: &str, at: usize) -> bool
    ensures { result ≡ begins_with_escape (drop at text.now) }
{
    match text.as_bytes().get(at) {
        Some(byte) => *byte == ESC,
        None => false,
    }
}
