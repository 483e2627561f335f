//! Where a pattern matches first in what a text shows. A text can be cut at both ends of a match.
ghost use Rattle.std.specs.Prelude.{◌≡◌, ◌<◌, ◌≤◌, ◌+◌, [], ◌∷◌, false, IfSome, length};
ghost use Rattle.std.specs.List.{prefix_len};
ghost use Rattle.std.specs.Str.{IsCharBoundary};
ghost use Rattle.ansi_scan.specs.Pieces.{pieces};
ghost use Rattle.ansi_scan.specs.Sequences.{is_not_escape};
ghost use Rattle.ansi_str_search.specs.Text.StyledText.{strip};
ghost use Rattle.ansi_str_search.specs.PartsLeft.{first_match, passed_over};
ghost use Rattle.ansi_str_search.specs.Walking.{begins_with_escape, is_other};

use crate::places::{begins_with_escape, behind_item};
use ansi_scan::ESC;

/// How many bytes the text shows before the next match of the empty pattern: none, or those of a
/// character where a match comes right before the text.
pub(crate) fn find_empty(text: &str, begun: bool) -> Option<usize>
    ensures found { result ≡ first_match [] (passed_over begun []) (strip (pieces text.now)) }
    ensures ends { IfSome result (λ n. IsCharBoundary (strip (pieces text.now)) (n + 0)) }
{
    if begun {
        first_character(behind_sequences(text))
    } else {
        Some(0)
    }
}

/// How many bytes the first character has, of a text that does not begin with a sequence.
pub(crate) fn first_character(text: &str) -> Option<usize>
    requires { begins_with_escape text.now ≡ false }
    ensures found { result ≡ first_match [] 1 (strip (pieces text.now)) }
    ensures cut { IfSome result (λ n. IsCharBoundary text.now n) }
    ensures within { IfSome result (λ n. n ≤ prefix_len is_not_escape text.now) }
{
    if text.is_empty() {
        return None;
    }
    Some(text.ceil_char_boundary(1))
}

/// The text after the sequences that come first.
pub(crate) fn behind_sequences(text: &str) -> &str
    ensures shown { strip (pieces result.now) ≡ strip (pieces text.now) }
    ensures behind { begins_with_escape result.now ≡ false }
{
    let mut rest = text;
    while begins_with_escape(rest) {
        rest = behind_item(rest);
    }
    rest
}

/// How many bytes the text shows before the first such byte, an ASCII character.
pub(crate) fn find_byte(text: &str, byte: u8) -> Option<usize>
    requires { byte < 128 }
    ensures found { result ≡ first_match (byte ∷ []) 0 (strip (pieces text.now)) }
    ensures ends { IfSome result (λ n. IsCharBoundary (strip (pieces text.now)) (n + 1)) }
{
    let mut rest = text;
    let mut passed = 0;
    while !rest.is_empty() {
        let len = run_len(rest, byte);
        rest = &rest[len..];
        passed += len;
        if begins_with_escape(rest) {
            rest = behind_item(rest);
        } else if !rest.is_empty() {
            return Some(passed);
        }
    }
    None
}

/// How many bytes come before the first ESC and the first such byte, or all where neither comes.
pub fn run_len(text: &str, byte: u8) -> usize
    ensures value { result ≡ prefix_len (is_other byte) text.now }
{
    for (i, other) in text.as_bytes().iter().enumerate() {
        if *other == ESC || *other == byte {
            return i;
        }
    }
    text.len()
}

/// How many bytes come before the first match of the pattern.
pub(crate) fn find_text(text: &str, pattern: &str) -> Option<usize>
    ensures found { result ≡ first_match pattern.now 0 text.now }
    ensures ends { IfSome result (λ n. IsCharBoundary text.now (n + length pattern.now)) }
{
    text.find(pattern)
}
