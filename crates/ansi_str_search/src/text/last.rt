//! The last sequence of a text, found from the end.
//!
//! A look is a read of one byte. To find the last ESC each byte after it is looked at once, and to
//! find the end of what begins there once more. Where that ESC may end a string, each byte before it
//! is looked at once up to the next ESC, and once more to see how far the item there goes. That happens
//! once to each of them. With the look at a character that is given, that makes five at most.
ghost use Rattle.std.specs.Prelude.{◌≡◌, ◌==◌, ◌<◌, [], ◌++◌, false, MatchOption, IfSome, chars, length, slice_index};
ghost use Rattle.std.specs.Str.{IsCharBoundary};
ghost use Rattle.ansi_scan.specs.Pieces.{leading_piece};
ghost use Rattle.ansi_str_search.specs.Text.StyledText.{has_escape};
ghost use Rattle.ansi_str_search.specs.Text.Characters.{shown_chars};
ghost use Rattle.ansi_str_search.specs.Text.Last.{IsLastEscape, IsLastSequence};

use ansi_scan::{ESC, scan};

/// The text before its last item of text, and that item, which is empty where the text shows nothing.
pub(crate) fn split_last_text(text: &str) -> (&str, &str)
    ensures shown { shown_chars text.now ≡ shown_chars result.0.now ++ chars result.1.now }
    ensures empty { result.1.now ≡ [] → shown_chars result.0.now ≡ [] }
{
    let mut rest = text;
    while !rest.is_empty() {
        let (before, shown) = split_last(rest);
        if !shown.is_empty() {
            return (before, shown);
        }
        rest = before;
    }
    ("", "")
}

// The text before its last sequence, and the text after that.
fn split_last(text: &str) -> (&str, &str)
    requires { 0 < length text.now }
    ensures shown { shown_chars text.now ≡ shown_chars result.0.now ++ chars result.1.now }
    ensures shorter { length result.0.now < length text.now }
{
    let Some(start) = last_sequence(text) else {
        return ("", text);
    };
    let sequence = &text[start..];
    (&text[..start], &sequence[first_len(sequence)..])
}

// Where the last sequence of the text, or broken ESC, begins.
fn last_sequence(text: &str) -> Option<usize>
    ensures { MatchOption result (has_escape text.now ≡ false) (IsLastSequence text.now) }
{
    let last = last_escape(text)?;
    if !is_backslash_at(text, last + 1) {
        return Some(last);
    }
    // it may end a string, which then begins at the ESC before it
    match last_escape(&text[..last]) {
        Some(opened) if opened + first_len(&text[opened..]) > last => Some(opened),
        _ => Some(last),
    }
}

// Whether the byte at this place is the `\` that with ESC before it ends a string.
fn is_backslash_at(text: &str, at: usize) -> bool
    ensures { result ≡ (slice_index text.now at == 0x5c) }
{
    match text.as_bytes().get(at) {
        Some(byte) => *byte == b'\\',
        None => false,
    }
}

// Where the last ESC of the text is.
fn last_escape(text: &str) -> Option<usize>
    ensures found { MatchOption result (has_escape text.now ≡ false) (IsLastEscape text.now) }
    ensures cut { IfSome result (IsCharBoundary text.now) }
{
    text.rfind(ESC as char)
}

// The length of the first item.
fn first_len(text: &str) -> usize
    requires { 0 < length text.now }
    ensures value { result ≡ (leading_piece text.now).1 }
    ensures cut { IsCharBoundary text.now result }
{
    match scan(text).next() {
        Some(item) => item.end,
        None => 0,
    }
}
