//! Texts that are wrapped between words.
ghost use Rattle.std.specs.Prelude.{◌≡◌, ◌++◌, ◌∷◌, [], ℕ, IfOk, List, OnOk, false, string_bytes, true};
ghost use Rattle.std.specs.List.{filter, list_all};
ghost use Rattle.ansi_str.specs.StyledText.{has_escape};
ghost use Rattle.grid_records_measure.specs.TextLines.{text_lines};
ghost use Rattle.basinmug_columns.specs.Fitting.Fitting.{wrapped_line, is_not_blank, joined_lines, line_if, wrap_words};

use crate::fitting::changing::{LineChange, change_lines, is_plain_line};
use ansi_str::stripped_chars;
use ansi_str_search::has_escape;
use grid_records_measure::{get_lines, split_line};
use std::alloc::{AllocError, Global};
use tabled_size_wrap::{wrap_only_line, wrap_styled};

/// A text whose lines are wrapped at so many columns, between words where these fit. A line that would show nothing but
/// the spaces at which it was wrapped is left out. Fails only where allocation fails.
pub fn wrap_words(alloc: Global, text: &str, room: usize) -> Result<String, AllocError>
    ensures { IfOk result (λ out. string_bytes out ≡ wrap_words room text.now) }
{
    if is_plain_line(text) {
        return wrapped_whole(alloc, text, room);
    }
    change_lines(alloc, text, &Wrapping { room })
}

// Each line is wrapped at so many columns.
#[derive(Drop)]
struct Wrapping {
    room: usize,
}

impl LineChange for Wrapping {
    ghost becomes = { λ wrapping. wrapped_line wrapping.room };

    fn changed(&self, alloc: Global, line: &str) -> Result<String, AllocError> {
        wrapped_line(alloc, line, self.room)
    }
}

// A line that is wrapped, of whose lines those stay that show something; an empty text where none does.
fn wrapped_line(alloc: Global, line: &str, room: usize) -> Result<String, AllocError>
    ensures { IfOk result (λ out. string_bytes out ≡ wrapped_line room line.now) }
{
    let wrapped = wrap_styled(alloc, line, room, true)?;
    without_blank_lines(alloc, wrapped)
}

// The same of a text that is its only line, whose lines need not be looked for.
fn wrapped_whole(alloc: Global, text: &str, room: usize) -> Result<String, AllocError>
    requires { text_lines text.now ≡ text.now ∷ [] }
    ensures { IfOk result (λ out. string_bytes out ≡ wrapped_line room text.now) }
{
    let wrapped = wrap_only_line(alloc, text, room, true)?;
    without_blank_lines(alloc, wrapped)
}

// A text without the lines that show nothing but spaces. One without ESC that has none of these stays.
fn without_blank_lines(alloc: Global, text: String) -> Result<String, AllocError>
    ensures { IfOk result (λ out. string_bytes out ≡ joined_lines (filter is_not_blank (text_lines (string_bytes text)))) }
{
    if !has_escape(&text) && each_line_shows(&text) {
        return Ok(text);
    }
    joined_seen(alloc, &text)
}

// Whether each line of a text without ESC shows something but spaces.
fn each_line_shows(text: &str) -> bool
    requires { has_escape text.now ≡ false }
    ensures { result ≡ list_all is_not_blank (text_lines text.now) }
{
    let mut left = Some(text);
    while let Some(rest) = left {
        let (line, after) = split_line(rest);
        if !plain_line_shows(line) {
            return false;
        }
        left = after;
    }
    true
}

// The same of a line without ESC: whether it has a byte that is no space.
fn plain_line_shows(line: &str) -> bool
    requires { has_escape line.now ≡ false }
    ensures { result ≡ is_not_blank line.now }
{
    for byte in line.as_bytes() {
        let byte = *byte;
        if byte != b' ' {
            return true;
        }
    }
    false
}

// The lines of a text that show something, with a line feed between each two.
fn joined_seen(alloc: Global, text: &str) -> Result<String, AllocError>
    ensures { IfOk result (λ out. string_bytes out ≡ joined_lines (filter is_not_blank (text_lines text.now))) }
{
    let mut out = String::with_capacity(alloc, text.len())?;
    for line in get_lines(alloc, text) {
        let line = line?;
        push_seen_line(&mut out, &line)?;
    }
    Ok(out)
}

// Appends a line to lines that show something, if it does too, after a line feed where it is not the first.
fn push_seen_line(out: &mut String, line: &str) -> Result<(), AllocError>
    ensures { OnOk result ((lines : List (List ℕ)) → list_all is_not_blank lines ≡ true → string_bytes out.old ≡ joined_lines lines →
        string_bytes out.new ≡ joined_lines (lines ++ line_if (is_not_blank line.now) line.now)) }
{
    if !is_not_blank(line) {
        return Ok(());
    }
    if !out.is_empty() {
        out.push('\n')?;
    }
    out.push_str(line)
}

// Whether a line shows something but spaces.
fn is_not_blank(line: &str) -> bool
    ensures { result ≡ is_not_blank line.now }
{
    for c in stripped_chars(line) {
        if c != ' ' {
            return true;
        }
    }
    false
}
