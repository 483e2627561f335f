//! The text of a field as a table shows it.
ghost use Rattle.std.specs.Prelude.{◌≡◌, ◌==◌, ◌&&◌, ◌++◌, [], not, if◌then◌else◌, IfOk, OnOk, string_bytes, chars};
ghost use Rattle.std.specs.List.{list_all};
ghost use Rattle.ansi_scan.specs.Joining.{is_text_kind};
ghost use Rattle.csv.specs.Machine.{carriage_return, line_feed};
ghost use Rattle.basinmug_input.specs.Cleaning.{always_stays, cleaned, cleaned_char, cleaned_piece, cleaned_text, is_control, is_dropped, is_kept, is_shown, stands_by_colors, stays};

use crate::renditions::is_kept_rendition;
use crate::visible::{is_turned, push_ordered};
use ansi_scan::{Kind, scan};
use program_options::basinmug::Escapes;
use std::alloc::{AllocError, Global};

/// What a tab becomes.
const TAB: &str = "    ";

/// A text with its control characters made visible. Of its sequences those that are asked for stay as they are; of any
/// other each ESC is made visible too.
pub(crate) fn cleaned(alloc: Global, escapes: Escapes, text: &str) -> Result<String, AllocError>
    ensures { IfOk result (λ out. string_bytes out ≡ cleaned escapes text.now) }
{
    let mut out = String::with_capacity(alloc, text.len())?;
    for item in scan(text) {
        push_item(&mut out, escapes, item.kind, &text[item.start..item.end])?;
    }
    Ok(out)
}

// Appends what becomes of an item.
fn push_item(out: &mut String, escapes: Escapes, kind: Kind, bytes: &str) -> Result<(), AllocError>
    ensures { OnOk result (string_bytes out.new ≡ string_bytes out.old ++ cleaned_piece escapes (record { kind = kind; bytes = bytes.now })) }
{
    if is_kept(escapes, kind, bytes) {
        return out.push_str(bytes);
    }
    if is_dropped(escapes, bytes) {
        return Ok(());
    }
    push_cleaned(out, escapes, bytes)
}

// Whether an item stays as it is.
fn is_kept(escapes: Escapes, kind: Kind, bytes: &str) -> bool
    ensures { result ≡ is_kept escapes (record { kind = kind; bytes = bytes.now }) }
{
    match escapes {
        Escapes::All => !is_text(kind),
        Escapes::Colors => is_kept_rendition(bytes.as_bytes()),
        Escapes::None => false,
    }
}

// Whether an item is text.
fn is_text(kind: Kind) -> bool
    ensures { result ≡ is_text_kind kind }
{
    match kind {
        Kind::Text => true,
        _ => false,
    }
}

// Whether an item goes.
fn is_dropped(escapes: Escapes, bytes: &str) -> bool
    ensures { result ≡ is_dropped escapes bytes.now }
{
    match escapes {
        Escapes::All => false,
        Escapes::Colors => stands_by_colors(bytes),
        Escapes::None => false,
    }
}

// Whether programs write this beside colours, though it sets none.
fn stands_by_colors(bytes: &str) -> bool
    ensures { result ≡ stands_by_colors bytes.now }
{
    bytes == "\u{1b}[K" || bytes == "\u{1b}[0K" || bytes == "\u{1b}(B"
}

// Appends a text, its control characters made visible.
fn push_cleaned(out: &mut String, escapes: Escapes, text: &str) -> Result<(), AllocError>
    ensures { OnOk result (string_bytes out.new ≡ string_bytes out.old ++ cleaned_text escapes (chars text.now)) }
{
    if all_stay(escapes, text) {
        return out.push_str(text);
    }
    push_characters(out, escapes, text)
}

// Whether all characters of a text stay as they are.
fn all_stay(escapes: Escapes, text: &str) -> bool
    ensures { result ≡ list_all (stays escapes) (chars text.now) }
{
    text.chars().all(|c| stays(escapes, c))
}

/// Whether all characters of a text are shown as they are, on one line.
pub(crate) fn are_shown(escapes: Escapes, text: &str) -> bool
    ensures { result ≡ list_all (is_shown escapes) (chars text.now) }
{
    text.chars().all(|c| is_shown(escapes, c))
}

// Whether a character is shown as it is, on the line that it is on.
fn is_shown(escapes: Escapes, c: char) -> bool
    ensures { result ≡ is_shown escapes c }
{
    !is_control(c) && !is_turned(escapes, c)
}

// Whether a character stays as it is.
fn stays(escapes: Escapes, c: char) -> bool
    ensures { result ≡ stays escapes c }
{
    (!is_control(c) || c == '\n') && !is_turned(escapes, c)
}

// Whether a character is of C0 or of C1, or DELETE.
fn is_control(c: char) -> bool
    ensures { result ≡ is_control c }
{
    c < ' ' || ('\u{7f}'..'\u{a0}').contains(&c)
}

// Appends a text, character by character. A carriage return waits until the character after it is known.
fn push_characters(out: &mut String, escapes: Escapes, text: &str) -> Result<(), AllocError>
    ensures { OnOk result (string_bytes out.new ≡ string_bytes out.old ++ cleaned_text escapes (chars text.now)) }
{
    let mut waits = false;
    for c in text.chars() {
        push_return(out, escapes, waits, c)?;
        push_other(out, escapes, c)?;
        waits = c == '\r';
    }
    if waits {
        return push_cleaned_char(out, escapes, '\r');
    }
    Ok(())
}

// Appends the carriage return that waits, if one does, unless this character after it is a line feed.
fn push_return(out: &mut String, escapes: Escapes, waits: bool, c: char) -> Result<(), AllocError>
    ensures { OnOk result (string_bytes out.new ≡ string_bytes out.old ++ (if waits && not (c == line_feed) then cleaned_char escapes carriage_return else [])) }
{
    if waits && c != '\n' {
        return push_cleaned_char(out, escapes, '\r');
    }
    Ok(())
}

// Appends a character, if it is no carriage return.
fn push_other(out: &mut String, escapes: Escapes, c: char) -> Result<(), AllocError>
    ensures { OnOk result (string_bytes out.new ≡ string_bytes out.old ++ (if c == carriage_return then [] else cleaned_char escapes c)) }
{
    if c == '\r' {
        return Ok(());
    }
    push_cleaned_char(out, escapes, c)
}

// Appends what a character becomes.
fn push_cleaned_char(out: &mut String, escapes: Escapes, c: char) -> Result<(), AllocError>
    ensures { OnOk result (string_bytes out.new ≡ string_bytes out.old ++ cleaned_char escapes c) }
{
    match c {
        '\n' => out.push('\n'),
        '\t' => out.push_str(TAB),
        _ => push_ordered(out, escapes, c),
    }
}
