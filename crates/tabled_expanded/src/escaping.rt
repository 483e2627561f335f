//! Texts whose controls, quotes and backslashes are escaped.
ghost use Rattle.std.specs.Prelude.{◌≡◌, ◌<◌, ◌++◌, ◌∷◌, [], IfOk, OnOk, map, option_copied, string_bytes};
ghost use Rattle.tabled_expanded.specs.Escapes.{escaped, escaped_char, hex, hex_digit, numbered, own_escape};
ghost use Rattle.tabled_text.specs.Fields.{texts_of};

use std::alloc::{AllocError, Global};
use std::borrow::CowStr;

/// These texts, each escaped. Fails only where allocation fails.
pub(crate) fn escaped_texts(
    alloc: Global,
    texts: Vec<CowStr<'_>>,
) -> Result<Vec<String>, AllocError>
    ensures { IfOk result (λ out. map string_bytes out.items ≡ map escaped (texts_of texts.entry.items)) }
{
    let mut out = Vec::with_capacity(alloc, texts.len())?;
    for text in texts {
        out.push(escaped_text(alloc, text.as_str())?)?;
    }
    Ok(out)
}

// A text, each of its characters escaped.
fn escaped_text(alloc: Global, text: &str) -> Result<String, AllocError>
    ensures { IfOk result (λ out. string_bytes out ≡ escaped text.now) }
{
    let mut out = String::with_capacity(alloc, text.len())?;
    for c in text.chars() {
        push_escaped(&mut out, c)?;
    }
    Ok(out)
}

// Appends the escape of a character.
fn push_escaped(out: &mut String, c: char) -> Result<(), AllocError>
    ensures { OnOk result (string_bytes out.new ≡ string_bytes out.old ++ escaped_char c) }
{
    match short_escape(c) {
        Some(escape) => out.push_str(escape),
        None => push_numbered(out, c),
    }
}

// The escape of a character that has one of its own.
fn short_escape(c: char) -> Option<&'static str>
    ensures { option_copied result ≡ own_escape c }
{
    match c {
        '\0' => Some("\\0"),
        '\t' => Some("\\t"),
        '\r' => Some("\\r"),
        '\n' => Some("\\n"),
        '\'' => Some("\\'"),
        '"' => Some("\\\""),
        '\\' => Some("\\\\"),
        _ => None,
    }
}

// Appends a character, a control as its number.
fn push_numbered(out: &mut String, c: char) -> Result<(), AllocError>
    ensures { OnOk result (string_bytes out.new ≡ string_bytes out.old ++ numbered c) }
{
    if c < ' ' || ('\u{7f}'..'\u{a0}').contains(&c) {
        out.push_str("\\u{")?;
        push_hex(out, c as u8)?;
        out.push_str("}")
    } else {
        out.push(c)
    }
}

// Appends a number in lower hexadecimal, without a leading 0.
fn push_hex(out: &mut String, number: u8) -> Result<(), AllocError>
    ensures { OnOk result (string_bytes out.new ≡ string_bytes out.old ++ hex number) }
{
    if number >= 16 {
        push_digit(out, number / 16)?;
    }
    push_digit(out, number % 16)
}

// Appends a digit of lower hexadecimal.
fn push_digit(out: &mut String, digit: u8) -> Result<(), AllocError>
    requires { digit < 16 }
    ensures { OnOk result (string_bytes out.new ≡ string_bytes out.old ++ hex_digit digit ∷ []) }
{
    let digit = if digit < 10 {
        b'0' + digit
    } else {
        b'a' - 10 + digit
    };
    out.push(digit as char)
}
