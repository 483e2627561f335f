//! Control characters, made visible, and those that turn the order of others.
ghost use Rattle.std.specs.Prelude.{◌≡◌, ◌+◌, ◌<◌, ◌++◌, OnOk, string_bytes};
ghost use Rattle.basinmug_input.specs.Cleaning.{is_turned, is_turning, ordered_char, visible_char};

use program_options::basinmug::Escapes;
use std::alloc::AllocError;

/// What a character becomes that has no picture: REPLACEMENT CHARACTER.
const REPLACEMENT: char = '\u{fffd}';

/// Appends a character, or where it is a control character what is shown for it: its picture (Unicode, Control
/// Pictures), or REPLACEMENT CHARACTER where it has none; that also for a control that turns the order of others
/// (Unicode, Standard Annex #9), but where all escapes take effect. Fails only where allocation fails.
pub fn push_ordered(out: &mut String, escapes: Escapes, c: char) -> Result<(), AllocError>
    ensures { OnOk result (string_bytes out.new ≡ string_bytes out.old ++ ordered_char escapes c) }
{
    if is_turned(escapes, c) {
        return out.push(REPLACEMENT);
    }
    push_visible(out, c)
}

/// Whether a character turns the order of others where it may not.
pub(crate) fn is_turned(escapes: Escapes, c: char) -> bool
    ensures { result ≡ is_turned escapes c }
{
    match escapes {
        Escapes::All => false,
        Escapes::Colors => is_turning(c),
        Escapes::None => is_turning(c),
    }
}

// Whether a character turns the order of others.
fn is_turning(c: char) -> bool
    ensures { result ≡ is_turning c }
{
    ('\u{202a}' <= c && c <= '\u{202e}') || ('\u{2066}' <= c && c <= '\u{2069}')
}

// The same, where that may turn the order.
fn push_visible(out: &mut String, c: char) -> Result<(), AllocError>
    ensures { OnOk result (string_bytes out.new ≡ string_bytes out.old ++ visible_char c) }
{
    match c {
        '\u{7f}' => out.push('\u{2421}'),
        '\u{80}'..='\u{9f}' => out.push(REPLACEMENT),
        _ if c < ' ' => out.push(control_picture(c)),
        _ => out.push(c),
    }
}

// The picture of a control character of C0.
fn control_picture(control: char) -> char
    requires { control < 32 }
    ensures { result ≡ 0x2400 + control }
{
    char::from_u32(0x2400 + control as u32).unwrap_or(REPLACEMENT)
}
