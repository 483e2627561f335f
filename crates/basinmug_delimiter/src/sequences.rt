//! Sequences SELECT GRAPHIC RENDITION (ECMA-48, 8.3.117) in bytes that may be no text.
ghost use Rattle.std.specs.List.{prefix_len};
ghost use Rattle.std.specs.Prelude.{◌≡◌, ◌+◌, ◌≤◌, length};
ghost use Rattle.ansi_scan.specs.Styles.Rendition.{is_numeric};
ghost use Rattle.basinmug_delimiter.specs.Sequences.{len_after_opener, opens, rendition_len};

use ansi_scan::ESC;

/// How many bytes the sequence at the start has; 0 where there is none.
pub(crate) fn rendition_len(bytes: &[u8]) -> usize
    ensures value { result ≡ rendition_len bytes.now }
    ensures bound { result ≤ length bytes.now }
{
    match bytes {
        [a, b, rest @ ..] if opens(*a, *b) => len_after_opener(rest),
        _ => 0,
    }
}

// Whether these bytes are ESC and `[`.
fn opens(a: u8, b: u8) -> bool
    ensures { result ≡ opens a b }
{
    a == ESC && b == b'['
}

// The same of a sequence after ESC and `[`, which count.
fn len_after_opener(rest: &[u8]) -> usize
    ensures value { result ≡ len_after_opener rest.now }
    ensures bound { result ≤ length rest.now + 2 }
{
    let parameters = numeric_len(rest);
    if rest.get(parameters) == Some(&b'm') {
        parameters + 3
    } else {
        0
    }
}

// How many bytes at the start are parameter bytes of such a sequence.
fn numeric_len(bytes: &[u8]) -> usize
    ensures count { result ≡ prefix_len is_numeric bytes.now }
    ensures bound { result ≤ length bytes.now }
{
    bytes.iter().take_while(|byte| is_numeric(**byte)).count()
}

// Whether a byte is a digit, `:` or `;`.
fn is_numeric(byte: u8) -> bool
    ensures { result ≡ is_numeric byte }
{
    (0x30..=0x3b).contains(&byte)
}
