//! What may come before the records of a text.
ghost use Rattle.std.specs.Prelude.{◌≡◌, ◌≤◌, OnSome, length};
ghost use Rattle.basinmug_delimiter.specs.Bytes.{is_line_end};
ghost use Rattle.basinmug_delimiter.specs.Preamble.{begins_naming, text_after_mark, can_delimit, ends_line, is_mark, named_delimiter, tells_mark};

/// The bytes without a byte order mark at the start.
pub(crate) fn without_mark(bytes: &[u8]) -> &[u8]
    ensures text { result.now ≡ text_after_mark bytes.now }
    ensures within { length result.now ≤ length bytes.now }
{
    match bytes {
        [a, b, c, rest @ ..] if is_mark(*a, *b, *c) => rest,
        _ => bytes,
    }
}

// Whether these bytes are U+FEFF BYTE ORDER MARK in UTF-8.
fn is_mark(a: u8, b: u8, c: u8) -> bool
    ensures { result ≡ is_mark a b c }
{
    a == 0xef && b == 0xbb && c == 0xbf
}

/// Whether bytes show if a byte order mark is at the start of a text that begins with them. They do not where they are
/// a prefix of it that lacks bytes.
pub fn tells_mark(bytes: &[u8]) -> bool
    ensures { result ≡ tells_mark bytes.now }
{
    match bytes {
        [] => false,
        [a] => *a != 0xef,
        [a, b] => !(*a == 0xef && *b == 0xbb),
        _ => true,
    }
}

/// The byte that a first line `sep=C` names, as spreadsheets write it.
pub(crate) fn named_delimiter(text: &[u8]) -> Option<u8>
    ensures named { result ≡ named_delimiter text.now }
    ensures long { OnSome result (5 ≤ length text.now) }
{
    match text {
        [a, b, c, d, byte, rest @ ..]
            if begins_naming(*a, *b, *c, *d) && can_delimit(*byte) && ends_line(rest) => {
            Some(*byte)
        }
        _ => None,
    }
}

// Whether these bytes are `sep=`.
fn begins_naming(a: u8, b: u8, c: u8, d: u8) -> bool
    ensures { result ≡ begins_naming a b c d }
{
    a == b's' && b == b'e' && c == b'p' && d == b'='
}

// Whether a byte can separate fields.
fn can_delimit(byte: u8) -> bool
    ensures { result ≡ can_delimit byte }
{
    byte.is_ascii() && byte != b'"' && byte != b'\n' && byte != b'\r'
}

// Whether a line ends before these bytes.
fn ends_line(rest: &[u8]) -> bool
    ensures { result ≡ ends_line rest.now }
{
    match rest {
        [] => true,
        [byte, ..] => is_line_end(*byte),
    }
}

/// Whether a byte ends a line.
pub(crate) fn is_line_end(byte: u8) -> bool
    ensures { result ≡ is_line_end byte }
{
    byte == b'\r' || byte == b'\n'
}
