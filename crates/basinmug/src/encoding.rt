//! The encoding that bytes may have which are no UTF-8.
ghost use Rattle.std.specs.Prelude.{◌≡◌};
ghost use Rattle.basinmug.specs.Encodings.{begins_utf16, begins_utf32, encoding_of};

use std::fmt;

/// An encoding that bytes may have which are no UTF-8.
#[derive(Clone, Copy, Debug, PartialEq, Eq)]
pub enum Encoding {
    /// UTF-16, in either order of bytes.
    Utf16,
    /// UTF-32, in either order of bytes.
    Utf32,
    /// A guess: the one of Windows in the west of Europe and in America.
    Windows1252,
}

/// What it is, and the command that makes UTF-8 of it.
impl fmt::Display for Encoding {
    ghost use Rattle.std.specs.Prelude.{Some};
    ghost use Rattle.basinmug.specs.Encodings.{encoding_text};

    ghost output = { λ encoding. Some (encoding_text encoding) };

    fn fmt<W: fmt::Write>(&self, f: &mut fmt::Formatter<W>) -> fmt::Result {
        match self {
            Encoding::Utf16 => write!(f, "UTF-16: iconv -f UTF-16 -t UTF-8"),
            Encoding::Utf32 => write!(f, "UTF-32: iconv -f UTF-32 -t UTF-8"),
            Encoding::Windows1252 => {
                write!(f, "perhaps WINDOWS-1252: iconv -f WINDOWS-1252 -t UTF-8")
            }
        }
    }
}

/// The encoding that bytes may have which are no UTF-8: UTF-32 or UTF-16 where they begin with its byte order mark. The
/// mark of UTF-32 is looked for first, since in one order of bytes it begins as that of UTF-16.
pub fn encoding_of(bytes: &[u8]) -> Encoding
    ensures { result ≡ encoding_of bytes.now }
{
    match bytes {
        [a, b, c, d, ..] if begins_utf32(*a, *b, *c, *d) => Encoding::Utf32,
        [a, b, ..] if begins_utf16(*a, *b) => Encoding::Utf16,
        _ => Encoding::Windows1252,
    }
}

// Whether these bytes are U+FEFF BYTE ORDER MARK in UTF-16.
fn begins_utf16(a: u8, b: u8) -> bool
    ensures { result ≡ begins_utf16 a b }
{
    (a == 0xff && b == 0xfe) || (a == 0xfe && b == 0xff)
}

// Whether these bytes are U+FEFF BYTE ORDER MARK in UTF-32.
fn begins_utf32(a: u8, b: u8, c: u8, d: u8) -> bool
    ensures { result ≡ begins_utf32 a b c d }
{
    (a == 0xff && b == 0xfe && c == 0 && d == 0) || (a == 0 && b == 0 && c == 0xfe && d == 0xff)
}
