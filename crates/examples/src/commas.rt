//! A reader that makes tabs of commas.
ghost use Rattle.std.specs.Prelude.{◌≡◌};
ghost use Rattle.std.specs.Option.{option_map};
ghost use Rattle.examples.specs.Commas.{tab_for, with_tabs};
ghost use Rattle.examples.specs.declared.commas.Commas.{Commas as Reader};

use std::io;
use std::io::Read;

/// The text of another reader, with a tab in place of each comma.
#[derive(Drop)]
pub struct Commas<R> {
    inner: R,
}

impl<R> Commas<R> {
    /// Reads from `inner`.
    pub fn new(inner: R) -> Commas<R> {
        Commas { inner }
    }
}

/// What is left is known where it is known of the other reader.
impl<R: Read> Read for Commas<R> {
    ghost remaining = { λ commas. option_map with_tabs (R.remaining commas.inner) };

    fn read(&mut self, buf: &mut [u8]) -> io::Result<usize> {
        let count = self.inner.read(buf)?;
        replace_commas(&mut buf[..count]);
        Ok(count)
    }
}

/// What is left to read is what is left of the reader below, with a tab in place of each comma.
pub fn commas_are_read_as_tabs<R: Read>()
    ensures { (commas : Reader R) → ⟦<Commas<R> as Read>⟧.remaining commas ≡ option_map with_tabs (R.remaining commas.inner) }
{}

// Puts a tab in place of each comma.
fn replace_commas(bytes: &mut [u8])
    ensures { bytes.new ≡ with_tabs bytes.old }
{
    for byte in bytes.iter_mut() {
        *byte = tab_for(*byte);
    }
}

// A tab for a comma, and any other byte as itself.
fn tab_for(byte: u8) -> u8
    ensures { result ≡ tab_for byte }
{
    if byte == b',' { b'\t' } else { byte }
}
