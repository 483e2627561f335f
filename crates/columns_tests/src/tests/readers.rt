//! A reader for tests.
use std::io;
use std::io::{ErrorKind, Read};

/// Gives its bytes one a call, and fails at the call of number `bad_call`, counted from 1.
#[derive(Drop)]
pub struct ByteReader<'a> {
    rest: &'a [u8],
    calls: usize,
    bad_call: usize,
    kind: ErrorKind,
}

impl<'a> ByteReader<'a> {
    /// A reader that never fails.
    pub(crate) fn new(bytes: &'a [u8]) -> ByteReader<'a> {
        ByteReader::failing(bytes, 0, ErrorKind::Other)
    }

    /// A reader that fails once, with an error of this kind.
    pub(crate) fn failing(bytes: &'a [u8], bad_call: usize, kind: ErrorKind) -> ByteReader<'a> {
        ByteReader {
            rest: bytes,
            calls: 0,
            bad_call,
            kind,
        }
    }
}

impl Read for ByteReader<'_> {
    fn read(&mut self, buf: &mut [u8]) -> io::Result<usize> {
        self.calls = self.calls.wrapping_add(1);
        if self.calls == self.bad_call {
            return Err(io::Error::from(self.kind));
        }
        let Some((first, rest)) = self.rest.split_first() else {
            return Ok(0);
        };
        if buf.is_empty() {
            return Ok(0);
        }
        buf[0] = *first;
        self.rest = rest;
        Ok(1)
    }
}
