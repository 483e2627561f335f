//! A writer that ends pages.
ghost use Rattle.std.specs.Prelude.{◌≤◌, length};

use std::io;
use std::io::Write;

/// Writes a text on to another writer, with a form feed before each page except the first. A call writes no more than
/// what still fits on the page.
#[derive(Drop)]
pub struct Pages<W> {
    inner: W,
    lines: usize,
    lines_left: usize,
}

impl<W> Pages<W> {
    /// Writes to `inner`, `lines` lines a page.
    pub fn new(inner: W, lines: usize) -> Pages<W> {
        Pages {
            inner,
            lines,
            lines_left: lines,
        }
    }
}

impl<W: Write> Write for Pages<W> {
    fn write(&mut self, buf: &[u8]) -> io::Result<usize> {
        if self.lines_left == 0 && !buf.is_empty() {
            self.inner.write_all(b"\x0c")?;
            self.lines_left = self.lines;
        }
        let count = self.inner.write(first_lines(buf, self.lines_left))?;
        let ended = line_feeds(&buf[..count]);
        self.lines_left = self.lines_left.saturating_sub(ended);
        Ok(count)
    }

    fn flush(&mut self) -> io::Result<()> {
        self.inner.flush()
    }
}

// The first lines, as many of these as there are.
fn first_lines(bytes: &[u8], lines: usize) -> &[u8]
    ensures { length result.now ≤ length bytes.now }
{
    let mut left = lines;
    for (at, byte) in bytes.iter().enumerate() {
        if *byte == b'\n' {
            left = left.saturating_sub(1);
            if left == 0 {
                return &bytes[..at + 1];
            }
        }
    }
    bytes
}

// The number of lines that end.
fn line_feeds(bytes: &[u8]) -> usize {
    bytes.iter().filter(|byte| **byte == b'\n').count()
}
