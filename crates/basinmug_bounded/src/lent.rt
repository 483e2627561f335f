//! A writer that is lent.
ghost use Rattle.std.specs.Io.{WritesAtMost};
ghost use Rattle.std.specs.Io.KnownBytes.{Keeps, WriteAppends};
ghost use Rattle.std.specs.Prelude.{◌≡◌, ◌-◌, ℕ, IsOk, Ok, length, min};
ghost use Rattle.bounded_output.specs.Held.{limit_of, taken_of};
ghost use Rattle.basinmug_bounded.specs.Lent.{left_of, lent_of};

use bounded_output::Bounded;
use std::io;
use std::io::Write;

/// A writer that takes what its limit leaves, and never fails.
pub(crate) trait Limited: Write {
    /// How many bytes it still takes.
    ghost left: { Self → ℕ };

    /// Writes bytes, as many as it still takes.
    fn write_within(&mut self, buf: &[u8]) -> io::Result<usize>
        ensures bound { WritesAtMost result buf.now }
        ensures bytes { WriteAppends (Self.contents self.old) (Self.contents self.new) result buf.now }
        ensures takes { result ≡ Ok (min (length buf.now) (left self.old)) };

    /// Flushes, which never fails.
    fn flush_within(&mut self) -> io::Result<()>
        ensures bytes { Keeps (Self.contents self.old) (Self.contents self.new) }
        ensures ok { IsOk result };
}

impl Limited for Bounded<'_> {
    ghost left = { λ writer. limit_of writer - length (taken_of writer) };

    fn write_within(&mut self, buf: &[u8]) -> io::Result<usize> {
        self.write(buf)
    }

    fn flush_within(&mut self) -> io::Result<()> {
        self.flush()
    }
}

/// A limited writer that is lent: what is written to it, that one takes.
#[derive(Drop)]
pub(crate) struct Lent<'a, W> {
    pub(crate) writer: &'a mut W,
}

impl<W: Limited> Write for Lent<'_, W> {
    ghost contents = { λ lent. lent_of W.contents lent };

    fn write(&mut self, buf: &[u8]) -> io::Result<usize>
        ensures bound { WritesAtMost result buf.now }
        ensures bytes { WriteAppends (lent_of W.contents self.old) (lent_of W.contents self.new) result buf.now }
        ensures takes { result ≡ Ok (min (length buf.now) (left_of W.left self.old)) }
    {
        self.writer.write_within(buf)
    }

    fn flush(&mut self) -> io::Result<()>
        ensures bytes { Keeps (lent_of W.contents self.old) (lent_of W.contents self.new) }
        ensures ok { IsOk result }
    {
        self.writer.flush_within()
    }
}
