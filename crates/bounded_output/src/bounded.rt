//! A writer into memory that may be too little.
ghost use Rattle.std.specs.Io.{WritesAtMost};
ghost use Rattle.std.specs.Io.KnownBytes.{Keeps, WriteAppends};
ghost use Rattle.std.specs.Prelude.{◌≡◌, ◌≤◌, ◌+◌, ◌-◌, ◌<◌, ◌^◌, [], IsOk, Ok, Some, length, min};
ghost use Rattle.bounded_output.specs.Filled.{filled};

use crate::filling::fill_from;
use crate::noted::Noted;
use std::io::Write;
use std::{io, mem};

/// Takes bytes up to a limit, counts them, and writes them into memory from its start, as many as fit. It allocates
/// nothing.
#[derive(Drop)]
pub struct Bounded<'a> {
    out: &'a mut [u8],
    count: usize,
    left: usize,
    before: Noted,
    taken: Noted,
    ghost counted: { count ≡ length taken.bytes },
    ghost written: { out.now ≡ filled before.bytes taken.bytes },
    ghost in_range: { count + left < 2 ^ 64 },
}

impl<'a> Bounded<'a> {
    ghost use Rattle.bounded_output.specs.Held.{limit_of, memory_of, name_of, taken_of};

    /// A writer into `out` that takes at most `limit` bytes.
    pub fn new(out: &'a mut [u8], limit: usize) -> Bounded<'a>
        ensures name { name_of result ≡ out.entry.ghost_name }
        ensures limit { limit_of result ≡ limit }
        ensures memory { memory_of result ≡ out.old }
        ensures taken { taken_of result ≡ [] }
    {
        let before = Noted::and(&Noted::none(), out);
        Bounded {
            out,
            count: 0,
            left: limit,
            before,
            taken: Noted::none(),
        }
    }

    /// How many bytes it took, at most its limit. What is written stays.
    pub fn into_count(self) -> usize
        ensures count { result ≡ length (taken_of self.entry) }
        ensures limit { result ≤ limit_of self.entry }
        ensures memory { self.exit.0.now ≡ filled (memory_of self.entry) (taken_of self.entry) }
    {
        let Bounded {
            out: _,
            count,
            left: _,
            before: _,
            taken: _,
        } = self;
        count
    }
}

/// A write takes what the limit leaves, and never fails.
impl Write for Bounded<'_> {
    ghost use Rattle.bounded_output.specs.Held.{held_of, limit_of, taken_of};

    ghost contents = { λ writer. Some (held_of writer) };

    fn write(&mut self, buf: &[u8]) -> io::Result<usize>
        ensures bound { WritesAtMost result buf.now }
        ensures bytes { WriteAppends (Some (held_of self.old)) (Some (held_of self.new)) result buf.now }
        ensures takes { result ≡ Ok (min (length buf.now) (limit_of self.old - length (taken_of self.old))) }
    {
        let count = buf.len().min(self.left);
        let piece = &buf[..count];
        let taken = Noted::and(&self.taken, piece);
        let out = mem::take(&mut self.out);
        fill_from(out, self.count, piece);
        self.out = out;
        self.taken = taken;
        self.count += count;
        self.left -= count;
        Ok(count)
    }

    fn flush(&mut self) -> io::Result<()>
        ensures bytes { Keeps (Some (held_of self.old)) (Some (held_of self.new)) }
        ensures ok { IsOk result }
    {
        Ok(())
    }
}
