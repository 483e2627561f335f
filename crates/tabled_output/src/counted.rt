//! A reader or a writer whose calls are counted.
ghost use Rattle.std.specs.Prelude.{◌≡◌, ◌<◌, ◌^◌};
ghost use Rattle.std.specs.Io.{ReadsAtMost, WritesAtMost};
ghost use Rattle.std.specs.Io.KnownBytes.{Keeps, ReadConsumes, WriteAppends};

use std::io;
use std::io::{Read, Write};

/// Passes each call to a reader or a writer. It counts the calls that returned an error and the writes that took
/// nothing. A count of 64 bits wraps: after the greatest comes 0.
///
/// For contracts it also counts the reads that gave bytes and those that gave none, the writes of an empty piece,
/// and the flushes. Of the last call it keeps whether it was refused, and whether it was a read that gave no byte. A
/// call is refused where it returned an error, or was a write that took no byte of a piece that had some.
#[derive(Drop)]
pub struct Counted<T> {
    inner: T,
    failures: u64,
    empty_writes: u64,
    writes_of_nothing: u64,
    pieces_read: u64,
    ends: u64,
    flushes: u64,
    last_refused: bool,
    last_told_end: bool,
    pub ghost in_range: { pieces_read < 2 ^ 64 },
}

impl<T> Counted<T> {
    ghost use Rattle.std.specs.Prelude.{false, true};
    ghost use Rattle.tabled_output.specs.Counts.{inner_of, failures_of, empty_writes_of, writes_of_nothing_of, pieces_read_of, ends_of, flushes_of, last_refused, last_told_end, next_count};

    /// Counts the calls of `inner` from here on.
    pub fn new(inner: T) -> Counted<T>
        ensures inner { inner_of result ≡ inner }
        ensures failures { failures_of result ≡ 0 }
        ensures empty_writes { empty_writes_of result ≡ 0 }
        ensures writes_of_nothing { writes_of_nothing_of result ≡ 0 }
        ensures pieces_read { pieces_read_of result ≡ 0 }
        ensures ends { ends_of result ≡ 0 }
        ensures flushes { flushes_of result ≡ 0 }
        ensures last_refused { last_refused result ≡ false }
        ensures last_told_end { last_told_end result ≡ false }
    {
        Counted {
            inner,
            failures: 0,
            empty_writes: 0,
            writes_of_nothing: 0,
            pieces_read: 0,
            ends: 0,
            flushes: 0,
            last_refused: false,
            last_told_end: false,
        }
    }

    /// How many calls returned an error of any kind: reads, writes and flushes.
    pub fn failures(&self) -> u64
        ensures { result ≡ failures_of self.now }
    {
        self.failures
    }

    /// How many writes took no byte of a piece that had some.
    pub fn empty_writes(&self) -> u64
        ensures { result ≡ empty_writes_of self.now }
    {
        self.empty_writes
    }

    /// Returns the reader or the writer.
    pub fn into_inner(self) -> T
        ensures { result ≡ inner_of self }
    {
        let Counted {
            inner,
            failures: _,
            empty_writes: _,
            writes_of_nothing: _,
            pieces_read: _,
            ends: _,
            flushes: _,
            last_refused: _,
            last_told_end: _,
        } = self;
        inner
    }

    fn count_failure(&mut self)
        ensures { self.new ≡ record self.old { failures = next_count (failures_of self.old); last_refused = true } }
    {
        self.failures = self.failures.wrapping_add(1);
        self.last_refused = true;
    }

    fn count_end(&mut self)
        ensures { self.new ≡ record self.old { ends = next_count (ends_of self.old); last_told_end = true } }
    {
        self.ends = self.ends.wrapping_add(1);
        self.last_told_end = true;
    }

    fn count_empty_write(&mut self)
        ensures { self.new ≡ record self.old { empty_writes = next_count (empty_writes_of self.old); last_refused = true } }
    {
        self.empty_writes = self.empty_writes.wrapping_add(1);
        self.last_refused = true;
    }
}

impl<R: Read> Read for Counted<R> {
    ghost use Rattle.tabled_output.specs.Counts.{inner_of, failures_of, empty_writes_of, writes_of_nothing_of, pieces_read_of, ends_of, flushes_of};
    ghost use Rattle.tabled_output.specs.Counts.{last_refused, last_told_end, failures_after, is_refused, pieces_after, ends_after, tells_end};

    ghost remaining = { λ c. R.remaining (inner_of c) };

    fn read(&mut self, buf: &mut [u8]) -> io::Result<usize>
        ensures bound { ReadsAtMost result buf.new }
        ensures bytes { ReadConsumes (R.remaining (inner_of self.old))
            (R.remaining (inner_of self.new)) result buf.new }
        ensures failures { failures_of self.new ≡ failures_after result (failures_of self.old) }
        ensures last_refused { last_refused self.new ≡ is_refused result }
        ensures last_told_end { last_told_end self.new ≡ tells_end result }
        ensures pieces_read { pieces_read_of self.new ≡ pieces_after result (pieces_read_of self.old) }
        ensures ends { ends_of self.new ≡ ends_after result (ends_of self.old) }
        ensures empty_writes { empty_writes_of self.new ≡ empty_writes_of self.old }
        ensures writes_of_nothing { writes_of_nothing_of self.new ≡ writes_of_nothing_of self.old }
        ensures flushes { flushes_of self.new ≡ flushes_of self.old }
    {
        let answer = self.inner.read(buf);
        self.last_refused = false;
        self.last_told_end = false;
        match &answer {
            Ok(0) => self.count_end(),
            Ok(_) => self.pieces_read = self.pieces_read.wrapping_add(1),
            Err(_) => self.count_failure(),
        }
        answer
    }
}

impl<W: Write> Write for Counted<W> {
    ghost use Rattle.std.specs.Prelude.{false};
    ghost use Rattle.tabled_output.specs.Counts.{inner_of, failures_of, empty_writes_of, writes_of_nothing_of, pieces_read_of, ends_of, flushes_of};
    ghost use Rattle.tabled_output.specs.Counts.{last_refused, last_told_end, failures_after, is_refused, is_write_refused, empty_writes_after};
    ghost use Rattle.tabled_output.specs.Counts.{writes_of_nothing_after, next_count};

    ghost contents = { λ c. W.contents (inner_of c) };

    fn write(&mut self, buf: &[u8]) -> io::Result<usize>
        ensures bound { WritesAtMost result buf.now }
        ensures bytes { WriteAppends (W.contents (inner_of self.old))
            (W.contents (inner_of self.new)) result buf.now }
        ensures failures { failures_of self.new ≡ failures_after result (failures_of self.old) }
        ensures last_refused { last_refused self.new ≡ is_write_refused result buf.now }
        ensures last_told_end { last_told_end self.new ≡ false }
        ensures empty_writes { empty_writes_of self.new
            ≡ empty_writes_after result buf.now (empty_writes_of self.old) }
        ensures writes_of_nothing { writes_of_nothing_of self.new ≡ writes_of_nothing_after buf.now (writes_of_nothing_of self.old) }
        ensures pieces_read { pieces_read_of self.new ≡ pieces_read_of self.old }
        ensures ends { ends_of self.new ≡ ends_of self.old }
        ensures flushes { flushes_of self.new ≡ flushes_of self.old }
    {
        let answer = self.inner.write(buf);
        self.last_refused = false;
        self.last_told_end = false;
        if buf.is_empty() {
            self.writes_of_nothing = self.writes_of_nothing.wrapping_add(1);
        }
        match &answer {
            Ok(0) if !buf.is_empty() => self.count_empty_write(),
            Ok(_) => {}
            Err(_) => self.count_failure(),
        }
        answer
    }

    fn flush(&mut self) -> io::Result<()>
        ensures bytes { Keeps (W.contents (inner_of self.old)) (W.contents (inner_of self.new)) }
        ensures failures { failures_of self.new ≡ failures_after result (failures_of self.old) }
        ensures last_refused { last_refused self.new ≡ is_refused result }
        ensures last_told_end { last_told_end self.new ≡ false }
        ensures empty_writes { empty_writes_of self.new ≡ empty_writes_of self.old }
        ensures writes_of_nothing { writes_of_nothing_of self.new ≡ writes_of_nothing_of self.old }
        ensures pieces_read { pieces_read_of self.new ≡ pieces_read_of self.old }
        ensures ends { ends_of self.new ≡ ends_of self.old }
        ensures flushes { flushes_of self.new ≡ next_count (flushes_of self.old) }
    {
        let answer = self.inner.flush();
        self.flushes = self.flushes.wrapping_add(1);
        self.last_refused = false;
        self.last_told_end = false;
        if answer.is_err() {
            self.count_failure();
        }
        answer
    }
}
