//! A reader or a writer that keeps why it failed.
ghost use Rattle.std.specs.Io.{ReadsAtMost, WritesAtMost};
ghost use Rattle.std.specs.Io.KnownBytes.{Keeps, ReadConsumes, WriteAppends};
ghost use Rattle.std.specs.Prelude.{◌≡◌};
ghost use Rattle.basinmug.specs.Kept.{error_after, error_of, stream_of};

use std::io::{self, Read, Write};

/// Passes each call on to a reader or a writer, and keeps the last error that it returned.
#[derive(Drop)]
pub struct Kept<S> {
    stream: S,
    error: Option<io::Error>,
}

impl<S> Kept<S> {
    /// Keeps the errors of `stream` from here on.
    pub fn new(stream: S) -> Kept<S>
        ensures stream { stream_of result ≡ stream }
        ensures error { error_of result ≡ None }
    {
        Kept {
            stream,
            error: None,
        }
    }

    /// The last error, if there was one.
    pub fn error(&self) -> Option<io::Error>
        ensures { result ≡ error_of self.now }
    {
        self.error
    }
}

impl<R: Read> Read for Kept<R> {
    ghost remaining = { λ kept. R.remaining (stream_of kept) };

    fn read(&mut self, buf: &mut [u8]) -> io::Result<usize>
        ensures bound { ReadsAtMost result buf.new }
        ensures bytes { ReadConsumes (R.remaining (stream_of self.old)) (R.remaining (stream_of self.new)) result buf.new }
        ensures error { error_of self.new ≡ error_after result (error_of self.old) }
    {
        let answer = self.stream.read(buf);
        if let Err(error) = &answer {
            self.error = Some(*error);
        }
        answer
    }
}

impl<W: Write> Write for Kept<W> {
    ghost contents = { λ kept. W.contents (stream_of kept) };

    fn write(&mut self, buf: &[u8]) -> io::Result<usize>
        ensures bound { WritesAtMost result buf.now }
        ensures bytes { WriteAppends (W.contents (stream_of self.old)) (W.contents (stream_of self.new)) result buf.now }
        ensures error { error_of self.new ≡ error_after result (error_of self.old) }
    {
        let answer = self.stream.write(buf);
        if let Err(error) = &answer {
            self.error = Some(*error);
        }
        answer
    }

    fn flush(&mut self) -> io::Result<()>
        ensures bytes { Keeps (W.contents (stream_of self.old)) (W.contents (stream_of self.new)) }
        ensures error { error_of self.new ≡ error_after result (error_of self.old) }
    {
        let answer = self.stream.flush();
        if let Err(error) = &answer {
            self.error = Some(*error);
        }
        answer
    }
}
