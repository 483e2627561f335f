//! A writer for tests of tables that are written.
use std::alloc::Global;
use std::io;
use std::io::{ErrorKind, Write};

/// Accepts at most `step` bytes a call, and fails at the call of number `bad_call`, counted from 1: writes
/// and flushes are calls.
#[derive(Drop)]
pub struct StepWriter {
    pub taken: Vec<u8>,
    pub calls: usize,
    step: usize,
    bad_call: usize,
    kind: ErrorKind,
    room: usize,
}

impl StepWriter {
    /// A writer that never fails where `bad_call` is 0.
    pub fn new(alloc: Global, step: usize, bad_call: usize) -> StepWriter {
        StepWriter::failing(alloc, step, bad_call, ErrorKind::Other)
    }

    /// The same, which fails with an error of this kind.
    pub fn failing(alloc: Global, step: usize, bad_call: usize, kind: ErrorKind) -> StepWriter {
        StepWriter {
            taken: Vec::new(alloc),
            calls: 0,
            step,
            bad_call,
            kind,
            room: usize::MAX,
        }
    }

    /// A writer that never fails, and accepts this many bytes in all, and then nothing.
    pub fn filling(alloc: Global, step: usize, room: usize) -> StepWriter {
        let mut writer = StepWriter::new(alloc, step, 0);
        writer.room = room;
        writer
    }

    fn call(&mut self) -> io::Result<()> {
        self.calls = self.calls.wrapping_add(1);
        if self.calls == self.bad_call {
            return Err(io::Error::from(self.kind));
        }
        Ok(())
    }
}

impl Write for StepWriter {
    fn write(&mut self, buf: &[u8]) -> io::Result<usize> {
        self.call()?;
        let count = buf.len().min(self.step).min(self.room);
        self.taken.extend_from_slice(&buf[..count])?;
        self.room -= count;
        Ok(count)
    }

    fn flush(&mut self) -> io::Result<()> {
        self.call()
    }
}
