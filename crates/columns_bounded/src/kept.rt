//! A writer that keeps bytes up to a limit.
ghost use Rattle.std.specs.Io.{WritesAtMost};
ghost use Rattle.std.specs.Option.{ForSome};
ghost use Rattle.std.specs.Io.KnownBytes.{Keeps, WriteAppends};
ghost use Rattle.std.specs.Prelude.{◌≡◌, ◌⊎◌, ◌+◌, ◌-◌, ◌<◌, ◌≤◌, ◌++◌, ◌∷◌, [], IfErr, IfNone, IfOk, IfSome, IsOk, OnErr, OnOk, Some, length, max, min, take, vec_capacity, vec_len};

use std::alloc::{AllocError, Global};
use std::io;
use std::io::{ErrorKind, Write};

/// Keeps bytes up to a limit. It takes one byte more, by which it is known that there are too many, and then none.
#[derive(Drop)]
pub(crate) struct Kept {
    bytes: Vec<u8>,
    most: usize,
    past: Option<u8>,
    ghost within: { length bytes.items ≤ most },
    ghost full: { ForSome past (λ _. length bytes.items ≡ most) },
}

impl Kept {
    ghost use Rattle.columns_bounded.specs.Kept.{held_of, taken_of};

    /// A writer that keeps at most so many bytes. Does not allocate.
    pub(crate) fn new(alloc: Global, most: usize) -> Kept
        ensures { held_of result ≡ most ∷ [] }
    {
        Kept {
            bytes: Vec::new(alloc),
            most,
            past: None,
        }
    }

    /// All bytes that it took, or none if these are more than it may keep.
    pub(crate) fn into_whole(self) -> Option<Vec<u8>>
        ensures some { IfSome result (λ bytes. (bytes.items ≡ taken_of self) × (length bytes.items ≤ self.most)) }
        ensures none { IfNone result (self.most < length (taken_of self)) }
    {
        let Kept {
            bytes,
            most: _,
            past,
        } = self;
        match past {
            Some(_) => None,
            None => Some(bytes),
        }
    }

    // Takes the first of these bytes, if none was taken after those that are kept. Returns how many it took.
    fn take_past(&mut self, buf: &[u8]) -> usize
        requires { length self.old.bytes.items ≡ self.old.most }
        ensures bound { result ≤ length buf.now }
        ensures bytes { held_of self.new ≡ held_of self.old ++ take result buf.now }
        ensures takes { result ≡ min (length buf.now) (self.old.most + 1 - length (taken_of self.old)) }
    {
        match (self.past, buf.first()) {
            (None, Some(first)) => {
                self.past = Some(*first);
                1
            }
            _ => 0,
        }
    }
}

impl Write for Kept {
    ghost use Rattle.std.specs.IoError.{error_kind};
    ghost use Rattle.columns_bounded.specs.Kept.{held_of, taken_of};

    ghost contents = { λ writer. Some (held_of writer) };

    fn write(&mut self, buf: &[u8]) -> io::Result<usize>
        ensures bound { WritesAtMost result buf.now }
        ensures bytes { WriteAppends (Some (held_of self.old)) (Some (held_of self.new)) result buf.now }
        ensures takes { IfOk result (λ count. count ≡ 0 → (buf.now ≡ []) ⊎ (self.old.most < length (taken_of self.old))) }
        ensures kind { IfErr result (λ error. error_kind error ≡ ErrorKind.OutOfMemory) }
    {
        let most = self.most;
        let left = most - self.bytes.len();
        if left == 0 {
            return Ok(self.take_past(buf));
        }
        let count = buf.len().min(left);
        keep(&mut self.bytes, &buf[..count], most)?;
        Ok(count)
    }

    fn flush(&mut self) -> io::Result<()>
        ensures bytes { Keeps (Some (held_of self.old)) (Some (held_of self.new)) }
        ensures ok { IsOk result }
    {
        Ok(())
    }
}

// Keeps these bytes too, in memory for no more than `most`.
fn keep(kept: &mut Vec<u8>, bytes: &[u8], most: usize) -> Result<(), AllocError>
    requires { length kept.old.items + length bytes.now ≤ most }
    ensures ok { OnOk result (kept.new.items ≡ kept.old.items ++ bytes.now) }
    ensures err { OnErr result (kept.new.items ≡ kept.old.items) }
{
    reserve(kept, bytes.len(), most)?;
    kept.extend_from_slice(bytes)
}

// Reserves memory for so many further bytes: for as many again as are kept, if that is more and no more than `most`.
fn reserve(kept: &mut Vec<u8>, count: usize, most: usize) -> Result<(), AllocError>
    requires { length kept.old.items + count ≤ most }
    ensures items { kept.new.items ≡ kept.old.items }
    ensures ok { OnOk result (vec_len kept.old + count ≤ vec_capacity kept.new) }
    ensures most { vec_capacity kept.new ≤ max (vec_capacity kept.old) most }
{
    let len = kept.len();
    if kept.capacity() - len >= count {
        return Ok(());
    }
    kept.reserve_exact(len.max(count).min(most - len))
}
