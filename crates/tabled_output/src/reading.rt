//! From a reader to bytes.
ghost use Rattle.std.specs.Prelude.{◌≡◌, ◌≤◌, ◌≢◌, ◌↔◌, length, IfOk, IsErrOf, OnErr, OnOk, Err};
ghost use Rattle.std.specs.Io.KnownBytes.{Consumes, IsAtEnd};
ghost use Rattle.tabled_output.specs.Counts.{inner_of, FailsIff, HasGivenPieces, OnlyReads, TellsEnd, TellsNoEnd};
ghost use Rattle.tabled_output.specs.Streams.{ConsumesSome};

use crate::counted::Counted;
use std::alloc::{AllocError, Global};
use std::error::Error;
use std::fmt;
use std::io::Read;

// How many bytes one read requests at most.
const CHUNK: usize = 65536;

/// Why a reader was not read to its end.
#[derive(Clone, Copy, Debug, PartialEq, Eq)]
pub enum ReadFault {
    /// The reader failed in this call, by an error of any kind.
    Read,
    /// As many reads as are allowed gave bytes, and none reached the end.
    TooLong,
    /// Allocation failed.
    Memory,
}

/// The reason as a short text without a line feed.
impl fmt::Display for ReadFault {
    ghost use Rattle.std.specs.Prelude.{Some};
    ghost use Rattle.tabled_output.specs.Faults.{read_fault_text};

    ghost output = { λ fault. Some (read_fault_text fault) };

    fn fmt<W: fmt::Write>(&self, f: &mut fmt::Formatter<W>) -> fmt::Result {
        match *self {
            ReadFault::Read => write!(f, "read failed"),
            ReadFault::TooLong => write!(f, "input too long"),
            ReadFault::Memory => write!(f, "out of memory"),
        }
    }
}

impl Error for ReadFault {}

impl From<AllocError> for ReadFault {
    ghost use Rattle.std.specs.Prelude.{◌≡◌};
    ghost use Rattle.tabled_output.specs.declared.reading.ReadFault.TheVariants.{Memory};

    ghost from_gives = { λ _ fault. fault ≡ Memory };

    fn from(_error: AllocError) -> ReadFault {
        ReadFault::Memory
    }
}

/// All bytes that the reader has left, up to its first end: it is not read after that.
///
/// Errors: `Read` at the first error of any kind; `TooLong` where `limit` reads gave bytes and none reached the end;
/// `Memory` where allocation fails.
pub fn read_to_end<R: Read>(
    alloc: Global,
    reader: &mut Counted<R>,
    limit: u64,
) -> Result<Vec<u8>, ReadFault>
    ensures bytes { IfOk result (λ all. Consumes (R.remaining (inner_of reader.old))
        (R.remaining (inner_of reader.new)) all.items) }
    ensures end { OnOk result (IsAtEnd (R.remaining (inner_of reader.new))) }
    ensures some_bytes { ConsumesSome (R.remaining (inner_of reader.old))
        (R.remaining (inner_of reader.new))
        (λ bytes. IsErrOf result ReadFault.TooLong → limit ≤ length bytes) }

    ensures read { FailsIff (IsErrOf result ReadFault.Read) reader.old reader.new }
    ensures too_long { result ≢ Err ReadFault.Memory →
        (IsErrOf result ReadFault.TooLong ↔ HasGivenPieces reader.old reader.new limit) }
    ensures told_end { OnOk result (TellsEnd reader.old reader.new) }
    ensures no_end { OnErr result (TellsNoEnd reader.old reader.new) }
    ensures only_reads { OnlyReads reader.old reader.new }
{
    let mut bytes = Vec::new(alloc);
    let mut chunk = [0u8; CHUNK];
    for _ in 0..limit {
        let Ok(count) = reader.read(&mut chunk) else {
            return Err(ReadFault::Read);
        };
        if count == 0 {
            return Ok(bytes);
        }
        bytes.extend_from_slice(&chunk[..count])?;
    }
    Err(ReadFault::TooLong)
}
