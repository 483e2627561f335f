//! From a reader to text.
ghost use Rattle.std.specs.Prelude.{◌≡◌, ◌≤◌, ◌≢◌, ◌↔◌, length, IfOk, IfErr, OnErr, OnOk, IsErrOf, IsUtf8, Err};
ghost use Rattle.std.specs.Str.Lossy.{utf8_valid_len};
ghost use Rattle.std.specs.Io.KnownBytes.{Consumes, IsAtEnd};
ghost use Rattle.tabled_output.specs.Counts.{inner_of, FailsIff, HasGivenPieces, OnlyReads, TellsEnd, TellsNoEnd};
ghost use Rattle.columns_run.specs.Fault.{IsOfReading};
ghost use Rattle.tabled_output.specs.Streams.{ConsumesSome};

use program_options::columns::RunFault;
use simdutf8::compat;
use std::alloc::Global;
use std::io::Read;
use tabled_output::{Counted, read_to_end};

/// All bytes that the reader has left. It reads up to the reader's first end, and does not read again after it. It
/// fails with `Read` at the first error of any kind. It fails with `ReadTooLong` where `limit` reads gave bytes and
/// none reached the end, and with `Memory`.
pub fn read_all<R: Read>(
    alloc: Global,
    reader: &mut Counted<R>,
    limit: u64,
) -> Result<Vec<u8>, RunFault>
    ensures bytes { IfOk result (λ all. Consumes (R.remaining (inner_of reader.old))
        (R.remaining (inner_of reader.new)) all.items) }
    ensures end { OnOk result (IsAtEnd (R.remaining (inner_of reader.new))) }
    ensures some_bytes { ConsumesSome (R.remaining (inner_of reader.old))
        (R.remaining (inner_of reader.new))
        (λ bytes. IsErrOf result RunFault.ReadTooLong → limit ≤ length bytes) }

    ensures faults { IfErr result IsOfReading }
    ensures read { FailsIff (IsErrOf result RunFault.Read) reader.old reader.new }
    ensures too_long { result ≢ Err RunFault.Memory →
        (IsErrOf result RunFault.ReadTooLong ↔ HasGivenPieces reader.old reader.new limit) }
    ensures told_end { OnOk result (TellsEnd reader.old reader.new) }
    ensures no_end { OnErr result (TellsNoEnd reader.old reader.new) }
    ensures only_reads { OnlyReads reader.old reader.new }
{
    Ok(read_to_end(alloc, reader, limit)?)
}

/// The bytes as text. Where they are not UTF-8, `NotUtf8` has the length of their longest prefix that is UTF-8.
pub fn text_of(bytes: &[u8]) -> Result<&str, RunFault>
    ensures ok { IfOk result (λ text. (text.now ≡ bytes.now) × IsUtf8 bytes.now) }
    ensures err { IfErr result (λ fault. ¬ (IsUtf8 bytes.now)
        × (fault ≡ RunFault.NotUtf8 (utf8_valid_len bytes.now))) }
{
    compat::from_utf8(bytes).map_err(|error| RunFault::NotUtf8 {
        at: error.valid_up_to(),
    })
}
