//! The first records of a text.
ghost use Rattle.std.specs.Prelude.{◌≡◌, ◌≤◌, ℕ, false, IfOk, IfSome, IsErrOf, length, option_copied, take};
ghost use Rattle.tabled_output.specs.Counts.{FailsIff, HasGivenPieces, OnlyReads, inner_of};
ghost use Rattle.tabled_output.specs.Streams.{ConsumesSome};
ghost use Rattle.basinmug_head.specs.Blocks.{HasGivenAtMost};
ghost use Rattle.basinmug_head.specs.Heads.{IsHeadIn, IsHeadOf, asked_or_found, records_of, records_read};
ghost use Rattle.basinmug_head.specs.Walking.{IsWalked};

use crate::blocks::read_block;
use crate::front::{Front, read_front};
use crate::walk::{Step, Walk};
use basinmug_delimiter::{Found, find_delimiter};
use std::alloc::Global;
use std::io::Read;
use tabled_output::{Counted, ReadFault};

/// A text that ends with its last wanted record.
#[derive(Drop)]
pub struct Head {
    /// The bytes, from the first on.
    pub bytes: Vec<u8>,
    /// What is between their fields, and where their records begin.
    pub found: Found,
    pub ghost within: { found.start ≤ length bytes.items },
}

/// What is between the fields of bytes, and where their records begin: at the first byte, with the delimiter that is
/// requested; where none is, as it is found by the bytes and the name of their file.
pub fn asked_or_found(asked: Option<u8>, bytes: &[u8], file: Option<&str>) -> Found
    ensures found { result ≡ asked_or_found asked bytes.now (option_copied file.entry) }
    ensures within { result.start ≤ length bytes.now }
{
    match asked {
        Some(delimiter) => Found {
            delimiter,
            start: 0,
        },
        None => find_delimiter(bytes, file),
    }
}

/// How many records are read if so many below the header are requested: the header is one more. None if all are.
pub fn records_read(head: Option<usize>, header: bool) -> Option<usize>
    ensures { result ≡ records_read header head }
{
    match head {
        Some(records) if header => Some(records.saturating_add(1)),
        other => other,
    }
}

/// Where the first so many records of bytes end: at the end of the bytes if they have fewer. `found` is what is between
/// their fields, and where they begin. It allocates nothing.
pub fn head_end(bytes: &[u8], found: Found, records: usize) -> usize
    requires { found.start ≤ length bytes.now }
    ensures starts { found.start ≤ result }
    ensures within { result ≤ length bytes.now }
    ensures first { records_of found (take result bytes.now) ≡ take records (records_of found bytes.now) }
{
    if records == 0 {
        return found.start;
    }
    match Walk::start(found, records).with(bytes, 0) {
        Step::End(end) => end,
        Step::On(_) => bytes.len(),
    }
}

/// The prefix of a text up to the end of so many records, or all of it where it has fewer; no more is read than the
/// block in which the last of them ends, and, where no delimiter is requested, the one in which the first line does.
/// It fails with `Read` at the first error of any kind, with `TooLong` where `limit` reads gave bytes and more are
/// needed, and with `Memory`.
pub fn read_head<R: Read>(
    alloc: Global,
    reader: &mut Counted<R>,
    asked: Option<u8>,
    file: Option<&str>,
    records: usize,
    limit: u64,
) -> Result<Head, ReadFault>
    ensures head { IfOk result (λ head. IfSome (R.remaining (inner_of reader.old)) (IsHeadOf asked (option_copied file.entry) records head.bytes.items head.found)) }
    ensures some_text { IfOk result (λ head. ConsumesSome (R.remaining (inner_of reader.old)) (R.remaining (inner_of reader.new))
        (IsHeadOf asked (option_copied file.entry) records head.bytes.items head.found)) }
    ensures most { HasGivenAtMost reader.old reader.new limit }
    ensures read { FailsIff (IsErrOf result ReadFault.Read) reader.old reader.new }
    ensures too_long { IsErrOf result ReadFault.TooLong → HasGivenPieces reader.old reader.new limit }
    ensures long_text { IsErrOf result ReadFault.TooLong →
        ConsumesSome (R.remaining (inner_of reader.old)) (R.remaining (inner_of reader.new)) (λ bytes. limit ≤ length bytes) }
    ensures only_reads { OnlyReads reader.old reader.new }
{
    let front = read_front(alloc, reader, asked, limit)?;
    let found = asked_or_found(asked, front.bytes.as_slice(), file);
    let left = limit - front.reads;
    let bytes = read_records(reader, front, found, records, left)?;
    Ok(Head { bytes, found })
}

// The same after a prefix of the text, by which it is known what is between its fields.
fn read_records<R: Read>(
    reader: &mut Counted<R>,
    front: Front,
    found: Found,
    records: usize,
    limit: u64,
) -> Result<Vec<u8>, ReadFault>
    requires { found.start ≤ length front.bytes.items }
    ensures within { IfOk result (λ bytes. found.start ≤ length bytes.items) }
    ensures head { IfOk result (λ bytes. IsHeadIn (R.remaining (inner_of reader.old)) (R.remaining (inner_of reader.new)) found records front.bytes.items front.ended bytes.items) }
    ensures most { HasGivenAtMost reader.old reader.new limit }
    ensures read { FailsIff (IsErrOf result ReadFault.Read) reader.old reader.new }
    ensures too_long { IsErrOf result ReadFault.TooLong → HasGivenPieces reader.old reader.new limit }
    ensures long_text { IsErrOf result ReadFault.TooLong →
        ConsumesSome (R.remaining (inner_of reader.old)) (R.remaining (inner_of reader.new)) (λ bytes. limit ≤ length bytes) }
    ensures only_reads { OnlyReads reader.old reader.new }
{
    let mut bytes = front.bytes;
    if records == 0 {
        bytes.truncate(found.start);
        return Ok(bytes);
    }
    match Walk::start(found, records).with(bytes.as_slice(), 0) {
        Step::End(end) => {
            bytes.truncate(end);
            Ok(bytes)
        }
        Step::On(_) if front.ended => Ok(bytes),
        Step::On(walk) => read_on(reader, bytes, walk, limit),
    }
}

// The same after bytes that are walked over.
fn read_on<R: Read>(
    reader: &mut Counted<R>,
    bytes: Vec<u8>,
    walk: Walk,
    limit: u64,
) -> Result<Vec<u8>, ReadFault>
    requires { walk.found.start ≤ length bytes.items }
    ensures head { IfOk result (λ all. (records : ℕ) → IsWalked walk.found records bytes.items walk
        → IsHeadIn (R.remaining (inner_of reader.old)) (R.remaining (inner_of reader.new)) walk.found records bytes.items false all.items) }
    ensures most { HasGivenAtMost reader.old reader.new limit }
    ensures read { FailsIff (IsErrOf result ReadFault.Read) reader.old reader.new }
    ensures too_long { IsErrOf result ReadFault.TooLong → HasGivenPieces reader.old reader.new limit }
    ensures long_text { IsErrOf result ReadFault.TooLong →
        ConsumesSome (R.remaining (inner_of reader.old)) (R.remaining (inner_of reader.new)) (λ bytes. limit ≤ length bytes) }
    ensures only_reads { OnlyReads reader.old reader.new }
{
    let mut bytes = bytes;
    let mut walk = walk;
    for _ in 0..limit {
        let from = bytes.len();
        if read_block(reader, &mut bytes)? == 0 {
            return Ok(bytes);
        }
        match walk.with(bytes.as_slice(), from) {
            Step::End(end) => {
                bytes.truncate(end);
                return Ok(bytes);
            }
            Step::On(next) => walk = next,
        }
    }
    Err(ReadFault::TooLong)
}
