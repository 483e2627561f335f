//! The prefix of a text, by which it is known what is between its fields.
ghost use Rattle.std.specs.Prelude.{◌≡◌, ◌≤◌, IfOk, IsErrOf, is_some, length};
ghost use Rattle.tabled_output.specs.Counts.{FailsIff, HasGivenPieces, OnlyReads, inner_of};
ghost use Rattle.tabled_output.specs.Streams.{ConsumesSome};
ghost use Rattle.basinmug_head.specs.Blocks.{HasGivenAtMost};
ghost use Rattle.basinmug_head.specs.Fronts.{IsFront};

use crate::blocks::read_block;
use basinmug_delimiter::FirstLine;
use std::alloc::Global;
use std::io::Read;
use tabled_output::{Counted, ReadFault};

/// What is read of a text before its records are looked for.
#[derive(Drop)]
pub(crate) struct Front {
    /// The bytes.
    pub(crate) bytes: Vec<u8>,
    /// Whether these are all.
    pub(crate) ended: bool,
    /// How many reads gave them.
    pub(crate) reads: u64,
}

/// The blocks up to the one in which the first line ends, if it is to say what is between fields; else one. It fails with
/// `Read` where the reader fails, with `TooLong` where `limit` reads gave bytes and the line goes on, and with `Memory`.
pub(crate) fn read_front<R: Read>(
    alloc: Global,
    reader: &mut Counted<R>,
    asked: Option<u8>,
    limit: u64,
) -> Result<Front, ReadFault>
    ensures front { IfOk result (λ front. IsFront (R.remaining (inner_of reader.old)) (R.remaining (inner_of reader.new)) asked front.bytes.items front.ended) }
    ensures most { IfOk result (λ front. front.reads ≤ limit) }
    ensures few { HasGivenAtMost reader.old reader.new limit }
    ensures reads { IfOk result (λ front. HasGivenPieces reader.old reader.new front.reads) }
    ensures some_text { IfOk result (λ front. front.reads ≤ length front.bytes.items) }
    ensures read { FailsIff (IsErrOf result ReadFault.Read) reader.old reader.new }
    ensures too_long { IsErrOf result ReadFault.TooLong → HasGivenPieces reader.old reader.new limit }
    ensures long_text { IsErrOf result ReadFault.TooLong →
        ConsumesSome (R.remaining (inner_of reader.old)) (R.remaining (inner_of reader.new)) (λ bytes. limit ≤ length bytes) }
    ensures only_reads { OnlyReads reader.old reader.new }
{
    let mut bytes = Vec::new(alloc);
    let mut line = FirstLine::start();
    for reads in 0..limit {
        let from = bytes.len();
        if read_block(reader, &mut bytes)? == 0 {
            return Ok(Front {
                bytes,
                ended: true,
                reads,
            });
        }
        line = line.with(bytes.as_slice(), from);
        if asked.is_some() || line.is_whole() {
            return Ok(Front {
                bytes,
                ended: false,
                reads: reads + 1,
            });
        }
    }
    Err(ReadFault::TooLong)
}
