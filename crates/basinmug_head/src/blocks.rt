//! A reader, block by block.
ghost use Rattle.std.specs.Prelude.{◌≡◌, ◌≢◌, ◌≤◌, Err, IfOk, IsErrOf, OnOk};
ghost use Rattle.tabled_output.specs.Counts.{FailsIff, OnlyReads, inner_of, pieces_after, pieces_read_of};
ghost use Rattle.basinmug_head.specs.Blocks.{HasGivenAtMost, IsBlock};

use std::io::Read;
use tabled_output::{Counted, ReadFault};

// How many bytes one read requests.
const BLOCK: usize = 65536;

/// Appends what one read gives, and returns how many bytes that are: none at the end. It fails with `Read` where the
/// reader fails, and with `Memory`.
pub(crate) fn read_block<R: Read>(
    reader: &mut Counted<R>,
    bytes: &mut Vec<u8>,
) -> Result<usize, ReadFault>
    ensures block { IfOk result (IsBlock (R.remaining (inner_of reader.old)) (R.remaining (inner_of reader.new)) bytes.old.items bytes.new.items) }
    ensures bound { IfOk result (λ count. count ≤ 65536) }
    ensures piece { OnOk result (pieces_read_of reader.new ≡ pieces_after result (pieces_read_of reader.old)) }
    ensures most { HasGivenAtMost reader.old reader.new 1 }
    ensures read { FailsIff (IsErrOf result ReadFault.Read) reader.old reader.new }
    ensures not_long { result ≢ Err ReadFault.TooLong }
    ensures only_reads { OnlyReads reader.old reader.new }
{
    let mut block = [0u8; BLOCK];
    let Ok(count) = reader.read(&mut block) else {
        return Err(ReadFault::Read);
    };
    bytes.extend_from_slice(&block[..count])?;
    Ok(count)
}
