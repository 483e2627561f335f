//! Texts that are written piece by piece.
ghost use Rattle.std.specs.Prelude.{◌≡◌, [], IfErr, OnErr, OnOk, string_bytes};
ghost use Rattle.tabled_output.specs.Pieces.{HasPassed, HasStopped};

use crate::counted::Counted;
use crate::writing::{WriteFault, write_all};
use std::io::Write;

/// Writes the line in the buffer, and then the buffer is empty and keeps its memory. Where the writer does not take
/// all of it, the buffer is as it was: `Write` where a write fails, `WriteZero` where one takes nothing. For an empty
/// buffer the writer is not called.
#[inline(always)]
pub fn pass_line<W: Write>(writer: &mut Counted<W>, buffer: &mut String) -> Result<(), WriteFault>
    ensures passed { OnOk result (HasPassed W.contents (string_bytes buffer.old) (string_bytes buffer.new) writer.old writer.new) }
    ensures empty { OnOk result (string_bytes buffer.new ≡ []) }
    ensures stopped { IfErr result (λ fault. HasStopped W.contents (string_bytes buffer.old) fault writer.old writer.new) }
    ensures kept { OnErr result (string_bytes buffer.new ≡ string_bytes buffer.old) }
{
    write_piece(writer, buffer.as_bytes())?;
    buffer.clear();
    Ok(())
}

/// Writes these bytes of a longer text, as `write_all` does.
pub fn write_piece<W: Write>(writer: &mut Counted<W>, bytes: &[u8]) -> Result<(), WriteFault>
    ensures passed { OnOk result (HasPassed W.contents bytes.now [] writer.old writer.new) }
    ensures stopped { IfErr result (λ fault. HasStopped W.contents bytes.now fault writer.old writer.new) }
{
    write_all(writer, bytes)
}
