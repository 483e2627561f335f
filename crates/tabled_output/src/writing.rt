//! From bytes to a writer.
ghost use Rattle.std.specs.Prelude.{◌≡◌, length, IsErrOf, OnOk};
ghost use Rattle.std.specs.Io.KnownBytes.{Appends};
ghost use Rattle.tabled_output.specs.Counts.{inner_of, WritesUntil};
ghost use Rattle.tabled_output.specs.Streams.{AppendsFront};

use crate::counted::Counted;
use std::error::Error;
use std::fmt;
use std::io::Write;

/// Why not all bytes were written.
#[derive(Clone, Copy, Debug, PartialEq, Eq)]
pub enum WriteFault {
    /// The writer failed in this call, by an error of any kind.
    Write,
    /// The writer took no byte of a piece that had some.
    WriteZero,
}

/// The reason as a short text without a line feed.
impl fmt::Display for WriteFault {
    ghost use Rattle.std.specs.Prelude.{Some};
    ghost use Rattle.tabled_output.specs.Faults.{fault_text};

    ghost output = { λ fault. Some (fault_text fault) };

    fn fmt<W: fmt::Write>(&self, f: &mut fmt::Formatter<W>) -> fmt::Result {
        match *self {
            WriteFault::Write => write!(f, "write failed"),
            WriteFault::WriteZero => write!(f, "writer took nothing"),
        }
    }
}

impl Error for WriteFault {}

/// Writes all bytes, each time a piece that has some, and flushes nothing.
///
/// Errors: `Write` at the first error of any kind; `WriteZero` where the writer takes nothing. The bytes before that
/// are then written, and the writer is not called again.
pub fn write_all<W: Write>(writer: &mut Counted<W>, bytes: &[u8]) -> Result<(), WriteFault>
    ensures ok { OnOk result (Appends (W.contents (inner_of writer.old))
        (W.contents (inner_of writer.new)) bytes.now) }
    ensures front { AppendsFront (W.contents (inner_of writer.old))
        (W.contents (inner_of writer.new)) bytes.now }
    ensures nothing { length bytes.now ≡ 0 → writer.new ≡ writer.old }
    ensures writer { WritesUntil (IsErrOf result WriteFault.Write) (IsErrOf result WriteFault.WriteZero) writer.old writer.new }
{
    let mut rest = bytes;
    while !rest.is_empty() {
        match writer.write(rest) {
            Ok(0) => return Err(WriteFault::WriteZero),
            Ok(count) => rest = &rest[count..],
            Err(_) => return Err(WriteFault::Write),
        }
    }
    Ok(())
}
