//! Why a text is not readable.
use std::alloc::{AllocError, AllocFailed};
use std::error::Error;
use std::fmt;

/// Why a text is not readable. Bytes that are in no character come before a quote, and a quote before the first field
/// with a flaw; `Memory` may come at any step. A line is one more than the line feeds before the place, and a field one
/// more than those of its record that have ended before it.
#[derive(Clone, Copy, Debug, PartialEq, Eq)]
pub enum InputFault {
    /// A byte that is in no character of UTF-8, in the text or, where the delimiter splits a character, in a field.
    NotText { line: usize, field: usize },
    /// A quote that opens a field and isn't closed before the end: the last one that opens a field.
    Quote { line: usize },
    /// An escape that begins no whole sequence: the first one of the first field that has one.
    Escape { line: usize, field: usize },
    /// Allocation failed.
    Memory,
}

/// The reason in a line, without the name of the file.
impl fmt::Display for InputFault {
    ghost use Rattle.std.specs.Prelude.{Some};
    ghost use Rattle.basinmug_input.specs.Faults.{fault_text};

    ghost output = { λ fault. Some (fault_text fault) };

    fn fmt<W: fmt::Write>(&self, f: &mut fmt::Formatter<W>) -> fmt::Result {
        match *self {
            InputFault::NotText { line, field } => {
                write!(f, "line {line}, field {field}: not UTF-8")
            }
            InputFault::Quote { line } => write!(f, "line {line}: a quote that is not closed"),
            InputFault::Escape { line, field } => {
                write!(
                    f,
                    "line {line}, field {field}: an escape that begins no sequence"
                )
            }
            InputFault::Memory => write!(f, "out of memory"),
        }
    }
}

impl Error for InputFault {}

impl From<AllocError> for InputFault {
    ghost use Rattle.std.specs.Prelude.{◌≡◌};
    ghost use Rattle.basinmug_input.specs.declared.fault.InputFault.TheVariants.{Memory};

    ghost from_gives = { λ _ fault. fault ≡ Memory };

    fn from(_error: AllocError) -> InputFault {
        InputFault::Memory
    }
}

impl<T: Drop> From<AllocFailed<T>> for InputFault {
    ghost use Rattle.std.specs.Prelude.{◌≡◌};
    ghost use Rattle.basinmug_input.specs.declared.fault.InputFault.TheVariants.{Memory};

    ghost from_gives = { λ _ fault. fault ≡ Memory };

    fn from(_refused: AllocFailed<T>) -> InputFault {
        InputFault::Memory
    }
}
