//! Why a run failed.
use grid_config::Fault;
use std::alloc::AllocError;
use std::error::Error;
use std::fmt;
use tabled_output::{ReadFault, WriteFault};

/// Why `run` failed. Where several hold, the first in this order is reported, except that
/// `Memory` may come at any step.
#[derive(Clone, Copy, Debug, PartialEq, Eq)]
pub enum RunFault {
    /// The reader failed in this call, with an error of any kind.
    Read,
    /// As many reads as are allowed gave bytes, 2^40 in `run`, and none reached the end of the input.
    ReadTooLong,
    /// The input is not UTF-8: its longest prefix that is UTF-8 has `at` bytes.
    NotUtf8 { at: usize },
    /// An ESC of the input is broken, that is, begins no whole sequence: the first such ESC is at byte `at`.
    Escape { at: usize },
    /// A width, a height or a total of the table passes `usize::MAX`.
    Range,
    /// A line of a cell measures more columns than its column has. No input has one, as a law of
    /// `columns_laws::bounds` says. Rows and columns count from 0.
    LineTooWide { row: usize, column: usize },
    /// The writer failed in this call, with an error of any kind.
    Write,
    /// The writer accepted no byte of a piece that is not empty.
    WriteZero,
    /// Allocation failed.
    Memory,
}

/// A short text of the reason, without a line feed.
impl fmt::Display for RunFault {
    ghost use Rattle.std.specs.Prelude.{Some};
    ghost use Rattle.program_options.specs.Columns.Fault.{fault_text};

    ghost output = { λ fault. Some (fault_text fault) };

    fn fmt<W: fmt::Write>(&self, f: &mut fmt::Formatter<W>) -> fmt::Result {
        let text = match *self {
            RunFault::Read => "read failed",
            RunFault::ReadTooLong => "input too long",
            RunFault::NotUtf8 { at } => return write!(f, "not UTF-8 at byte {at}"),
            RunFault::Escape { at } => return write!(f, "escape at byte {at}"),
            RunFault::Range => "size out of range",
            RunFault::LineTooWide { row, column } => {
                return write!(f, "row {row} column {column} too wide");
            }
            RunFault::Write => "write failed",
            RunFault::WriteZero => "writer took nothing",
            RunFault::Memory => "out of memory",
        };
        f.write_str(text)
    }
}

impl Error for RunFault {}

impl From<AllocError> for RunFault {
    ghost use Rattle.std.specs.Prelude.{◌≡◌};
    ghost use Rattle.program_options.specs.declared.columns.fault.RunFault.TheVariants.{Memory};

    ghost from_gives = { λ _ fault. fault ≡ Memory };

    fn from(_error: AllocError) -> RunFault {
        RunFault::Memory
    }
}

/// Why the input was not read to its end, by the same names.
impl From<ReadFault> for RunFault {
    ghost use Rattle.std.specs.Prelude.{◌≡◌};
    ghost use Rattle.program_options.specs.Columns.Fault.{read_fault};

    ghost from_gives = { λ given fault. fault ≡ read_fault given };

    fn from(fault: ReadFault) -> RunFault {
        match fault {
            ReadFault::Read => RunFault::Read,
            ReadFault::TooLong => RunFault::ReadTooLong,
            ReadFault::Memory => RunFault::Memory,
        }
    }
}

/// Why not all was written, by the same names.
impl From<WriteFault> for RunFault {
    ghost use Rattle.std.specs.Prelude.{◌≡◌};
    ghost use Rattle.program_options.specs.Columns.Fault.{write_fault};

    ghost from_gives = { λ given fault. fault ≡ write_fault given };

    fn from(fault: WriteFault) -> RunFault {
        match fault {
            WriteFault::Write => RunFault::Write,
            WriteFault::WriteZero => RunFault::WriteZero,
        }
    }
}

/// Why the text has no table. A table of a text has no spans, so `Spans` does not occur.
impl From<Fault> for RunFault {
    ghost use Rattle.std.specs.Prelude.{◌≡◌};
    ghost use Rattle.program_options.specs.Columns.Fault.{run_fault};

    ghost from_gives = { λ given fault. fault ≡ run_fault given };

    fn from(fault: Fault) -> RunFault {
        match fault {
            Fault::Memory => RunFault::Memory,
            Fault::Range | Fault::Spans => RunFault::Range,
            Fault::Room { row, column } => RunFault::LineTooWide { row, column },
        }
    }
}
