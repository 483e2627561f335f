//! Why a grid's call was refused.
use std::alloc::{AllocError, AllocFailed};
use std::error::Error;
use std::fmt;

/// Why a call on a table's settings, sizes or text was refused.
#[derive(Clone, Copy, Debug, PartialEq, Eq)]
pub enum Fault {
    /// Allocation failed.
    Memory,
    /// A width, a height or a total passes `usize::MAX`.
    Range,
    /// A span of 0, or spans that overlap or reach out of the table.
    Spans,
    /// A line of a cell is wider than the columns that the cell takes. Rows and columns count from 0.
    Room { row: usize, column: usize },
}

/// The reason as a short text, with no line feed.
impl fmt::Display for Fault {
    ghost use Rattle.std.specs.Prelude.{Some};
    ghost use Rattle.grid_config_values.specs.Fault.{fault_text};

    ghost output = { λ fault. Some (fault_text fault) };

    fn fmt<W: fmt::Write>(&self, f: &mut fmt::Formatter<W>) -> fmt::Result {
        match *self {
            Fault::Memory => write!(f, "out of memory"),
            Fault::Range => write!(f, "size out of range"),
            Fault::Spans => write!(f, "bad spans"),
            Fault::Room { row, column } => write!(f, "row {row} column {column} does not fit"),
        }
    }
}

impl Error for Fault {}

/// A growth that was refused.
impl From<AllocError> for Fault {
    ghost use Rattle.std.specs.Prelude.{◌≡◌};
    ghost use Rattle.grid_config_values.specs.declared.fault.Fault.TheVariants.{Memory};

    ghost from_gives = { λ _ fault. fault ≡ Memory };

    fn from(_error: AllocError) -> Fault {
        Fault::Memory
    }
}

/// Allocation failed, so a value was not pushed.
impl<T: Drop> From<AllocFailed<T>> for Fault {
    ghost use Rattle.std.specs.Prelude.{◌≡◌};
    ghost use Rattle.grid_config_values.specs.declared.fault.Fault.TheVariants.{Memory as OutOfMemory};

    ghost from_gives = { λ _ fault. fault ≡ OutOfMemory };

    fn from(_error: AllocFailed<T>) -> Fault {
        Fault::Memory
    }
}
