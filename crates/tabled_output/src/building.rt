//! Why a table was not written.
use crate::writing::WriteFault;
use grid_config_values::Fault;
use std::alloc::{AllocError, AllocFailed};
use std::error::Error;
use std::fmt;

/// Why a table was not written to its end.
#[derive(Clone, Copy, Debug, PartialEq, Eq)]
pub enum BuildFault {
    /// The table has no text, and nothing was written. Or allocation failed: nothing was written, except that a prefix
    /// of the text of a `Table` may have been.
    Table(Fault),
    /// The writer failed in this call, by an error of any kind.
    Write,
    /// The writer took no byte of a piece that had some.
    WriteZero,
}

/// The reason as a short text without a line feed.
impl fmt::Display for BuildFault {
    ghost use Rattle.std.specs.Prelude.{Some};
    ghost use Rattle.tabled_output.specs.Building.{build_fault_text};

    ghost output = { λ fault. Some (build_fault_text fault) };

    fn fmt<W: fmt::Write>(&self, f: &mut fmt::Formatter<W>) -> fmt::Result {
        match self {
            BuildFault::Table(fault) => write!(f, "{fault}"),
            BuildFault::Write => write!(f, "write failed"),
            BuildFault::WriteZero => write!(f, "writer took nothing"),
        }
    }
}

impl Error for BuildFault {}

/// Why the table has no text.
impl From<Fault> for BuildFault {
    ghost use Rattle.std.specs.Prelude.{◌≡◌};
    ghost use Rattle.tabled_output.specs.declared.building.BuildFault.TheVariants.{Table};

    ghost from_gives = { λ given fault. fault ≡ Table given };

    fn from(fault: Fault) -> BuildFault {
        BuildFault::Table(fault)
    }
}

/// Why not all bytes were written, by the same names.
impl From<WriteFault> for BuildFault {
    ghost use Rattle.std.specs.Prelude.{◌≡◌};
    ghost use Rattle.tabled_output.specs.Building.{writing_fault};

    ghost from_gives = { λ given fault. fault ≡ writing_fault given };

    fn from(fault: WriteFault) -> BuildFault {
        match fault {
            WriteFault::Write => BuildFault::Write,
            WriteFault::WriteZero => BuildFault::WriteZero,
        }
    }
}

/// A growth that was refused: the table has no text for want of memory.
impl From<AllocError> for BuildFault {
    ghost use Rattle.std.specs.Prelude.{◌≡◌};
    ghost use Rattle.grid_config_values.specs.declared.fault.Fault.TheVariants.{Memory};
    ghost use Rattle.tabled_output.specs.declared.building.BuildFault.TheVariants.{Table as OfTable};

    ghost from_gives = { λ _ fault. fault ≡ OfTable Memory };

    fn from(_error: AllocError) -> BuildFault {
        BuildFault::Table(Fault::Memory)
    }
}

/// A value that was not pushed, for want of memory.
impl<T: Drop> From<AllocFailed<T>> for BuildFault {
    ghost use Rattle.std.specs.Prelude.{◌≡◌};
    ghost use Rattle.grid_config_values.specs.declared.fault.Fault.TheVariants.{Memory};
    ghost use Rattle.tabled_output.specs.declared.building.BuildFault.TheVariants.{Table as NotMade};

    ghost from_gives = { λ _ fault. fault ≡ NotMade Memory };

    fn from(_error: AllocFailed<T>) -> BuildFault {
        BuildFault::from(Fault::Memory)
    }
}
