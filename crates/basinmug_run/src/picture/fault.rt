//! Why a picture was not printed.
use std::alloc::{AllocError, AllocFailed};
use std::error::Error;
use std::fmt;
use tabled::{BuildFault, Fault};

/// Why a picture was not printed to its end.
#[derive(Debug, Drop)]
pub enum PrintFault {
    /// The header has no column of this name; nothing was written.
    NoColumn(String),
    /// The table has no picture, or the writer failed.
    Table(BuildFault),
    /// Allocation failed; a prefix of the picture may be written.
    Memory,
}

/// The reason as a short text, in which the name of a column stays as it is, also with a line feed.
impl fmt::Display for PrintFault {
    ghost use Rattle.std.specs.Prelude.{Some};
    ghost use Rattle.basinmug_run.specs.Picture.Faults.{print_fault_text};

    ghost output = { λ fault. Some (print_fault_text fault) };

    fn fmt<W: fmt::Write>(&self, f: &mut fmt::Formatter<W>) -> fmt::Result {
        match self {
            PrintFault::NoColumn(name) => write!(f, "there is no column {name}"),
            PrintFault::Table(fault) => write!(f, "{fault}"),
            PrintFault::Memory => write!(f, "out of memory"),
        }
    }
}

impl Error for PrintFault {}

/// An error of a table; a lack of memory keeps its name.
impl From<BuildFault> for PrintFault {
    ghost use Rattle.std.specs.Prelude.{◌≡◌};
    ghost use Rattle.basinmug_run.specs.Picture.Faults.{of_build};

    ghost from_gives = { λ given fault. fault ≡ of_build given };

    fn from(fault: BuildFault) -> PrintFault {
        match fault {
            BuildFault::Table(Fault::Memory) => PrintFault::Memory,
            other => PrintFault::Table(other),
        }
    }
}

/// An error of a table, as `BuildFault` has it.
impl From<Fault> for PrintFault {
    ghost use Rattle.std.specs.Prelude.{◌≡◌};
    ghost use Rattle.tabled_output.specs.declared.building.BuildFault.TheVariants.{Table as OfTable};
    ghost use Rattle.basinmug_run.specs.Picture.Faults.{of_build};

    ghost from_gives = { λ given fault. fault ≡ of_build (OfTable given) };

    fn from(fault: Fault) -> PrintFault {
        PrintFault::from(BuildFault::Table(fault))
    }
}

/// A growth that was refused.
impl From<AllocError> for PrintFault {
    ghost use Rattle.std.specs.Prelude.{◌≡◌};
    ghost use Rattle.basinmug_run.specs.declared.picture.fault.PrintFault.TheVariants.{Memory};

    ghost from_gives = { λ _ fault. fault ≡ Memory };

    fn from(_error: AllocError) -> PrintFault {
        PrintFault::Memory
    }
}

/// A value that was not pushed, for a lack of memory.
impl<T: Drop> From<AllocFailed<T>> for PrintFault {
    ghost use Rattle.std.specs.Prelude.{◌≡◌};
    ghost use Rattle.basinmug_run.specs.declared.picture.fault.PrintFault.TheVariants.{Memory as NoMemory};

    ghost from_gives = { λ _ fault. fault ≡ NoMemory };

    fn from(_error: AllocFailed<T>) -> PrintFault {
        PrintFault::Memory
    }
}
