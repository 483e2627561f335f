//! Why a run ends without its table.
use crate::picture::PrintFault;
use basinmug_input::InputFault;
use std::error::Error;
use std::fmt;

/// Why a text was not printed to its end. An error of the text comes first; then a name that its
/// header does not have; then one of its table, and then one of the writer; `Memory` may come at any step.
#[derive(Debug, Drop)]
pub enum RunFault {
    /// The text is not readable; nothing was written.
    Input(InputFault),
    /// A name is missing or the table has no text, and nothing was written; or the writer failed.
    Print(PrintFault),
    /// Allocation failed; a prefix of the table may be written.
    Memory,
}

/// The reason, without the name of a file. The name of a column is in it as it is; `with_visible_controls`
/// makes it one line.
impl fmt::Display for RunFault {
    ghost use Rattle.std.specs.Prelude.{Some};
    ghost use Rattle.basinmug_run.specs.Faults.{run_fault_text};

    ghost output = { λ fault. Some (run_fault_text fault) };

    fn fmt<W: fmt::Write>(&self, f: &mut fmt::Formatter<W>) -> fmt::Result {
        match self {
            RunFault::Input(fault) => write!(f, "{fault}"),
            RunFault::Print(fault) => write!(f, "{fault}"),
            RunFault::Memory => write!(f, "out of memory"),
        }
    }
}

impl Error for RunFault {}

/// An error of the text; a lack of memory keeps its name.
impl From<InputFault> for RunFault {
    ghost use Rattle.std.specs.Prelude.{◌≡◌};
    ghost use Rattle.basinmug_run.specs.Faults.{of_input};

    ghost from_gives = { λ given fault. fault ≡ of_input given };

    fn from(fault: InputFault) -> RunFault {
        match fault {
            InputFault::Memory => RunFault::Memory,
            other => RunFault::Input(other),
        }
    }
}

/// An error of printing; a lack of memory keeps its name.
impl From<PrintFault> for RunFault {
    ghost use Rattle.std.specs.Prelude.{◌≡◌};
    ghost use Rattle.basinmug_run.specs.Faults.{of_print};

    ghost from_gives = { λ given fault. fault ≡ of_print given };

    fn from(fault: PrintFault) -> RunFault {
        match fault {
            PrintFault::Memory => RunFault::Memory,
            other => RunFault::Print(other),
        }
    }
}
