//! Why the program ends without its table.
ghost use Rattle.std.specs.Prelude.{◌≡◌, ◌↔◌, IfErr, IfOk, IsTrue};
ghost use Rattle.basinmug.specs.Faults.{IsClosedPipe, of_reading, of_writing};

use crate::encoding::Encoding;
use basinmug_input::InputFault;
use basinmug_run::RunFault;
use std::alloc::AllocError;
use std::io::ErrorKind;
use std::{fmt, io};
use tabled_output::{ReadFault, WriteFault};

/// Why the program ends without its table.
#[derive(Debug)]
pub enum ProgramFault {
    /// The file is not there, or can't be opened.
    Open(io::Error),
    /// A read failed, for this reason of the system.
    Reading(io::Error),
    /// Reading failed.
    Read(ReadFault),
    /// The text is no UTF-8, but may have this encoding.
    NotText(InputFault, Encoding),
    /// The text is not readable, its records have no table, or printing failed.
    Run(RunFault),
    /// A write failed, for this reason of the system.
    Writing(io::Error),
    /// Writing a text failed.
    Write(WriteFault),
    /// Allocation failed.
    Memory,
}

impl Drop for ProgramFault {
    fn drop(self) {
        match self {
            ProgramFault::Run(fault) => drop(fault),
            ProgramFault::Memory
            | ProgramFault::Open(_)
            | ProgramFault::Reading(_)
            | ProgramFault::Read(_)
            | ProgramFault::NotText(_, _)
            | ProgramFault::Writing(_)
            | ProgramFault::Write(_) => {}
        }
    }
}

impl ProgramFault {
    ghost use Rattle.basinmug.specs.Faults.{is_of_input};

    /// Whether it is an error of the input, whose name is then reported.
    pub fn is_of_input(&self) -> bool
        ensures { result ≡ is_of_input self.now }
    {
        matches!(
            self,
            ProgramFault::Open(_)
                | ProgramFault::Reading(_)
                | ProgramFault::Read(ReadFault::Read | ReadFault::TooLong)
                | ProgramFault::NotText(_, _)
                | ProgramFault::Run(RunFault::Input(_))
        )
    }

    /// Whether nobody reads on what is written.
    pub fn is_closed_pipe(&self) -> bool
        ensures { IsTrue result ↔ IsClosedPipe self.now }
    {
        match self {
            ProgramFault::Writing(error) => matches!(error.kind(), ErrorKind::BrokenPipe),
            _ => false,
        }
    }
}

/// Why an input was not read, with the reason of the system where it gave one. A lack of memory keeps its name.
pub fn of_reading(fault: ReadFault, error: Option<io::Error>) -> ProgramFault
    ensures { result ≡ of_reading fault error }
{
    match fault {
        ReadFault::Read => match error {
            Some(error) => ProgramFault::Reading(error),
            None => ProgramFault::Read(ReadFault::Read),
        },
        ReadFault::TooLong => ProgramFault::Read(ReadFault::TooLong),
        ReadFault::Memory => ProgramFault::Memory,
    }
}

/// Why a text was not written, with the reason of the system where it gave one.
pub fn of_writing(fault: WriteFault, error: Option<io::Error>) -> ProgramFault
    ensures { result ≡ of_writing fault error }
{
    match fault {
        WriteFault::Write => match error {
            Some(error) => ProgramFault::Writing(error),
            None => ProgramFault::Write(WriteFault::Write),
        },
        WriteFault::WriteZero => ProgramFault::Write(WriteFault::WriteZero),
    }
}

/// An error but for a pipe that is closed: who reads no further has what he wants.
pub fn unless_closed(fault: ProgramFault) -> Result<(), ProgramFault>
    ensures closed { IfOk result (λ _. IsClosedPipe fault) }
    ensures told { IfErr result (λ told. (told ≡ fault) × ¬ IsClosedPipe fault) }
{
    if fault.is_closed_pipe() {
        Ok(())
    } else {
        Err(fault)
    }
}

/// The reason, without the name of a file; what an error of the system prints is the library's own. Names are in it as
/// they are; `with_visible_controls` makes it one line.
impl fmt::Display for ProgramFault {
    ghost use Rattle.basinmug.specs.Faults.{program_fault_text};

    ghost output = { program_fault_text };

    fn fmt<W: fmt::Write>(&self, f: &mut fmt::Formatter<W>) -> fmt::Result {
        match self {
            ProgramFault::Open(error) => write!(f, "{error}"),
            ProgramFault::Reading(error) => write!(f, "{error}"),
            ProgramFault::Read(fault) => write!(f, "{fault}"),
            ProgramFault::NotText(fault, encoding) => write!(f, "{fault} ({encoding})"),
            ProgramFault::Run(fault) => write!(f, "{fault}"),
            ProgramFault::Writing(error) => write!(f, "{error}"),
            ProgramFault::Write(fault) => write!(f, "{fault}"),
            ProgramFault::Memory => write!(f, "out of memory"),
        }
    }
}

impl From<AllocError> for ProgramFault {
    ghost use Rattle.basinmug.specs.declared.fault.ProgramFault.TheVariants.{Memory};

    ghost from_gives = { λ _ fault. fault ≡ Memory };

    fn from(_error: AllocError) -> ProgramFault {
        ProgramFault::Memory
    }
}
