//! How a program ends: its status, and what it says of that on standard error.
ghost use Rattle.std.specs.Prelude.{◌≡◌, IfErr, IfOk, IfSome, MatchResult, OnOk};
ghost use Rattle.std.specs.Io.KnownBytes.{Appends};
ghost use Rattle.std.specs.Iterator.{Drains, IsFinite};
ghost use Rattle.std.specs.Process.{exit_status};
ghost use Rattle.command_line.specs.Ending.{said_of, status_of, unread_by};
ghost use Rattle.command_line.specs.declared.ending.Ending.TheVariants.{Done, Memory};

use std::alloc::Global;
use std::fmt::Display;
use std::io::{self, ErrorKind, Write};
use std::process::ExitCode;

/// The greatest number of bytes of a table in the buffer of standard output.
pub const OUTPUT_BUFFER: usize = 65536;

/// How a program ends.
#[derive(Drop)]
pub enum Ending<F> {
    /// All that was requested is done.
    Done,
    /// What was requested failed, with this error.
    Failed(F),
    /// Memory ran out.
    Memory,
    /// The arguments are wrong. This text says why.
    Faulty(String),
    /// An argument is not UTF-8.
    NotUtf8,
}

impl<F> Ending<F> {
    /// The status of the program: 0, or 1 where the run failed, or 2 where the arguments are wrong.
    pub fn status(&self) -> ExitCode
        ensures { exit_status result ≡ status_of self.now }
    {
        match self {
            Ending::Done => ExitCode::SUCCESS,
            Ending::Failed(_) | Ending::Memory => ExitCode::FAILURE,
            Ending::Faulty(_) | Ending::NotUtf8 => ExitCode::from(2),
        }
    }
}

impl<F: Display> Ending<F> {
    /// Writes why the program ended: nothing where all is done. For wrong arguments it writes their text, ended by a
    /// line feed; else one line, the name of the program and the reason. Does not allocate. Fails where the writer
    /// does.
    pub fn say<W: Write>(&self, program: &str, error: &mut W) -> io::Result<()>
        ensures said { OnOk result (IfSome (said_of program.now F.output self.now) (Appends (W.contents error.old) (W.contents error.new))) }
        ensures silent { self.now ≡ Done → error.new ≡ error.old }
    {
        match self {
            Ending::Done => Ok(()),
            Ending::Failed(fault) => write!(error, "{program}: {fault}\n"),
            Ending::Memory => write!(error, "{program}: out of memory\n"),
            Ending::Faulty(text) if text.ends_with('\n') => write!(error, "{text}"),
            Ending::Faulty(text) => write!(error, "{text}\n"),
            Ending::NotUtf8 => write!(error, "{program}: an argument is not UTF-8\n"),
        }
    }
}

/// It is done where nothing failed.
impl<F> From<Result<(), F>> for Ending<F> {
    ghost use Rattle.std.specs.Prelude.{◌≡◌};
    ghost use Rattle.command_line.specs.Ending.{ended_by};

    ghost from_gives = { λ outcome ending. ending ≡ ended_by outcome };

    fn from(outcome: Result<(), F>) -> Ending<F> {
        match outcome {
            Ok(()) => Ending::Done,
            Err(fault) => Ending::Failed(fault),
        }
    }
}

/// The arguments of a program, in their order; or how it ends where they can't be read, or where memory runs
/// out. They are pushed one by one, since `collect` goes on where its early allocation fails.
pub fn words_of<I: Iterator<Item = String> + Drop, F>(
    alloc: Global,
    given: io::Result<I>,
) -> Result<Vec<String>, Ending<F>>
    requires { IfOk given (λ words. I.can_next words × IsFinite (I.remaining words)) }
    ensures words { IfOk result (λ words. MatchResult given (λ it. Drains I.next_gives it words.items) (λ error. ⊥)) }
    ensures refused { IfErr result (λ ending. MatchResult given (λ it. ending ≡ Memory) (λ error. ending ≡ unread_by error)) }
{
    match given {
        Ok(given) => collected(alloc, given),
        Err(error) => Err(unread(&error)),
    }
}

// The arguments that an iterator gives.
fn collected<I: Iterator<Item = String> + Drop, F>(
    alloc: Global,
    given: I,
) -> Result<Vec<String>, Ending<F>>
    requires { I.can_next given × IsFinite (I.remaining given) }
    ensures words { IfOk result (λ words. Drains I.next_gives given words.items) }
    ensures refused { IfErr result (λ ending. ending ≡ Memory) }
{
    let mut words = Vec::new(alloc);
    for word in given {
        if words.push(word).is_err() {
            return Err(Ending::Memory);
        }
    }
    Ok(words)
}

// How a program ends whose arguments can't be read.
fn unread<F>(error: &io::Error) -> Ending<F>
    ensures { result ≡ unread_by error.now }
{
    match error.kind() {
        ErrorKind::OutOfMemory => Ending::Memory,
        _ => Ending::NotUtf8,
    }
}
