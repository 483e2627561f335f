//! Prints the records of CSV, TSV or another delimited text as a table, as the arguments of the command line request.
#![tactic(auto)]

ghost use Rattle.std.specs.Prelude.{◌≡◌, IfErr, IfOk};
ghost use Rattle.tabled_output.specs.Counts.{empty_writes_of, inner_of};
ghost use Rattle.basinmug.specs.Faults.{of_run, of_writing, write_fault};
ghost use Rattle.basinmug.specs.Kept.{error_of};
ghost use Rattle.basinmug.specs.Widths.{IsWidthFor, columns_in, columns_shown};
ghost use Rattle.basinmug.specs.declared.fault.ProgramFault.TheVariants.{Memory};

mod encoding;
mod fault;
mod input;
mod kept;
mod laws;

use basinmug_head::records_read;
use basinmug_input::InputFault;
use basinmug_run::{ColumnsShown, Options, PrintFault, RunFault, run, with_visible_controls};
use command_line::basinmug::{Plan, ReadWords, WidthAsked, read_words};
use command_line::ending::{Ending, OUTPUT_BUFFER, words_of};
use encoding::encoding_of;
use fault::{ProgramFault, of_writing, unless_closed};
use input::{Reading, input_of};
use kept::Kept;
use program_options::color_list::column_of;
use std::alloc::AllocError;
use std::env::{self, VarError};
use std::io::{BufWriter, IsTerminal, Write};
use std::process::ExitCode;
use tabled_output::{BuildFault, Counted, WriteFault, write_all};

/// The table of a file or of standard input to standard output. Its status is 0; or 1 with one line on standard
/// error; or 2, where the arguments are wrong, with a text on standard error. Where standard error takes nothing,
/// the status alone says.
fn main(rt: HostRuntime) -> ExitCode {
    let ending = answered(&rt);
    let _ = ending.say("basinmug", &mut rt.stderr());
    ending.status()
}

// Does what the arguments request.
fn answered(rt: &HostRuntime) -> Ending<String> {
    let words = match words_of(rt.alloc(), env::args(rt)) {
        Ok(words) => words,
        Err(ending) => return ending,
    };
    match read_words(rt.alloc(), &words) {
        Ok(ReadWords::Run(plan)) => show(rt, plan),
        Ok(ReadWords::Help(text)) => ended(rt, None, tell(rt, &text)),
        Ok(ReadWords::BadWords(text)) => faulty(said_of(rt, &words, &text)),
        Ok(ReadWords::BadValue(text)) => Ending::Faulty(text),
        Err(_) => Ending::Memory,
    }
}

// Reads and prints what is requested.
fn show(rt: &HostRuntime, plan: Plan) -> Ending<String> {
    let file = plan.file;
    let reading = Reading {
        file: file.as_deref(),
        delimiter: plan.delimiter,
        records: records_read(plan.head, plan.options.header),
    };
    let is_terminal = rt.stdout().is_terminal();
    let columns_shown = columns_shown(plan.all_columns, plan.width, is_terminal);
    let options = Options::of(plan.options, columns_shown, plan.tail);
    let outcome = print_file(rt, reading, plan.width, options);
    ended(rt, file.as_deref(), outcome)
}

// Prints the records of a file. Where their table is wider than requested, standard error says so.
fn print_file(
    rt: &HostRuntime,
    reading: Reading<'_>,
    width: WidthAsked,
    options: Options,
) -> Result<(), ProgramFault> {
    let input = input_of(rt, reading)?;
    let mut options = options;
    options.width = columns(rt, width)?;
    let records = &input.bytes[input.found.start..];
    if table(rt, records, input.found.delimiter, &options)? {
        let _ = eprintln!(rt;
            "basinmug: the table is wider than requested: --expanded shows records one below the other"
        );
    }
    Ok(())
}

// Which columns a table has: where the environment says how wide it is, and nobody sees it, all.
fn columns_shown(all: bool, width: WidthAsked, is_terminal: bool) -> ColumnsShown
    ensures { result ≡ columns_shown all width is_terminal }
{
    if all {
        return ColumnsShown::All;
    }
    match width {
        WidthAsked::Environment => {
            if is_terminal {
                ColumnsShown::Fitting
            } else {
                ColumnsShown::All
            }
        }
        WidthAsked::None | WidthAsked::Columns(_) => ColumnsShown::Fitting,
    }
}

// How many columns the table may have.
fn columns(rt: &HostRuntime, width: WidthAsked) -> Result<Option<usize>, ProgramFault>
    ensures width { IfOk result (IsWidthFor width) }
    ensures refused { IfErr result (λ fault. fault ≡ Memory) }
{
    match width {
        WidthAsked::None => Ok(None),
        WidthAsked::Columns(columns) => Ok(Some(columns)),
        WidthAsked::Environment => match env::var(rt, "COLUMNS") {
            Ok(text) => Ok(columns_in(text.as_str())),
            Err(VarError::OutOfMemory) => Err(ProgramFault::Memory),
            Err(_) => Ok(None),
        },
    }
}

// How many columns the text of `COLUMNS` requests.
fn columns_in(text: &str) -> Option<usize>
    ensures { result ≡ columns_in text.now }
{
    match column_of(text) {
        Some(0) | None => None,
        Some(columns) => Some(columns),
    }
}

// Prints the table, and returns whether it is wider than requested; where nobody reads it on, no. Its lines are kept
// in a buffer until they are many, so that a line costs no call of the system.
fn table(
    rt: &HostRuntime,
    bytes: &[u8],
    delimiter: u8,
    options: &Options,
) -> Result<bool, ProgramFault> {
    let output = Counted::new(Kept::new(rt.stdout()));
    let Ok(buffered) = BufWriter::with_capacity(rt.alloc(), OUTPUT_BUFFER, output) else {
        return Err(ProgramFault::Memory);
    };
    let mut writer = Counted::new(buffered);
    let outcome = run(rt.alloc(), bytes, delimiter, options, &mut writer);
    let (mut output, rest) = writer.into_inner().into_parts();
    match outcome {
        Ok(printed) => match write_all(&mut output, &rest) {
            Ok(()) => Ok(printed.wider),
            Err(fault) => {
                unless_closed(unwritten(fault, output))?;
                Ok(false)
            }
        },
        Err(fault) => {
            unless_closed(flushed(fault, bytes, output))?;
            Ok(false)
        }
    }
}

// Why the run over these bytes failed. A buffer says only that writing did: the output says whether it took nothing,
// and the reason of the system.
fn flushed<W: Write + Drop>(fault: RunFault, bytes: &[u8], output: Counted<Kept<W>>) -> ProgramFault
    ensures { result ≡ of_run fault bytes.now (empty_writes_of output) (error_of (inner_of output)) }
{
    match fault {
        RunFault::Input(InputFault::NotText { line, field }) => {
            ProgramFault::NotText(InputFault::NotText { line, field }, encoding_of(bytes))
        }
        RunFault::Print(PrintFault::Table(BuildFault::Write)) => {
            let fault = write_fault(output.empty_writes());
            unwritten(fault, output)
        }
        RunFault::Memory => ProgramFault::Memory,
        other => ProgramFault::Run(other),
    }
}

// Why a write failed of an output that took nothing of so many pieces.
fn write_fault(empty_writes: u64) -> WriteFault
    ensures { result ≡ write_fault empty_writes }
{
    if empty_writes == 0 {
        WriteFault::Write
    } else {
        WriteFault::WriteZero
    }
}

// Why an output did not take a text.
fn unwritten<W: Write + Drop>(fault: WriteFault, output: Counted<Kept<W>>) -> ProgramFault
    ensures { result ≡ of_writing fault (error_of (inner_of output)) }
{
    of_writing(fault, output.into_inner().error())
}

// Prints a text that was requested.
fn tell(rt: &HostRuntime, text: &str) -> Result<(), ProgramFault> {
    let mut writer = Counted::new(Kept::new(rt.stdout()));
    match write_all(&mut writer, text.as_bytes()) {
        Ok(()) => Ok(()),
        Err(fault) => unless_closed(unwritten(fault, writer)),
    }
}

// How the program ends by a call: where it failed, with the reason in one line, and with the name of its input where
// the error is one of it.
fn ended(
    rt: &HostRuntime,
    file: Option<&str>,
    outcome: Result<(), ProgramFault>,
) -> Ending<String> {
    let Err(fault) = outcome else {
        return Ending::Done;
    };
    let line = if fault.is_of_input() {
        let name = file.unwrap_or("standard input");
        format!(in rt.alloc(); "{name}: {fault}")
    } else {
        format!(in rt.alloc(); "{fault}")
    };
    match visible(rt, line) {
        Ok(line) => Ending::Failed(line),
        Err(_) => Ending::Memory,
    }
}

// A line in which names may hold anything: what would move a terminal's cursor is made visible.
fn visible(rt: &HostRuntime, line: Result<String, AllocError>) -> Result<String, AllocError> {
    with_visible_controls(rt.alloc(), line?.as_str())
}

// How the program ends where its arguments are wrong, with this message.
fn faulty(said: Result<String, AllocError>) -> Ending<String> {
    match said {
        Ok(said) => Ending::Faulty(said),
        Err(_) => Ending::Memory,
    }
}

// What is said of arguments that the command does not take. The parser names arguments, so it is said of the
// arguments with visible controls, and nothing in one moves a terminal's cursor. Should the command take these, it is
// the text itself, in one line.
fn said_of(rt: &HostRuntime, words: &[String], text: &str) -> Result<String, AllocError> {
    let mut visible_words = Vec::new(rt.alloc());
    for word in words {
        visible_words.push(with_visible_controls(rt.alloc(), word.as_str())?)?;
    }
    match read_words(rt.alloc(), &visible_words)? {
        ReadWords::BadWords(said) => Ok(said),
        ReadWords::Run(_) | ReadWords::Help(_) | ReadWords::BadValue(_) => in_one_line(rt, text),
    }
}

// A text as one line with its end, whose control characters are made visible.
fn in_one_line(rt: &HostRuntime, text: &str) -> Result<String, AllocError> {
    let mut line = with_visible_controls(rt.alloc(), text)?;
    line.push('\n')?;
    Ok(line)
}
