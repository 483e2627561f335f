//! The bytes that a run prints, and what is between their fields.
ghost use Rattle.std.specs.Prelude.{◌≡◌, ◌^◌, IfOk, IfSome, IsErrOf, None, OnOk, option_copied};
ghost use Rattle.tabled_output.specs.Counts.{FailsIff, HasGivenPieces, OnlyReads, TellsEnd, inner_of};
ghost use Rattle.tabled_output.specs.Streams.{ConsumesSome};
ghost use Rattle.basinmug.specs.Inputs.{IsInputOf};

use crate::fault::{ProgramFault, of_reading};
use crate::kept::Kept;
use basinmug_head::{Head, asked_or_found, read_head};
use std::fs::File;
use std::io::{IsTerminal, Read};
use tabled_output::{Counted, ReadFault, read_to_end};

// How many reads of an input there are at most, in a row.
const READS: u64 = 1 << 40;

/// What is read of an input, by the arguments.
#[derive(Clone, Copy)]
pub struct Reading<'a> {
    /// The path of the file; none for standard input.
    pub file: Option<&'a str>,
    /// The byte between fields, where it is requested.
    pub delimiter: Option<u8>,
    /// How many records are read at most; none where all are.
    pub records: Option<usize>,
}

/// The bytes of a file, or of standard input where there is none, up to the end of the last record that is requested,
/// and what is between their fields.
pub fn input_of(rt: &HostRuntime, reading: Reading<'_>) -> Result<Head, ProgramFault> {
    match reading.file {
        Some(path) => match File::open(rt, path) {
            Ok(opened) => input_in(rt, opened, reading),
            Err(error) => Err(ProgramFault::Open(error)),
        },
        None => {
            say_terminal(rt);
            input_in(rt, rt.stdin(), reading)
        }
    }
}

// Says on standard error that standard input is read, where it is a terminal: nothing else shows that.
fn say_terminal(rt: &HostRuntime) {
    if rt.stdin().is_terminal() {
        let _ = eprintln!(rt;
            "basinmug: reading from the terminal: Ctrl-D on a line of its own ends the text"
        );
    }
}

// The same of a reader.
fn input_in<R: Read + Drop>(
    rt: &HostRuntime,
    reader: R,
    reading: Reading<'_>,
) -> Result<Head, ProgramFault> {
    let mut counted = Counted::new(Kept::new(reader));
    match read_input(rt, &mut counted, reading) {
        Ok(input) => Ok(input),
        Err(fault) => Err(of_reading(fault, counted.into_inner().error())),
    }
}

// All that a reader gives, or its first records. It fails with `TooLong` after 2^40 reads that gave bytes.
fn read_input<R: Read>(
    rt: &HostRuntime,
    reader: &mut Counted<R>,
    reading: Reading<'_>,
) -> Result<Head, ReadFault>
    ensures input { IfOk result (λ input. IfSome (R.remaining (inner_of reader.old))
        (IsInputOf reading.entry.delimiter (option_copied reading.entry.file) reading.entry.records input)) }
    ensures some_text { IfOk result (λ input. ConsumesSome (R.remaining (inner_of reader.old)) (R.remaining (inner_of reader.new))
        (IsInputOf reading.entry.delimiter (option_copied reading.entry.file) reading.entry.records input)) }
    ensures whole { OnOk result (reading.entry.records ≡ None → TellsEnd reader.old reader.new) }
    ensures read { FailsIff (IsErrOf result ReadFault.Read) reader.old reader.new }
    ensures too_long { IsErrOf result ReadFault.TooLong → HasGivenPieces reader.old reader.new (2 ^ 40) }
    ensures only_reads { OnlyReads reader.old reader.new }
{
    let Some(records) = reading.records else {
        let bytes = read_to_end(rt.alloc(), reader, READS)?;
        let found = asked_or_found(reading.delimiter, &bytes, reading.file);
        return Ok(Head { bytes, found });
    };
    read_head(
        rt.alloc(),
        reader,
        reading.delimiter,
        reading.file,
        records,
        READS,
    )
}
