//! From a text in memory to its output.
ghost use Rattle.std.specs.Prelude.{◌≡◌, ◌≤◌, IfSome, length, take};
ghost use Rattle.basinmug_bounded.specs.Outputs.{HasRun, WroteAfter, sized, without_writer};
ghost use Rattle.basinmug_bounded.specs.Texts.{HaveRecords, IsTextFault, IsTextPrinted, PrintsText, delimited};

use crate::lent::{Lent, Limited};
use crate::refusal::Refusal;
use basinmug_delimiter::Found;
use basinmug_head::{asked_or_found, head_end, records_read};
use basinmug_run::{BuildFault, Options, PrintFault, Printed, RunFault, run};
use bounded_output::Bounded;
use std::alloc::Global;
use tabled_output::Counted;

/// What is printed.
#[derive(Clone, Copy, Debug, PartialEq, Eq)]
pub struct Size {
    /// How many bytes the whole output has.
    pub bytes: usize,
    /// Whether the table is wider than requested.
    pub wider: bool,
}

/// Prints the records of a text as `run` does, from the start of `out`, as far as they fit, and returns how many bytes
/// the whole output has. `delimiter` is between its fields, or what the text says if there is none. With a `head` the text
/// is read as if it ended after so many records below the header. What `out` holds after the output stays. The output may
/// have `max_size` bytes, and is refused as `OverMaxSize` if it has more, or `usize::MAX` of them. Other errors are those
/// of `run`, without those of a writer. Before an error of the text or a name `out` is as it was; else it may hold a prefix
/// of an output.
pub fn print_into(
    alloc: Global,
    options: &Options,
    delimiter: Option<u8>,
    head: Option<usize>,
    text: &[u8],
    max_size: usize,
    out: &mut [u8],
) -> Result<Size, Refusal>
    ensures { IsTextPrinted options.now delimiter head text.now max_size out.old out.new result }
{
    let found = asked_or_found(delimiter, text, None);
    let end = end_read(text, found, records_read(head, options.header));
    let records = &text[found.start..end];
    let most = max_size.min(usize::MAX - 1);
    let (outcome, bytes) = run_bounded(alloc, options, found.delimiter, records, most + 1, out);
    sized(outcome, bytes, most)
}

// Where the records of a text end that are read: the first so many, or all.
fn end_read(text: &[u8], found: Found, records: Option<usize>) -> usize
    requires { found.start ≤ length text.now }
    ensures starts { found.start ≤ result }
    ensures within { result ≤ length text.now }
    ensures read { HaveRecords found records text.now (take result text.now) }
{
    match records {
        Some(records) => head_end(text, found, records),
        None => text.len(),
    }
}

// Prints records from the start of `out`, of which at most so many bytes are taken, and counts these.
fn run_bounded(
    alloc: Global,
    options: &Options,
    delimiter: u8,
    records: &[u8],
    limit: usize,
    out: &mut [u8],
) -> (Result<Printed, RunFault>, usize)
    ensures { HasRun (PrintsText options.now (delimited delimiter records.now)) (IsTextFault options.now (delimited delimiter records.now)) limit out.old out.new result.0 result.1 }
{
    let mut writer = Bounded::new(out, limit);
    let outcome = run_to(alloc, options, delimiter, records, &mut writer);
    let bytes = writer.into_count();
    (outcome, bytes)
}

// Prints records into a writer, as `run` does.
fn run_to<W: Limited>(
    alloc: Global,
    options: &Options,
    delimiter: u8,
    records: &[u8],
    writer: &mut W,
) -> Result<Printed, RunFault>
    ensures { IfSome (W.contents writer.old) (WroteAfter (PrintsText options.now (delimited delimiter records.now)) (IsTextFault options.now (delimited delimiter records.now)) (W.contents writer.new) result) }
{
    let mut counted = Counted::new(Lent { writer });
    let outcome = run(alloc, records, delimiter, options, &mut counted);
    let Lent { writer } = counted.into_inner();
    // No effect at run time. The proof reads what the writer took from this use.
    let _ = &*writer;
    outcome
}

/// What is reported of a run that wrote so many bytes, of which `most` are allowed.
pub(crate) fn sized(
    outcome: Result<Printed, RunFault>,
    bytes: usize,
    most: usize,
) -> Result<Size, Refusal>
    ensures { result ≡ sized outcome bytes most }
{
    if bytes > most {
        return Err(Refusal::OverMaxSize);
    }
    match outcome {
        Ok(printed) => Ok(Size {
            bytes,
            wider: printed.wider,
        }),
        Err(fault) => Err(Refusal::Run(without_writer(fault))),
    }
}

// The error of a run, without those of a writer: it takes all bytes that are allowed, so there is none here.
fn without_writer(fault: RunFault) -> RunFault
    ensures { result ≡ without_writer fault }
{
    match fault {
        RunFault::Print(PrintFault::Table(BuildFault::Write | BuildFault::WriteZero)) => {
            RunFault::Memory
        }
        fault => fault,
    }
}
