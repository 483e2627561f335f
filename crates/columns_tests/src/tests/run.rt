//! What a run writes, whole and streamed, and when it fails.
ghost use Rattle.std.specs.Prelude.{◌≡◌, IfOk};
ghost use Rattle.columns_run.specs.DrawnTables.{output_of};
ghost use Rattle.columns_run.specs.Narrow.{IsRunnable};
ghost use Rattle.columns_run.specs.Wanted.{wanted_of};

use super::printing::{FAULTS, TABLES, WAYS, Way, defaults, expect_taken, print};
use super::readers::ByteReader;
use columns_run::{Counted, Options, RunFault, colors_close, run, style_is_plain};
use fakes::options::StepWriter;
use grid_config::{Indent, Sides};
use std::alloc::Global;
use std::io::ErrorKind;
use std::process::Abort;

const INPUT: &[u8] = b"a\tb\n1\t2\n";

// The table of `INPUT`.
const TABLE: &[u8] = b"+---+---+\n| a | b |\n+---+---+\n| 1 | 2 |\n+---+---+\n";

// By the contract of `run` its caller knows which bytes these are.
fn table_bytes(alloc: Global, options: &Options, input: &[u8]) -> Result<Vec<u8>, RunFault>
    requires { IsRunnable (wanted_of options.now) }
    ensures { IfOk result (λ bytes. bytes.items ≡ output_of (wanted_of options.now) input.now) }
{
    let mut writer = Counted::new(Vec::new(alloc));
    run(alloc, options, &mut Counted::new(input), &mut writer)?;
    Ok(writer.into_inner())
}

// The table, by pieces, to any reader and writer.
fn expect_pieces(rt: &impl Abort, alloc: Global, way: Way, input: &[u8], table: &[u8]) {
    for step in 1..7 {
        let mut reader = Counted::new(ByteReader::new(input));
        let mut writer = Counted::new(StepWriter::new(alloc, step, 0));
        let result = print(way, alloc, &defaults(rt, alloc), &mut reader, &mut writer);
        assert_eq!(rt; result, Ok(()), "by {step}");
        expect_taken(rt, writer, (0, 0), table);
    }
}

#[test]
fn writes_the_table(rt: HostRuntime) -> Result<(), RunFault> {
    for (input, table) in TABLES {
        let (input, table) = (input.as_bytes(), table.as_bytes());
        assert_eq!(&rt;
            table_bytes(rt.alloc(), &defaults(&rt, rt.alloc()), input)?.as_slice(),
            table
        );
        expect_pieces(&rt, rt.alloc(), Way::Whole, input, table);
        expect_pieces(&rt, rt.alloc(), Way::Streamed, input, table);
    }
    Ok(())
}

// The error of an input, and that nothing is written before it.
fn expect_input_fault(rt: &impl Abort, alloc: Global, way: Way, input: &[u8], fault: RunFault) {
    let mut writer = Counted::new(StepWriter::new(alloc, 1, 0));
    let mut reader = Counted::new(input);
    let result = print(way, alloc, &defaults(rt, alloc), &mut reader, &mut writer);
    assert_eq!(rt; result, Err(fault), "{input:?}");
    expect_taken(rt, writer, (0, 0), b"");
}

#[test]
fn refuses_what_is_no_whole_text(rt: HostRuntime) {
    for (input, fault) in FAULTS {
        expect_input_fault(&rt, rt.alloc(), Way::Whole, input, *fault);
        expect_input_fault(&rt, rt.alloc(), Way::Streamed, input, *fault);
    }
}

// What the call returns with this writer, the counts then, and what the writer accepted.
fn expect_written(
    rt: &impl Abort,
    alloc: Global,
    way: Way,
    input: &[u8],
    writer: StepWriter,
    answer: Result<(), RunFault>,
    counts: (u64, u64),
    taken: &[u8],
) {
    let mut reader = Counted::new(input);
    let mut writer = Counted::new(writer);
    let result = print(way, alloc, &defaults(rt, alloc), &mut reader, &mut writer);
    assert_eq!(rt; result, answer, "{taken:?}");
    expect_taken(rt, writer, counts, taken);
}

// A write that fails leaves a prefix.
fn expect_front(rt: &impl Abort, alloc: Global, way: Way, kind: ErrorKind) {
    let fault = Err(RunFault::Write);
    for bad_call in 1..=TABLE.len() {
        let writer = StepWriter::failing(alloc, 1, bad_call, kind);
        let front = &TABLE[..bad_call - 1];
        expect_written(rt, alloc, way, INPUT, writer, fault, (1, 0), front);
    }
}

#[test]
fn a_write_that_fails_leaves_a_front(rt: HostRuntime) {
    for way in WAYS {
        expect_front(&rt, rt.alloc(), way, ErrorKind::Other);
        expect_front(&rt, rt.alloc(), way, ErrorKind::Interrupted);
    }
}

// A writer that accepts nothing once it is full is refused.
fn expect_full(rt: &impl Abort, alloc: Global, way: Way) {
    let fault = Err(RunFault::WriteZero);
    for room in 0..TABLE.len() {
        let writer = StepWriter::filling(alloc, 1, room);
        expect_written(rt, alloc, way, INPUT, writer, fault, (0, 1), &TABLE[..room]);
    }
}

// So is one that accepts nothing at all, except where there is nothing to write.
fn expect_closed(rt: &impl Abort, alloc: Global, way: Way) {
    let closed = StepWriter::new(alloc, 0, 0);
    expect_written(rt, alloc, way, b"", closed, Ok(()), (0, 0), b"");
    let closed = StepWriter::new(alloc, 0, 0);
    let fault = Err(RunFault::WriteZero);
    expect_written(rt, alloc, way, INPUT, closed, fault, (0, 1), b"");
}

#[test]
fn a_writer_that_takes_nothing_is_refused(rt: HostRuntime) {
    for way in WAYS {
        expect_full(&rt, rt.alloc(), way);
        expect_closed(&rt, rt.alloc(), way);
    }
}

// A table past the greatest width is refused by that name.
fn expect_range(rt: &impl Abort, alloc: Global, way: Way) {
    let (none, endless) = (Indent::spaced(0), Indent::spaced(usize::MAX));
    let style = defaults(rt, alloc)
        .style
        .set_padding(Sides::new(endless, none, none, none));
    let options = Options {
        style,
        ..Options::new(alloc)
    };
    assert!(rt; style_is_plain(&options.style));
    assert!(rt; colors_close(&options));
    let mut reader = Counted::new(b"a\n".as_slice());
    let mut writer = Counted::new(StepWriter::new(alloc, 1, 0));
    let result = print(way, alloc, &options, &mut reader, &mut writer);
    assert_eq!(rt; result, Err(RunFault::Range));
    expect_taken(rt, writer, (0, 0), b"");
}

#[test]
fn a_table_that_is_too_wide_is_refused(rt: HostRuntime) {
    expect_range(&rt, rt.alloc(), Way::Whole);
    expect_range(&rt, rt.alloc(), Way::Streamed);
}
