//! The calls that print a table, and what is expected of them.
ghost use Rattle.columns_run.specs.Narrow.{IsRunnable};
ghost use Rattle.columns_run.specs.Wanted.{wanted_of};

use columns_run::{Counted, Options, RunFault, colors_close, run, run_streamed, style_is_plain};
use fakes::options::StepWriter;
use std::alloc::Global;
use std::io::{Read, Write};
use std::process::Abort;
use tabled_size_priority::Choice;

// Inputs, and their tables worked out by hand.
pub const TABLES: &[(&str, &str)] = &[
    ("", ""),
    (
        "a\tb\n1\t2\n",
        "+---+---+\n| a | b |\n+---+---+\n| 1 | 2 |\n+---+---+\n",
    ),
    (
        "\u{1b}[31mab\tc\n",
        "+----+---+\n| \u{1b}[31mab\u{1b}[39m | \u{1b}[31mc\u{1b}[39m |\n+----+---+\n",
    ),
    (
        "\u{1b}[1ma\nb\u{1b}[0m\n",
        "+---+\n| \u{1b}[1ma\u{1b}[22m |\n+---+\n| \u{1b}[1mb\u{1b}[0m |\n+---+\n",
    ),
    (
        "a\tb\nc\n",
        "+---+---+\n| a | b |\n+---+---+\n| c |   |\n+---+---+\n",
    ),
    ("\n", "+--+\n|  |\n+--+\n"),
    ("\u{1b}[31m", ""),
    (
        "\u{1b}]0;a\tb\u{7}x\n",
        "+---+\n| \u{1b}]0;a\tb\u{7}x |\n+---+\n",
    ),
    (
        "\u{1b}[31ma\u{1b}[31mb\n",
        "+----+\n| \u{1b}[31ma\u{1b}[31mb\u{1b}[39m |\n+----+\n",
    ),
];

// Inputs that have no table, and why.
pub const FAULTS: &[(&[u8], RunFault)] = &[
    (b"\x1b", RunFault::Escape { at: 0 }),
    (b"a\xff", RunFault::NotUtf8 { at: 1 }),
    (b"\x1b\xff", RunFault::NotUtf8 { at: 1 }),
    (b"\x1b[31m\x1b[1", RunFault::Escape { at: 5 }),
    (b"\x1b]0;a", RunFault::Escape { at: 0 }),
];

/// The call that prints a table.
#[derive(Clone, Copy)]
pub(crate) enum Way {
    Whole,
    Streamed,
}

/// Both.
pub(crate) const WAYS: [Way; 2] = [Way::Whole, Way::Streamed];

/// The defaults, whose style is narrow, and which have no colours.
pub(crate) fn defaults(rt: &impl Abort, alloc: Global) -> Options
    ensures { IsRunnable (wanted_of result) }
{
    let options = Options::new(alloc);
    assert!(rt; style_is_plain(&options.style));
    options
}

/// What the call returns.
pub(crate) fn print<R: Read, W: Write>(
    way: Way,
    alloc: Global,
    options: &Options,
    reader: &mut Counted<R>,
    writer: &mut Counted<W>,
) -> Result<(), RunFault>
    requires { IsRunnable (wanted_of options.now) }
{
    match way {
        Way::Whole => run(alloc, options, reader, writer),
        Way::Streamed => run_streamed(alloc, &options.style, reader, writer),
    }
}

/// That `failures` calls failed, and `empty_writes` writes accepted nothing.
pub(crate) fn expect_counts<T>(
    rt: &impl Abort,
    counted: &Counted<T>,
    failures: u64,
    empty_writes: u64,
) {
    assert_eq!(rt;
        (counted.failures(), counted.empty_writes()),
        (failures, empty_writes)
    );
}

/// That so many calls of a writer failed, that so many writes accepted nothing, and what it accepted.
pub(crate) fn expect_taken(
    rt: &impl Abort,
    writer: Counted<StepWriter>,
    counts: (u64, u64),
    taken: &[u8],
) {
    expect_counts(rt, &writer, counts.0, counts.1);
    assert_eq!(rt; writer.into_inner().taken.as_slice(), taken);
}

// The options, an input, and its table.
#[derive(Clone, Copy)]
pub(super) struct Case {
    pub(super) width: Option<usize>,
    pub(super) truncate: bool,
    pub(super) keep_words: bool,
    pub(super) priority: Choice,
    pub(super) input: &'static str,
    pub(super) table: &'static str,
}

pub(super) fn expect_case(rt: &impl Abort, alloc: Global, case: &Case) {
    let options = Options {
        width: case.width,
        truncate: case.truncate,
        keep_words: case.keep_words,
        priority: case.priority,
        ..defaults(rt, alloc)
    };
    assert!(rt; style_is_plain(&options.style));
    assert!(rt; colors_close(&options));
    let mut reader = Counted::new(case.input.as_bytes());
    let mut writer = Counted::new(StepWriter::new(alloc, 3, 0));
    let result = run(alloc, &options, &mut reader, &mut writer);
    assert_eq!(rt; result, Ok(()), "{}", case.input);
    expect_taken(rt, writer, (0, 0), case.table.as_bytes());
}
