//! A run in which an allocation fails leaves a prefix of the table. `tests/memory` runs these tests with each request
//! for memory refused in turn, and the refusal is passed on.
ghost use Rattle.columns_run.specs.Narrow.{IsRunnable};
ghost use Rattle.columns_run.specs.Wanted.{wanted_of};

use super::printing::defaults;
use columns_run::{Counted, Options, RunFault, colors_close, run, style_is_plain};
use grid_config::ANSIBuf;
use std::alloc::{AllocError, Global};
use std::io;
use std::io::{ErrorKind, Print, Write};
use std::process::Abort;

// Accepts the next bytes of a table, and nothing else; it does not allocate.
#[derive(Drop)]
struct RestOf<'a> {
    left: &'a [u8],
}

impl Write for RestOf<'_> {
    fn write(&mut self, buf: &[u8]) -> io::Result<usize> {
        match self.left.strip_prefix(buf) {
            Some(left) => {
                self.left = left;
                Ok(buf.len())
            }
            None => Err(io::Error::from(ErrorKind::Other)),
        }
    }

    fn flush(&mut self) -> io::Result<()> {
        Ok(())
    }
}

// A run writes this table, or a prefix of it and fails; then it reports what was written. Other bytes are a failed
// write.
fn expect_front<R: Abort + Print>(
    rt: &R,
    alloc: Global,
    options: &Options,
    input: &str,
    table: &str,
) -> Result<(), RunFault>
    requires { IsRunnable (wanted_of options.now) }
{
    let mut reader = Counted::new(input.as_bytes());
    let mut writer = Counted::new(RestOf {
        left: table.as_bytes(),
    });
    let outcome = run(alloc, options, &mut reader, &mut writer);
    let left = writer.into_inner().left.len();
    match outcome {
        Ok(()) => assert_eq!(rt; left, 0, "bytes are left of the table"),
        Err(_) if left < table.len() => {
            let _ = println!(rt; "{left} bytes are left of the table");
        }
        Err(_) => {}
    }
    outcome
}

#[test]
fn a_worked_row(rt: HostRuntime) -> Result<(), RunFault> {
    let table = "+---+---+\n| a | b |\n+---+---+\n| 1 | 2 |\n+---+---+\n";
    expect_front(
        &rt,
        rt.alloc(),
        &defaults(&rt, rt.alloc()),
        "a\tb\n1\t2\n",
        table,
    )
}

// The second row has four bytes for each of the first.
#[test]
fn a_line_that_is_longer(rt: HostRuntime) -> Result<(), RunFault> {
    let input = "aaaaaaaaaaaaaaaa\n𐍈𐍈𐍈𐍈𐍈𐍈𐍈𐍈𐍈𐍈𐍈𐍈𐍈𐍈𐍈𐍈\n";
    let table =
        "+------------------+\n| aaaaaaaaaaaaaaaa |\n+------------------+\n| 𐍈𐍈𐍈𐍈𐍈𐍈𐍈𐍈𐍈𐍈𐍈𐍈𐍈𐍈𐍈𐍈 |\n+------------------+\n";
    expect_front(&rt, rt.alloc(), &defaults(&rt, rt.alloc()), input, table)
}

// The defaults, with the second column in red.
fn in_red(alloc: Global) -> Result<Options, AllocError> {
    let mut options = Options::new(alloc);
    let red = ANSIBuf::new(alloc, "\u{1b}[31m", "\u{1b}[39m")?;
    options.colors.push((1, red))?;
    Ok(options)
}

#[test]
fn a_red_column(rt: HostRuntime) -> Result<(), RunFault> {
    let options = in_red(rt.alloc())?;
    assert!(&rt; style_is_plain(&options.style));
    assert!(&rt; colors_close(&options));
    let table =
        "+---+---+\n| a | \u{1b}[31mb\u{1b}[39m |\n+---+---+\n| 1 | \u{1b}[31m2\u{1b}[39m |\n+---+---+\n";
    expect_front(&rt, rt.alloc(), &options, "a\tb\n1\t2\n", table)
}

// A style that goes on from one row to the next.
#[test]
fn rows_in_a_style(rt: HostRuntime) -> Result<(), RunFault> {
    let table = "+---+\n| \u{1b}[1ma\u{1b}[22m |\n+---+\n| \u{1b}[1mb\u{1b}[0m |\n+---+\n";
    expect_front(
        &rt,
        rt.alloc(),
        &defaults(&rt, rt.alloc()),
        "\u{1b}[1ma\nb\u{1b}[0m\n",
        table,
    )
}
