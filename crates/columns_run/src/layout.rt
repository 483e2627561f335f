//! The table of a text.
ghost use Rattle.std.specs.Prelude.{◌≡◌};
ghost use Rattle.ansi_scan.specs.Sequences.{IsFirstBroken, IsWhole};
ghost use Rattle.columns_run.specs.Fault.{run_answer};
ghost use Rattle.columns_run.specs.Wanted.{limit_of, wanted_of};
ghost use Rattle.columns_run.specs.Written.{WritesTable};

use crate::rows_without_escape::rows_of;
use crate::styled_rows::{StyledCells, styled_cells};
use ansi_scan::first_broken;
use columns_asked::WidthLimit;
use columns_table::{Rows, write_buffered_rows};
use grid_config::Fault;
use program_options::columns::{Options, RunFault};
use std::alloc::Global;
use std::io::Write;
use tabled_output::{Counted, WriteFault};

/// Writes the table of a text, each of its lines ended by a line feed; nothing where the text has no rows. Lines are
/// held in a buffer of so many bytes; where it has no bytes, each is written as soon as it is made. The text is refused
/// as `MayEndBy` says, before anything is written. A text without ESC is not copied.
pub fn write_text<W: Write>(
    alloc: Global,
    options: &Options,
    text: &str,
    size: usize,
    writer: &mut Counted<W>,
) -> Result<(), RunFault>
    ensures { WritesTable W.contents (wanted_of options.now) text.now result writer.old writer.new }
{
    let Some(rows) = rows_of(alloc, text)? else {
        return write_styled(alloc, options, text, size, writer);
    };
    let limit = limit_of(options);
    let colors = options.colors.as_slice();
    answer(write_buffered_rows(alloc, &options.style, &limit, colors, rows, size, writer))
}

// The same of a text with sequences.
fn write_styled<W: Write>(
    alloc: Global,
    options: &Options,
    text: &str,
    size: usize,
    writer: &mut Counted<W>,
) -> Result<(), RunFault>
    ensures { WritesTable W.contents (wanted_of options.now) text.now result writer.old writer.new }
{
    let Some(StyledCells { text: own, rows }) = styled_cells(alloc, text)? else {
        return Err(RunFault::Escape {
            at: broken_place(text),
        });
    };
    let rows = Rows::of(&own, rows);
    let limit = limit_of(options);
    let colors = options.colors.as_slice();
    answer(write_buffered_rows(alloc, &options.style, &limit, colors, rows, size, writer))
}

// What a run returns where the table was written so, or not.
fn answer(written: Result<Result<(), WriteFault>, Fault>) -> Result<(), RunFault>
    ensures { result ≡ run_answer written }
{
    match written {
        Ok(Ok(())) => Ok(()),
        Ok(Err(fault)) => Err(fault.into()),
        Err(fault) => Err(fault.into()),
    }
}

// The place of the first broken ESC.
fn broken_place(text: &str) -> usize
    requires { ¬ IsWhole text.now }
    ensures { IsFirstBroken text.now result }
{
    first_broken(text).unwrap_or(0)
}

// The width that is requested for the table, and how it gets narrower.
fn limit_of(options: &Options) -> WidthLimit
    ensures { result ≡ limit_of options.now }
{
    WidthLimit {
        width: options.width,
        truncate: options.truncate,
        keep_words: options.keep_words,
        priority: options.priority,
    }
}
