//! The table of a text in memory, of which the size is limited.
ghost use Rattle.std.specs.Prelude.{◌≡◌, IfErr, IfOk, Some};
ghost use Rattle.columns_bounded.specs.Answers.{IsTable};
ghost use Rattle.columns_bounded.specs.Kept.{IsKeptTable, IsNotKept, fault_over};
ghost use Rattle.columns_run.specs.Narrow.{IsRunnable};
ghost use Rattle.columns_run.specs.Wanted.{wanted_of};

use crate::fault::AnswerFault;
use crate::kept::Kept;
use crate::table::TOO_MANY;
use bounded_output::fill;
use columns_run::{Counted, Options, RunFault, run};
use std::alloc::Global;

/// Does what `table_into` does with a table that has at most so many bytes, and holds no more of it. A larger one is refused
/// as `OverMaxSize`, as soon as it passes that size. What `out` holds then stays.
pub fn table_within(
    alloc: Global,
    options: &Options,
    text: &[u8],
    most: usize,
    out: &mut [u8],
) -> Result<usize, AnswerFault>
    requires { IsRunnable (wanted_of options.now) }
    ensures { IsTable (wanted_of options.now) (Some most) text.now out.old out.new result }
{
    if text.len() >= TOO_MANY {
        return Err(AnswerFault::Text(RunFault::ReadTooLong));
    }
    let table = table_kept(alloc, options, text, most)?;
    fill(out, &table);
    Ok(table.len())
}

// The whole table, if it has at most so many bytes.
fn table_kept(
    alloc: Global,
    options: &Options,
    text: &[u8],
    most: usize,
) -> Result<Vec<u8>, AnswerFault>
    requires { IsRunnable (wanted_of options.now) }
    ensures table { IfOk result (λ table. IsKeptTable (wanted_of options.now) most text.now table.items) }
    ensures err { IfErr result (IsNotKept (wanted_of options.now) most text.now) }
{
    let mut reader = Counted::new(text);
    let mut writer = Counted::new(Kept::new(alloc, most));
    let outcome = run(alloc, options, &mut reader, &mut writer);
    let Some(table) = writer.into_inner().into_whole() else {
        return Err(fault_over(outcome));
    };
    match outcome {
        Ok(()) => Ok(table),
        // What is kept refuses bytes that it may keep only if allocation fails.
        Err(RunFault::Write | RunFault::WriteZero) => Err(AnswerFault::Text(RunFault::Memory)),
        Err(fault) => Err(AnswerFault::Text(fault)),
    }
}

// What is reported of a run that wrote more bytes than may be kept.
fn fault_over(outcome: Result<(), RunFault>) -> AnswerFault
    ensures { result ≡ fault_over outcome }
{
    match outcome {
        Ok(()) | Err(RunFault::Write | RunFault::WriteZero) => AnswerFault::OverMaxSize,
        Err(fault) => AnswerFault::Text(fault),
    }
}
