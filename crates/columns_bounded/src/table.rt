//! The table of a text in memory, written into memory that may be too little.
ghost use Rattle.std.specs.Prelude.{◌≡◌, ◌≤◌, ◌↔◌, length, IfErr, IfOk, IsErrOf};
ghost use Rattle.bounded_output.specs.Filled.{filled};
ghost use Rattle.columns_run.specs.DrawnTables.{output_of};
ghost use Rattle.columns_run.specs.Narrow.{IsRunnable};
ghost use Rattle.columns_run.specs.Run.{MayAnswer, read_limit};
ghost use Rattle.columns_run.specs.Wanted.{wanted_of};

use bounded_output::fill;
use columns_run::{Counted, Options, RunFault, run};
use std::alloc::Global;

// How many bytes of text are too many.
pub(crate) const TOO_MANY: usize = 1 << 40;

/// Writes the table of a text from the start of `out`, as far as it fits, and returns how many bytes the whole table
/// has. What `out` holds after them stays; without a table all of it does. A text of 2^40 bytes or more is refused as
/// `ReadTooLong`; other errors are those of `run`. It never returns `Write` or `WriteZero`: if the table can't be held
/// in memory, it returns `Memory`.
pub fn table_into(
    alloc: Global,
    options: &Options,
    text: &[u8],
    out: &mut [u8],
) -> Result<usize, RunFault>
    requires { IsRunnable (wanted_of options.now) }
    ensures answers { MayAnswer (wanted_of options.now) text.now result }
    ensures size { IfOk result (λ size. size ≡ length (output_of (wanted_of options.now) text.now)) }
    ensures bytes { IfOk result (λ _. out.new ≡ filled out.old (output_of (wanted_of options.now) text.now)) }
    ensures nothing { IfErr result (λ _. out.new ≡ out.old) }
    ensures too_long { IsErrOf result RunFault.ReadTooLong ↔ read_limit ≤ length text.now }
    ensures no_write { ¬ (IsErrOf result RunFault.Write) × ¬ (IsErrOf result RunFault.WriteZero) }
{
    if text.len() >= TOO_MANY {
        return Err(RunFault::ReadTooLong);
    }
    let table = table_of(alloc, options, text)?;
    fill(out, &table);
    Ok(table.len())
}

// The whole table.
fn table_of(alloc: Global, options: &Options, text: &[u8]) -> Result<Vec<u8>, RunFault>
    requires { IsRunnable (wanted_of options.now) }
    ensures answers { MayAnswer (wanted_of options.now) text.now result }
    ensures table { IfOk result (λ table. table.items ≡ output_of (wanted_of options.now) text.now) }
    ensures no_write { ¬ (IsErrOf result RunFault.Write) × ¬ (IsErrOf result RunFault.WriteZero) }
{
    let mut reader = Counted::new(text);
    let mut writer = Counted::new(Vec::new(alloc));
    match run(alloc, options, &mut reader, &mut writer) {
        Ok(()) => Ok(writer.into_inner()),
        // A vector refuses bytes only if allocation fails.
        Err(RunFault::Write | RunFault::WriteZero) => Err(RunFault::Memory),
        Err(fault) => Err(fault),
    }
}
