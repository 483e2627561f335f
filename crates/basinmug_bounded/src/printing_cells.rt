//! From records as cells to their output.
ghost use Rattle.std.specs.Prelude.{◌≡◌, ◌⊎◌, IfErr, IfOk, IfSome, OnErr};
ghost use Rattle.basinmug_run.specs.Runs.{IsRunWithoutText, PrintsRows, PrintsRowsFront};
ghost use Rattle.tabled_output.specs.Counts.{inner_of};
ghost use Rattle.basinmug_bounded.specs.Cells.{given_by};
ghost use Rattle.basinmug_bounded.specs.CellOutputs.{IsCellsPrinted, IsRowsPrinted, IsReadFault, PrintsRead};
ghost use Rattle.basinmug_bounded.specs.Outputs.{HasRun, WroteAfter};

use crate::cells::{Cells, rows_of_cells};
use crate::lent::{Lent, Limited};
use crate::printing::{Size, sized};
use crate::refusal::Refusal;
use basinmug_cells::Rows;
use basinmug_head::records_read;
use basinmug_run::{Options, Printed, RunFault, print_rows};
use bounded_output::Bounded;
use std::alloc::Global;
use std::io::Write;
use tabled_output::Counted;

/// Prints records of cells as `print_rows` does, from the start of `out`, as far as they fit, and returns how many bytes the
/// whole output has. What `out` holds after the output stays. The output may have `max_size` bytes, as for `print_into`.
/// With a `head` the cells of so many records below the header are read, and no others. Cells that are no records, or those
/// that are read and can't be shown, are refused first, and then `out` is as it was.
pub fn print_cells_into(
    alloc: Global,
    options: &Options,
    head: Option<usize>,
    cells: Cells<'_>,
    max_size: usize,
    out: &mut [u8],
) -> Result<Size, Refusal>
    ensures { IsCellsPrinted options.now head (given_by cells.entry) max_size out.old out.new result }
{
    let records = records_read(head, options.header);
    let rows = rows_of_cells(alloc, cells, records, options.escapes)?;
    rows_into(alloc, options, rows, max_size, out)
}

// Prints rows from the start of `out`, as far as they fit.
fn rows_into(
    alloc: Global,
    options: &Options,
    rows: Rows<'_>,
    max_size: usize,
    out: &mut [u8],
) -> Result<Size, Refusal>
    ensures { IsRowsPrinted options.now rows.entry.rows max_size out.old out.new result }
{
    let most = max_size.min(usize::MAX - 1);
    let (outcome, bytes) = rows_bounded(alloc, options, rows, most + 1, out);
    sized(outcome, bytes, most)
}

// Prints rows from the start of `out`, of which at most so many bytes are taken, and counts these.
fn rows_bounded(
    alloc: Global,
    options: &Options,
    rows: Rows<'_>,
    limit: usize,
    out: &mut [u8],
) -> (Result<Printed, RunFault>, usize)
    ensures { HasRun (PrintsRead options.now rows.entry.rows) (IsReadFault options.now rows.entry.rows) limit out.old out.new result.0 result.1 }
{
    let mut writer = Bounded::new(out, limit);
    let outcome = rows_to(alloc, options, rows, &mut writer);
    let bytes = writer.into_count();
    (outcome, bytes)
}

// Prints rows into a writer, as `print_rows` does.
fn rows_to<W: Limited>(
    alloc: Global,
    options: &Options,
    rows: Rows<'_>,
    writer: &mut W,
) -> Result<Printed, RunFault>
    ensures { IfSome (W.contents writer.old) (WroteAfter (PrintsRead options.now rows.entry.rows) (IsReadFault options.now rows.entry.rows) (W.contents writer.new) result) }
{
    let mut counted = Counted::new(Lent { writer });
    let outcome = run_rows(alloc, options, rows, &mut counted);
    let Lent { writer } = counted.into_inner();
    // No effect at run time. The proof reads what the writer took from this use.
    let _ = &*writer;
    outcome
}

// Prints rows as `print_rows` does, whose errors are then those of a run.
fn run_rows<W: Write>(
    alloc: Global,
    options: &Options,
    rows: Rows<'_>,
    writer: &mut Counted<W>,
) -> Result<Printed, RunFault>
    ensures printed { IfOk result (λ printed. PrintsRows options.now rows.entry.rows printed.wider (W.contents (inner_of writer.old)) (W.contents (inner_of writer.new))) }
    ensures front { OnErr result ((writer.new ≡ writer.old) ⊎
        PrintsRowsFront options.now rows.entry.rows (W.contents (inner_of writer.old)) (W.contents (inner_of writer.new))) }
    ensures untouched { IfErr result (λ fault. IsRunWithoutText fault → writer.new ≡ writer.old) }
    ensures refused { IfErr result (IsReadFault options.now rows.entry.rows) }
{
    let printed = print_rows(alloc, rows, options, writer)?;
    Ok(printed)
}
