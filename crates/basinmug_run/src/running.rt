//! From bytes to a writer: the rows, and their table.
ghost use Rattle.std.specs.Prelude.{◌≡◌, ◌⊎◌, IfErr, IfOk, IsErrOf, OnErr, OnOk};
ghost use Rattle.tabled_output.specs.Counts.{WritesUntil, inner_of};
ghost use Rattle.basinmug_input.specs.Faults.{IsReadable};
ghost use Rattle.basinmug_input.specs.Reading.{settings};
ghost use Rattle.basinmug_input.specs.Rows.{rows_in, text_of_bytes};
ghost use Rattle.basinmug_run.specs.Picture.Known.{AreKnown};
ghost use Rattle.basinmug_run.specs.Picture.Printed.{IsWithoutText};
ghost use Rattle.basinmug_run.specs.Kept.{kept_view};
ghost use Rattle.basinmug_run.specs.Runs.{IsAsTableFault, IsColumnsFault, IsKeptFault, PrintsAsTable, PrintsAsTableFront, PrintsColumns, PrintsColumnsFront, PrintsKept, PrintsKeptFront, PrintsRowsFront, PrintsTextFront, IsRunWithoutText, IsRunFault, IsRowsFault, PrintsRows};

use crate::columns::{named_in, own_options, with_columns};
use crate::fault::RunFault;
use crate::kept::{KeptRows, choice_of, kept_of, kept_read};
use crate::options::Options;
use crate::picture::{ColumnFacts, PrintFault, Printed, Shown, print_shown};
use crate::records::print_records;
use crate::table_columns::{WholeRows, columns_of_table, whole_rows};
use basinmug_cells::Rows;
use basinmug_input::rows_of;
use std::alloc::Global;
use std::io::Write;
use tabled_output::{BuildFault, Counted};

/// Prints the records of a text in which the byte `delimiter` separates fields, as the options request: as a table,
/// or one below the other, of all their columns or of those that are chosen. `RunFault` says when it fails, in its
/// order; before an error of the text, a name that is missing or a refusal of the table nothing is written, and else
/// a prefix of what is printed may be. It returns whether the table is wider than requested. Nothing is flushed.
pub fn run<W: Write>(
    alloc: Global,
    bytes: &[u8],
    delimiter: u8,
    options: &Options,
    writer: &mut Counted<W>,
) -> Result<Printed, RunFault>
    ensures readable { OnOk result (IsReadable options.now.escapes (settings delimiter) (text_of_bytes bytes.now)) }
    ensures printed { IfOk result (λ printed. PrintsRows options.now (rows_in options.now.escapes delimiter bytes.now) printed.wider (W.contents (inner_of writer.old)) (W.contents (inner_of writer.new))) }
    ensures front { OnErr result ((writer.new ≡ writer.old) ⊎
        PrintsTextFront delimiter bytes.now options.now (W.contents (inner_of writer.old)) (W.contents (inner_of writer.new))) }
    ensures untouched { IfErr result (λ fault. IsRunWithoutText fault → writer.new ≡ writer.old) }
    ensures refused { IfErr result (IsRunFault delimiter bytes.now options.now) }
    ensures writer { WritesUntil (IsErrOf result (RunFault.Print (PrintFault.Table BuildFault.Write))) (IsErrOf result (RunFault.Print (PrintFault.Table BuildFault.WriteZero))) writer.old writer.new }
{
    let read = rows_of(alloc, bytes, delimiter, options.escapes, choice_of(options))?;
    let kept = kept_read(read, options);
    let printed = print_kept(alloc, kept, options, writer)?;
    Ok(printed)
}

/// Prints rows as the options request: as a table, or one below the other, of all their columns, of those that are
/// chosen, or of those of them that fit. Refused as `NoColumn` with the first name that the rows do not have, as `Table`
/// where the table has no text or the writer fails, and as `Memory` where allocation fails; before a name that is missing
/// or a refusal of the table nothing is written. It returns whether the table is wider than requested. Nothing is
/// flushed.
pub fn print_rows<W: Write>(
    alloc: Global,
    rows: Rows<'_>,
    options: &Options,
    writer: &mut Counted<W>,
) -> Result<Printed, PrintFault>
    ensures printed { IfOk result (λ printed. PrintsRows options.now rows.entry.rows printed.wider (W.contents (inner_of writer.old)) (W.contents (inner_of writer.new))) }
    ensures front { OnErr result ((writer.new ≡ writer.old) ⊎
        PrintsRowsFront options.now rows.entry.rows (W.contents (inner_of writer.old)) (W.contents (inner_of writer.new))) }
    ensures untouched { IfErr result (λ fault. IsWithoutText fault → writer.new ≡ writer.old) }
    ensures refused { IfErr result (IsRowsFault options.now rows.entry.rows) }
    ensures writer { WritesUntil (IsErrOf result (PrintFault.Table BuildFault.Write)) (IsErrOf result (PrintFault.Table BuildFault.WriteZero)) writer.old writer.new }
{
    let kept = kept_of(rows, options);
    print_kept(alloc, kept, options, writer)
}

// Prints the rows that are shown, as `print_rows` does.
fn print_kept<W: Write>(
    alloc: Global,
    kept: KeptRows<'_>,
    options: &Options,
    writer: &mut Counted<W>,
) -> Result<Printed, PrintFault>
    ensures printed { IfOk result (λ printed. PrintsKept options.now (kept_view kept.entry) printed.wider (W.contents (inner_of writer.old)) (W.contents (inner_of writer.new))) }
    ensures front { OnErr result ((writer.new ≡ writer.old) ⊎
        PrintsKeptFront options.now (kept_view kept.entry) (W.contents (inner_of writer.old)) (W.contents (inner_of writer.new))) }
    ensures untouched { IfErr result (λ fault. IsWithoutText fault → writer.new ≡ writer.old) }
    ensures refused { IfErr result (IsKeptFault options.now (kept_view kept.entry)) }
    ensures writer { WritesUntil (IsErrOf result (PrintFault.Table BuildFault.Write)) (IsErrOf result (PrintFault.Table BuildFault.WriteZero)) writer.old writer.new }
{
    if options.expanded {
        return print_records(alloc, kept, options, writer);
    }
    print_as_table(alloc, kept, options, writer)
}

// Prints rows as a table: of all their columns where none are chosen and all fit, or of those that it has.
fn print_as_table<W: Write>(
    alloc: Global,
    kept: KeptRows<'_>,
    options: &Options,
    writer: &mut Counted<W>,
) -> Result<Printed, PrintFault>
    ensures printed { IfOk result (λ printed. PrintsAsTable options.now (kept_view kept.entry) printed.wider (W.contents (inner_of writer.old)) (W.contents (inner_of writer.new))) }
    ensures front { OnErr result ((writer.new ≡ writer.old) ⊎
        PrintsAsTableFront options.now (kept_view kept.entry) (W.contents (inner_of writer.old)) (W.contents (inner_of writer.new))) }
    ensures untouched { IfErr result (λ fault. IsWithoutText fault → writer.new ≡ writer.old) }
    ensures refused { IfErr result (IsAsTableFault options.now (kept_view kept.entry)) }
    ensures writer { WritesUntil (IsErrOf result (PrintFault.Table BuildFault.Write)) (IsErrOf result (PrintFault.Table BuildFault.WriteZero)) writer.old writer.new }
{
    let texts = kept.rows.view();
    let whole = whole_rows(alloc, texts, options)?;
    let WholeRows { are_shown, facts } = whole;
    if are_shown {
        let KeptRows { rows, shown, .. } = kept;
        let shown = Shown {
            columns: None,
            rows: shown,
        };
        return print_shown(alloc, rows, options, shown, facts, writer);
    }
    print_columns(alloc, kept, options, facts, writer)
}

// Prints rows as a table of the columns that it has. What is known of the columns of the rows is not found again.
fn print_columns<W: Write>(
    alloc: Global,
    kept: KeptRows<'_>,
    options: &Options,
    known: Option<ColumnFacts>,
    writer: &mut Counted<W>,
) -> Result<Printed, PrintFault>
    requires { AreKnown options.now.header (kept_view kept).rows known }
    ensures printed { IfOk result (λ printed. PrintsColumns options.now (kept_view kept.entry) printed.wider (W.contents (inner_of writer.old)) (W.contents (inner_of writer.new))) }
    ensures front { OnErr result ((writer.new ≡ writer.old) ⊎
        PrintsColumnsFront options.now (kept_view kept.entry) (W.contents (inner_of writer.old)) (W.contents (inner_of writer.new))) }
    ensures untouched { IfErr result (λ fault. IsWithoutText fault → writer.new ≡ writer.old) }
    ensures refused { IfErr result (IsColumnsFault options.now (kept_view kept.entry)) }
    ensures writer { WritesUntil (IsErrOf result (PrintFault.Table BuildFault.Write)) (IsErrOf result (PrintFault.Table BuildFault.WriteZero)) writer.old writer.new }
{
    let KeptRows {
        rows,
        shown,
        columns: count,
    } = kept;
    let texts = rows.view();
    let named = named_in(alloc, texts, count, options)?;
    let chosen = named.columns.as_slice();
    let columns = columns_of_table(alloc, texts, options, chosen, known)?;
    let of_table = columns.shown.as_slice();
    let own = own_options(alloc, options, &named, of_table)?;
    let cells = with_columns(alloc, rows, of_table)?;
    let shown = Shown {
        columns: Some((columns.count(), columns.all)),
        rows: shown,
    };
    print_shown(alloc, cells, &own, shown, None, writer)
}
