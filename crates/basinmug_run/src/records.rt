//! Records one below the other.
ghost use Rattle.std.specs.Prelude.{◌≡◌, ◌⊎◌, IfErr, IfOk, IsErrOf, OnErr};
ghost use Rattle.tabled_output.specs.Counts.{WritesUntil, inner_of};
ghost use Rattle.basinmug_run.specs.Columns.{rows_with};
ghost use Rattle.basinmug_run.specs.Kept.{kept_view};
ghost use Rattle.basinmug_run.specs.Picture.Printed.{IsWithoutText};
ghost use Rattle.basinmug_run.specs.Runs.{IsRecordsFault, IsWritingFault, PrintsRecords, PrintsRecordsFront, WritesRecords, WritesRecordsFront};

use crate::columns::{chooses_none, named_in, with_columns};
use crate::kept::KeptRows;
use crate::options::Options;
use crate::picture::{PrintFault, Printed, header_of, records_of};
use basinmug_cells::Rows;
use basinmug_columns::{RowsShown, ShownColumn};
use basinmug_expanded::{Form, write_records};
use std::alloc::{AllocError, Global};
use std::io::Write;
use tabled_output::{BuildFault, Counted};

/// Prints rows as records one below the other, of the columns that are chosen. Refused as `NoColumn` with the first
/// name that the rows do not have, and as `Memory` where allocation fails; else the writer failed.
pub(crate) fn print_records<W: Write>(
    alloc: Global,
    kept: KeptRows<'_>,
    options: &Options,
    writer: &mut Counted<W>,
) -> Result<Printed, PrintFault>
    ensures printed { IfOk result (λ printed. PrintsRecords options.now (kept_view kept.entry) printed.wider (W.contents (inner_of writer.old)) (W.contents (inner_of writer.new))) }
    ensures front { OnErr result ((writer.new ≡ writer.old) ⊎
        PrintsRecordsFront options.now (kept_view kept.entry) (W.contents (inner_of writer.old)) (W.contents (inner_of writer.new))) }
    ensures untouched { IfErr result (λ fault. IsWithoutText fault → writer.new ≡ writer.old) }
    ensures refused { IfErr result (IsRecordsFault options.now (kept_view kept.entry)) }
    ensures writer { WritesUntil (IsErrOf result (PrintFault.Table BuildFault.Write)) (IsErrOf result (PrintFault.Table BuildFault.WriteZero)) writer.old writer.new }
{
    let KeptRows {
        rows,
        shown,
        columns: count,
    } = kept;
    let texts = rows.view();
    let named = named_in(alloc, texts, count, options)?;
    let columns = named.columns.as_slice();
    let chosen = rows_of(alloc, rows, options, columns)?;
    print_shown(alloc, chosen, shown, options, writer)
}

// Prints rows as records one below the other, of which the first is the header where the options say so: each is
// written as soon as it is made, and below them how many are left out. Refused as `Memory` where allocation fails; else
// the writer failed.
fn print_shown<W: Write>(
    alloc: Global,
    rows: Rows<'_>,
    shown: RowsShown,
    options: &Options,
    writer: &mut Counted<W>,
) -> Result<Printed, PrintFault>
    ensures printed { IfOk result (λ printed. WritesRecords options.now shown rows.entry.rows printed.wider (W.contents (inner_of writer.old)) (W.contents (inner_of writer.new))) }
    ensures front { OnErr result ((writer.new ≡ writer.old) ⊎
        WritesRecordsFront options.now shown rows.entry.rows (W.contents (inner_of writer.old)) (W.contents (inner_of writer.new))) }
    ensures untouched { IfErr result (λ fault. IsWithoutText fault → writer.new ≡ writer.old) }
    ensures refused { IfErr result IsWritingFault }
    ensures writer { WritesUntil (IsErrOf result (PrintFault.Table BuildFault.Write)) (IsErrOf result (PrintFault.Table BuildFault.WriteZero)) writer.old writer.new }
{
    let texts = rows.view();
    let form = Form {
        header: options.header,
        width: options.width,
        truncate: options.truncate,
        rows_shown: shown,
    };
    let header = header_of(options.header, texts);
    let records = records_of(options.header, texts);
    write_records(alloc, &form, header, records, writer)?;
    Ok(Printed { wider: false })
}

// The rows themselves where no columns are chosen, and else these columns of them.
fn rows_of<'a>(
    alloc: Global,
    rows: Rows<'a>,
    options: &Options,
    chosen: &[ShownColumn],
) -> Result<Rows<'a>, AllocError>
    ensures { IfOk result (λ shown. shown.rows ≡ rows_with options.now.columns.items chosen.now rows.entry.rows) }
{
    if chooses_none(options) {
        return Ok(rows);
    }
    with_columns(alloc, rows, chosen)
}
