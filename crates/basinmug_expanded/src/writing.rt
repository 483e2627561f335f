//! Records that are written one after the other.
ghost use Rattle.std.specs.Prelude.{◌≡◌, [], OnOk, codes, string_bytes};
ghost use Rattle.tabled_text.specs.Rows.{text_rows};
ghost use Rattle.basinmug_columns.specs.Rows.{rows_line};
ghost use Rattle.basinmug_columns.specs.declared.rows.RowsShown.TheVariants.{Between};
ghost use Rattle.basinmug_expanded.specs.Columns.{columns_view};
ghost use Rattle.basinmug_expanded.specs.Records.{all_lines, ended_lines, gap_lines, numbered_lines, record_lines, records_text};
ghost use Rattle.basinmug_expanded.specs.Writing.{Writes};

use crate::columns::{Columns, columns_of, record_number};
use crate::form::Form;
use crate::lines::push_record;
use crate::names::{lines_of_names, names_of};
use basinmug_cells::{CellRow, CellRows};
use basinmug_columns::{RowsShown, rows_line};
use std::alloc::Global;
use std::io::Write;
use tabled_output::{BuildFault, Counted, pass_line, write_piece};

/// Writes the records that are shown one below the other, each as soon as it is made, and below them how many others
/// there are. A record is a rule with its number among all of them, from 0, and lines for each of its fields: what it
/// is called, a bar, and its value; a value that a record lacks is empty. In place of records that are left out after
/// the first ones there is a line with an ellipsis alone. In a width that is given, names take at most half of it, and
/// are cut; values have what is left, at least a column, and are cut or wrapped. Each line ends its own styles. It
/// fails with `Table(Memory)` where allocation fails, and else as the writer does; a prefix of the text is written
/// then. Nothing is flushed.
pub fn write_records<H: CellRow, R: CellRows, W: Write>(
    alloc: Global,
    form: &Form,
    header: H,
    records: R,
    writer: &mut Counted<W>,
) -> Result<(), BuildFault>
    ensures { Writes W.contents (records_text form.now (H.texts header) (R.rows records)) result writer.old writer.new }
{
    let names = names_of(alloc, form.header, header, records)?;
    let columns = columns_of(alloc, form, &names, records)?;
    let lines = lines_of_names(alloc, &names, columns.names)?;
    write_shown(alloc, columns, &lines, form.rows_shown, records, writer)?;
    write_left_out(alloc, form.rows_shown, writer)
}

// Writes the lines of the records that are shown.
fn write_shown<R: CellRows, W: Write>(
    alloc: Global,
    columns: Columns,
    names: &[Vec<String>],
    shown: RowsShown,
    records: R,
    writer: &mut Counted<W>,
) -> Result<(), BuildFault>
    ensures { Writes W.contents (ended_lines (all_lines (columns_view columns) (text_rows names.now) shown (R.rows records))) result writer.old writer.new }
{
    match shown {
        RowsShown::All | RowsShown::More(_) => {
            write_each(alloc, columns, names, 0, records, writer)
        }
        RowsShown::Earlier(earlier) => write_each(alloc, columns, names, earlier, records, writer),
        RowsShown::Between { first, left_out } => {
            write_both(alloc, columns, names, first, left_out, records, writer)
        }
    }
}

// Writes the lines of the first and of the last records, and between them that so many are left out.
fn write_both<R: CellRows, W: Write>(
    alloc: Global,
    columns: Columns,
    names: &[Vec<String>],
    first: usize,
    left_out: usize,
    records: R,
    writer: &mut Counted<W>,
) -> Result<(), BuildFault>
    ensures { Writes W.contents (ended_lines (all_lines (columns_view columns) (text_rows names.now) (Between first left_out) (R.rows records))) result writer.old writer.new }
{
    let count = records.len();
    write_each(alloc, columns, names, 0, records.between(0, first), writer)?;
    write_gap(left_out, writer)?;
    let from = record_number(first, left_out);
    let last = records.between(first, count);
    write_each(alloc, columns, names, from, last, writer)
}

// Writes a line in place of so many records, where some are left out.
fn write_gap<W: Write>(left_out: usize, writer: &mut Counted<W>) -> Result<(), BuildFault>
    ensures { Writes W.contents (ended_lines (gap_lines left_out)) result writer.old writer.new }
{
    if left_out > 0 {
        write_piece(writer, "\u{2026}\n".as_bytes())?;
    }
    Ok(())
}

// Writes the lines of each record; they have their numbers from one on.
fn write_each<R: CellRows, W: Write>(
    alloc: Global,
    columns: Columns,
    names: &[Vec<String>],
    from: usize,
    records: R,
    writer: &mut Counted<W>,
) -> Result<(), BuildFault>
    ensures { Writes W.contents (ended_lines (numbered_lines (columns_view columns) (text_rows names.now) from (R.rows records))) result writer.old writer.new }
{
    let mut text = String::new(alloc);
    for place in 0..records.len() {
        let values = records.row(place);
        let number = record_number(from, place);
        write_record(alloc, &mut text, columns, names, number, values, writer)?;
    }
    Ok(())
}

// Writes the lines of a record by an empty text, which then is empty again.
fn write_record<T: CellRow, W: Write>(
    alloc: Global,
    text: &mut String,
    columns: Columns,
    names: &[Vec<String>],
    number: usize,
    values: T,
    writer: &mut Counted<W>,
) -> Result<(), BuildFault>
    requires { string_bytes text.old ≡ [] }
    ensures written { Writes W.contents (ended_lines (record_lines (columns_view columns) (text_rows names.now) number (T.texts values))) result writer.old writer.new }
    ensures empty { OnOk result (string_bytes text.new ≡ []) }
{
    push_record(alloc, text, columns, names, number, values)?;
    pass_line(writer, text)?;
    Ok(())
}

// Writes how many records are left out, where some are.
fn write_left_out<W: Write>(
    alloc: Global,
    shown: RowsShown,
    writer: &mut Counted<W>,
) -> Result<(), BuildFault>
    ensures { Writes W.contents (rows_line (codes "record") shown) result writer.old writer.new }
{
    let line = rows_line(alloc, "record", shown)?;
    write_piece(writer, line.as_bytes())?;
    Ok(())
}
