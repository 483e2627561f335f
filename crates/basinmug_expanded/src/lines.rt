//! The lines of a record.
ghost use Rattle.std.specs.Prelude.{◌≡◌, ◌<◌, ◌++◌, ◌∷◌, [], IfOk, OnOk, map, replicate, slice_index_or, string_bytes};
ghost use Rattle.tabled_text.specs.Rows.{text_rows};
ghost use Rattle.grid_records_measure.specs.TextLines.{line_feed};
ghost use Rattle.basinmug_expanded.specs.Columns.{columns_view};
ghost use Rattle.basinmug_expanded.specs.Records.{cross_behind, ended_lines, field_line, field_lines, record_lines, rule_line};

use crate::columns::{Columns, head_of};
use crate::values::{fitted, lines_of, row_at, text_at};
use basinmug_cells::CellRow;
use grid_records_traits::Cell;
use std::alloc::{AllocError, Global};

/// Appends the lines of a record with this number, each with a line feed after it; the names of its fields have these
/// lines. Fails only where allocation fails.
pub(crate) fn push_record<T: CellRow>(
    alloc: Global,
    out: &mut String,
    columns: Columns,
    names: &[Vec<String>],
    number: usize,
    values: T,
) -> Result<(), AllocError>
    ensures { OnOk result (string_bytes out.new ≡ string_bytes out.old ++ ended_lines (record_lines (columns_view columns) (text_rows names.now) number (T.texts values))) }
{
    push_rule(alloc, out, columns, number)?;
    for field in 0..names.len() {
        let name = row_at(names, field);
        push_field_at(alloc, out, columns, name, values, field)?;
    }
    Ok(())
}

// Appends the rule of the record with this number, and a line feed.
fn push_rule(
    alloc: Global,
    out: &mut String,
    columns: Columns,
    number: usize,
) -> Result<(), AllocError>
    ensures { OnOk result (string_bytes out.new ≡ string_bytes out.old ++ rule_line (columns_view columns) number ++ line_feed ∷ []) }
{
    let rule = whole_rule(alloc, columns, number)?;
    out.push_str(&rule)?;
    out.push('\n')
}

// The rule of the record with this number.
fn whole_rule(alloc: Global, columns: Columns, number: usize) -> Result<String, AllocError>
    ensures { IfOk result (λ rule. string_bytes rule ≡ rule_line (columns_view columns) number) }
{
    let mut rule = head_of(alloc, number)?;
    let taken = rule.len();
    push_cross(&mut rule, columns.names, taken)?;
    push_repeated(&mut rule, '-', columns.rule)?;
    rule.truncate(columns.rule);
    Ok(rule)
}

// Appends what follows a head of so many columns as far as the bar.
fn push_cross(rule: &mut String, names: usize, taken: usize) -> Result<(), AllocError>
    ensures { OnOk result (string_bytes rule.new ≡ string_bytes rule.old ++ cross_behind names taken) }
{
    if taken <= names {
        push_repeated(rule, '-', names - taken)?;
        rule.push_str("-+")?;
    }
    Ok(())
}

// Appends the lines of a field with this number, each with a line feed after it; a value that the record lacks is empty.
fn push_field_at<T: CellRow>(
    alloc: Global,
    out: &mut String,
    columns: Columns,
    name: &[String],
    values: T,
    field: usize,
) -> Result<(), AllocError>
    ensures { OnOk result (string_bytes out.new ≡ string_bytes out.old ++ ended_lines (field_lines (columns_view columns) (map string_bytes name.now) (slice_index_or (T.texts values) field []))) }
{
    match values.cell(field) {
        Some(value) => push_field(alloc, out, columns, name, value.text()),
        None => push_field(alloc, out, columns, name, ""),
    }
}

// Appends the lines of a field, each with a line feed after it.
fn push_field(
    alloc: Global,
    out: &mut String,
    columns: Columns,
    name: &[String],
    value: &str,
) -> Result<(), AllocError>
    ensures { OnOk result (string_bytes out.new ≡ string_bytes out.old ++ ended_lines (field_lines (columns_view columns) (map string_bytes name.now) value.now)) }
{
    let kept = fitted(alloc, value, columns.truncate, columns.values)?;
    let lines = lines_of(alloc, &kept)?;
    for number in 0..name.len().max(lines.len()) {
        push_field_line(out, columns.names, name, &lines, number)?;
    }
    Ok(())
}

// Appends a line of a field, and a line feed.
fn push_field_line(
    out: &mut String,
    columns: usize,
    name: &[String],
    value: &[String],
    number: usize,
) -> Result<(), AllocError>
    ensures { OnOk result (string_bytes out.new ≡ string_bytes out.old ++ field_line columns (map string_bytes name.now) (map string_bytes value.now) number ++ line_feed ∷ []) }
{
    push_name_line(out, columns, name, number)?;
    out.push_str(" | ")?;
    out.push_str(text_at(value, number))?;
    out.push('\n')
}

// Appends the line of a name with this number, and spaces where it has none.
fn push_name_line(
    out: &mut String,
    columns: usize,
    name: &[String],
    number: usize,
) -> Result<(), AllocError>
    ensures { OnOk result (string_bytes out.new ≡ string_bytes out.old ++ slice_index_or (map string_bytes name.now) number (replicate columns 0x20)) }
{
    match name.get(number) {
        Some(line) => out.push_str(line),
        None => push_spaces(out, columns),
    }
}

/// Appends so many spaces.
pub(crate) fn push_spaces(out: &mut String, count: usize) -> Result<(), AllocError>
    ensures { OnOk result (string_bytes out.new ≡ string_bytes out.old ++ replicate count 0x20) }
{
    push_repeated(out, ' ', count)
}

// Appends an ASCII character so many times.
fn push_repeated(out: &mut String, character: char, count: usize) -> Result<(), AllocError>
    requires { character < 128 }
    ensures { OnOk result (string_bytes out.new ≡ string_bytes out.old ++ replicate count character) }
{
    out.reserve(count)?;
    for _ in 0..count {
        out.push(character)?;
    }
    Ok(())
}
