//! The lines of tables in expanded form.
ghost use Rattle.std.specs.Prelude.{◌≡◌, ◌+◌, ◌^◌, ◌<◌, ◌++◌, ◌∷◌, OnOk, chars, length, map, replicate, string_bytes};
ghost use Rattle.grid_records_measure.specs.TextLines.{line_feed};
ghost use Rattle.tabled_expanded.specs.Expanded.{behind_feeds, field_line, field_lines, filled_from, head_line, joined_lines, record_lines, widest_text, widest_value};
ghost use Rattle.tabled_text.specs.Rows.{text_rows};

use grid_records_measure::get_line_width;
use std::alloc::AllocError;

/// The columns of the widest text, each read as one line.
pub(crate) fn widest_text(texts: &[String]) -> usize
    ensures { result ≡ widest_text (map string_bytes texts.now) }
{
    let mut widest = 0;
    for text in texts {
        widest = get_line_width(text).max(widest);
    }
    widest
}

/// The columns of the widest value of these records.
pub(crate) fn widest_value(records: &[Vec<String>]) -> usize
    ensures { result ≡ widest_value (text_rows records.now) }
{
    let mut widest = 0;
    for values in records {
        widest = widest_text(values).max(widest);
    }
    widest
}

/// Appends the lines of a record, with a line feed between each two, where the widest field and the widest value
/// take so many columns.
pub(crate) fn push_record(
    out: &mut String,
    widths: (usize, usize),
    fields: &[String],
    head: &str,
    values: &[String],
) -> Result<(), AllocError>
    requires { widths.0 + 3 + widths.1 < 2 ^ 64 }
    ensures { OnOk result (string_bytes out.new ≡ string_bytes out.old ++ joined_lines (record_lines widths.0 widths.1 (map string_bytes fields.now) head.now (map string_bytes values.now))) }
{
    let (field_width, value_width) = widths;
    push_head(out, field_width, value_width, head)?;
    push_fields(out, field_width, fields, values)
}

// Appends the head around a text.
fn push_head(
    out: &mut String,
    field_width: usize,
    value_width: usize,
    text: &str,
) -> Result<(), AllocError>
    requires { field_width + 3 + value_width < 2 ^ 64 }
    ensures { OnOk result (string_bytes out.new ≡ string_bytes out.old ++ head_line field_width value_width text.now) }
{
    out.push('-')?;
    out.push_str(text)?;
    out.push('-')?;
    push_filling(out, field_width, value_width, text.len())
}

// Appends what fills a head around a text of so many bytes.
fn push_filling(
    out: &mut String,
    field_width: usize,
    value_width: usize,
    len: usize,
) -> Result<(), AllocError>
    requires { field_width + 3 + value_width < 2 ^ 64 }
    ensures { OnOk result (string_bytes out.new ≡ string_bytes out.old ++ filled_from field_width value_width (len + 2)) }
{
    if len < field_width {
        push_repeated(out, '-', field_width - 1 - len)?;
        out.push('+')?;
        push_repeated(out, '-', value_width + 1)
    } else {
        let line = field_width + 1 + value_width;
        push_repeated(out, '-', line.saturating_sub(len))
    }
}

// Appends a line for each value that has a field, each after a line feed.
fn push_fields(
    out: &mut String,
    width: usize,
    fields: &[String],
    values: &[String],
) -> Result<(), AllocError>
    ensures { OnOk result (string_bytes out.new ≡ string_bytes out.old ++ behind_feeds (field_lines width (map string_bytes fields.now) (map string_bytes values.now))) }
{
    for (field, value) in fields.iter().zip(values.iter()) {
        push_field(out, width, field, value)?;
    }
    Ok(())
}

// Appends the line of a field and its value after a line feed.
fn push_field(out: &mut String, width: usize, field: &str, value: &str) -> Result<(), AllocError>
    ensures { OnOk result (string_bytes out.new ≡ string_bytes out.old ++ line_feed ∷ field_line width field.now value.now) }
{
    out.push('\n')?;
    out.push_str(field)?;
    push_repeated(out, ' ', width.saturating_sub(count_characters(field)))?;
    out.push_str(" | ")?;
    out.push_str(value)
}

// How many characters a text has, those of its sequences too.
fn count_characters(text: &str) -> usize
    ensures { result ≡ length (chars text.now) }
{
    text.chars().count()
}

// Appends an ASCII character so many times.
fn push_repeated(out: &mut String, character: char, count: usize) -> Result<(), AllocError>
    requires { character < 128 }
    ensures { OnOk result (string_bytes out.new ≡ string_bytes out.old ++ replicate count character) }
{
    out.reserve(count)?;
    for _ in 0..count {
        out.push(character)?;
    }
    Ok(())
}
