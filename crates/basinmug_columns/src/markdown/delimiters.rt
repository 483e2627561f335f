//! The delimiter row, which says how the texts of each column are aligned.
ghost use Rattle.std.specs.Prelude.{◌≡◌, ◌++◌, IfOk, OnOk, codes, string_bytes};
ghost use Rattle.basinmug_columns.specs.Markdown.Documents.{column_mark, column_mark_of, delimiter_row, hyphens};

use grid_config_values::AlignmentHorizontal;
use std::alloc::{AllocError, Global};

/// The delimiter row of a table of Markdown, with its line feed: the line below the header, with `:---` for a column
/// at the left, `:---:` for one in the middle and `---:` for one at the right. It is as wide as columns of these
/// widths, paddings and all, but has a hyphen for each column at least. A column that `alignments` is too short for
/// is at the left. It is empty where there are no columns. Fails only where allocation fails.
pub fn delimiter_row(
    alloc: Global,
    alignments: &[AlignmentHorizontal],
    widths: &[usize],
) -> Result<String, AllocError>
    ensures { IfOk result (λ row. string_bytes row ≡ delimiter_row alignments.now widths.now) }
{
    let mut row = String::new(alloc);
    if widths.is_empty() {
        return Ok(row);
    }
    row.push('|')?;
    for column in 0..widths.len() {
        push_delimiter_of(&mut row, alignments, widths, column)?;
    }
    row.push('\n')?;
    Ok(row)
}

// Appends the mark of a column, and the bar after it.
fn push_delimiter_of(
    row: &mut String,
    alignments: &[AlignmentHorizontal],
    widths: &[usize],
    column: usize,
) -> Result<(), AllocError>
    ensures { OnOk result (string_bytes row.new ≡ string_bytes row.old ++ column_mark_of alignments.now widths.now column) }
{
    let alignment = alignments.get(column).copied();
    let width = widths.get(column).copied();
    push_delimiter(
        row,
        alignment.unwrap_or(AlignmentHorizontal::Left),
        width.unwrap_or(0),
    )?;
    row.push('|')
}

// Appends the mark of a column that is so wide.
fn push_delimiter(
    row: &mut String,
    alignment: AlignmentHorizontal,
    width: usize,
) -> Result<(), AllocError>
    ensures { OnOk result (string_bytes row.new ≡ string_bytes row.old ++ column_mark alignment width) }
{
    match alignment {
        AlignmentHorizontal::Left => {
            row.push(':')?;
            push_hyphens(row, width.saturating_sub(1))
        }
        AlignmentHorizontal::Center => {
            row.push(':')?;
            push_hyphens(row, width.saturating_sub(2))?;
            row.push(':')
        }
        AlignmentHorizontal::Right => {
            push_hyphens(row, width.saturating_sub(1))?;
            row.push(':')
        }
    }
}

// Appends so many hyphens, at least one.
fn push_hyphens(row: &mut String, count: usize) -> Result<(), AllocError>
    ensures { OnOk result (string_bytes row.new ≡ string_bytes row.old ++ hyphens count) }
{
    for _hyphen in 0..count.max(1) {
        row.push('-')?;
    }
    Ok(())
}
