//! Which lines of a picture are printed, and what is below them.
ghost use Rattle.std.specs.Prelude.{◌≡◌, IfOk, string_bytes};
ghost use Rattle.basinmug_run.specs.Picture.Lines.{below, blank_line, columns_line, is_inner_chosen};

use crate::picture::rows::is_markdown;
use basinmug_columns::{RowsShown, rows_line};
use program_options::basinmug::{LineStyle, Rules};
use std::alloc::{AllocError, Global};
use tabled::{LineChoice, LineKind};

/// The lines that rules require of a table of so many rows, with a header or without.
#[derive(Clone, Copy)]
pub(crate) struct RuledLines {
    pub rules: Rules,
    pub header: bool,
    pub rows: usize,
}

impl LineChoice for RuledLines {
    ghost use Rattle.basinmug_run.specs.Picture.Lines.{is_chosen};

    ghost chooses = { λ lines. is_chosen lines.rules lines.header lines.rows };

    fn is_chosen(&self, kind: LineKind) -> bool {
        match kind {
            LineKind::Boundary(boundary) => {
                boundary == 0
                    || boundary == self.rows
                    || is_inner_chosen(self.rules, self.header, boundary)
            }
            LineKind::Row(_) | LineKind::InMargin => true,
        }
    }
}

// Whether the line between rows of this number is printed.
fn is_inner_chosen(rules: Rules, header: bool, boundary: usize) -> bool
    ensures { result ≡ is_inner_chosen rules header boundary }
{
    match rules {
        Rules::Header => header && boundary == 1,
        Rules::All => true,
        Rules::None => false,
    }
}

/// What is shown of a table, and what is left out.
#[derive(Clone, Copy)]
pub(crate) struct Shown {
    /// Of a table of some columns, how many are shown, and how many there are with those that are left out.
    pub columns: Option<(usize, usize)>,
    /// Which rows are shown.
    pub rows: RowsShown,
}

/// What is below a table of this style, of which this is shown: the lines that say how many columns and rows are left
/// out, and in a document a blank line before them. Fails only where allocation fails.
pub(crate) fn below(
    alloc: Global,
    line_style: LineStyle,
    shown: Shown,
) -> Result<String, AllocError>
    ensures { IfOk result (λ text. string_bytes text ≡ below line_style shown.columns shown.rows) }
{
    let mut text = String::from_str(alloc, blank_line(line_style, shown.rows.left_out()))?;
    let columns = columns_line(alloc, line_style, shown.columns)?;
    text.push_str(columns.as_str())?;
    let rows = rows_line(alloc, "row", shown.rows)?;
    text.push_str(rows.as_str())?;
    Ok(text)
}

// The line that says how many of the columns are shown, where some are left out.
fn columns_line(
    alloc: Global,
    line_style: LineStyle,
    columns: Option<(usize, usize)>,
) -> Result<String, AllocError>
    ensures { IfOk result (λ line. string_bytes line ≡ columns_line line_style columns) }
{
    match columns {
        Some((shown, all)) if shown < all && !is_markdown(line_style) => {
            format!(in alloc; "({shown} of {all} columns)\n")
        }
        _ => Ok(String::new(alloc)),
    }
}

// The blank line of a document, without which the line that follows would be a row of the table.
fn blank_line(line_style: LineStyle, count: usize) -> &'static str
    ensures { result.now ≡ blank_line line_style count }
{
    if is_markdown(line_style) && count > 0 {
        "\n"
    } else {
        ""
    }
}
