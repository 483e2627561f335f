//! The rows of a picture: a header, and records.
ghost use Rattle.std.specs.Prelude.{◌≡◌};
ghost use Rattle.basinmug_cells.specs.Views.{row_texts, view_rows};
ghost use Rattle.basinmug_run.specs.Picture.Rows.{header_of, header_rows, is_markdown, records_of};

use basinmug_cells::{CellRows, Row, RowsView};
use program_options::basinmug::LineStyle;

/// Whether a style of lines is that of a table in a document.
pub(crate) fn is_markdown(line_style: LineStyle) -> bool
    ensures { result ≡ is_markdown line_style }
{
    match line_style {
        LineStyle::Markdown => true,
        LineStyle::Ascii
        | LineStyle::Modern
        | LineStyle::Rounded
        | LineStyle::Extended
        | LineStyle::Empty => false,
    }
}

/// How many rows the header takes.
pub(crate) fn header_rows(header: bool) -> usize
    ensures { result ≡ header_rows header }
{
    if header { 1 } else { 0 }
}

/// The header, where there is one, and else a row without cells.
pub(crate) fn header_of<'r>(header: bool, rows: RowsView<'r>) -> Row<'r>
    ensures { row_texts result ≡ header_of header (view_rows rows.entry) }
{
    if header {
        rows.row(0)
    } else {
        rows.row(rows.len())
    }
}

/// The rows below the header.
pub(crate) fn records_of<'r>(header: bool, rows: RowsView<'r>) -> RowsView<'r>
    ensures { view_rows result ≡ records_of header (view_rows rows.entry) }
{
    rows.between(header_rows(header), rows.len())
}
