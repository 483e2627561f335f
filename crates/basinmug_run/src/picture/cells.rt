//! The rows as cells of a table.
ghost use Rattle.std.specs.Prelude.{◌≡◌, ◌+◌, IfOk, map, min};
ghost use Rattle.basinmug_columns.specs.Markdown.Documents.{with_header};
ghost use Rattle.basinmug_columns.specs.Markdown.Escapes.{in_markdown};
ghost use Rattle.basinmug_run.specs.Picture.Rows.{cells_of, header_rows, marked_rows};

use crate::picture::rows::{header_rows, is_markdown};
use basinmug_cells::{Rows, longest, rows_of_texts, texts_of};
use basinmug_columns::RowsShown;
use basinmug_columns::markdown::markdown_rows;
use program_options::basinmug::LineStyle;
use std::alloc::{AllocError, Global};

/// The rows as cells of a table of this style, which have a header of their own or none: where rows are left out between
/// them is a row of ellipses; those of a document are escaped, and get a header. Fails only where allocation fails.
pub(crate) fn cells_of<'a>(
    alloc: Global,
    rows: Rows<'a>,
    line_style: LineStyle,
    has_header: bool,
    shown: RowsShown,
) -> Result<Rows<'a>, AllocError>
    ensures { IfOk result (λ cells. cells.rows ≡ cells_of line_style has_header shown rows.entry.rows) }
{
    let marked = marked_rows(alloc, rows, has_header, shown)?;
    if is_markdown(line_style) {
        markdown_fields(alloc, marked, has_header)
    } else {
        Ok(marked)
    }
}

// The rows, and where some are left out between them, a row of ellipses in their place.
fn marked_rows<'a>(
    alloc: Global,
    rows: Rows<'a>,
    has_header: bool,
    shown: RowsShown,
) -> Result<Rows<'a>, AllocError>
    ensures { IfOk result (λ marked. marked.rows ≡ marked_rows has_header shown rows.entry.rows) }
{
    match shown {
        RowsShown::Between { first, .. } => with_mark(alloc, rows, has_header, first),
        RowsShown::All | RowsShown::More(_) | RowsShown::Earlier(_) => Ok(rows),
    }
}

// The rows with a row of ellipses after the header and the first records.
fn with_mark<'a>(
    alloc: Global,
    rows: Rows<'a>,
    has_header: bool,
    first: usize,
) -> Result<Rows<'a>, AllocError>
    ensures { IfOk result (λ marked. marked.rows ≡ marked_rows has_header (RowsShown.Between first 0) rows.entry.rows) }
{
    let columns = longest(rows.view());
    let place = place_in(rows.len(), has_header, first);
    rows.with_row(alloc, place, columns, "…")
}

// The place after the header and the first records, in so many rows.
fn place_in(rows: usize, has_header: bool, first: usize) -> usize
    ensures { result ≡ min (first + header_rows has_header) rows }
{
    let header = header_rows(has_header).min(rows);
    header + first.min(rows - header)
}

// The rows as cells of a document, each with a text of its own.
fn markdown_fields<'a>(
    alloc: Global,
    rows: Rows<'a>,
    has_header: bool,
) -> Result<Rows<'a>, AllocError>
    ensures { IfOk result (λ cells. cells.rows ≡ with_header has_header (map (map in_markdown) rows.entry.rows)) }
{
    let texts = texts_of(alloc, rows.view())?;
    drop(rows);
    let cells = markdown_rows(alloc, texts, has_header)?;
    rows_of_texts(alloc, cells)
}
