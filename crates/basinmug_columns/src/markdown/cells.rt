//! Texts whose bars, backslashes and line feeds are escaped.
ghost use Rattle.std.specs.Prelude.{◌≡◌, ◌++◌, IfOk, OnOk, chars, map, string_bytes};
ghost use Rattle.tabled_text.specs.Rows.{text_rows};
ghost use Rattle.basinmug_columns.specs.Markdown.Documents.{with_header};
ghost use Rattle.basinmug_columns.specs.Markdown.Escapes.{in_markdown, markdown_char, markdown_text};

use ansi_scan::{Kind, scan};
use std::alloc::{AllocError, Global};

/// The rows, with each text as a cell of a table of Markdown: a backslash before each bar and each backslash, and
/// `<br>` for each line feed, but none of this in an escape sequence, which stays as it is. Fails only where
/// allocation fails.
pub fn markdown_cells(alloc: Global, rows: Vec<Vec<String>>) -> Result<Vec<Vec<String>>, AllocError>
    ensures { IfOk result (λ cells. text_rows cells.items ≡ map (map in_markdown) (text_rows rows.items)) }
{
    let mut cells = Vec::with_capacity(alloc, rows.len())?;
    for row in rows {
        cells.push(markdown_row(alloc, row)?)?;
    }
    Ok(cells)
}

/// The rows of a table of Markdown, with each text as `markdown_cells` gives it. Such a table always has a header: an
/// empty row is first where the rows have none. No rows stay none. Fails only where allocation fails.
pub fn markdown_rows(
    alloc: Global,
    rows: Vec<Vec<String>>,
    has_header: bool,
) -> Result<Vec<Vec<String>>, AllocError>
    ensures { IfOk result (λ cells. text_rows cells.items ≡ with_header has_header (map (map in_markdown) (text_rows rows.items))) }
{
    let mut cells = markdown_cells(alloc, rows)?;
    if !has_header && !cells.is_empty() {
        cells.insert(0, Vec::new(alloc))?;
    }
    Ok(cells)
}

// The texts of a row, each escaped.
fn markdown_row(alloc: Global, row: Vec<String>) -> Result<Vec<String>, AllocError>
    ensures { IfOk result (λ out. map string_bytes out.items ≡ map in_markdown (map string_bytes row.items)) }
{
    let mut out = Vec::with_capacity(alloc, row.len())?;
    for text in row {
        out.push(in_markdown(alloc, text.as_str())?)?;
    }
    Ok(out)
}

// A text, each of its characters escaped but those of its sequences.
fn in_markdown(alloc: Global, text: &str) -> Result<String, AllocError>
    ensures { IfOk result (λ out. string_bytes out ≡ in_markdown text.now) }
{
    let mut out = String::with_capacity(alloc, text.len())?;
    for item in scan(text) {
        let bytes = &text[item.start..item.end];
        match item.kind {
            Kind::Text => push_markdown(&mut out, bytes)?,
            _ => out.push_str(bytes)?,
        }
    }
    Ok(out)
}

// Appends a text without sequences, each of its characters escaped.
fn push_markdown(out: &mut String, text: &str) -> Result<(), AllocError>
    ensures { OnOk result (string_bytes out.new ≡ string_bytes out.old ++ markdown_text (chars text.now)) }
{
    for c in text.chars() {
        push_markdown_char(out, c)?;
    }
    Ok(())
}

// Appends a character, or its escape.
fn push_markdown_char(out: &mut String, c: char) -> Result<(), AllocError>
    ensures { OnOk result (string_bytes out.new ≡ string_bytes out.old ++ markdown_char c) }
{
    match c {
        '|' => out.push_str("\\|"),
        '\\' => out.push_str("\\\\"),
        '\n' => out.push_str("<br>"),
        other => out.push(other),
    }
}
