//! The rows and cells of a text, which borrow it.
ghost use Rattle.std.specs.Prelude.{◌≡◌, ◌≤◌, ◌<◌, ◌-◌, ◌↔◌, ℕ, true, false, chars, length, map, slice_index, slice_range, IfOk, IfSome, IsSome, IsTrue, OnOk};
ghost use Rattle.std.specs.Int.{is_in_range};
ghost use Rattle.std.specs.Str.{IsCharBoundary};
ghost use Rattle.ansi_str_search.specs.Text.StyledText.{has_escape};
ghost use Rattle.columns_table.specs.Ends.{start_behind};
ghost use Rattle.columns_table.specs.RowEnds.{no_rows, with_cell};
ghost use Rattle.columns_run.specs.Rows.{rows_of};
ghost use Rattle.columns_run.specs.Cells.{byte_line, rows_shown};
ghost use Rattle.columns_run.specs.Ends.{is_cell_text};
ghost use Rattle.grid_records_measure.specs.Measures.{are_printable, measure};

use crate::printable_cells::push_printable_cells;
use crate::printable_end::printable_end;
use ansi_scan::ESC;
use columns_table::{CellEnd, RowEnds, Rows};
use grid_records_fronts::measured_front;
use grid_records_measure::get_string_width;
use memchr::memchr3;
use std::alloc::{AllocError, Global};

/// The rows of a text without ESC, which borrow the text; none of a text that has one. The text is passed over once,
/// and each cell is measured once. A cell whose columns don't add up is read a few times more, each time from one end
/// to the other. Fails only where allocation fails.
pub fn rows_of<'a>(alloc: Global, text: &'a str) -> Result<Option<Rows<'a>>, AllocError>
    ensures without_escape { IfOk result (λ found. IsSome found ↔ (has_escape text.now ≡ false)) }
    ensures rows { IfOk result (λ found. IfSome found (λ rows. rows_shown rows ≡ map (map byte_line) (rows_of (λ b. b) text.now))) }
{
    let mut rows = rows_with_room(alloc, text.len())?;
    let (mut start, mut end) = push_printable_cells(&mut rows, text, 0)?;
    let mut printable = true;
    let mut columns = None;
    let bytes = text.as_bytes();
    while end < bytes.len() {
        match bytes[end] {
            byte if is_printable(byte) => end = printable_end(bytes, end + 1),
            byte @ (b'\t' | b'\n') => {
                push_cell(&mut rows, &text[start..end], end, printable, columns)?;
                if byte == b'\n' {
                    rows.end_row()?;
                }
                start = end + 1;
                if printable && byte == b'\n' {
                    (start, end) = push_printable_cells(&mut rows, text, start)?;
                } else {
                    end = printable_end(bytes, start);
                }
                printable = true;
            }
            ESC => return Ok(None),
            _ => {
                printable = false;
                (end, columns) = measured_end(text, start, end);
            }
        }
    }
    // A last row without characters is left out.
    if rows.has_begun() || start < text.len() {
        push_cell(&mut rows, &text[start..], end, printable, columns)?;
        rows.end_row()?;
    }
    Ok(Some(Rows::of(text, rows)))
}

/// No rows, with capacity for as many rows and cells as most texts of so many bytes have, so that they grow rarely.
/// Fails only where allocation fails.
pub(crate) fn rows_with_room(alloc: Global, size: usize) -> Result<RowEnds, AllocError>
    ensures { IfOk result (λ rows. rows ≡ no_rows) }
{
    RowEnds::with_capacity(alloc, size / 8, size / 16)
}

// Where the first tab, line feed or ESC is after `end`, or the end where there is none; and the columns of the text
// from `start` to there, where its characters add up. Kept out of the loop over printable ASCII, so that this loop is
// short.
#[inline(never)]
fn measured_end(text: &str, start: usize, end: usize) -> (usize, Option<usize>)
    requires begins { IsCharBoundary text.now start }
    requires within { (start ≤ end) × (end < length text.now) }
    ensures within { (end < result.0) × (result.0 ≤ length text.now) }
    ensures text { (k : ℕ) → end < k → k < result.0 → is_cell_text (slice_index text.now k) ≡ true }
    ensures stop { result.0 < length text.now → is_cell_text (slice_index text.now result.0) ≡ false }
    ensures columns { IfSome result.1 (λ columns. measure (chars (slice_range text.now start result.0)) ≡ columns) }
{
    let (size, columns) = measured_front(&text[start..]);
    let stop = start + size;
    if stop > end && ends_text(text.as_bytes(), stop) {
        (stop, Some(columns))
    } else {
        (text_end(text.as_bytes(), end + 1), None)
    }
}

/// Whether a tab, a line feed or an ESC is there, or the text ends there.
#[inline(always)]
pub(crate) fn ends_text(bytes: &[u8], at: usize) -> bool
    ensures { IsTrue result → at < length bytes.now → is_cell_text (slice_index bytes.now at) ≡ false }
{
    matches!(bytes.get(at), None | Some(b'\t' | b'\n' | &ESC))
}

// The place of the first tab, line feed or ESC from `start` on; the end where there is none.
fn text_end(bytes: &[u8], start: usize) -> usize
    requires { start ≤ length bytes.now }
    ensures within { (start ≤ result) × (result ≤ length bytes.now) }
    ensures text { (k : ℕ) → start ≤ k → k < result → is_cell_text (slice_index bytes.now k) ≡ true }
    ensures stop { result < length bytes.now → is_cell_text (slice_index bytes.now result) ≡ false }
{
    match memchr3(b'\t', b'\n', ESC, &bytes[start..]) {
        Some(size) => start + size,
        None => bytes.len(),
    }
}

// Whether a byte is a printable ASCII character, which takes one column.
fn is_printable(byte: u8) -> bool
    ensures { result ≡ is_in_range 0x20 0x7E byte }
{
    matches!(byte, b' '..=b'~')
}

// Appends a cell with this text, measured, that ends here. A `printable` cell has printable ASCII alone, of which
// each byte takes a column. Any other takes these columns, where they are known.
#[inline(always)]
fn push_cell(
    rows: &mut RowEnds,
    text: &str,
    end: usize,
    printable: bool,
    columns: Option<usize>,
) -> Result<(), AllocError>
    requires below_max { end < usize.MAX }
    requires bytes { length text.now ≡ end - start_behind rows.old.ends }
    requires printable { IsTrue printable → IsTrue (are_printable text.now) }
    requires columns { printable ≡ false → IfSome columns (λ columns. measure (chars text.now) ≡ columns) }
    ensures { OnOk result (rows.new ≡ with_cell rows.old (record { end = end; width = measure (chars text.now) })) }
{
    if printable {
        let width = text.len();
        return rows.push_printable(CellEnd { end, width });
    }
    let width = match columns {
        Some(columns) => columns,
        None => get_string_width(text),
    };
    rows.push(CellEnd { end, width })
}
