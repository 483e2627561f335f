//! The rows and cells of a text with escape sequences: its parts at line feeds, and their parts at tabs. Each part
//! opens and ends its own styles. A part of a part is one part of the text, so one walk finds the cells. Where no style
//! is open at either end of a part, it is a slice of the text, and such parts are copied many at once.
ghost use Rattle.std.specs.Prelude.{◌≡◌, ◌+◌, ◌-◌, ◌<◌, ◌==◌, ◌↔◌, ◌++◌, ℕ, List, drop, false, length, slice_index, string_bytes, take, true, IfOk, IfSome, IsNone, IsSome, IsTrue, OnOk};
ghost use Rattle.std.specs.Int.{is_in_range};
ghost use Rattle.std.specs.List.{prefix_len};
ghost use Rattle.ansi_scan.specs.Attributes.{plain_attributes};
ghost use Rattle.ansi_scan.specs.Sequences.{IsWhole};
ghost use Rattle.ansi_scan.specs.Pieces.{pieces};
ghost use Rattle.ansi_str_search.specs.Walking.{AreFirstAndRest, begins_with_escape};
ghost use Rattle.columns_run.specs.Rows.{line_feed, stripped};
ghost use Rattle.columns_run.specs.Cells.{line_rows};
ghost use Rattle.columns_run.specs.Ends.{is_cell_text, EndsCell, EndsPass};
ghost use Rattle.columns_run.specs.Styled.{AddsCell, EndsRow, IsMeasuredBy, KeptEndsWith, all_gathered, gathered_lines, gathered_to, nothing_gathered, part_up_to, styled_cell_lines};
ghost use Rattle.columns_table.specs.Ends.{AreCellEnds};
ghost use Rattle.columns_table.specs.RowEnds.{with_cell};
ghost use Rattle.columns_table.specs.Rows.{split_by_lengths};
ghost use Rattle.grid_records_measure.specs.Measures.{are_printable};
ghost use Rattle.grid_records_measure.specs.TextLines.{line_width};

use crate::printable_end::printable_end;
use crate::rows_without_escape::{ends_text, rows_with_room};
use ansi_scan::{ESC, Kind};
use ansi_str::get_blocks;
use ansi_str_search::{Place, begins_with_escape, front, split_item};
use columns_table::{CellEnd, RowEnds};
use grid_records_measure::get_line_width;
use std::alloc::{AllocError, Global};

/// Cells with their own styles opened and ended, one after the other in a text of their own, each before one ASCII
/// character.
#[derive(Drop)]
pub struct StyledCells {
    /// The text that contains them.
    pub text: String,
    /// Where each of them ends there, row by row.
    pub rows: RowEnds,
}

/// The cells that are read so far, and a part of the input that is still to be copied. That part, from `kept` on,
/// belongs to the cell that is read, after the text of the cells so far. It is copied at once, and only when something
/// else must come after it.
#[derive(Drop)]
struct Gathering<'a> {
    /// The text of the cells so far.
    text: String,
    /// Where each of them ends, row by row.
    rows: RowEnds,
    /// The part of the input that is not copied yet.
    kept: &'a str,
}

/// The end of a cell.
#[derive(Drop)]
struct CellStop<'a> {
    /// Where it is.
    place: Place<'a>,
    /// How many bytes the cell shows up to there.
    size: usize,
    /// Whether each of them is printable ASCII, which takes a column.
    printable: bool,
}

/// The cells of all rows: the parts at tabs of the parts at line feeds, except for a last row that shows nothing.
/// None where the text is not whole.
pub fn styled_cells(alloc: Global, text: &str) -> Result<Option<StyledCells>, AllocError>
    ensures whole { IfOk result (λ found. IsSome found ↔ IsWhole text.now) }
    ensures fit { IfOk result (λ found. IfSome found (λ cells. AreCellEnds (string_bytes cells.text) cells.rows.ends)) }
    ensures ended { IfOk result (λ found. IfSome found (λ cells. cells.rows.begun ≡ 0)) }
    ensures cells { IfOk result (λ found. IfSome found (λ cells. split_by_lengths cells.rows.counts (styled_cell_lines cells) ≡ line_rows text.now)) }
{
    let mut found = Gathering {
        text: String::with_capacity(alloc, text.len())?,
        rows: rows_with_room(alloc, text.len())?,
        kept: text,
    };
    if !gather_cells(alloc, &mut found, text)? {
        return Ok(None);
    }
    Ok(Some(StyledCells {
        text: found.text,
        rows: found.rows,
    }))
}

// Gathers the cells of a text that is kept as a whole, where nothing is gathered yet. Returns whether the text is
// whole: where it is not, only the cells before the broken ESC are gathered.
fn gather_cells<'a>(
    alloc: Global,
    found: &mut Gathering<'a>,
    text: &'a str,
) -> Result<bool, AllocError>
    requires none { all_gathered found.old ≡ nothing_gathered }
    requires kept { found.old.kept.now ≡ text.now }
    ensures whole { IfOk result (λ whole. IsTrue whole ↔ IsWhole text.now) }
    ensures fit { IfOk result (λ whole. IsTrue whole → AreCellEnds (string_bytes found.new.text) found.new.rows.ends) }
    ensures ended { IfOk result (λ whole. IsTrue whole → found.new.rows.begun ≡ 0) }
    ensures cells { IfOk result (λ whole. IsTrue whole → split_by_lengths found.new.rows.counts (gathered_lines (all_gathered found.new)) ≡ line_rows text.now) }
{
    let mut place = Place::start_of(text);
    let Some(mut end) = cell_end(&place) else {
        return Ok(false);
    };
    let mut begins_plain = true;
    while !end.place.rest.is_empty() {
        let ends_plain = end.place.style.is_plain();
        push_cell(alloc, found, &place, &end, begins_plain & ends_plain)?;
        begins_plain = ends_plain;
        if begins_with_line_feed(end.place.rest) {
            found.rows.end_row()?;
        }
        place = Place {
            rest: behind_separator(end.place.rest),
            style: end.place.style,
        };
        end = match cell_end(&place) {
            Some(end) => end,
            None => return Ok(false),
        };
    }
    end_last_row(alloc, found, &place, &end)?;
    Ok(true)
}

// Ends the last row with the rest of the text as its last cell. A last row that shows nothing is left out.
fn end_last_row<'a>(
    alloc: Global,
    cells: &mut Gathering<'a>,
    place: &Place<'a>,
    end: &CellStop<'a>,
) -> Result<(), AllocError>
    requires begins { (slice : List ℕ) × (place.now.rest.now ≡ slice ++ end.now.place.rest.now) }
    requires kept { KeptEndsWith cells.old place.now.rest.now }
    requires measured { IsMeasuredBy end.now (part_up_to place.now end.now.place) }
    ensures shown { OnOk result (0 < cells.old.rows.begun + length (stripped place.now.rest.now) →
        EndsRow (gathered_to cells.old place.now.rest.now) (all_gathered cells.new) (part_up_to place.now end.now.place)) }
    ensures left_out { OnOk result (cells.old.rows.begun + length (stripped place.now.rest.now) ≡ 0 →
        all_gathered cells.new ≡ gathered_to cells.old place.now.rest.now) }
{
    copy_to(cells, place.rest)?;
    if !cells.rows.has_begun() && is_bare(place.rest) {
        return Ok(());
    }
    push_dressed(alloc, cells, place, end)?;
    cells.rows.end_row()
}

// Appends the text from here to the end, and the separator there, as a cell, measured.
#[inline(always)]
fn push_cell<'a>(
    alloc: Global,
    cells: &mut Gathering<'a>,
    place: &Place<'a>,
    end: &CellStop<'a>,
    plain: bool,
) -> Result<(), AllocError>
    requires begins { (slice : List ℕ) × (place.now.rest.now ≡ slice ++ end.now.place.rest.now) }
    requires plain { IsTrue plain → (place.now.style ≡ plain_attributes) × (end.now.place.style ≡ plain_attributes) }
    requires kept { KeptEndsWith cells.old place.now.rest.now }
    requires parted { (0 < length end.now.place.rest.now) × (slice_index end.now.place.rest.now 0 < 128) }
    requires measured { IsMeasuredBy end.now (part_up_to place.now end.now.place) }
    ensures adds { OnOk result (AddsCell (gathered_to cells.old place.now.rest.now) (gathered_to cells.new (drop 1 end.now.place.rest.now))
        (part_up_to place.now end.now.place)) }
    ensures kept { OnOk result (KeptEndsWith cells.new (drop 1 end.now.place.rest.now)) }
{
    if plain {
        return push_slice(cells, front(place.rest, end.place.rest), end);
    }
    copy_to(cells, place.rest)?;
    push_dressed(alloc, cells, place, end)?;
    cells.kept = behind_separator(end.place.rest);
    Ok(())
}

// Appends a slice that ends there, and comes after what is kept, as a cell, measured.
#[inline(always)]
fn push_slice(cells: &mut Gathering<'_>, slice: &str, end: &CellStop<'_>) -> Result<(), AllocError>
    requires kept { KeptEndsWith cells.old (slice.now ++ end.now.place.rest.now) }
    requires measured { IsMeasuredBy end.now slice.now }
    ensures kept { OnOk result ((cells.new.kept.now ≡ cells.old.kept.now) × (string_bytes cells.new.text ≡ string_bytes cells.old.text)) }
    ensures rows { OnOk result (cells.new.rows ≡ with_cell cells.old.rows (record {
      end = length (string_bytes cells.old.text) + (length cells.old.kept.now - length end.now.place.rest.now);
      width = line_width slice.now;
    })) }
{
    let width = part_width(slice, end);
    let end = cells.text.len() + (cells.kept.len() - end.place.rest.len());
    cells.rows.push(CellEnd { end, width })
}

// Appends the text from here to the end as a cell, measured, with its styles opened and ended, and a line feed.
// Nothing is kept before it.
#[inline(never)]
fn push_dressed<'a>(
    alloc: Global,
    cells: &mut Gathering<'a>,
    place: &Place<'a>,
    end: &CellStop<'a>,
) -> Result<(), AllocError>
    requires begins { (slice : List ℕ) × (place.now.rest.now ≡ slice ++ end.now.place.rest.now) }
    requires measured { IsMeasuredBy end.now (part_up_to place.now end.now.place) }
    ensures { OnOk result (AddsCell (all_gathered cells.old) (all_gathered cells.new) (part_up_to place.now end.now.place)) }
{
    let part = place.part_to(alloc, &end.place)?;
    let width = part_width(&part, end);
    cells.text.push_str(&part)?;
    let end = cells.text.len();
    cells.rows.push(CellEnd { end, width })?;
    cells.text.push('\n')?;
    Ok(())
}

// Copies what is kept, except for this end of it.
fn copy_to(cells: &mut Gathering<'_>, rest: &str) -> Result<(), AllocError>
    requires { KeptEndsWith cells.old rest.now }
    ensures { OnOk result (all_gathered cells.new ≡ gathered_to cells.old rest.now) }
{
    cells.text.push_str(front(cells.kept, rest))
}

// The columns of a part that ends there, without its sequences. Where all that it shows is printable, it takes one
// column for each byte, and is not looked at again.
fn part_width(part: &str, end: &CellStop<'_>) -> usize
    requires { IsMeasuredBy end.now part.now }
    ensures { result ≡ line_width part.now }
{
    if end.printable {
        end.size
    } else {
        get_line_width(part)
    }
}

// The end of the cell that begins here, after the sequences there, and what is shown up to it; none where an
// ESC there is broken.
#[inline(always)]
fn cell_end<'a>(place: &Place<'a>) -> Option<CellStop<'a>>
    ensures cell { IfSome result (λ end. EndsCell place.now.rest.now place.now.style end.place.rest.now end.place.style) }
    ensures passes { IfSome result (λ end. EndsPass place.now.rest.now end.place.rest.now end.size end.printable) }
    ensures whole { IfSome result (λ end. IsWhole end.place.rest.now → IsWhole place.now.rest.now) }
    ensures broken { IsNone result → ¬ IsWhole place.now.rest.now }
{
    let (mut size, mut printable) = cell_run(place.rest);
    let mut end = Place {
        rest: &place.rest[size..],
        style: place.style,
    };
    while begins_with_escape(end.rest) {
        let Some(behind) = past_sequence(&end) else {
            return None;
        };
        let (more, all) = cell_run(behind.rest);
        end = Place {
            rest: &behind.rest[more..],
            style: behind.style,
        };
        size += more;
        printable &= all;
    }
    Some(CellStop {
        place: end,
        size,
        printable,
    })
}

// How many bytes come before the first sequence, the first tab and the first line feed, and whether each of them is
// printable ASCII. Most are, and those are passed first.
#[inline(always)]
fn cell_run(text: &str) -> (usize, bool)
    ensures size { result.0 ≡ prefix_len is_cell_text text.now }
    ensures printable { result.1 ≡ are_printable (take result.0 text.now) }
{
    let bytes = text.as_bytes();
    let size = printable_end(bytes, 0);
    if ends_text(bytes, size) {
        return (size, true);
    }
    longer_run(text)
}

// The same of a run that is longer than one step of the search, or not printable.
#[inline(never)]
fn longer_run(text: &str) -> (usize, bool)
    ensures size { result.0 ≡ prefix_len is_cell_text text.now }
    ensures printable { result.1 ≡ are_printable (take result.0 text.now) }
{
    let bytes = text.as_bytes();
    let size = printable_len(bytes);
    if ends_text(bytes, size) {
        return (size, true);
    }
    tested_run(text)
}

// How many printable ASCII characters come first.
#[inline(always)]
fn printable_len(bytes: &[u8]) -> usize
    ensures { result ≡ prefix_len (is_in_range 0x20 0x7E) bytes.now }
{
    let mut size = printable_end(bytes, 0);
    while size < bytes.len() && matches!(bytes[size], b' '..=b'~') {
        size = printable_end(bytes, size + 1);
    }
    size
}

// The same as `cell_run`, with a look at each byte for both.
#[inline(never)]
fn tested_run(text: &str) -> (usize, bool)
    ensures size { result.0 ≡ prefix_len is_cell_text text.now }
    ensures printable { result.1 ≡ are_printable (take result.0 text.now) }
{
    let mut printable = true;
    for (i, byte) in text.as_bytes().iter().enumerate() {
        match *byte {
            b' '..=b'~' => {}
            ESC | b'\t' | b'\n' => return (i, printable),
            _ => printable = false,
        }
    }
    (text.len(), printable)
}

// The place after the sequence that is here; none where its ESC is broken.
fn past_sequence<'a>(place: &Place<'a>) -> Option<Place<'a>>
    requires { begins_with_escape place.now.rest.now ≡ true }
    ensures first { IfSome result (λ behind. AreFirstAndRest place.now.style (pieces place.now.rest.now) behind.style (pieces behind.rest.now)) }
    ensures passes { IfSome result (λ behind. EndsPass place.now.rest.now behind.rest.now 0 true) }
    ensures shorter { IfSome result (λ behind. length behind.rest.now < length place.now.rest.now) }
    ensures whole { IfSome result (λ behind. IsWhole place.now.rest.now ↔ IsWhole behind.rest.now) }
    ensures broken { IsNone result → ¬ IsWhole place.now.rest.now }
{
    let Some((kind, bytes, rest)) = split_item(place.rest) else {
        return None;
    };
    let style = match kind {
        Kind::Broken => return None,
        Kind::Sgr => place.style.apply(bytes),
        _ => place.style,
    };
    Some(Place { rest, style })
}

// The place after the tab or the line feed that comes first.
fn behind_separator(text: &str) -> &str
    requires { (0 < length text.now) × (slice_index text.now 0 < 128) }
    ensures { result.now ≡ drop 1 text.now }
{
    &text[1..]
}

// Whether the first byte is a line feed, of a text that is not empty.
fn begins_with_line_feed(text: &str) -> bool
    requires { 0 < length text.now }
    ensures { result ≡ (slice_index text.now 0 == line_feed) }
{
    text.as_bytes()[0] == b'\n'
}

// Whether a text consists of sequences alone.
fn is_bare(text: &str) -> bool
    ensures { result ≡ (length (stripped text.now) == 0) }
{
    get_blocks(text).next().is_none()
}
