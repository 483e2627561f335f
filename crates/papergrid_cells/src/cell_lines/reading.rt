//! The lines of a cell are read once, with its trims.
ghost use Rattle.std.specs.Prelude.{◌≡◌, ◌+◌, ◌-◌, ◌≤◌, IfOk, IfSome, OnOk, [], drop, false, length, map, slice_index_or, take};
ghost use Rattle.std.specs.Cow.{cow_str_bytes};
ghost use Rattle.std.specs.List.{prefix_len, slice_split, suffix_len};
ghost use Rattle.ansi_scan.specs.Pieces.{pieces};
ghost use Rattle.ansi_str.specs.StyledText.{has_escape};
ghost use Rattle.grid_records_measure.specs.RawLines.{lines_behind};
ghost use Rattle.grid_records_measure.specs.TextLines.{is_line_feed, line_measure, shown_lines};
ghost use Rattle.grid_records_measure.specs.Trimming.{trimmed};
ghost use Rattle.grid_records_traits.specs.Rows.{text_at};
ghost use Rattle.papergrid_picture.specs.CellLines.{cell_lines, cell_measures};
ghost use Rattle.papergrid_cells.specs.Lines.{line_measures, line_texts};
ghost use Rattle.papergrid_cells.specs.Shown.{kept_by, line_shown, measure_shown, measures_of, line_facts, texts_of};

use super::{CellLine, CellLines};
use ansi_str::AnsiStr;
use grid_config_values::Position;
use grid_records_measure::{Lines, get_lines, get_string_width, split_line};
use grid_records_traits::PeekableRecords;
use std::alloc::{AllocError, Global};
use std::borrow::CowStr;

/// What a line shows: how many columns it takes, and whether it is nothing but white space.
#[derive(Drop)]
struct LineFacts {
    width: usize,
    is_blank: bool,
}

/// Reads the lines of the cell at this place: with a vertical trim without blank lines at both ends, and with
/// a horizontal trim without white space at both ends of each. Fails only where allocation fails.
pub fn read_cell<'a, R: PeekableRecords>(
    alloc: Global,
    records: &'a R,
    pos: Position,
    trim_horizontal: bool,
    trim_vertical: bool,
) -> Result<CellLines<'a>, AllocError>
    ensures lines { IfOk result (λ cell. texts_of cell ≡ cell_lines trim_horizontal trim_vertical (text_at (R.rows records.now) pos)) }
    ensures measures { IfOk result (λ cell. measures_of cell ≡ cell_measures trim_horizontal trim_vertical (text_at (R.rows records.now) pos)) }
{
    if trim_horizontal || trim_vertical || records.count_lines(pos) != 1 {
        return read_text(alloc, records.get_text(pos), trim_horizontal, trim_vertical);
    }
    let line = CellLine {
        text: records.get_line(alloc, pos, 0)?,
        width: records.get_width(pos),
    };
    Ok(CellLines::new(vec![in alloc; line]?))
}

// The lines of a text. None is looked up from the top.
fn read_text<'a>(
    alloc: Global,
    text: &'a str,
    trim_horizontal: bool,
    trim_vertical: bool,
) -> Result<CellLines<'a>, AllocError>
    ensures lines { IfOk result (λ cell. texts_of cell ≡ cell_lines trim_horizontal trim_vertical text.now) }
    ensures measures { IfOk result (λ cell. measures_of cell ≡ cell_measures trim_horizontal trim_vertical text.now) }
{
    let styled = text.ansi_has_any();
    if styled {
        return read_shown(alloc, text, trim_horizontal, trim_vertical);
    }
    if trim_vertical {
        return read_plain(alloc, text, trim_horizontal, trim_vertical);
    }
    let lines = lines_without_escape(alloc, text, trim_horizontal)?;
    Ok(CellLines::new(lines))
}

// The same of a text without ESC, byte for byte.
fn read_plain<'a>(
    alloc: Global,
    text: &'a str,
    trim_horizontal: bool,
    trim_vertical: bool,
) -> Result<CellLines<'a>, AllocError>
    requires { has_escape text.now ≡ false }
    ensures lines { IfOk result (λ cell. texts_of cell ≡ cell_lines trim_horizontal trim_vertical text.now) }
    ensures measures { IfOk result (λ cell. measures_of cell ≡ cell_measures trim_horizontal trim_vertical text.now) }
{
    let shown = shown_lines(alloc, text, trim_horizontal)?;
    let (passed, count) = kept_lines(&shown, trim_vertical);
    let lines = behind_lines(text, passed);
    let kept = &shown[passed..passed + count];
    Ok(CellLines::new(plain_lines(alloc, lines, kept, trim_horizontal)?))
}

// What comes behind so many lines of a text without ESC.
fn behind_lines(text: &str, passed: usize) -> Option<&str>
    requires { has_escape text.now ≡ false }
    ensures left { lines_behind result ≡ drop passed (shown_lines (pieces text.now)) }
    ensures plain { IfSome result (λ rest. has_escape rest.now ≡ false) }
{
    let mut lines = Some(text);
    for _ in 0..passed {
        let (_, behind) = first_line(lines);
        lines = behind;
    }
    lines
}

// The first of these lines, and those behind it. Where none is left, it is the empty text.
fn first_line<'a>(lines: Option<&'a str>) -> (&'a str, Option<&'a str>)
    requires { IfSome lines (λ text. has_escape text.now ≡ false) }
    ensures line { result.0.now ≡ slice_index_or (lines_behind lines.entry) 0 [] }
    ensures left { lines_behind result.1 ≡ drop 1 (lines_behind lines.entry) }
    ensures plain { IfSome result.1 (λ rest. has_escape rest.now ≡ false) }
{
    match lines {
        Some(text) => split_line(text),
        None => ("", None),
    }
}

// A line for each of those that are shown, of lines without ESC.
fn plain_lines<'a>(
    alloc: Global,
    lines: Option<&'a str>,
    shown: &[LineFacts],
    trim_horizontal: bool,
) -> Result<Vec<CellLine<'a>>, AllocError>
    requires plain { IfSome lines (λ text. has_escape text.now ≡ false) }
    requires enough { length shown.now ≤ length (lines_behind lines) }
    ensures texts { IfOk result (λ cell. line_texts cell.items ≡ map (line_shown trim_horizontal) (take (length shown.now) (lines_behind lines.entry))) }
    ensures measures { IfOk result (λ cell. line_measures cell.items ≡ map (λ line. line.width) shown.now) }
{
    let mut cell = Vec::with_capacity(alloc, shown.len())?;
    let mut rest = lines;
    for line in shown {
        let (text, behind) = first_line(rest);
        let text = line_shown(alloc, CowStr::Borrowed(text), trim_horizontal)?;
        cell.push(CellLine {
            text,
            width: line.width,
        })?;
        rest = behind;
    }
    Ok(cell)
}

// The lines of a text by what they show, whether there are sequences and trims or not.
fn read_shown<'a>(
    alloc: Global,
    text: &'a str,
    trim_horizontal: bool,
    trim_vertical: bool,
) -> Result<CellLines<'a>, AllocError>
    ensures lines { IfOk result (λ cell. texts_of cell ≡ cell_lines trim_horizontal trim_vertical text.now) }
    ensures measures { IfOk result (λ cell. measures_of cell ≡ cell_measures trim_horizontal trim_vertical text.now) }
{
    let stripped = text.ansi_strip(alloc)?;
    let shown = shown_lines(alloc, &stripped, trim_horizontal)?;
    let (first, count) = kept_lines(&shown, trim_vertical);
    let mut lines = get_lines(alloc, text);
    pass_lines(&mut lines, first)?;
    let kept = &shown[first..first + count];
    Ok(CellLines::new(take_lines(alloc, &mut lines, kept, trim_horizontal)?))
}

// The lines of a text without ESC as they are shown, byte for byte. `split_line` looks at many bytes at a time, and takes
// a third of the time of `str::split`.
fn lines_without_escape<'a>(
    alloc: Global,
    text: &'a str,
    trim_horizontal: bool,
) -> Result<Vec<CellLine<'a>>, AllocError>
    requires { has_escape text.now ≡ false }
    ensures texts { IfOk result (λ lines. line_texts lines.items ≡ map (line_shown trim_horizontal) (slice_split is_line_feed text.now)) }
    ensures measures { IfOk result (λ lines. line_measures lines.items ≡ map (measure_shown trim_horizontal) (slice_split is_line_feed text.now)) }
{
    let mut lines = Vec::new(alloc);
    let mut rest = Some(text);
    while let Some(others) = rest {
        let (line, behind) = split_line(others);
        lines.push(plain_line(line, trim_horizontal))?;
        rest = behind;
    }
    Ok(lines)
}

// A line without ESC as it is shown.
fn plain_line(line: &str, trim_horizontal: bool) -> CellLine<'_>
    requires { has_escape line.now ≡ false }
    ensures text { cow_str_bytes result.text ≡ line_shown trim_horizontal line.now }
    ensures width { result.width ≡ measure_shown trim_horizontal line.now }
{
    if trim_horizontal {
        return measured_line(line.trim());
    }
    measured_line(line)
}

// A text without ESC as a line.
fn measured_line(text: &str) -> CellLine<'_>
    ensures text { cow_str_bytes result.text ≡ text.now }
    ensures width { result.width ≡ line_measure text.now }
{
    CellLine {
        text: CowStr::Borrowed(text),
        width: get_string_width(text),
    }
}

// The lines of a text without ESC, by what they show.
fn shown_lines(
    alloc: Global,
    text: &str,
    trim_horizontal: bool,
) -> Result<Vec<LineFacts>, AllocError>
    requires { has_escape text.now ≡ false }
    ensures { IfOk result (λ lines. lines.items ≡ map (line_facts trim_horizontal) (slice_split is_line_feed text.now)) }
{
    let mut lines = Vec::new(alloc);
    let mut rest = Some(text);
    while let Some(others) = rest {
        let (line, behind) = split_line(others);
        lines.push(line_facts(line, trim_horizontal))?;
        rest = behind;
    }
    Ok(lines)
}

// A line without sequences.
fn line_facts(line: &str, trim_horizontal: bool) -> LineFacts
    ensures { result ≡ line_facts trim_horizontal line.now }
{
    let trimmed = line.trim();
    let shown = if trim_horizontal { trimmed } else { line };
    LineFacts {
        width: get_string_width(shown),
        is_blank: trimmed.is_empty(),
    }
}

// Which lines are kept: the number of the first, and their count.
fn kept_lines(lines: &[LineFacts], trim_vertical: bool) -> (usize, usize)
    ensures kept { result ≡ kept_by (λ line. line.is_blank) trim_vertical lines.now }
    ensures within { result.0 + result.1 ≤ length lines.now }
{
    if !trim_vertical {
        return (0, lines.len());
    }
    let first = blank_front(lines);
    (first, len_without_blank_end(&lines[first..]))
}

// How many blank lines come first.
fn blank_front(lines: &[LineFacts]) -> usize
    ensures front { result ≡ prefix_len (λ line. line.is_blank) lines.now }
    ensures within { result ≤ length lines.now }
{
    for (index, line) in lines.iter().enumerate() {
        if !line.is_blank {
            return index;
        }
    }
    lines.len()
}

// How many lines there are without the blank ones at the end.
fn len_without_blank_end(lines: &[LineFacts]) -> usize
    ensures trimmed { result ≡ length lines.now - suffix_len (λ line. line.is_blank) lines.now }
    ensures within { result ≤ length lines.now }
{
    let mut len = lines.len();
    while len > 0 && lines[len - 1].is_blank {
        len -= 1;
    }
    len
}

// Passes over `count` lines.
fn pass_lines(lines: &mut Lines<'_>, count: usize) -> Result<(), AllocError>
    ensures { OnOk result (lines.new.parts ≡ drop count lines.old.parts) }
{
    for _ in 0..count {
        next_line(lines)?;
    }
    Ok(())
}

// A line for each of those that are shown, with the columns that it takes.
fn take_lines<'a>(
    alloc: Global,
    lines: &mut Lines<'a>,
    shown: &[LineFacts],
    trim_horizontal: bool,
) -> Result<Vec<CellLine<'a>>, AllocError>
    requires { length shown.now ≤ length lines.old.parts }
    ensures texts { IfOk result (λ cell. line_texts cell.items ≡ map (line_shown trim_horizontal) (take (length shown.now) lines.old.parts)) }
    ensures measures { IfOk result (λ cell. line_measures cell.items ≡ map (λ line. line.width) shown.now) }
{
    let mut cell = Vec::with_capacity(alloc, shown.len())?;
    for line in shown {
        let text = line_shown(alloc, next_line(lines)?, trim_horizontal)?;
        cell.push(CellLine {
            text,
            width: line.width,
        })?;
    }
    Ok(cell)
}

// The next line, or the empty text after the last.
fn next_line<'a>(lines: &mut Lines<'a>) -> Result<CowStr<'a>, AllocError>
    ensures line { IfOk result (λ line. cow_str_bytes line ≡ slice_index_or lines.old.parts 0 []) }
    ensures rest { OnOk result (lines.new.parts ≡ drop 1 lines.old.parts) }
{
    match lines.next() {
        Some(line) => line,
        None => Ok(CowStr::Borrowed("")),
    }
}

// The line as it is shown.
fn line_shown<'a>(
    alloc: Global,
    line: CowStr<'a>,
    trim_horizontal: bool,
) -> Result<CowStr<'a>, AllocError>
    ensures { IfOk result (λ out. cow_str_bytes out ≡ line_shown trim_horizontal (cow_str_bytes line.entry)) }
{
    if trim_horizontal {
        trimmed_line(alloc, line)
    } else {
        Ok(line)
    }
}

// The line without the white space at both ends of what it shows.
fn trimmed_line<'a>(alloc: Global, line: CowStr<'a>) -> Result<CowStr<'a>, AllocError>
    ensures { IfOk result (λ out. cow_str_bytes out ≡ trimmed (cow_str_bytes line.entry)) }
{
    match line {
        CowStr::Borrowed(text) => borrowed_trim(alloc, text),
        CowStr::Owned(text) => owned_trim(alloc, &text),
    }
}

// The same of a line that is borrowed: without ESC it stays a borrow.
fn borrowed_trim<'a>(alloc: Global, text: &'a str) -> Result<CowStr<'a>, AllocError>
    ensures { IfOk result (λ out. cow_str_bytes out ≡ trimmed text.now) }
{
    if text.ansi_has_any() {
        return owned_trim(alloc, text);
    }
    Ok(CowStr::Borrowed(text.trim()))
}

// The same in memory of its own.
fn owned_trim<'a>(alloc: Global, text: &str) -> Result<CowStr<'a>, AllocError>
    ensures { IfOk result (λ out. cow_str_bytes out ≡ trimmed text.now) }
{
    Ok(CowStr::Owned(text.ansi_trim(alloc)?.into_owned(alloc)?))
}
