//! A line that is wrapped, part by part.
ghost use Rattle.std.specs.Prelude.{◌≡◌, ◌<◌, ◌≤◌, ◌+◌, ◌-◌, ◌++◌, ℕ, List, [], OnOk, drop, length, false, string_bytes, take, true};
ghost use Rattle.std.specs.List.{join_with_byte, prefix_len, repeat};
ghost use Rattle.std.specs.Str.{IsAscii};
ghost use Rattle.ansi_scan.specs.Sequences.{Piece, is_not_escape};
ghost use Rattle.ansi_scan.specs.Pieces.{pieces};
ghost use Rattle.ansi_scan.specs.StartsAndEnds.{end_bytes, start_bytes};
ghost use Rattle.ansi_str.specs.StyledText.{strip, style_after_all};
ghost use Rattle.ansi_str.specs.Parts.{IsGoodBound, dressed, from_place, through_place};
ghost use Rattle.ansi_str.specs.Walking.{begins_with_escape, from_text};
ghost use Rattle.grid_records_measure.specs.TextLines.{line_feed};
ghost use Rattle.tabled_size_wrap.specs.Wrapping.{line_part, replacement_bytes};
ghost use Rattle.tabled_size_wrap.specs.Runs.{wrapped_lines, has_room_for};
ghost use Rattle.tabled_size_wrap.specs.Standing.{StandsAt};
ghost use Rattle.tabled_size_wrap.specs.Room.{MakesRoom};

use crate::line_units::LineUnits;
use ansi_scan::ESC;
use ansi_str::AnsiStr;
use ansi_str_search::{Place, front};
use grid_records_measure::is_printable;
use std::alloc::{AllocError, Global};

/// Appends the lines that a line is wrapped into, with a line feed between each two.
pub(crate) fn push_wrapped_lines(
    alloc: Global,
    out: &mut String,
    line: &str,
    width: usize,
    keep_words: bool,
) -> Result<(), AllocError>
    requires { 0 < width }
    ensures { OnOk result (string_bytes out.new ≡ string_bytes out.old ++ join_with_byte line_feed (wrapped_lines width keep_words (pieces line.now))) }
{
    let stripped = line.ansi_strip(alloc)?;
    if stripped.is_empty() {
        return push_nothing(out, line);
    }
    if !keep_words && is_ascii(&stripped) {
        return push_full_lines(out, line, stripped.len(), width);
    }
    push_runs(out, line, &stripped, width, keep_words)
}

// Whether a text is known to be ASCII. Printable ASCII, as most of it is, is found by a look at many bytes at a time.
fn is_ascii(text: &str) -> bool
    ensures { result ≡ true → IsAscii text.now }
{
    is_printable(text) || text.is_ascii()
}

// The same of a line that shows some text, which this is.
fn push_runs(
    out: &mut String,
    line: &str,
    stripped: &str,
    width: usize,
    keep_words: bool,
) -> Result<(), AllocError>
    requires some_width { 0 < width }
    requires shown { stripped.now ≡ strip (pieces line.now) }
    requires some_text { 0 < length stripped.now }
    ensures { OnOk result (string_bytes out.new ≡ string_bytes out.old ++ join_with_byte line_feed (wrapped_lines width keep_words (pieces line.now))) }
{
    let mut run = Run {
        place: Place::start_of(line),
        kept: 0,
        used: 0,
    };
    for unit in LineUnits::new(stripped, width, keep_words) {
        let len = unit.end - unit.start;
        run.make_room(out, unit.cost, width)?;
        if unit.cost <= width {
            run.kept += len;
            run.used += unit.cost;
        } else {
            let kept = run.kept;
            push_part(out, &mut run.place, kept)?;
            run.place = run.place.through(len);
            push_replacements(out, width - run.used)?;
            run.kept = 0;
            run.used = width;
        }
    }
    let kept = run.kept;
    push_part(out, &mut run.place, kept)
}

// The line of the result that is being written. It has the place up to which it is written, the bytes after the
// place that it keeps, and the columns that it has taken.
#[derive(Drop)]
struct Run<'a> {
    place: Place<'a>,
    kept: usize,
    used: usize,
}

impl<'a> Run<'a> {
    // Makes a unit of this cost fit: where it does not fit on the line, writes the line, and begins the next one.
    fn make_room(&mut self, out: &mut String, cost: usize, width: usize) -> Result<(), AllocError>
        requires fits { self.old.used ≤ width }
        requires good { IsGoodBound (strip (pieces self.old.place.rest.now)) self.old.kept }
        ensures { OnOk result (MakesRoom width cost self.old self.new (string_bytes out.old) (string_bytes out.new)) }
    {
        if has_room(cost, self.used, width) {
            return Ok(());
        }
        push_part(out, &mut self.place, self.kept)?;
        out.push('\n')?;
        self.kept = 0;
        self.used = 0;
        Ok(())
    }
}

// The same of a line that shows some ASCII text, `len` bytes of it, where words are not kept. Each byte
// is a unit that costs one column, so a line of the result has as many as the width.
fn push_full_lines(out: &mut String, line: &str, len: usize, width: usize) -> Result<(), AllocError>
    requires some_width { 0 < width }
    requires shown { len ≡ length (strip (pieces line.now)) }
    requires some_text { 0 < len }
    requires ascii { IsAscii (strip (pieces line.now)) }
    ensures { OnOk result (string_bytes out.new ≡ string_bytes out.old ++ join_with_byte line_feed (wrapped_lines width false (pieces line.now))) }
{
    let mut place = Place::start_of(line);
    let mut left = len;
    while left > width {
        push_part(out, &mut place, width)?;
        out.push('\n')?;
        left -= width;
    }
    push_part(out, &mut place, left)
}

// Whether a unit fits on a line that has taken `used` columns. One that costs more than the width does
// where a column is left.
fn has_room(cost: usize, used: usize, width: usize) -> bool
    requires { used ≤ width }
    ensures { result ≡ has_room_for width used cost }
{
    if cost <= width {
        cost <= width - used
    } else {
        used < width
    }
}

// Appends a line that shows no text.
fn push_nothing(out: &mut String, line: &str) -> Result<(), AllocError>
    requires { strip (pieces line.now) ≡ [] }
    ensures { OnOk result (string_bytes out.new ≡ string_bytes out.old ++ line_part (pieces line.now) 0 0) }
{
    let mut place = Place::start_of(line);
    push_slice(out, &mut place, 0)
}

// Appends the part of a line from a place on, and goes to the place after it. In a line that shows some
// text, a part of no bytes is none.
fn push_part<'a>(out: &mut String, place: &mut Place<'a>, len: usize) -> Result<(), AllocError>
    requires { IsGoodBound (strip (pieces place.old.rest.now)) len }
    ensures pushes { OnOk result ((line : List Piece) (at : ℕ) → StandsAt line at place.old.rest.now place.old.style →
        0 < length (strip line) → string_bytes out.new ≡ string_bytes out.old ++ line_part line at (at + len)) }
    ensures stands { OnOk result ((line : List Piece) (at : ℕ) → StandsAt line at place.old.rest.now place.old.style →
        StandsAt line (at + len) place.new.rest.now place.new.style) }
{
    if len == 0 {
        return Ok(());
    }
    push_slice(out, place, len)
}

// Appends `len` bytes of a line from a place on, with the sequences among and after them, and goes to
// the place after them.
fn push_slice<'a>(out: &mut String, place: &mut Place<'a>, len: usize) -> Result<(), AllocError>
    requires { IsGoodBound (strip (pieces place.old.rest.now)) len }
    ensures pushes { OnOk result (string_bytes out.new ≡ string_bytes out.old
        ++ dressed place.old.style (through_place len (pieces place.old.rest.now))) }
    ensures rest { OnOk result (pieces place.new.rest.now ≡ from_text (from_place len (pieces place.old.rest.now))) }
    ensures style { OnOk result (place.new.style ≡ style_after_all place.old.style (through_place len (pieces place.old.rest.now))) }
{
    if place.style.is_plain() && shows_text_alone(place.rest, len) {
        out.push_str(&place.rest[..len])?;
        place.rest = &place.rest[len..];
        return Ok(());
    }
    let end = place.through(len);
    push_between(out, place, &end)?;
    *place = end;
    Ok(())
}

// Whether a text has so many bytes without ESC, and no ESC right after them.
fn shows_text_alone(text: &str, len: usize) -> bool
    ensures enough { result ≡ true → len ≤ length text.now }
    ensures run { result ≡ true → len ≡ prefix_len is_not_escape (take len text.now) }
    ensures behind { result ≡ true → begins_with_escape (drop len text.now) ≡ false }
{
    let bytes = text.as_bytes();
    if len > bytes.len() {
        return false;
    }
    let (slice, behind) = bytes.split_at(len);
    if slice.contains(&ESC) {
        return false;
    }
    !begins_with_escape(behind)
}

// Whether the first byte is ESC.
fn begins_with_escape(bytes: &[u8]) -> bool
    ensures { result ≡ begins_with_escape bytes.now }
{
    matches!(bytes, [ESC, ..])
}

// Appends the text from one place to another, between the start of the style known here and the end of the style
// known there. `Place::part_to` would make a text of it, which is written once more.
fn push_between<'a>(out: &mut String, from: &Place<'a>, to: &Place<'a>) -> Result<(), AllocError>
    requires { (slice : List ℕ) × (from.now.rest.now ≡ slice ++ to.now.rest.now) }
    ensures { OnOk result (string_bytes out.new ≡ string_bytes out.old ++ (start_bytes from.now.style
        ++ (take (length from.now.rest.now - length to.now.rest.now) from.now.rest.now ++ end_bytes to.now.style))) }
{
    let slice = front(from.rest, to.rest);
    if from.style.is_plain() && to.style.is_plain() {
        out.push_str(slice)?;
        return Ok(());
    }
    let start = from.style.start();
    let end = to.style.end();
    write!(out, "{start}{slice}{end}")
}

// Appends `n` replacement characters.
fn push_replacements(out: &mut String, n: usize) -> Result<(), AllocError>
    ensures { OnOk result (string_bytes out.new ≡ string_bytes out.old ++ repeat n replacement_bytes) }
{
    for _ in 0..n {
        out.push('\u{fffd}')?;
    }
    Ok(())
}
