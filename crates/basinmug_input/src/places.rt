//! Where in a text something is: its line and its field, both from 1.
ghost use Rattle.std.specs.Prelude.{◌≡◌, ◌≤◌, ◌<◌, ◌↔◌, ℕ, length, IfSome, IsSome, IsTrue};
ghost use Rattle.csv.specs.declared.parser.Action.TheVariants as act;
ghost use Rattle.csv.specs.declared.parser.State.TheVariants as st;
ghost use Rattle.basinmug_input.specs.Reading.{HasByte, settings};
ghost use Rattle.basinmug_input.specs.Places.{EndsInQuotes, IsOpenQuote, IsReadAs, field_at, line_number_at};
ghost use Rattle.basinmug_input.specs.Walking.{csv_action, csv_state};

use crate::progress::{ByteAction, Progress, QUOTE, RecordState, step};

/// The line of a byte: one more than the line feeds before it.
pub(crate) fn line_number(text: &[u8], at: usize) -> usize
    requires { at ≤ length text.now }
    ensures { result ≡ line_number_at text.now at }
{
    let mut line = 1;
    for i in 0..at {
        if text[i] == b'\n' {
            line += 1;
        }
    }
    line
}

/// The field of a byte in its record: one more than the fields that have ended before it.
pub(crate) fn field_of(text: &[u8], delimiter: u8, at: usize) -> usize
    requires { at ≤ length text.now }
    ensures { result ≡ field_at (settings delimiter) text.now at }
{
    let mut read = Progress::start();
    for i in 0..at {
        read = read.with(delimiter, text[i]);
    }
    read.fields + 1
}

/// Where the quote is that opens the last field and isn't closed, if the text ends in a quoted field. A text
/// without quotes is not walked through.
pub(crate) fn open_quote(text: &[u8], delimiter: u8) -> Option<usize>
    ensures open { IfSome result (IsOpenQuote (settings delimiter) text.now) }
    ensures closed { IsSome result ↔ EndsInQuotes (settings delimiter) text.now }
{
    if !text.contains(&QUOTE) {
        return None;
    }
    let mut state = RecordState::RecordStart;
    let mut opened = 0;
    for i in 0..text.len() {
        let (next, action) = step(delimiter, state, text[i]);
        if opens(next, action) {
            opened = i;
        }
        state = next;
    }
    match state {
        RecordState::Quoted => Some(opened),
        _ => None,
    }
}

// Whether a byte with this action, after which this state holds, is a quote that opens a field.
fn opens(state: RecordState, action: ByteAction) -> bool
    ensures { IsTrue result ↔ ((csv_state state ≡ st.InQuoted) × (csv_action action ≡ act.Skip)) }
{
    matches!((state, action), (RecordState::Quoted, ByteAction::Skip))
}

/// Where the byte of a text is that is read as this byte of this field of the record `row`, all from 0.
pub(crate) fn place_of(text: &[u8], delimiter: u8, row: usize, field: usize, byte: usize) -> usize
    requires { HasByte (settings delimiter) text.now row field byte }
    ensures { IsReadAs (settings delimiter) text.now result row field byte }
{
    let mut read = Progress::start();
    for i in 0..text.len() {
        let (_, action) = step(delimiter, read.state, text[i]);
        if is_read_as(action, read, row, field, byte) {
            return i;
        }
        read = read.with(delimiter, text[i]);
    }
    text.len()
}

// Whether a byte with this action is read as this byte of this field of this record, after what is read before it.
fn is_read_as(action: ByteAction, before: Progress, row: usize, field: usize, byte: usize) -> bool
    ensures { IsTrue result ↔ ((csv_action action ≡ act.Copy) × (before.records ≡ row) × (before.fields ≡ field) × (before.bytes ≡ byte)) }
{
    matches!(action, ByteAction::Copy)
        && before.records == row
        && before.fields == field
        && before.bytes == byte
}
