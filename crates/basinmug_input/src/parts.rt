//! Texts whose fields are parts of them. Such a text is read field by field: each byte but those between fields joins its
//! field, and so does each between two quotes, so that no machine is walked. A field that is shown as it is, on one line, is
//! not copied.
ghost use Rattle.std.specs.Prelude.{◌≡◌, ◌≤◌, IfOk, IfSome, IsTrue, MatchResult, chars, slice_range, true};
ghost use Rattle.std.specs.List.{list_all};
ghost use Rattle.std.specs.Str.{IsCharBoundary};
ghost use Rattle.csv.specs.Reading.{records};
ghost use Rattle.grid_records_measure.specs.Measures.{are_printable};
ghost use Rattle.basinmug_input.specs.Cleaning.{is_shown};
ghost use Rattle.basinmug_input.specs.Faults.{IsTextWithClosedQuotes};
ghost use Rattle.basinmug_input.specs.Flaws.{HasFlaw};
ghost use Rattle.basinmug_input.specs.Parts.{AreKeptOf, BeginsPlain, CanBeginRecord, HasNext, HasRecord, IsQuoteAt, PartsFields, are_clear};
ghost use Rattle.basinmug_input.specs.Reading.{settings};
ghost use Rattle.basinmug_input.specs.Rows.{HasShown};

use crate::cells::{Flaw, push_field, push_own};
use crate::cleaning::are_shown;
use crate::joined::joined_at;
use crate::kept::{KeptRows, ReadRows, RowChoice};
use crate::plain::{about_fields, plain_end};
use crate::progress::QUOTE;
use crate::single_line::line_width;
use crate::spans::{
    FieldEnd, FieldSpan, begins_quoted, ends_field, field_at, line_ends_len, quoted_at,
};
use basinmug_cells::Rows;
use program_options::basinmug::Escapes;
use std::alloc::{AllocError, Global};

/// Whether a byte can separate parts of a text: it is a character, and no quote.
pub(crate) fn parts_fields(delimiter: u8) -> bool
    ensures { IsTrue result → PartsFields delimiter }
{
    delimiter.is_ascii() && delimiter != QUOTE
}

/// The rows of a text that are chosen; none where a field of any row has a flaw or is not closed.
pub(crate) fn parted_rows<'a>(
    alloc: Global,
    text: &'a str,
    delimiter: u8,
    escapes: Escapes,
    choice: RowChoice,
) -> Result<Option<ReadRows<'a>>, AllocError>
    requires { PartsFields delimiter }
    ensures rows { IfOk result (λ read. IfSome read (AreKeptOf escapes choice (records (settings delimiter) text.now))) }
    ensures closed { IfOk result (λ read. IfSome read (λ _. IsTextWithClosedQuotes (settings delimiter) text.now)) }
{
    let bytes = text.as_bytes();
    let cells = match choice {
        RowChoice::All => about_fields(bytes, delimiter),
        RowChoice::Ends { .. } => 0,
    };
    let mut kept = KeptRows::with_capacity(alloc, choice, text, cells)?;
    let mut at = line_ends_len(bytes);
    while at < bytes.len() {
        let Some(end) = push_record(&mut kept.rows, alloc, text, delimiter, escapes, at)? else {
            return Ok(None);
        };
        kept.end_row()?;
        at = end + line_ends_len(&bytes[end..]);
    }
    Ok(Some(kept.finish()))
}

// Appends the cells of the record that begins at a byte to the row that isn't ended. Returns where the record ends; nothing
// where a field has a flaw or is not closed.
fn push_record<'a>(
    rows: &mut Rows<'a>,
    alloc: Global,
    text: &'a str,
    delimiter: u8,
    escapes: Escapes,
    at: usize,
) -> Result<Option<usize>, AllocError>
    requires parts { PartsFields delimiter }
    requires begins { CanBeginRecord text.now at }
    requires text { rows.old.text ≡ text.now }
    ensures { IfOk result (λ read. IfSome read (λ end. HasRecord escapes delimiter text.now at end rows.old rows.new)) }
{
    let mut start = at;
    loop {
        let Some(end) = push_next(rows, alloc, text, delimiter, escapes, start)? else {
            return Ok(None);
        };
        if !end.is_parted {
            return Ok(Some(end.at));
        }
        start = end.at + 1;
    }
}

// Appends the cell of the field that begins at a byte. Returns where the field ends; nothing where it has a flaw or is not
// closed. One of printable ASCII outside quotes is seen at once.
#[inline(always)]
fn push_next<'a>(
    rows: &mut Rows<'a>,
    alloc: Global,
    text: &'a str,
    delimiter: u8,
    escapes: Escapes,
    start: usize,
) -> Result<Option<FieldEnd>, AllocError>
    requires parts { PartsFields delimiter }
    requires boundary { IsCharBoundary text.now start }
    requires text { rows.old.text ≡ text.now }
    ensures { IfOk result (λ read. IfSome read (λ end. HasNext escapes delimiter text.now start end rows.old rows.new)) }
{
    let bytes = text.as_bytes();
    if begins_quoted(bytes, start) {
        return push_quoted(rows, alloc, text, delimiter, escapes, start);
    }
    let plain = plain_end(bytes, start, delimiter);
    if ends_field(bytes, plain, delimiter) {
        let end = FieldEnd::new(bytes, plain, delimiter);
        rows.push_printable(start, plain)?;
        return Ok(Some(end));
    }
    push_other(rows, alloc, text, delimiter, escapes, start, plain)
}

// The same of a field outside quotes that begins with plain bytes and has more.
#[inline(never)]
fn push_other<'a>(
    rows: &mut Rows<'a>,
    alloc: Global,
    text: &'a str,
    delimiter: u8,
    escapes: Escapes,
    start: usize,
    plain: usize,
) -> Result<Option<FieldEnd>, AllocError>
    requires parts { PartsFields delimiter }
    requires boundary { IsCharBoundary text.now start }
    requires outside { ¬ IsQuoteAt text.now start }
    requires plain { BeginsPlain delimiter text.now start plain }
    requires text { rows.old.text ≡ text.now }
    ensures { IfOk result (λ read. IfSome read (λ end. HasNext escapes delimiter text.now start end rows.old rows.new)) }
{
    let bytes = text.as_bytes();
    let span = field_at(bytes, start, plain, delimiter);
    match push_span(rows, alloc, text, span, escapes)? {
        Ok(()) => Ok(Some(FieldEnd::new(bytes, span.end, delimiter))),
        Err(_) => Ok(None),
    }
}

// The same of a field in quotes.
#[inline(never)]
fn push_quoted<'a>(
    rows: &mut Rows<'a>,
    alloc: Global,
    text: &'a str,
    delimiter: u8,
    escapes: Escapes,
    start: usize,
) -> Result<Option<FieldEnd>, AllocError>
    requires parts { PartsFields delimiter }
    requires boundary { IsCharBoundary text.now start }
    requires quote { IsQuoteAt text.now start }
    requires text { rows.old.text ≡ text.now }
    ensures { IfOk result (λ read. IfSome read (λ end. HasNext escapes delimiter text.now start end rows.old rows.new)) }
{
    let bytes = text.as_bytes();
    match quoted_at(bytes, start, delimiter) {
        Some(span) => match push_span(rows, alloc, text, span, escapes)? {
            Ok(()) => Ok(Some(FieldEnd::new(bytes, span.end, delimiter))),
            Err(_) => Ok(None),
        },
        None => push_joined(rows, alloc, text, delimiter, escapes, start),
    }
}

// The same of one that is no part of the text: a quote in it is doubled, or text comes after its quotes. Its cell gets a text
// of its own.
#[inline(never)]
fn push_joined<'a>(
    rows: &mut Rows<'a>,
    alloc: Global,
    text: &str,
    delimiter: u8,
    escapes: Escapes,
    start: usize,
) -> Result<Option<FieldEnd>, AllocError>
    requires parts { PartsFields delimiter }
    requires boundary { IsCharBoundary text.now start }
    ensures { IfOk result (λ read. IfSome read (λ end. HasNext escapes delimiter text.now start end rows.old rows.new)) }
{
    let bytes = text.as_bytes();
    let Some((field, end)) = joined_at(alloc, bytes, start, delimiter)? else {
        return Ok(None);
    };
    match push_field(rows, alloc, &field, escapes)? {
        Ok(()) => Ok(Some(FieldEnd::new(bytes, end, delimiter))),
        Err(_) => Ok(None),
    }
}

// Appends the cell of a field that is a part of the text, or finds what is wrong with it. What is known of its bytes is not
// found again, and one that is shown as it is, on one line, is not copied.
#[inline(always)]
fn push_span<'a>(
    rows: &mut Rows<'a>,
    alloc: Global,
    text: &'a str,
    span: FieldSpan,
    escapes: Escapes,
) -> Result<Result<(), Flaw>, AllocError>
    requires text { rows.old.text ≡ text.now }
    requires ascending { span.from ≤ span.to }
    requires from { IsCharBoundary text.now span.from }
    requires to { IsCharBoundary text.now span.to }
    requires printable { IsTrue span.printable → are_printable (slice_range text.now span.from span.to) ≡ true }
    requires clear { IsTrue span.clear → are_clear (slice_range text.now span.from span.to) ≡ true }
    ensures { IfOk result (λ read. MatchResult read (λ _. HasShown escapes (slice_range text.now span.from span.to) rows.old rows.new) (HasFlaw escapes (slice_range text.now span.from span.to))) }
{
    if span.printable {
        rows.push_printable(span.from, span.to)?;
        return Ok(Ok(()));
    }
    let field = &text[span.from..span.to];
    if is_line(field, span.clear, escapes) {
        rows.push_line(span.from, span.to, line_width(field))?;
        return Ok(Ok(()));
    }
    push_own(rows, alloc, field, escapes)
}

// Whether a field is shown as it is, on one line: where it is known that no byte may begin a hidden character, that is not found
// again.
#[inline(always)]
fn is_line(field: &str, clear: bool, escapes: Escapes) -> bool
    requires { IsTrue clear → are_clear field.now ≡ true }
    ensures { IsTrue result → list_all (is_shown escapes) (chars field.now) ≡ true }
{
    clear || are_shown(escapes, field)
}
