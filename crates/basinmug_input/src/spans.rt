//! Where fields of a text are and end, and which are printable ASCII or shown as they are.
ghost use Rattle.std.specs.List.{prefix_len};
ghost use Rattle.std.specs.Prelude.{◌≡◌, ◌+◌, ◌-◌, ◌≤◌, ◌↔◌, IfSome, IsTrue, drop, length, take, true};
ghost use Rattle.grid_records_measure.specs.Measures.{are_printable};
ghost use Rattle.basinmug_input.specs.Parts.{BeginsPlain, IsPartedAt, IsQuoteAt, IsSpanAt, PartsFields, are_clear, is_line_end, is_no_quote, is_of_field};

use crate::plain::{clear_end, plain_end};
use crate::progress::QUOTE;
use memchr::{memchr, memchr3};

/// Bytes of a field: how many they are, and whether it is found that all are printable ASCII, or that none may begin a hidden
/// character.
#[derive(Clone, Copy)]
pub(crate) struct Span {
    pub(crate) len: usize,
    pub(crate) printable: bool,
    pub(crate) clear: bool,
}

/// A field of a text: its bytes go from `from` to `to`, and after it, at `end`, is what separates it from the next. In
/// quotes it begins and ends beside them.
#[derive(Clone, Copy)]
pub(crate) struct FieldSpan {
    pub(crate) from: usize,
    pub(crate) to: usize,
    pub(crate) end: usize,
    pub(crate) printable: bool,
    pub(crate) clear: bool,
}

/// Where a field ends, and whether the delimiter is there, so that its record goes on.
#[derive(Clone, Copy)]
pub(crate) struct FieldEnd {
    pub(crate) at: usize,
    pub(crate) is_parted: bool,
}

impl FieldEnd {
    /// Where a field ends that ends at this place.
    #[inline(always)]
    pub(crate) fn new(bytes: &[u8], at: usize, delimiter: u8) -> FieldEnd
        ensures at { result.at ≡ at }
        ensures parted { IsTrue result.is_parted ↔ IsPartedAt delimiter bytes.now at }
    {
        FieldEnd {
            at,
            is_parted: at < bytes.len() && bytes[at] == delimiter,
        }
    }
}

/// The field that begins at `start` outside quotes, with plain bytes up to `plain`. That all are printable ASCII is not
/// found again.
#[inline(always)]
pub(crate) fn field_at(bytes: &[u8], start: usize, plain: usize, delimiter: u8) -> FieldSpan
    requires parts { PartsFields delimiter }
    requires outside { ¬ IsQuoteAt bytes.now start }
    requires plain { BeginsPlain delimiter bytes.now start plain }
    ensures is { IsSpanAt delimiter bytes.now start result }
    ensures printable { IsTrue result.printable → are_printable (take (result.to - result.from) (drop result.from bytes.now)) ≡ true }
    ensures clear { IsTrue result.clear → are_clear (take (result.to - result.from) (drop result.from bytes.now)) ≡ true }
{
    let span = span_at(bytes, start, plain, delimiter);
    let end = start + span.len;
    FieldSpan {
        from: start,
        to: end,
        end,
        printable: span.printable,
        clear: span.clear,
    }
}

/// Whether a quote is at a place.
#[inline(always)]
pub(crate) fn begins_quoted(bytes: &[u8], at: usize) -> bool
    ensures { IsTrue result ↔ IsQuoteAt bytes.now at }
{
    at < bytes.len() && bytes[at] == QUOTE
}

/// The field that begins at `start`, in quotes; none where these are not closed, and where a quote in them is doubled or text
/// comes after them.
#[inline(always)]
pub(crate) fn quoted_at(bytes: &[u8], start: usize, delimiter: u8) -> Option<FieldSpan>
    requires parts { PartsFields delimiter }
    requires quote { IsQuoteAt bytes.now start }
    ensures is { IfSome result (IsSpanAt delimiter bytes.now start) }
    ensures printable { IfSome result (λ span. IsTrue span.printable → are_printable (take (span.to - span.from) (drop span.from bytes.now)) ≡ true) }
    ensures clear { IfSome result (λ span. IsTrue span.clear → are_clear (take (span.to - span.from) (drop span.from bytes.now)) ≡ true) }
{
    let from = start + 1;
    let span = quoted_span(bytes, from);
    let to = from + span.len;
    if !begins_quoted(bytes, to) {
        return None;
    }
    let end = to + 1;
    if !ends_field(bytes, end, delimiter) {
        return None;
    }
    Some(FieldSpan {
        from,
        to,
        end,
        printable: span.printable,
        clear: span.clear,
    })
}

// What is at `start` in quotes, up to the next quote.
#[inline(always)]
fn quoted_span(bytes: &[u8], start: usize) -> Span
    requires { start ≤ length bytes.now }
    ensures count { result.len ≡ prefix_len is_no_quote (drop start bytes.now) }
    ensures bound { start + result.len ≤ length bytes.now }
    ensures printable { IsTrue result.printable → are_printable (take result.len (drop start bytes.now)) ≡ true }
    ensures clear { IsTrue result.clear → are_clear (take result.len (drop start bytes.now)) ≡ true }
{
    let end = plain_end(bytes, start, QUOTE);
    if begins_quoted(bytes, end) {
        return Span {
            len: end - start,
            printable: true,
            clear: true,
        };
    }
    let end = clear_end(bytes, end, QUOTE);
    if begins_quoted(bytes, end) {
        return Span {
            len: end - start,
            printable: false,
            clear: true,
        };
    }
    Span {
        len: end - start + unquoted_len(&bytes[end..]),
        printable: false,
        clear: false,
    }
}

// How many bytes at the start are no quotes.
#[inline(never)]
fn unquoted_len(text: &[u8]) -> usize
    ensures count { result ≡ prefix_len is_no_quote text.now }
    ensures bound { result ≤ length text.now }
{
    match memchr(QUOTE, text) {
        Some(len) => len,
        None => text.len(),
    }
}

// The field that begins at `start` outside quotes, with plain bytes up to `plain`. Sixteen bytes at a time are passed over where
// they are clear.
#[inline(always)]
fn span_at(bytes: &[u8], start: usize, plain: usize, delimiter: u8) -> Span
    requires { BeginsPlain delimiter bytes.now start plain }
    ensures count { result.len ≡ prefix_len (is_of_field delimiter) (drop start bytes.now) }
    ensures bound { start + result.len ≤ length bytes.now }
    ensures printable { IsTrue result.printable → are_printable (take result.len (drop start bytes.now)) ≡ true }
    ensures clear { IsTrue result.clear → are_clear (take result.len (drop start bytes.now)) ≡ true }
{
    let end = clear_end(bytes, plain, delimiter);
    if ends_field(bytes, end, delimiter) {
        return Span {
            len: end - start,
            printable: false,
            clear: true,
        };
    }
    Span {
        len: end - start + field_len(&bytes[end..], delimiter),
        printable: false,
        clear: false,
    }
}

/// Whether a field that goes up to a place ends there.
#[inline(always)]
pub(crate) fn ends_field(bytes: &[u8], at: usize, delimiter: u8) -> bool
    ensures { IsTrue result → prefix_len (is_of_field delimiter) (drop at bytes.now) ≡ 0 }
{
    match bytes.get(at) {
        Some(byte) => !is_of_field(delimiter, *byte),
        None => true,
    }
}

// How many bytes at the start belong to a field.
#[inline(never)]
fn field_len(text: &[u8], delimiter: u8) -> usize
    ensures count { result ≡ prefix_len (is_of_field delimiter) text.now }
    ensures bound { result ≤ length text.now }
{
    match memchr3(delimiter, b'\r', b'\n', text) {
        Some(len) => len,
        None => text.len(),
    }
}

/// How many bytes at the start end lines.
pub(crate) fn line_ends_len(text: &[u8]) -> usize
    ensures count { result ≡ prefix_len is_line_end text.now }
    ensures bound { result ≤ length text.now }
{
    text.iter().take_while(|byte| is_line_end(**byte)).count()
}

// Whether a byte belongs to a field.
fn is_of_field(delimiter: u8, byte: u8) -> bool
    ensures { result ≡ is_of_field delimiter byte }
{
    byte != delimiter && !is_line_end(byte)
}

// Whether a byte ends a line.
fn is_line_end(byte: u8) -> bool
    ensures { result ≡ is_line_end byte }
{
    byte == b'\r' || byte == b'\n'
}
