//! From bytes to rows of cells.
ghost use Rattle.std.specs.Prelude.{◌≡◌, IfErr, IfOk, IsUtf8, MatchResult, OnOk, length};
ghost use Rattle.csv.specs.Reading.{error_kind, is_bom};
ghost use Rattle.csv.specs.Records.{fields_of};
ghost use Rattle.tabled_text.specs.Rows.{longest};
ghost use Rattle.basinmug_input.specs.Faults.{IsFaultOf, IsFaultOfWhole, IsReadable, IsTextWithClosedQuotes};
ghost use Rattle.basinmug_input.specs.Kept.{IsReadRows, kept_rows, rows_before, rows_left_out};
ghost use Rattle.basinmug_input.specs.Places.{EndsInQuotes};
ghost use Rattle.basinmug_input.specs.Reading.{IsOfMemory, IsReaderOf, settings};
ghost use Rattle.basinmug_input.specs.Rows.{HasFlawed, HaveShown, IsFirstFlawed, rows_in, text_of_bytes};

use crate::cells::{Flaw, push_field};
use crate::fault::InputFault;
use crate::kept::{KeptRows, ReadRows, RowChoice};
use crate::parts::{parted_rows, parts_fields};
use crate::places::{field_of, line_number, open_quote, place_of};
use basinmug_cells::Rows;
use csv::{ByteRecord, Error, Reader, ReaderBuilder};
use program_options::basinmug::Escapes;
use simdutf8::compat;
use std::alloc::{AllocError, Global};

/// The rows of a text in which the byte `delimiter` separates fields, or why it has none: its records (RFC 4180,
/// section 2, as `csv` reads it; of any lengths), each field with its control characters made visible, and of its
/// sequences those that `escapes` names. All are read, and those that `choice` names are kept; of the others no more are held
/// at a time than of these, or than 64. A byte order mark at the start is not read. A cell borrows its text where the
/// delimiter is ASCII and no quote, and the field is shown as it is, on one line of fewer than 2^16 columns: it is outside
/// quotes, or what is between them, none doubled. Another has a text of its own.
/// Errors come in the order of `InputFault`, each with its place, and those of rows that are not kept too.
pub fn rows_of<'a>(
    alloc: Global,
    bytes: &'a [u8],
    delimiter: u8,
    escapes: Escapes,
    choice: RowChoice,
) -> Result<ReadRows<'a>, InputFault>
    ensures rows { IfOk result (λ read. read.rows.rows ≡ kept_rows choice (rows_in escapes delimiter bytes.now)) }
    ensures before { IfOk result (λ read. read.before ≡ rows_before choice (length (rows_in escapes delimiter bytes.now))) }
    ensures left_out { IfOk result (λ read. read.left_out ≡ rows_left_out choice (rows_in escapes delimiter bytes.now)) }
    ensures columns { IfOk result (λ read. read.columns ≡ longest (rows_in escapes delimiter bytes.now)) }
    ensures readable { OnOk result (IsReadable escapes (settings delimiter) (text_of_bytes bytes.now)) }
    ensures fault { IfErr result (IsFaultOf escapes (settings delimiter) (text_of_bytes bytes.now)) }
{
    let text = without_mark(bytes);
    let text = text_of(text, delimiter)?;
    if parts_fields(delimiter) {
        if let Some(read) = parted_rows(alloc, text, delimiter, escapes, choice)? {
            return Ok(read);
        }
    }
    check_quotes(text.as_bytes(), delimiter)?;
    read_rows(alloc, bytes, delimiter, escapes, choice)
}

/// The bytes without a byte order mark at the start.
pub fn without_mark(bytes: &[u8]) -> &[u8]
    ensures { result.now ≡ text_of_bytes bytes.now }
{
    match bytes {
        [a, b, c, rest @ ..] if is_mark(*a, *b, *c) => rest,
        _ => bytes,
    }
}

// Whether these bytes are U+FEFF BYTE ORDER MARK in UTF-8.
fn is_mark(a: u8, b: u8, c: u8) -> bool
    ensures { result ≡ is_bom a b c }
{
    a == 0xef && b == 0xbb && c == 0xbf
}

// The text of these bytes. Refuses bytes that are none.
fn text_of(text: &[u8], delimiter: u8) -> Result<&str, InputFault>
    ensures text { IfOk result (λ read. read.now ≡ text.now) }
    ensures fault { IfErr result (IsFaultOfWhole (settings delimiter) text.now) }
{
    match compat::from_utf8(text) {
        Ok(read) => Ok(read),
        Err(error) => {
            let at = error.valid_up_to();
            Err(InputFault::NotText {
                line: line_number(text, at),
                field: field_of(text, delimiter, at),
            })
        }
    }
}

// Refuses a text that ends in a quoted field.
fn check_quotes(text: &[u8], delimiter: u8) -> Result<(), InputFault>
    requires { IsUtf8 text.now }
    ensures closed { OnOk result (¬ EndsInQuotes (settings delimiter) text.now) }
    ensures fault { IfErr result (IsFaultOfWhole (settings delimiter) text.now) }
{
    match open_quote(text, delimiter) {
        Some(at) => Err(InputFault::Quote {
            line: line_number(text, at),
        }),
        None => Ok(()),
    }
}

// A reader of records, which a call drops.
struct Reading<'b> {
    reader: Reader<&'b [u8]>,
}

impl Drop for Reading<'_> {
    fn drop(self) {
        let Reading { reader } = self;
        drop(reader);
    }
}

// The record that was read last, which a call drops too.
struct Given {
    record: ByteRecord,
}

impl Drop for Given {
    fn drop(self) {
        let Given { record } = self;
        drop(record);
    }
}

// The chosen records of bytes that are text, with each quote closed.
fn read_rows<'a>(
    alloc: Global,
    bytes: &[u8],
    delimiter: u8,
    escapes: Escapes,
    choice: RowChoice,
) -> Result<ReadRows<'a>, InputFault>
    requires { IsTextWithClosedQuotes (settings delimiter) (text_of_bytes bytes.now) }
    ensures rows { IfOk result (IsReadRows choice (rows_in escapes delimiter bytes.now)) }
    ensures readable { OnOk result (IsReadable escapes (settings delimiter) (text_of_bytes bytes.now)) }
    ensures fault { IfErr result (IsFaultOf escapes (settings delimiter) (text_of_bytes bytes.now)) }
{
    let mut reading = reader_of(alloc, bytes, delimiter);
    let record = ByteRecord::new(alloc);
    let mut given = Given { record };
    let mut kept = KeptRows::with_capacity(alloc, choice, "", 0)?;
    for count in 0..usize::MAX {
        let found = match reading.reader.read_byte_record(&mut given.record) {
            Ok(found) => found,
            Err(error) => return Err(refused(error)),
        };
        if !found {
            return Ok(kept.finish());
        }
        match push_given(&mut kept.rows, alloc, &given.record, escapes)? {
            Ok(()) => kept.end_row()?,
            Err(flawed) => {
                return Err(fault_of(without_mark(bytes), delimiter, escapes, count, flawed));
            }
        }
    }
    Err(too_many(alloc))
}

// A reader of the records of bytes, of any lengths, in which this byte separates fields.
fn reader_of<'b>(alloc: Global, bytes: &'b [u8], delimiter: u8) -> Reading<'b>
    ensures { IsReaderOf delimiter bytes.now result.reader }
{
    let reader = ReaderBuilder::new()
        .delimiter(delimiter)
        .has_headers(false)
        .flexible(true)
        .from_reader(alloc, bytes);
    Reading { reader }
}

// The error of a text with more records than any text has: more memory is requested than there can be.
fn too_many(alloc: Global) -> InputFault
    ensures { result ≡ InputFault.Memory }
{
    let mut bytes: Vec<u8> = Vec::new(alloc);
    let _refused = bytes.reserve(usize::MAX);
    InputFault::Memory
}

// The error where the reader fails. It does so for memory alone: bytes in memory are always there.
fn refused(error: Error) -> InputFault
    requires { IsOfMemory (error_kind error) }
    ensures { result ≡ InputFault.Memory }
{
    let _kind = error.kind();
    InputFault::Memory
}

/// A field that can't be shown: its number in its record, from 0, and what is wrong with it.
#[derive(Clone, Copy)]
struct Flawed {
    field: usize,
    flaw: Flaw,
}

// Appends the cells of a record to the row that isn't ended, or finds its first field that can't be shown.
fn push_given(
    rows: &mut Rows<'_>,
    alloc: Global,
    given: &ByteRecord,
    escapes: Escapes,
) -> Result<Result<(), Flawed>, AllocError>
    ensures { IfOk result (λ read. MatchResult read (λ _. HaveShown escapes (fields_of given.now) rows.old rows.new) (HasFlawed escapes (fields_of given.now))) }
{
    let mut number = 0;
    while let Some(field) = given.get(number) {
        match push_field(rows, alloc, field, escapes)? {
            Ok(()) => number += 1,
            Err(flaw) => {
                return Ok(Err(Flawed {
                    field: number,
                    flaw,
                }));
            }
        }
    }
    Ok(Ok(()))
}

// The error of a text whose record at this place, from 0, has the first field with a flaw.
fn fault_of(text: &[u8], delimiter: u8, escapes: Escapes, row: usize, flawed: Flawed) -> InputFault
    requires { IsFirstFlawed escapes (settings delimiter) text.now row flawed }
    ensures { IsFaultOf escapes (settings delimiter) text.now result }
{
    match flawed.flaw {
        Flaw::NotText { byte } => {
            let at = place_of(text, delimiter, row, flawed.field, byte);
            InputFault::NotText {
                line: line_number(text, at),
                field: field_of(text, delimiter, at),
            }
        }
        Flaw::Escape { byte } => {
            let at = place_of(text, delimiter, row, flawed.field, byte);
            InputFault::Escape {
                line: line_number(text, at),
                field: field_of(text, delimiter, at),
            }
        }
    }
}
