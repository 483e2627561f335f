//! A field whose bytes are not all one after the other: a quote in it is doubled, or text comes after its quotes.
ghost use Rattle.std.specs.Prelude.{◌≡◌, ◌≤◌, IfOk, IfSome, OnOk, length};
ghost use Rattle.basinmug_input.specs.Parts.{IsFieldAt, PartsFields, is_field_end, joined_with};
ghost use Rattle.basinmug_input.specs.Walking.{csv_action};

use crate::progress::{ByteAction, RecordState, step};
use std::alloc::{AllocError, Global};

/// The bytes of the field that begins at `start`, as the machine of `csv` joins them, and where it ends; none where it is
/// in quotes that are not closed. Fails only where allocation fails.
pub(crate) fn joined_at(
    alloc: Global,
    bytes: &[u8],
    start: usize,
    delimiter: u8,
) -> Result<Option<(Vec<u8>, usize)>, AllocError>
    requires parts { PartsFields delimiter }
    requires within { start ≤ length bytes.now }
    ensures { IfOk result (λ read. IfSome read (λ found. IsFieldAt delimiter bytes.now start found.1 found.0.items)) }
{
    let mut field = Vec::new(alloc);
    let mut state = RecordState::FieldStart;
    for at in start..bytes.len() {
        let (next, action) = step(delimiter, state, bytes[at]);
        if is_field_end(action) {
            return Ok(Some((field, at)));
        }
        push_if_copied(&mut field, action, bytes[at])?;
        state = next;
    }
    match state {
        RecordState::Quoted => Ok(None),
        _ => Ok(Some((field, bytes.len()))),
    }
}

// Whether a byte with this action ends a field.
fn is_field_end(action: ByteAction) -> bool
    ensures { result ≡ is_field_end (csv_action action) }
{
    match action {
        ByteAction::EndField | ByteAction::EndRecord => true,
        ByteAction::Skip | ByteAction::Copy => false,
    }
}

// Appends a byte, if it joins its field.
fn push_if_copied(field: &mut Vec<u8>, action: ByteAction, byte: u8) -> Result<(), AllocError>
    ensures { OnOk result (field.new.items ≡ joined_with (csv_action action) byte field.old.items) }
{
    if let ByteAction::Copy = action {
        field.push(byte)?;
    }
    Ok(())
}
