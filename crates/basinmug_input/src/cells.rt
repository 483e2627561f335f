//! The cell of a field as a table shows it.
ghost use Rattle.std.specs.Prelude.{◌≡◌, IfErr, IfOk, IfSome, IsNone, IsUtf8, MatchResult, OnErr, string_bytes};
ghost use Rattle.basinmug_input.specs.Cleaning.{cleaned};
ghost use Rattle.basinmug_input.specs.Flaws.{HasBrokenEscape, HasFlaw, IsReadableField};
ghost use Rattle.basinmug_input.specs.Rows.{HasShown};

use crate::cleaning::cleaned;
use ansi_scan::first_broken;
use basinmug_cells::Rows;
use grid_records_measure::is_printable;
use program_options::basinmug::Escapes;
use simdutf8::compat;
use std::alloc::{AllocError, Global};

/// What is wrong with a field, and at which of its bytes.
#[derive(Clone, Copy)]
pub enum Flaw {
    /// It is no text from this byte on.
    NotText { byte: usize },
    /// The ESC at this byte begins no whole sequence.
    Escape { byte: usize },
}

/// Appends the cell of a field as a table shows it to the row that isn't ended, with a text of its own, or finds what is wrong
/// with the field. Fails only where allocation fails. In both cases nothing has changed.
pub fn push_field(
    rows: &mut Rows<'_>,
    alloc: Global,
    field: &[u8],
    escapes: Escapes,
) -> Result<Result<(), Flaw>, AllocError>
    ensures read { IfOk result (λ read. MatchResult read (λ _. HasShown escapes field.now rows.old rows.new) (HasFlaw escapes field.now)) }
    ensures flaw { IfOk result (λ read. IfErr read (λ _. rows.new ≡ rows.old)) }
    ensures err { OnErr result (rows.new ≡ rows.old) }
{
    match compat::from_utf8(field) {
        Ok(text) => push_own(rows, alloc, text, escapes),
        Err(error) => Ok(Err(Flaw::NotText {
            byte: error.valid_up_to(),
        })),
    }
}

/// The same of a field that is text.
pub(crate) fn push_own(
    rows: &mut Rows<'_>,
    alloc: Global,
    text: &str,
    escapes: Escapes,
) -> Result<Result<(), Flaw>, AllocError>
    ensures read { IfOk result (λ read. MatchResult read (λ _. HasShown escapes text.now rows.old rows.new) (HasFlaw escapes text.now)) }
    ensures flaw { IfOk result (λ read. IfErr read (λ _. rows.new ≡ rows.old)) }
    ensures err { OnErr result (rows.new ≡ rows.old) }
{
    match shown_text(alloc, text, escapes)? {
        Ok(shown) => {
            rows.push_text(shown)?;
            Ok(Ok(()))
        }
        Err(flaw) => Ok(Err(flaw)),
    }
}

// The text of a field as a table shows it, or what is wrong with the field. Printable ASCII is copied as it is.
fn shown_text(
    alloc: Global,
    text: &str,
    escapes: Escapes,
) -> Result<Result<String, Flaw>, AllocError>
    ensures { IfOk result (λ read. MatchResult read (λ shown. IsReadableField escapes text.now × (string_bytes shown ≡ cleaned escapes text.now)) (HasFlaw escapes text.now)) }
{
    if is_printable(text) {
        return Ok(Ok(String::from_str(alloc, text)?));
    }
    match broken_escape(text, escapes) {
        Some(byte) => Ok(Err(Flaw::Escape { byte })),
        None => Ok(Ok(cleaned(alloc, escapes, text)?)),
    }
}

// The first ESC of a text that begins no whole sequence, where that is a flaw.
fn broken_escape(text: &str, escapes: Escapes) -> Option<usize>
    ensures broken { IfSome result (HasBrokenEscape escapes text.now) }
    ensures sound { IsNone result → IsReadableField escapes text.now }
{
    match escapes {
        Escapes::All => first_broken(text),
        Escapes::Colors => None,
        Escapes::None => None,
    }
}
