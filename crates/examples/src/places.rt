//! A styled text, split at places of what it shows (`ansi_str`).
use ansi_str::{are_places, split_places};
use std::alloc::{AllocError, Global};
use std::borrow::CowStr;

/// The parts of a text between these places, in bytes of what it shows, each in its own style. None where
/// a place is no boundary of its characters, or not after the one before.
pub(crate) fn parts<'a>(
    alloc: Global,
    text: &'a str,
    places: &[usize],
) -> Result<Option<Vec<CowStr<'a>>>, AllocError> {
    if !are_places(text, places) {
        return Ok(None);
    }
    Ok(Some(split_places(alloc, text, places)?))
}
