//! The lines of a text, which are kept so that none is looked up from the top.
ghost use Rattle.std.specs.Prelude.{◌≡◌, ◌≤◌, ℕ, List, [], IfOk, false, length, map, slice_index_or, string_bytes};
ghost use Rattle.grid_records_measure.specs.StyledText.{has_escape};
ghost use Rattle.grid_records_measure.specs.TextLines.{line_feed_places, text_height, text_lines};
ghost use Rattle.grid_records.specs.RecordRows.Measured.{AreKept, AreLinesKept, bounds_of_lines};

use crate::rows::records::vec_records::Cell;
use ansi_str_search::has_escape;
use grid_records_measure::get_lines;
use std::alloc::{AllocError, Global};

/// The lines of a text that is not its own only line.
#[derive(Debug, Drop)]
pub(super) enum KeptLines {
    /// Of a text without ESC: the bytes before each of its line feeds.
    Places(Vec<usize>),
    /// Of a text with ESC: the lines, each with its styles opened and ended within.
    Texts(Vec<String>),
}

impl KeptLines {
    /// The line of this text with this number, or the empty text after the last. Does not allocate.
    pub(super) fn line<'a>(&'a self, text: &'a str, index: usize) -> &'a str
        requires { AreLinesKept text.now self.now }
        ensures { result.now ≡ slice_index_or (text_lines text.now) index [] }
    {
        match self {
            KeptLines::Places(places) => line_without_escape(text, places, index),
            KeptLines::Texts(lines) => match lines.get(index) {
                Some(line) => line.as_str(),
                None => "",
            },
        }
    }

    /// How many lines the text has. Does not allocate.
    pub(super) fn count(&self) -> usize
        ensures { (text : List ℕ) → AreLinesKept text self.now → result ≡ length (text_lines text) }
    {
        match self {
            KeptLines::Places(places) => places.len() + 1,
            KeptLines::Texts(lines) => lines.len(),
        }
    }

    /// The same lines again. Fails only where allocation fails.
    pub(super) fn again(&self, alloc: Global) -> Result<KeptLines, AllocError>
        ensures { IfOk result (λ copy. (text : List ℕ) → AreLinesKept text self.now → AreLinesKept text copy) }
    {
        match self {
            KeptLines::Places(places) => Ok(KeptLines::Places(places.clone()?)),
            KeptLines::Texts(lines) => Ok(KeptLines::Texts(texts_again(alloc, lines)?)),
        }
    }
}

/// The lines of a text, which has `count`; `None` where it has only one, which is the text. Fails only where
/// allocation fails.
pub(super) fn keep_lines(
    alloc: Global,
    text: &str,
    count: usize,
) -> Result<Option<Box<KeptLines>>, AllocError>
    requires { count ≡ text_height text.now }
    ensures { IfOk result (λ kept. AreKept text.now kept) }
{
    if has_escape(text) {
        return keep_styled(alloc, text, count);
    }
    if count == 1 {
        return Ok(None);
    }
    let places = line_feed_places(alloc, text, count - 1)?;
    Ok(Some(Box::new(alloc, KeptLines::Places(places))?))
}

// The same of a text with ESC.
fn keep_styled(
    alloc: Global,
    text: &str,
    count: usize,
) -> Result<Option<Box<KeptLines>>, AllocError>
    requires { count ≡ text_height text.now }
    ensures { IfOk result (λ kept. AreKept text.now kept) }
{
    if count == 1 {
        return keep_only_line(alloc, text);
    }
    let lines = line_texts(alloc, text, count)?;
    Ok(Some(Box::new(alloc, KeptLines::Texts(lines))?))
}

// The same of a text of one line.
fn keep_only_line(alloc: Global, text: &str) -> Result<Option<Box<KeptLines>>, AllocError>
    requires { text_height text.now ≡ 1 }
    ensures { IfOk result (λ kept. AreKept text.now kept) }
{
    let line = text.line(alloc, 0)?;
    if line.as_str() == text {
        return Ok(None);
    }
    let lines = vec![in alloc; line.into_owned(alloc)?]?;
    Ok(Some(Box::new(alloc, KeptLines::Texts(lines))?))
}

// The lines of a text, each in memory of its own.
fn line_texts(alloc: Global, text: &str, count: usize) -> Result<Vec<String>, AllocError>
    ensures { IfOk result (λ lines. map string_bytes lines.items ≡ text_lines text.now) }
{
    let mut lines = Vec::with_capacity(alloc, count)?;
    for line in get_lines(alloc, text) {
        lines.push(line?.into_owned(alloc)?)?;
    }
    Ok(lines)
}

// The same texts again.
fn texts_again(alloc: Global, texts: &[String]) -> Result<Vec<String>, AllocError>
    ensures { IfOk result (λ copy. map string_bytes copy.items ≡ map string_bytes texts.now) }
{
    let mut copy = Vec::with_capacity(alloc, texts.len())?;
    for text in texts {
        copy.push(text.as_str().to_string(alloc)?)?;
    }
    Ok(copy)
}

// How many bytes come before each line feed of a text without ESC.
fn line_feed_places(alloc: Global, text: &str, count: usize) -> Result<Vec<usize>, AllocError>
    ensures { IfOk result (λ places. places.items ≡ line_feed_places text.now) }
{
    let mut places = Vec::with_capacity(alloc, count)?;
    for (place, byte) in text.as_bytes().iter().enumerate() {
        if *byte == b'\n' {
            places.push(place)?;
        }
    }
    Ok(places)
}

// The line of a text without ESC whose line feeds are at these places, or the empty text after the last.
fn line_without_escape<'a>(text: &'a str, places: &[usize], index: usize) -> &'a str
    requires plain { has_escape text.now ≡ false }
    requires places { places.now ≡ line_feed_places text.now }
    ensures { result.now ≡ slice_index_or (text_lines text.now) index [] }
{
    if index > places.len() {
        return "";
    }
    let (start, end) = line_bounds(text, places, index);
    &text[start..end]
}

// Where the line with this number begins and ends.
fn line_bounds(text: &str, places: &[usize], index: usize) -> (usize, usize)
    requires places { places.now ≡ line_feed_places text.now }
    requires within { index ≤ length places.now }
    ensures { result ≡ slice_index_or (bounds_of_lines text.now) index (0, 0) }
{
    let end = line_end(text, places, index);
    if index == 0 {
        return (0, end);
    }
    (places[index - 1] + 1, end)
}

// Where the line with this number ends: at its line feed, and the last with the text.
fn line_end(text: &str, places: &[usize], index: usize) -> usize
    ensures { result ≡ slice_index_or places.now index (length text.now) }
{
    match places.get(index) {
        Some(place) => *place,
        None => text.len(),
    }
}
