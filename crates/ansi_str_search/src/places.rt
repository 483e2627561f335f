//! Places in a text: what comes after them, and the style known there.
ghost use Rattle.std.specs.Prelude.{slice_index, drop, ◌≡◌, ◌≤◌, ◌<◌, ◌-◌, false, ℕ, List, [], ◌∷◌, ◌++◌, take, length, MatchOption, IfOk, IsOk};
ghost use Rattle.std.specs.Cow.{IsOwnedStr, cow_str_bytes};
ghost use Rattle.std.specs.List.{prefix_len};
ghost use Rattle.ansi_scan.specs.Sequences.{is_not_escape, joined};
ghost use Rattle.ansi_scan.specs.declared.items.Kind.TheVariants.{Sgr};
ghost use Rattle.ansi_scan.specs.Pieces.{pieces};
ghost use Rattle.ansi_scan.specs.Attributes.{plain_attributes};
ghost use Rattle.ansi_scan.specs.StartsAndEnds.{start_bytes, end_bytes};
ghost use Rattle.ansi_str_search.specs.Text.StyledText.{has_escape, strip, style_after_all};
ghost use Rattle.ansi_str_search.specs.Parts.{IsGoodBound, before_place, dressed, from_place, through_place};
ghost use Rattle.ansi_str_search.specs.Walking.{from_text, begins_with_escape, AreFirstAndRest, IsBehindFirst, Lands};

use crate::matches::run_len;
use ansi_scan::{ESC, Kind, Style, scan};
use std::alloc::{AllocError, Global};
use std::borrow::CowStr;

/// A place in a text: what comes after it, and the style known there. A walk from place to place
/// does not allocate.
#[derive(Debug, Drop)]
pub struct Place<'a> {
    /// What comes after it.
    pub rest: &'a str,
    /// The style known there.
    pub style: Style,
}

impl<'a> Place<'a> {
    /// Before all of a text.
    pub fn start_of(text: &'a str) -> Place<'a>
        ensures rest { result.rest.now ≡ text.now }
        ensures style { result.style ≡ plain_attributes }
    {
        Place {
            rest: text,
            style: Style::plain(),
        }
    }

    /// After `n` bytes of stripped text and the sequences among and before them, or at the end. No
    /// character of the stripped text is divided there (`is_char_boundary`).
    pub fn after(&self, n: usize) -> Place<'a>
        requires { IsGoodBound (strip (pieces self.now.rest.now)) n }
        ensures rest { pieces result.rest.now ≡ from_place n (pieces self.now.rest.now) }
        ensures style { result.style ≡ style_after_all self.now.style (before_place n (pieces self.now.rest.now)) }
    {
        let mut place = self.same();
        let mut left = n;
        while left > 0 && !place.rest.is_empty() {
            let len = text_len(place.rest, left);
            if len > 0 {
                place.rest = &place.rest[len..];
                left -= len;
            } else {
                place = place.past_item();
            }
        }
        place
    }

    /// Before the next such byte, an ASCII character, of what the text shows, or at the end: after the
    /// sequences there.
    pub(crate) fn to_byte(&self, byte: u8) -> Place<'a>
        requires { byte < 128 }
        ensures { Lands byte self.now.rest.now self.now.style result.rest.now result.style }
    {
        let mut place = self.same();
        place.rest = &place.rest[run_len(place.rest, byte)..];
        while begins_with_escape(place.rest) {
            place = place.past_item();
            place.rest = &place.rest[run_len(place.rest, byte)..];
        }
        place
    }

    /// After `n` bytes of stripped text and the sequences among, before and after them, or at the
    /// end. No character of the stripped text is divided there (`is_char_boundary`).
    pub fn through(&self, n: usize) -> Place<'a>
        requires { IsGoodBound (strip (pieces self.now.rest.now)) n }
        ensures rest { pieces result.rest.now ≡ from_text (from_place n (pieces self.now.rest.now)) }
        ensures style { result.style ≡ style_after_all self.now.style (through_place n (pieces self.now.rest.now)) }
        ensures slice { self.now.rest.now ≡ joined (through_place n (pieces self.now.rest.now)) ++ result.rest.now }
    {
        self.after(n).past_sequences()
    }

    // After the sequences that are here.
    fn past_sequences(&self) -> Place<'a>
        ensures rest { pieces result.rest.now ≡ from_text (pieces self.now.rest.now) }
        ensures style { result.style ≡ style_after_all self.now.style (through_place 0 (pieces self.now.rest.now)) }
    {
        let mut place = self.same();
        while begins_with_escape(place.rest) {
            place = place.past_item();
        }
        place
    }

    /// The part of `n` bytes of stripped text from here on, and the place where it ends, before the
    /// sequences there. The part is a borrow where the style is plain and no ESC follows.
    pub(crate) fn part(
        &self,
        alloc: Global,
        n: usize,
    ) -> Result<(CowStr<'a>, Place<'a>), AllocError>
        requires cut { IsGoodBound (strip (pieces self.now.rest.now)) n }
        requires fits { n ≤ length self.now.rest.now }
        ensures part { IfOk result (λ found. cow_str_bytes found.0 ≡ dressed self.now.style (through_place n (pieces self.now.rest.now))) }
        ensures rest { IfOk result (λ found. pieces found.1.rest.now ≡ from_place n (pieces self.now.rest.now)) }
        ensures style { IfOk result (λ found. found.1.style ≡ style_after_all self.now.style (before_place n (pieces self.now.rest.now))) }
        ensures answers { self.now.style ≡ plain_attributes → has_escape self.now.rest.now ≡ false → IsOk result }
        ensures borrows { IfOk result (λ found. self.now.style ≡ plain_attributes → has_escape self.now.rest.now ≡ false → ¬ (IsOwnedStr found.0)) }
    {
        let cut = self.after(n);
        let part = self.part_to(alloc, &cut.past_sequences())?;
        Ok((part, cut))
    }

    /// The text from here to the end of a slice. Before it is the start of the style known here, and after
    /// it the end of the style known there. The end is a place in the same text, not before this one. Where
    /// both styles are plain it is a borrow, without allocating; else it fails only where allocation fails.
    pub fn part_to(&self, alloc: Global, end: &Place<'a>) -> Result<CowStr<'a>, AllocError>
        requires { (slice : List ℕ) × (self.now.rest.now ≡ slice ++ end.now.rest.now) }
        ensures part { IfOk result (λ part. cow_str_bytes part ≡ start_bytes self.now.style
            ++ (take (length self.now.rest.now - length end.now.rest.now) self.now.rest.now ++ end_bytes end.now.style)) }
        ensures answers { self.now.style ≡ plain_attributes → end.now.style ≡ plain_attributes → IsOk result }
        ensures borrows { IfOk result (λ part. self.now.style ≡ plain_attributes → end.now.style ≡ plain_attributes → ¬ (IsOwnedStr part)) }
    {
        let slice = front(self.rest, end.rest);
        if self.style.is_plain() && end.style.is_plain() {
            return Ok(CowStr::Borrowed(slice));
        }
        let start = self.style.start();
        let end = end.style.end();
        Ok(CowStr::Owned(format!(in alloc; "{start}{slice}{end}")?))
    }

    // The same place.
    fn same(&self) -> Place<'a>
        ensures rest { result.rest.now ≡ self.now.rest.now }
        ensures style { result.style ≡ self.now.style }
    {
        Place {
            rest: self.rest,
            style: self.style,
        }
    }

    // After the first item.
    fn past_item(&self) -> Place<'a>
        requires { 0 < length self.now.rest.now }
        ensures first { AreFirstAndRest self.now.style (pieces self.now.rest.now) result.style (pieces result.rest.now) }
        ensures shorter { length result.rest.now < length self.now.rest.now }
    {
        let Some((kind, bytes, rest)) = split_item(self.rest) else {
            return self.same();
        };
        let style = match kind {
            Kind::Sgr => self.style.apply(bytes),
            _ => self.style,
        };
        Place { rest, style }
    }
}

/// The text before these last bytes of it.
pub fn front<'a>(text: &'a str, end: &str) -> &'a str
    requires { (front : List ℕ) × (text.now ≡ front ++ end.now) }
    ensures { result.now ≡ take (length text.now - length end.now) text.now }
{
    &text[..text.len() - end.len()]
}

/// The first item of a text, as its kind and its bytes, and the text after it; none of an empty text.
pub fn split_item(text: &str) -> Option<(Kind, &str, &str)>
    ensures { MatchOption result (pieces text.now ≡ []) (λ found.
        pieces text.now ≡ record { kind = found.0; bytes = found.1.now } ∷ pieces found.2.now) }
{
    let len = short_sequence_len(text.as_bytes());
    if len > 0 {
        return Some((Kind::Sgr, &text[..len], &text[len..]));
    }
    let item = scan(text).next()?;
    Some((item.kind, &text[..item.end], &text[item.end..]))
}

// The length of the first item where that is ESC and `[`, at most two digits, and `m`; of any other 0.
fn short_sequence_len(bytes: &[u8]) -> usize
    ensures within { result ≤ length bytes.now }
    ensures first { 0 < result → pieces bytes.now ≡ record { kind = Sgr; bytes = take result bytes.now } ∷ pieces (drop result bytes.now) }
    ensures last { 0 < result → slice_index bytes.now (result - 1) < 128 }
{
    match bytes {
        [ESC, b'[', b'm', ..] => 3,
        [ESC, b'[', b'0'..=b'9', b'm', ..] => 4,
        [ESC, b'[', b'0'..=b'9', b'0'..=b'9', b'm', ..] => 5,
        _ => 0,
    }
}

/// The text after its first byte, an ASCII character.
pub(crate) fn behind_byte(text: &str) -> &str
    requires { (0 < length text.now) × (slice_index text.now 0 < 128) }
    ensures { result.now ≡ drop 1 text.now }
{
    &text[1..]
}

/// The text after the first item of a text that isn't empty.
pub fn behind_item(text: &str) -> &str
    requires { 0 < length text.now }
    ensures parted { IsBehindFirst (pieces text.now) (pieces result.now) }
    ensures shorter { length result.now < length text.now }
{
    match split_item(text) {
        Some((_, _, rest)) => rest,
        None => text,
    }
}

/// Whether the first byte is ESC.
pub fn begins_with_escape(text: &str) -> bool
    ensures { result ≡ begins_with_escape text.now }
{
    matches!(text.as_bytes(), [ESC, ..])
}

/// How many of the first bytes, `most` of them or all, come before the first ESC among them.
pub fn text_len(text: &str, most: usize) -> usize
    ensures value { result ≡ prefix_len is_not_escape (take most text.now) }
{
    let bytes = text.as_bytes();
    let bytes = &bytes[..bytes.len().min(most)];
    for (i, byte) in bytes.iter().enumerate() {
        if *byte == ESC {
            return i;
        }
    }
    bytes.len()
}
