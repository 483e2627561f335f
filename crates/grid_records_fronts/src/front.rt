//! The prefix of a text whose columns add up: simple characters, and emoji.
ghost use Rattle.std.specs.Prelude.{◌≡◌, ◌≢◌, ◌≤◌, ◌<◌, ◌⊎◌, ℕ, chars, drop, length, slice_index, take, IfNone, IfSome, IsTrue};
ghost use Rattle.std.specs.Int.{is_in_range};
ghost use Rattle.grid_records_measure.specs.Measures.{measure};
ghost use Rattle.grid_records_fronts.specs.Fronts.{BeginsWithAddend, BeginsWithAsciiOrNoSimple, BeginsWithNoSimple, BeginsWithSimple};

use crate::emoji::behind_emoji;
use grid_records_measure::{columns_of_three, columns_of_two};

/// The length in bytes of a prefix of the text whose columns add up, and its columns. The prefix is of simple
/// characters, which join nothing after them, and of emoji. No byte of it is below 0x20, and no simple character
/// comes right after it. Does not allocate. (Unicode Standard Annex 11, by the rules of `unicode_width`.)
pub fn measured_front(text: &str) -> (usize, usize)
    ensures within { result.0 ≤ length text.now }
    ensures shown { (k : ℕ) → k < result.0 → 0x20 ≤ slice_index text.now k }
    ensures columns { measure (chars (take result.0 text.now)) ≡ result.1 }
    ensures ends { BeginsWithNoSimple (drop result.0 text.now) }
{
    let mut rest = text;
    let mut columns = 0;
    while let Some((own, behind)) = behind_addend(rest) {
        columns += own;
        rest = behind;
    }
    (text.len() - rest.len(), columns)
}

// The columns of the simple character or the emoji that the text begins with, and the text after it. The most frequent
// ones are known by their first bytes alone.
#[inline(always)]
fn behind_addend(text: &str) -> Option<(usize, &str)>
    ensures found { IfSome result (λ found. BeginsWithAddend text.now found.0 found.1.now) }
    ensures none { IfNone result (BeginsWithNoSimple text.now) }
{
    let [lead, ..] = text.as_bytes() else {
        return None;
    };
    if is_printable(*lead) {
        return Some((1, &text[1..]));
    }
    if begins_ideogram(*lead) {
        return Some((2, &text[3..]));
    }
    if may_be_emoji(text) {
        return Some((2, behind_emoji(text)?));
    }
    behind_letter(text)
}

// Whether a byte is printable ASCII.
#[inline(always)]
fn is_printable(byte: u8) -> bool
    ensures { result ≡ is_in_range 0x20 0x7E byte }
{
    matches!(byte, b' '..=b'~')
}

// Whether the first byte of a character says that it is an ideogram or a syllable, whatever follows.
#[inline(always)]
fn begins_ideogram(lead: u8) -> bool
    ensures { IsTrue result → (0xE4 ≤ lead) × (lead ≤ 0xEC) × (lead ≢ 0xEA) }
{
    matches!(lead, 0xE4..=0xE9 | 0xEB..=0xEC)
}

// Whether an emoji may begin the text: by the first bytes, which are then no simple character's.
#[inline(always)]
fn may_be_emoji(text: &str) -> bool
    ensures { IsTrue result → ((slice_index text.now 0 ≡ 0xE2) × (0x81 ≤ slice_index text.now 1)) ⊎ (0xF0 ≤ slice_index text.now 0) }
{
    matches!(text.as_bytes(), [0xE2, 0x81..=0xBF, ..] | [0xF0, ..])
}

// The columns of the simple character of two or three bytes that the text begins with, and the text after it.
#[inline(always)]
fn behind_letter(text: &str) -> Option<(usize, &str)>
    ensures found { IfSome result (λ found. BeginsWithSimple text.now found.0 found.1.now) }
    ensures none { IfNone result (BeginsWithAsciiOrNoSimple text.now) }
{
    match text.as_bytes() {
        [lead @ 0xC0..=0xDF, last, ..] => {
            let columns = columns_of_two(*lead, *last)?;
            Some((columns, &text[2..]))
        }
        [lead @ 0xE0..=0xEF, middle, last, ..] => {
            let columns = columns_of_three(*lead, *middle, *last)?;
            Some((columns, &text[3..]))
        }
        _ => None,
    }
}
