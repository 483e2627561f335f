//! Where printable ASCII in a field ends, and where bytes that are shown as they are, sixteen bytes at a time.
ghost use Rattle.std.specs.Prelude.{◌≡◌, ◌≤◌, ◌<◌, ℕ, length, map, slice_index, true};
ghost use Rattle.std.specs.Simd.Lanes.{mask_l};
ghost use Rattle.basinmug_input.specs.Parts.{is_clear, is_plain, is_special, is_unclear};

use std::simd::prelude::*;

/// How many bytes are looked at in one step.
const LANES: usize = 16;

/// Of how many bytes the fields are counted, to tell about how many all have.
const FRONT: usize = 4096;

/// For no more fields there is memory before they are read.
const MOST_FIELDS: usize = 65536;

/// A place after printable ASCII that begins at `start`: the first byte that is other or the delimiter, or the end.
#[inline(always)]
pub(crate) fn plain_end(bytes: &[u8], start: usize, delimiter: u8) -> usize
    requires { start ≤ length bytes.now }
    ensures within { (start ≤ result) × (result ≤ length bytes.now) }
    ensures plain { (k : ℕ) → start ≤ k → k < result → is_plain delimiter (slice_index bytes.now k) ≡ true }
{
    let mut at = start;
    while bytes.len() - at >= LANES {
        let others = others_in(u8x16::from_slice(&bytes[at..]), delimiter);
        if others != 0 {
            return at + others.trailing_zeros() as usize;
        }
        at += LANES;
    }
    last_plain_end(bytes, at, delimiter)
}

// The same of the last bytes, one at a time.
#[inline(never)]
fn last_plain_end(bytes: &[u8], start: usize, delimiter: u8) -> usize
    requires { start ≤ length bytes.now }
    ensures within { (start ≤ result) × (result ≤ length bytes.now) }
    ensures plain { (k : ℕ) → start ≤ k → k < result → is_plain delimiter (slice_index bytes.now k) ≡ true }
{
    let mut at = start;
    while at < bytes.len() && is_plain(delimiter, bytes[at]) {
        at += 1;
    }
    at
}

// A bit for each lane that is no printable ASCII or the delimiter, the lowest for the first.
#[inline(always)]
fn others_in(lanes: u8x16, delimiter: u8) -> u64
    ensures { result ≡ mask_l (map (is_special delimiter) lanes) }
{
    (lanes.simd_lt(u8x16::splat(b' '))
        | lanes.simd_gt(u8x16::splat(b'~'))
        | lanes.simd_eq(u8x16::splat(delimiter))).to_bitmask()
}

// Whether a byte is printable ASCII, and not the delimiter.
#[inline(always)]
fn is_plain(delimiter: u8, byte: u8) -> bool
    ensures { result ≡ is_plain delimiter byte }
{
    b' ' <= byte && byte <= b'~' && byte != delimiter
}

/// About how many fields bytes have: as the first of them tell, and no more than `MOST_FIELDS`.
pub(crate) fn about_fields(bytes: &[u8], delimiter: u8) -> usize {
    let front = &bytes[..bytes.len().min(FRONT)];
    let parts = bytes.len() / FRONT + 1;
    count_ends(front, delimiter)
        .saturating_mul(parts)
        .min(MOST_FIELDS)
}

// How many bytes are the delimiter or a line feed, about: some more, since the last ones are not looked at.
fn count_ends(bytes: &[u8], delimiter: u8) -> usize {
    let mut count = LANES;
    let mut at = 0;
    while bytes.len() - at >= LANES {
        let ends = ends_in(u8x16::from_slice(&bytes[at..]), delimiter);
        count = count.saturating_add(ends.count_ones() as usize);
        at += LANES;
    }
    count
}

// A bit for each lane that is the delimiter or a line feed.
#[inline(always)]
fn ends_in(lanes: u8x16, delimiter: u8) -> u64 {
    (lanes.simd_eq(u8x16::splat(delimiter)) | lanes.simd_eq(u8x16::splat(b'\n'))).to_bitmask()
}

/// A place after clear bytes that begin at `start`: the first byte that is the delimiter or may begin a hidden
/// character, or the end.
#[inline(never)]
pub(crate) fn clear_end(bytes: &[u8], start: usize, delimiter: u8) -> usize
    requires { start ≤ length bytes.now }
    ensures within { (start ≤ result) × (result ≤ length bytes.now) }
    ensures clear { (k : ℕ) → start ≤ k → k < result → is_clear delimiter (slice_index bytes.now k) ≡ true }
{
    let mut at = start;
    while bytes.len() - at >= LANES {
        let unclear = unclear_in(u8x16::from_slice(&bytes[at..]), delimiter);
        if unclear != 0 {
            return at + unclear.trailing_zeros() as usize;
        }
        at += LANES;
    }
    last_clear_end(bytes, at, delimiter)
}

// The same of the last bytes, one at a time.
fn last_clear_end(bytes: &[u8], start: usize, delimiter: u8) -> usize
    requires { start ≤ length bytes.now }
    ensures within { (start ≤ result) × (result ≤ length bytes.now) }
    ensures clear { (k : ℕ) → start ≤ k → k < result → is_clear delimiter (slice_index bytes.now k) ≡ true }
{
    let mut at = start;
    while at < bytes.len() && is_clear(delimiter, bytes[at]) {
        at += 1;
    }
    at
}

// A bit for each lane that is the delimiter or may begin a hidden character, the lowest for the first.
#[inline(always)]
fn unclear_in(lanes: u8x16, delimiter: u8) -> u64
    ensures { result ≡ mask_l (map (is_unclear delimiter) lanes) }
{
    (lanes.simd_eq(u8x16::splat(delimiter))
        | lanes.simd_lt(u8x16::splat(b' '))
        | lanes.simd_eq(u8x16::splat(0x7f))
        | lanes.simd_eq(u8x16::splat(0xc2))
        | lanes.simd_eq(u8x16::splat(0xe2))).to_bitmask()
}

// Whether a byte is not the delimiter, and may begin no hidden character.
fn is_clear(delimiter: u8, byte: u8) -> bool
    ensures { result ≡ is_clear delimiter byte }
{
    byte != delimiter && b' ' <= byte && byte != 0x7f && byte != 0xc2 && byte != 0xe2
}
