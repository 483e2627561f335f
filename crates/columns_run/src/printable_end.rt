//! Printable ASCII, many bytes at a time.
ghost use Rattle.std.specs.Prelude.{◌≡◌, ◌≤◌, ◌<◌, ◌↔◌, ℕ, false, length, slice_index, true};
ghost use Rattle.std.specs.Int.{bit_at, is_in_range};

use std::simd::prelude::*;

/// How many bytes are looked at in one step.
const LANES: usize = 16;

/// A place after printable ASCII that begins at `start`. It is the first other byte of the next sixteen, or the byte
/// after these where all are printable, or `start` itself where fewer bytes follow.
#[inline(always)]
pub(crate) fn printable_end(bytes: &[u8], start: usize) -> usize
    requires { start ≤ length bytes.now }
    ensures within { (start ≤ result) × (result ≤ length bytes.now) }
    ensures printable { (k : ℕ) → start ≤ k → k < result → is_in_range 0x20 0x7E (slice_index bytes.now k) ≡ true }
{
    if bytes.len() - start < LANES {
        return start;
    }
    let others = others_in(u8x16::from_slice(&bytes[start..]));
    if others == 0 {
        start + LANES
    } else {
        start + others.trailing_zeros() as usize
    }
}

// A bit for each lane that holds no printable ASCII, the lowest for the first.
#[inline(always)]
fn others_in(lanes: u8x16) -> u64
    ensures bits { (k : ℕ) → k < 16 → (bit_at result k ≡ 1) ↔ (is_in_range 0x20 0x7E (slice_index lanes k) ≡ false) }
    ensures few { (k : ℕ) → 16 ≤ k → bit_at result k ≡ 0 }
{
    (lanes - u8x16::splat(0x20))
        .simd_ge(u8x16::splat(0x5f))
        .to_bitmask()
}
