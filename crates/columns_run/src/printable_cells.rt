//! Cells of printable ASCII, whose ends are read off sixty-four bytes at a time.
ghost use Rattle.std.specs.Prelude.{◌≡◌, ◌≤◌, ◌<◌, ℕ, IfOk, length, slice_index, true};
ghost use Rattle.std.specs.Int.{bit_at, is_in_range};
ghost use Rattle.columns_run.specs.Passing.{HasPassed};

use columns_table::{CellEnd, RowEnds};
use std::alloc::AllocError;
use std::simd::prelude::*;

/// How many bytes are looked at in one step.
const LANES: usize = 64;

/// Appends the cells of printable ASCII that come first, from the cell on that begins at `first`. Returns where the
/// next cell begins, and a place after printable ASCII in it. That is its first other byte that ends no cell, or one of
/// the last sixty-three bytes of the text. It is a function of its own, so that its counts stay in registers. Fails
/// only where allocation fails.
#[inline(never)]
pub(crate) fn push_printable_cells(
    rows: &mut RowEnds,
    text: &str,
    first: usize,
) -> Result<(usize, usize), AllocError>
    requires { HasPassed text.now first first rows.old }
    ensures passed { IfOk result (λ found. HasPassed text.now found.0 found.1 rows.new) }
    ensures goes_on { IfOk result (λ found. first ≤ found.1) }
{
    let bytes = text.as_bytes();
    let (mut start, mut at) = (first, first);
    while bytes.len() - at >= LANES {
        let mut others = others_in(u8x64::from_slice(&bytes[at..]));
        while others != 0 {
            let lane = others.trailing_zeros();
            let end = at + lane as usize;
            others &= !(1 << lane);
            let byte = bytes[end];
            let width = end - start;
            if byte == b'\n' {
                rows.push_printable(CellEnd { end, width })?;
                rows.end_row()?;
            } else if byte == b'\t' {
                rows.push_printable(CellEnd { end, width })?;
            } else {
                return Ok((start, end));
            }
            start = end + 1;
        }
        at += LANES;
    }
    Ok((start, at))
}

// A bit for each lane that holds no printable ASCII, the lowest for the first.
#[inline(always)]
fn others_in(lanes: u8x64) -> u64
    ensures { (k : ℕ) → k < 64 → bit_at result k ≡ 0 → is_in_range 0x20 0x7E (slice_index lanes k) ≡ true }
{
    (lanes - u8x64::splat(0x20))
        .simd_ge(u8x64::splat(0x5f))
        .to_bitmask()
}
