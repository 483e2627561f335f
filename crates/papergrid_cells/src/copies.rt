//! Bytes written over others.
ghost use Rattle.std.specs.Prelude.{◌≡◌, ◌+◌, ◌*◌, ◌≤◌, length};
ghost use Rattle.std.specs.List.{replace_range};

use std::simd::prelude::*;

/// Writes these bytes over as many others, from `start` on. A few bytes are copied by one or two moves, without a call.
#[inline(always)]
pub fn lay_over(out: &mut [u8], start: usize, bytes: &[u8])
    requires { start + length bytes.now ≤ length out.old }
    ensures { out.new ≡ replace_range out.old start (start + length bytes.now) bytes.now }
{
    copy_all(&mut out[start..start + bytes.len()], bytes);
}

// Copies all bytes.
#[inline(always)]
fn copy_all(to: &mut [u8], from: &[u8])
    requires { length to.old ≡ length from.now }
    ensures { to.new ≡ from.now }
{
    if from.len() >= 4 {
        if from.len() < 8 {
            copy_ends::<4>(to, from);
        } else if from.len() <= 16 {
            copy_ends::<8>(to, from);
        } else {
            to.copy_from_slice(from);
        }
    } else if from.len() >= 2 {
        copy_ends::<2>(to, from);
    } else if from.len() == 1 {
        to[0] = from[0];
    }
}

// Copies the first `N` bytes and the last `N`, which together are all.
#[inline(always)]
fn copy_ends<const N: usize>(to: &mut [u8], from: &[u8])
    requires same { length to.old ≡ length from.now }
    requires least { N ≤ length from.now }
    requires most { length from.now ≤ 2 * N }
    ensures { to.new ≡ from.now }
{
    let last = from.len() - N;
    let (front, back) = (
        Simd::<u8, N>::from_slice(from),
        Simd::<u8, N>::from_slice(&from[last..]),
    );
    front.copy_to_slice(to);
    back.copy_to_slice(&mut to[last..]);
}
