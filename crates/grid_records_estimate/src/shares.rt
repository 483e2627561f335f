//! Sizes that grow until needs are met.
ghost use Rattle.std.specs.Prelude.{◌≡◌, ℕ, ◌+◌, ◌-◌, ◌^◌, ◌<◌, Bool, Ok, Err, IfErr, OnErr, OnOk, if◌then◌else◌, length, nat_lt, sum};
ghost use Rattle.std.specs.List.{fold};
ghost use Rattle.grid_config_values.specs.declared.fault.Fault.TheVariants.{Range};
ghost use Rattle.grid_records_estimate.specs.Estimates.{meet, with_shares};
ghost use Rattle.grid_records_estimate.specs.Collecting.{AreInTracks, HasBetween, IsInTracks, PassesMax};

use crate::need::Need;
use grid_config_values::Fault;

/// Meets each need in its turn. Refused as `Range` where a size passes `usize::MAX`.
pub(crate) fn meet_all(sizes: &mut [usize], needs: &[Need], between: bool) -> Result<(), Fault>
    requires { AreInTracks (length sizes.old) needs.now }
    ensures ok { (has_boundary : ℕ → Bool) → HasBetween has_boundary (length sizes.old) between →
        OnOk result (sizes.new ≡ fold (meet has_boundary) sizes.old needs.now) }
    ensures fault { IfErr result (λ fault. fault ≡ Range) }
    ensures range { (has_boundary : ℕ → Bool) → HasBetween has_boundary (length sizes.old) between →
        OnErr result (PassesMax (fold (meet has_boundary) sizes.old needs.now)) }
{
    for need in needs {
        meet(sizes, *need, between)?;
    }
    Ok(())
}

// Gives the columns of a need what they and the boundaries between them lack.
fn meet(sizes: &mut [usize], need: Need, between: bool) -> Result<(), Fault>
    requires { IsInTracks (length sizes.old) need }
    ensures ok { (has_boundary : ℕ → Bool) → HasBetween has_boundary (length sizes.old) between →
        OnOk result (sizes.new ≡ meet has_boundary sizes.old need) }
    ensures fault { IfErr result (λ fault. fault ≡ Range) }
    ensures range { (has_boundary : ℕ → Bool) → HasBetween has_boundary (length sizes.old) between →
        OnErr result (PassesMax (meet has_boundary sizes.old need)) }
{
    let tracks = &mut sizes[need.first..need.first + need.length];
    let boundaries = boundaries(need.length, between);
    let held = sum(tracks) + boundaries as u128;
    add_shares(tracks, need.size.saturating_sub(held))
}

// How many boundaries there are between `length` columns.
fn boundaries(length: usize, between: bool) -> usize
    requires { 0 < length }
    ensures { result ≡ (if between then length - 1 else 0) }
{
    if between { length - 1 } else { 0 }
}

// Divides `lack` evenly among the sizes; the whole remainder goes to the first.
fn add_shares(sizes: &mut [usize], lack: u128) -> Result<(), Fault>
    requires some { 0 < length sizes.old }
    requires small { lack < 2 ^ 66 }
    ensures ok { OnOk result (sizes.new ≡ with_shares lack sizes.old) }
    ensures fault { IfErr result (λ fault. fault ≡ Range) }
    ensures range { OnErr result (PassesMax (with_shares lack sizes.old)) }
{
    let count = sizes.len() as u128;
    let share = lack / count;
    for size in sizes.iter_mut() {
        *size = grown(*size, share)?;
    }
    sizes[0] = grown(sizes[0], lack % count)?;
    Ok(())
}

// The size, plus so much.
fn grown(size: usize, by: u128) -> Result<usize, Fault>
    requires { by < 2 ^ 66 }
    ensures { result ≡ (if nat_lt (size + by) (2 ^ 64) then Ok (size + by) else Err Range) }
{
    match usize::try_from(size as u128 + by) {
        Ok(size) => Ok(size),
        Err(_) => Err(Fault::Range),
    }
}

/// The sum of the sizes.
pub(crate) fn sum(sizes: &[usize]) -> u128
    ensures sum { result ≡ sum sizes.now }
    ensures small { result + 2 ^ 64 < 2 ^ 128 }
{
    let mut sum = 0;
    for size in sizes {
        sum += *size as u128;
    }
    sum
}
