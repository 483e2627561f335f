//! How much sizes take together.
ghost use Rattle.std.specs.Prelude.{◌≡◌, ◌^◌, ◌≤◌, IfErr, IfOk};
ghost use Rattle.grid_config_values.specs.declared.fault.Fault.TheVariants.{Range};
ghost use Rattle.grid_records_estimate.specs.Totals.{total as total_of};

use crate::shares::sum;
use grid_config::Fault;

/// The sizes of a table's columns or rows together with the boundaries that exist and the margins
/// before and after; 0 where there are no sizes. Refused as `Range` exactly where they pass
/// `usize::MAX`. Does not allocate.
pub fn total(
    sizes: &[usize],
    boundaries: usize,
    before: usize,
    behind: usize,
) -> Result<usize, Fault>
    ensures ok { IfOk result (λ n. n ≡ total_of sizes.now boundaries before behind) }
    ensures refused { IfErr result (λ fault. (fault ≡ Range) × (2 ^ 64 ≤ total_of sizes.now boundaries before behind)) }
{
    if sizes.is_empty() {
        return Ok(0);
    }
    let edges = boundaries as u128 + before as u128 + behind as u128;
    match sum(sizes).checked_add(edges) {
        Some(total) => usize::try_from(total).map_err(|_| Fault::Range),
        None => Err(Fault::Range),
    }
}
