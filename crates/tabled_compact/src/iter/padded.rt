//! Sizes with paddings.
ghost use Rattle.std.specs.Prelude.{◌≡◌, ◌≤◌, ◌<◌, ◌+◌, ◌++◌, ◌∷◌, [], ◌^◌, ◌⊎◌, ℕ, IfErr, IfOk, OnOk, length, map, slice_index};
ghost use Rattle.grid_config_values.specs.declared.fault.Fault.TheVariants.{Memory, Range as PassesMax};
ghost use Rattle.tabled_compact.specs.Iter.Padded.{AreGreater, PassesRange};
ghost use Rattle.tabled_size.specs.Dimension.Values.{value_sizes};

use grid_config::Fault;
use std::alloc::{AllocError, Global};
use tabled_size::DimensionValue;

/// The sizes with both paddings. Refused as `Range` where one of them passes `usize::MAX`, that of all
/// others included; or as `Memory` where allocation fails.
pub(crate) fn padded(
    alloc: Global,
    sizes: &DimensionValue,
    before: usize,
    behind: usize,
) -> Result<DimensionValue, Fault>
    ensures sums { IfOk result (λ sums. AreGreater (before + behind) (value_sizes sizes.now) (value_sizes sums)) }
    ensures refused { IfErr result (λ fault. (fault ≡ Memory) ⊎ ((fault ≡ PassesMax) × PassesRange (before + behind) (value_sizes sizes.now))) }
{
    match sizes {
        DimensionValue::Exact(size) => Ok(DimensionValue::Exact(sum(*size, before, behind)?)),
        DimensionValue::List(sizes) => Ok(DimensionValue::Partial(
            sums(alloc, sizes, before, behind)?,
            sum(0, before, behind)?,
        )),
        DimensionValue::Partial(sizes, others) => Ok(DimensionValue::Partial(
            sums(alloc, sizes, before, behind)?,
            sum(*others, before, behind)?,
        )),
    }
}

// The sizes of a list with both paddings.
fn sums(alloc: Global, sizes: &[usize], before: usize, behind: usize) -> Result<Vec<usize>, Fault>
    ensures sums { IfOk result (λ sums. sums.items ≡ map (λ size. size + (before + behind)) sizes.now) }
    ensures refused { IfErr result (λ fault. (fault ≡ Memory) ⊎ ((fault ≡ PassesMax) × ((k : ℕ) × (k < length sizes.now) × (2 ^ 64 ≤ slice_index sizes.now k + (before + behind))))) }
{
    let mut sums = Vec::new(alloc);
    for size in sizes {
        put(&mut sums, sum(*size, before, behind)?)?;
    }
    Ok(sums)
}

fn put(sums: &mut Vec<usize>, sum: usize) -> Result<(), AllocError>
    ensures { OnOk result (sums.new.items ≡ sums.old.items ++ sum ∷ []) }
{
    sums.push(sum)?;
    Ok(())
}

// A size with both paddings.
fn sum(size: usize, before: usize, behind: usize) -> Result<usize, Fault>
    ensures sum { IfOk result (λ sum. sum ≡ size + (before + behind)) }
    ensures refused { IfErr result (λ fault. (fault ≡ PassesMax) × (2 ^ 64 ≤ size + (before + behind))) }
{
    let Some(part) = size.checked_add(before) else {
        return Err(Fault::Range);
    };
    match part.checked_add(behind) {
        Some(sum) => Ok(sum),
        None => Err(Fault::Range),
    }
}
