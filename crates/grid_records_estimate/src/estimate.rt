//! An estimate of the sizes of a table.
ghost use Rattle.std.specs.Prelude.{◌≡◌, IfErr, OnErr, OnOk};
ghost use Rattle.grid_records_estimate.specs.Sizes.{IsRefusal};

use grid_config::Fault;
use std::alloc::Global;

/// Sizes that can be estimated from the records and the settings of a table.
pub trait Estimate<R, C> {
    /// These sizes, before and after, are those of an estimate from these records and settings. What
    /// was set before may stay.
    ghost is_estimate: { R → C → Self → Self → Type 0 };

    /// A size that the estimate makes, where these were before, passes the greatest `usize`.
    ghost passes: { R → C → Self → Type 0 };

    /// Keeps the sizes that hold these records under these settings. Where it makes sizes, its time is linear in the
    /// rows and columns, empty ones too. Refused as `Range` where one that it makes passes `usize::MAX`, and as
    /// `Memory` where allocation fails; the old ones then stay.
    fn estimate(&mut self, alloc: Global, records: R, cfg: &C) -> Result<(), Fault>
        ensures ok { OnOk result (is_estimate records cfg.now self.old self.new) }
        ensures refused { IfErr result (λ fault. IsRefusal fault (passes records cfg.now self.old)) }
        ensures err { OnErr result (self.new ≡ self.old) };
}
