//! Records of which a table can be made.
ghost use Rattle.std.proofs.Common.{sym};
ghost use Rattle.std.specs.Prelude.{◌≡◌, IfErr, OnErr, OnOk};
ghost use Rattle.grid_records_estimate.specs.Kept.{least_sizes};
ghost use Rattle.grid_records_estimate.specs.Sizes.{IsRefusal};
ghost use Rattle.grid_records_estimate.specs.Sizing.{sizing_of};
ghost use Rattle.tabled_size.specs.Dimension.Stored.{CompletedPass, completed};
ghost use Rattle.tabled_steps.proofs.Changing.{count_texts};
ghost use Rattle.tabled_steps.specs.States.{column_count};

use grid_config::{Fault, SpannedConfig};
use grid_records::{Cell, VecRecords};
use grid_records_estimate::Estimate;
use grid_records_traits::records::{ExactRecords, PeekableRecords};
use std::alloc::Global;
use tabled_size::CompleteDimension;

/// Records of which a table can be made. They are looked up by place, and have as many columns as the first row has
/// texts.
pub trait TableRecords: ExactRecords + PeekableRecords {
    /// Completes the sizes by the least ones of these records under these settings: what is set stays. Refused as
    /// `Range` where one of those passes `usize::MAX`, and as `Memory` where allocation fails, and then nothing has
    /// changed.
    fn complete_sizes(
        &self,
        alloc: Global,
        cfg: &SpannedConfig,
        sizes: &mut CompleteDimension,
    ) -> Result<(), Fault>
        ensures completed { OnOk result (sizes.new ≡ completed (least_sizes (sizing_of cfg.now) (Self.columns self.now) (Self.rows self.now)) sizes.old) }
        ensures refused { IfErr result (λ fault. IsRefusal fault (CompletedPass (least_sizes (sizing_of cfg.now) (Self.columns self.now) (Self.rows self.now)) sizes.old)) }
        ensures kept { OnErr result (sizes.new ≡ sizes.old) };

    ghost counted: { (records : Self) → Self.columns records ≡ column_count (Self.rows records) };
}

impl<T: Cell> TableRecords for VecRecords<T> {
    ghost counted = { λ records. sym (count_texts T.text records.rows.items) };

    fn complete_sizes(
        &self,
        alloc: Global,
        cfg: &SpannedConfig,
        sizes: &mut CompleteDimension,
    ) -> Result<(), Fault> {
        sizes.estimate(alloc, self, cfg)
    }
}
