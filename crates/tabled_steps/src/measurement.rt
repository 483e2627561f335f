//! Sizes that are taken from a table.
ghost use Rattle.std.specs.Prelude.{◌≡◌, List, Ok, Result, ℕ};
ghost use Rattle.grid_config_values.specs.declared.fault.Fault.{Fault as TableFault};
ghost use Rattle.grid_config.specs.Looks.{Look, look_of};
ghost use Rattle.tabled_steps.specs.Outcomes.{GivesState};

use grid_config::{Fault, SpannedConfig};
use grid_records_traits::records::{ExactRecords, PeekableRecords};
use std::alloc::Global;

/// The greatest measure of what a table has: of its cells' widths, or of their counts of lines.
#[derive(Clone, Copy, Debug)]
pub struct Max;

/// Of widths the greatest over the rows of a row's least, of heights the least over the rows of a row's
/// greatest.
#[derive(Clone, Copy, Debug)]
pub struct Min;

/// A percentage of a table's total width or height.
#[derive(Clone, Copy, Debug)]
pub struct Percent(pub usize);

/// A size that is given or taken from a table. `A` marks which: a width, in columns, or a height, in lines.
pub trait Measurement<A> {
    /// What it may be of these rows of a given number of texts under these settings, or why it is refused.
    ghost measures: { Self → ℕ → List (List (List ℕ)) → Look → Result ℕ TableFault → Type 0 };

    /// The size, in columns or in lines. Refused as it may be, and as `Memory` where allocation fails.
    fn measure<R: ExactRecords + PeekableRecords>(
        &self,
        alloc: Global,
        records: &R,
        cfg: &SpannedConfig,
    ) -> Result<usize, Fault>
        ensures { GivesState (λ n. n) result (measures self.now (R.columns records.now) (R.ExactRecords.rows records.now) (look_of cfg.now)) };
}

/// The number itself.
impl<A> Measurement<A> for usize {
    ghost measures = { λ n _ _ _ outcome. Ok n ≡ outcome };

    fn measure<R: ExactRecords + PeekableRecords>(
        &self,
        _alloc: Global,
        _records: &R,
        _cfg: &SpannedConfig,
    ) -> Result<usize, Fault>
        ensures { result ≡ Ok self.now }
    {
        Ok(*self)
    }
}
