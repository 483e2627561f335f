//! Sizes by name.
ghost use Rattle.std.specs.Prelude.{◌≡◌, IsOk, false};
ghost use Rattle.grid_config.specs.Looks.{look_of};
ghost use Rattle.tabled_list.specs.Amounts.{allocates, height_of, width_of};
ghost use Rattle.tabled_steps.specs.Outcomes.{GivesState};

use grid_config::{Fault, SpannedConfig};
use grid_records_traits::records::{ExactRecords, PeekableRecords};
use std::alloc::Global;
use tabled_height::Height;
use tabled_steps::{Max, Measurement, Min, Percent};
use tabled_width::Width;

/// A width, in columns, or a height, in lines, of a setting.
#[derive(Clone, Copy, Debug, PartialEq, Eq)]
pub enum Amount {
    /// This number.
    Exact(usize),
    /// What `Max` measures.
    Max,
    /// What `Min` measures.
    Min,
    /// What `Percent` measures.
    Percent(usize),
}

/// The number itself, or the width that the measurement of its name takes. Refused as that measurement is.
impl Measurement<Width> for Amount {
    ghost measures = { λ amount columns rows look outcome. width_of amount columns rows look ≡ outcome };

    fn measure<R: ExactRecords + PeekableRecords>(
        &self,
        alloc: Global,
        records: &R,
        cfg: &SpannedConfig,
    ) -> Result<usize, Fault>
        ensures gives { GivesState (λ n. n) result (λ outcome. width_of self.now (R.columns records.now) (R.ExactRecords.rows records.now) (look_of cfg.now) ≡ outcome) }
        ensures answers { allocates self.now ≡ false → IsOk result }
    {
        match *self {
            Amount::Exact(n) => Ok(n),
            Amount::Max => Measurement::<Width>::measure(&Max, alloc, records, cfg),
            Amount::Min => Measurement::<Width>::measure(&Min, alloc, records, cfg),
            Amount::Percent(n) => Measurement::<Width>::measure(&Percent(n), alloc, records, cfg),
        }
    }
}

/// The number itself, or the height that the measurement of its name takes. Refused as that measurement is.
impl Measurement<Height> for Amount {
    ghost measures = { λ amount columns rows look outcome. height_of amount columns rows look ≡ outcome };

    fn measure<R: ExactRecords + PeekableRecords>(
        &self,
        alloc: Global,
        records: &R,
        cfg: &SpannedConfig,
    ) -> Result<usize, Fault>
        ensures gives { GivesState (λ n. n) result (λ outcome. height_of self.now (R.columns records.now) (R.ExactRecords.rows records.now) (look_of cfg.now) ≡ outcome) }
        ensures answers { allocates self.now ≡ false → IsOk result }
    {
        match *self {
            Amount::Exact(n) => Ok(n),
            Amount::Max => Measurement::<Height>::measure(&Max, alloc, records, cfg),
            Amount::Min => Measurement::<Height>::measure(&Min, alloc, records, cfg),
            Amount::Percent(n) => Measurement::<Height>::measure(&Percent(n), alloc, records, cfg),
        }
    }
}
