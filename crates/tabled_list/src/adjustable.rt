//! Tables that settings change.
ghost use Rattle.tabled_steps.specs.States.{Settles, State, Steps};

use grid_config::{ColoredConfig, Entity, Fault};
use grid_records_traits::records::RecordTexts;
use tabled_size::CompleteDimension;
use tabled_steps::{CellOption, TableOption};

/// A table of these records, as a list of settings changes it: by one option after the other.
pub trait Adjustable<R: RecordTexts> {
    /// What the table is.
    ghost state: { Self → State };

    /// Changes the table by an option: one step, and after it the sizes that its hint clears are no
    /// longer kept. Refused as the step is, and as `Memory` where allocation fails, and then
    /// nothing has changed.
    fn adjust<O: TableOption<R, ColoredConfig, CompleteDimension>>(
        &mut self,
        option: O,
    ) -> Result<(), Fault>
        ensures { Steps (Settles (O.hint option) (O.step option)) result (state self.old) (state self.new) };

    /// Changes the cells of the target by an option, as `adjust` does the table.
    fn adjust_cells<O: CellOption<R, ColoredConfig>>(
        &mut self,
        target: Entity,
        option: &O,
    ) -> Result<(), Fault>
        ensures { Steps (Settles (O.hint option.now) (O.step option.now target)) result (state self.old) (state self.new) };
}
