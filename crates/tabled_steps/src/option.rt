//! Options of a table.
ghost use Rattle.std.specs.Prelude.{◌≡◌, Option};
ghost use Rattle.grid_config_values.specs.declared.entity.Entity.{Entity as Cells};
ghost use Rattle.tabled_steps.specs.States.{Outcome, State, Steps, state_with};
ghost use Rattle.tabled_size.specs.Dimension.Stored.{Stored};

use crate::configuration::{Configuration, KeptSizes};
use grid_config::{Entity, Fault};
use grid_records_traits::records::RecordTexts;
use std::alloc::Global;

/// An option of a table: one step of what the table is.
pub trait TableOption<R: RecordTexts, C: Configuration, D: KeptSizes> {
    /// Where the step leads from a state, or why it is refused.
    ghost step: { Self → State → Outcome → Type 0 };

    /// The cells whose kept sizes a table clears after the step.
    ghost hint: { Self → Option Cells };

    /// Changes a table by its records, its settings and the sizes that it keeps. Refused as the step is,
    /// and as `Memory` where allocation fails, and then nothing has changed.
    fn change(self, alloc: Global, records: &mut R, cfg: &mut C, dims: &mut D) -> Result<(), Fault>
        ensures { Steps (step self) result (state_with (R.rows records.old) (C.look cfg.old) (C.colors cfg.old) (D.sizes dims.old))
            (state_with (R.rows records.new) (C.look cfg.new) (C.colors cfg.new) (D.sizes dims.new)) };

    /// The cells whose kept sizes a table clears after the step. For a column it clears the widths, for a row the
    /// heights, and for other cells both. With `None` it clears nothing.
    fn hint_change(&self) -> Option<Entity>
        ensures { result ≡ hint self.now };
}

/// An option of some cells of a table: one step of what the table is. It leaves the sizes as they are
/// kept.
pub trait CellOption<R: RecordTexts, C: Configuration> {
    /// Where the step of these cells leads from a state, or why it is refused.
    ghost step: { Self → Cells → State → Outcome → Type 0 };

    /// The cells whose kept sizes a table clears after the step.
    ghost hint: { Self → Option Cells };

    /// Changes the cells of the entity, by the records and the settings of their table. Refused as the
    /// step is, and as `Memory` where allocation fails, and then nothing has changed.
    fn change(
        &self,
        alloc: Global,
        records: &mut R,
        cfg: &mut C,
        entity: Entity,
    ) -> Result<(), Fault>
        ensures { (sizes : Stored) → Steps (step self.now entity) result
            (state_with (R.rows records.old) (C.look cfg.old) (C.colors cfg.old) sizes)
            (state_with (R.rows records.new) (C.look cfg.new) (C.colors cfg.new) sizes) };

    /// The cells whose kept sizes a table clears after the step. For a column it clears the widths, for a row the
    /// heights, and for other cells both. With `None` it clears nothing.
    fn hint_change(&self) -> Option<Entity>
        ensures { result ≡ hint self.now };
}
