//! A table after a list of settings.
ghost use Rattle.std.specs.Prelude.{IfErr, OnOk};
ghost use Rattle.papergrid_picture.specs.Shown.{AreWholeTexts};
ghost use Rattle.tabled.specs.Tables.{state_of};
ghost use Rattle.tabled_list.specs.Lists.{LeadsThrough, RefusedAt};
ghost use Rattle.tabled_list.specs.Stripping.Stripping.{PutInNoEscape, stripped_state};

use crate::table::Table;
use grid_config::{ColoredConfig, Entity, Fault};
use grid_records::{FromText, VecRecords};
use tabled_list::{Adjustable, Setting};
use tabled_size::CompleteDimension;
use tabled_steps::{CellOption, TableOption};

impl<T: FromText> Table<T> {
    /// Changes the table by the settings, one after the other, up to the first that is refused. That one
    /// changes nothing, and those before it remain in effect. Returns its index and why it is refused, which
    /// may be that allocation fails. Settings that put in no ESC make of whole texts, without sequences, what
    /// they make of the stripped texts, and are refused as of these.
    pub fn with_list(&mut self, settings: &[Setting]) -> Result<(), (usize, Fault)>
        ensures run { OnOk result (LeadsThrough settings.now (state_of T.text self.old) (state_of T.text self.new)) }
        ensures refused { IfErr result (λ refusal. RefusedAt settings.now (state_of T.text self.old) (state_of T.text self.new) refusal.0 refusal.1) }
        ensures stripped_run { PutInNoEscape settings.now → AreWholeTexts (state_of T.text self.old).rows →
            OnOk result (LeadsThrough settings.now (stripped_state (state_of T.text self.old)) (stripped_state (state_of T.text self.new))) }
        ensures stripped_refused { PutInNoEscape settings.now → AreWholeTexts (state_of T.text self.old).rows →
            IfErr result (λ refusal. RefusedAt settings.now (stripped_state (state_of T.text self.old)) (stripped_state (state_of T.text self.new)) refusal.0 refusal.1) }
    {
        self.inner.with_list(settings)
    }
}

/// Each option changes the table as `set` and `set_cells` do.
impl<T: FromText> Adjustable<VecRecords<T>> for Table<T> {
    ghost state = { state_of T.text };

    fn adjust<O: TableOption<VecRecords<T>, ColoredConfig, CompleteDimension>>(
        &mut self,
        option: O,
    ) -> Result<(), Fault> {
        self.set(option)
    }

    fn adjust_cells<O: CellOption<VecRecords<T>, ColoredConfig>>(
        &mut self,
        target: Entity,
        option: &O,
    ) -> Result<(), Fault> {
        self.set_cells(target, option)
    }
}
