//! A table after a list of settings.
ghost use Rattle.std.specs.Prelude.{IfErr, OnOk};
ghost use Rattle.tabled.specs.Tables.{table_state};
ghost use Rattle.tabled_list.specs.Lists.{AreSetters, LeadsThrough, RefusedAt};

use crate::table_of::TableOf;
use grid_config::{ColoredConfig, Entity, Fault};
use grid_records::{FromText, VecRecords};
use grid_records_traits::records::RecordTexts;
use tabled_list::{Adjustable, Setting, apply_list, apply_setters};
use tabled_size::CompleteDimension;
use tabled_steps::{CellOption, TableOption};

impl<T: FromText> TableOf<VecRecords<T>> {
    /// Changes the table by the settings, one after the other, up to the first that is refused. That one
    /// changes nothing, and those before it remain in effect. Returns its index and why it is refused, which
    /// may be that allocation fails.
    pub fn with_list(&mut self, settings: &[Setting]) -> Result<(), (usize, Fault)>
        ensures run { OnOk result (LeadsThrough settings.now (table_state ⟦<VecRecords<T> as RecordTexts>⟧.rows self.old) (table_state ⟦<VecRecords<T> as RecordTexts>⟧.rows self.new)) }
        ensures refused { IfErr result (λ refusal. RefusedAt settings.now (table_state ⟦<VecRecords<T> as RecordTexts>⟧.rows self.old) (table_state ⟦<VecRecords<T> as RecordTexts>⟧.rows self.new) refusal.0 refusal.1) }
    {
        apply_list(self.alloc, self, settings)
    }
}

impl<R: RecordTexts> TableOf<R> {
    /// Changes the table by settings that are setters of its configuration, as `with_list` does. They change no text,
    /// so that the records may be of any type.
    pub fn with_setters(&mut self, settings: &[Setting]) -> Result<(), (usize, Fault)>
        requires { AreSetters settings.now }
        ensures run { OnOk result (LeadsThrough settings.now (table_state R.rows self.old) (table_state R.rows self.new)) }
        ensures refused { IfErr result (λ refusal. RefusedAt settings.now (table_state R.rows self.old) (table_state R.rows self.new) refusal.0 refusal.1) }
    {
        apply_setters(self.alloc, self, settings)
    }
}

/// Each option changes the table as `set` and `set_cells` do.
impl<R: RecordTexts> Adjustable<R> for TableOf<R> {
    ghost state = { table_state R.rows };

    fn adjust<O: TableOption<R, ColoredConfig, CompleteDimension>>(
        &mut self,
        option: O,
    ) -> Result<(), Fault> {
        self.set(option)
    }

    fn adjust_cells<O: CellOption<R, ColoredConfig>>(
        &mut self,
        target: Entity,
        option: &O,
    ) -> Result<(), Fault> {
        self.set_cells(target, option)
    }
}
