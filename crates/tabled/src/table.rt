//! A table.
ghost use Rattle.std.specs.Borrow.{sem};
ghost use Rattle.std.specs.Prelude.{◌≡◌, [], IfErr, IfOk, length};
ghost use Rattle.grid_config_values.specs.Settings.{value_at};
ghost use Rattle.grid_config_values.specs.declared.fault.Fault.TheVariants.{Memory};
ghost use Rattle.grid_config.specs.Looks.{look_of};
ghost use Rattle.grid_records.specs.RecordRows.Sources.{AreEquallyLong};
ghost use Rattle.grid_records_traits.specs.Rows.{text_at};
ghost use Rattle.grid_records_traits.specs.Sources.{texts_of_rows};
ghost use Rattle.tabled.specs.Lending.{LendsConfig, LendsDimension, LendsRecords};
ghost use Rattle.tabled.specs.Tables.{new_state, state_of};
ghost use Rattle.tabled_height.specs.Steps.{has_no_cells};
ghost use Rattle.tabled_steps.specs.Outcomes.{MayRefuseStep};
ghost use Rattle.tabled_text.specs.Rows.{filled};
ghost use Rattle.tabled_steps.specs.States.{Settles, Steps, column_count};

use crate::cells::cells_of;
use crate::table_of::TableOf;
use grid_config::{ColoredConfig, Entity, Fault, Position};
use grid_records::{FromText, Text, VecRecords};
use grid_records_traits::records::RecordTexts;
use std::alloc::Global;
use tabled_size::CompleteDimension;
use tabled_steps::{CellOption, TableOption};
use tabled_text::Builder;

/// A table: rows of cells with texts, its settings, and the sizes that it keeps. A new one has borders of ASCII, a
/// column of spaces at the left and right of each text, and no colours. It keeps no size. It keeps its
/// allocator.
#[derive(Debug)]
pub struct Table<T = Text> {
    inner: TableOf<VecRecords<T>>,
}

impl<T: Drop> Drop for Table<T> {
    fn drop(self) {
        let Table { inner } = self;
        drop(inner);
    }
}

impl Table<Text> {
    /// A table without rows. Does not allocate.
    pub fn default(alloc: Global) -> Table<Text>
        ensures { state_of (λ text. text) result ≡ new_state [] }
    {
        Table::of_cells(alloc, Vec::new(alloc))
    }

    /// The table of a builder's rows, the short ones filled with empty texts. Fails only where allocation fails.
    pub fn from_builder(builder: Builder) -> Result<Table<Text>, Fault>
        ensures table { IfOk result (λ table. state_of (λ text. text) table ≡ new_state (filled builder)) }
        ensures refused { IfErr result (λ fault. fault ≡ Memory) }
    {
        let rows = builder.into_rows()?;
        let alloc = *rows.allocator();
        let cells = cells_of(alloc, rows)?;
        Ok(Table::of_cells(alloc, cells))
    }
}

impl<T: FromText> Table<T> {
    // A new table of these cells.
    pub(crate) fn of_cells(alloc: Global, cells: Vec<Vec<T>>) -> Table<T>
        requires { AreEquallyLong cells.items }
        ensures { state_of T.text result ≡ new_state (texts_of_rows T.text cells.items) }
    {
        Table {
            inner: TableOf::new(alloc, VecRecords::new(cells)),
        }
    }

    /// Changes the table by an option: one step, and after it the sizes that its hint clears
    /// are no longer kept. Refused as the step is, and as `Memory` where allocation fails, and then
    /// nothing has changed.
    pub fn set<O: TableOption<VecRecords<T>, ColoredConfig, CompleteDimension>>(
        &mut self,
        option: O,
    ) -> Result<(), Fault>
        ensures { Steps (Settles (O.hint option) (O.step option)) result (state_of T.text self.old) (state_of T.text self.new) }
    {
        self.inner.set(option)
    }

    /// Changes the cells of the target by an option: one step, and after it the sizes that its hint
    /// clears are no longer kept. Refused as the step is, and as `Memory` where allocation fails, and then
    /// nothing has changed.
    pub fn set_cells<O: CellOption<VecRecords<T>, ColoredConfig>>(
        &mut self,
        target: Entity,
        option: &O,
    ) -> Result<(), Fault>
        ensures { Steps (Settles (O.hint option.now) (O.step option.now target)) result (state_of T.text self.old) (state_of T.text self.new) }
    {
        self.inner.set_cells(target, option)
    }

    /// The table, changed by an option: one step, and after it the sizes that its hint clears
    /// are no longer kept. Refused as the step is, and as `Memory` where allocation fails; what a refused
    /// one leaves, only `set` promises.
    pub fn with<O: TableOption<VecRecords<T>, ColoredConfig, CompleteDimension>>(
        &mut self,
        option: O,
    ) -> Result<&mut Self, Fault>
        ensures lends { IfOk result (λ table. table.ghost_name ≡ self.entry.ghost_name) }
        ensures step { IfOk result (λ table. Settles (O.hint option) (O.step option) (state_of T.text self.old) (Ok (state_of T.text table.now))) }
        ensures refused { IfErr result (λ fault. MayRefuseStep fault (Settles (O.hint option) (O.step option) (state_of T.text self.old))) }
    {
        self.set(option)?;
        Ok(self)
    }

    /// The table, its target changed by an option: one step, and after it the sizes that its hint
    /// clears are no longer kept. Refused as the step is, and as `Memory` where allocation fails; what a
    /// refused one leaves, only `set_cells` promises.
    pub fn modify<O: CellOption<VecRecords<T>, ColoredConfig>>(
        &mut self,
        target: Entity,
        option: &O,
    ) -> Result<&mut Self, Fault>
        ensures lends { IfOk result (λ table. table.ghost_name ≡ self.entry.ghost_name) }
        ensures step { IfOk result (λ table. Settles (O.hint option.now) (O.step option.now target) (state_of T.text self.old) (Ok (state_of T.text table.now))) }
        ensures refused { IfErr result (λ fault. MayRefuseStep fault (Settles (O.hint option.now) (O.step option.now target) (state_of T.text self.old))) }
    {
        self.set_cells(target, option)?;
        Ok(self)
    }

    /// How many rows and how many columns there are.
    pub fn shape(&self) -> (usize, usize)
        ensures { let rows = (state_of T.text self.now).rows in result ≡ (length rows, column_count rows) }
    {
        (self.count_rows(), self.count_columns())
    }

    /// How many rows there are.
    pub fn count_rows(&self) -> usize
        ensures { result ≡ length (state_of T.text self.now).rows }
    {
        self.inner.count_rows()
    }

    /// How many columns there are.
    pub fn count_columns(&self) -> usize
        ensures { result ≡ column_count (state_of T.text self.now).rows }
    {
        self.inner.count_columns()
    }

    /// Whether there is no row or no column.
    pub fn is_empty(&self) -> bool
        ensures { result ≡ has_no_cells (state_of T.text self.now) }
    {
        self.inner.is_empty()
    }

    /// The settings, and the colours of the cells.
    pub fn get_config(&self) -> &ColoredConfig
        ensures look { look_of result.now.settings ≡ (state_of T.text self.now).look }
        ensures colors { value_at result.now.colors ≡ (state_of T.text self.now).colors }
    {
        self.inner.get_config()
    }

    /// The settings, and the colours of the cells, to be changed. The sizes stay kept.
    pub fn get_config_mut(&mut self) -> &mut ColoredConfig
        ensures* lends { sem 𝓛 (LendsConfig T.row self.entry result) }
        ensures look { look_of result.now.settings ≡ (state_of T.text self.old).look }
        ensures colors { value_at result.now.colors ≡ (state_of T.text self.old).colors }
    {
        self.inner.get_config_mut()
    }

    /// The rows of cells.
    pub fn get_records(&self) -> &VecRecords<T>
        ensures { ⟦<VecRecords<T> as RecordTexts>⟧.rows result.now ≡ (state_of T.text self.now).rows }
    {
        self.inner.get_records()
    }

    /// The text of the cell at a place, and the empty text where there is none.
    pub fn get_text(&self, pos: Position) -> &str
        ensures { result.now ≡ text_at (state_of T.text self.now).rows pos }
    {
        self.inner.get_text(pos)
    }

    /// The rows of cells, to be changed. The sizes stay kept.
    pub fn get_records_mut(&mut self) -> &mut VecRecords<T>
        ensures* lends { sem 𝓛 (LendsRecords T.row self.entry result) }
        ensures rows { ⟦<VecRecords<T> as RecordTexts>⟧.rows result.now ≡ (state_of T.text self.old).rows }
    {
        self.inner.get_records_mut()
    }

    /// The sizes that are kept.
    pub fn get_dimension(&self) -> &CompleteDimension
        ensures { result.now ≡ (state_of T.text self.now).sizes }
    {
        self.inner.get_dimension()
    }

    /// The sizes that are kept, to be changed.
    pub fn get_dimension_mut(&mut self) -> &mut CompleteDimension
        ensures* lends { sem 𝓛 (LendsDimension T.row self.entry result) }
        ensures sizes { result.now ≡ (state_of T.text self.old).sizes }
    {
        self.inner.get_dimension_mut()
    }
}

mod copying;
mod list;
mod printing;
