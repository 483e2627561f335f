//! A table over records of any type.
ghost use Rattle.std.specs.Borrow.{sem};
ghost use Rattle.std.specs.Prelude.{◌≡◌, None, length};
ghost use Rattle.grid_config_values.specs.Settings.{value_at};
ghost use Rattle.grid_config.specs.Looks.{look_of};
ghost use Rattle.grid_config.specs.Settings.{IsEverywhere};
ghost use Rattle.grid_records_traits.specs.Rows.{text_at};
ghost use Rattle.tabled.specs.Lending.{LendsConfigOf, LendsDimensionOf, LendsRecordsOf};
ghost use Rattle.tabled.specs.Tables.{new_look, new_state, table_state};
ghost use Rattle.tabled_height.specs.Steps.{has_no_cells};
ghost use Rattle.tabled_steps.specs.States.{Settles, Steps, column_count};

use crate::table_records::TableRecords;
use grid_config::{ColoredConfig, Entity, Fault, Position, Sides, SpannedConfig};
use grid_records_traits::records::RecordTexts;
use std::alloc::Global;
use tabled_options::{Padding, Style};
use tabled_size::CompleteDimension;
use tabled_steps::{CellOption, TableOption};

/// A table over records that are looked up by place: its settings, and the sizes that it keeps. A new one has borders
/// of ASCII, a column of spaces at the left and right of each text, and no colours. It keeps no size. It keeps its
/// allocator.
#[derive(Debug)]
pub struct TableOf<R> {
    records: R,
    config: ColoredConfig,
    dimension: CompleteDimension,
    alloc: Global,
}

impl<R: Drop> Drop for TableOf<R> {
    fn drop(self) {
        let TableOf {
            records,
            config,
            dimension,
            alloc: _,
        } = self;
        drop(records);
        drop(config);
        drop(dimension);
    }
}

// The settings of a new table.
fn new_config(alloc: Global) -> ColoredConfig
    ensures look { look_of result.settings ≡ new_look }
    ensures colors { IsEverywhere result.colors None }
{
    let mut config = SpannedConfig::new(alloc);
    config.set_borders(Style::ascii().get_borders());
    // for all cells it is never refused
    let _never_refused = config.set_padding(Entity::Global, Sides::from(Padding::new(1, 1, 0, 0)));
    ColoredConfig::new(config)
}

impl<R: RecordTexts> TableOf<R> {
    /// A new table of these records. Does not allocate.
    pub fn new(alloc: Global, records: R) -> TableOf<R>
        ensures { table_state R.rows result ≡ new_state (R.rows records) }
    {
        TableOf {
            records,
            config: new_config(alloc),
            dimension: CompleteDimension::default(),
            alloc,
        }
    }

    /// Changes the table by an option: one step, and after it the sizes that its hint clears
    /// are no longer kept. Refused as the step is, and as `Memory` where allocation fails, and then
    /// nothing has changed.
    pub fn set<O: TableOption<R, ColoredConfig, CompleteDimension>>(
        &mut self,
        option: O,
    ) -> Result<(), Fault>
        ensures { Steps (Settles (O.hint option) (O.step option)) result (table_state R.rows self.old) (table_state R.rows self.new) }
    {
        let hint = option.hint_change();
        option.change(
            self.alloc,
            &mut self.records,
            &mut self.config,
            &mut self.dimension,
        )?;
        self.dimension.reastimate(hint);
        Ok(())
    }

    /// Changes the cells of the target by an option: one step, and after it the sizes that its hint
    /// clears are no longer kept. Refused as the step is, and as `Memory` where allocation fails, and then
    /// nothing has changed.
    pub fn set_cells<O: CellOption<R, ColoredConfig>>(
        &mut self,
        target: Entity,
        option: &O,
    ) -> Result<(), Fault>
        ensures { Steps (Settles (O.hint option.now) (O.step option.now target)) result (table_state R.rows self.old) (table_state R.rows self.new) }
    {
        let hint = option.hint_change();
        option.change(self.alloc, &mut self.records, &mut self.config, target)?;
        self.dimension.reastimate(hint);
        Ok(())
    }

    /// The settings, and the colours of the cells.
    pub fn get_config(&self) -> &ColoredConfig
        ensures look { look_of result.now.settings ≡ (table_state R.rows self.now).look }
        ensures colors { value_at result.now.colors ≡ (table_state R.rows self.now).colors }
    {
        &self.config
    }

    /// The settings, and the colours of the cells, to be changed. The sizes stay kept.
    pub fn get_config_mut(&mut self) -> &mut ColoredConfig
        ensures* lends { sem 𝓛 (LendsConfigOf R.row self.entry result) }
        ensures look { look_of result.now.settings ≡ (table_state R.rows self.old).look }
        ensures colors { value_at result.now.colors ≡ (table_state R.rows self.old).colors }
    {
        &mut self.config
    }

    /// The records.
    pub fn get_records(&self) -> &R
        ensures { R.rows result.now ≡ (table_state R.rows self.now).rows }
    {
        &self.records
    }

    /// The records, to be changed. The sizes stay kept.
    pub fn get_records_mut(&mut self) -> &mut R
        ensures* lends { sem 𝓛 (LendsRecordsOf R.row self.entry result) }
        ensures rows { R.rows result.now ≡ (table_state R.rows self.old).rows }
    {
        &mut self.records
    }

    /// The records themselves. The settings and the sizes are let go.
    pub fn into_records(self) -> R
        ensures { R.rows result ≡ (table_state R.rows self).rows }
    {
        let TableOf {
            records,
            config,
            dimension,
            alloc: _,
        } = self;
        drop(config);
        drop(dimension);
        records
    }

    /// The sizes that are kept.
    pub fn get_dimension(&self) -> &CompleteDimension
        ensures { result.now ≡ (table_state R.rows self.now).sizes }
    {
        &self.dimension
    }

    /// The sizes that are kept, to be changed.
    pub fn get_dimension_mut(&mut self) -> &mut CompleteDimension
        ensures* lends { sem 𝓛 (LendsDimensionOf R.row self.entry result) }
        ensures sizes { result.now ≡ (table_state R.rows self.old).sizes }
    {
        &mut self.dimension
    }
}

impl<R: TableRecords> TableOf<R> {
    /// How many rows there are.
    pub fn count_rows(&self) -> usize
        ensures { result ≡ length (table_state R.rows self.now).rows }
    {
        self.records.count_rows()
    }

    /// How many columns there are.
    pub fn count_columns(&self) -> usize
        ensures { result ≡ column_count (table_state R.rows self.now).rows }
    {
        self.records.count_columns()
    }

    /// Whether there is no row or no column.
    pub fn is_empty(&self) -> bool
        ensures { result ≡ has_no_cells (table_state R.rows self.now) }
    {
        self.count_rows() == 0 || self.count_columns() == 0
    }

    /// The text of the cell at a place, and the empty text where there is none.
    pub fn get_text(&self, pos: Position) -> &str
        ensures { result.now ≡ text_at (table_state R.rows self.now).rows pos }
    {
        self.records.get_text(pos)
    }
}

mod copying;
mod list;
mod printing;
mod shown;
mod totals;
mod writing;
