//! A table of nested boxes.
ghost use Rattle.std.specs.Prelude.{◌≡◌, ◌⊎◌, IfErr, IfOk, MatchResult, Ok, map, string_bytes};
ghost use Rattle.grid_config_values.specs.declared.fault.Fault.TheVariants.{Memory, Range};
ghost use Rattle.tabled_pool.specs.Pools.{HasStepped, PassesRange, begun, pool_of, row_nesting, rows_nesting, state_for_options, text_of};
ghost use Rattle.tabled_pool.specs.Boxes.Values.{Text, nesting_of};
ghost use Rattle.tabled_steps.specs.Outcomes.{MayRefuseStep};

use crate::boxes::{TableValue, pool_text};
use grid_config::Fault;
use grid_records::EmptyRecords;
use grid_records::records::into_records::read_row;
use grid_records_traits::{Cell, IntoRecords};
use std::alloc::{AllocError, Global};
use tabled_compact::begun_config;
use tabled_options::multiline::{CompactMultilineConfig, PoolSizes};
use tabled_size::{DimensionPriority, PoolTableDimension};
use tabled_steps::TableOption;

/// A table whose cells lie in boxes in boxes: rows, whose members are side by side, and columns, whose members
/// are one below the other. It may be nested as deep as the stack allows: to clone, compare, print or drop it
/// recurses once a level.
#[derive(PartialEq, Eq, PartialOrd, Ord, Debug)]
pub struct PoolTable {
    value: TableValue,
    config: CompactMultilineConfig,
    dimension: PoolTableDimension,
}

impl Drop for PoolTable {
    fn drop(self) {
        let PoolTable {
            value,
            config: _,
            dimension: _,
        } = self;
        drop(value);
    }
}

/// A table that shows this value, in lines of ASCII, with a column of spaces at the left and right of each text.
/// What is left over is shared out evenly. Does not allocate.
impl From<TableValue> for PoolTable {
    ghost from_gives = { λ value table. pool_of table ≡ begun (nesting_of value) };

    fn from(value: TableValue) -> PoolTable {
        let dimension = PoolTableDimension::new(DimensionPriority::List, DimensionPriority::List);
        PoolTable {
            value,
            config: CompactMultilineConfig::from_compact(begun_config()),
            dimension,
        }
    }
}

impl PoolTable {
    /// A table that shows the rows of this source one below the other, and the cells of each side by side; else
    /// as `From<TableValue>`. Fails only where allocation fails.
    pub fn new<I: IntoRecords>(alloc: Global, records: I) -> Result<PoolTable, Fault>
        ensures table { IfOk result (λ table. pool_of table ≡ begun (rows_nesting (I.RecordTexts.rows records))) }
        ensures refused { IfErr result (λ fault. fault ≡ Memory) }
    {
        let rows = row_values(alloc, records)?;
        Ok(PoolTable::from(TableValue::Column(rows)))
    }

    /// The same table again. Fails only where allocation fails.
    pub fn clone(&self, alloc: Global) -> Result<PoolTable, AllocError>
        ensures { IfOk result (λ table. pool_of table ≡ pool_of self.now) }
    {
        Ok(PoolTable {
            value: self.value.clone(alloc)?,
            config: self.config,
            dimension: self.dimension,
        })
    }

    /// Changes the table by an option: one step of its settings and of who takes what is left over. Refused as
    /// the step is, and as `Memory` where allocation fails, and then nothing has changed.
    pub fn set<O: TableOption<EmptyRecords, CompactMultilineConfig, PoolSizes>>(
        &mut self,
        alloc: Global,
        option: O,
    ) -> Result<(), Fault>
        ensures { MatchResult result (λ _. HasStepped (O.step option) (pool_of self.old) (pool_of self.new))
            (λ fault. (state_for_options (pool_of self.new) ≡ state_for_options (pool_of self.old)) × ((pool_of self.new).nesting ≡ (pool_of self.old).nesting)
            × MayRefuseStep fault (O.step option (state_for_options (pool_of self.old)))) }
    {
        let mut records = EmptyRecords::new(0, 0);
        let mut sizes = PoolSizes {
            dimension: self.dimension,
        };
        let changed = option.change(alloc, &mut records, &mut self.config, &mut sizes);
        self.dimension = sizes.dimension;
        changed
    }

    /// The table, changed by an option, with no promise of what a refused one leaves: `set` has it. Else as
    /// `set`.
    pub fn with<O: TableOption<EmptyRecords, CompactMultilineConfig, PoolSizes>>(
        &mut self,
        alloc: Global,
        option: O,
    ) -> Result<&mut Self, Fault>
        ensures lends { IfOk result (λ table. table.ghost_name ≡ self.entry.ghost_name) }
        ensures step { IfOk result (λ table. HasStepped (O.step option) (pool_of self.old) (pool_of table.now)) }
        ensures refused { IfErr result (λ fault. MayRefuseStep fault (O.step option (state_for_options (pool_of self.old)))) }
    {
        self.set(alloc, option)?;
        Ok(self)
    }

    /// The text of the table: its lines, a line feed between each two, with none at the end. A table that shows
    /// nothing has no margin. Refused as `Range` exactly where the columns of a line, or the lines, pass
    /// `usize::MAX`, with that margin; or as `Memory` where allocation fails.
    pub fn to_string(&self, alloc: Global) -> Result<String, Fault>
        ensures text { IfOk result (λ text. string_bytes text ≡ text_of (pool_of self.now)) }
        ensures fits { IfOk result (λ _. ¬ (PassesRange (pool_of self.now))) }
        ensures fault { IfErr result (λ fault. (fault ≡ Memory) ⊎ (fault ≡ Range)) }
        ensures range { IfErr result (λ fault. fault ≡ Range → PassesRange (pool_of self.now)) }
    {
        let config = self.config.into_spanned_config(alloc)?;
        pool_text(alloc, &config, self.dimension, &self.value)
    }
}

// A row of cells for each row of the source.
fn row_values<I: IntoRecords>(alloc: Global, records: I) -> Result<Vec<TableValue>, AllocError>
    ensures { IfOk result (λ rows. map nesting_of rows.items ≡ map row_nesting (I.RecordTexts.rows records)) }
{
    let mut rows = Vec::new(alloc);
    for cells in records.iter_rows() {
        let cells = read_row(alloc, cells)?;
        rows.push(row_value(alloc, &cells)?)?;
    }
    Ok(rows)
}

// The texts of these cells side by side.
fn row_value<C: Cell>(alloc: Global, cells: &[C]) -> Result<TableValue, AllocError>
    ensures { IfOk result (λ row. nesting_of row ≡ row_nesting (map C.text cells.now)) }
{
    Ok(TableValue::Row(cell_values(alloc, cells)?))
}

// A value for each of these cells.
fn cell_values<C: Cell>(alloc: Global, cells: &[C]) -> Result<Vec<TableValue>, AllocError>
    ensures { IfOk result (λ values. map nesting_of values.items ≡ map Text (map C.text cells.now)) }
{
    let mut values = Vec::with_capacity(alloc, cells.len())?;
    for cell in cells {
        values.push(cell_value(alloc, cell.text())?)?;
    }
    Ok(values)
}

// A cell with this text.
fn cell_value(alloc: Global, text: &str) -> Result<TableValue, AllocError>
    ensures { IfOk result (λ value. nesting_of value ≡ Text text.now) }
{
    Ok(TableValue::Cell(String::from_str(alloc, text)?))
}
