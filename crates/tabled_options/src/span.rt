//! How many columns or rows a cell takes.
ghost use Rattle.std.specs.Prelude.{◌≡◌, ◌≢◌, ◌<◌, ◌≤◌, ◌⊎◌, ℕ, [], ◌∷◌, Err, IfErr, IfOk, IsOk, OnErr, OnOk, Some, length};
ghost use Rattle.grid_config_values.specs.declared.entity.Entity.TheVariants.{Cell as OneCell, Global as EveryCell};
ghost use Rattle.grid_config_values.specs.declared.fault.Fault.TheVariants.{Memory, Spans as BadSpan};
ghost use Rattle.grid_config.specs.Looks.{look_of};
ghost use Rattle.grid_config.specs.Spans.{SpansSeveral};
ghost use Rattle.tabled_options.specs.Spanning.{span_extent, span_size, spanned_at, spanning};
ghost use Rattle.tabled_steps.specs.Looks.{with_columns, with_extents, with_rows};
ghost use Rattle.tabled_steps.specs.States.{StepsTo, colored_state};
ghost use Rattle.tabled_steps.specs.Stored.{Stored};

use grid_config::{ColoredConfig, Entity, EntityIterator, Fault, Position, SpannedConfig};
use grid_records::{FromText, VecRecords};
use grid_records_traits::records::{ExactRecords, RecordColumns, RecordTexts};
use std::alloc::Global;
use std::mem;
use tabled_steps::CellOption;

/// How many columns or rows each of some cells takes.
#[derive(Clone, Copy, Debug)]
pub struct Span {
    size: usize,
    of: TrackKind,
}

// What a cell takes several of.
#[derive(Clone, Copy, Debug)]
enum TrackKind {
    Columns,
    Rows,
}

impl Span {
    /// A span of `n` columns.
    pub fn column(n: usize) -> Span
        ensures size { span_size result ≡ n }
        ensures extent { span_extent result ≡ with_columns n }
    {
        Span {
            size: n,
            of: TrackKind::Columns,
        }
    }

    /// A span of `n` rows.
    pub fn row(n: usize) -> Span
        ensures size { span_size result ≡ n }
        ensures extent { span_extent result ≡ with_rows n }
    {
        Span {
            size: n,
            of: TrackKind::Rows,
        }
    }

    // Sets it at this place. Fails only where allocation fails, and then nothing has changed: never for a size
    // of 1, and never for a cell that has a span.
    fn set(self, config: &mut SpannedConfig, pos: Position) -> Result<(), Fault>
        requires { 0 < span_size self }
        ensures set { OnOk result (look_of config.new ≡ spanned_at self (pos ∷ []) (look_of config.old)) }
        ensures kept { OnErr result (look_of config.new ≡ look_of config.old) }
        ensures fault { IfErr result (λ fault. fault ≡ Memory) }
        ensures one { span_size self ≡ 1 → IsOk result }
        ensures again { SpansSeveral config.old.spans pos → IsOk result }
    {
        match self.of {
            TrackKind::Columns => config.set_column_span(pos, self.size),
            TrackKind::Rows => config.set_row_span(pos, self.size),
        }
    }

    // Sets it at this place, where a table of `rows` rows and `columns` columns has it. Fails only where
    // allocation fails, and then nothing has changed. It never fails outside the table, for a size of 1, or for
    // a cell that has a span.
    fn set_inside(
        self,
        config: &mut SpannedConfig,
        pos: Position,
        rows: usize,
        columns: usize,
    ) -> Result<(), Fault>
        requires { 0 < span_size self }
        ensures set { OnOk result (look_of config.new ≡ with_extents (span_extent self) (OneCell pos.row pos.col) rows columns (look_of config.old)) }
        ensures kept { OnErr result (look_of config.new ≡ look_of config.old) }
        ensures fault { IfErr result (λ fault. fault ≡ Memory) }
        ensures one { span_size self ≡ 1 → IsOk result }
        ensures again { SpansSeveral config.old.spans pos → IsOk result }
        ensures outside { (rows ≤ pos.row) ⊎ (columns ≤ pos.col) → IsOk result }
    {
        if pos.row < rows && pos.col < columns {
            self.set(config, pos)
        } else {
            Ok(())
        }
    }

    // Sets it at each of these places. Fails only where allocation fails, and then perhaps at some.
    fn set_all(self, config: &mut SpannedConfig, places: EntityIterator) -> Result<(), Fault>
        requires { 0 < span_size self }
        ensures set { OnOk result (look_of config.new ≡ spanned_at self places (look_of config.old)) }
        ensures fault { IfErr result (λ fault. fault ≡ Memory) }
    {
        for pos in places {
            self.set(config, pos)?;
        }
        Ok(())
    }

    // A copy of the settings, with it at each of these places. Fails only where allocation fails.
    fn copied(
        self,
        alloc: Global,
        config: &SpannedConfig,
        places: EntityIterator,
    ) -> Result<SpannedConfig, Fault>
        requires { 0 < span_size self }
        ensures look { IfOk result (λ copy. look_of copy ≡ spanned_at self places (look_of config.now)) }
        ensures fault { IfErr result (λ fault. fault ≡ Memory) }
    {
        let mut copy = config.clone(alloc)?;
        match self.set_all(&mut copy, places) {
            Ok(()) => Ok(copy),
            Err(fault) => {
                let_go(copy);
                Err(fault)
            }
        }
    }
}

// Drops a value that has many parts: dropping it in place would be proved part by part.
fn let_go<T: Drop>(_value: T) {}

/// Sets how many columns or rows each of the cells takes that the table has. Refused as `Spans` for 0, and
/// as `Memory` where allocation fails. The span of one cell is set in place. It is never refused as `Memory`
/// where the table has no such cell, the size is 1, or the cell has a span. The spans of several cells are set
/// in a copy of the settings, which then takes their place.
impl<T: FromText> CellOption<VecRecords<T>, ColoredConfig> for Span {
    ghost step = { λ span at state outcome. spanning span at state ≡ outcome };

    ghost hint = { λ _. Some EveryCell };

    fn change(
        &self,
        alloc: Global,
        records: &mut VecRecords<T>,
        cfg: &mut ColoredConfig,
        entity: Entity,
    ) -> Result<(), Fault>
        ensures zero { span_size self.now ≡ 0 → result ≡ Err BadSpan }
        ensures one { (row col : ℕ) → entity ≡ OneCell row col → span_size self.now ≡ 1 → IsOk result }
        ensures again { (row col : ℕ) → entity ≡ OneCell row col → span_size self.now ≢ 0 → SpansSeveral cfg.old.settings.spans (record { row = row; col = col }) → IsOk result }
        ensures outside { (row col : ℕ) → entity ≡ OneCell row col → span_size self.now ≢ 0 →
            (length (⟦<VecRecords<T> as RecordTexts>⟧.rows records.old) ≤ row)
            ⊎ (⟦<VecRecords<T> as RecordColumns>⟧.columns records.old ≤ col) → IsOk result }
        ensures step { (sizes : Stored) → StepsTo (spanning self.now entity) result
            (colored_state (⟦<VecRecords<T> as RecordTexts>⟧.rows records.old) cfg.old sizes) (colored_state (⟦<VecRecords<T> as RecordTexts>⟧.rows records.new) cfg.new sizes) }
    {
        if self.size == 0 {
            return Err(Fault::Spans);
        }
        let (rows, columns) = (records.count_rows(), records.count_columns());
        if let Entity::Cell(row, col) = entity {
            return self.set_inside(cfg.spanned_mut(), Position::new(row, col), rows, columns);
        }
        let config = self.copied(alloc, cfg.spanned(), entity.iter(rows, columns))?;
        let_go(mem::replace(cfg.spanned_mut(), config));
        Ok(())
    }

    fn hint_change(&self) -> Option<Entity> {
        Some(Entity::Global)
    }
}
