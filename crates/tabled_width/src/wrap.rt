//! Texts that are wrapped at a width.
ghost use Rattle.std.specs.Prelude.{◌≡◌, IfOk, IsOk, Some, false, length, string_bytes};
ghost use Rattle.grid_config_values.specs.declared.entity.Entity.TheVariants.{Global as EveryCell, Row as OneRow};
ghost use Rattle.tabled_size_wrap.specs.Bytes.{wrapped_text};
ghost use Rattle.tabled_steps.specs.Changes.{changing};
ghost use Rattle.tabled_steps.specs.States.{Steps, colored_state};
ghost use Rattle.tabled_width_texts.specs.WrappedOrCut.{wrapping_each, wrapping_wider};
ghost use Rattle.tabled_width.specs.Options.{wrapping};
ghost use Rattle.tabled_width.specs.WholeTables.Steps.{Measured};
ghost use Rattle.tabled_width.specs.WholeTables.Tables.{NarrowsTable};

use crate::table::narrow_table;
use crate::tables::change_cells;
use crate::width::Width;
use grid_config::{ColoredConfig, Entity, Fault};
use grid_records::{FromText, VecRecords};
use grid_records_traits::records::{RecordColumns, RecordTexts};
use std::alloc::{AllocError, Global};
use tabled_size::CompleteDimension;
use tabled_size_priority::{Peaker, PriorityNone};
use tabled_size_wrap::wrap_styled;
use tabled_steps::{CellOption, Measurement, TableOption};
use tabled_width_texts::{WrappingEach, WrappingWider};

/// Wraps the texts of a table, or of cells, so that it is, or they are, at most so wide, in columns of the
/// terminal.
#[derive(Clone, Debug, Drop)]
pub struct Wrap<W = usize, P = PriorityNone> {
    width: W,
    keep_words: bool,
    priority: P,
}

impl Wrap<(), ()> {
    /// The text with its lines wrapped at the width: `wrap_styled`. It fails only where allocation fails.
    pub fn wrap(
        alloc: Global,
        text: &str,
        width: usize,
        keep_words: bool,
    ) -> Result<String, AllocError>
        ensures { IfOk result (λ out. string_bytes out ≡ wrapped_text width keep_words text.now) }
    {
        wrap_styled(alloc, text, width, keep_words)
    }
}

impl<W> Wrap<W> {
    /// At this width, with words divided, and the priority that takes columns one after the other.
    pub fn new(width: W) -> Wrap<W>
        ensures { wrapping result ≡ record { width = width; keep_words = false; priority = 0 } }
    {
        Wrap {
            width,
            keep_words: false,
            priority: PriorityNone::new(),
        }
    }
}

impl<W, P> Wrap<W, P> {
    /// The same with words kept whole that fit, or not.
    pub fn keep_words(self, on: bool) -> Wrap<W, P>
        ensures { wrapping result ≡ record (wrapping self) { keep_words = on } }
    {
        Wrap {
            width: self.width,
            keep_words: on,
            priority: self.priority,
        }
    }

    /// The same with this priority of the columns of a table, which an option of cells doesn't look at.
    pub fn priority<PP: Peaker>(self, priority: PP) -> Wrap<W, PP>
    where
        P: Drop,
        ensures { wrapping result ≡ record { width = (wrapping self).width; keep_words = (wrapping self).keep_words; priority = priority } }
    {
        Wrap {
            width: self.width,
            keep_words: self.keep_words,
            priority,
        }
    }
}

/// Wraps each cell that measures more than the width. Refused as the measurement is, and as
/// `Memory` where allocation fails.
impl<T: FromText, W: Measurement<Width>, P> CellOption<VecRecords<T>, ColoredConfig>
    for Wrap<W, P> {
    ghost step = { λ option at. Measured (W.measures (wrapping option).width) (λ width state outcome. changing (λ _. wrapping_wider (wrapping option).keep_words width) at state ≡ outcome) };

    ghost hint = { λ _. Some EveryCell };

    fn change(
        &self,
        alloc: Global,
        records: &mut VecRecords<T>,
        cfg: &mut ColoredConfig,
        entity: Entity,
    ) -> Result<(), Fault> {
        let width = self.width.measure(alloc, records, cfg.spanned())?;
        let change = WrappingWider {
            keep_words: self.keep_words,
        };
        change_cells(alloc, records, entity, width, &change)
    }

    fn hint_change(&self) -> Option<Entity> {
        Some(Entity::Global)
    }
}

/// Where the table takes more columns than the width, with its margins, its columns shrink by the
/// priority. Each text is wrapped in what its column, or its span, has beside its paddings. A
/// hidden cell stays, and one that is narrower than its least. The sizes that are not kept are estimated,
/// and the widths are kept; the hint clears the heights. Nothing else is done without rows or columns.
/// Refused as the measurement is, as `Range` where a size or the total passes `usize::MAX`, and as `Memory`
/// where allocation fails.
impl<T: FromText, W: Measurement<Width> + Drop, P: Peaker + Drop> TableOption<
    VecRecords<T>,
    ColoredConfig,
    CompleteDimension,
> for Wrap<W, P> {
    ghost step = { λ option. NarrowsTable P.shrinks (wrapping option).priority (wrapping_each (wrapping option).keep_words) (W.measures (wrapping option).width) };

    ghost hint = { λ _. Some (OneRow 0) };

    fn change(
        self,
        alloc: Global,
        records: &mut VecRecords<T>,
        cfg: &mut ColoredConfig,
        dims: &mut CompleteDimension,
    ) -> Result<(), Fault>
        ensures no_rows { length (⟦<VecRecords<T> as RecordTexts>⟧.rows records.old) ≡ 0 → IsOk result }
        ensures no_columns { ⟦<VecRecords<T> as RecordColumns>⟧.columns records.old ≡ 0 → IsOk result }
        ensures step { Steps (NarrowsTable P.shrinks (wrapping self).priority (wrapping_each (wrapping self).keep_words) (W.measures (wrapping self).width)) result
            (colored_state (⟦<VecRecords<T> as RecordTexts>⟧.rows records.old) cfg.old dims.old) (colored_state (⟦<VecRecords<T> as RecordTexts>⟧.rows records.new) cfg.new dims.new) }
    {
        let change = WrappingEach {
            keep_words: self.keep_words,
        };
        let width = self.width;
        let priority = self.priority;
        narrow_table(
            alloc,
            records,
            cfg.spanned(),
            dims,
            &width,
            priority,
            &change,
        )
    }

    fn hint_change(&self) -> Option<Entity> {
        Some(Entity::Row(0))
    }
}
