//! Texts that are cut at a width.
ghost use Rattle.std.specs.Prelude.{◌≡◌, [], IfOk, IsOk, None, Some, false, length};
ghost use Rattle.std.specs.Cow.{IsOwnedStr, cow_str_bytes};
ghost use Rattle.grid_records_measure.specs.Cutting.{CutIsFront};
ghost use Rattle.grid_config_values.specs.declared.entity.Entity.TheVariants.{Global as EveryCell};
ghost use Rattle.tabled_size.specs.declared.dimension.suffix.SuffixLimit.TheVariants.{Cut as CutSuffix};
ghost use Rattle.tabled_size_wrap.specs.Bytes.{cut_at};
ghost use Rattle.tabled_steps.specs.Changes.{changing};
ghost use Rattle.tabled_steps.specs.States.{Steps, colored_state};
ghost use Rattle.tabled_width_texts.specs.Cutting.{truncating};
ghost use Rattle.tabled_width.specs.Options.{truncation};
ghost use Rattle.tabled_width.specs.WholeTables.Steps.{Measured};
ghost use Rattle.tabled_width.specs.WholeTables.Tables.{NarrowsTable};
ghost use Rattle.tabled_width_texts.specs.Cuts.{suffixed_cut_of};

use crate::table::narrow_table;
use crate::tables::change_cells;
use crate::width::Width;
use grid_config::{ColoredConfig, Entity, Fault};
use grid_records::{FromText, VecRecords};
use grid_records_measure::get_line_width;
use grid_records_traits::records::{RecordColumns, RecordTexts};
use std::alloc::{AllocError, Global};
use std::borrow::CowStr;
use tabled_size::{CompleteDimension, SuffixLimit};
use tabled_size_priority::{Peaker, PriorityNone};
use tabled_size_wrap::cut_styled;
use tabled_steps::{CellOption, Measurement, TableOption};
use tabled_width_texts::SuffixedCut;

/// Cuts the texts of a table, or of cells, so that it is, or they are, at most so wide, in columns of the
/// terminal. A suffix may come after a cut.
#[derive(Clone, Copy, Debug, PartialEq, Eq, PartialOrd, Ord)]
pub struct Truncate<'a, W = usize, P = PriorityNone> {
    width: W,
    suffix: &'a str,
    limit: SuffixLimit,
    multiline: bool,
    try_color: bool,
    priority: P,
}

impl Truncate<'static, (), ()> {
    /// The cut of the text at the width: `cut_styled`. A text without sequences whose cut lacks no column
    /// is borrowed; else it fails only where allocation fails.
    pub fn truncate<'t>(
        alloc: Global,
        text: &'t str,
        width: usize,
    ) -> Result<CowStr<'t>, AllocError>
        ensures bytes { IfOk result (λ out. cow_str_bytes out ≡ cut_at width text.now) }
        ensures answers { CutIsFront width text.now → IsOk result }
        ensures borrows { IfOk result (λ out. CutIsFront width text.now → ¬ (IsOwnedStr out)) }
    {
        cut_styled(alloc, text, width)
    }
}

impl<W> Truncate<'static, W> {
    /// At this width, without a suffix, as one text, and with the priority that takes columns one after
    /// the other.
    pub const fn new(width: W) -> Truncate<'static, W>
        ensures { truncation result ≡ record { width = width; cutting = record { suffix = []; limit = CutSuffix; multiline = false; try_color = false }; priority = 0 } }
    {
        Truncate {
            width,
            suffix: "",
            limit: SuffixLimit::Cut,
            multiline: false,
            try_color: false,
            priority: PriorityNone::new(),
        }
    }
}

impl<'a, W, P> Truncate<'a, W, P> {
    /// The same with this suffix after a cut; an empty one counts as none. Does not allocate.
    pub fn suffix<'b>(self, suffix: &'b str) -> Truncate<'b, W, P>
        ensures { truncation result ≡ record (truncation self.entry) { cutting = record (truncation self.entry).cutting { suffix = suffix.now } } }
    {
        Truncate {
            width: self.width,
            suffix,
            limit: self.limit,
            multiline: self.multiline,
            try_color: self.try_color,
            priority: self.priority,
        }
    }

    /// The same with this left of a text that is given no more columns than the suffix takes.
    pub fn suffix_limit(self, limit: SuffixLimit) -> Truncate<'a, W, P>
        ensures { truncation result ≡ record (truncation self.entry) { cutting = record (truncation self.entry).cutting { limit = limit } } }
    {
        Truncate {
            width: self.width,
            suffix: self.suffix,
            limit,
            multiline: self.multiline,
            try_color: self.try_color,
            priority: self.priority,
        }
    }

    /// The same with each line of a text cut by itself, also one that fits, or the text as one.
    pub fn multiline(self, on: bool) -> Truncate<'a, W, P>
        ensures { truncation result ≡ record (truncation self.entry) { cutting = record (truncation self.entry).cutting { multiline = on } } }
    {
        Truncate {
            width: self.width,
            suffix: self.suffix,
            limit: self.limit,
            multiline: on,
            try_color: self.try_color,
            priority: self.priority,
        }
    }

    /// The same with the suffix in the style of the last character that is kept, or as it is.
    pub fn suffix_try_color(self, on: bool) -> Truncate<'a, W, P>
        ensures { truncation result ≡ record (truncation self.entry) { cutting = record (truncation self.entry).cutting { try_color = on } } }
    {
        Truncate {
            width: self.width,
            suffix: self.suffix,
            limit: self.limit,
            multiline: self.multiline,
            try_color: on,
            priority: self.priority,
        }
    }

    /// The same with this priority of the columns of a table, which an option of cells doesn't look at.
    pub fn priority<PP: Peaker>(self, priority: PP) -> Truncate<'a, W, PP>
    where
        P: Drop,
        ensures { truncation result ≡ record { width = (truncation self.entry).width; cutting = (truncation self.entry).cutting; priority = priority } }
    {
        Truncate {
            width: self.width,
            suffix: self.suffix,
            limit: self.limit,
            multiline: self.multiline,
            try_color: self.try_color,
            priority,
        }
    }

    // How it cuts texts.
    fn cut(&self) -> SuffixedCut<'a>
        ensures { suffixed_cut_of result ≡ (truncation self.now).cutting }
    {
        SuffixedCut {
            suffix: self.suffix,
            taken: get_line_width(self.suffix),
            limit: self.limit,
            multiline: self.multiline,
            try_color: self.try_color,
        }
    }
}

/// Cuts each cell that measures more than the width. Refused as the measurement is, and as `Memory`
/// where allocation fails.
impl<'a, T: FromText, W: Measurement<Width>, P> CellOption<VecRecords<T>, ColoredConfig>
    for Truncate<'a, W, P> {
    ghost step = { λ option at. Measured (W.measures (truncation option).width) (λ width state outcome. changing (λ _. truncating (truncation option).cutting width) at state ≡ outcome) };

    ghost hint = { λ _. Some EveryCell };

    fn change(
        &self,
        alloc: Global,
        records: &mut VecRecords<T>,
        cfg: &mut ColoredConfig,
        entity: Entity,
    ) -> Result<(), Fault> {
        let width = self.width.measure(alloc, records, cfg.spanned())?;
        change_cells(alloc, records, entity, width, &self.cut())
    }

    fn hint_change(&self) -> Option<Entity> {
        Some(Entity::Global)
    }
}

/// Where the table takes more columns than the width, with its margins, its columns shrink by the
/// priority. Each text that measures more than its column, or its span, has beside its paddings is cut to
/// that. A hidden cell stays, and one that is narrower than its least. The sizes that are
/// not kept are estimated and kept, the heights as long as the texts stay. Nothing is done without rows or
/// columns. Refused as the measurement is, as `Range` where a size or the total passes `usize::MAX`, and
/// as `Memory` where allocation fails.
impl<'a, T: FromText, W: Measurement<Width> + Drop, P: Peaker + Drop> TableOption<
    VecRecords<T>,
    ColoredConfig,
    CompleteDimension,
> for Truncate<'a, W, P> {
    ghost step = { λ option. NarrowsTable P.shrinks (truncation option).priority (truncating (truncation option).cutting) (W.measures (truncation option).width) };

    ghost hint = { λ _. None };

    fn change(
        self,
        alloc: Global,
        records: &mut VecRecords<T>,
        cfg: &mut ColoredConfig,
        dims: &mut CompleteDimension,
    ) -> Result<(), Fault>
        ensures no_rows { length (⟦<VecRecords<T> as RecordTexts>⟧.rows records.old) ≡ 0 → IsOk result }
        ensures no_columns { ⟦<VecRecords<T> as RecordColumns>⟧.columns records.old ≡ 0 → IsOk result }
        ensures step { Steps (NarrowsTable P.shrinks (truncation self.entry).priority (truncating (truncation self.entry).cutting) (W.measures (truncation self.entry).width)) result
            (colored_state (⟦<VecRecords<T> as RecordTexts>⟧.rows records.old) cfg.old dims.old) (colored_state (⟦<VecRecords<T> as RecordTexts>⟧.rows records.new) cfg.new dims.new) }
    {
        let cut = self.cut();
        let width = self.width;
        let priority = self.priority;
        narrow_table(alloc, records, cfg.spanned(), dims, &width, priority, &cut)
    }

    fn hint_change(&self) -> Option<Entity> {
        None
    }
}
