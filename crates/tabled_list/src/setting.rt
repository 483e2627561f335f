//! One setting of a table.
ghost use Rattle.std.specs.Prelude.{◌≡◌, IfErr, IfOk};
ghost use Rattle.grid_config_values.specs.declared.fault.Fault.TheVariants.{Memory};
ghost use Rattle.tabled_list.specs.Settings.{HasPriority, IsSetter, SetsCells, SizesCells, cell_setter, setting_step};
ghost use Rattle.tabled_steps.specs.States.{Steps};

use crate::adjustable::Adjustable;
use crate::amount::Amount;
use crate::by_choice::{TextCutting, by_choice, cutting};
use crate::cells::CellSetting;
use crate::colored::Colored;
use crate::span_at::{SpanAt, TrackKind};
use grid_config::{
    ANSIBuf, AlignmentHorizontal, AlignmentVertical, Borders, Entity, Fault, Indent, Position,
    Sides,
};
use grid_records::{FromText, VecRecords};
use grid_records_traits::records::RecordTexts;
use std::alloc::Global;
use tabled_height::{
    CellHeightIncrease, CellHeightLimit, HeightList, TableHeightIncrease, TableHeightLimit,
};
use tabled_options::{Margin, Padding, Style};
use tabled_size::SuffixLimit;
use tabled_size_priority::Choice;
use tabled_width::{Justify, MinWidth, WidthList, Wrap};

/// One setting of a table: the option, or the setter of the configuration, of its name with these values.
/// `at` names the cells; widths are in columns and heights in lines.
#[derive(Debug, Drop)]
pub enum Setting {
    /// `Wrap` on the table.
    Wrap {
        width: Amount,
        keep_words: bool,
        priority: Choice,
    },
    /// `Wrap` on cells.
    CellWrap {
        at: Entity,
        width: Amount,
        keep_words: bool,
    },
    /// `Truncate` on the table.
    Truncate {
        width: Amount,
        suffix: String,
        limit: SuffixLimit,
        multiline: bool,
        try_color: bool,
        priority: Choice,
    },
    /// `Truncate` on cells.
    CellTruncate {
        at: Entity,
        width: Amount,
        suffix: String,
        limit: SuffixLimit,
        multiline: bool,
        try_color: bool,
    },
    /// `MinWidth` on the table.
    MinWidth {
        width: Amount,
        priority: Choice,
    },
    /// `MinWidth` on cells.
    CellMinWidth {
        at: Entity,
        width: Amount,
        fill: char,
    },
    /// `Justify`.
    Justify {
        width: Amount,
    },
    /// `WidthList`.
    WidthList(Vec<usize>),
    /// `HeightList`.
    HeightList(Vec<usize>),
    /// `TableHeightIncrease`.
    HeightIncrease {
        height: Amount,
        priority: Choice,
    },
    /// `TableHeightLimit`.
    HeightLimit {
        height: Amount,
        priority: Choice,
    },
    /// `CellHeightIncrease` on cells.
    CellHeightIncrease {
        at: Entity,
        height: Amount,
    },
    /// `CellHeightLimit` on cells.
    CellHeightLimit {
        at: Entity,
        height: Amount,
    },
    /// `set_column_span`: how many columns the cell at this place takes.
    ColumnSpan(Position, usize),
    /// `set_row_span`: how many rows the cell at this place takes.
    RowSpan(Position, usize),
    /// `set_alignment_horizontal`.
    AlignHorizontal(Entity, AlignmentHorizontal),
    /// `set_alignment_vertical`.
    AlignVertical(Entity, AlignmentVertical),
    /// `set_line_alignment`.
    LineAlignment(Entity, bool),
    /// `set_trim_horizontal`.
    TrimHorizontal(Entity, bool),
    /// `set_trim_vertical`.
    TrimVertical(Entity, bool),
    /// `set_justification`.
    Justification(Entity, char),
    /// `set_padding`.
    Padding(Entity, Sides<Indent>),
    /// `set_margin`.
    Margin(Sides<Indent>),
    /// `set_borders`.
    Borders(Borders<char>),
    /// `set_color`: the colour of the cells' lines.
    Color(Entity, ANSIBuf),
}

impl Setting {
    /// Changes the table by this setting: one step, and after it the sizes that the hint of its option or
    /// setter clears are no longer kept. Refused as the option or the setter of its name is, and as `Memory` where
    /// allocation fails, and then nothing has changed.
    pub fn apply<T: FromText, S: Adjustable<VecRecords<T>>>(
        &self,
        alloc: Global,
        table: &mut S,
    ) -> Result<(), Fault>
        ensures { Steps (setting_step self.now) result (S.state table.old) (S.state table.new) }
    {
        match self {
            Setting::Wrap { .. }
            | Setting::Truncate { .. }
            | Setting::MinWidth { .. }
            | Setting::HeightIncrease { .. }
            | Setting::HeightLimit { .. } => self.size_table(table),
            Setting::Justify { width } => table.adjust(Justify::new(*width)),
            Setting::WidthList(list) => table.adjust(WidthList::new(copied(alloc, list)?)),
            Setting::HeightList(list) => table.adjust(HeightList::new(copied(alloc, list)?)),
            Setting::CellWrap { .. }
            | Setting::CellTruncate { .. }
            | Setting::CellMinWidth { .. }
            | Setting::CellHeightIncrease { .. }
            | Setting::CellHeightLimit { .. } => self.size_cells(table),
            _ => self.set(alloc, table),
        }
    }

    // The same of an option of the table that has a priority.
    fn size_table<T: FromText, S: Adjustable<VecRecords<T>>>(
        &self,
        table: &mut S,
    ) -> Result<(), Fault>
        requires { HasPriority self.now }
        ensures { Steps (setting_step self.now) result (S.state table.old) (S.state table.new) }
    {
        match self {
            Setting::Wrap {
                width,
                keep_words,
                priority,
            } => by_choice(table, Wrap::new(*width).keep_words(*keep_words), *priority),
            Setting::Truncate {
                width,
                suffix,
                limit,
                multiline,
                try_color,
                priority,
            } => by_choice(
                table,
                TextCutting {
                    width: *width,
                    suffix: suffix.as_str(),
                    limit: *limit,
                    multiline: *multiline,
                    try_color: *try_color,
                },
                *priority,
            ),
            Setting::MinWidth { width, priority } => {
                by_choice(table, MinWidth::new(*width), *priority)
            }
            Setting::HeightIncrease { height, priority } => {
                by_choice(table, TableHeightIncrease::new(*height), *priority)
            }
            Setting::HeightLimit { height, priority } => {
                by_choice(table, TableHeightLimit::new(*height), *priority)
            }
            _ => unreachable!(),
        }
    }

    // The same of an option of cells that is about their width or height.
    fn size_cells<T: FromText, S: Adjustable<VecRecords<T>>>(
        &self,
        table: &mut S,
    ) -> Result<(), Fault>
        requires { SizesCells self.now }
        ensures { Steps (setting_step self.now) result (S.state table.old) (S.state table.new) }
    {
        match self {
            Setting::CellWrap {
                at,
                width,
                keep_words,
            } => table.adjust_cells(*at, &Wrap::new(*width).keep_words(*keep_words)),
            Setting::CellTruncate {
                at,
                width,
                suffix,
                limit,
                multiline,
                try_color,
            } => table.adjust_cells(
                *at,
                &cutting(*width, suffix, *limit, *multiline, *try_color),
            ),
            Setting::CellMinWidth { at, width, fill } => {
                table.adjust_cells(*at, &MinWidth::new(*width).fill_with(*fill))
            }
            Setting::CellHeightIncrease { at, height } => {
                table.adjust_cells(*at, &CellHeightIncrease::new(*height))
            }
            Setting::CellHeightLimit { at, height } => {
                table.adjust_cells(*at, &CellHeightLimit::new(*height))
            }
            _ => unreachable!(),
        }
    }

    /// The same of a setter of the configuration, whatever the records are.
    pub(crate) fn set<R: RecordTexts, S: Adjustable<R>>(
        &self,
        alloc: Global,
        table: &mut S,
    ) -> Result<(), Fault>
        requires { IsSetter self.now }
        ensures { Steps (setting_step self.now) result (S.state table.old) (S.state table.new) }
    {
        match self {
            Setting::ColumnSpan(pos, n) => table.adjust(SpanAt {
                pos: *pos,
                size: *n,
                of: TrackKind::Columns,
            }),
            Setting::RowSpan(pos, n) => table.adjust(SpanAt {
                pos: *pos,
                size: *n,
                of: TrackKind::Rows,
            }),
            Setting::Padding(at, sides) => table.adjust_cells(*at, &Padding::from(*sides)),
            Setting::Margin(sides) => table.adjust(Margin::from(*sides)),
            Setting::Borders(borders) => table.adjust(Style::from(*borders)),
            Setting::Color(at, color) => table.adjust(Colored {
                at: *at,
                color: color.clone(alloc)?,
            }),
            _ => self.set_cells(table),
        }
    }

    // The same of a setter of cells that has no option of its own.
    fn set_cells<R: RecordTexts, S: Adjustable<R>>(&self, table: &mut S) -> Result<(), Fault>
        requires { SetsCells self.now }
        ensures { Steps (setting_step self.now) result (S.state table.old) (S.state table.new) }
    {
        let (at, setting) = self.cell_setting();
        table.adjust_cells(at, &setting)
    }

    // The cells of such a setter, and what it sets.
    fn cell_setting(&self) -> (Entity, CellSetting)
        requires { SetsCells self.now }
        ensures { self.now ≡ cell_setter result.0 result.1 }
    {
        match self {
            Setting::AlignHorizontal(at, value) => (*at, CellSetting::AlignHorizontal(*value)),
            Setting::AlignVertical(at, value) => (*at, CellSetting::AlignVertical(*value)),
            Setting::LineAlignment(at, on) => (*at, CellSetting::LineAlignment(*on)),
            Setting::TrimHorizontal(at, on) => (*at, CellSetting::TrimHorizontal(*on)),
            Setting::TrimVertical(at, on) => (*at, CellSetting::TrimVertical(*on)),
            Setting::Justification(at, fill) => (*at, CellSetting::Justification(*fill)),
            _ => unreachable!(),
        }
    }
}

// The same sizes. Fails only where allocation fails.
fn copied(alloc: Global, list: &[usize]) -> Result<Vec<usize>, Fault>
    ensures items { IfOk result (λ copy. copy.items ≡ list.now) }
    ensures fault { IfErr result (λ fault. fault ≡ Memory) }
{
    Ok(Vec::from_slice(alloc, list)?)
}
