//! The widths that a table's cells have for their texts.
ghost use Rattle.std.specs.Prelude.{◌≡◌, ◌<◌, ◌≤◌, ◌-◌, ◌^◌, drop, length, nat_le, sum, take};
ghost use Rattle.grid_config.specs.Looks.{look_of};
ghost use Rattle.tabled_width.specs.WholeTables.Rooms.{boundaries_between, cell_columns as columns_of_cell, in_room, text_room};
ghost use Rattle.tabled_width.specs.WholeTables.Widths.{width_with_columns};

use grid_config::{Position, SpannedConfig};
use grid_records::Text;
use grid_records_traits::records::PeekableRecords;
use std::alloc::{AllocError, Global};
use tabled_steps::TextChange;
use tabled_width_texts::RoomChange;

/// Changes each text of a table in the width that its cell leaves to it, where there is such a width.
#[derive(Drop)]
pub(crate) struct InRooms<'a, X> {
    pub(crate) cfg: &'a SpannedConfig,
    pub(crate) least: &'a [usize],
    pub(crate) widths: &'a [usize],
    pub(crate) change: &'a X,
    ghost fits: { width_with_columns (look_of cfg.now) widths.now < 2 ^ 64 },
    ghost leasts: { length least.now ≡ length widths.now },
}

impl<'a, X: RoomChange> TextChange for InRooms<'a, X> {
    ghost changed = { λ it place text. in_room (X.fitted it.change.now) text (text_room (look_of it.cfg.now) it.least.now it.widths.now place) };

    fn change<R: PeekableRecords>(
        &self,
        alloc: Global,
        records: &R,
        pos: Position,
    ) -> Result<Option<Text>, AllocError> {
        match room(self.cfg, self.least, self.widths, pos) {
            Some(room) => self.change.fit(alloc, records, pos, room),
            None => Ok(None),
        }
    }
}

// The columns that a cell's paddings leave to its text. A hidden cell has none, nor has one that is
// narrower than its least.
fn room(cfg: &SpannedConfig, least: &[usize], widths: &[usize], pos: Position) -> Option<usize>
    requires range { width_with_columns (look_of cfg.now) widths.now < 2 ^ 64 }
    requires leasts { length least.now ≡ length widths.now }
    ensures { result ≡ text_room (look_of cfg.now) least.now widths.now pos }
{
    let taken = cell_columns(cfg, widths.len(), pos);
    let columns = sum_of(columns_from(widths, pos.col, taken));
    if cfg.owner(pos) != pos || !is_at_least(columns, columns_from(least, pos.col, taken)) {
        return None;
    }
    let width = columns + boundaries_between(cfg, widths.len(), pos.col, taken);
    let padding = cfg.get_padding(pos);
    Some(
        width
            .saturating_sub(padding.left.size)
            .saturating_sub(padding.right.size),
    )
}

// How many of `columns` columns a cell takes: its span counts only inside the table.
fn cell_columns(cfg: &SpannedConfig, columns: usize, pos: Position) -> usize
    ensures { result ≡ columns_of_cell (look_of cfg.now) columns pos }
{
    let span = cfg.get_column_span(pos).unwrap_or(1);
    span.min(columns.saturating_sub(pos.col))
}

// `count` widths from one on.
fn columns_from(widths: &[usize], first: usize, count: usize) -> &[usize]
    requires { count ≤ length widths.now - first }
    ensures { result.now ≡ take count (drop first widths.now) }
{
    if count == 0 {
        return &[];
    }
    &widths[first..first + count]
}

// How many of the boundaries between `count` columns from one on are there.
fn boundaries_between(cfg: &SpannedConfig, columns: usize, first: usize, count: usize) -> usize
    requires { count ≤ columns - first }
    ensures { result ≡ boundaries_between (look_of cfg.now) columns first count }
{
    if count > 1 && cfg.has_vertical(first + 1, columns) {
        count - 1
    } else {
        0
    }
}

// The sum of the widths.
fn sum_of(widths: &[usize]) -> usize
    requires { sum widths.now < 2 ^ 64 }
    ensures { result ≡ sum widths.now }
{
    let mut sum = 0;
    for width in widths {
        sum += *width;
    }
    sum
}

// Whether so much is at least what the widths are together.
fn is_at_least(whole: usize, widths: &[usize]) -> bool
    ensures { result ≡ nat_le (sum widths.now) whole }
{
    let mut left = whole;
    for width in widths {
        if *width > left {
            return false;
        }
        left -= *width;
    }
    true
}
