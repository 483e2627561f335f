//! The settings that the sizes of a table follow from.
ghost use Rattle.std.specs.Prelude.{◌≡◌, ◌<◌, ◌^◌, IfSome};
ghost use Rattle.grid_config.specs.Compact.{compact_of};
ghost use Rattle.grid_config.specs.Spans.{extent_at};
ghost use Rattle.grid_records_estimate.specs.Alike.{HasOnePadding};
ghost use Rattle.grid_records_estimate.specs.Sizing.{TableSizing, around_height, around_width, compact_sizing, is_visible, sizing_of};

use grid_config::{Borders, CompactConfig, Indent, Position, Sides, SpannedConfig};

/// The settings that the sizes of a table follow from. The trait is private: there are no settings
/// but the two below.
pub trait Sizing {
    /// What the sizes follow from.
    ghost sizing: { Self → TableSizing };

    /// Whether the rectangle of no other cell holds this place.
    fn is_visible(&self, pos: Position) -> bool
        ensures { result ≡ is_visible (sizing self.now).spans pos };

    /// How many columns the paddings at the left and right of a cell take.
    fn across(&self, pos: Position) -> u128
        ensures sum { result ≡ around_width ((sizing self.now).padding pos) }
        ensures small { result < 2 ^ 65 };

    /// How many lines the paddings at the top and bottom of a cell take.
    fn along(&self, pos: Position) -> u128
        ensures sum { result ≡ around_height ((sizing self.now).padding pos) }
        ensures small { result < 2 ^ 65 };

    /// How many columns a cell takes.
    fn columns(&self, pos: Position) -> usize
        ensures value { result ≡ (extent_at (sizing self.now).spans pos).columns }
        ensures some { 0 < result };

    /// How many rows a cell takes.
    fn rows(&self, pos: Position) -> usize
        ensures value { result ≡ (extent_at (sizing self.now).spans pos).rows }
        ensures some { 0 < result };

    /// The padding of all cells, where they are known to have one, and none spans several columns or
    /// rows; `None` says nothing about the cells.
    fn one_padding(&self) -> Option<&Sides<Indent>>
        ensures { IfSome result (λ padding. HasOnePadding (sizing self.now) padding.now) }
    {
        None
    }

    /// The margin round the table.
    fn margin(&self) -> &Sides<Indent>
        ensures { result.now ≡ (sizing self.now).margin };

    /// The glyphs of the table's boundaries.
    fn borders(&self) -> &Borders<char>
        ensures { result.now ≡ (sizing self.now).borders };
}

impl Sizing for SpannedConfig {
    ghost sizing = { sizing_of };

    fn is_visible(&self, pos: Position) -> bool {
        self.is_cell_visible(pos)
    }

    fn across(&self, pos: Position) -> u128 {
        left_and_right(self.get_padding(pos))
    }

    fn along(&self, pos: Position) -> u128 {
        top_and_bottom(self.get_padding(pos))
    }

    fn columns(&self, pos: Position) -> usize {
        self.get_column_span(pos).unwrap_or(1)
    }

    fn rows(&self, pos: Position) -> usize {
        self.get_row_span(pos).unwrap_or(1)
    }

    fn one_padding(&self) -> Option<&Sides<Indent>> {
        if !self.has_no_spans() || !self.is_uniform_but_alignment() {
            return None;
        }
        Some(self.get_padding(Position { row: 0, col: 0 }))
    }

    fn margin(&self) -> &Sides<Indent> {
        self.get_margin()
    }

    fn borders(&self) -> &Borders<char> {
        self.get_borders()
    }
}

impl Sizing for CompactConfig {
    ghost sizing = { λ config. compact_sizing (compact_of config) };

    fn is_visible(&self, _pos: Position) -> bool {
        true
    }

    fn across(&self, _pos: Position) -> u128 {
        left_and_right(self.get_padding())
    }

    fn along(&self, _pos: Position) -> u128 {
        top_and_bottom(self.get_padding())
    }

    fn columns(&self, _pos: Position) -> usize {
        1
    }

    fn rows(&self, _pos: Position) -> usize {
        1
    }

    fn margin(&self) -> &Sides<Indent> {
        self.get_margin()
    }

    fn borders(&self) -> &Borders<char> {
        self.get_borders()
    }
}

/// How many columns the paddings at the left and right take.
pub(crate) fn left_and_right(padding: &Sides<Indent>) -> u128
    ensures sum { result ≡ around_width padding.now }
    ensures small { result < 2 ^ 65 }
{
    padding.left.size as u128 + padding.right.size as u128
}

/// How many lines the paddings at the top and bottom take.
pub(crate) fn top_and_bottom(padding: &Sides<Indent>) -> u128
    ensures sum { result ≡ around_height padding.now }
    ensures small { result < 2 ^ 65 }
{
    padding.top.size as u128 + padding.bottom.size as u128
}
