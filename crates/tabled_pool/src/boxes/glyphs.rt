//! The glyphs of a pool's lines, and of the places where they cross.
ghost use Rattle.std.specs.Prelude.{◌≡◌, ◌<◌, length};
ghost use Rattle.std.specs.Option.{option_map};
ghost use Rattle.grid_config.specs.Colors.{color_of};
ghost use Rattle.grid_config.specs.Looks.{look_of};
ghost use Rattle.grid_config_values.specs.Glyphs.{along_column, crossing, in_row};
ghost use Rattle.tabled_pool.specs.Boxes.Crossings.{crossing_glyph, glyph, kind_between, horizontal_glyph, upright_glyph};
ghost use Rattle.tabled_pool.specs.Boxes.Glyphs.{around_of, found_shape};
ghost use Rattle.tabled_pool.specs.Boxes.Canvas.{kind_of};

use crate::boxes::marks::{Mark, mark_at, mark_before};
use crate::boxes::part::Edge;
use grid_config::{ANSIBuf, ANSIStr, SpannedConfig};
use grid_config_values::Borders;

/// What is in the columns of the line above, of a line itself, and of the line below.
#[derive(Drop)]
pub(crate) struct Around {
    pub(crate) above: Vec<Mark>,
    pub(crate) here: Vec<Mark>,
    pub(crate) below: Vec<Mark>,
}

/// A glyph of one column, and whether it is coloured as one with its neighbours.
#[derive(Clone, Copy)]
pub(crate) struct Glyph<'a> {
    pub(crate) character: char,
    pub(crate) color: Option<ANSIStr<'a>>,
    pub(crate) joins: bool,
}

/// The glyph of an upright line in column `x`.
pub(crate) fn upright_glyph<'a>(
    cfg: &'a SpannedConfig,
    around: &Around,
    edge: Edge,
    x: usize,
) -> Glyph<'a>
    requires { x < length around.now.here.items }
    ensures { found_shape result ≡ upright_glyph (look_of cfg.now) (around_of around.now) (kind_of edge) x }
{
    let left = mark_before(&around.here, x).is_flat();
    let right = mark_at(&around.here, x + 1).is_flat();
    if left || right {
        let up = mark_at(&around.above, x).is_line();
        let down = mark_at(&around.below, x).is_line();
        return crossing_glyph(cfg, up, down, left, right);
    }
    glyph_or_space(
        in_row(cfg.get_borders(), edge),
        in_row(cfg.get_borders_color(), edge),
        false,
    )
}

/// The glyph of a horizontal line in column `x`.
pub(crate) fn horizontal_glyph<'a>(
    cfg: &'a SpannedConfig,
    around: &Around,
    edge: Edge,
    x: usize,
) -> Glyph<'a>
    requires { x < length around.now.here.items }
    ensures { found_shape result ≡ horizontal_glyph (look_of cfg.now) (around_of around.now) (kind_of edge) x }
{
    let up = mark_at(&around.above, x).is_up();
    let down = mark_at(&around.below, x).is_up();
    if up || down {
        let left = mark_before(&around.here, x).is_line();
        let right = mark_at(&around.here, x + 1).is_line();
        return crossing_glyph(cfg, up, down, left, right);
    }
    glyph_or_space(
        along_column(cfg.get_borders(), edge),
        along_column(cfg.get_borders_color(), edge),
        true,
    )
}

// The glyph of a place from which lines go on to these sides.
fn crossing_glyph<'a>(
    cfg: &'a SpannedConfig,
    up: bool,
    down: bool,
    left: bool,
    right: bool,
) -> Glyph<'a>
    ensures { found_shape result ≡ crossing_glyph (look_of cfg.now) up down left right }
{
    let row = edge_between(up, down);
    let column = edge_between(left, right);
    glyph_or_space(
        crossing(cfg.get_borders(), row, column),
        crossing(cfg.get_borders_color(), row, column),
        true,
    )
}

// This glyph, or a space where none is set.
fn glyph_or_space<'a>(
    character: &Option<char>,
    color: &'a Option<ANSIBuf>,
    joins: bool,
) -> Glyph<'a>
    ensures { found_shape result ≡ glyph character.now color.now joins }
{
    Glyph {
        character: character.unwrap_or(' '),
        color: borrowed(color),
        joins,
    }
}

// The colour, borrowed.
fn borrowed<'a>(color: &'a Option<ANSIBuf>) -> Option<ANSIStr<'a>>
    ensures { option_map color_of result ≡ color.now }
{
    match color {
        Some(color) => Some(color.as_ref()),
        None => None,
    }
}

// Which boundary it is, by whether a line goes on before it and after it.
fn edge_between(before: bool, behind: bool) -> Edge
    ensures { kind_of result ≡ kind_between before behind }
{
    if !before {
        Edge::First
    } else if !behind {
        Edge::Last
    } else {
        Edge::Between
    }
}

// What is on an upright line.
fn in_row<T>(borders: &Borders<T>, edge: Edge) -> &Option<T>
    ensures { result.now ≡ in_row borders.now (kind_of edge) }
{
    match edge {
        Edge::First => &borders.left,
        Edge::Between => &borders.vertical,
        Edge::Last => &borders.right,
    }
}

// What is on a horizontal line.
fn along_column<T>(borders: &Borders<T>, edge: Edge) -> &Option<T>
    ensures { result.now ≡ along_column borders.now (kind_of edge) }
{
    match edge {
        Edge::First => &borders.top,
        Edge::Between => &borders.horizontal,
        Edge::Last => &borders.bottom,
    }
}

// What is where a horizontal line meets an upright one.
fn crossing<T>(borders: &Borders<T>, row: Edge, column: Edge) -> &Option<T>
    ensures { result.now ≡ crossing borders.now (kind_of row) (kind_of column) }
{
    match (row, column) {
        (Edge::First, Edge::First) => &borders.top_left,
        (Edge::First, Edge::Between) => &borders.top_intersection,
        (Edge::First, Edge::Last) => &borders.top_right,
        (Edge::Between, Edge::First) => &borders.left_intersection,
        (Edge::Between, Edge::Between) => &borders.intersection,
        (Edge::Between, Edge::Last) => &borders.right_intersection,
        (Edge::Last, Edge::First) => &borders.bottom_left,
        (Edge::Last, Edge::Between) => &borders.bottom_intersection,
        (Edge::Last, Edge::Last) => &borders.bottom_right,
    }
}
