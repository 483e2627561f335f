//! Values are drawn onto lines of parts, from left to right: each part is made once, and none is moved.
//! Drawing recurses once a level of a value.
ghost use Rattle.std.specs.Prelude.{◌≡◌, ◌+◌, ◌-◌, ◌≤◌, ◌<◌, ◌++◌, IfOk, OnOk, drop, length, slice_index_or};
ghost use Rattle.grid_config.specs.Looks.{look_of};
ghost use Rattle.tabled_pool.specs.Boxes.Boxes.{box_of, from_line, gap, has_horizontal, horizontal_before, text_box, upright_before};
ghost use Rattle.papergrid_picture.specs.Frame.{thickness};
ghost use Rattle.papergrid_picture.specs.Picture.{at};
ghost use Rattle.tabled_pool.specs.Boxes.Canvas.{Adds, BeginWith, IsInCanvas};
ghost use Rattle.tabled_pool.specs.Boxes.Sizes.{line_sizes, sizes_of, sizes_of_all};
ghost use Rattle.tabled_pool.specs.Boxes.Values.{Beside, Stacked, nesting_of, nestings_of};

use crate::boxes::canvas::{Pen, draw_upright, push_part};
use crate::boxes::part::{DrawnPart, Edge};
use crate::boxes::share::share;
use crate::boxes::size::Size;
use crate::boxes::text::{draw_no_text, draw_text};
use crate::boxes::value::TableValue;
use grid_config::SpannedConfig;
use grid_config_values::Position;
use std::alloc::AllocError;

/// Draws a value in a place in which it fits. Its sizes come first in `sizes`, and what comes after
/// them is returned. Fails only where allocation fails.
#[cycle(draw)]
pub(crate) fn draw<'s>(
    pen: &Pen<'_>,
    value: &TableValue,
    sizes: &'s [Size],
    top: usize,
    width: usize,
    height: usize,
    lines: &mut [Vec<DrawnPart>],
) -> Result<&'s [Size], AllocError>
    requires sizes { BeginWith (sizes_of (look_of pen.now.cfg.now) (nesting_of value.now)) sizes.now }
    requires room { IsInCanvas (box_of (look_of pen.now.cfg.now) (nesting_of value.now)) width height }
    requires inside { top + height ≤ length lines.old }
    ensures rest { IfOk result (λ rest. sizes.now ≡ sizes_of (look_of pen.now.cfg.now) (nesting_of value.now) ++ rest.now) }
    ensures lines { OnOk result (Adds lines.old lines.new (from_line top ((box_of (look_of pen.now.cfg.now) (nesting_of value.now)).line pen.now.takers width height))) }
{
    let own = first(sizes);
    let rest = behind_first(sizes);
    match value {
        TableValue::Cell(text) => draw_cell(pen, text, own.height, rest, top, width, height, lines),
        TableValue::Row(members) => draw_row(
            pen, members, own.width, rest, top, width, height, lines,
        ),
        TableValue::Column(members) => draw_column(
            pen, members, own.height, rest, top, width, height, lines,
        ),
    }
}

// Draws the members of a row side by side.
#[cycle(draw)]
fn draw_row<'s>(
    pen: &Pen<'_>,
    members: &Vec<TableValue>,
    own: usize,
    sizes: &'s [Size],
    top: usize,
    width: usize,
    height: usize,
    lines: &mut [Vec<DrawnPart>],
) -> Result<&'s [Size], AllocError>
    requires sizes { BeginWith (sizes_of_all (look_of pen.now.cfg.now) (nestings_of members.now.items)) sizes.now }
    requires own { own ≡ (box_of (look_of pen.now.cfg.now) (Beside (nestings_of members.now.items))).width }
    requires room { IsInCanvas (box_of (look_of pen.now.cfg.now) (Beside (nestings_of members.now.items))) width height }
    requires inside { top + height ≤ length lines.old }
    ensures rest { IfOk result (λ rest. sizes.now ≡ sizes_of_all (look_of pen.now.cfg.now) (nestings_of members.now.items) ++ rest.now) }
    ensures lines { OnOk result (Adds lines.old lines.new (from_line top ((box_of (look_of pen.now.cfg.now) (Beside (nestings_of members.now.items))).line pen.now.takers width height))) }
{
    if members.is_empty() {
        draw_no_text(pen, top, width, height, lines)?;
        return Ok(sizes);
    }
    let beyond = width - own;
    let n = members.len();
    let mut sizes = sizes;
    for (i, member) in members.iter().enumerate() {
        draw_upright_before(pen, i, top, height, lines)?;
        let own = first(sizes);
        let given = own.width + share(pen.takers.width(), beyond, n, i);
        sizes = draw(pen, member, sizes, top, given, height, lines)?;
    }
    Ok(sizes)
}

// Draws the members of a column one below the other.
#[cycle(draw)]
fn draw_column<'s>(
    pen: &Pen<'_>,
    members: &Vec<TableValue>,
    own: usize,
    sizes: &'s [Size],
    top: usize,
    width: usize,
    height: usize,
    lines: &mut [Vec<DrawnPart>],
) -> Result<&'s [Size], AllocError>
    requires sizes { BeginWith (sizes_of_all (look_of pen.now.cfg.now) (nestings_of members.now.items)) sizes.now }
    requires own { own ≡ (box_of (look_of pen.now.cfg.now) (Stacked (nestings_of members.now.items))).height }
    requires room { IsInCanvas (box_of (look_of pen.now.cfg.now) (Stacked (nestings_of members.now.items))) width height }
    requires inside { top + height ≤ length lines.old }
    ensures rest { IfOk result (λ rest. sizes.now ≡ sizes_of_all (look_of pen.now.cfg.now) (nestings_of members.now.items) ++ rest.now) }
    ensures lines { OnOk result (Adds lines.old lines.new (from_line top ((box_of (look_of pen.now.cfg.now) (Stacked (nestings_of members.now.items))).line pen.now.takers width height))) }
{
    if members.is_empty() {
        draw_no_text(pen, top, width, height, lines)?;
        return Ok(sizes);
    }
    let beyond = height - own;
    let n = members.len();
    let mut sizes = sizes;
    let mut at = top;
    for (i, member) in members.iter().enumerate() {
        at += draw_horizontal_before(pen, i, at, width, lines)?;
        let own = first(sizes);
        let given = own.height + share(pen.takers.height(), beyond, n, i);
        sizes = draw(pen, member, sizes, at, width, given, lines)?;
        at += given;
    }
    Ok(sizes)
}

// Draws a text that is so high by itself, of whose lines the sizes come first.
fn draw_cell<'s>(
    pen: &Pen<'_>,
    text: &str,
    own: usize,
    sizes: &'s [Size],
    top: usize,
    width: usize,
    height: usize,
    lines: &mut [Vec<DrawnPart>],
) -> Result<&'s [Size], AllocError>
    requires own { own ≡ (text_box (look_of pen.now.cfg.now) text.now).height }
    requires sizes { BeginWith (line_sizes text.now) sizes.now }
    requires room { IsInCanvas (text_box (look_of pen.now.cfg.now) text.now) width height }
    requires inside { top + height ≤ length lines.old }
    ensures rest { IfOk result (λ rest. sizes.now ≡ line_sizes text.now ++ rest.now) }
    ensures lines { OnOk result (Adds lines.old lines.new (from_line top ((text_box (look_of pen.now.cfg.now) text.now).line pen.now.takers width height))) }
{
    let count = count_lines(pen.cfg, own);
    draw_text(pen, text, &sizes[..count], top, width, height, lines)?;
    Ok(&sizes[count..])
}

// How many lines a text has that is so high with its paddings.
fn count_lines(cfg: &SpannedConfig, height: usize) -> usize
    ensures { result ≡ height - ((look_of cfg.now).padding (at 0 0)).top.size - ((look_of cfg.now).padding (at 0 0)).bottom.size }
{
    let padding = cfg.get_padding(Position::new(0, 0));
    height
        .saturating_sub(padding.top.size)
        .saturating_sub(padding.bottom.size)
}

// The size of the first value.
fn first(sizes: &[Size]) -> Size
    requires { 0 < length sizes.now }
    ensures { result ≡ slice_index_or sizes.now 0 result }
{
    sizes[0]
}

// The sizes after it.
fn behind_first(sizes: &[Size]) -> &[Size]
    requires { 0 < length sizes.now }
    ensures { result.now ≡ drop 1 sizes.now }
{
    &sizes[1..]
}

// Whether there is a line before member `i`.
fn has_gap(is_there: bool, i: usize) -> bool
    ensures { gap is_there i ≡ thickness result }
{
    i > 0 && is_there
}

// Draws the upright line before member `i` of a row, where there is one.
fn draw_upright_before(
    pen: &Pen<'_>,
    i: usize,
    top: usize,
    height: usize,
    lines: &mut [Vec<DrawnPart>],
) -> Result<(), AllocError>
    requires inside { top + height ≤ length lines.old }
    ensures { OnOk result (Adds lines.old lines.new (from_line top (upright_before (look_of pen.now.cfg.now) i height))) }
{
    if has_gap(pen.cfg.has_vertical(0, 1), i) {
        draw_upright(Edge::Between, top, height, lines)
    } else {
        Ok(())
    }
}

// Draws the horizontal line before member `i` of a column, where there is one; returns how many lines it takes.
fn draw_horizontal_before(
    pen: &Pen<'_>,
    i: usize,
    top: usize,
    width: usize,
    lines: &mut [Vec<DrawnPart>],
) -> Result<usize, AllocError>
    requires inside { top + gap (has_horizontal (look_of pen.now.cfg.now)) i ≤ length lines.old }
    ensures taken { IfOk result (λ taken. taken ≡ gap (has_horizontal (look_of pen.now.cfg.now)) i) }
    ensures lines { OnOk result (Adds lines.old lines.new (from_line top (horizontal_before (look_of pen.now.cfg.now) i width))) }
{
    if has_gap(pen.cfg.has_horizontal(0, 1), i) {
        push_part(lines, top, DrawnPart::Horizontal(Edge::Between, width))?;
        Ok(1)
    } else {
        Ok(0)
    }
}
