//! A value drawn in its frame.
ghost use Rattle.std.specs.Prelude.{◌≡◌, ◌+◌, ◌^◌, ◌≤◌, ◌⊎◌, IfErr, IfOk, OnErr, OnOk, [], length, map, max, replicate};
ghost use Rattle.grid_config.specs.Looks.{look_of};
ghost use Rattle.grid_config_values.specs.declared.fault.Fault.TheVariants.{Memory, Range};
ghost use Rattle.papergrid_picture.specs.Frame.{thickness};
ghost use Rattle.tabled_pool.specs.Boxes.Boxes.{Upright, box_of, first_lines, from_line};
ghost use Rattle.tabled_pool.specs.Boxes.Canvas.{Adds, BeginWith, box_parts, kind_of};
ghost use Rattle.tabled_pool.specs.Boxes.Framed.{IsFrameTooLarge, bottom_line, framed_height, framed_line, framed_lines, framed_width, left_side, outer_horizontal, right_side, top_line};
ghost use Rattle.tabled_pool.specs.Boxes.Sizes.{sizes_of};
ghost use Rattle.tabled_pool.specs.Boxes.Values.{nesting_of};

use crate::boxes::canvas::{Pen, draw_upright, push_part};
use crate::boxes::draw::draw;
use crate::boxes::part::{DrawnPart, Edge};
use crate::boxes::size::{Size, add_both, push_sizes};
use crate::boxes::value::TableValue;
use grid_config::{Fault, SpannedConfig};
use std::alloc::{AllocError, Global};
use tabled_size::PoolTableDimension;

/// The lines of a value in its frame, from top to bottom, and the columns that each of them takes.
#[derive(Drop)]
pub(crate) struct Framed {
    pub(crate) width: usize,
    pub(crate) lines: Vec<Vec<DrawnPart>>,
}

/// Draws a value in its frame. Each glyph of the frame and each gap between members that is there takes a column
/// or a line. Who takes what is left over in a row or a column is given. Refused as `Range` exactly where the
/// width or the height of the frame passes `usize::MAX`, and as `Memory` where allocation fails. It recurses once
/// a level of the value.
pub(crate) fn draw_framed(
    alloc: Global,
    cfg: &SpannedConfig,
    takers: PoolTableDimension,
    value: &TableValue,
) -> Result<Framed, Fault>
    ensures width { IfOk result (λ framed. framed.width ≡ framed_width (look_of cfg.now) (box_of (look_of cfg.now) (nesting_of value.now))) }
    ensures lines { IfOk result (λ framed. map box_parts framed.lines.items ≡ framed_lines (look_of cfg.now) takers (box_of (look_of cfg.now) (nesting_of value.now))) }
    ensures fits { IfOk result (λ _. ¬ (IsFrameTooLarge (look_of cfg.now) (box_of (look_of cfg.now) (nesting_of value.now)))) }
    ensures fault { IfErr result (λ fault. (fault ≡ Memory) ⊎ (fault ≡ Range)) }
    ensures range { IfErr result (λ fault. fault ≡ Range → IsFrameTooLarge (look_of cfg.now) (box_of (look_of cfg.now) (nesting_of value.now))) }
{
    let mut sizes = Vec::new(alloc);
    let own = push_sizes(cfg, value, &mut sizes)?;
    let frame = framed_size(cfg, own.width, own.height)?;
    let mut lines = empty_lines(alloc, frame.height)?;
    let pen = Pen { alloc, cfg, takers };
    draw_frame(
        &pen,
        value,
        &sizes,
        own.width,
        own.height,
        frame.width,
        &mut lines,
    )?;
    Ok(Framed {
        width: frame.width,
        lines,
    })
}

// The size of a frame round a box of this width and this height.
fn framed_size(cfg: &SpannedConfig, width: usize, height: usize) -> Result<Size, Fault>
    ensures width { IfOk result (λ size. size.width ≡ left_side (look_of cfg.now) + width + right_side (look_of cfg.now)) }
    ensures height { IfOk result (λ size. size.height ≡ top_line (look_of cfg.now) + height + bottom_line (look_of cfg.now)) }
    ensures fault { IfErr result (λ fault. fault ≡ Range) }
    ensures range { OnErr result (2 ^ 64 ≤ max (left_side (look_of cfg.now) + width + right_side (look_of cfg.now)) (top_line (look_of cfg.now) + height + bottom_line (look_of cfg.now))) }
{
    let left = thickness(cfg.has_vertical(0, 1));
    let right = thickness(cfg.has_vertical(1, 1));
    let top = thickness(cfg.has_horizontal(0, 1));
    let bottom = thickness(cfg.has_horizontal(1, 1));
    let width = add_both(width, left, right)?;
    let height = add_both(height, top, bottom)?;
    Ok(Size { width, height })
}

// How many columns or lines a boundary takes.
fn thickness(is_there: bool) -> usize
    ensures { result ≡ thickness is_there }
{
    if is_there { 1 } else { 0 }
}

// So many lines that show nothing yet.
fn empty_lines(alloc: Global, count: usize) -> Result<Vec<Vec<DrawnPart>>, AllocError>
    ensures { IfOk result (λ lines. map box_parts lines.items ≡ replicate count []) }
{
    let mut lines = Vec::with_capacity(alloc, count)?;
    for _ in 0..count {
        lines.push(Vec::new(alloc))?;
    }
    Ok(lines)
}

// Draws the frame and the value in it, each line from left to right.
fn draw_frame(
    pen: &Pen<'_>,
    value: &TableValue,
    sizes: &[Size],
    width: usize,
    height: usize,
    frame: usize,
    lines: &mut [Vec<DrawnPart>],
) -> Result<(), AllocError>
    requires sizes { BeginWith (sizes_of (look_of pen.now.cfg.now) (nesting_of value.now)) sizes.now }
    requires width { width ≡ (box_of (look_of pen.now.cfg.now) (nesting_of value.now)).width }
    requires height { height ≡ (box_of (look_of pen.now.cfg.now) (nesting_of value.now)).height }
    requires frame { frame ≡ framed_width (look_of pen.now.cfg.now) (box_of (look_of pen.now.cfg.now) (nesting_of value.now)) }
    requires lines { length lines.old ≡ framed_height (look_of pen.now.cfg.now) (box_of (look_of pen.now.cfg.now) (nesting_of value.now)) }
    ensures { OnOk result (Adds lines.old lines.new (framed_line (look_of pen.now.cfg.now) pen.now.takers (box_of (look_of pen.now.cfg.now) (nesting_of value.now)))) }
{
    let top = thickness(pen.cfg.has_horizontal(0, 1));
    draw_outer_horizontal(pen.cfg.has_horizontal(0, 1), Edge::First, 0, frame, lines)?;
    draw_side(pen.cfg.has_vertical(0, 1), Edge::First, top, height, lines)?;
    draw(pen, value, sizes, top, width, height, lines)?;
    draw_side(pen.cfg.has_vertical(1, 1), Edge::Last, top, height, lines)?;
    draw_outer_horizontal(
        pen.cfg.has_horizontal(1, 1),
        Edge::Last,
        top + height,
        frame,
        lines,
    )
}

// Draws a side of the frame, where it is there.
fn draw_side(
    is_there: bool,
    edge: Edge,
    top: usize,
    height: usize,
    lines: &mut [Vec<DrawnPart>],
) -> Result<(), AllocError>
    requires inside { top + height ≤ length lines.old }
    ensures { OnOk result (Adds lines.old lines.new (from_line top (first_lines height (λ _. replicate (thickness is_there) (Upright (kind_of edge)))))) }
{
    if is_there {
        draw_upright(edge, top, height, lines)
    } else {
        Ok(())
    }
}

// Draws the line above or below the box, where it is there.
fn draw_outer_horizontal(
    is_there: bool,
    edge: Edge,
    line: usize,
    width: usize,
    lines: &mut [Vec<DrawnPart>],
) -> Result<(), AllocError>
    requires inside { line + thickness is_there ≤ length lines.old }
    ensures { OnOk result (Adds lines.old lines.new (from_line line (outer_horizontal width (thickness is_there) (kind_of edge)))) }
{
    if is_there {
        push_part(lines, line, DrawnPart::Horizontal(edge, width))
    } else {
        Ok(())
    }
}
