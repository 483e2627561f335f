//! Lines of parts, drawn from left to right: each part is made once, and none is moved.
ghost use Rattle.std.specs.Prelude.{◌≡◌, ◌==◌, ◌+◌, ◌≤◌, ◌<◌, ◌∷◌, [], OnOk, if◌then◌else◌, length};
ghost use Rattle.tabled_pool.specs.Boxes.Boxes.{Upright, first_lines, from_line};
ghost use Rattle.tabled_pool.specs.Boxes.Canvas.{Adds, box_part, kind_of};

use crate::boxes::part::{DrawnPart, Edge};
use grid_config::SpannedConfig;
use std::alloc::{AllocError, Global};
use tabled_size::PoolTableDimension;

/// How a pool is drawn.
#[derive(Drop)]
pub(crate) struct Pen<'a> {
    pub(crate) alloc: Global,
    pub(crate) cfg: &'a SpannedConfig,
    pub(crate) takers: PoolTableDimension,
}

/// Draws one column of an upright line, from line `top` on. Fails only where allocation fails.
pub(crate) fn draw_upright(
    edge: Edge,
    top: usize,
    height: usize,
    lines: &mut [Vec<DrawnPart>],
) -> Result<(), AllocError>
    requires inside { top + height ≤ length lines.old }
    ensures { OnOk result (Adds lines.old lines.new (from_line top (first_lines height (λ _. Upright (kind_of edge) ∷ [])))) }
{
    for y in 0..height {
        push_part(lines, top + y, DrawnPart::Upright(edge))?;
    }
    Ok(())
}

/// Adds a part to a line. Fails only where allocation fails.
pub(crate) fn push_part(
    lines: &mut [Vec<DrawnPart>],
    line: usize,
    part: DrawnPart,
) -> Result<(), AllocError>
    requires { line < length lines.old }
    ensures { OnOk result (Adds lines.old lines.new (λ k. if k == line then box_part part ∷ [] else [])) }
{
    lines[line].push(part)?;
    Ok(())
}
