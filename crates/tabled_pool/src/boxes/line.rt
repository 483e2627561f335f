//! A line of a pool, printed part by part.
ghost use Rattle.std.specs.Prelude.{◌≡◌, ◌+◌, ◌<◌, ◌≤◌, ◌++◌, List, IfOk, None, OnOk, ◌∷◌, false, length, map, string_bytes};
ghost use Rattle.std.specs.List.{range_with_len};
ghost use Rattle.grid_config.specs.Looks.{look_of};
ghost use Rattle.tabled_pool.specs.Boxes.Crossings.{Shape, horizontal_glyph, marks, part_shapes, part_width, shapes_from};
ghost use Rattle.tabled_pool.specs.Boxes.Glyphs.{around_of, found_shape};
ghost use Rattle.tabled_pool.specs.Boxes.Runs.{line_bytes, text_with};
ghost use Rattle.tabled_pool.specs.Boxes.Texts.{around_line, printed_line};
ghost use Rattle.tabled_pool.specs.Boxes.Canvas.{box_part, box_parts, kind_of};

use crate::boxes::glyphs::{Around, Glyph, horizontal_glyph, upright_glyph};
use crate::boxes::marks::{Mark, marks_of};
use crate::boxes::part::{DrawnPart, Edge};
use grid_config::SpannedConfig;
use papergrid_cells::{GlyphRun, push_glyphs};
use std::alloc::{AllocError, Global};

/// Appends line `y` of a pool. Fails only where allocation fails.
pub(crate) fn push_line(
    alloc: Global,
    out: &mut String,
    cfg: &SpannedConfig,
    lines: &[Vec<DrawnPart>],
    y: usize,
) -> Result<(), AllocError>
    requires { y < length lines.now }
    ensures { OnOk result (string_bytes out.new ≡ string_bytes out.old ++ printed_line (look_of cfg.now) (map box_parts lines.now) y) }
{
    let around = around_line(alloc, lines, y)?;
    push_parts(alloc, out, cfg, &around, &lines[y])
}

// What is in the columns of line `y`, and of the lines above and below.
fn around_line(alloc: Global, lines: &[Vec<DrawnPart>], y: usize) -> Result<Around, AllocError>
    requires { y < length lines.now }
    ensures { IfOk result (λ around. around_of around ≡ around_line (map box_parts lines.now) y) }
{
    let above = marks_above(alloc, lines, y)?;
    let here = marks_of(alloc, lines, y)?;
    let below = marks_of(alloc, lines, y + 1)?;
    Ok(Around { above, here, below })
}

// What is in the columns of the line before line `y`, and before the first nothing.
fn marks_above(alloc: Global, lines: &[Vec<DrawnPart>], y: usize) -> Result<Vec<Mark>, AllocError>
    ensures { IfOk result (λ found. found.items ≡ (around_line (map box_parts lines.now) y).above) }
{
    if y == 0 {
        Ok(Vec::new(alloc))
    } else {
        marks_of(alloc, lines, y - 1)
    }
}

// Appends the parts of a line.
fn push_parts(
    alloc: Global,
    out: &mut String,
    cfg: &SpannedConfig,
    around: &Around,
    parts: &[DrawnPart],
) -> Result<(), AllocError>
    requires { around.now.here.items ≡ marks (map box_part parts.now) }
    ensures { OnOk result (string_bytes out.new ≡ string_bytes out.old ++ line_bytes (shapes_from (look_of cfg.now) (around_of around.now) 0 (map box_part parts.now))) }
{
    let mut held = Vec::new(alloc);
    let mut x = 0;
    for part in parts {
        x += push_part(out, &mut held, cfg, around, part, x)?;
    }
    push_glyphs(out, &held)
}

// Appends a part that begins at column `x`, and returns how many columns it takes. Glyphs are held back
// until it is known where their colour ends.
fn push_part<'a>(
    out: &mut String,
    held: &mut Vec<GlyphRun<'a>>,
    cfg: &'a SpannedConfig,
    around: &Around,
    part: &DrawnPart,
    x: usize,
) -> Result<usize, AllocError>
    requires { x + part_width (box_part part.now) ≤ length around.now.here.items }
    ensures width { IfOk result (λ width. width ≡ part_width (box_part part.now)) }
    ensures text { OnOk result ((behind : List Shape) →
        text_with (string_bytes out.new) held.new.items behind ≡ text_with (string_bytes out.old) held.old.items
        (part_shapes (look_of cfg.now) (around_of around.now) x (box_part part.now) ++ behind)) }
{
    match part {
        DrawnPart::Shown(width, text) => {
            push_text(out, held, text)?;
            Ok(*width)
        }
        DrawnPart::Upright(edge) => {
            push_glyph(out, held, upright_glyph(cfg, around, *edge, x))?;
            Ok(1)
        }
        DrawnPart::Horizontal(edge, width) => {
            push_horizontal(out, held, cfg, around, *edge, x, *width)?;
            Ok(*width)
        }
    }
}

// Appends a horizontal line of so many columns, which begins at column `x`.
fn push_horizontal<'a>(
    out: &mut String,
    held: &mut Vec<GlyphRun<'a>>,
    cfg: &'a SpannedConfig,
    around: &Around,
    edge: Edge,
    x: usize,
    width: usize,
) -> Result<(), AllocError>
    requires { x + width ≤ length around.now.here.items }
    ensures { OnOk result ((behind : List Shape) →
        text_with (string_bytes out.new) held.new.items behind ≡ text_with (string_bytes out.old) held.old.items
        (map (horizontal_glyph (look_of cfg.now) (around_of around.now) (kind_of edge)) (range_with_len x width) ++ behind)) }
{
    for i in 0..width {
        push_glyph(out, held, horizontal_glyph(cfg, around, edge, x + i))?;
    }
    Ok(())
}

// Appends the bytes of a cell's line, after the glyphs that were held back.
fn push_text(out: &mut String, held: &mut Vec<GlyphRun<'_>>, text: &str) -> Result<(), AllocError>
    ensures { OnOk result ((behind : List Shape) →
        text_with (string_bytes out.new) held.new.items behind ≡ text_with (string_bytes out.old) held.old.items (record { bytes = text.now; color = None; joins = false } ∷ behind)) }
{
    push_glyphs(out, held)?;
    held.clear();
    out.push_str(text)?;
    Ok(())
}

// Appends a glyph: one that joins its neighbours is held back, any other is by itself.
fn push_glyph<'a>(
    out: &mut String,
    held: &mut Vec<GlyphRun<'a>>,
    glyph: Glyph<'a>,
) -> Result<(), AllocError>
    ensures { OnOk result ((behind : List Shape) →
        text_with (string_bytes out.new) held.new.items behind ≡ text_with (string_bytes out.old) held.old.items (found_shape glyph.entry ∷ behind)) }
{
    let run = GlyphRun {
        character: glyph.character,
        width: 1,
        color: glyph.color,
    };
    if glyph.joins {
        held.push(run)?;
        return Ok(());
    }
    push_glyphs(out, held)?;
    held.clear();
    push_glyphs(out, &[run])
}
