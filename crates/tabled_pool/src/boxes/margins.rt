//! The text of a pool: its lines, and the margin round them.
ghost use Rattle.std.specs.Prelude.{◌≡◌, ◌==◌, ◌+◌, ◌^◌, ◌<◌, ◌≤◌, ◌⊎◌, ◌↔◌, ◌++◌, ◌∷◌, [], IfErr, IfOk, IsTrue, OnErr, OnOk, flat_map, if◌then◌else◌, length, map, max, replicate, string_bytes};
ghost use Rattle.grid_config.specs.Looks.{look_of};
ghost use Rattle.grid_config_values.specs.declared.fault.Fault.TheVariants.{Memory, Range};
ghost use Rattle.tabled_pool.specs.Boxes.Texts.{IsPoolTooLarge, behind_feeds, in_margins, joined_lines, margin_line, pool_text, printed_line, printed_lines, with_margins};
ghost use Rattle.tabled_pool.specs.Boxes.Boxes.{box_of};
ghost use Rattle.tabled_pool.specs.Boxes.Canvas.{box_parts};
ghost use Rattle.tabled_pool.specs.Boxes.Values.{nesting_of};

use crate::boxes::framed::draw_framed;
use crate::boxes::line::push_line;
use crate::boxes::part::DrawnPart;
use crate::boxes::value::TableValue;
use grid_config::{ANSIBuf, Fault, SpannedConfig};
use grid_config_values::Indent;
use papergrid_cells::{push_blank, push_indent};
use std::alloc::{AllocError, Global};
use tabled_size::PoolTableDimension;

/// The text of a value in its frame and its margin; one that shows nothing has no margin. Refused as `Range`
/// exactly where its width or its height, with that margin, passes `usize::MAX`, and as `Memory` where
/// allocation fails.
pub fn pool_text(
    alloc: Global,
    cfg: &SpannedConfig,
    takers: PoolTableDimension,
    value: &TableValue,
) -> Result<String, Fault>
    ensures text { IfOk result (λ text. string_bytes text ≡ pool_text (look_of cfg.now) takers (box_of (look_of cfg.now) (nesting_of value.now))) }
    ensures fits { IfOk result (λ _. ¬ (IsPoolTooLarge (look_of cfg.now) takers (box_of (look_of cfg.now) (nesting_of value.now)))) }
    ensures fault { IfErr result (λ fault. (fault ≡ Memory) ⊎ (fault ≡ Range)) }
    ensures range { IfErr result (λ fault. fault ≡ Range → IsPoolTooLarge (look_of cfg.now) takers (box_of (look_of cfg.now) (nesting_of value.now))) }
{
    let framed = draw_framed(alloc, cfg, takers, value)?;
    if shows_nothing(alloc, cfg, &framed.lines)? {
        return Ok(String::new(alloc));
    }
    check_margins(cfg, framed.width, framed.lines.len())?;
    let mut out = String::new(alloc);
    push_all(alloc, &mut out, cfg, framed.width, &framed.lines)?;
    Ok(out)
}

// Whether these lines have no byte between them. Where there are several, each but the first begins with a
// line feed.
fn shows_nothing(
    alloc: Global,
    cfg: &SpannedConfig,
    lines: &[Vec<DrawnPart>],
) -> Result<bool, AllocError>
    ensures { IfOk result (λ nothing. nothing ≡ (length (joined_lines (printed_lines (look_of cfg.now) (map box_parts lines.now))) == 0)) }
{
    if lines.len() > 1 {
        return Ok(false);
    }
    let mut out = String::new(alloc);
    if !lines.is_empty() {
        push_line(alloc, &mut out, cfg, lines, 0)?;
    }
    Ok(out.is_empty())
}

// Refused as `Range` exactly where the margin makes the width or the height pass `usize::MAX`.
fn check_margins(cfg: &SpannedConfig, width: usize, height: usize) -> Result<(), Fault>
    ensures fits { IfOk result (λ _. max ((look_of cfg.now).margin.left.size + width + (look_of cfg.now).margin.right.size)
        ((look_of cfg.now).margin.top.size + height + (look_of cfg.now).margin.bottom.size) < 2 ^ 64) }
    ensures fault { IfErr result (λ fault. fault ≡ Range) }
    ensures range { OnErr result (2 ^ 64 ≤ max ((look_of cfg.now).margin.left.size + width + (look_of cfg.now).margin.right.size)
        ((look_of cfg.now).margin.top.size + height + (look_of cfg.now).margin.bottom.size)) }
{
    let margin = cfg.get_margin();
    if fits(width, margin.left.size, margin.right.size)
        && fits(height, margin.top.size, margin.bottom.size)
    {
        Ok(())
    } else {
        Err(Fault::Range)
    }
}

// Whether the sum is at most `usize::MAX`.
fn fits(between: usize, before: usize, behind: usize) -> bool
    ensures { IsTrue result ↔ before + between + behind < 2 ^ 64 }
{
    match before.checked_add(between) {
        Some(sum) => sum.checked_add(behind).is_some(),
        None => false,
    }
}

// Appends the lines of a pool in its margin.
fn push_all(
    alloc: Global,
    out: &mut String,
    cfg: &SpannedConfig,
    width: usize,
    lines: &[Vec<DrawnPart>],
) -> Result<(), AllocError>
    requires { 0 < length lines.now }
    ensures { OnOk result (string_bytes out.new ≡ string_bytes out.old ++ joined_lines (with_margins (look_of cfg.now) width (printed_lines (look_of cfg.now) (map box_parts lines.now)))) }
{
    push_above(out, cfg, width)?;
    push_lines(alloc, out, cfg, lines)?;
    push_below(out, cfg, width)
}

// Appends the lines of the top margin, each before a line feed.
fn push_above(out: &mut String, cfg: &SpannedConfig, width: usize) -> Result<(), AllocError>
    ensures { OnOk result (string_bytes out.new ≡ string_bytes out.old
        ++ flat_map (λ line. line ++ 10 ∷ [])
        (replicate (look_of cfg.now).margin.top.size
        (margin_line (look_of cfg.now) width (look_of cfg.now).margin.top (look_of cfg.now).margin_color.top))) }
{
    let margin = &cfg.get_margin().top;
    for _ in 0..margin.size {
        push_margin_line(out, cfg, width, margin, &cfg.get_margin_color().top)?;
        out.push('\n')?;
    }
    Ok(())
}

// Appends the lines between the margins at their sides, a line feed between each two.
fn push_lines(
    alloc: Global,
    out: &mut String,
    cfg: &SpannedConfig,
    lines: &[Vec<DrawnPart>],
) -> Result<(), AllocError>
    ensures { OnOk result (string_bytes out.new ≡ string_bytes out.old ++ joined_lines (map (in_margins (look_of cfg.now)) (printed_lines (look_of cfg.now) (map box_parts lines.now)))) }
{
    for y in 0..lines.len() {
        push_feed(out, y)?;
        push_between(alloc, out, cfg, lines, y)?;
    }
    Ok(())
}

// Appends a line feed before each line but the first.
fn push_feed(out: &mut String, y: usize) -> Result<(), AllocError>
    ensures { OnOk result (string_bytes out.new ≡ string_bytes out.old ++ (if y == 0 then [] else 10 ∷ [])) }
{
    if y == 0 { Ok(()) } else { out.push('\n') }
}

// Appends line `y` between the margins at its sides.
fn push_between(
    alloc: Global,
    out: &mut String,
    cfg: &SpannedConfig,
    lines: &[Vec<DrawnPart>],
    y: usize,
) -> Result<(), AllocError>
    requires { y < length lines.now }
    ensures { OnOk result (string_bytes out.new ≡ string_bytes out.old ++ in_margins (look_of cfg.now) (printed_line (look_of cfg.now) (map box_parts lines.now) y)) }
{
    let margin = cfg.get_margin();
    let color = cfg.get_margin_color();
    push_indent(out, &margin.left, &color.left)?;
    push_line(alloc, out, cfg, lines, y)?;
    push_indent(out, &margin.right, &color.right)
}

// Appends the lines of the bottom margin, each after a line feed.
fn push_below(out: &mut String, cfg: &SpannedConfig, width: usize) -> Result<(), AllocError>
    ensures { OnOk result (string_bytes out.new ≡ string_bytes out.old
        ++ behind_feeds (replicate (look_of cfg.now).margin.bottom.size
        (margin_line (look_of cfg.now) width (look_of cfg.now).margin.bottom (look_of cfg.now).margin_color.bottom))) }
{
    let margin = &cfg.get_margin().bottom;
    for _ in 0..margin.size {
        out.push('\n')?;
        push_margin_line(out, cfg, width, margin, &cfg.get_margin_color().bottom)?;
    }
    Ok(())
}

// Appends a line of the top or the bottom margin, over `width` columns between the margins at the sides.
fn push_margin_line(
    out: &mut String,
    cfg: &SpannedConfig,
    width: usize,
    margin: &Indent,
    color: &Option<ANSIBuf>,
) -> Result<(), AllocError>
    ensures { OnOk result (string_bytes out.new ≡ string_bytes out.old ++ margin_line (look_of cfg.now) width margin.now color.now) }
{
    let sides = cfg.get_margin();
    let colors = cfg.get_margin_color();
    push_indent(out, &sides.left, &colors.left)?;
    push_blank(out, margin.fill, width, color)?;
    push_indent(out, &sides.right, &colors.right)
}
