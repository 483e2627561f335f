//! Texts, drawn as parts line by line.
ghost use Rattle.std.specs.Prelude.{◌≡◌, ◌+◌, ◌-◌, ◌≤◌, IfOk, OnOk, [], ◌∷◌, false, flat_map, length, map, string_bytes};
ghost use Rattle.std.specs.Cow.{cow_str_bytes};
ghost use Rattle.grid_config.specs.Looks.{look_of};
ghost use Rattle.papergrid_cells.specs.BlockLines.{part_bytes};
ghost use Rattle.papergrid_cells.specs.Painting.{colored, fill_bytes};
ghost use Rattle.papergrid_picture.specs.Blocks.{free_above, text_line};
ghost use Rattle.papergrid_picture.specs.CellLines.{cell_lines};
ghost use Rattle.papergrid_picture.specs.Picture.{at};
ghost use Rattle.tabled_pool.specs.Boxes.Boxes.{Shown, alone, cell_bytes, cell_height, first_lines, free_before_line, from_line, text_box};
ghost use Rattle.tabled_pool.specs.Boxes.Canvas.{Adds, IsInCanvas};
ghost use Rattle.tabled_pool.specs.Boxes.Open.{line_of, measures_of, texts_of};
ghost use Rattle.tabled_pool.specs.Boxes.Sizes.{line_sizes};

use crate::boxes::canvas::{Pen, push_part};
use crate::boxes::open_text::OpenText;
use crate::boxes::part::DrawnPart;
use crate::boxes::size::Size;
use grid_config::{ANSIBuf, SpannedConfig};
use grid_config_values::{AlignmentHorizontal, AlignmentVertical, Position};
use grid_records_measure::get_lines;
use papergrid_cells::{push_blank, push_indent};
use std::alloc::{AllocError, Global};
use std::borrow::CowStr;

// The cell whose settings are those of all cells.
const FIRST: Position = Position { row: 0, col: 0 };

/// Draws no text, in a place in which the paddings and one line fit. Fails only where allocation fails.
pub(crate) fn draw_no_text(
    pen: &Pen<'_>,
    top: usize,
    width: usize,
    height: usize,
    lines: &mut [Vec<DrawnPart>],
) -> Result<(), AllocError>
    requires room { IsInCanvas (text_box (look_of pen.now.cfg.now) []) width height }
    requires inside { top + height ≤ length lines.old }
    ensures { OnOk result (Adds lines.old lines.new (from_line top ((text_box (look_of pen.now.cfg.now) []).line pen.now.takers width height))) }
{
    let line = Size {
        width: 0,
        height: 1,
    };
    draw_text(pen, "", &[line], top, width, height, lines)
}

/// Draws a text, whose lines were measured, in a place in which it fits: in each line of the place all its
/// columns. A place without a column shows nothing. Fails only where allocation fails.
pub(crate) fn draw_text(
    pen: &Pen<'_>,
    text: &str,
    measured: &[Size],
    top: usize,
    width: usize,
    height: usize,
    lines: &mut [Vec<DrawnPart>],
) -> Result<(), AllocError>
    requires measured { measured.now ≡ line_sizes text.now }
    requires room { IsInCanvas (text_box (look_of pen.now.cfg.now) text.now) width height }
    requires inside { top + height ≤ length lines.old }
    ensures { OnOk result (Adds lines.old lines.new (from_line top ((text_box (look_of pen.now.cfg.now) text.now).line pen.now.takers width height))) }
{
    if width == 0 {
        return Ok(());
    }
    let shown = OpenText::new(lines_of(pen.alloc, text)?, measured, width);
    draw_lines(pen, &shown, top, height, lines)
}

// The lines of a text, each with its styles opened and ended within; without ESC they are borrows.
fn lines_of<'a>(alloc: Global, text: &'a str) -> Result<Vec<CowStr<'a>>, AllocError>
    ensures { IfOk result (λ lines. map cow_str_bytes lines.items ≡ cell_lines false false text.now) }
{
    let mut lines = Vec::new(alloc);
    for line in get_lines(alloc, text) {
        lines.push(line?)?;
    }
    Ok(lines)
}

// Draws the lines of a place of this height.
fn draw_lines(
    pen: &Pen<'_>,
    shown: &OpenText<'_>,
    top: usize,
    height: usize,
    lines: &mut [Vec<DrawnPart>],
) -> Result<(), AllocError>
    requires room { cell_height (look_of pen.now.cfg.now) (measures_of shown.now) ≤ height }
    requires inside { top + height ≤ length lines.old }
    ensures { OnOk result (Adds lines.old lines.new
        (from_line top (first_lines height
        (λ y. Shown shown.now.width (cell_bytes (look_of pen.now.cfg.now) (measures_of shown.now)
        (texts_of shown.now) shown.now.width height y) ∷ [])))) }
{
    for y in 0..height {
        let line = place_line(pen, shown, height, y)?;
        push_part(lines, top + y, DrawnPart::Shown(shown.width, line))?;
    }
    Ok(())
}

// Line `y` of a place of this height: free lines by the vertical alignment, padding, the lines of the text,
// padding, free lines.
fn place_line(
    pen: &Pen<'_>,
    shown: &OpenText<'_>,
    height: usize,
    y: usize,
) -> Result<String, AllocError>
    requires room { cell_height (look_of pen.now.cfg.now) (measures_of shown.now) ≤ height }
    ensures { IfOk result (λ line. string_bytes line ≡ cell_bytes (look_of pen.now.cfg.now) (measures_of shown.now) (texts_of shown.now) shown.now.width height y) }
{
    let padding = pen.cfg.get_padding(FIRST);
    let colors = pen.cfg.get_padding_color(FIRST);
    let above = lines_above(pen.cfg, shown.count(), height);
    if y < above {
        return blank_line(pen.alloc, shown.width);
    }
    let inner = y - above;
    if inner < padding.top.size {
        return filled_line(pen.alloc, padding.top.fill, shown.width, &colors.top);
    }
    let k = inner - padding.top.size;
    if k < shown.count() {
        return text_line(pen, shown, k);
    }
    if k - shown.count() < padding.bottom.size {
        return filled_line(pen.alloc, padding.bottom.fill, shown.width, &colors.bottom);
    }
    blank_line(pen.alloc, shown.width)
}

// How many free lines are above a text of so many lines and its paddings, in a place of this height.
fn lines_above(cfg: &SpannedConfig, count: usize, height: usize) -> usize
    requires { count + ((look_of cfg.now).padding (at 0 0)).top.size + ((look_of cfg.now).padding (at 0 0)).bottom.size ≤ height }
    ensures { result ≡ free_above ((look_of cfg.now).alignment_vertical (at 0 0))
        (height - (count + ((look_of cfg.now).padding (at 0 0)).top.size + ((look_of cfg.now).padding (at 0 0)).bottom.size)) }
{
    let padding = cfg.get_padding(FIRST);
    let free = height - (count + padding.top.size + padding.bottom.size);
    match cfg.get_alignment_vertical(FIRST) {
        AlignmentVertical::Top => 0,
        AlignmentVertical::Center => free / 2,
        AlignmentVertical::Bottom => free,
    }
}

// A line of spaces.
fn blank_line(alloc: Global, width: usize) -> Result<String, AllocError>
    ensures { IfOk result (λ line. string_bytes line ≡ fill_bytes 32 width) }
{
    let plain: Option<ANSIBuf> = None;
    filled_line(alloc, ' ', width, &plain)
}

// A line of one character.
fn filled_line(
    alloc: Global,
    character: char,
    width: usize,
    color: &Option<ANSIBuf>,
) -> Result<String, AllocError>
    ensures { IfOk result (λ line. string_bytes line ≡ colored color.now (fill_bytes character width)) }
{
    let mut line = String::new(alloc);
    push_blank(&mut line, character, width, color)?;
    Ok(line)
}

// Line `k` of the text: padding, free space before the line, the line, what is left, padding.
fn text_line(pen: &Pen<'_>, shown: &OpenText<'_>, k: usize) -> Result<String, AllocError>
    ensures { IfOk result (λ line. string_bytes line ≡ flat_map (part_bytes (line_of shown.now)) (text_line (alone (look_of pen.now.cfg.now) (measures_of shown.now)) (at 0 0) shown.now.width k)) }
{
    let padding = pen.cfg.get_padding(FIRST);
    let colors = pen.cfg.get_padding_color(FIRST);
    let fill = pen.cfg.get_justification(FIRST);
    let color = pen.cfg.get_justification_color(FIRST);
    let room = shown
        .width
        .saturating_sub(padding.left.size)
        .saturating_sub(padding.right.size);
    let before = free_before_line_of(pen.cfg, shown, room, k);
    let rest = room.saturating_sub(before).saturating_sub(shown.measure(k));
    let mut line = String::new(pen.alloc);
    push_indent(&mut line, &padding.left, &colors.left)?;
    push_blank(&mut line, fill, before, color)?;
    line.push_str(shown.line(k))?;
    push_blank(&mut line, fill, rest, color)?;
    push_indent(&mut line, &padding.right, &colors.right)?;
    Ok(line)
}

// How many of `room` columns come before line `k` of the text.
fn free_before_line_of(cfg: &SpannedConfig, shown: &OpenText<'_>, room: usize, k: usize) -> usize
    ensures { result ≡ free_before_line (look_of cfg.now) (measures_of shown.now) room k }
{
    let measure = if cfg.get_line_alignment(FIRST) {
        shown.measure(k)
    } else {
        shown.widest()
    };
    let free = room.saturating_sub(measure);
    match cfg.get_alignment_horizontal(FIRST) {
        AlignmentHorizontal::Left => 0,
        AlignmentHorizontal::Center => free / 2,
        AlignmentHorizontal::Right => free,
    }
}
