//! The lines of a cell's rectangle.
ghost use Rattle.std.specs.Prelude.{◌≡◌, ◌<◌, ◌++◌, OnOk, length, string_bytes};
ghost use Rattle.std.specs.Option.{option_map};
ghost use Rattle.grid_config.specs.Looks.{look_of};
ghost use Rattle.grid_config.specs.Colors.{color_of};
ghost use Rattle.papergrid_picture.specs.Blocks.{free_above, free_left};
ghost use Rattle.papergrid_cells.specs.BlockLines.{alone_bytes, free_before_line, justified, kind_at, block_line_at};
ghost use Rattle.papergrid_cells.specs.Flat.{AreEven};
ghost use Rattle.papergrid_cells.specs.Painting.{colored, fill_bytes};
ghost use Rattle.papergrid_cells.specs.Shown.{measures_of};
ghost use Rattle.papergrid_cells.specs.declared.block.BlockLine.TheVariants.{Text};

use crate::cell_lines::CellLines;
use crate::painting::{push_fill, push_text};
use grid_config::{ANSIBuf, ANSIStr, SpannedConfig};
use grid_config_values::{AlignmentHorizontal, AlignmentVertical, Indent, Position};
use std::alloc::AllocError;

/// A cell that the current row shows: its lines, whether they are aligned one by one, the colour of its text, its
/// rectangle in columns and lines, and the line of the table in which that begins.
#[derive(Drop)]
pub struct OpenCell<'a> {
    pub pos: Position,
    pub lines: CellLines<'a>,
    pub line_alignment: bool,
    pub color: Option<ANSIStr<'a>>,
    pub width: usize,
    pub height: usize,
    pub top: usize,
}

/// What a line of a rectangle shows: the padding above, the line of the text with this number, the
/// padding below, or nothing, outside the rectangle.
#[derive(Clone, Copy)]
pub enum BlockLine {
    Above,
    Text(usize),
    Below,
    Outside,
}

/// What line `line` of the cell's rectangle shows.
pub fn block_line(cfg: &SpannedConfig, cell: &OpenCell<'_>, line: usize) -> BlockLine
    ensures { result ≡ block_line_at (look_of cfg.now) cell.now.pos (length (measures_of cell.now.lines)) cell.now.height line }
{
    let padding = cfg.get_padding(cell.pos);
    let count = cell.lines.count();
    let free = cell
        .height
        .saturating_sub(padding.top.size)
        .saturating_sub(count)
        .saturating_sub(padding.bottom.size);
    let above = free_above(cfg.get_alignment_vertical(cell.pos), free);
    kind_at(
        padding.top.size,
        above,
        count,
        free - above,
        padding.bottom.size,
        line,
    )
}

// Which of the lines this is, where `above` free lines are above the text, `count` are of the
// text, and so on.
fn kind_at(
    top: usize,
    above: usize,
    count: usize,
    below: usize,
    bottom: usize,
    line: usize,
) -> BlockLine
    ensures { result ≡ kind_at top above count below bottom line }
{
    if line < top {
        return BlockLine::Above;
    }
    let line = line - top;
    if line < above {
        return BlockLine::Text(count);
    }
    let line = line - above;
    if line < count {
        return BlockLine::Text(line);
    }
    let line = line - count;
    if line < below {
        return BlockLine::Text(count);
    }
    if line - below < bottom {
        BlockLine::Below
    } else {
        BlockLine::Outside
    }
}

/// The number of the line of the cell's text that line `line` of its rectangle shows, where the settings are even.
/// Where it shows none, the number is the count of the text's lines.
#[inline(always)]
pub fn text_line(cfg: &SpannedConfig, cell: &OpenCell<'_>, line: usize) -> usize
    ensures { AreEven cfg.now → line < cell.now.height → block_line_at (look_of cfg.now) cell.now.pos (length (measures_of cell.now.lines)) cell.now.height line ≡ Text result }
{
    let lines = cell.lines.count();
    let free = cell.height.saturating_sub(lines);
    let begin = free_above(cfg.get_alignment_vertical(cell.pos), free);
    if line < begin {
        return lines;
    }
    (line - begin).min(lines)
}

// How many of the free lines are above a text.
fn free_above(alignment: AlignmentVertical, free: usize) -> usize
    ensures { result ≡ free_above alignment free }
{
    match alignment {
        AlignmentVertical::Top => 0,
        AlignmentVertical::Center => free / 2,
        AlignmentVertical::Bottom => free,
    }
}

/// How many of the free columns are before a text.
pub(crate) fn free_left(alignment: AlignmentHorizontal, free: usize) -> usize
    ensures { result ≡ free_left alignment free }
{
    match alignment {
        AlignmentHorizontal::Left => 0,
        AlignmentHorizontal::Center => free / 2,
        AlignmentHorizontal::Right => free,
    }
}

/// Appends a line of the cell's rectangle. Fails only where allocation fails.
pub fn push_block_line(
    out: &mut String,
    cfg: &SpannedConfig,
    cell: &OpenCell<'_>,
    line: BlockLine,
) -> Result<(), AllocError>
    ensures { OnOk result (string_bytes out.new ≡ string_bytes out.old ++ alone_bytes (look_of cfg.now) cell.now line) }
{
    match line {
        BlockLine::Above => {
            let padding = cfg.get_padding(cell.pos).top;
            let colors = cfg.get_padding_color(cell.pos);
            push_blank(out, padding.fill, cell.width, &colors.top)
        }
        BlockLine::Text(k) => push_text_line(out, cfg, cell, k),
        BlockLine::Below => {
            let padding = cfg.get_padding(cell.pos).bottom;
            let colors = cfg.get_padding_color(cell.pos);
            push_blank(out, padding.fill, cell.width, &colors.bottom)
        }
        BlockLine::Outside => Ok(()),
    }
}

// Appends the line of the text with this number: padding, free space before the line, the line, what is left, padding.
fn push_text_line(
    out: &mut String,
    cfg: &SpannedConfig,
    cell: &OpenCell<'_>,
    k: usize,
) -> Result<(), AllocError>
    ensures { OnOk result (string_bytes out.new ≡ string_bytes out.old ++ alone_bytes (look_of cfg.now) cell.now (Text k)) }
{
    let padding = cfg.get_padding(cell.pos);
    let colors = cfg.get_padding_color(cell.pos);
    let room = cell
        .width
        .saturating_sub(padding.left.size)
        .saturating_sub(padding.right.size);
    push_indent(out, &padding.left, &colors.left)?;
    push_justified(out, cfg, cell, room, k)?;
    push_indent(out, &padding.right, &colors.right)
}

// Appends the line of the text with this number in `room` columns, without the paddings.
fn push_justified(
    out: &mut String,
    cfg: &SpannedConfig,
    cell: &OpenCell<'_>,
    room: usize,
    k: usize,
) -> Result<(), AllocError>
    ensures { OnOk result (string_bytes out.new ≡ string_bytes out.old ++ justified (look_of cfg.now) cell.now room k) }
{
    let fill = cfg.get_justification(cell.pos);
    let color = cfg.get_justification_color(cell.pos);
    let free_before_line = free_before_line_of(cfg, cell, room, k);
    let rest = room
        .saturating_sub(free_before_line)
        .saturating_sub(cell.lines.width(k));
    push_blank(out, fill, free_before_line, color)?;
    push_text(out, cell.lines.text(k), cell.color)?;
    push_blank(out, fill, rest, color)
}

// How many columns are free before the line of the text with this number.
fn free_before_line_of(cfg: &SpannedConfig, cell: &OpenCell<'_>, room: usize, k: usize) -> usize
    ensures { result ≡ free_before_line (look_of cfg.now) cell.now room k }
{
    let counted = cell.lines.counted(cfg.get_line_alignment(cell.pos), k);
    free_left(
        cfg.get_alignment_horizontal(cell.pos),
        room.saturating_sub(counted),
    )
}

/// Appends a padding or a margin at the left or right. Fails only where allocation fails.
pub fn push_indent(
    out: &mut String,
    indent: &Indent,
    color: &Option<ANSIBuf>,
) -> Result<(), AllocError>
    ensures { OnOk result (string_bytes out.new ≡ string_bytes out.old ++ colored color.now (fill_bytes indent.now.fill indent.now.size)) }
{
    push_blank(out, indent.fill, indent.size, color)
}

/// Appends a character `width` times, in a colour if there is one. Fails only where allocation fails.
pub fn push_blank(
    out: &mut String,
    character: char,
    width: usize,
    color: &Option<ANSIBuf>,
) -> Result<(), AllocError>
    ensures { OnOk result (string_bytes out.new ≡ string_bytes out.old ++ colored color.now (fill_bytes character width)) }
{
    push_fill(out, character, width, borrowed(color))
}

/// The colour, borrowed.
pub(crate) fn borrowed<'a>(color: &'a Option<ANSIBuf>) -> Option<ANSIStr<'a>>
    ensures { option_map color_of result ≡ color.now }
{
    match color {
        Some(color) => Some(color.as_ref()),
        None => None,
    }
}
