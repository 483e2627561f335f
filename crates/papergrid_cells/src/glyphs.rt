//! The glyphs on the boundaries of a table.
ghost use Rattle.std.specs.Prelude.{◌≡◌, ◌++◌, ◌==◌, OnOk, if◌then◌else◌, [], map, string_bytes};
ghost use Rattle.grid_config.specs.Looks.{look_of};
ghost use Rattle.grid_config_values.specs.Glyphs.{along_column, boundary_kind, crossing, in_row};
ghost use Rattle.papergrid_cells.specs.Boundaries.{along_parts, corner_parts, upright_bytes};
ghost use Rattle.papergrid_picture.specs.Reading.{line_items};
ghost use Rattle.papergrid_cells.specs.BlockLines.{alone_bytes, is_outside};
ghost use Rattle.papergrid_cells.specs.Painting.{without_cells, glyph_part};

use crate::block::{BlockLine, OpenCell, borrowed, push_blank, push_block_line};
use crate::painting::{GlyphRun, push_glyphs};
use grid_config::SpannedConfig;
use grid_config_values::Borders;
use std::alloc::AllocError;

// What the first, the last, and every other boundary shows.
fn at_boundary<'a, T>(
    n: usize,
    count: usize,
    first: &'a Option<T>,
    between: &'a Option<T>,
    last: &'a Option<T>,
) -> &'a Option<T>
    ensures { result.now ≡ (if n == 0 then first.now else if n == count then last.now else between.now) }
{
    if n == 0 {
        first
    } else if n == count {
        last
    } else {
        between
    }
}

// What column boundary `j` shows in a row.
fn in_row<T>(borders: &Borders<T>, j: usize, columns: usize) -> &Option<T>
    ensures { result.now ≡ in_row borders.now (boundary_kind j columns) }
{
    at_boundary(j, columns, &borders.left, &borders.vertical, &borders.right)
}

// What row boundary `i` shows along a column.
fn along_column<T>(borders: &Borders<T>, i: usize, rows: usize) -> &Option<T>
    ensures { result.now ≡ along_column borders.now (boundary_kind i rows) }
{
    at_boundary(i, rows, &borders.top, &borders.horizontal, &borders.bottom)
}

// What is shown where row boundary `i` meets column boundary `j`.
fn crossing<T>(borders: &Borders<T>, i: usize, rows: usize, j: usize, columns: usize) -> &Option<T>
    ensures { result.now ≡ crossing borders.now (boundary_kind i rows) (boundary_kind j columns) }
{
    let b = borders;
    let top = at_boundary(j, columns, &b.top_left, &b.top_intersection, &b.top_right);
    let between = at_boundary(
        j,
        columns,
        &b.left_intersection,
        &b.intersection,
        &b.right_intersection,
    );
    let bottom = at_boundary(
        j,
        columns,
        &b.bottom_left,
        &b.bottom_intersection,
        &b.bottom_right,
    );
    at_boundary(i, rows, top, between, bottom)
}

/// Appends what column boundary `j` shows in a row, where it exists: a space where no glyph is set. Fails only where
/// allocation fails.
pub fn push_upright(
    out: &mut String,
    cfg: &SpannedConfig,
    j: usize,
    columns: usize,
) -> Result<(), AllocError>
    ensures { OnOk result (string_bytes out.new ≡ string_bytes out.old ++ upright_bytes (look_of cfg.now) j columns) }
{
    if !cfg.has_vertical(j, columns) {
        return Ok(());
    }
    let character = in_row(cfg.get_borders(), j, columns).unwrap_or(' ');
    let color = in_row(cfg.get_borders_color(), j, columns);
    push_blank(out, character, 1, color)
}

/// Adds what is shown where row boundary `i` meets column boundary `j`, where the latter exists: a space where
/// no glyph is set. Fails only where allocation fails.
pub fn push_corner<'a>(
    runs: &mut Vec<GlyphRun<'a>>,
    cfg: &'a SpannedConfig,
    i: usize,
    rows: usize,
    j: usize,
    columns: usize,
) -> Result<(), AllocError>
    ensures { OnOk result (map glyph_part runs.new.items ≡ map glyph_part runs.old.items ++ corner_parts (look_of cfg.now) i rows j columns) }
{
    if !cfg.has_vertical(j, columns) {
        return Ok(());
    }
    let color = crossing(cfg.get_borders_color(), i, rows, j, columns);
    runs.push(GlyphRun {
        character: crossing(cfg.get_borders(), i, rows, j, columns).unwrap_or(' '),
        width: 1,
        color: borrowed(color),
    })?;
    Ok(())
}

/// Adds what row boundary `i` shows along a column of this width: spaces where no glyph is set.
/// Fails only where allocation fails.
pub fn push_along<'a>(
    runs: &mut Vec<GlyphRun<'a>>,
    cfg: &'a SpannedConfig,
    i: usize,
    rows: usize,
    width: usize,
) -> Result<(), AllocError>
    ensures { OnOk result (map glyph_part runs.new.items ≡ map glyph_part runs.old.items ++ along_parts (look_of cfg.now) i rows width) }
{
    let color = along_column(cfg.get_borders_color(), i, rows);
    runs.push(GlyphRun {
        character: along_column(cfg.get_borders(), i, rows).unwrap_or(' '),
        width,
        color: borrowed(color),
    })?;
    Ok(())
}

/// Appends the glyphs that were collected, which it takes out, and then a line of a cell's rectangle. Where the line
/// shows nothing, the glyphs stay. Fails only where allocation fails.
pub fn push_behind(
    out: &mut String,
    runs: &mut Vec<GlyphRun<'_>>,
    cfg: &SpannedConfig,
    cell: &OpenCell<'_>,
    line: BlockLine,
) -> Result<(), AllocError>
    ensures runs { OnOk result (runs.new.items ≡ (if is_outside line then runs.old.items else [])) }
    ensures out { OnOk result (string_bytes out.new ≡ string_bytes out.old
        ++ (if is_outside line then [] else line_items without_cells (map glyph_part runs.old.items)
        ++ alone_bytes (look_of cfg.now) cell.now line)) }
{
    if let BlockLine::Outside = line {
        return Ok(());
    }
    push_glyphs(out, runs)?;
    runs.clear();
    push_block_line(out, cfg, cell, line)
}
