//! How large values are by themselves, and the lines of their texts. Each text is measured here, once; measuring
//! recurses once a level of a value.
ghost use Rattle.std.specs.Prelude.{◌≡◌, ◌+◌, ◌^◌, ◌<◌, ◌≤◌, ◌⊎◌, ◌++◌, ◌∷◌, [], IfErr, IfOk, OnErr, OnOk, false, max};
ghost use Rattle.grid_config.specs.Looks.{look_of};
ghost use Rattle.grid_config_values.specs.declared.fault.Fault.TheVariants.{Memory, Range};
ghost use Rattle.grid_records_measure.specs.TextLines.{line_width};
ghost use Rattle.papergrid_picture.specs.Blocks.{greatest};
ghost use Rattle.papergrid_picture.specs.CellLines.{cell_measures};
ghost use Rattle.tabled_pool.specs.Boxes.Boxes.{box_of, gaps, text_box};
ghost use Rattle.tabled_pool.specs.Boxes.Sizes.{IsTooLarge, line_size, line_sizes, padded, size_of, sizes_of};
ghost use Rattle.tabled_pool.specs.Boxes.Values.{Beside, Stacked, nesting_of, nestings_of};

use crate::boxes::value::TableValue;
use grid_config::{Fault, SpannedConfig};
use grid_config_values::Position;
use grid_records_measure::{get_line_width, split_line};
use std::alloc::AllocError;

/// Columns and lines.
#[derive(Clone, Copy, Debug)]
pub struct Size {
    pub width: usize,
    pub height: usize,
}

// So many columns and lines with the paddings of a cell. Refused as `Range` exactly where a sum is out of range.
fn padded(cfg: &SpannedConfig, columns: usize, lines: usize) -> Result<Size, Fault>
    ensures own { IfOk result (λ size. size ≡ padded (look_of cfg.now) columns lines) }
    ensures fault { IfErr result (λ fault. fault ≡ Range) }
    ensures range { OnErr result (2 ^ 64 ≤ max (padded (look_of cfg.now) columns lines).width (padded (look_of cfg.now) columns lines).height) }
{
    let padding = cfg.get_padding(Position::new(0, 0));
    let width = add_both(columns, padding.left.size, padding.right.size)?;
    let height = add_both(lines, padding.top.size, padding.bottom.size)?;
    Ok(Size { width, height })
}

/// What is between two others, with them. Refused as `Range` exactly where the sum is out of range.
pub(crate) fn add_both(between: usize, before: usize, behind: usize) -> Result<usize, Fault>
    ensures sum { IfOk result (λ sum. sum ≡ between + before + behind) }
    ensures fault { IfErr result (λ fault. fault ≡ Range) }
    ensures range { OnErr result (2 ^ 64 ≤ between + before + behind) }
{
    add(add(between, before)?, behind)
}

// The columns or lines between `n` members.
fn gaps(is_there: bool, n: usize) -> usize
    requires { 0 < n }
    ensures { result ≡ gaps is_there n }
{
    if is_there { n - 1 } else { 0 }
}

/// Adds the sizes of all values and lines in a value, and its own before them, which it returns. Refused as `Range`
/// exactly where its own is out of range, and as `Memory` where allocation fails.
#[cycle(measure)]
pub(crate) fn push_sizes(
    cfg: &SpannedConfig,
    value: &TableValue,
    sizes: &mut Vec<Size>,
) -> Result<Size, Fault>
    ensures sizes { OnOk result (sizes.new.items ≡ sizes.old.items ++ sizes_of (look_of cfg.now) (nesting_of value.now)) }
    ensures own { IfOk result (λ size. size ≡ size_of (box_of (look_of cfg.now) (nesting_of value.now))) }
    ensures fault { IfErr result (λ fault. (fault ≡ Memory) ⊎ (fault ≡ Range)) }
    ensures range { IfErr result (λ fault. fault ≡ Range → IsTooLarge (box_of (look_of cfg.now) (nesting_of value.now))) }
{
    match value {
        TableValue::Cell(text) => push_text_size(cfg, text, sizes),
        TableValue::Row(members) => push_row_sizes(cfg, members, sizes),
        TableValue::Column(members) => push_column_sizes(cfg, members, sizes),
    }
}

// The same of a text: its own, and then those of its lines.
fn push_text_size(cfg: &SpannedConfig, text: &str, sizes: &mut Vec<Size>) -> Result<Size, Fault>
    ensures sizes { OnOk result (sizes.new.items ≡ sizes.old.items ++ size_of (text_box (look_of cfg.now) text.now) ∷ line_sizes text.now) }
    ensures own { IfOk result (λ size. size ≡ size_of (text_box (look_of cfg.now) text.now)) }
    ensures fault { IfErr result (λ fault. (fault ≡ Memory) ⊎ (fault ≡ Range)) }
    ensures range { IfErr result (λ fault. fault ≡ Range → IsTooLarge (text_box (look_of cfg.now) text.now)) }
{
    let at = sizes.len();
    push_size(
        sizes,
        Size {
            width: 0,
            height: 0,
        },
    )?;
    let columns = push_line_sizes(sizes, text)?;
    let size = padded(cfg, columns, sizes.len() - at - 1)?;
    sizes[at] = size;
    Ok(size)
}

// Adds the sizes of the lines of a text, and returns how many columns the widest takes. Each line is measured
// here, and nowhere else.
fn push_line_sizes(sizes: &mut Vec<Size>, text: &str) -> Result<usize, AllocError>
    ensures sizes { OnOk result (sizes.new.items ≡ sizes.old.items ++ line_sizes text.now) }
    ensures widest { IfOk result (λ widest. widest ≡ greatest (cell_measures false false text.now)) }
{
    let mut widest = 0;
    let mut rest = Some(text);
    while let Some(lines) = rest {
        let (line, behind) = split_line(lines);
        widest = push_line_size(sizes, line)?.max(widest);
        rest = behind;
    }
    Ok(widest)
}

// Adds the size of a line, and returns how many columns it takes.
fn push_line_size(sizes: &mut Vec<Size>, line: &str) -> Result<usize, AllocError>
    ensures size { OnOk result (sizes.new.items ≡ sizes.old.items ++ line_size (line_width line.now) ∷ []) }
    ensures columns { IfOk result (λ columns. columns ≡ line_width line.now) }
{
    let width = get_line_width(line);
    push_size(sizes, Size { width, height: 1 })?;
    Ok(width)
}

// The same of a row or a column without a member, which is as large as a text of one line without columns.
fn push_empty_size(cfg: &SpannedConfig, sizes: &mut Vec<Size>) -> Result<Size, Fault>
    ensures sizes { OnOk result (sizes.new.items ≡ sizes.old.items ++ size_of (text_box (look_of cfg.now) []) ∷ []) }
    ensures own { IfOk result (λ size. size ≡ size_of (text_box (look_of cfg.now) [])) }
    ensures fault { IfErr result (λ fault. (fault ≡ Memory) ⊎ (fault ≡ Range)) }
    ensures range { IfErr result (λ fault. fault ≡ Range → IsTooLarge (text_box (look_of cfg.now) [])) }
{
    let size = padded(cfg, 0, 1)?;
    push_size(sizes, size)?;
    Ok(size)
}

// The same of the members of a row.
#[cycle(measure)]
fn push_row_sizes(
    cfg: &SpannedConfig,
    members: &Vec<TableValue>,
    sizes: &mut Vec<Size>,
) -> Result<Size, Fault>
    ensures sizes { OnOk result (sizes.new.items ≡ sizes.old.items ++ sizes_of (look_of cfg.now) (Beside (nestings_of members.now.items))) }
    ensures own { IfOk result (λ size. size ≡ size_of (box_of (look_of cfg.now) (Beside (nestings_of members.now.items)))) }
    ensures fault { IfErr result (λ fault. (fault ≡ Memory) ⊎ (fault ≡ Range)) }
    ensures range { IfErr result (λ fault. fault ≡ Range → IsTooLarge (box_of (look_of cfg.now) (Beside (nestings_of members.now.items)))) }
{
    if members.is_empty() {
        return push_empty_size(cfg, sizes);
    }
    let at = sizes.len();
    let mut width = gaps(cfg.has_vertical(0, 1), members.len());
    let mut height = 0;
    push_size(sizes, Size { width, height })?;
    for member in members {
        let inner = push_sizes(cfg, member, sizes)?;
        width = add(width, inner.width)?;
        height = inner.height.max(height);
    }
    sizes[at] = Size { width, height };
    Ok(Size { width, height })
}

// The same of the members of a column.
#[cycle(measure)]
fn push_column_sizes(
    cfg: &SpannedConfig,
    members: &Vec<TableValue>,
    sizes: &mut Vec<Size>,
) -> Result<Size, Fault>
    ensures sizes { OnOk result (sizes.new.items ≡ sizes.old.items ++ sizes_of (look_of cfg.now) (Stacked (nestings_of members.now.items))) }
    ensures own { IfOk result (λ size. size ≡ size_of (box_of (look_of cfg.now) (Stacked (nestings_of members.now.items)))) }
    ensures fault { IfErr result (λ fault. (fault ≡ Memory) ⊎ (fault ≡ Range)) }
    ensures range { IfErr result (λ fault. fault ≡ Range → IsTooLarge (box_of (look_of cfg.now) (Stacked (nestings_of members.now.items)))) }
{
    if members.is_empty() {
        return push_empty_size(cfg, sizes);
    }
    let at = sizes.len();
    let mut width = 0;
    let mut height = gaps(cfg.has_horizontal(0, 1), members.len());
    push_size(sizes, Size { width, height })?;
    for member in members {
        let inner = push_sizes(cfg, member, sizes)?;
        width = inner.width.max(width);
        height = add(height, inner.height)?;
    }
    sizes[at] = Size { width, height };
    Ok(Size { width, height })
}

// A sum in range.
fn add(a: usize, b: usize) -> Result<usize, Fault>
    ensures sum { IfOk result (λ sum. sum ≡ a + b) }
    ensures range { IfErr result (λ fault. (fault ≡ Range) × (2 ^ 64 ≤ a + b)) }
{
    match a.checked_add(b) {
        Some(sum) => Ok(sum),
        None => Err(Fault::Range),
    }
}

fn push_size(sizes: &mut Vec<Size>, size: Size) -> Result<(), AllocError>
    ensures { OnOk result (sizes.new.items ≡ sizes.old.items ++ size ∷ []) }
{
    sizes.push(size)?;
    Ok(())
}
