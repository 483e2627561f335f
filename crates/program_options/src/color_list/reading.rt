//! A list of colours, read.
ghost use Rattle.std.specs.Prelude.{◌≡◌, IfOk, map, vec_items};
ghost use Rattle.std.specs.List.{slice_split};
ghost use Rattle.std.specs.Option.{option_map};
ghost use Rattle.grid_config.specs.Ansi.Colors.{color_of};
ghost use Rattle.program_options.specs.ColorList.Listed.{all_of, is_comma, listed_color, listed_colors};
ghost use Rattle.program_options.specs.ColorList.Steps.{with_one_more};

use crate::color_list::columns::column_of;
use crate::color_list::names::color_named;
use crate::color_list::twice::has_twice;
use grid_config::{ANSIBuf, ANSIStr};
use std::alloc::{AllocError, Global};

/// The colours of a list, `COLUMN=NAME` separated by commas. None where an item has another form, a column is above
/// 4294967295 or is there twice, or a name is not known. Looks at each item once. Fails only where allocation fails.
pub fn colors_of(alloc: Global, list: &str) -> Result<Option<Vec<(usize, ANSIBuf)>>, AllocError>
    ensures { IfOk result (λ found. option_map vec_items found ≡ listed_colors list.now) }
{
    let Some(colors) = all_colors(alloc, list)? else {
        return Ok(None);
    };
    if has_twice(alloc, &colors)? {
        return Ok(None);
    }
    Ok(Some(colors))
}

// The colours of all items.
fn all_colors(alloc: Global, list: &str) -> Result<Option<Vec<(usize, ANSIBuf)>>, AllocError>
    ensures { IfOk result (λ found. option_map vec_items found ≡ all_of (map listed_color (slice_split is_comma list.now))) }
{
    let mut colors = Some(Vec::new(alloc));
    for item in list.split(',') {
        colors = match colors {
            Some(found) => with_item(alloc, found, item)?,
            None => None,
        };
    }
    Ok(colors)
}

// The colours with that of the item.
fn with_item(
    alloc: Global,
    found: Vec<(usize, ANSIBuf)>,
    item: &str,
) -> Result<Option<Vec<(usize, ANSIBuf)>>, AllocError>
    ensures { IfOk result (λ colors. option_map vec_items colors ≡ with_one_more (vec_items found) (listed_color item.now)) }
{
    let Some((column, color)) = color_of(item) else {
        return Ok(None);
    };
    let mut colors = found;
    colors.push((column, ANSIBuf::from_ansi_str(alloc, color)?))?;
    Ok(Some(colors))
}

// The column and the colour of an item.
fn color_of(item: &str) -> Option<(usize, ANSIStr<'static>)>
    ensures { option_map (λ found. (found.0, color_of found.1)) result ≡ listed_color item.now }
{
    let (column, name) = item.split_once('=')?;
    let column = column_of(column)?;
    let color = color_named(name)?;
    Some((column, color))
}
