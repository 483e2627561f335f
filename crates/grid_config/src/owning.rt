//! Colours that own their texts, made of colours that borrow them.
ghost use Rattle.std.specs.Prelude.{◌≡◌, IfOk, IsOk, None, OnOk};
ghost use Rattle.std.specs.Option.{option_map};
ghost use Rattle.grid_config.specs.Ansi.Colors.{color_of};
ghost use Rattle.grid_config_values.specs.Glyphs.{no_borders};
ghost use Rattle.grid_config.specs.Compact.{border_colors, each_side, map_borders, side_colors};
ghost use Rattle.grid_config.specs.Settings.{color_if, color_if_set, side_colors_if};

use crate::colors::{ANSIBuf, ANSIStr};
use grid_config_values::{Borders, Sides};
use std::alloc::{AllocError, Global};

/// The colours of the sides, none where both texts are empty.
pub(crate) fn owned_sides(
    alloc: Global,
    colors: &Sides<ANSIStr<'static>>,
) -> Result<Sides<Option<ANSIBuf>>, AllocError>
    ensures colors { IfOk result (λ owned. owned ≡ side_colors_if (side_colors colors.now)) }
    ensures none { side_colors_if (side_colors colors.now) ≡ each_side None → IsOk result }
{
    Ok(Sides {
        left: owned_if(alloc, colors.left)?,
        right: owned_if(alloc, colors.right)?,
        top: owned_if(alloc, colors.top)?,
        bottom: owned_if(alloc, colors.bottom)?,
    })
}

// The colour, none where both its texts are empty.
fn owned_if(alloc: Global, color: ANSIStr<'static>) -> Result<Option<ANSIBuf>, AllocError>
    ensures color { IfOk result (λ owned. owned ≡ color_if (color_of color.entry)) }
    ensures none { color_if (color_of color.entry) ≡ None → IsOk result }
{
    if color.is_empty() {
        return Ok(None);
    }
    Ok(Some(ANSIBuf::from_ansi_str(alloc, color)?))
}

/// Puts the colours of the borders in their places. These are lent, so that a refusal has nothing to drop.
pub(crate) fn fill_borders(
    alloc: Global,
    colors: &Borders<ANSIStr<'static>>,
    owned: &mut Borders<ANSIBuf>,
) -> Result<(), AllocError>
    ensures colors { OnOk result (owned.new ≡ border_colors colors.now) }
    ensures none { map_borders color_if_set (border_colors colors.now) ≡ no_borders → IsOk result }
{
    put_glyph(alloc, colors.top, &mut owned.top)?;
    put_glyph(alloc, colors.top_left, &mut owned.top_left)?;
    put_glyph(alloc, colors.top_right, &mut owned.top_right)?;
    put_glyph(alloc, colors.top_intersection, &mut owned.top_intersection)?;
    put_glyph(alloc, colors.bottom, &mut owned.bottom)?;
    put_glyph(alloc, colors.bottom_left, &mut owned.bottom_left)?;
    put_glyph(alloc, colors.bottom_right, &mut owned.bottom_right)?;
    put_glyph(
        alloc,
        colors.bottom_intersection,
        &mut owned.bottom_intersection,
    )?;
    put_glyph(alloc, colors.horizontal, &mut owned.horizontal)?;
    put_glyph(
        alloc,
        colors.left_intersection,
        &mut owned.left_intersection,
    )?;
    put_glyph(
        alloc,
        colors.right_intersection,
        &mut owned.right_intersection,
    )?;
    put_glyph(alloc, colors.intersection, &mut owned.intersection)?;
    put_glyph(alloc, colors.vertical, &mut owned.vertical)?;
    put_glyph(alloc, colors.left, &mut owned.left)?;
    put_glyph(alloc, colors.right, &mut owned.right)?;
    Ok(())
}

// Puts the colour of a glyph in its place, where there is one.
fn put_glyph(
    alloc: Global,
    color: Option<ANSIStr<'static>>,
    place: &mut Option<ANSIBuf>,
) -> Result<(), AllocError>
    ensures color { OnOk result (place.new ≡ option_map color_of color.entry) }
    ensures none { color_if_set (option_map color_of color.entry) ≡ None → IsOk result }
{
    *place = match color {
        None => None,
        Some(color) => Some(ANSIBuf::from_ansi_str(alloc, color)?),
    };
    Ok(())
}
