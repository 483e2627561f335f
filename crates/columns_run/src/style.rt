//! Whether a style draws straight lines without colours.
ghost use Rattle.std.specs.Prelude.{◌≡◌, ◌↔◌, ◌&&◌, IfSome, IsTrue};
ghost use Rattle.grid_config.specs.Compact.{border_colors, compact_of, side_colors};
ghost use Rattle.columns_run.specs.Narrow.{GlyphsAre, HasNarrowGlyphs, HasNarrowSettings, IsNarrowCharacter, are_borders_uncolored, are_sides_uncolored, is_uncolored};
ghost use Rattle.papergrid_picture.specs.Shown.{OnEachSide};
ghost use Rattle.grid_config.specs.Colors.{color_of};
ghost use Rattle.std.specs.Option.{option_map};

use grid_config::{ANSIStr, Borders, CompactConfig, Indent, Sides};
use grid_records_measure::get_char_width;

/// Whether each glyph and each fill of the style takes one column and is no control character, and no
/// colour is set: a colour with empty texts is none. Does not allocate.
pub fn style_is_plain(style: &CompactConfig) -> bool
    ensures { IsTrue result ↔ HasNarrowGlyphs (compact_of style.now) }
{
    are_settings_narrow(style)
}

// The same, setting by setting.
fn are_settings_narrow(style: &CompactConfig) -> bool
    ensures { IsTrue result ↔ HasNarrowSettings (compact_of style.now) }
{
    glyphs_are_narrow(style.get_borders())
        && fills_are_narrow(style.get_margin())
        && fills_are_narrow(style.get_padding())
        && sides_are_uncolored(style.get_margin_color())
        && sides_are_uncolored(style.get_padding_color())
        && borders_are_uncolored(style.get_borders_color())
}

// Whether each glyph that is set takes one column and controls nothing.
fn glyphs_are_narrow(borders: &Borders<char>) -> bool
    ensures { IsTrue result ↔ GlyphsAre IsNarrowCharacter borders.now }
{
    are_narrow(
        borders.top_left,
        borders.top_intersection,
        borders.top_right,
    ) && are_narrow(
        borders.left_intersection,
        borders.intersection,
        borders.right_intersection,
    ) && are_narrow(
        borders.bottom_left,
        borders.bottom_intersection,
        borders.bottom_right,
    ) && are_narrow(borders.top, borders.horizontal, borders.bottom)
        && are_narrow(borders.left, borders.vertical, borders.right)
}

// The same of three glyphs.
fn are_narrow(a: Option<char>, b: Option<char>, c: Option<char>) -> bool
    ensures { IsTrue result ↔ (IfSome a IsNarrowCharacter × IfSome b IsNarrowCharacter × IfSome c IsNarrowCharacter) }
{
    is_narrow(a) && is_narrow(b) && is_narrow(c)
}

// The same of one glyph.
fn is_narrow(glyph: Option<char>) -> bool
    ensures { IsTrue result ↔ IfSome glyph IsNarrowCharacter }
{
    match glyph {
        Some(character) => is_narrow_character(character),
        None => true,
    }
}

// Whether the character takes one column and is no control character.
fn is_narrow_character(character: char) -> bool
    ensures { IsTrue result ↔ IsNarrowCharacter character }
{
    get_char_width(character) == 1 && !character.is_control()
}

// Whether each fill takes one column and controls nothing, also one of no columns.
fn fills_are_narrow(sides: &Sides<Indent>) -> bool
    ensures { IsTrue result ↔ OnEachSide (λ indent. IsNarrowCharacter indent.fill) sides.now }
{
    is_narrow_character(sides.left.fill)
        && is_narrow_character(sides.right.fill)
        && is_narrow_character(sides.top.fill)
        && is_narrow_character(sides.bottom.fill)
}

// Whether no side has a colour with a text.
fn sides_are_uncolored(colors: &Sides<ANSIStr<'static>>) -> bool
    ensures { result ≡ are_sides_uncolored (side_colors colors.now) }
{
    colors.left.is_empty()
        && colors.right.is_empty()
        && colors.top.is_empty()
        && colors.bottom.is_empty()
}

// Whether no glyph has a colour with a text.
fn borders_are_uncolored(colors: &Borders<ANSIStr<'static>>) -> bool
    ensures { result ≡ are_borders_uncolored (border_colors colors.now) }
{
    are_uncolored(
        &colors.top_left,
        &colors.top_intersection,
        &colors.top_right,
    ) && are_uncolored(
        &colors.left_intersection,
        &colors.intersection,
        &colors.right_intersection,
    ) && are_uncolored(
        &colors.bottom_left,
        &colors.bottom_intersection,
        &colors.bottom_right,
    ) && are_uncolored(&colors.top, &colors.horizontal, &colors.bottom)
        && are_uncolored(&colors.left, &colors.vertical, &colors.right)
}

// The same of three glyphs.
fn are_uncolored(
    a: &Option<ANSIStr<'static>>,
    b: &Option<ANSIStr<'static>>,
    c: &Option<ANSIStr<'static>>,
) -> bool
    ensures { result ≡ (is_uncolored (option_map color_of a.now) && (is_uncolored (option_map color_of b.now) && is_uncolored (option_map color_of c.now))) }
{
    is_uncolored(a) && is_uncolored(b) && is_uncolored(c)
}

// The same of one glyph.
fn is_uncolored(color: &Option<ANSIStr<'static>>) -> bool
    ensures { result ≡ is_uncolored (option_map color_of color.now) }
{
    match color {
        Some(color) => color.is_empty(),
        None => true,
    }
}
