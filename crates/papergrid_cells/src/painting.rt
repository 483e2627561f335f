//! Fills, texts and boundary lines in their colours.
ghost use Rattle.std.specs.Prelude.{◌≡◌, ◌<◌, ◌≤◌, ◌++◌, OnOk, [], if◌then◌else◌, length, map, replicate, string_bytes};
ghost use Rattle.std.specs.Option.{option_map};
ghost use Rattle.grid_config.specs.Colors.{color_of};
ghost use Rattle.papergrid_picture.specs.Reading.{line_items, same_color};
ghost use Rattle.papergrid_cells.specs.Painting.{without_cells, are_uncolored, color_change, colored, fill_bytes, glyph_part, prefix_of, suffix_of};

use grid_config::ANSIStr;
use std::alloc::AllocError;

/// A glyph of a boundary line, in `width` columns, and its colour.
#[derive(Clone, Copy)]
pub struct GlyphRun<'a> {
    pub character: char,
    pub width: usize,
    pub color: Option<ANSIStr<'a>>,
}

/// Appends a character `width` times, in its colour. Fails only where allocation fails.
#[inline(always)]
pub(crate) fn push_fill(
    out: &mut String,
    character: char,
    width: usize,
    color: Option<ANSIStr<'_>>,
) -> Result<(), AllocError>
    ensures { OnOk result (string_bytes out.new ≡ string_bytes out.old ++ colored (option_map color_of color.entry) (fill_bytes character width)) }
{
    if width == 0 {
        return Ok(());
    }
    push_some(out, character, width, color)
}

// The same at least once.
fn push_some(
    out: &mut String,
    character: char,
    width: usize,
    color: Option<ANSIStr<'_>>,
) -> Result<(), AllocError>
    requires { 0 < width }
    ensures { OnOk result (string_bytes out.new ≡ string_bytes out.old ++ colored (option_map color_of color.entry) (fill_bytes character width)) }
{
    let Some(_) = color else {
        return push_repeated(out, character, width);
    };
    change_color(out, None, color)?;
    push_repeated(out, character, width)?;
    change_color(out, color, None)
}

/// Appends a text in a colour. Fails only where allocation fails.
#[inline(always)]
pub(crate) fn push_text(
    out: &mut String,
    text: &str,
    color: Option<ANSIStr<'_>>,
) -> Result<(), AllocError>
    ensures { OnOk result (string_bytes out.new ≡ string_bytes out.old ++ colored (option_map color_of color.entry) text.now) }
{
    let Some(color) = color else {
        return out.push_str(text);
    };
    if text.is_empty() {
        return Ok(());
    }
    out.push_str(color.get_prefix())?;
    out.push_str(text)?;
    out.push_str(color.get_suffix())
}

/// Appends glyphs of a boundary line. Neighbours in one colour are coloured together. Fails only where
/// allocation fails.
pub fn push_glyphs(out: &mut String, glyphs: &[GlyphRun<'_>]) -> Result<(), AllocError>
    ensures { OnOk result (string_bytes out.new ≡ string_bytes out.old ++ line_items without_cells (map glyph_part glyphs.now)) }
{
    let mut color = None;
    for glyph in glyphs {
        if glyph.width > 0 {
            change_color(out, color, glyph.color)?;
            push_repeated(out, glyph.character, glyph.width)?;
            color = glyph.color;
        }
    }
    change_color(out, color, None)
}

/// Appends the glyphs that were collected, which it takes out, where none of them has a colour: what follows can't go on
/// in one. Else they all stay. So of a long boundary line few glyphs are held. Fails only where allocation fails.
pub fn push_uncolored(out: &mut String, glyphs: &mut Vec<GlyphRun<'_>>) -> Result<(), AllocError>
    ensures glyphs { OnOk result (glyphs.new.items ≡ (if are_uncolored glyphs.old.items then [] else glyphs.old.items)) }
    ensures out { OnOk result (string_bytes out.new ≡ string_bytes out.old
        ++ (if are_uncolored glyphs.old.items then line_items without_cells (map glyph_part glyphs.old.items) else [])) }
{
    if !are_uncolored(glyphs) {
        return Ok(());
    }
    push_glyphs(out, glyphs)?;
    glyphs.clear();
    Ok(())
}

// Whether none of the glyphs has a colour.
fn are_uncolored(glyphs: &[GlyphRun<'_>]) -> bool
    ensures { result ≡ are_uncolored glyphs.now }
{
    glyphs.iter().all(|glyph| glyph.color.is_none())
}

// Ends a colour and begins the next one; writes nothing between equal colours.
fn change_color(
    out: &mut String,
    before: Option<ANSIStr<'_>>,
    next: Option<ANSIStr<'_>>,
) -> Result<(), AllocError>
    ensures { OnOk result (string_bytes out.new ≡ string_bytes out.old ++ color_change (option_map color_of before.entry) (option_map color_of next.entry)) }
{
    if is_same_color(before, next) {
        return Ok(());
    }
    out.push_str(suffix_of(before))?;
    out.push_str(prefix_of(next))
}

// Whether both are no colour, or colours of the same texts.
fn is_same_color(a: Option<ANSIStr<'_>>, b: Option<ANSIStr<'_>>) -> bool
    ensures { result ≡ same_color (option_map color_of a.entry) (option_map color_of b.entry) }
{
    match (a, b) {
        (Some(a), Some(b)) => {
            a.get_prefix() == b.get_prefix() && a.get_suffix() == b.get_suffix()
        }
        (None, None) => true,
        _ => false,
    }
}

// What a colour writes before what it colours.
fn prefix_of<'a>(color: Option<ANSIStr<'a>>) -> &'a str
    ensures { result.now ≡ prefix_of (option_map color_of color.entry) }
{
    match color {
        Some(color) => color.get_prefix(),
        None => "",
    }
}

// What a colour writes after what it colours.
fn suffix_of<'a>(color: Option<ANSIStr<'a>>) -> &'a str
    ensures { result.now ≡ suffix_of (option_map color_of color.entry) }
{
    match color {
        Some(color) => color.get_suffix(),
        None => "",
    }
}

/// Appends a character `width` times, with one growth. Fails only where allocation fails.
#[inline(never)]
pub(crate) fn push_repeated(
    out: &mut String,
    character: char,
    width: usize,
) -> Result<(), AllocError>
    ensures { OnOk result (string_bytes out.new ≡ string_bytes out.old ++ fill_bytes character width) }
{
    if character == ' ' && width <= 64 {
        let spaces = "                                                                ";
        return push_spaces(out, spaces, width);
    }
    push_each(out, character, width)
}

// Appends `width` of these spaces.
fn push_spaces(out: &mut String, spaces: &str, width: usize) -> Result<(), AllocError>
    requires spaces { spaces.now ≡ replicate (length spaces.now) 0x20 }
    requires enough { width ≤ length spaces.now }
    ensures { OnOk result (string_bytes out.new ≡ string_bytes out.old ++ fill_bytes 0x20 width) }
{
    out.push_str(&spaces[..width])?;
    Ok(())
}

// The same, one by one, after one growth; one alone, as most borders are, is appended at once. Where they take more bytes than a `usize` counts, as many as it counts are
// requested, and no memory holds these.
fn push_each(out: &mut String, character: char, width: usize) -> Result<(), AllocError>
    ensures { OnOk result (string_bytes out.new ≡ string_bytes out.old ++ fill_bytes character width) }
{
    if width == 1 {
        out.push(character)?;
        return Ok(());
    }
    out.reserve(width.saturating_mul(character.len_utf8()))?;
    for _ in 0..width {
        out.push(character)?;
    }
    Ok(())
}
