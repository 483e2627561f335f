//! The line of a row of empty cells, over which the texts of a row are written.
ghost use Rattle.std.specs.Prelude.{◌≡◌, ◌+◌, ◌++◌, ◌<◌, ◌^◌, OnOk, Some, length, string_bytes};
ghost use Rattle.std.specs.List.{replace_range};
ghost use Rattle.std.specs.Option.{option_map};
ghost use Rattle.std.specs.String.Boundary.{IsSplitPoint};
ghost use Rattle.grid_config.specs.Colors.{color_of};
ghost use Rattle.papergrid_cells.specs.Painting.{colored, prefix_of, suffix_of};
ghost use Rattle.papergrid_cells.specs.Spaces.{HasSpaces};

use grid_config::ANSIStr;
use std::alloc::AllocError;

/// What is known about the colours of a column's cells, and what the line of a row of empty cells holds for them.
#[derive(Clone, Copy)]
pub enum Ink<'a> {
    /// No cell has a colour.
    Uncolored,
    /// Each cell has the colour of these texts, and its text is at the left. The prefix is before the slot of
    /// the column, and the slot has spaces for the suffix.
    Led { prefix: &'a str, suffix: &'a str },
    /// The colour of each cell is looked up: the slot has spaces for so many bytes of a colour.
    Asked(usize),
}

impl<'a> Ink<'a> {
    ghost use Rattle.std.specs.Prelude.{◌≡◌};
    ghost use Rattle.papergrid_cells.specs.Flat.{kept_bytes, led_bytes};

    /// The bytes before the slot of the column.
    pub fn lead(&self) -> &'a str
        ensures { result.now ≡ led_bytes self.now }
    {
        match *self {
            Ink::Led { prefix, suffix: _ } => prefix,
            Ink::Uncolored => "",
            Ink::Asked(_) => "",
        }
    }

    /// For how many bytes of a colour the slot of the column has spaces.
    pub fn kept(&self) -> usize
        ensures { result ≡ kept_bytes self.now }
    {
        match *self {
            Ink::Led { prefix: _, suffix } => suffix.len(),
            Ink::Uncolored => 0,
            Ink::Asked(shade) => shade,
        }
    }
}

/// Where the text of a column may be in the line of a row of empty cells. It has `width` columns and the bytes that
/// its ink keeps for a colour; these begin `rest` bytes before the end of the line.
#[derive(Clone, Copy)]
pub struct TextSlot<'a> {
    pub width: usize,
    pub ink: Ink<'a>,
    pub rest: usize,
}

/// The line of a row of empty cells, and the slot of each column in it.
#[derive(Drop)]
pub struct EmptyRow<'a> {
    pub line: String,
    pub slots: Vec<TextSlot<'a>>,
}

/// How many bytes a colour takes around a text that is not empty.
#[inline(always)]
pub fn color_len(color: Option<ANSIStr<'_>>) -> usize
    ensures { result ≡ length (prefix_of (option_map color_of color.entry)) + length (suffix_of (option_map color_of color.entry)) }
{
    match color {
        Some(color) => color.get_prefix().len() + color.get_suffix().len(),
        None => 0,
    }
}

/// How many bytes this colour takes around this text: none where that is empty.
#[inline(always)]
pub fn shade_of(color: ANSIStr<'_>, text: &str) -> usize
    ensures { result + length text.now ≡ length (colored (Some (color_of color.entry)) text.now) }
{
    if text.is_empty() {
        return 0;
    }
    color_len(Some(color))
}

/// Writes a text over as many bytes, from `start` on. Fails only where allocation fails.
#[inline]
pub fn write_over(out: &mut String, start: usize, text: &str) -> Result<(), AllocError>
    requires range { start + length text.now < 2 ^ 64 }
    requires start { IsSplitPoint (string_bytes out.old) start }
    requires end { IsSplitPoint (string_bytes out.old) (start + length text.now) }
    ensures { OnOk result (string_bytes out.new ≡ replace_range (string_bytes out.old) start (start + length text.now) text.now) }
{
    out.replace_range(start..start + text.len(), text)
}

/// Writes a text in this colour over as many spaces, from `start` on. Fails only where allocation fails.
#[inline(never)]
pub fn write_colored(
    out: &mut String,
    start: usize,
    text: &str,
    color: ANSIStr<'_>,
) -> Result<(), AllocError>
    requires spaces { HasSpaces (string_bytes out.old) start (length (colored (Some (color_of color)) text.now)) }
    ensures { OnOk result (let shown = colored (Some (color_of color.entry)) text.now in
        string_bytes out.new ≡ replace_range (string_bytes out.old) start (start + length shown) shown) }
{
    if text.is_empty() {
        return Ok(());
    }
    let (prefix, suffix) = (color.get_prefix(), color.get_suffix());
    write_over(out, start, prefix)?;
    write_over(out, start + prefix.len(), text)?;
    write_over(out, start + prefix.len() + text.len(), suffix)
}

/// Writes a text, and after it the end of its colour, over as many spaces, from `start` on. Fails only where
/// allocation fails.
#[inline(always)]
pub fn write_ended(
    out: &mut String,
    start: usize,
    text: &str,
    suffix: &str,
) -> Result<(), AllocError>
    requires spaces { HasSpaces (string_bytes out.old) start (length (text.now ++ suffix.now)) }
    ensures { OnOk result (let shown = text.now ++ suffix.now in
        string_bytes out.new ≡ replace_range (string_bytes out.old) start (start + length shown) shown) }
{
    write_over(out, start, text)?;
    write_over(out, start + text.len(), suffix)
}
