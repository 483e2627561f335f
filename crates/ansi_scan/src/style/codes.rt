//! What a single code of a sequence sets or clears.
ghost use Rattle.std.specs.Prelude.{◌≡◌};
ghost use Rattle.ansi_scan.specs.Styles.Attributes.{font_after, foreground_after, background_after, underline_color_after};

use crate::style::color::AnsiColor;
use crate::style::packed::PackedColor;

/// The font after a code: the code that chose it.
pub fn font_after(code: u8, font: Option<u8>) -> Option<u8>
    ensures { result ≡ font_after code font }
{
    match code {
        11..=19 => Some(code),
        10 | 0 => None,
        _ => font,
    }
}

/// The foreground after a code other than 38.
pub fn foreground_after(code: u8, color: PackedColor) -> PackedColor
    ensures { result ≡ foreground_after code color }
{
    match code {
        30..=37 | 90..=97 => PackedColor::new(AnsiColor::Bit4(code)),
        39 | 0 => PackedColor::none(),
        _ => color,
    }
}

/// The background after a code other than 48.
pub fn background_after(code: u8, color: PackedColor) -> PackedColor
    ensures { result ≡ background_after code color }
{
    match code {
        40..=47 | 100..=107 => PackedColor::new(AnsiColor::Bit4(code)),
        49 | 0 => PackedColor::none(),
        _ => color,
    }
}

/// The colour of the underline after a code other than 58.
pub fn underline_color_after(code: u8, color: PackedColor) -> PackedColor
    ensures { result ≡ underline_color_after code color }
{
    match code {
        59 | 0 => PackedColor::none(),
        _ => color,
    }
}
