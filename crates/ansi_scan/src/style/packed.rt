//! A colour that may be set, in four bytes.
ghost use Rattle.std.specs.Prelude.{◌≡◌, None, Some, is_some};

use crate::style::color::AnsiColor;
use std::marker::Model;

/// A colour that may be set: how it was set, and up to three numbers. What is not used is 0.
#[derive(Clone, Copy, Debug, PartialEq, Eq, PartialOrd, Ord, Hash)]
pub struct PackedColor {
    kind: u8,
    first: u8,
    second: u8,
    third: u8,
}

impl Model for PackedColor {
    ghost use Rattle.std.specs.Prelude.{◌≡◌, Option};
    ghost use Rattle.ansi_scan.specs.declared.style.color.AnsiColor.{AnsiColor};

    ghost Value = { Option AnsiColor };

    ghost use Rattle.ansi_scan.specs.Styles.Packed.{color_in, packed};

    ghost view = { color_in };

    ghost invariant = { λ fields. packed (color_in fields) ≡ fields };

    ghost inverse = { packed };

    ghost inverse_ok = { λ fields same. same };
}

impl PackedColor {
    /// No colour.
    pub fn none() -> PackedColor
        ensures { result ≡ None }
    {
        PackedColor {
            kind: 0,
            first: 0,
            second: 0,
            third: 0,
        }
    }

    /// This colour.
    pub fn new(color: AnsiColor) -> PackedColor
        ensures { result ≡ Some color }
    {
        match color {
            AnsiColor::Bit4(code) => PackedColor {
                kind: 1,
                first: code,
                second: 0,
                third: 0,
            },
            AnsiColor::Bit8(n) => PackedColor {
                kind: 2,
                first: n,
                second: 0,
                third: 0,
            },
            AnsiColor::Bit24 { r, g, b } => PackedColor {
                kind: 3,
                first: r,
                second: g,
                third: b,
            },
        }
    }

    /// The colour, where one is set.
    pub fn color(self) -> Option<AnsiColor>
        ensures { result ≡ self }
    {
        match self.kind {
            0 => None,
            1 => Some(AnsiColor::Bit4(self.first)),
            2 => Some(AnsiColor::Bit8(self.first)),
            _ => Some(AnsiColor::Bit24 {
                r: self.first,
                g: self.second,
                b: self.third,
            }),
        }
    }

    /// Whether a colour is set.
    pub fn is_set(self) -> bool
        ensures { result ≡ is_some self }
    {
        self.kind != 0
    }
}
