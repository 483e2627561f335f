//! The attributes of a style that are set or not.
ghost use Rattle.std.specs.Prelude.{◌≡◌, ◌==◌, ◌^◌};
ghost use Rattle.std.specs.Simd.Lanes.{mask_l};
ghost use Rattle.ansi_scan.specs.Styles.Attributes.{after_code};
ghost use Rattle.ansi_scan.specs.Styles.Flags.{bits_kept_by, bits_set_by, flags_of, is_set, only_flags, bit_place, word_of};

use std::marker::Model;

/// An attribute that is set or not.
#[derive(Clone, Copy)]
pub enum Flag {
    Bold,
    Faint,
    Italic,
    Underline,
    SlowBlink,
    RapidBlink,
    Inverted,
    Hidden,
    CrossedOut,
    Fraktur,
    DoubleUnderline,
    ProportionalSpacing,
    Framed,
    Encircled,
    Overlined,
    IdeogramUnderline,
    IdeogramDoubleUnderline,
    IdeogramOverline,
    IdeogramDoubleOverline,
    IdeogramStress,
    Superscript,
    Subscript,
}

const BOLD: u32 = 1 << 21;

const FAINT: u32 = 1 << 20;

const ITALIC: u32 = 1 << 19;

const UNDERLINE: u32 = 1 << 18;

const SLOW_BLINK: u32 = 1 << 17;

const RAPID_BLINK: u32 = 1 << 16;

const INVERTED: u32 = 1 << 15;

const HIDDEN: u32 = 1 << 14;

const CROSSED_OUT: u32 = 1 << 13;

const FRAKTUR: u32 = 1 << 12;

const DOUBLE_UNDERLINE: u32 = 1 << 11;

const PROPORTIONAL_SPACING: u32 = 1 << 10;

const FRAMED: u32 = 1 << 9;

const ENCIRCLED: u32 = 1 << 8;

const OVERLINED: u32 = 1 << 7;

const IDEOGRAM_UNDERLINE: u32 = 1 << 6;

const IDEOGRAM_DOUBLE_UNDERLINE: u32 = 1 << 5;

const IDEOGRAM_OVERLINE: u32 = 1 << 4;

const IDEOGRAM_DOUBLE_OVERLINE: u32 = 1 << 3;

const IDEOGRAM_STRESS: u32 = 1 << 2;

const SUPERSCRIPT: u32 = 1 << 1;

const SUBSCRIPT: u32 = 1 << 0;

const ALL: u32 = (1 << 22) - 1;

/// The attributes that are set or not, without a value: a bit for each, the first the highest.
#[derive(Clone, Copy, Debug, PartialEq, Eq, PartialOrd, Ord, Hash)]
pub struct Flags {
    word: u32,
}

impl Model for Flags {
    ghost use Rattle.std.specs.Prelude.{◌≡◌};
    ghost use Rattle.ansi_scan.specs.Styles.FlagSet.{FlagSet};

    ghost Value = { FlagSet };

    ghost use Rattle.ansi_scan.specs.Styles.Flags.{flags_in, word_of};

    ghost view = { λ fields. flags_in fields.word };

    ghost invariant = { λ fields. word_of (flags_in fields.word) ≡ fields.word };

    ghost inverse = { λ flags. record { word = word_of flags } };

    ghost inverse_ok = { λ fields same i. record { word = same i } };
}

impl Flag {
    // The bit of an attribute.
    fn bit(self) -> u32
        ensures { result ≡ 2 ^ bit_place self }
    {
        match self {
            Flag::Bold => BOLD,
            Flag::Faint => FAINT,
            Flag::Italic => ITALIC,
            Flag::Underline => UNDERLINE,
            Flag::SlowBlink => SLOW_BLINK,
            Flag::RapidBlink => RAPID_BLINK,
            Flag::Inverted => INVERTED,
            Flag::Hidden => HIDDEN,
            Flag::CrossedOut => CROSSED_OUT,
            Flag::Fraktur => FRAKTUR,
            Flag::DoubleUnderline => DOUBLE_UNDERLINE,
            Flag::ProportionalSpacing => PROPORTIONAL_SPACING,
            Flag::Framed => FRAMED,
            Flag::Encircled => ENCIRCLED,
            Flag::Overlined => OVERLINED,
            Flag::IdeogramUnderline => IDEOGRAM_UNDERLINE,
            Flag::IdeogramDoubleUnderline => IDEOGRAM_DOUBLE_UNDERLINE,
            Flag::IdeogramOverline => IDEOGRAM_OVERLINE,
            Flag::IdeogramDoubleOverline => IDEOGRAM_DOUBLE_OVERLINE,
            Flag::IdeogramStress => IDEOGRAM_STRESS,
            Flag::Superscript => SUPERSCRIPT,
            Flag::Subscript => SUBSCRIPT,
        }
    }
}

impl Flags {
    /// No attribute is set.
    pub fn none() -> Flags
        ensures { word_of result ≡ 0 }
    {
        Flags { word: 0 }
    }

    /// Whether no attribute is set.
    pub fn is_none(self) -> bool
        ensures { result ≡ (word_of self == 0) }
    {
        self.word == 0
    }

    /// Whether the attribute is set.
    pub fn has(self, flag: Flag) -> bool
        ensures { result ≡ is_set flag self }
    {
        self.word & flag.bit() != 0
    }

    /// The attributes after one code of the table.
    pub fn after_code(self, code: u8) -> Flags
        ensures { result ≡ flags_of (after_code (only_flags self) code) }
    {
        Flags {
            word: self.word & kept_by(code) | set_by(code),
        }
    }
}

// The bits that a code does not clear.
fn kept_by(code: u8) -> u32
    ensures { result ≡ mask_l (bits_kept_by code) }
{
    match code {
        0 => 0,
        22 => ALL ^ (BOLD | FAINT),
        23 => ALL ^ (ITALIC | FRAKTUR),
        24 => ALL ^ (UNDERLINE | DOUBLE_UNDERLINE),
        25 => ALL ^ (SLOW_BLINK | RAPID_BLINK),
        27 => ALL ^ INVERTED,
        28 => ALL ^ HIDDEN,
        29 => ALL ^ CROSSED_OUT,
        50 => ALL ^ PROPORTIONAL_SPACING,
        54 => ALL ^ (FRAMED | ENCIRCLED),
        55 => ALL ^ OVERLINED,
        65 => ALL
            ^ (IDEOGRAM_UNDERLINE
                | IDEOGRAM_DOUBLE_UNDERLINE
                | IDEOGRAM_OVERLINE
                | IDEOGRAM_DOUBLE_OVERLINE
                | IDEOGRAM_STRESS),
        75 => ALL ^ (SUPERSCRIPT | SUBSCRIPT),
        _ => ALL,
    }
}

// The bits that a code sets.
fn set_by(code: u8) -> u32
    ensures { result ≡ mask_l (bits_set_by code) }
{
    match code {
        1 => BOLD,
        2 => FAINT,
        3 => ITALIC,
        4 => UNDERLINE,
        5 => SLOW_BLINK,
        6 => RAPID_BLINK,
        7 => INVERTED,
        8 => HIDDEN,
        9 => CROSSED_OUT,
        20 => FRAKTUR,
        21 => DOUBLE_UNDERLINE,
        26 => PROPORTIONAL_SPACING,
        51 => FRAMED,
        52 => ENCIRCLED,
        53 => OVERLINED,
        60 => IDEOGRAM_UNDERLINE,
        61 => IDEOGRAM_DOUBLE_UNDERLINE,
        62 => IDEOGRAM_OVERLINE,
        63 => IDEOGRAM_DOUBLE_OVERLINE,
        64 => IDEOGRAM_STRESS,
        73 => SUPERSCRIPT,
        74 => SUBSCRIPT,
        _ => 0,
    }
}
