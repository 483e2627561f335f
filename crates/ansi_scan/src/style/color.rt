//! Colours, as sequences set them and as they are named.
ghost use Rattle.std.specs.Prelude.{◌≡◌};
ghost use Rattle.ansi_scan.specs.Styles.Color.{as_color, named_color};

/// A colour as a sequence sets it.
#[derive(Clone, Copy, Debug, PartialEq, Eq, PartialOrd, Ord, Hash)]
pub enum AnsiColor {
    /// By a code of its own, as 31.
    Bit4(u8),
    /// By `5;n`.
    Bit8(u8),
    /// By `2;r;g;b`.
    Bit24 { r: u8, g: u8, b: u8 },
}

/// A colour by its name, by its number, or by red, green and blue.
#[derive(Clone, Copy, Debug, PartialEq, Eq, PartialOrd, Ord, Hash)]
pub enum Color {
    Black,
    BrightBlack,
    Red,
    BrightRed,
    Green,
    BrightGreen,
    Yellow,
    BrightYellow,
    Blue,
    BrightBlue,
    /// No sequence is read as this colour: 35 and 45 are `Magenta`.
    Purple,
    /// No sequence is read as this colour: 95 and 105 are `BrightMagenta`.
    BrightPurple,
    Magenta,
    BrightMagenta,
    Cyan,
    BrightCyan,
    White,
    BrightWhite,
    /// A colour of the table of 256.
    Fixed(u8),
    /// Red, green and blue.
    Rgb(u8, u8, u8),
}

impl From<AnsiColor> for Color {
    ghost use Rattle.std.specs.Prelude.{◌≡◌};
    ghost use Rattle.ansi_scan.specs.Styles.Color.{as_color};

    ghost from_gives = { λ color result. result ≡ as_color color };

    /// The name of a code of its own, where it has one; no colour is read as purple.
    fn from(color: AnsiColor) -> Color {
        match color {
            AnsiColor::Bit4(code) => named_color(code),
            AnsiColor::Bit8(n) => Color::Fixed(n),
            AnsiColor::Bit24 { r, g, b } => Color::Rgb(r, g, b),
        }
    }
}

// The colour that a code of its own sets, in the foreground or the background.
fn named_color(code: u8) -> Color
    ensures { result ≡ named_color code }
{
    match code {
        30 | 40 => Color::Black,
        31 | 41 => Color::Red,
        32 | 42 => Color::Green,
        33 | 43 => Color::Yellow,
        34 | 44 => Color::Blue,
        35 | 45 => Color::Magenta,
        36 | 46 => Color::Cyan,
        37 | 47 => Color::White,
        90 | 100 => Color::BrightBlack,
        91 | 101 => Color::BrightRed,
        92 | 102 => Color::BrightGreen,
        93 | 103 => Color::BrightYellow,
        94 | 104 => Color::BrightBlue,
        95 | 105 => Color::BrightMagenta,
        96 | 106 => Color::BrightCyan,
        97 | 107 => Color::BrightWhite,
        _ => Color::Fixed(code),
    }
}
