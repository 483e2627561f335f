//! Styles: what sequences have set.
ghost use Rattle.std.specs.Prelude.{◌≡◌, ◌↔◌, IsTrue, Some};
ghost use Rattle.std.specs.Option.{option_map};
ghost use Rattle.ansi_scan.specs.Styles.Attributes.{IsColor, IsRendition, after_code, is_no_code, plain_attributes};
ghost use Rattle.ansi_scan.specs.Styles.Color.{as_color};
ghost use Rattle.ansi_scan.specs.Styles.NextParameter.{after_parameter};
ghost use Rattle.ansi_scan.specs.Styles.Rendition.{after_parameter_bytes, applied, with_color};
ghost use Rattle.ansi_scan.specs.Styles.Plain.{sets_nothing};
ghost use Rattle.ansi_scan.specs.Styles.Sequences.{end_parameters, has_ideogram_mark, start_parameters};

use crate::style::codes::{background_after, font_after, foreground_after, underline_color_after};
use crate::style::color::{AnsiColor, Color};
use crate::style::flags::{Flag, Flags};
use crate::style::next::{Layer, Next};
use crate::style::packed::PackedColor;
use crate::style::parameters::{is_reset, number_after, sgr_parameters, single_code};
use crate::style::sequences::{
    AnsiSequenceEnd, AnsiSequenceStart, Parameters, code_if, color_parameters, font_parameters,
};
use std::marker::Model;

/// What sequences of SELECT GRAPHIC RENDITION have set: which attributes, and to which font and
/// colours.
#[derive(Clone, Copy, Debug, PartialEq, Eq, PartialOrd, Ord, Hash)]
pub struct Style {
    flags: Flags,
    font: Option<u8>,
    foreground: PackedColor,
    background: PackedColor,
    underline_color: PackedColor,
}

impl Model for Style {
    ghost use Rattle.ansi_scan.specs.Styles.Attributes.{Attributes, IsRendition};

    ghost Value = { Attributes };

    ghost use Rattle.ansi_scan.specs.Styles.Style.{attributes_of, fields_of};

    ghost view = { attributes_of };

    ghost invariant = { λ fields. IsRendition (attributes_of fields) };

    ghost inverse = { fields_of };
}

impl Style {
    /// The style in which nothing is set.
    #[tactic(auto, using(crate::proofs::StyleLemmas::Kept::kept), unfolding(crate::specs::Styles::Attributes::plain_attributes))]
    pub fn plain() -> Style
        ensures { result ≡ plain_attributes }
    {
        Style {
            flags: Flags::none(),
            font: None,
            foreground: PackedColor::none(),
            background: PackedColor::none(),
            underline_color: PackedColor::none(),
        }
    }

    /// Whether nothing is set.
    pub fn is_plain(&self) -> bool
        ensures { IsTrue result ↔ (self.now ≡ plain_attributes) }
    {
        self.sets_nothing()
    }

    fn sets_nothing(&self) -> bool
        ensures { result ≡ sets_nothing self.now }
    {
        self.flags.is_none()
            && self.font.is_none()
            && !self.foreground.is_set()
            && !self.background.is_set()
            && !self.underline_color.is_set()
    }

    /// The style after one sequence `ESC [ .. m`.
    /// Any other text, also such a sequence with text beside it, leaves the style as it is.
    #[tactic(auto, unfolding(crate::specs::Styles::Rendition::applied))]
    pub fn apply(self, sequence: &str) -> Style
        ensures { result ≡ applied self sequence.now }
    {
        if is_reset(sequence.as_bytes()) {
            return Style::plain();
        }
        let mut style = self;
        if let Some(code) = single_code(sequence.as_bytes()) {
            style.take_code(code);
        } else if let Some(parameters) = sgr_parameters(sequence.as_bytes()) {
            style.take_parameters(parameters);
        }
        style
    }

    // Takes the parameters of a sequence, which are separated by `;`.
    fn take_parameters(&mut self, parameters: &[u8])
        ensures { self.new ≡ after_parameter_bytes self.old (Some parameters.now) }
    {
        let mut next = Next::Code;
        let mut number = Some(0);
        for byte in parameters {
            if *byte == b';' {
                self.take_parameter(next, number);
                next = next.after(number);
                number = Some(0);
            } else {
                number = number_after(number, *byte);
            }
        }
        self.take_parameter(next, number);
    }

    // Takes a parameter, where `next` says what that one is.
    #[inline(always)]
    fn take_parameter(&mut self, next: Next, parameter: Option<u8>)
        ensures { self.new ≡ after_parameter self.old next parameter }
    {
        match (next, parameter) {
            (Next::Code, Some(code)) => self.take_code(code),
            (Next::Index(layer), Some(n)) => self.take_color(layer, AnsiColor::Bit8(n)),
            (Next::Blue(layer, r, g), Some(b)) => self.take_color(
                layer,
                AnsiColor::Bit24 { r, g, b },
            ),
            (_, _) => {}
        }
    }

    // Takes one colour that is set by numbers.
    #[tactic(auto, using(crate::proofs::StyleLemmas::Kept::kept))]
    fn take_color(&mut self, layer: Layer, color: AnsiColor)
        requires { IsColor is_no_code color }
        ensures { self.new ≡ with_color self.old layer color }
    {
        match layer {
            Layer::Foreground => self.foreground = PackedColor::new(color),
            Layer::Background => self.background = PackedColor::new(color),
            Layer::Underline => self.underline_color = PackedColor::new(color),
        }
    }

    // Takes one code of the table.
    fn take_code(&mut self, code: u8)
        ensures { self.new ≡ after_code self.old code }
    {
        match code {
            30..=39 | 90..=97 => self.foreground = foreground_after(code, self.foreground),
            40..=49 | 100..=107 => self.background = background_after(code, self.background),
            1..=9 | 20..=29 => self.flags = self.flags.after_code(code),
            _ => *self = self.after_other_code(code),
        }
    }

    // The style after one code of the table, mostly none of a colour.
    #[inline(never)]
    fn after_other_code(self, code: u8) -> Style
        ensures { result ≡ after_code self code }
    {
        Style {
            flags: self.flags.after_code(code),
            font: font_after(code, self.font),
            foreground: foreground_after(code, self.foreground),
            background: background_after(code, self.background),
            underline_color: underline_color_after(code, self.underline_color),
        }
    }

    /// What writes the start of this style: a sequence for each attribute that is set, in ascending
    /// order of their codes. At most 163 bytes; does not allocate.
    pub fn start(&self) -> AnsiSequenceStart
        ensures style { result ≡ self.now }
        ensures rendition { IsRendition self.now }
    {
        AnsiSequenceStart::new(*self)
    }

    /// What writes the end of this style: a sequence for each code that clears what is set, ascending
    /// and each once. At most 80 bytes; does not allocate.
    pub fn end(&self) -> AnsiSequenceEnd
        ensures { result ≡ self.now }
    {
        AnsiSequenceEnd::new(*self)
    }

    /// The foreground, where one is set.
    pub fn foreground(&self) -> Option<Color>
        ensures { result ≡ option_map as_color self.now.foreground }
    {
        self.foreground.color().map(Color::from)
    }

    /// The background, where one is set.
    pub fn background(&self) -> Option<Color>
        ensures { result ≡ option_map as_color self.now.background }
    {
        self.background.color().map(Color::from)
    }

    /// Whether bold (code 1) is set.
    pub fn is_bold(&self) -> bool
        ensures { result ≡ self.now.bold }
    {
        self.flags.has(Flag::Bold)
    }

    /// Whether faint (code 2) is set.
    pub fn is_faint(&self) -> bool
        ensures { result ≡ self.now.faint }
    {
        self.flags.has(Flag::Faint)
    }

    /// Whether italic (code 3) is set.
    pub fn is_italic(&self) -> bool
        ensures { result ≡ self.now.italic }
    {
        self.flags.has(Flag::Italic)
    }

    /// Whether underline (code 4, and not the double underline of 21) is set.
    pub fn is_underline(&self) -> bool
        ensures { result ≡ self.now.underline }
    {
        self.flags.has(Flag::Underline)
    }

    /// Whether slow blink (code 5) is set.
    pub fn is_slow_blink(&self) -> bool
        ensures { result ≡ self.now.slow_blink }
    {
        self.flags.has(Flag::SlowBlink)
    }

    /// Whether rapid blink (code 6) is set.
    pub fn is_rapid_blink(&self) -> bool
        ensures { result ≡ self.now.rapid_blink }
    {
        self.flags.has(Flag::RapidBlink)
    }

    /// Whether inverse (code 7) is set.
    pub fn is_inverse(&self) -> bool
        ensures { result ≡ self.now.inverted }
    {
        self.flags.has(Flag::Inverted)
    }

    /// Whether hidden (code 8) is set.
    pub fn is_hide(&self) -> bool
        ensures { result ≡ self.now.hidden }
    {
        self.flags.has(Flag::Hidden)
    }

    /// Whether crossed out (code 9) is set.
    pub fn is_crossedout(&self) -> bool
        ensures { result ≡ self.now.crossed_out }
    {
        self.flags.has(Flag::CrossedOut)
    }

    /// Whether fraktur (code 20) is set.
    pub fn is_fraktur(&self) -> bool
        ensures { result ≡ self.now.fraktur }
    {
        self.flags.has(Flag::Fraktur)
    }

    /// What sets each attribute that is set, in ascending order of the codes.
    pub(crate) fn start_parameters(&self) -> [Option<Parameters>; 26]
        ensures { result ≡ start_parameters self.now }
    {
        [
            code_if(self.flags.has(Flag::Bold), 1),
            code_if(self.flags.has(Flag::Faint), 2),
            code_if(self.flags.has(Flag::Italic), 3),
            code_if(self.flags.has(Flag::Underline), 4),
            code_if(self.flags.has(Flag::SlowBlink), 5),
            code_if(self.flags.has(Flag::RapidBlink), 6),
            code_if(self.flags.has(Flag::Inverted), 7),
            code_if(self.flags.has(Flag::Hidden), 8),
            code_if(self.flags.has(Flag::CrossedOut), 9),
            font_parameters(self.font),
            code_if(self.flags.has(Flag::Fraktur), 20),
            code_if(self.flags.has(Flag::DoubleUnderline), 21),
            code_if(self.flags.has(Flag::ProportionalSpacing), 26),
            color_parameters(Layer::Foreground, self.foreground.color()),
            color_parameters(Layer::Background, self.background.color()),
            code_if(self.flags.has(Flag::Framed), 51),
            code_if(self.flags.has(Flag::Encircled), 52),
            code_if(self.flags.has(Flag::Overlined), 53),
            color_parameters(Layer::Underline, self.underline_color.color()),
            code_if(self.flags.has(Flag::IdeogramUnderline), 60),
            code_if(self.flags.has(Flag::IdeogramDoubleUnderline), 61),
            code_if(self.flags.has(Flag::IdeogramOverline), 62),
            code_if(self.flags.has(Flag::IdeogramDoubleOverline), 63),
            code_if(self.flags.has(Flag::IdeogramStress), 64),
            code_if(self.flags.has(Flag::Superscript), 73),
            code_if(self.flags.has(Flag::Subscript), 74),
        ]
    }

    /// What clears each attribute that is set, in ascending order of the codes.
    pub(crate) fn end_parameters(&self) -> [Option<Parameters>; 16]
        ensures { result ≡ end_parameters self.now }
    {
        [
            code_if(self.font.is_some(), 10),
            code_if(
                self.flags.has(Flag::Bold) || self.flags.has(Flag::Faint),
                22,
            ),
            code_if(
                self.flags.has(Flag::Italic) || self.flags.has(Flag::Fraktur),
                23,
            ),
            code_if(
                self.flags.has(Flag::Underline) || self.flags.has(Flag::DoubleUnderline),
                24,
            ),
            code_if(
                self.flags.has(Flag::SlowBlink) || self.flags.has(Flag::RapidBlink),
                25,
            ),
            code_if(self.flags.has(Flag::Inverted), 27),
            code_if(self.flags.has(Flag::Hidden), 28),
            code_if(self.flags.has(Flag::CrossedOut), 29),
            code_if(self.foreground.is_set(), 39),
            code_if(self.background.is_set(), 49),
            code_if(self.flags.has(Flag::ProportionalSpacing), 50),
            code_if(
                self.flags.has(Flag::Framed) || self.flags.has(Flag::Encircled),
                54,
            ),
            code_if(self.flags.has(Flag::Overlined), 55),
            code_if(self.underline_color.is_set(), 59),
            code_if(self.has_ideogram_mark(), 65),
            code_if(
                self.flags.has(Flag::Superscript) || self.flags.has(Flag::Subscript),
                75,
            ),
        ]
    }

    // Whether one of the five marks is set that 65 clears.
    fn has_ideogram_mark(&self) -> bool
        ensures { result ≡ has_ideogram_mark self.now }
    {
        self.flags.has(Flag::IdeogramUnderline)
            || self.flags.has(Flag::IdeogramDoubleUnderline)
            || self.flags.has(Flag::IdeogramOverline)
            || self.flags.has(Flag::IdeogramDoubleOverline)
            || self.flags.has(Flag::IdeogramStress)
    }
}
