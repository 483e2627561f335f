//! Sequences as they are written: one for each attribute.
ghost use Rattle.std.specs.Prelude.{◌≡◌, Some};
ghost use Rattle.std.specs.List.{concat};
ghost use Rattle.std.specs.Fmt.{WritesOnOk};
ghost use Rattle.ansi_scan.specs.Styles.Sequences.{layer_code, code_if, font_parameters, color_parameters, parameter_bytes, sequence_if, sequences_of};

use crate::style::color::AnsiColor;
use crate::style::next::Layer;
use crate::style::style::Style;
use std::fmt;
use std::marker::Model;

/// The parameters between `ESC [` and `m`.
#[derive(Clone, Copy, Debug)]
pub enum Parameters {
    /// One code.
    Code(u8),
    /// 38, 48 or 58, and `5;n`.
    Indexed(Layer, u8),
    /// 38, 48 or 58, and `2;r;g;b`.
    Direct(Layer, u8, u8, u8),
}

impl fmt::Display for Parameters {
    ghost use Rattle.ansi_scan.specs.Styles.Sequences.{parameter_bytes};

    ghost output = { λ p. Some (parameter_bytes p) };

    fn fmt<W: fmt::Write>(&self, f: &mut fmt::Formatter<W>) -> fmt::Result {
        match *self {
            Parameters::Code(code) => write!(f, "{code}"),
            Parameters::Indexed(layer, n) => {
                let code = layer_code(layer);
                write!(f, "{code};5;{n}")
            }
            Parameters::Direct(layer, r, g, b) => {
                let code = layer_code(layer);
                write!(f, "{code};2;{r};{g};{b}")
            }
        }
    }
}

// The code after which a colour by numbers follows: 38, 48 or 58.
fn layer_code(layer: Layer) -> u8
    ensures { result ≡ layer_code layer }
{
    match layer {
        Layer::Foreground => 38,
        Layer::Background => 48,
        Layer::Underline => 58,
    }
}

/// The code, where it is requested.
pub fn code_if(is_set: bool, code: u8) -> Option<Parameters>
    ensures { result ≡ code_if is_set code }
{
    if is_set {
        Some(Parameters::Code(code))
    } else {
        None
    }
}

/// The code of a font.
pub fn font_parameters(font: Option<u8>) -> Option<Parameters>
    ensures { result ≡ font_parameters font }
{
    match font {
        None => None,
        Some(code) => Some(Parameters::Code(code)),
    }
}

/// A colour as it was set.
pub fn color_parameters(layer: Layer, color: Option<AnsiColor>) -> Option<Parameters>
    ensures { result ≡ color_parameters layer color }
{
    match color {
        None => None,
        Some(AnsiColor::Bit4(code)) => Some(Parameters::Code(code)),
        Some(AnsiColor::Bit8(n)) => Some(Parameters::Indexed(layer, n)),
        Some(AnsiColor::Bit24 { r, g, b }) => Some(Parameters::Direct(layer, r, g, b)),
    }
}

// Writes a sequence for each of the parameters that are there.
fn write_sequences<W: fmt::Write>(
    f: &mut fmt::Formatter<W>,
    all: &[Option<Parameters>],
) -> fmt::Result
    ensures { WritesOnOk W.write_str_gives f.old result (concat (sequences_of all.now)) f.new }
{
    for parameters in all {
        write_sequence(f, *parameters)?;
    }
    Ok(())
}

// Writes a sequence of the parameters, where they are there.
fn write_sequence<W: fmt::Write>(
    f: &mut fmt::Formatter<W>,
    parameters: Option<Parameters>,
) -> fmt::Result
    ensures { WritesOnOk W.write_str_gives f.old result (concat (sequence_if parameters)) f.new }
{
    match parameters {
        None => Ok(()),
        Some(parameters) => write!(f, "\x1b[{parameters}m"),
    }
}

/// Writes the start of a style: for each attribute that is set a sequence that sets it.
#[derive(Clone, Copy, Debug)]
pub struct AnsiSequenceStart {
    style: Style,
}

impl Model for AnsiSequenceStart {
    ghost use Rattle.ansi_scan.specs.Styles.Attributes.{Attributes};

    ghost Value = { Attributes };

    ghost view = { λ s. s.style };

    ghost inverse = { λ a. record { style = a } };
}

impl AnsiSequenceStart {
    pub(crate) fn new(style: Style) -> AnsiSequenceStart
        ensures { result ≡ style }
    {
        AnsiSequenceStart { style }
    }
}

impl fmt::Display for AnsiSequenceStart {
    ghost use Rattle.ansi_scan.specs.Styles.Sequences.{start_bytes};

    ghost output = { λ style. Some (start_bytes style) };

    #[tactic(auto, unfolding(crate::specs::Styles::Sequences::start_bytes, crate::specs::Styles::Sequences::start_sequences))]
    fn fmt<W: fmt::Write>(&self, f: &mut fmt::Formatter<W>) -> fmt::Result {
        write_sequences(f, &self.style.start_parameters())
    }
}

/// Writes the end of a style: the codes that clear what is set.
#[derive(Clone, Copy, Debug)]
pub struct AnsiSequenceEnd {
    style: Style,
}

impl Model for AnsiSequenceEnd {
    ghost use Rattle.ansi_scan.specs.Styles.Attributes.{Attributes};

    ghost Value = { Attributes };

    ghost view = { λ s. s.style };

    ghost inverse = { λ a. record { style = a } };
}

impl AnsiSequenceEnd {
    pub(crate) fn new(style: Style) -> AnsiSequenceEnd
        ensures { result ≡ style }
    {
        AnsiSequenceEnd { style }
    }
}

impl fmt::Display for AnsiSequenceEnd {
    ghost use Rattle.ansi_scan.specs.Styles.Sequences.{end_bytes};

    ghost output = { λ style. Some (end_bytes style) };

    #[tactic(auto, unfolding(crate::specs::Styles::Sequences::end_bytes, crate::specs::Styles::Sequences::end_sequences))]
    fn fmt<W: fmt::Write>(&self, f: &mut fmt::Formatter<W>) -> fmt::Result {
        write_sequences(f, &self.style.end_parameters())
    }
}
