//! What the next parameter of a sequence is: a code, or a part of a colour.
ghost use Rattle.std.specs.Prelude.{◌≡◌};
ghost use Rattle.ansi_scan.specs.Styles.NextParameter.{next_after};

/// What a colour of its own is given to.
#[derive(Clone, Copy, Debug, PartialEq, Eq)]
pub enum Layer {
    Foreground,
    Background,
    Underline,
}

/// What the next parameter of a sequence is.
#[derive(Clone, Copy, Debug, PartialEq, Eq)]
pub enum Next {
    /// A code of the table.
    Code,
    /// After 38, 48 or 58: 5 or 2.
    Form(Layer),
    /// After 5: the number of a colour.
    Index(Layer),
    /// After 2: red, then green, then blue.
    Red(Layer),
    Green(Layer, u8),
    Blue(Layer, u8, u8),
    /// After a colour that is not of the form: nothing that has an effect.
    Nothing,
}

impl Next {
    /// What comes after the parameter, `None` where that one is no number up to 255.
    pub fn after(self, parameter: Option<u8>) -> Next
        ensures { result ≡ next_after self parameter }
    {
        match (self, parameter) {
            (Next::Code, None) => Next::Code,
            (Next::Code, Some(38)) => Next::Form(Layer::Foreground),
            (Next::Code, Some(48)) => Next::Form(Layer::Background),
            (Next::Code, Some(58)) => Next::Form(Layer::Underline),
            (Next::Code, Some(_)) => Next::Code,
            (Next::Form(layer), Some(5)) => Next::Index(layer),
            (Next::Form(layer), Some(2)) => Next::Red(layer),
            (Next::Index(_), Some(_)) => Next::Code,
            (Next::Red(layer), Some(red)) => Next::Green(layer, red),
            (Next::Green(layer, red), Some(green)) => Next::Blue(layer, red, green),
            (Next::Blue(..), Some(_)) => Next::Code,
            (_, _) => Next::Nothing,
        }
    }
}
