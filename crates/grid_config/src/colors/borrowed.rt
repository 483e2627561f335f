//! A colour that borrows its texts.
use crate::colors::closing::closes;

/// A colour: a text that is written before what it colours, and one that is written after it.
#[derive(Clone, Copy, Debug, PartialEq, Eq, PartialOrd, Ord, Hash)]
pub struct ANSIStr<'a> {
    prefix: &'a str,
    suffix: &'a str,
}

impl<'a> ANSIStr<'a> {
    ghost use Rattle.std.specs.Prelude.{◌≡◌, ◌↔◌, IsTrue};
    ghost use Rattle.grid_config.specs.Ansi.Colors.{color_of, is_no_color, no_color};
    ghost use Rattle.grid_config.specs.Ansi.Closing.{Closes};

    /// The colour with these texts, which may be any.
    pub const fn new(prefix: &'a str, suffix: &'a str) -> ANSIStr<'a>
        ensures { color_of result ≡ record { prefix = prefix.now; suffix = suffix.now } }
    {
        ANSIStr { prefix, suffix }
    }

    /// No colour: both texts are empty.
    pub const fn empty() -> ANSIStr<'static>
        ensures { color_of result ≡ no_color }
    {
        ANSIStr {
            prefix: "",
            suffix: "",
        }
    }

    /// Whether both texts are empty.
    pub const fn is_empty(&self) -> bool
        ensures { result ≡ is_no_color (color_of self.now) }
    {
        self.get_prefix().len() == 0 && self.get_suffix().len() == 0
    }

    /// What is written before.
    pub const fn get_prefix(&self) -> &'a str
        ensures { result.now ≡ (color_of self.now).prefix }
    {
        self.prefix
    }

    /// What is written after.
    pub const fn get_suffix(&self) -> &'a str
        ensures { result.now ≡ (color_of self.now).suffix }
    {
        self.suffix
    }

    /// Whether the colour closes: both texts are whole sequences without text, and the suffix, read
    /// from plain and read from the style that the prefix leaves, ends plain. Does not allocate.
    pub fn closes(&self) -> bool
        ensures { IsTrue result ↔ Closes (color_of self.now) }
    {
        closes(self.get_prefix(), self.get_suffix())
    }
}
