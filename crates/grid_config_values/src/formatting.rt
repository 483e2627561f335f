//! How the lines of a cell are laid out.
ghost use Rattle.std.specs.Prelude.{◌≡◌};

/// How the lines of a cell are laid out.
#[derive(Clone, Copy, Debug, PartialEq, Eq, PartialOrd, Ord, Hash)]
pub struct Formatting {
    /// Whether white space at both ends of each line is left out.
    pub horizontal_trim: bool,
    /// Whether lines of nothing but white space at both ends of the text are left out.
    pub vertical_trim: bool,
    /// Whether each line is aligned by itself, and not the text as a block.
    pub allow_lines_alignment: bool,
}

impl Formatting {
    /// These three, in this order.
    pub const fn new(
        horizontal_trim: bool,
        vertical_trim: bool,
        allow_lines_alignment: bool,
    ) -> Formatting
        ensures { result ≡ record {
          horizontal_trim = horizontal_trim;
          vertical_trim = vertical_trim;
          allow_lines_alignment = allow_lines_alignment;
        } }
    {
        Formatting {
            horizontal_trim,
            vertical_trim,
            allow_lines_alignment,
        }
    }
}
