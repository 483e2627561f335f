//! A text of one line that is borrowed.
ghost use Rattle.std.specs.Prelude.{◌≡◌, [], length, true};
ghost use Rattle.grid_records_measure.specs.Measures.{are_printable};
ghost use Rattle.grid_records_traits.specs.Cells.{IsLineAt};
ghost use Rattle.grid_records_traits.specs.SingleLines.{IsSingleLine};

/// A text of one line, which is all of it, and the columns that it takes. It borrows the text.
#[derive(Clone, Copy)]
pub struct SingleLine<'a> {
    pub text: &'a str,
    pub width: usize,
    ghost single_line: { IsSingleLine text.now width },
}

impl<'a> SingleLine<'a> {
    /// A text that is one line and takes so many columns. Does not allocate.
    #[inline(always)]
    pub fn new(text: &'a str, width: usize) -> SingleLine<'a>
        requires { IsSingleLine text.now width }
        ensures text { result.text.now ≡ text.now }
        ensures width { result.width ≡ width }
    {
        SingleLine { text, width }
    }

    /// The line with this number: the text, and after it the empty text.
    #[inline(always)]
    pub(crate) fn line(self, index: usize) -> &'a str
        ensures { IsLineAt self.entry.text.now index result.now }
    {
        if index > 0 {
            return "";
        }
        self.text
    }

    /// The empty text.
    #[inline(always)]
    pub(crate) fn empty() -> SingleLine<'a>
        ensures { result.text.now ≡ [] }
    {
        SingleLine::of_printable("")
    }

    /// A text of printable ASCII, of which each byte takes a column. Does not allocate.
    #[inline(always)]
    pub fn of_printable(text: &'a str) -> SingleLine<'a>
        requires { are_printable text.now ≡ true }
        ensures text { result.text.now ≡ text.now }
        ensures width { result.width ≡ length text.now }
    {
        SingleLine {
            text,
            width: text.len(),
        }
    }
}
