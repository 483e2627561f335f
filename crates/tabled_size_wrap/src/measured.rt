//! A text that keeps what its lines measure.
ghost use Rattle.std.specs.Cow.{cow_str_bytes};
ghost use Rattle.tabled_size_wrap.specs.Measured.{HasColumns, HasLines};

use grid_records_measure::get_text_dimension;
use std::borrow::CowStr;

/// A text, how many lines it has, and the columns of the widest. That these are what `get_text_dimension` gives is
/// kept with it.
#[derive(Drop)]
pub struct MeasuredText<'a> {
    /// The text.
    pub text: CowStr<'a>,
    /// How many lines it has.
    pub lines: usize,
    /// The columns of the widest line.
    pub columns: usize,
    ghost measured: { HasLines (cow_str_bytes text) lines × HasColumns (cow_str_bytes text) columns },
}

impl<'a> MeasuredText<'a> {
    ghost use Rattle.std.specs.Prelude.{◌≡◌};

    /// The text, which is measured once. Does not allocate.
    pub fn new(text: CowStr<'a>) -> MeasuredText<'a>
        ensures { cow_str_bytes result.text ≡ cow_str_bytes text.entry }
    {
        let (lines, columns) = get_text_dimension(&text);
        MeasuredText {
            text,
            lines,
            columns,
        }
    }
}
