//! A text that is drawn.
ghost use Rattle.std.specs.Prelude.{◌≡◌};
ghost use Rattle.papergrid_picture.specs.Blocks.{greatest};
ghost use Rattle.tabled_pool.specs.Boxes.Sizes.{widths_of};

use crate::boxes::size::Size;
use std::borrow::CowStr;

/// The lines of a text, what was measured of each, the columns of the widest, and those of its place.
#[derive(Drop)]
pub(crate) struct OpenText<'a> {
    lines: Vec<CowStr<'a>>,
    measured: &'a [Size],
    widest: usize,
    pub(crate) width: usize,
    ghost widest_is: { widest ≡ greatest (widths_of measured.now) },
}

impl<'a> OpenText<'a> {
    ghost use Rattle.std.specs.Prelude.{[], length, map, slice_index, slice_index_or};
    ghost use Rattle.std.specs.Cow.{cow_str_bytes};
    ghost use Rattle.tabled_pool.specs.Boxes.Open.{measures_of, texts_of};

    /// A text of these lines, which measure this, in a place of so many columns.
    pub(crate) fn new(lines: Vec<CowStr<'a>>, measured: &'a [Size], width: usize) -> OpenText<'a>
        ensures texts { texts_of result ≡ map cow_str_bytes lines.entry.items }
        ensures measures { measures_of result ≡ widths_of measured.now }
        ensures width { result.width ≡ width }
    {
        let widest = greatest_width(measured);
        OpenText {
            lines,
            measured,
            widest,
            width,
        }
    }

    /// How many lines were measured.
    pub(crate) fn count(&self) -> usize
        ensures { result ≡ length (measures_of self.now) }
    {
        self.measured.len()
    }

    /// How many columns the widest line takes, 0 where there is none.
    pub(crate) fn widest(&self) -> usize
        ensures { result ≡ greatest (measures_of self.now) }
    {
        self.widest
    }

    /// How many columns the line with this number takes, and after the last 0.
    pub(crate) fn measure(&self, line: usize) -> usize
        ensures { result ≡ slice_index (measures_of self.now) line }
    {
        match self.measured.get(line) {
            Some(size) => size.width,
            None => 0,
        }
    }

    /// The line with this number, and after the last the empty text.
    pub(crate) fn line(&self, line: usize) -> &str
        ensures { result.now ≡ slice_index_or (texts_of self.now) line [] }
    {
        match self.lines.get(line) {
            Some(text) => text,
            None => "",
        }
    }
}

// How many columns the widest of the lines takes, 0 where there is none.
fn greatest_width(measured: &[Size]) -> usize
    ensures { result ≡ greatest (widths_of measured.now) }
{
    let mut widest = 0;
    for size in measured {
        widest = widest.max(size.width);
    }
    widest
}
