//! The lines of a cell that are shown.
mod reading;

ghost use Rattle.std.specs.Prelude.{◌≡◌};
ghost use Rattle.papergrid_picture.specs.Blocks.{greatest};
ghost use Rattle.papergrid_cells.specs.Lines.{line_measures};

pub use reading::read_cell;
use std::borrow::CowStr;

/// A line, and how many columns it takes.
#[derive(Drop)]
pub(crate) struct CellLine<'a> {
    text: CowStr<'a>,
    width: usize,
}

/// The lines of a cell that are shown, and how many columns the widest takes.
#[derive(Drop)]
pub struct CellLines<'a> {
    lines: Vec<CellLine<'a>>,
    widest: usize,
    ghost widest_is: { widest ≡ greatest (line_measures lines.items) },
}

impl<'a> CellLines<'a> {
    ghost use Rattle.std.specs.Prelude.{length, slice_index, slice_index_or, []};
    ghost use Rattle.papergrid_cells.specs.Lines.{line_texts};
    ghost use Rattle.papergrid_cells.specs.Shown.{counted_columns, measures_of, texts_of};

    // These lines.
    fn new(lines: Vec<CellLine<'a>>) -> CellLines<'a>
        ensures texts { texts_of result ≡ line_texts lines.entry.items }
        ensures measures { measures_of result ≡ line_measures lines.entry.items }
    {
        let widest = greatest_width(&lines);
        CellLines { lines, widest }
    }

    /// How many lines there are.
    pub(crate) fn count(&self) -> usize
        ensures { result ≡ length (measures_of self.now) }
    {
        self.lines.len()
    }

    /// How many columns the widest line takes, 0 where there is none.
    pub fn widest(&self) -> usize
        ensures { result ≡ greatest (measures_of self.now) }
    {
        self.widest
    }

    /// How many columns the line with this number takes; 0 after the last.
    pub fn width(&self, line: usize) -> usize
        ensures { result ≡ slice_index (measures_of self.now) line }
    {
        match self.lines.get(line) {
            Some(line) => line.width,
            None => 0,
        }
    }

    /// How many columns are counted where the line with this number is placed: its own, where lines are aligned one by
    /// one, else those of the widest.
    #[inline(always)]
    pub fn counted(&self, line_alignment: bool, line: usize) -> usize
        ensures { result ≡ counted_columns line_alignment (measures_of self.now) line }
    {
        if line_alignment {
            self.width(line)
        } else {
            self.widest
        }
    }

    /// The line with this number, or the empty text after the last.
    pub fn text(&self, line: usize) -> &str
        ensures { result.now ≡ slice_index_or (texts_of self.now) line [] }
    {
        match self.lines.get(line) {
            Some(line) => &line.text,
            None => "",
        }
    }
}

// How many columns the widest of the lines takes, 0 where there is none.
fn greatest_width(lines: &[CellLine<'_>]) -> usize
    ensures { result ≡ greatest (line_measures lines.now) }
{
    let mut widest = 0;
    for line in lines {
        widest = widest.max(line.width);
    }
    widest
}
