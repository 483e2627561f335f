//! Cells of a row, each of which is one line that is its whole text.
ghost use Rattle.std.specs.Prelude.{◌≡◌, ◌+◌, ◌<◌, [], length, slice_index_or};
ghost use Rattle.grid_records_traits.specs.SingleLines.{AreSingleLines, AreStarts, texts_at};

/// The cells of a row, each of which is one line that is its whole text. A text of one line without ESC is so, and
/// one that opens and ends its own styles. The cells follow one another in a text, separated by one byte each. Kept
/// are where each begins, where one more would begin, and the columns that each takes. Where no columns are given for
/// a cell, it takes as many as it has bytes.
#[derive(Clone, Copy)]
pub struct SingleLineRow<'a> {
    text: &'a str,
    starts: &'a [usize],
    widths: &'a [usize],
    ghost begun: { AreStarts text.now starts.now },
    ghost single_lines: { AreSingleLines (texts_at text.now starts.now) widths.now },
}

/// A cell of such a row.
#[derive(Clone, Copy)]
pub struct SingleLineCell<'a> {
    /// Its text.
    pub text: &'a str,
    /// The columns that the text takes.
    pub width: usize,
}

impl<'a> SingleLineRow<'a> {
    ghost use Rattle.grid_records_traits.specs.Cells.{HasLineCount, HasWidth, IsLineAt};
    ghost use Rattle.grid_records_traits.specs.SingleLineTexts.{are_plain, single_line_texts};
    ghost use Rattle.grid_records_traits.specs.SingleLines.{IsSingleLine};
    ghost use Rattle.std.specs.Prelude.{◌<◌, ◌==◌, if◌then◌else◌, ℕ, length};

    /// The row of the cells that begin at these places of the text and take these columns. Each ends one byte before
    /// the next place. Does not allocate.
    #[inline(always)]
    pub fn new(text: &'a str, starts: &'a [usize], widths: &'a [usize]) -> SingleLineRow<'a>
        requires begun { AreStarts text.now starts.now }
        requires single_lines { AreSingleLines (texts_at text.now starts.now) widths.now }
        ensures texts { single_line_texts result ≡ texts_at text.now starts.now }
        ensures plain { are_plain result ≡ (length widths.now == 0) }
    {
        SingleLineRow {
            text,
            starts,
            widths,
        }
    }

    /// How many cells there are, where each is known to take as many columns as it has bytes; else 0. Does not
    /// allocate.
    #[inline(always)]
    pub fn count_plain(&self) -> usize
        ensures count { result ≡ (if are_plain self.now then length (single_line_texts self.now) else 0) }
        ensures plain { (column : ℕ) → column < result → IsSingleLine (slice_index_or (single_line_texts self.now) column []) (length (slice_index_or (single_line_texts self.now) column [])) }
    {
        if self.widths.is_empty() {
            self.starts.len().saturating_sub(1)
        } else {
            0
        }
    }

    /// The text of the cell with this number, which must exist. Does not allocate.
    #[inline(always)]
    pub fn text(&self, column: usize) -> &'a str
        requires { column < length (single_line_texts self.now) }
        ensures { result.now ≡ slice_index_or (single_line_texts self.now) column [] }
    {
        text_between(self.text, self.starts, column)
    }

    /// The cell with this number, or an empty one after the last. Does not allocate.
    #[inline(always)]
    pub fn cell(&self, column: usize) -> SingleLineCell<'a>
        ensures text { result.text.now ≡ slice_index_or (single_line_texts self.now) column [] }
        ensures lines { HasLineCount result.text.now 1 }
        ensures width { HasWidth result.text.now result.width }
        ensures line { IsLineAt result.text.now 0 result.text.now }
    {
        let text = text_at(self.text, self.starts, column);
        SingleLineCell {
            text,
            width: width_at(self.widths, column, text.len()),
        }
    }
}

// The text with this number, or the empty one after the last.
#[inline(always)]
fn text_at<'a>(text: &'a str, starts: &[usize], index: usize) -> &'a str
    requires { AreStarts text.now starts.now }
    ensures { result.now ≡ slice_index_or (texts_at text.now starts.now) index [] }
{
    if index >= starts.len().saturating_sub(1) {
        return "";
    }
    &text[starts[index]..starts[index + 1] - 1]
}

// The text with this number, which must exist.
#[inline(always)]
fn text_between<'a>(text: &'a str, starts: &[usize], index: usize) -> &'a str
    requires begun { AreStarts text.now starts.now }
    requires below { index + 1 < length starts.now }
    ensures { result.now ≡ slice_index_or (texts_at text.now starts.now) index [] }
{
    &text[starts[index]..starts[index + 1] - 1]
}

// The columns with this number, or `other` where there are none.
#[inline(always)]
fn width_at(widths: &[usize], index: usize, other: usize) -> usize
    ensures { result ≡ slice_index_or widths.now index other }
{
    match widths.get(index) {
        Some(width) => *width,
        None => other,
    }
}
