//! Cells that are side by side.
ghost use Rattle.std.specs.Prelude.{◌≡◌, ◌≤◌, ◌<◌, ◌+◌, ◌-◌, length, slice_index, slice_index_or, slice_range};
ghost use Rattle.grid_records_traits.specs.SingleLines.{AreStarts};

use crate::cells::LineCell;

/// Some cells of a text: where each begins and where one more would, and the columns that the first of them take. A
/// cell after the last of these columns takes as many columns as it has bytes.
#[derive(Clone, Copy)]
pub(crate) struct CellRow<'b, 'a> {
    pub text: &'a str,
    pub starts: &'b [usize],
    pub widths: &'b [usize],
    ghost begun: { AreStarts text.now starts.now },
    ghost within: { length widths.now ≤ length starts.now - 1 },
}

impl<'b, 'a> CellRow<'b, 'a> {
    ghost use Rattle.std.specs.Prelude.{◌≡◌, ◌≤◌, ◌<◌, ◌+◌, ◌-◌, Some, drop, length, slice_get, slice_range, take};
    ghost use Rattle.std.specs.Option.{option_map};
    ghost use Rattle.grid_records_traits.specs.SingleLines.{AreStarts, texts_at};
    ghost use Rattle.columns_table.specs.Cells.{anywhere, cells_of};
    ghost use Rattle.columns_table.specs.CellRows.{row_cells};

    /// The cells of the text that begin at these places, with these columns, from `start` on before `end`, as
    /// far as there are any.
    #[inline(always)]
    pub(crate) fn new(
        text: &'a str,
        starts: &'b [usize],
        widths: &'b [usize],
        start: usize,
        end: usize,
    ) -> CellRow<'b, 'a>
        requires begun { AreStarts text.now starts.now }
        requires within { length widths.now ≤ length starts.now - 1 }
        ensures { row_cells result ≡ slice_range (cells_of widths.now (texts_at text.now starts.now)) start end }
    {
        CellRow {
            text,
            starts: starts_part(starts, start, end),
            widths: part(widths, start, end),
        }
    }

    /// The cells of the text that begin at these places, with these columns, from `start` on before `end`, which
    /// are all there.
    #[inline(always)]
    pub(crate) fn between(
        text: &'a str,
        starts: &'b [usize],
        widths: &'b [usize],
        start: usize,
        end: usize,
    ) -> CellRow<'b, 'a>
        requires begun { AreStarts text.now starts.now }
        requires within { length widths.now ≤ length starts.now - 1 }
        requires ascending { start ≤ end }
        requires there { end < length starts.now }
        ensures { row_cells result ≡ slice_range (cells_of widths.now (texts_at text.now starts.now)) start end }
    {
        CellRow {
            text,
            starts: all_between(starts, start, end + 1),
            widths: widths_part(widths, start, end),
        }
    }

    /// How many cells there are.
    #[inline(always)]
    pub(crate) fn len(self) -> usize
        ensures cells { result ≡ length (row_cells self.entry) }
        ensures places { result ≡ length self.entry.starts.now - 1 }
    {
        self.starts.len().saturating_sub(1)
    }

    /// The first `count` cells, as far as there are any, and those after them.
    #[inline(always)]
    pub(crate) fn split(self, count: usize) -> (CellRow<'b, 'a>, CellRow<'b, 'a>)
        ensures first { row_cells result.0 ≡ take count (row_cells self.entry) }
        ensures behind { row_cells result.1 ≡ drop count (row_cells self.entry) }
    {
        let (text, starts, widths) = (self.text, self.starts, self.widths);
        let first = CellRow::new(text, starts, widths, 0, count);
        let behind = CellRow::new(text, starts, widths, count, starts.len());
        (first, behind)
    }

    /// The cell in this column.
    #[inline(always)]
    pub(crate) fn get(self, column: usize) -> Option<LineCell<'a>>
        ensures { option_map anywhere result ≡ slice_get (row_cells self.entry) column }
    {
        if column >= self.len() {
            return None;
        }
        Some(self.cell(column))
    }

    /// The cell in this column, which is there.
    #[inline(always)]
    pub(crate) fn cell(self, column: usize) -> LineCell<'a>
        requires { column + 1 < length self.starts.now }
        ensures { slice_get (row_cells self.entry) column ≡ Some (anywhere result) }
    {
        let text = text_at(self.text, self.starts, column);
        LineCell {
            text,
            width: number_at(self.widths, column, text.len()),
        }
    }
}

// The text that begins at the place with this number, up to one byte before the next place.
#[inline(always)]
fn text_at<'a>(text: &'a str, starts: &[usize], index: usize) -> &'a str
    requires begun { AreStarts text.now starts.now }
    requires below { index + 1 < length starts.now }
    ensures { result.now ≡ slice_range text.now (slice_index starts.now index) (slice_index starts.now (index + 1) - 1) }
{
    &text[starts[index]..starts[index + 1] - 1]
}

// The places where the cells from `start` on before `end` begin, and where one more would.
#[inline(always)]
fn starts_part(starts: &[usize], start: usize, end: usize) -> &[usize]
    ensures { result.now ≡ slice_range starts.now start (end + 1) }
{
    let end = end.min(starts.len());
    part(starts, start, end + 1)
}

// The columns of the cells from `start` on before `end`, as far as there are any. Most texts have none.
#[inline(always)]
fn widths_part(widths: &[usize], start: usize, end: usize) -> &[usize]
    ensures { result.now ≡ slice_range widths.now start end }
{
    if widths.is_empty() {
        return widths;
    }
    part(widths, start, end)
}

// The items from `start` on before `end`, which are all there.
#[inline(always)]
fn all_between<T>(items: &[T], start: usize, end: usize) -> &[T]
    requires ascending { start ≤ end }
    requires there { end ≤ length items.now }
    ensures { result.now ≡ slice_range items.now start end }
{
    &items[start..end]
}

/// The items from `start` on before `end`, as far as there are any.
#[inline(always)]
pub(crate) fn part<T>(items: &[T], start: usize, end: usize) -> &[T]
    ensures { result.now ≡ slice_range items.now start end }
{
    let end = end.min(items.len());
    &items[start.min(end)..end]
}

/// The number at this place, and after the last the other one.
#[inline(always)]
pub(crate) fn number_at(numbers: &[usize], index: usize, other: usize) -> usize
    ensures { result ≡ slice_index_or numbers.now index other }
{
    match numbers.get(index) {
        Some(number) => *number,
        None => other,
    }
}
