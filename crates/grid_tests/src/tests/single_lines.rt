//! Records that know that each cell is one line.
ghost use Rattle.std.specs.Prelude.{◌≡◌, IfOk, IsTrue, false, map, slice_index_or};
ghost use Rattle.grid_records_traits.specs.SingleLines.{AreSingleLines, AreStarts, IsSingleLine, IsTextAt, texts_at};
ghost use Rattle.grid_records_traits.specs.SingleLineTexts.{single_line_texts};

use grid_config::Position;
use grid_records_traits::{
    Cell, ExactRecords, PeekableRecords, RecordColumns, RecordTexts, SingleLineRow,
};
use std::alloc::{AllocError, Global};
use std::process::Abort;

// Rows of such cells, and how many columns they are said to have.
#[derive(Drop)]
pub(super) struct PlainRows<'a> {
    pub(super) rows: &'a [SingleLineRow<'static>],
    pub(super) columns: usize,
}

impl<'a> RecordTexts for PlainRows<'a> {
    ghost rows = { λ records. map single_line_texts records.rows.now };

    ghost can_fail = { λ _. false };
}

impl<'a> RecordColumns for PlainRows<'a> {
    ghost columns = { λ records. records.columns };

    fn count_columns(&self) -> usize {
        self.columns
    }
}

impl<'a> ExactRecords for PlainRows<'a> {
    fn count_rows(&self) -> usize {
        self.rows.len()
    }
}

impl<'a> PeekableRecords for PlainRows<'a> {
    fn get_text(&self, pos: Position) -> &str {
        match self.rows.get(pos.row) {
            Some(row) => row.cell(pos.col).text,
            None => "",
        }
    }

    fn single_line_row(&self, row: usize) -> Option<SingleLineRow<'_>> {
        self.rows.get(row).copied()
    }
}

// Two cells that are separated by one byte of a text: the text, where each of them begins and where a third one
// would, and the columns that they take, where these are not their bytes.
pub(super) type Pair = (&'static str, &'static [usize], &'static [usize]);

// The rows of such cells.
pub(super) fn plain_rows(
    rt: &impl Abort,
    alloc: Global,
    pairs: &[Pair],
) -> Result<Vec<SingleLineRow<'static>>, AllocError> {
    let mut rows = Vec::new(alloc);
    for pair in pairs {
        rows.push(single_line_row(rt, alloc, *pair)?)?;
    }
    Ok(rows)
}

// The row of two cells, once they are known to be as `pair` says.
fn single_line_row(
    rt: &impl Abort,
    alloc: Global,
    pair: Pair,
) -> Result<SingleLineRow<'static>, AllocError> {
    let (text, starts, widths) = pair;
    assert!(rt; are_starts(text, starts));
    if are_plain(alloc, text, starts, widths)? {
        return Ok(SingleLineRow::new(text, starts, widths));
    }
    panic!(rt; "a cell is not plain")
}

// Whether these are three places, and a text begins at each of the first two.
fn are_starts(text: &str, starts: &[usize]) -> bool
    ensures { IsTrue result → AreStarts text.now starts.now }
{
    starts.len() == 3
        && is_text_at(text, starts[0], starts[1])
        && is_text_at(text, starts[1], starts[2])
}

// Whether what begins at the first place and ends one byte before the next is a text.
fn is_text_at(text: &str, start: usize, next: usize) -> bool
    ensures { IsTrue result → IsTextAt text.now start next }
{
    start < next && text.is_char_boundary(start) && text.is_char_boundary(next - 1)
}

// Whether both texts are one line and take their columns, as the empty one after them does.
fn are_plain(
    alloc: Global,
    text: &str,
    starts: &[usize],
    widths: &[usize],
) -> Result<bool, AllocError>
    requires { AreStarts text.now starts.now }
    ensures { IfOk result (λ plain. IsTrue plain → AreSingleLines (texts_at text.now starts.now) widths.now) }
{
    if starts.len() != 3 || widths.len() > 2 {
        return Ok(false);
    }
    let first = &text[starts[0]..starts[1] - 1];
    let second = &text[starts[1]..starts[2] - 1];
    let both = is_plain(alloc, first, width_at(widths, 0, first.len()))?
        && is_plain(alloc, second, width_at(widths, 1, second.len()))?;
    Ok(both && is_plain(alloc, "", 0)?)
}

// The columns with this number, or `other` where there are none.
fn width_at(widths: &[usize], index: usize, other: usize) -> usize
    ensures { result ≡ slice_index_or widths.now index other }
{
    widths.get(index).copied().unwrap_or(other)
}

// Whether the text is one line, which is all of it, and takes so many columns.
fn is_plain(alloc: Global, text: &str, width: usize) -> Result<bool, AllocError>
    ensures { IfOk result (λ plain. IsTrue plain → IsSingleLine text.now width) }
{
    let line = Cell::line(&text, alloc, 0)?;
    let whole = &*line == text;
    Ok(whole && Cell::count_lines(&text) == 1 && Cell::width(&text) == width)
}
