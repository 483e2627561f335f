//! Tables of arrays of rows, whose columns are as wide as their texts.
ghost use Rattle.std.specs.Prelude.{◌≡◌, map};
ghost use Rattle.grid_records_measure.specs.TextLines.{text_width};
ghost use Rattle.tabled_compact.specs.Columns.{begun_by_texts, column_width, spaced_widths, text_in_column};
ghost use Rattle.tabled_compact.specs.Tables.{compacted};

use crate::table::CompactTable;
use grid_records_measure::get_text_width;
use grid_records_traits::{Cell, Dimension, RecordTexts};
use tabled_size::{ConstDimension, ConstSize};

/// Rows in an array, of `COLUMNS` cells each.
pub trait RowArray<const COLUMNS: usize, const ROWS: usize>: RecordTexts {
    /// The width of each column with 2 more, or `usize::MAX` where that passes it. A column is as wide as its
    /// widest text. Does not allocate.
    fn spaced_widths(&self) -> [usize; COLUMNS]
        ensures { result ≡ spaced_widths COLUMNS (Self.rows self.now) };
}

impl<T: Cell, const COLUMNS: usize, const ROWS: usize> RowArray<COLUMNS, ROWS>
    for [[T; COLUMNS]; ROWS] {
    fn spaced_widths(&self) -> [usize; COLUMNS] {
        widths_of(self)
    }
}

/// A table of these rows with a column for each cell of a row. Each column is as wide as its widest text and 2
/// more, or `usize::MAX` where that passes it. Does not allocate.
impl<I: RowArray<COLUMNS, ROWS>, const COLUMNS: usize, const ROWS: usize> From<I>
    for CompactTable<I, ConstDimension<COLUMNS, ROWS>> {
    ghost from_gives = { λ rows table. compacted I.rows ⟦<ConstDimension<COLUMNS, ROWS> as Dimension>⟧.width table ≡ begun_by_texts COLUMNS (I.rows rows) };

    fn from(rows: I) -> CompactTable<I, ConstDimension<COLUMNS, ROWS>> {
        let widths = ConstSize::List(rows.spaced_widths());
        let dimension = ConstDimension::new(widths, ConstSize::Value(1));
        CompactTable::with_dimension(rows, dimension).columns(COLUMNS)
    }
}

// The widths of these rows' columns with 2 more.
fn widths_of<T: Cell, const COLUMNS: usize>(rows: &[[T; COLUMNS]]) -> [usize; COLUMNS]
    ensures { result ≡ spaced_widths COLUMNS (map (λ row. map T.text row) rows.now) }
{
    let mut widths = [0; COLUMNS];
    for column in 0..COLUMNS {
        widths[column] = column_width(rows, column).saturating_add(2);
    }
    widths
}

// The columns of the widest text that these rows have in a column.
fn column_width<T: Cell, const COLUMNS: usize>(rows: &[[T; COLUMNS]], column: usize) -> usize
    ensures { result ≡ column_width (map (λ row. map T.text row) rows.now) column }
{
    let mut widest: usize = 0;
    for row in rows {
        widest = widest.max(width_in(row, column));
    }
    widest
}

/// The columns of the widest line of a row's text in a column, and where it has none those of the empty text.
/// Does not allocate.
pub fn width_in<C: Cell>(row: &[C], column: usize) -> usize
    ensures { result ≡ text_width (text_in_column (map C.text row.now) column) }
{
    match row.get(column) {
        Some(cell) => cell.width(),
        None => get_text_width(""),
    }
}
