//! The rows of a text as measured cells, which borrow it.
ghost use Rattle.std.specs.Prelude.{◌≡◌, length, sum};
ghost use Rattle.columns_table.specs.Columns.{AreWidest, cell_widths};

use crate::cells::LineCells;
use crate::row_ends::RowEnds;

/// The cells of all rows, one row after the other, and how many each row has.
#[derive(Drop)]
pub struct Rows<'a> {
    pub cells: LineCells<'a>,
    pub counts: Vec<usize>,
    // What the widest cell of each column takes.
    pub(crate) widest: Vec<usize>,
    ghost whole: { sum counts.items ≡ length cells },
    ghost widths: { AreWidest widest.items counts.items (cell_widths cells) },
}

impl<'a> Rows<'a> {
    ghost use Rattle.std.specs.Prelude.{◌≡◌};
    ghost use Rattle.columns_table.specs.Ends.{AreCellEnds, cells_in};

    /// The rows of the text whose cells end there, where each row is ended. Does not allocate.
    pub fn of(text: &'a str, rows: RowEnds) -> Rows<'a>
        requires fit { AreCellEnds text.now rows.ends }
        requires ended { rows.begun ≡ 0 }
        ensures cells { result.cells ≡ cells_in text.now rows.ends }
        ensures counts { result.counts.items ≡ rows.counts }
    {
        let (ends, counts, widest) = rows.into_parts();
        Rows {
            cells: LineCells::of(text, ends),
            counts,
            widest,
        }
    }
}
