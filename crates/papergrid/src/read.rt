//! The rows of records that are read once, kept to be looked up.
ghost use Rattle.std.specs.Prelude.{◌≡◌, IfOk, false};
ghost use Rattle.grid_records_traits.specs.Rows.{evened};
ghost use Rattle.grid_records_traits.specs.Sources.{texts_of_rows};

use grid_config::Position;
use grid_records::records::into_records::read_row;
use grid_records_traits::{Cell, IntoRecords, PeekableRecords, RecordTexts, Records};
use std::alloc::{AllocError, Global};

/// Rows of cells that were read.
#[derive(Drop)]
pub(crate) struct ReadRows<T> {
    pub(crate) rows: Vec<Vec<T>>,
}

/// Reads all rows, each of as many cells as there are columns. Fails only where allocation fails.
pub(crate) fn read<R: Records>(
    alloc: Global,
    records: R,
) -> Result<ReadRows<<R::Iter as IntoRecords>::Cell>, AllocError>
    ensures { IfOk result (λ table. texts_of_rows R.Iter.Cell.text table.rows.items ≡ evened (R.columns records) (R.rows records)) }
{
    let mut rows = Vec::new(alloc);
    for cells in records.iter_rows() {
        rows.push(read_row(alloc, cells)?)?;
    }
    Ok(ReadRows { rows })
}

impl<T: Cell> RecordTexts for ReadRows<T> {
    ghost rows = { λ table. texts_of_rows T.text table.rows.items };

    ghost can_fail = { λ _. false };
}

impl<T: Cell> PeekableRecords for ReadRows<T> {
    fn get_text(&self, pos: Position) -> &str {
        let Some(row) = self.rows.get(pos.row) else {
            return "";
        };
        match row.get(pos.col) {
            Some(cell) => cell.text(),
            None => "",
        }
    }
}
