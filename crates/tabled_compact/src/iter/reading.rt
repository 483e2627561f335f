//! The rows of a source, read and kept.
ghost use Rattle.std.specs.Prelude.{◌≡◌, IfOk};
ghost use Rattle.grid_records_traits.specs.Sources.{texts_of_rows};

use grid_records::records::into_records::read_row;
use grid_records_traits::IntoRecords;
use std::alloc::{AllocError, Global};

/// All rows of the source. Fails only where allocation fails, for a cell that is read or for memory to keep it.
pub(crate) fn read<R: IntoRecords>(
    alloc: Global,
    source: R,
) -> Result<Vec<Vec<R::Cell>>, AllocError>
    ensures { IfOk result (λ rows. texts_of_rows R.Cell.text rows.items ≡ R.RecordTexts.rows source) }
{
    let mut rows = Vec::new(alloc);
    for cells in source.iter_rows() {
        rows.push(read_row(alloc, cells)?)?;
    }
    Ok(rows)
}
