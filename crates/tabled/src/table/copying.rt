//! A table again, and the cells of one.
ghost use Rattle.std.specs.Prelude.{◌≡◌, IfOk};
ghost use Rattle.grid_records_traits.specs.Sources.{texts_of_rows};
ghost use Rattle.tabled.specs.Tables.{state_of};

use crate::table::Table;
use grid_records::Text;
use std::alloc::{AllocError, Global};

impl Table<Text> {
    /// The same table again, with its settings and the sizes that it keeps, in memory of its own. Fails only
    /// where allocation fails.
    pub fn clone(&self, alloc: Global) -> Result<Table<Text>, AllocError>
        ensures { IfOk result (λ copy. state_of (λ text. text) copy ≡ state_of (λ text. text) self.now) }
    {
        let records = self.inner.get_records().clone(alloc)?;
        Ok(Table {
            inner: self.inner.with_records(alloc, records)?,
        })
    }

    // Its cells, by rows.
    pub(crate) fn into_cells(self) -> Vec<Vec<Text>>
        ensures { texts_of_rows (λ text. text) result.items ≡ (state_of (λ text. text) self).rows }
    {
        let Table { inner } = self;
        inner.into_records().into_rows()
    }
}
