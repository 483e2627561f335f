//! A table again, over other records.
ghost use Rattle.std.specs.Prelude.{◌≡◌, IfOk};
ghost use Rattle.tabled.specs.Tables.{table_state};

use crate::table_of::TableOf;
use grid_records_traits::records::RecordTexts;
use std::alloc::{AllocError, Global};

impl<R: RecordTexts> TableOf<R> {
    /// A table of these records with the settings of this one and the sizes that it keeps, in memory of its own. Fails
    /// only where allocation fails.
    pub(crate) fn with_records<Q: RecordTexts + Drop>(
        &self,
        alloc: Global,
        records: Q,
    ) -> Result<TableOf<Q>, AllocError>
        ensures { IfOk result (λ made. table_state Q.rows made ≡ record (table_state R.rows self.now) { rows = Q.rows records }) }
    {
        let config = self.config.clone(alloc)?;
        let dimension = self.dimension.clone(alloc)?;
        Ok(TableOf {
            records,
            config,
            dimension,
            alloc,
        })
    }
}
