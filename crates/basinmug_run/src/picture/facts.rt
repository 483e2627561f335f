//! What is known of the columns of rows.
ghost use Rattle.std.specs.Prelude.{◌≡◌, IfOk};
ghost use Rattle.basinmug_cells.specs.Views.{view_rows};
ghost use Rattle.basinmug_run.specs.Picture.Known.{AreFacts, AreKnown, AreNeedsFor};
ghost use Rattle.basinmug_run.specs.Picture.Pictures.{numeric_of};

use crate::options::Options;
use crate::picture::narrowing::narrowed_to;
use crate::picture::rows::{header_of, records_of};
use basinmug_cells::{RowsView, longest};
use basinmug_columns::numbers::numeric_columns;
use basinmug_columns::{Need, needs_of};
use std::alloc::{AllocError, Global};

/// What is known of the columns of rows.
#[derive(Drop)]
pub(crate) struct ColumnFacts {
    /// Whether each is of numbers.
    pub numeric: Vec<bool>,
    /// What each needs.
    pub needs: Vec<Need>,
}

/// What is known already of the columns of rows, of which the first is the header where `header` says so; or else all
/// of it, which is found. Fails only where allocation fails.
pub(crate) fn known_or_found(
    alloc: Global,
    header: bool,
    rows: RowsView<'_>,
    known: Option<ColumnFacts>,
) -> Result<ColumnFacts, AllocError>
    requires { AreKnown header (view_rows rows) known }
    ensures { IfOk result (AreFacts header (view_rows rows.entry)) }
{
    match known {
        Some(facts) => Ok(facts),
        None => facts_of(alloc, header, rows),
    }
}

/// The same, but what the columns need only where the table may be made narrower.
pub(crate) fn facts_for(
    alloc: Global,
    rows: RowsView<'_>,
    options: &Options,
    known: Option<ColumnFacts>,
) -> Result<ColumnFacts, AllocError>
    requires { AreKnown options.now.header (view_rows rows) known }
    ensures numeric { IfOk result (λ facts. facts.numeric.items ≡ numeric_of options.now.header (view_rows rows.entry)) }
    ensures needs { IfOk result (λ facts. AreNeedsFor options.now (view_rows rows.entry) facts.needs.items) }
{
    match narrowed_to(options) {
        Some(_) => known_or_found(alloc, options.header, rows, known),
        None => {
            let numeric = numeric_in(alloc, options.header, rows)?;
            let needs = Vec::new(alloc);
            Ok(ColumnFacts { numeric, needs })
        }
    }
}

// What is known of the columns.
fn facts_of(alloc: Global, header: bool, rows: RowsView<'_>) -> Result<ColumnFacts, AllocError>
    ensures { IfOk result (AreFacts header (view_rows rows.entry)) }
{
    let names = header_of(header, rows);
    let records = records_of(header, rows);
    let numeric = numeric_in(alloc, header, rows)?;
    let numbers = numeric.as_slice();
    let needs = needs_of(alloc, names, records, numbers)?;
    Ok(ColumnFacts { numeric, needs })
}

// Whether each of them is of numbers.
fn numeric_in(alloc: Global, header: bool, rows: RowsView<'_>) -> Result<Vec<bool>, AllocError>
    ensures { IfOk result (λ numeric. numeric.items ≡ numeric_of header (view_rows rows.entry)) }
{
    let records = records_of(header, rows);
    numeric_columns(alloc, records, longest(rows))
}
