//! What a table looks like before it is made narrower.
ghost use Rattle.std.specs.Prelude.{◌≡◌, [], IfErr, IfOk, OnOk};
ghost use Rattle.basinmug_cells.specs.Views.{view_rows};
ghost use Rattle.basinmug_run.specs.Picture.Known.{AreKnown, AreNeedsFor};
ghost use Rattle.basinmug_run.specs.Picture.Names.{IsFirstMissing};
ghost use Rattle.basinmug_run.specs.Picture.Pictures.{asked_settings, missing_of};

use crate::options::Options;
use crate::picture::facts::{ColumnFacts, facts_for};
use crate::picture::fault::PrintFault;
use crate::picture::rows::header_of;
use crate::picture::settings::settings_of;
use basinmug_cells::RowsView;
use basinmug_columns::Need;
use std::alloc::Global;
use tabled::Setting;

/// The settings of a table, and what its columns need where it may be made narrower.
#[derive(Drop)]
pub(crate) struct Appearance {
    pub settings: Vec<Setting>,
    pub needs: Vec<Need>,
}

/// What the table of rows looks like, of which the first is the header where the options say so; the texts are those of
/// the input, none of them escaped. What is known of their columns is not found again. Refused as `NoColumn` with the
/// first name that the header does not have, and as `Memory` where allocation fails.
pub(crate) fn appearance_of(
    alloc: Global,
    rows: RowsView<'_>,
    options: &Options,
    known: Option<ColumnFacts>,
) -> Result<Appearance, PrintFault>
    requires { AreKnown options.now.header (view_rows rows) known }
    ensures settings { IfOk result (λ it. it.settings.items ≡ asked_settings options.now (view_rows rows.entry)) }
    ensures needs { IfOk result (λ it. AreNeedsFor options.now (view_rows rows.entry) it.needs.items) }
    ensures named { OnOk result (missing_of options.now (view_rows rows.entry) ≡ []) }
    ensures refused { IfErr result (IsFirstMissing (missing_of options.now (view_rows rows.entry))) }
{
    let header = header_of(options.header, rows);
    let facts = facts_for(alloc, rows, options, known)?;
    let ColumnFacts { numeric, needs } = facts;
    let numbers = numeric.as_slice();
    let settings = settings_of(alloc, header, numbers, options)?;
    Ok(Appearance { settings, needs })
}
