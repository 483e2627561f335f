//! Lists of settings.
ghost use Rattle.std.specs.Prelude.{IfErr, OnOk};
ghost use Rattle.tabled_list.specs.Lists.{LeadsThrough, RefusedAt};

use crate::adjustable::Adjustable;
use crate::setting::Setting;
use grid_config::Fault;
use grid_records::{FromText, VecRecords};
use std::alloc::Global;

/// Changes the table by the settings, one after the other, up to the first that is refused. That one changes
/// nothing, and those before it remain in effect. Returns its index and why it is refused, which may be that
/// allocation fails.
pub fn apply_list<T: FromText, S: Adjustable<VecRecords<T>>>(
    alloc: Global,
    table: &mut S,
    settings: &[Setting],
) -> Result<(), (usize, Fault)>
    ensures run { OnOk result (LeadsThrough settings.now (S.state table.old) (S.state table.new)) }
    ensures refused { IfErr result (λ refusal. RefusedAt settings.now (S.state table.old) (S.state table.new) refusal.0 refusal.1) }
{
    for (index, setting) in settings.iter().enumerate() {
        if let Err(fault) = setting.apply(alloc, table) {
            return Err((index, fault));
        }
    }
    Ok(())
}
