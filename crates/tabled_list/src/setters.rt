//! Lists of settings that change no text.
ghost use Rattle.std.specs.Prelude.{IfErr, OnOk};
ghost use Rattle.tabled_list.specs.Lists.{AreSetters, LeadsThrough, RefusedAt};

use crate::adjustable::Adjustable;
use crate::setting::Setting;
use grid_config::Fault;
use grid_records_traits::records::RecordTexts;
use std::alloc::Global;

/// Changes a table of any records by settings that are setters of its configuration, as `apply_list` does: they change
/// no text.
pub fn apply_setters<R: RecordTexts, S: Adjustable<R>>(
    alloc: Global,
    table: &mut S,
    settings: &[Setting],
) -> Result<(), (usize, Fault)>
    requires { AreSetters settings.now }
    ensures run { OnOk result (LeadsThrough settings.now (S.state table.old) (S.state table.new)) }
    ensures refused { IfErr result (λ refusal. RefusedAt settings.now (S.state table.old) (S.state table.new) refusal.0 refusal.1) }
{
    for (index, setting) in settings.iter().enumerate() {
        if let Err(fault) = setting.set(alloc, table) {
            return Err((index, fault));
        }
    }
    Ok(())
}
