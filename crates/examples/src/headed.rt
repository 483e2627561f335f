//! Records in expanded form below heads of their own: the contract says which these are.
ghost use Rattle.std.specs.Prelude.{◌≡◌, IfOk, length, map, string_bytes};
ghost use Rattle.std.specs.List.{range_with_len};
ghost use Rattle.examples.specs.Headed.{day_of};
ghost use Rattle.tabled_expanded.specs.Expanded.{expanded_text};
ghost use Rattle.tabled_expanded.specs.Tables.{expanded};

use grid_config::Fault;
use std::alloc::Global;
use tabled_pool::ExtendedTable;

/// The records of a table, each below the number of its day: `day 0`, then `day 1`, and so on.
pub(crate) fn headed(alloc: Global, records: ExtendedTable) -> Result<String, Fault>
    ensures { IfOk result (λ text. string_bytes text ≡ expanded_text (expanded records) (map day_of (range_with_len 0 (length (expanded records).records)))) }
{
    let days = records.template(
        |alloc: Global, day: usize| -> Result<String, Fault>
            ensures { IfOk result (λ text. string_bytes text ≡ day_of day) }
        { Ok(format!(in alloc; "day {day}")?) },
    );
    days.to_string(alloc)
}
