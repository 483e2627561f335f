//! The options of a request, with the colours of a list.
ghost use Rattle.std.specs.Prelude.{◌≡◌, IfErr, IfOk, Some, option_map};
ghost use Rattle.columns_bounded.specs.Requests.{IsAccepted, colors_in, wanted_in};
ghost use Rattle.columns_bounded.specs.Faults.{IsRefusedList, IsRefusedRequest};
ghost use Rattle.program_options.specs.Columns.ColumnColors.{AllClose};
ghost use Rattle.columns_run.specs.Narrow.{IsRunnable};
ghost use Rattle.columns_run.specs.Wanted.{wanted_of};

use crate::fault::AnswerFault;
use crate::request::Request;
use columns_run::RunFault;
use grid_config::ANSIBuf;
use program_options::color_list::colors_of;
use program_options::columns::Options;
use std::alloc::Global;
use std::str;

/// The options that the numbers of a request mean, with a narrow style and the colours of a list, each of which closes.
/// Else the first number without a meaning, or `Colors` if the list does not have the form. Without a list there are no
/// colours. Else it fails only if allocation fails.
pub fn options_of(
    alloc: Global,
    request: &Request,
    colors: Option<&[u8]>,
) -> Result<Options, AnswerFault>
    ensures accepted { IfOk result (λ _. IsAccepted request.now) }
    ensures colors { IfOk result (λ options. colors_in (option_map (λ list. list.now) colors.entry) ≡ Some options.colors.items) }
    ensures wanted { IfOk result (λ options. wanted_of options ≡ wanted_in request.now options.colors.items) }
    ensures runnable { IfOk result (λ options. IsRunnable (wanted_of options)) }
    ensures refused { IfErr result (IsRefusedRequest request.now (option_map (λ list. list.now) colors.entry)) }
{
    let mut options = request.options(alloc)?;
    options.colors = listed(alloc, colors)?;
    Ok(options)
}

// The colours of a list; none without a list.
fn listed(alloc: Global, colors: Option<&[u8]>) -> Result<Vec<(usize, ANSIBuf)>, AnswerFault>
    ensures colors { IfOk result (λ found. colors_in (option_map (λ list. list.now) colors.entry) ≡ Some found.items) }
    ensures close { IfOk result (λ found. AllClose found.items) }
    ensures refused { IfErr result (IsRefusedList (option_map (λ list. list.now) colors.entry)) }
{
    let Some(list) = colors else {
        return Ok(Vec::new(alloc));
    };
    let Ok(list) = str::from_utf8(list) else {
        return Err(AnswerFault::Colors);
    };
    match colors_of(alloc, list) {
        Ok(Some(found)) => Ok(found),
        Ok(None) => Err(AnswerFault::Colors),
        Err(_) => Err(AnswerFault::Text(RunFault::Memory)),
    }
}
