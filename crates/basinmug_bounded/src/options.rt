//! The options of a run, by a request and its lists.
ghost use Rattle.std.specs.Prelude.{IfErr, IfOk};
ghost use Rattle.basinmug_bounded.specs.Meant.{AreOptionsOf, IsRefusedRequest};
ghost use Rattle.basinmug_bounded.specs.Lists.{texts_of};

use crate::lists::{Lists, choices_in, values_in};
use crate::refusal::{ListFault, Refusal};
use crate::request::{
    PrintRequest, columns_numbered, escapes_numbered, line_style_numbered, number_in,
    priority_numbered, rules_numbered,
};
use basinmug_run::Options;
use std::alloc::Global;

/// The options that the numbers of a request and its lists mean; or the first number without a meaning, or else the first
/// list without the form. Else it fails only if allocation fails.
pub fn options_of(
    alloc: Global,
    request: &PrintRequest,
    lists: Lists<'_>,
) -> Result<Options, Refusal>
    ensures options { IfOk result (AreOptionsOf request.now (texts_of lists.entry)) }
    ensures refused { IfErr result (IsRefusedRequest request.now (texts_of lists.entry)) }
{
    if let Some(fault) = request.first_fault() {
        return Err(Refusal::Request(fault));
    }
    let mut options = Options::new(alloc);
    options.columns = choices_in(alloc, lists.columns)?;
    options.alignments = values_in(alloc, lists.align, ListFault::Align)?;
    options.colors = values_in(alloc, lists.color, ListFault::Color)?;
    options.line_style = line_style_numbered(request.style);
    options.header = request.no_header == 0;
    options.escapes = escapes_numbered(request.escapes);
    options.rules = rules_numbered(request.rules);
    options.width = number_in(request.width);
    options.truncate = request.truncate == 1;
    options.priority = priority_numbered(request.priority);
    options.expanded = request.expanded == 1;
    options.max_rows = number_in(request.max_rows);
    options.tail = number_in(request.tail);
    options.columns_shown = columns_numbered(request.all_columns);
    Ok(options)
}
