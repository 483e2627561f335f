//! What is requested of single columns, as lists.
ghost use Rattle.std.specs.Prelude.{◌≡◌, IfErr, IfOk, Some, map};
ghost use Rattle.basinmug_bounded.specs.Lists.{IsRefusedList, list_in};
ghost use Rattle.basinmug_values.specs.Choices.{chosen_listed, chosen_of};
ghost use Rattle.basinmug_values.specs.Lists.{listed, seen_items};

use crate::refusal::{ListFault, Refusal};
use basinmug_run::{ColumnChoice, ColumnName, RunFault};
use basinmug_values::{Named, chosen_listed, listed};
use std::alloc::{AllocError, Global};
use std::str;

/// The lists of a request, as the arguments of the program have them. An empty one is none.
#[derive(Clone, Copy)]
pub struct Lists<'a> {
    /// The columns that are shown, as `2,0,4-6`.
    pub columns: &'a [u8],
    /// Where the texts of columns are, as `0=right,price=center`.
    pub align: &'a [u8],
    /// The colours of columns, as `0=bold,price=red`.
    pub color: &'a [u8],
}

/// The columns that a list chooses; none if it is empty.
pub(crate) fn choices_in(alloc: Global, list: &[u8]) -> Result<Vec<ColumnChoice>, Refusal>
    ensures read { IfOk result (λ found. list_in chosen_listed list.now ≡ Some (map chosen_of found.items)) }
    ensures refused { IfErr result (IsRefusedList ListFault.Columns (list_in chosen_listed list.now)) }
{
    if list.is_empty() {
        return Ok(Vec::new(alloc));
    }
    let Ok(text) = str::from_utf8(list) else {
        return Err(Refusal::List(ListFault::Columns));
    };
    match chosen_listed(alloc, text) {
        Ok(Some(found)) => Ok(found),
        Ok(None) => Err(Refusal::List(ListFault::Columns)),
        Err(_) => Err(Refusal::Run(RunFault::Memory)),
    }
}

/// The columns of a list and what it says of each; none if it is empty. `fault` is what is reported of another list.
pub(crate) fn values_in<T: Named + Drop>(
    alloc: Global,
    list: &[u8],
    fault: ListFault,
) -> Result<Vec<(ColumnName, T)>, Refusal>
    ensures read { IfOk result (λ found. list_in (listed T.value_of) list.now ≡ Some (seen_items found.items)) }
    ensures refused { IfErr result (IsRefusedList fault (list_in (listed T.value_of) list.now)) }
{
    if list.is_empty() {
        return Ok(Vec::new(alloc));
    }
    let Ok(text) = str::from_utf8(list) else {
        return Err(Refusal::List(fault));
    };
    match listed(alloc, text) {
        Ok(Some(found)) => Ok(found),
        Ok(None) => Err(Refusal::List(fault)),
        Err(_) => Err(Refusal::Run(RunFault::Memory)),
    }
}
