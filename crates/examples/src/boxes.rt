//! Nested boxes, and records in expanded form (`tabled_pool`).
use grid_config::Fault;
use std::alloc::{AllocError, Global};
use tabled_pool::{ExtendedTable, PoolTable, TableValue};

/// A title over the parts of a house, beside and below one another.
pub(crate) fn rooms(alloc: Global) -> Result<PoolTable, AllocError> {
    let house = [cell(alloc, "kitchen")?, cell(alloc, "hall")?];
    let house = TableValue::Column(Vec::from_array(alloc, house)?);
    let all = [house, cell(alloc, "garden")?];
    let all = TableValue::Row(Vec::from_array(alloc, all)?);
    let titled = [cell(alloc, "rooms")?, all];
    let titled = TableValue::Column(Vec::from_array(alloc, titled)?);
    Ok(PoolTable::from(titled))
}

fn cell(alloc: Global, text: &str) -> Result<TableValue, AllocError> {
    Ok(TableValue::Cell(String::from_str(alloc, text)?))
}

/// Fruit and how much of it there is, a record for each.
pub(crate) fn records(alloc: Global) -> Result<ExtendedTable, Fault> {
    ExtendedTable::new(alloc, [("apples", 3u8), ("pears", 12u8)])
}

/// The weather of two days, a record for each.
pub(crate) fn weather(alloc: Global) -> Result<ExtendedTable, Fault> {
    ExtendedTable::new(alloc, [("sun", 21u8), ("rain", 12u8)])
}
