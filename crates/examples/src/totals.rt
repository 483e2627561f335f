//! A table of values with one row more, by a builder of its rows (`tabled`).
use grid_config::Fault;
use std::alloc::Global;
use tabled::{BuildTable, Table};

/// Fruit, and how much of it there is in all.
pub(crate) fn summed(alloc: Global) -> Result<Table, Fault> {
    let mut builder = Table::builder(alloc, [("apples", 3u8), ("pears", 12u8)])?;
    builder.push_record(["in all", "15"])?;
    builder.build()
}
