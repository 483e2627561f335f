//! Tables of values, as they are made.
use grid_config::Fault;
use std::alloc::Global;
use tabled::{BuildTable, Builder, Table};

/// Fruit and how much of it there is, below the names of the types.
pub(crate) fn fields(alloc: Global) -> Result<Table, Fault> {
    Table::new(alloc, [("apples", 3u8), ("pears", 12u8)])
}

/// The same, a row for each field.
pub(crate) fn named(alloc: Global) -> Result<Table, Fault> {
    Table::kv(alloc, [("apples", 3u8), ("pears", 12u8)])
}

/// Rows of four numbers, without names.
pub(crate) fn numbered(alloc: Global) -> Result<Table, Fault> {
    Table::nohead(alloc, [[1u32, 2, 3, 4], [1, 4, 9, 16], [1, 8, 27, 64]])
}

/// Records of different lengths.
pub(crate) fn ragged(alloc: Global) -> Result<Table, Fault> {
    let mut builder = Builder::new(alloc);
    builder.push_record(["city", "river", "since"])?;
    builder.push_record(["Basel", "Rhine"])?;
    builder.push_record(["Bern"])?;
    builder.build()
}

/// Planets by their moons.
pub(crate) fn planets(alloc: Global) -> Result<Table, Fault> {
    Table::from_rows(
        alloc,
        [["planet", "moons"], ["Mars", "2"], ["Jupiter", "95"]],
    )
}

/// The same, below a title.
pub(crate) fn titled(alloc: Global) -> Result<Table, Fault> {
    Table::from_rows(
        alloc,
        [["Our neighbours", ""], ["Mars", "2"], ["Jupiter", "95"]],
    )
}

/// A word and what it means.
pub(crate) fn entry(alloc: Global) -> Result<Table, Fault> {
    Table::from_rows(alloc, [["word", "a sound or sounds with a meaning"]])
}
