//! Tables in given sizes, which they keep (`tabled`).
use grid_config::Fault;
use std::alloc::Global;
use tabled::{Height, Table, Width};

/// Two columns that take 12 and 7, with their paddings.
pub(crate) fn wide(alloc: Global, table: &mut Table) -> Result<(), Fault> {
    table.set(Width::list(alloc, [12, 7])?)
}

/// Three rows, the second of two lines.
pub(crate) fn high(alloc: Global, table: &mut Table) -> Result<(), Fault> {
    table.set(Height::list(alloc, [1, 2, 1])?)
}
