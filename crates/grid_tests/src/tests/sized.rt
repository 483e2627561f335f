//! A table as data: its rows, and the sizes of its columns and rows.
ghost use Rattle.std.specs.Prelude.{slice_index};

use grid_records::{Dimension, VecRecords, are_equally_long};
use std::alloc::{AllocError, Global};
use std::process::Abort;

// A table: its rows, all of as many cells, the widths of its columns and the heights of its rows.
#[derive(Clone, Copy)]
pub(super) struct Table(
    pub(super) &'static [&'static [&'static str]],
    pub(super) &'static [usize],
    pub(super) &'static [usize],
);

impl Dimension for Table {
    ghost width = { λ table column. slice_index table.1.now column };

    ghost height = { λ table row. slice_index table.2.now row };

    fn get_width(&self, column: usize) -> usize {
        self.1.get(column).copied().unwrap_or(0)
    }

    fn get_height(&self, row: usize) -> usize {
        self.2.get(row).copied().unwrap_or(0)
    }
}

// The rows of the table.
pub(super) fn records_of(
    rt: &impl Abort,
    alloc: Global,
    table: &Table,
) -> Result<VecRecords<&'static str>, AllocError> {
    let mut rows = Vec::new(alloc);
    for row in table.0 {
        rows.push(row.to_vec(alloc)?)?;
    }
    assert!(rt; are_equally_long(&rows));
    Ok(VecRecords::new(rows))
}
