//! Sizes that are kept, and a table to estimate them of.
use grid_config::Fault;
use grid_records::{VecRecords, are_equally_long};
use grid_records_estimate::Estimate;
use std::alloc::{AllocError, Global};
use std::process::Abort;
use tabled_size::CompleteDimension;

pub(super) type Lists = (Option<&'static [usize]>, Option<&'static [usize]>);

// The lists of widths and heights that are kept.
pub(super) fn expect_kept(rt: &impl Abort, sizes: &CompleteDimension, wanted: Lists, what: &str) {
    let (widths, heights) = wanted;
    assert_eq!(rt; sizes.get_widths(), widths, "the widths {what}");
    assert_eq!(rt; sizes.get_heights(), heights, "the heights {what}");
}

pub(super) fn kept(alloc: Global, lists: Lists) -> Result<CompleteDimension, AllocError> {
    let mut sizes = CompleteDimension::default();
    if let Some(widths) = lists.0 {
        sizes.set_widths(Vec::from_slice(alloc, widths)?);
    }
    if let Some(heights) = lists.1 {
        sizes.set_heights(Vec::from_slice(alloc, heights)?);
    }
    Ok(sizes)
}

fn row(alloc: Global, cells: &[&'static str]) -> Result<Vec<&'static str>, AllocError> {
    Vec::from_slice(alloc, cells)
}

// A cell over both columns, over two of one column.
pub(super) fn table(
    rt: &impl Abort,
    alloc: Global,
) -> Result<VecRecords<&'static str>, AllocError> {
    let mut rows = Vec::new(alloc);
    rows.push(row(alloc, &["abcdefgh", "hidden"])?)?;
    rows.push(row(alloc, &["a", "b\nc"])?)?;
    assert!(rt; are_equally_long(&rows));
    Ok(VecRecords::new(rows))
}

// Through the bound.
pub(super) fn estimate<R, C, D: Estimate<R, C>>(
    alloc: Global,
    sizes: &mut D,
    records: R,
    cfg: &C,
) -> Result<(), Fault> {
    sizes.estimate(alloc, records, cfg)
}
