//! Records, their least sizes, and a grid of them (`grid_records`, `papergrid`).
use grid_config::{Borders, Fault, SpannedConfig};
use grid_records::{Estimate, PeekableGridDimension, PeekedRecords, VecRecords, are_equally_long};
use papergrid::{NoColors, PeekableGrid, fits};
use std::alloc::{AllocError, Global};

/// A row for each line, and a cell for each word.
pub fn words<'a>(alloc: Global, text: &'a str) -> Result<Vec<Vec<&'a str>>, AllocError> {
    let mut rows = Vec::new(alloc);
    for line in text.lines() {
        rows.push(row(alloc, line)?)?;
    }
    Ok(rows)
}

fn row<'a>(alloc: Global, line: &'a str) -> Result<Vec<&'a str>, AllocError> {
    let mut row = Vec::new(alloc);
    for word in line.split_whitespace() {
        row.push(word)?;
    }
    Ok(row)
}

/// The rows with a line between two columns, each column as wide as its widest text. None where not all
/// rows have as many cells. Refused where a width passes `usize::MAX`, and where allocation fails.
pub fn table(alloc: Global, rows: Vec<Vec<&str>>) -> Result<Option<String>, Fault> {
    if !are_equally_long(&rows) {
        return Ok(None);
    }
    let cfg = settings(alloc);
    let text = printed(alloc, VecRecords::new(rows), &cfg);
    drop(cfg);
    Ok(Some(text?))
}

// A line between two columns, and none around them.
pub(crate) fn settings(alloc: Global) -> SpannedConfig {
    let mut lines = Borders::empty();
    lines.vertical = Some('|');
    let mut cfg = SpannedConfig::new(alloc);
    cfg.set_borders(lines);
    cfg
}

fn printed(alloc: Global, records: VecRecords<&str>, cfg: &SpannedConfig) -> Result<String, Fault> {
    let mut sizes = PeekableGridDimension::default(alloc);
    sizes.estimate(alloc, PeekedRecords::new(&records), cfg)?;
    fits(&records, cfg, &sizes)?;
    PeekableGrid::new(records, cfg, sizes, NoColors).to_string(alloc)
}
