//! A delimited text as a table, by one call.
use basinmug_run::{Counted, Options, Printed, RunFault, run};
use std::alloc::Global;
use std::io::Write;

const PRICES: &[u8] = b"name;price\napples;0.25\na basket of pears;12\n";

/// Prints records, with semicolons between their fields, as a table of at most 24 columns.
pub fn prices<W: Write>(alloc: Global, writer: &mut Counted<W>) -> Result<Printed, RunFault> {
    let mut options = Options::new(alloc);
    options.width = Some(24);
    run(alloc, PRICES, b';', &options, writer)
}
