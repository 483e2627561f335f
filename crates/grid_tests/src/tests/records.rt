//! Worked rows of measures and estimates.
use super::{MEMORY, Table, expect, expect_same, let_go, records_of};
use fakes::borders::ASCII;
use grid_config::{Entity, Fault, Indent, Position, Sides, SpannedConfig};
use grid_records_estimate::PeekableGridDimension;
use grid_records_measure::{count_lines, get_text_dimension, get_text_width};
use std::alloc::Global;
use std::process::Abort;

#[test]
fn texts_are_measured(rt: HostRuntime) {
    let text = "now is the time for all good men\n";
    expect_same(&rt, get_text_dimension(text), (2, 32), text);
    let text = "Go 👍\nC 😎";
    expect_same(&rt, get_text_width(text), 5, text);
    expect_same(&rt, count_lines(""), 1, "");
}

// A cell over both columns, over one cell in each.
const SPANNING: Table = Table(&[&["abcdefgh", ""], &["a", "b"]], &[], &[]);

const ONE: Table = Table(&[&["a"]], &[], &[]);

// The widths of a table, or why there are none.
fn expect_widths(
    rt: &impl Abort,
    alloc: Global,
    table: &Table,
    cfg: &SpannedConfig,
    wanted: Result<&[usize], Fault>,
) {
    let records = records_of(rt, alloc, table).expect(rt, MEMORY);
    match PeekableGridDimension::width(alloc, &records, cfg) {
        Ok(widths) => expect_same(rt, Ok(widths.as_slice()), wanted, "widths"),
        Err(fault) => expect_same(rt, Err(fault), wanted, "a refusal"),
    }
}

#[test]
fn a_span_widens_its_columns(rt: HostRuntime) {
    let mut cfg = SpannedConfig::new(rt.alloc());
    cfg.set_borders(ASCII);
    let done = cfg.set_column_span(Position::new(0, 0), 2);
    expect(&rt, done == Ok(()), MEMORY);
    expect_widths(&rt, rt.alloc(), &SPANNING, &cfg, Ok(&[4, 3]));
    let_go(cfg);
}

#[test]
fn a_width_past_the_range_is_refused(rt: HostRuntime) {
    let mut cfg = SpannedConfig::new(rt.alloc());
    let (none, endless) = (Indent::spaced(0), Indent::spaced(usize::MAX));
    let padding = Sides::new(endless, none, none, none);
    let done = cfg.set_padding(Entity::Global, padding);
    expect(&rt, done == Ok(()), MEMORY);
    expect_widths(&rt, rt.alloc(), &ONE, &cfg, Err(Fault::Range));
    let_go(cfg);
}
