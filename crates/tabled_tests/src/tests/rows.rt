//! Worked rows of tables: their makers, kept widths, and tables over a source.
use super::streamed::rows_of;
use super::{MEMORY, expect, expect_text, let_go};
use Source::*;
use fakes::options::StepWriter;
use grid_config::{AlignmentHorizontal, Fault, Position};
use grid_records::{Text, VecRecords, are_equally_long};
use grid_records_traits::IntoRecords;
use grid_records_traits::records::PeekableRecords;
use std::alloc::{AllocError, Global};
use std::mem;
use std::process::Abort;
use tabled::{Builder, LayoutIterator, Table};
use tabled_compact::iter::IterTable;
use tabled_compact::{BuildFault, CompactTable, RowArray};
use tabled_output::Counted;

const REFUSED: &str = "a call is refused";

// ---- makers

// What a table is made of.
#[derive(Clone, Copy)]
enum Source {
    Headed,
    Reserved,
    Built,
    Given,
    Named,
    Records,
}

fn made(alloc: Global, source: Source) -> Result<Table, Fault> {
    match source {
        Headed => Table::new(alloc, ["x"]),
        Reserved => Table::with_capacity(alloc, ["x"], 1),
        Built => Table::from_builder(Table::builder(alloc, ["x"])?),
        Given => Table::from_rows(alloc, [["x"]]),
        Named => Table::kv(alloc, [("a", 1u8)]),
        Records => of_records(alloc),
    }
}

fn of_records(alloc: Global) -> Result<Table, Fault> {
    let mut builder = Builder::new(alloc);
    builder.push_record(["a", "b"])?;
    builder.push_record(["c"])?;
    Table::from_builder(builder)
}

// Its texts, row by row.
const MADE: &[(Source, &[&[&str]])] = &[
    (Headed, &[&["&str"], &["x"]]),
    (Reserved, &[&["&str"], &["x"]]),
    (Built, &[&["&str"], &["x"]]),
    (Given, &[&["x"]]),
    (Named, &[&["&str", "a"], &["u8", "1"]]),
    (Records, &[&["a", "b"], &["c", ""]]),
];

fn expect_row(rt: &impl Abort, table: &Table, row: usize, wanted: &[&str]) {
    expect(rt, table.count_columns() == wanted.len(), "columns");
    for (col, text) in wanted.iter().enumerate() {
        let found = table.get_records().get_text(Position::new(row, col));
        expect_text(rt, found, text);
    }
}

fn expect_made(rt: &impl Abort, alloc: Global, source: Source, wanted: &[&[&str]]) {
    let table = made(alloc, source).expect(rt, REFUSED);
    expect(rt, table.count_rows() == wanted.len(), "rows");
    for (row, texts) in wanted.iter().enumerate() {
        expect_row(rt, &table, row, texts);
    }
    let_go(table);
}

#[test]
fn makers_give_rows(rt: HostRuntime) {
    for (source, wanted) in MADE {
        expect_made(&rt, rt.alloc(), *source, wanted);
    }
}

#[test]
fn batches_begin_at_each_multiple(rt: HostRuntime) {
    let mut batches = LayoutIterator::new(0, 5, 2);
    let found = [batches.next(), batches.next(), batches.next()];
    expect(&rt, found == [Some(0), Some(2), Some(4)], "batches");
    expect(&rt, batches.next().is_none(), "the end");
    let mut none = LayoutIterator::new(0, 5, 0);
    expect(&rt, none.next().is_none(), "batches of no rows");
}

// ---- texts of tables

fn cell(rt: &impl Abort, alloc: Global) -> Table {
    Table::nohead(alloc, ["a"]).expect(rt, REFUSED)
}

#[test]
fn a_table_is_shown_in_a_width(rt: HostRuntime) {
    let table = cell(&rt, rt.alloc());
    let shown = table.to_string_in(Some(7), Some(AlignmentHorizontal::Center), '.');
    let_go(table);
    let shown = shown.expect(&rt, REFUSED);
    expect_text(&rt, shown.as_str(), ".+---+.\n.| a |.\n.+---+.");
}

// A row of one text.
fn records_of(rt: &impl Abort, alloc: Global) -> Result<VecRecords<Text>, AllocError> {
    let text = Text::new(alloc, String::from_str(alloc, "ab")?)?;
    let rows = vec![in alloc; vec![in alloc; text]?]?;
    assert!(rt; are_equally_long(rows.as_slice()));
    Ok(VecRecords::new(rows))
}

fn keep_width(rt: &impl Abort, alloc: Global, table: &mut Table) {
    let widths = Vec::from_slice(alloc, &[3]).expect(rt, MEMORY);
    table.get_dimension_mut().set_widths(widths);
    let records = records_of(rt, alloc).expect(rt, MEMORY);
    let_go(mem::replace(table.get_records_mut(), records));
}

#[test]
fn a_width_is_kept_until_it_is_cleared(rt: HostRuntime) {
    let mut table = cell(&rt, rt.alloc());
    keep_width(&rt, rt.alloc(), &mut table);
    let room = Fault::Room { row: 0, column: 0 };
    let found = table.to_string().err();
    expect(&rt, found == Some(room), "a text without room");
    table.get_dimension_mut().clear();
    let printed = table.to_string();
    let_go(table);
    let printed = printed.expect(&rt, REFUSED);
    expect_text(&rt, printed.as_str(), "+----+\n| ab |\n+----+");
}

// ---- tables over a source

const PAIRS: [[&str; 2]; 2] = [["First", "row"], ["Second", "row"]];

fn sniffed(alloc: Global) -> Result<String, Fault> {
    let mut table = IterTable::from_rows(alloc, PAIRS)?;
    table.sniff(1);
    table.to_string(alloc)
}

// A table of an array takes it by its bound.
fn array_text<I: RowArray<2, 1> + IntoRecords + Drop>(
    alloc: Global,
    rows: I,
) -> Result<String, Fault> {
    CompactTable::from(rows).to_string(alloc)
}

#[test]
fn sources_have_tables(rt: HostRuntime) {
    let text = sniffed(rt.alloc()).expect(&rt, REFUSED);
    let wanted =
        "+-------+-----+\n| First | row |\n+-------+-----+\n| Secon | row |\n+-------+-----+";
    expect_text(&rt, text.as_str(), wanted);
    let text = array_text(rt.alloc(), [["a", "bc"]]).expect(&rt, REFUSED);
    expect_text(&rt, text.as_str(), "+---+----+\n| a | bc |\n+---+----+");
}

fn narrow(alloc: Global) -> Result<String, Fault> {
    let rows = rows_of(alloc, &[&["abc"]])?;
    CompactTable::new(rows).columns(1).to_string(alloc)
}

fn closed(alloc: Global, writer: &mut Counted<StepWriter>) -> Result<(), BuildFault> {
    let rows = rows_of(alloc, &[&["a", "b"], &["1", "2"]])?;
    IterTable::new(rows).build(alloc, writer)
}

#[test]
fn sources_are_refused(rt: HostRuntime) {
    let room = Fault::Room { row: 0, column: 0 };
    let found = narrow(rt.alloc()).err();
    expect(&rt, found == Some(room), "a column of no width");
    let mut writer = Counted::new(StepWriter::new(rt.alloc(), 0, 0));
    let found = closed(rt.alloc(), &mut writer);
    expect(&rt, found == Err(BuildFault::WriteZero), "a full writer");
}
