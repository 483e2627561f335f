//! Nested boxes and records in expanded form. `tests/memory` runs these tests with each request for memory refused
//! in turn, and a refusal is passed on. What it could have changed is tested before.
use super::expect_text;
use super::streamed::rows_of;
use grid_config::{ANSIStr, Borders, Fault};
use std::alloc::{AllocError, Global};
use std::process::Abort;
use tabled::Style;
use tabled_pool::{CompactMultilineConfig, ExtendedTable, PoolTable, TableValue};

fn cell(alloc: Global, text: &str) -> Result<TableValue, AllocError> {
    Ok(TableValue::Cell(String::from_str(alloc, text)?))
}

// Two values in one list.
fn both(
    alloc: Global,
    first: TableValue,
    second: TableValue,
) -> Result<Vec<TableValue>, AllocError> {
    let mut members = Vec::new(alloc);
    members.push(first)?;
    members.push(second)?;
    Ok(members)
}

// A styled text beside a column of two.
fn nested(alloc: Global) -> Result<TableValue, AllocError> {
    let below = both(alloc, cell(alloc, "b")?, cell(alloc, "cd")?)?;
    let left = cell(alloc, "\u{1b}[31ma\nb\u{1b}[0m")?;
    Ok(TableValue::Row(both(alloc, left, TableValue::Column(below))?))
}

const NESTED: &str =
    "+---+----+\n| \u{1b}[31ma\u{1b}[39m | b  |\n| \u{1b}[31mb\u{1b}[0m +----+\n|   | cd |\n+---+----+";

// A text is this one, or a refusal is passed on.
fn held(rt: &impl Abort, told: Result<String, Fault>, wanted: &str) -> Result<(), Fault> {
    expect_text(rt, &told?, wanted);
    Ok(())
}

#[test]
fn prints_boxes_in_boxes(rt: HostRuntime) -> Result<(), Fault> {
    let table = PoolTable::from(nested(rt.alloc())?);
    let copy = table.clone(rt.alloc())?;
    held(&rt, copy.to_string(rt.alloc()), NESTED)
}

// Lines of ASCII, the outer ones above and at the left in a colour, and no padding.
fn colored() -> CompactMultilineConfig {
    let red = Some(ANSIStr::new("\u{1b}[31m", "\u{1b}[39m"));
    let mut colors = Borders::empty();
    colors.top = red;
    colors.top_left = red;
    colors.left = red;
    let mut config = CompactMultilineConfig::new();
    config.set_borders(Style::ascii().get_borders());
    config.set_borders_color(colors);
    config
}

const COLORED: &str =
    "\u{1b}[31m+-\u{1b}[39m+\u{1b}[31m-\u{1b}[39m+\n\u{1b}[31m|\u{1b}[39ma|b|\n+-+-+";

#[test]
fn prints_boxes_in_colors(rt: HostRuntime) -> Result<(), Fault> {
    let rows = rows_of(rt.alloc(), &[&["a", "b"]])?;
    let mut table = PoolTable::new(rt.alloc(), rows)?;
    table.set(rt.alloc(), colored())?;
    held(&rt, table.to_string(rt.alloc()), COLORED)
}

const RECORDS: &str = "-[ RECORD 0 ]-\n&str | it\\'s\n-[ RECORD 1 ]-\n&str | b";

#[test]
fn prints_records(rt: HostRuntime) -> Result<(), Fault> {
    let table = ExtendedTable::new(rt.alloc(), ["it's", "b"])?;
    let copy = table.clone(rt.alloc())?;
    held(&rt, copy.to_string(rt.alloc()), RECORDS)
}

// A table of one field and one record.
fn one_record(alloc: Global) -> Result<ExtendedTable, AllocError> {
    let mut rows = Vec::new(alloc);
    for text in ["name", "abcdefghij"] {
        let mut row = Vec::new(alloc);
        row.push(String::from_str(alloc, text)?)?;
        rows.push(row)?;
    }
    Ok(ExtendedTable::from(rows))
}

const WHOLE: &str = "-[ RECORD 0 ]----\nname | abcdefghij";

const CUT: &str = "-[ RECORD 0 ]-\nname | abc..";

#[test]
fn cuts_all_or_nothing(rt: HostRuntime) -> Result<(), Fault> {
    let mut table = one_record(rt.alloc())?;
    match table.truncate(rt.alloc(), 14, "..") {
        Ok(_) => held(&rt, table.to_string(rt.alloc()), CUT),
        Err(refused) => {
            held(&rt, table.to_string(rt.alloc()), WHOLE)?;
            Err(refused)
        }
    }
}
