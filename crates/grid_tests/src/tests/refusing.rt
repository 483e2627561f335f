//! Grids append a whole table or nothing. `tests/memory` runs these tests with each request for memory
//! refused, also those of a source that cuts its cells as they are read.
use super::single_lines::{PlainRows, plain_rows};
use super::{Table, expect_same, nine_rows, records_of};
use fakes::borders::ASCII;
use grid_config::{CompactConfig, Fault, Indent, Sides, SpannedConfig};
use grid_records::{Dimension, IntoRecords, IterRecords, TruncateContent};
use papergrid::{CompactGrid, IterGrid, LineChoice, LineKind, NoColors, PeekableGrid, fits};
use std::alloc::Global;
use std::process::Abort;
use tabled_output::Counted;

// What a text holds that a table is appended to.
const BEFORE: &str = "before\n";

const TABLE: Table = Table(&[&["a", "b"], &["1", "2"]], &[3, 3], &[1, 1]);

// Rows without lines, in a column as wide as no memory holds.
const LINELESS: Table = Table(&[&["a"], &["b"]], &[1 << 62], &[0, 0]);

const LINES: &str = "+---+---+\n| a | b |\n+---+---+\n| 1 | 2 |\n+---+---+";

// The same cells where each is cut at one column as it is read.
const UNCUT: [[&str; 2]; 2] = [["abc", "b"], ["1", "234"]];

// The sizes at which they are cut.
#[derive(Clone, Copy)]
struct Single;

impl Dimension for Single {
    ghost width = { λ _ _. 1 };

    ghost height = { λ _ _. 1 };

    fn get_width(&self, _column: usize) -> usize {
        1
    }

    fn get_height(&self, _row: usize) -> usize {
        1
    }
}

// Each line is chosen.
struct EachLine;

impl LineChoice for EachLine {
    ghost use Rattle.std.specs.Prelude.{true};

    ghost chooses = { λ _ _. true };

    fn is_chosen(&self, _kind: LineKind) -> bool {
        true
    }
}

// A column of space at both sides of each text, in a frame of ASCII.
fn spaced() -> CompactConfig {
    let (none, space) = (Indent::spaced(0), Indent::spaced(1));
    let padding = Sides::new(space, space, none, none);
    CompactConfig::new().set_borders(ASCII).set_padding(padding)
}

// The same for a table with spans. Without colours this takes no memory.
fn spanned(rt: &impl Abort, alloc: Global) -> SpannedConfig {
    let cfg = SpannedConfig::from_compact_config(alloc, spaced());
    cfg.expect(rt, "settings are refused")
}

// The whole table was appended, or a refusal left the text as it was.
fn expect_all_or_nothing(
    rt: &impl Abort,
    outcome: Result<(), Fault>,
    text: &str,
    before: &str,
    lines: &str,
) -> Result<(), Fault> {
    let appended = match outcome {
        Ok(()) => lines,
        Err(fault) => {
            expect_same(rt, fault, Fault::Memory, "a table that is refused");
            ""
        }
    };
    expect_same(rt, text.strip_prefix(before), Some(appended), "a text");
    outcome
}

fn append_looked_up(rt: &impl Abort, alloc: Global, cfg: &SpannedConfig) -> Result<(), Fault> {
    let records = records_of(rt, alloc, &TABLE)?;
    let sizes = TABLE;
    fits(&records, cfg, &sizes)?;
    let mut text = String::from_str(alloc, BEFORE)?;
    let outcome = PeekableGrid::new(records, cfg, sizes, NoColors).build(alloc, &mut text);
    expect_all_or_nothing(rt, outcome, &text, BEFORE, LINES)
}

// The same of nine rows that are known to be plain, also to an empty text.
fn append_long(rt: &impl Abort, alloc: Global, cfg: &SpannedConfig) -> Result<(), Fault> {
    let rows = plain_rows(rt, alloc, nine_rows::PAIRS)?;
    let records = PlainRows {
        rows: &rows,
        columns: 2,
    };
    let sizes = nine_rows::TABLE;
    fits(&records, cfg, &sizes)?;
    let grid = PeekableGrid::new(&records, cfg, &sizes, NoColors);
    let mut text = String::new(alloc);
    let outcome = grid.build(alloc, &mut text);
    expect_all_or_nothing(rt, outcome, &text, "", nine_rows::BOXED)?;
    let mut text = String::from_str(alloc, BEFORE)?;
    let outcome = grid.build(alloc, &mut text);
    expect_all_or_nothing(rt, outcome, &text, BEFORE, nine_rows::BOXED)
}

// Each line, by its number and as it is chosen, with a line feed after it.
fn write_each_line(rt: &impl Abort, alloc: Global, cfg: &SpannedConfig) -> Result<(), Fault> {
    let records = records_of(rt, alloc, &TABLE)?;
    let sizes = TABLE;
    fits(&records, cfg, &sizes)?;
    let grid = PeekableGrid::new(&records, cfg, &sizes, NoColors);
    let mut text = String::new(alloc);
    for y in 0..grid.lines() {
        grid.build_line(alloc, y, &mut text)?;
        text.push('\n')?;
    }
    expect_same(
        rt,
        text.strip_suffix('\n'),
        Some(LINES),
        "lines by their numbers",
    );
    let mut writer = Counted::new(Vec::new(alloc));
    if grid.write_lines(alloc, &mut writer, &EachLine)?.is_err() {
        return Err(Fault::Memory);
    }
    let taken: Vec<u8> = writer.into_inner();
    expect_same(
        rt,
        taken.as_slice(),
        text.as_bytes(),
        "lines that are chosen",
    );
    Ok(())
}

// A table without lines requests memory for none, as a text and written.
fn write_lineless(rt: &impl Abort, alloc: Global) -> Result<(), Fault> {
    let cfg = SpannedConfig::from_compact_config(alloc, CompactConfig::new())?;
    let records = records_of(rt, alloc, &LINELESS)?;
    let sizes = LINELESS;
    fits(&records, &cfg, &sizes)?;
    let grid = PeekableGrid::new(&records, &cfg, &sizes, NoColors);
    let text = grid.to_string(alloc)?;
    expect_same(rt, text.as_str(), "", "a text without lines");
    let mut writer = Counted::new(Vec::new(alloc));
    let written = grid.write(alloc, &mut writer)?;
    expect_same(rt, written, Ok(()), "a table without lines");
    let taken: Vec<u8> = writer.into_inner();
    expect_same(rt, taken.len(), 0, "what is written");
    drop(cfg);
    Ok(())
}

// Appends a table of these cells by a grid that reads them once.
fn read<I: IntoRecords>(
    alloc: Global,
    cells: I,
    cfg: &SpannedConfig,
    text: &mut String,
) -> Result<(), Fault> {
    let records = IterRecords::new(cells, 2, None);
    IterGrid::new(records, cfg, TABLE, NoColors).build(alloc, text)
}

// The same by a compact grid, with a hint that is wrong.
fn read_compact<I: IntoRecords>(
    alloc: Global,
    cells: I,
    cfg: &CompactConfig,
    text: &mut String,
) -> Result<(), Fault> {
    let records = IterRecords::new(cells, 2, Some(9));
    CompactGrid::new(records, cfg, TABLE, NoColors).build(alloc, text)
}

// The same of cells that are cut as they are read.
fn read_compact_cut<I: IntoRecords>(
    alloc: Global,
    cells: I,
    cfg: &CompactConfig,
    text: &mut String,
) -> Result<(), Fault> {
    read_compact(alloc, TruncateContent::new(alloc, cells, Single), cfg, text)
}

fn append_read(rt: &impl Abort, alloc: Global, cfg: &SpannedConfig) -> Result<(), Fault> {
    let mut text = String::from_str(alloc, BEFORE)?;
    let cells = TruncateContent::new(alloc, UNCUT, Single);
    let outcome = read(alloc, cells, cfg, &mut text);
    expect_all_or_nothing(rt, outcome, &text, BEFORE, LINES)
}

fn append_compact(rt: &impl Abort, alloc: Global, cfg: &CompactConfig) -> Result<(), Fault> {
    let mut text = String::from_str(alloc, BEFORE)?;
    let outcome = read_compact_cut(alloc, UNCUT, cfg, &mut text);
    expect_all_or_nothing(rt, outcome, &text, BEFORE, LINES)
}

#[test]
fn looked_up_grids_append_all_or_nothing(rt: HostRuntime) -> Result<(), Fault> {
    let cfg = spanned(&rt, rt.alloc());
    let outcome = append_looked_up(&rt, rt.alloc(), &cfg);
    drop(cfg);
    outcome
}

#[test]
fn long_tables_are_appended_all_or_not(rt: HostRuntime) -> Result<(), Fault> {
    let cfg = spanned(&rt, rt.alloc());
    let outcome = append_long(&rt, rt.alloc(), &cfg);
    drop(cfg);
    outcome
}

#[test]
fn each_line_is_written_or_memory_is_refused(rt: HostRuntime) -> Result<(), Fault> {
    let cfg = spanned(&rt, rt.alloc());
    let outcome = write_each_line(&rt, rt.alloc(), &cfg);
    drop(cfg);
    outcome
}

#[test]
fn tables_without_lines_ask_for_no_line(rt: HostRuntime) -> Result<(), Fault> {
    write_lineless(&rt, rt.alloc())
}

#[test]
fn read_grids_append_all_or_nothing(rt: HostRuntime) -> Result<(), Fault> {
    let cfg = spanned(&rt, rt.alloc());
    let outcome = append_read(&rt, rt.alloc(), &cfg);
    drop(cfg);
    outcome
}

#[test]
fn compact_grids_append_all_or_nothing(rt: HostRuntime) -> Result<(), Fault> {
    append_compact(&rt, rt.alloc(), &spaced())
}
