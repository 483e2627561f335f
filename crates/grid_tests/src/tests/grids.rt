//! Worked tables of grids, and what does not fit.
use super::{MEMORY, Table, expect_same, let_go, records_of};
use Set::*;
use fakes::borders::ASCII;
use grid_config::{
    ANSIBuf, AlignmentHorizontal, AlignmentVertical, ColoredConfig, Entity, Fault, Position,
    SpannedConfig,
};
use papergrid::{IterGrid, PeekableGrid, fits};
use std::alloc::Global;
use std::process::Abort;

// What is set in a frame of ASCII. A span is given by its column, in the first row, and its size.
#[derive(Clone, Copy)]
enum Set {
    Right,
    LineByLine,
    Center,
    RowSpan(usize, usize),
    ColumnSpan(usize),
    Green,
}

fn apply(alloc: Global, cfg: &mut ColoredConfig, value: Set) -> Result<(), Fault> {
    let settings = cfg.spanned_mut();
    match value {
        Right => settings.set_alignment_horizontal(Entity::Global, AlignmentHorizontal::Right),
        LineByLine => settings.set_line_alignment(Entity::Global, true),
        Center => settings.set_alignment_vertical(Entity::Global, AlignmentVertical::Center),
        RowSpan(col, size) => settings.set_row_span(Position::new(0, col), size),
        ColumnSpan(size) => settings.set_column_span(Position::new(0, 0), size),
        Green => {
            let green = ANSIBuf::new(alloc, "\u{1b}[32m", "\u{1b}[39m")?;
            cfg.set_color(Entity::Global, green)
        }
    }
}

// What is set, the table, and its text, or why it does not fit.
type Case = (&'static [Set], Table, Result<&'static str, Fault>);

const RAGGED: Table = Table(&[&["ab\nc"], &["abcd"]], &[4], &[2, 1]);

const SQUARE: Table = Table(&[&["0-0", "0-1"], &["1-0", "1-1"]], &[3, 3], &[1, 1]);

const CUBE: Table = Table(
    &[
        &["0-0", "0-1", "0-2"],
        &["1-0", "1-1", "1-2"],
        &["2-0", "2-1", "2-2"],
    ],
    &[3, 3, 3],
    &[0, 0, 1],
);

const CASES: &[Case] = &[
    (
        &[Right],
        RAGGED,
        Ok("+----+\n|  ab|\n|  c |\n+----+\n|abcd|\n+----+"),
    ),
    (
        &[Right, LineByLine],
        RAGGED,
        Ok("+----+\n|  ab|\n|   c|\n+----+\n|abcd|\n+----+"),
    ),
    (
        &[RowSpan(0, 2), Center],
        SQUARE,
        Ok("+---+---+\n|   |0-1|\n+0-0+---+\n|   |1-1|\n+---+---+"),
    ),
    (
        &[RowSpan(0, 3), RowSpan(1, 2), RowSpan(2, 2)],
        CUBE,
        Ok("+---+---+---+\n+0-0+0-1+0-2+\n+   +---+---+\n|   |2-1|2-2|\n+---+---+---+"),
    ),
    (
        &[],
        Table(&[&["abc"]], &[2], &[1]),
        Err(Fault::Room { row: 0, column: 0 }),
    ),
    (&[ColumnSpan(3)], SQUARE, Err(Fault::Spans)),
];

fn settings(rt: &impl Abort, alloc: Global, values: &[Set]) -> ColoredConfig {
    let mut cfg = ColoredConfig::new(SpannedConfig::new(alloc));
    cfg.spanned_mut().set_borders(ASCII);
    for value in values {
        apply(alloc, &mut cfg, *value).expect(rt, MEMORY);
    }
    cfg
}

// By a grid whose cells are looked up.
fn expect_printed(rt: &impl Abort, alloc: Global, cfg: &ColoredConfig, case: &Case) {
    let records = records_of(rt, alloc, &case.1).expect(rt, MEMORY);
    match fits(&records, cfg.spanned(), &case.1) {
        Ok(()) => {
            let grid = PeekableGrid::new(records, cfg.spanned(), case.1, cfg.get_colors());
            let text = grid.to_string(alloc).expect(rt, MEMORY);
            expect_same(rt, Ok(text.as_str()), case.2, "a table");
        }
        Err(fault) => expect_same(rt, Err(fault), case.2, "what does not fit"),
    }
}

#[test]
fn grids_print_or_refuse(rt: HostRuntime) {
    for case in CASES {
        let cfg = settings(&rt, rt.alloc(), case.0);
        expect_printed(&rt, rt.alloc(), &cfg, case);
        let_go(cfg);
    }
}

fn print_read(rt: &impl Abort, alloc: Global, cfg: &ColoredConfig) {
    let table = Table(&[&["a"]], &[1], &[1]);
    let records = records_of(rt, alloc, &table).expect(rt, MEMORY);
    let grid = IterGrid::new(records, cfg.spanned(), table, cfg.get_colors());
    let text = grid.to_string(alloc).expect(rt, MEMORY);
    let wanted = "+-+\n|\u{1b}[32ma\u{1b}[39m|\n+-+";
    expect_same(rt, text.as_str(), wanted, "a cell in its colour");
}

#[test]
fn a_grid_that_reads_prints_colors(rt: HostRuntime) {
    let cfg = settings(&rt, rt.alloc(), &[Green]);
    print_read(&rt, rt.alloc(), &cfg);
    let_go(cfg);
}
