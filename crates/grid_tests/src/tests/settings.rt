//! Worked rows of settings.
use super::{MEMORY, expect, expect_same, let_go};
use grid_config::{
    ANSIBuf, ANSIStr, AlignmentHorizontal, BufFault, Entity, Fault, Position, SpannedConfig,
};
use std::alloc::Global;
use std::process::Abort;

const LEFT: AlignmentHorizontal = AlignmentHorizontal::Left;

const CENTER: AlignmentHorizontal = AlignmentHorizontal::Center;

const RIGHT: AlignmentHorizontal = AlignmentHorizontal::Right;

// Calls in turn: which cells get which alignment, and what cells in rows and columns have then.
const CALLS: &[(
    Entity,
    AlignmentHorizontal,
    &[(usize, usize, AlignmentHorizontal)],
)] = &[
    (Entity::Column(1), RIGHT, &[]),
    (
        Entity::Row(0),
        CENTER,
        &[(0, 1, CENTER), (1, 1, RIGHT), (1, 0, LEFT)],
    ),
    (Entity::Column(1), RIGHT, &[(0, 1, RIGHT)]),
    (
        Entity::Global,
        LEFT,
        &[(0, 0, LEFT), (0, 1, LEFT), (1, 0, LEFT), (1, 1, LEFT)],
    ),
];

fn expect_alignments(
    rt: &impl Abort,
    cfg: &SpannedConfig,
    cells: &[(usize, usize, AlignmentHorizontal)],
) {
    for (row, col, wanted) in cells {
        let found = cfg.get_alignment_horizontal(Position::new(*row, *col));
        expect(rt, found == *wanted, "alignments");
    }
}

#[test]
fn the_last_call_that_covers_a_cell_decides(rt: HostRuntime) {
    let mut cfg = SpannedConfig::new(rt.alloc());
    for (entity, value, cells) in CALLS {
        let done = cfg.set_alignment_horizontal(*entity, *value);
        expect(&rt, done == Ok(()), MEMORY);
        expect_alignments(&rt, &cfg, cells);
    }
    let_go(cfg);
}

#[test]
fn spans_hide_cells(rt: HostRuntime) {
    let mut cfg = SpannedConfig::new(rt.alloc());
    let corner = Position::new(0, 0);
    let refused = cfg.set_column_span(corner, 0);
    expect(&rt, refused == Err(Fault::Spans), "a span of no column");
    let done = cfg.set_column_span(corner, 2);
    expect(&rt, done == Ok(()), MEMORY);
    expect(&rt, !cfg.is_cell_visible(Position::new(0, 1)), "a cell");
    expect(&rt, !cfg.spans_are_good(1, 1), "a table of one column");
    expect(&rt, cfg.spans_are_good(1, 2), "a table of two columns");
    let_go(cfg);
}

// A prefix, a suffix, and whether the suffix ends what the prefix sets.
const COLORS: &[(&str, &str, bool)] = &[
    ("\x1b[1;31m", "\x1b[22;39m", true),
    ("\x1b[1;31m", "\x1b[39m", false),
    ("\x1b[1;31m", "\x1b[0m", true),
];

fn expect_color(rt: &impl Abort, alloc: Global) {
    let color = ANSIBuf::from_text(alloc, "\x1b[1;31mx\x1b[0m");
    let color = color.expect(rt, "a text with a block");
    expect_same(rt, color.get_prefix(), "\x1b[1m\x1b[31m", "a prefix");
    expect_same(rt, color.get_suffix(), "\x1b[22m\x1b[39m", "a suffix");
}

#[test]
fn colors_close_and_are_made_of_texts(rt: HostRuntime) {
    for (prefix, suffix, closes) in COLORS {
        let color = ANSIStr::new(prefix, suffix);
        expect(&rt, color.closes() == *closes, suffix);
    }
    expect_color(&rt, rt.alloc());
    let none = ANSIBuf::from_text(rt.alloc(), "").err();
    expect(&rt, none == Some(BufFault::NoBlock), "an empty text");
}
