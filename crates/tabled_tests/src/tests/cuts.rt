//! Texts of cells that a list cuts.
use super::{MEMORY, alone, expect_text, let_go, outcome};
use grid_config::{Entity, Position};
use grid_records_traits::records::PeekableRecords;
use std::alloc::Global;
use std::process::Abort;
use tabled::{Amount, Setting, Table, Truncate};
use tabled_size::SuffixLimit;

// That the text of a cell becomes this.
fn becomes(rt: &impl Abort, alloc: Global, text: &str, setting: Setting, wanted: &str) {
    let settings = alone(alloc, setting).expect(rt, MEMORY);
    let mut table = Table::nohead(alloc, [text]).expect(rt, "no table is made");
    let done = outcome(table.with_list(&settings));
    done.expect(rt, "a setting is refused");
    let found = table.get_records().get_text(Position::new(0, 0));
    expect_text(rt, found, wanted);
    let_go(table);
}

// A suffix, how it is limited, and whether each line is cut and the suffix takes a style.
type Suffix = (&'static str, SuffixLimit, bool, bool);

// A cut at `width` columns.
fn cut(rt: &impl Abort, alloc: Global, width: usize, suffix: Suffix) -> Setting {
    let (text, limit, multiline, try_color) = suffix;
    Setting::CellTruncate {
        at: Entity::Global,
        width: Amount::Exact(width),
        suffix: String::from_str(alloc, text).expect(rt, MEMORY),
        limit,
        multiline,
        try_color,
    }
}

// A suffix that is cut.
const DOTS: Suffix = ("...", SuffixLimit::Cut, false, false);

const NO_SUFFIX: Suffix = ("", SuffixLimit::Cut, false, false);

// A text, the columns, the suffix, and what the text becomes.
const CUTS: &[(&str, usize, Suffix, &str)] = &[
    // a suffix follows
    ("Hello", 4, DOTS, "H..."),
    ("Hello", 3, DOTS, "..."),
    // the columns of each line count
    ("123\n456789", 3, NO_SUFFIX, "123"),
    ("123\n456789", 4, NO_SUFFIX, "123\n4567"),
    // a suffix that does not fit is replaced
    ("Hello", 2, ("...", SuffixLimit::Ignore, false, false), "He"),
    (
        "Hello",
        2,
        ("...", SuffixLimit::Replace('x'), false, false),
        "xx",
    ),
    (
        "Hello",
        3,
        ("...", SuffixLimit::Replace('😳'), false, false),
        "😳\u{fffd}",
    ),
    // a suffix takes a style
    (
        "\u{1b}[31mHello\u{1b}[0m",
        4,
        ("...", SuffixLimit::Cut, false, true),
        "\u{1b}[31mH\u{1b}[39m\u{1b}[31m...\u{1b}[39m",
    ),
    // each line is cut
    (
        "ab\ncdef",
        3,
        (".", SuffixLimit::Cut, true, false),
        "ab.\ncd.",
    ),
];

#[test]
fn texts_are_cut(rt: HostRuntime) {
    for (text, width, suffix, wanted) in CUTS {
        let setting = cut(&rt, rt.alloc(), *width, *suffix);
        becomes(&rt, rt.alloc(), text, setting, wanted);
    }
}

// What a cut leaves of a text that is in no table.
fn leaves(rt: &impl Abort, alloc: Global, width: usize, wanted: &str) {
    let found = Truncate::truncate(alloc, "123\n456789", width);
    let found = found.expect(rt, MEMORY);
    expect_text(rt, &found, wanted);
}

#[test]
fn lines_are_cut_or_filled(rt: HostRuntime) {
    leaves(&rt, rt.alloc(), 3, "123");
    leaves(&rt, rt.alloc(), 4, "123\n4567");
    let (at, width, fill) = (Entity::Global, Amount::Exact(3), '😳');
    let setting = Setting::CellMinWidth { at, width, fill };
    becomes(&rt, rt.alloc(), "a\nbc", setting, "a😳😳\nbc😳");
}
