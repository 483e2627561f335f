//! Edits of a text, one after the other.
use super::expect_found;
use ansi_str::{Edit, edit};
use std::test::Fail;

const BOLD: &str = "\x1b[1mab\x1b[0m";

const SPACED: &str = " \x1b[1ma b\x1b[0m ";

const BLACK: &str = "\x1b[30mTEXT\x1b[39m";

const RED: &str = "\x1b[31mab\x1b[0mc";

const PARTED: &str = "\x1b[31ma,\x1b[1mb\x1b[0m,c";

// A text, edits, and what they leave, or none where one fails.
const EDITS: &[(&str, &[Edit<'static>], Option<&str>)] = &[
    (
        BOLD,
        &[Edit::Right(1), Edit::Prefix("b")],
        Some("\x1b[1m\x1b[0m"),
    ),
    (BOLD, &[Edit::Prefix("x")], None),
    // without an edit the text stays as it came
    ("\x1b[31mab", &[], Some("\x1b[31mab")),
    ("", &[], Some("")),
    // each edit is of what the one before it left
    (
        SPACED,
        &[Edit::Trim, Edit::Prefix("a"), Edit::Suffix("b")],
        Some("\x1b[1m \x1b[0m"),
    ),
    (SPACED, &[Edit::Prefix("a"), Edit::Trim], None),
    // nothing comes after an edit that fails
    (BOLD, &[Edit::Left(1), Edit::Prefix("b"), Edit::Trim], None),
    (BOLD, &[Edit::Prefix("a"), Edit::Prefix("a")], None),
    // cuts; past the end is the end
    (
        BLACK,
        &[Edit::Cut { start: 1, end: 3 }],
        Some("\x1b[30mEX\x1b[39m"),
    ),
    (BLACK, &[Edit::Cut { start: 2, end: 1 }], None),
    (
        BLACK,
        &[Edit::Cut {
            start: 0,
            end: usize::MAX,
        }],
        Some(BLACK),
    ),
    (
        BLACK,
        &[Edit::Cut { start: 8, end: 9 }],
        Some("\x1b[30m\x1b[39m"),
    ),
    (BLACK, &[Edit::Cut { start: 9, end: 8 }], None),
    // inside a character
    ("\x1b[1mé", &[Edit::Cut { start: 0, end: 1 }], None),
    ("\x1b[1mé", &[Edit::Cut { start: 1, end: 2 }], None),
    // sides
    (BOLD, &[Edit::Left(1)], Some("\x1b[1ma\x1b[22m")),
    (BOLD, &[Edit::Right(1)], Some("\x1b[1mb\x1b[0m")),
    (BOLD, &[Edit::Left(0)], Some("\x1b[1m\x1b[22m")),
    (BOLD, &[Edit::Right(0)], Some(BOLD)),
    // past the end is the end
    (BOLD, &[Edit::Left(usize::MAX)], Some(BOLD)),
    (BOLD, &[Edit::Right(3)], Some("")),
    ("\x1b[1mab", &[Edit::Right(3)], Some("\x1b[1m\x1b[22m")),
    // inside a character
    ("\x1b[1mé", &[Edit::Left(1)], None),
    ("\x1b[1mé", &[Edit::Right(1)], None),
    // parts
    (
        PARTED,
        &[Edit::Part {
            pattern: ",",
            index: 0,
        }],
        Some("\x1b[31ma\x1b[39m"),
    ),
    (
        PARTED,
        &[Edit::Part {
            pattern: ",",
            index: 1,
        }],
        Some("\x1b[31m\x1b[1mb\x1b[0m"),
    ),
    (
        PARTED,
        &[Edit::Part {
            pattern: ",",
            index: 2,
        }],
        Some("c"),
    ),
    (
        PARTED,
        &[Edit::Part {
            pattern: ",",
            index: 3,
        }],
        None,
    ),
    (
        PARTED,
        &[Edit::Part {
            pattern: ",",
            index: 4,
        }],
        None,
    ),
    (
        PARTED,
        &[Edit::Part {
            pattern: ",",
            index: usize::MAX,
        }],
        None,
    ),
    (
        "",
        &[Edit::Part {
            pattern: ",",
            index: 0,
        }],
        Some(""),
    ),
    (
        PARTED,
        &[Edit::Part {
            pattern: "",
            index: 0,
        }],
        Some("\x1b[31m\x1b[39m"),
    ),
    // prefixes, suffixes and trims
    (RED, &[Edit::Prefix("a")], Some("\x1b[31mb\x1b[0mc")),
    (RED, &[Edit::Prefix("b")], None),
    (RED, &[Edit::Suffix("bc")], Some("\x1b[31ma\x1b[0m")),
    (RED, &[Edit::Suffix("x")], None),
    (" \x1b[1m a ", &[Edit::Trim], Some("\x1b[1ma")),
    ("\x1b[1m ", &[Edit::Trim], Some("\x1b[1m")),
];

#[test]
fn edits_in_turn(rt: HostRuntime) -> Result<(), Fail> {
    for (text, edits, wanted) in EDITS {
        expect_found(&rt, edit(rt.alloc(), text, edits)?, *wanted, text);
    }
    Ok(())
}
