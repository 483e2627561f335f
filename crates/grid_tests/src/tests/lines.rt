//! Lines, tabs and cuts. `tests/memory` runs these tests with each request for memory refused, and they return the
//! refusal.
use super::{expect, expect_same};
use grid_records_measure::{Lines, count_lines, cut_width, get_lines, replace_tab};
use std::alloc::AllocError;
use std::borrow::CowStr;
use std::process::Abort;

// ---- lines

// What was made of a text, and whether it is a borrow.
fn expect_made(rt: &impl Abort, made: &CowStr<'_>, wanted: &str, text: &str) -> bool {
    expect_same(rt, made.as_str(), wanted, text);
    matches!(made, CowStr::Borrowed(_))
}

// The next line, which is a borrow where the text has no ESC. After a refusal, which `tests/memory`
// makes, no further line comes.
fn expect_line(
    rt: &impl Abort,
    lines: &mut Lines<'_>,
    wanted: &str,
    text: &str,
) -> Result<(), AllocError> {
    match lines.next().expect(rt, "a line is missing") {
        Ok(line) => {
            let is_borrow = expect_made(rt, &line, wanted, text);
            expect(rt, is_borrow || text.contains('\x1b'), text);
            Ok(())
        }
        Err(refused) => {
            expect_end(rt, lines, "a refusal");
            Err(refused)
        }
    }
}

// No further line comes.
fn expect_end(rt: &impl Abort, lines: &mut Lines<'_>, what: &str) {
    expect(rt, lines.next().is_none(), what);
    expect(rt, lines.next().is_none(), what);
}

fn expect_lines(
    rt: &impl Abort,
    lines: &mut Lines<'_>,
    wanted: &[&str],
    text: &str,
) -> Result<(), AllocError> {
    for line in wanted {
        expect_line(rt, lines, line, text)?;
    }
    expect_end(rt, lines, text);
    Ok(())
}

// A text and its lines.
const LINES: &[(&str, &[&str])] = &[
    ("", &[""]),
    ("a\n\nb\n", &["a", "", "b", ""]),
    ("now is\nthe time\n", &["now is", "the time", ""]),
    ("\x1b[1ma\nb", &["\x1b[1ma\x1b[22m", "\x1b[1mb\x1b[22m"]),
    // a line feed within a sequence ends no line
    ("\x1b]0;a\nb\x07c", &["\x1b]0;a\nb\x07c"]),
    // a broken escape is no text
    ("a\x1b\nb", &["a\x1b", "b"]),
    // the style that is set within a line reaches the next
    (
        "a\n\x1b[31mb\nc\x1b[0m\nd",
        &["a", "\x1b[31mb\x1b[39m", "\x1b[31mc\x1b[0m", "d"],
    ),
    // a carriage return is text
    ("a\r\nb", &["a\r", "b"]),
];

#[test]
fn gives_lines(rt: HostRuntime) -> Result<(), AllocError> {
    for (text, wanted) in LINES {
        expect_same(&rt, count_lines(text), wanted.len(), text);
        expect_lines(&rt, &mut get_lines(rt.alloc(), text), wanted, text)?;
    }
    Ok(())
}

// ---- tabs

// A text, the spaces for a tab, and what comes of it: a borrow where nothing changes.
const TABS: &[(&str, usize, &str)] = &[
    ("a\tb", 2, "a  b"),
    // a tab within a sequence stays
    ("\x1b]0;a\tb\x07\t", 1, "\x1b]0;a\tb\x07 "),
    ("\t\x1b[1m\t\t漢\t", 3, "   \x1b[1m      漢   "),
    ("\ta\t", 0, "a"),
    // after a broken escape comes text
    ("\x1b]0;\ta", 1, "\x1b]0; a"),
    ("", 4, ""),
    // no memory is requested
    ("", usize::MAX, ""),
    ("ab", usize::MAX, "ab"),
    ("\x1b]0;a\tb\x07c", usize::MAX, "\x1b]0;a\tb\x07c"),
];

#[test]
fn replaces_tabs(rt: HostRuntime) -> Result<(), AllocError> {
    for (text, n, wanted) in TABS {
        let made = replace_tab(rt.alloc(), text, *n)?;
        let is_borrow = expect_made(&rt, &made, wanted, text);
        expect(&rt, is_borrow == (wanted == text), text);
    }
    Ok(())
}

// ---- cuts

// A text, a width, what is left of the text, and whether that must be a borrow.
const CUTS: &[(&str, usize, &str, bool)] = &[
    ("123\n456789", 3, "123", false),
    ("123\n456789", 4, "123\n4567", false),
    ("😳😳😳😳😳", 3, "😳\u{fffd}", false),
    ("\u{17d8}a", 2, "\u{fffd}\u{fffd}", false),
    ("ab", 0, "", false),
    ("\nab", 0, "", false),
    ("a\n\nb", 1, "a", false),
    ("a\n\nb", 2, "a\n\nb", false),
    ("", 3, "", false),
    ("ab\ncd", usize::MAX, "ab\ncd", false),
    // a combining mark costs a column, though it takes none
    ("e\u{301}x", 1, "e", false),
    ("e\u{301}x", 2, "e\u{301}", false),
    // styled text
    (
        "\x1b[31;100m123456\x1b[39m\x1b[49m",
        0,
        "\x1b[31;100m\x1b[39m\x1b[49m",
        false,
    ),
    (
        "\x1b[31;100m123456\x1b[39m\x1b[49m",
        3,
        "\x1b[31;100m123\x1b[39m\x1b[49m",
        false,
    ),
    (
        "\x1b[31;100m123456\x1b[39m\x1b[49m",
        10,
        "\x1b[31;100m123456\x1b[39m\x1b[49m",
        false,
    ),
    // what fills a column has no style
    ("\x1b[31m😳😳\x1b[39m", 3, "\x1b[31m😳\x1b[39m\u{fffd}", false),
    ("\x1b[31m😳😳\x1b[39m", 1, "\x1b[31m\x1b[39m\u{fffd}", false),
    // a style that goes on over a line feed is ended at the cut alone
    ("\x1b[1mab\ncdef", 3, "\x1b[1mab\ncde\x1b[22m", false),
    // what is in a sequence costs nothing, and a sequence at the place of the cut stays
    (
        "\x1b]0;title\x07ab\x1b[0mc",
        2,
        "\x1b]0;title\x07ab\x1b[0m",
        false,
    ),
    // of plain text
    ("123456", 3, "123", true),
    ("ab", 7, "ab", true),
    ("", 0, "", true),
    ("表漢", 2, "表", true),
];

#[test]
fn cuts_at_a_width(rt: HostRuntime) -> Result<(), AllocError> {
    for (text, width, wanted, is_plain) in CUTS {
        let made = cut_width(rt.alloc(), text, *width)?;
        let is_borrow = expect_made(&rt, &made, wanted, text);
        expect(&rt, is_borrow || !*is_plain, text);
    }
    Ok(())
}
