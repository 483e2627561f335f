//! Stripping, searching and splitting.
use super::{expect, expect_text};
use ansi_str_search::{AnsiSplit, has_escape, strip_text};
use std::alloc::{AllocError, Global};
use std::borrow::CowStr;
use std::process::Abort;
use std::test::Fail;

// A text, and what it shows.
const SHOWN: &[(&str, &str)] = &[
    ("\x1b[31mab\n\x1b]0;t\x07c", "ab\nc"),
    // a broken ESC counts as a sequence, and what comes after it is text
    ("a\x1b[1é\x1b", "a[1é"),
    ("é漢\u{9b}31m\n", "é漢\u{9b}31m\n"),
    ("", ""),
];

fn expect_strip(
    rt: &impl Abort,
    alloc: Global,
    text: &str,
    wanted: &str,
) -> Result<(), AllocError> {
    let found = strip_text(alloc, text)?;
    expect_text(rt, found.as_str(), wanted, text);
    let is_borrow = matches!(found, CowStr::Borrowed(_));
    expect(rt, is_borrow == !has_escape(text), "a borrow", text);
    Ok(())
}

#[test]
fn strips(rt: HostRuntime) -> Result<(), Fail> {
    for (text, wanted) in SHOWN {
        expect_strip(&rt, rt.alloc(), text, wanted)?;
    }
    Ok(())
}

// The next part. After a refusal, which `tests/memory` makes, none comes any more.
fn next_part<'a>(
    rt: &impl Abort,
    parts: &mut AnsiSplit<'a>,
    text: &str,
) -> Result<CowStr<'a>, AllocError> {
    let part = parts.next().expect(rt, "a part is missing");
    if part.is_err() {
        expect_end(rt, parts, text);
    }
    part
}

// No part is left, now and later.
fn expect_end(rt: &impl Abort, parts: &mut AnsiSplit<'_>, text: &str) {
    expect(rt, parts.next().is_none(), "the end", text);
    expect(rt, parts.next().is_none(), "behind the end", text);
}

// The next part, which is a borrow where the text has no ESC.
fn expect_part(
    rt: &impl Abort,
    parts: &mut AnsiSplit<'_>,
    wanted: &str,
    text: &str,
) -> Result<(), AllocError> {
    let found = next_part(rt, parts, text)?;
    expect_text(rt, found.as_str(), wanted, text);
    let is_borrow = matches!(found, CowStr::Borrowed(_));
    expect(rt, is_borrow || has_escape(text), "a borrow", text);
    Ok(())
}

// The parts of a text that is split, and then none.
pub(super) fn expect_parts(
    rt: &impl Abort,
    mut parts: AnsiSplit<'_>,
    wanted: &[&str],
    text: &str,
) -> Result<(), AllocError> {
    for part in wanted {
        expect_part(rt, &mut parts, part, text)?;
    }
    expect_end(rt, &mut parts, text);
    Ok(())
}

// A text, a pattern, and the parts.
type Row = (&'static str, &'static str, &'static [&'static str]);

const SPLITS: &[Row] = &[
    // ---- at the empty pattern
    ("", "", &["", ""]),
    ("a", "", &["", "a", ""]),
    // what is between two characters is in both of their parts
    (
        "\x1b[31mé\x1b[1ma\x1b[0m",
        "",
        &[
            "\x1b[31m\x1b[39m",
            "\x1b[31mé\x1b[1m\x1b[22m\x1b[39m",
            "\x1b[31m\x1b[1ma\x1b[0m",
            "\x1b[1m\x1b[31m\x1b[0m",
        ],
    ),
    ("a\x1b[2J漢", "", &["", "a\x1b[2J", "\x1b[2J漢", ""]),
    ("\x1b[7m", "", &["\x1b[7m\x1b[27m", "\x1b[7m\x1b[27m"]),
    ("a\x1b", "", &["", "a\x1b", "\x1b"]),
    (
        "\x1b\x1b[31ma",
        "",
        &[
            "\x1b\x1b[31m\x1b[39m",
            "\x1b\x1b[31ma\x1b[39m",
            "\x1b[31m\x1b[39m",
        ],
    ),
    // ---- at one byte
    // a sequence right before a match, and one right after it
    (
        "\x1b[31ma\x1b[1m:\x1b[4mb",
        ":",
        &[
            "\x1b[31ma\x1b[1m\x1b[22m\x1b[39m",
            "\x1b[1m\x1b[31m\x1b[4mb\x1b[22m\x1b[24m\x1b[39m",
        ],
    ),
    // a match at the start, two in a row, one at the end
    (
        ":\x1b[31m:a:",
        ":",
        &[
            "",
            "\x1b[31m\x1b[39m",
            "\x1b[31ma\x1b[39m",
            "\x1b[31m\x1b[39m",
        ],
    ),
    // a style over three parts
    (
        "\x1b[1;4mone\ntwo\nthree\x1b[0m",
        "\n",
        &[
            "\x1b[1;4mone\x1b[22m\x1b[24m",
            "\x1b[1m\x1b[4mtwo\x1b[22m\x1b[24m",
            "\x1b[1m\x1b[4mthree\x1b[0m",
        ],
    ),
    // the pattern in a string and in a parameter is none
    ("a\x1b]0;x\ny\x07b\nc", "\n", &["a\x1b]0;x\ny\x07b", "c"]),
    ("\x1b[30m0", "0", &["\x1b[30m\x1b[39m", "\x1b[30m\x1b[39m"]),
    (
        "表\x1b[1m、\x1b[22m行",
        "、",
        &["表\x1b[1m\x1b[22m", "\x1b[1m\x1b[22m行"],
    ),
    // other sequences change no style
    (
        "\x1b[31ma\x1b[2Jb:\x1b]0;t\x07c",
        ":",
        &["\x1b[31ma\x1b[2Jb\x1b[39m", "\x1b[31m\x1b]0;t\x07c\x1b[39m"],
    ),
    // broken ones stay where they were
    ("a\x1b[1é:b\x1b", ":", &["a\x1b[1é", "b\x1b"]),
    ("a\x1b\nb", "\n", &["a\x1b", "b"]),
    // no match
    ("\x1b[31mab", "c", &["\x1b[31mab\x1b[39m"]),
    ("\x1b[31ma", "\x1b", &["\x1b[31ma\x1b[39m"]),
    ("a\x1b", "\x1b", &["a\x1b"]),
    ("\x1b]0;t\x07", "\n", &["\x1b]0;t\x07"]),
    // ---- at several bytes
    // a sequence within a match is in no part, and what it sets goes on
    (
        "\x1b[30m123:4\x1b[1m56\x1b[39m",
        "456",
        &["\x1b[30m123:\x1b[39m", "\x1b[1m\x1b[30m\x1b[39m\x1b[22m"],
    ),
    ("a\r\x1b\nb", "\r\n", &["a", "b"]),
    ("a\x1b\r\nb", "\r\n", &["a\x1b", "b"]),
    // matches do not overlap
    ("aaaaa", "aa", &["", "", "a"]),
    (
        "a\x1b[31maaaa",
        "aa",
        &["", "\x1b[31m\x1b[39m", "\x1b[31ma\x1b[39m"],
    ),
    // a match at the start, two in a row, one at the end
    (
        "ab\x1b[4mabxab\x1b[24m",
        "ab",
        &["", "\x1b[4m\x1b[24m", "\x1b[4mx\x1b[24m", "\x1b[4m\x1b[24m"],
    ),
    ("漢\x1b[31m字\x1b[39m漢字", "漢字", &["", "\x1b[31m\x1b[39m", ""]),
    // the pattern in a string is none
    ("a\x1b]0;xy\x07bxyc", "xy", &["a\x1b]0;xy\x07b", "c"]),
    // no match
    ("", "ab", &[""]),
    ("\x1b[31mab", "abc", &["\x1b[31mab\x1b[39m"]),
    ("\x1b[31ma", "\x1b[31m", &["\x1b[31ma\x1b[39m"]),
    ("è\x1b[3m", "é", &["è\x1b[3m\x1b[23m"]),
    // ---- without sequences
    ("é漢a", "", &["", "é", "漢", "a", ""]),
    (",a,,漢,", ",", &["", "a", "", "漢", ""]),
    ("漢字漢\u{9b}", "字", &["漢", "漢\u{9b}"]),
    ("ab", "abc", &["ab"]),
    // ---- lines whose styles are closed, which come back as they are
    (
        "\x1b[31ma\x1b[39m\n\n\x1b[1mé\x1b[0m b\n\x1b]0;t\n\x07漢",
        "\n",
        &[
            "\x1b[31ma\x1b[39m",
            "",
            "\x1b[1mé\x1b[0m b",
            "\x1b]0;t\n\x07漢",
        ],
    ),
    (
        "\x1b[2;48;5;10mDar\x1b[22m\x1b[49m\n\x1b[2m\x1b[48;5;10mren\x1b[0m",
        "\n",
        &[
            "\x1b[2;48;5;10mDar\x1b[22m\x1b[49m",
            "\x1b[2m\x1b[48;5;10mren\x1b[0m",
        ],
    ),
];

#[test]
fn splits(rt: HostRuntime) -> Result<(), Fail> {
    for (text, pattern, wanted) in SPLITS {
        let parts = AnsiSplit::new(rt.alloc(), text, pattern);
        expect_parts(&rt, parts, wanted, text)?;
    }
    Ok(())
}

// The next part shows this.
fn expect_shown_part(
    rt: &impl Abort,
    alloc: Global,
    parts: &mut AnsiSplit<'_>,
    wanted: &str,
    text: &str,
) -> Result<(), AllocError> {
    let part = next_part(rt, parts, text)?;
    let found = strip_text(alloc, part.as_str())?;
    expect_text(rt, found.as_str(), wanted, text);
    Ok(())
}

// The parts show what is between the matches in this strip of the text.
fn expect_shown_parts(
    rt: &impl Abort,
    alloc: Global,
    parts: &mut AnsiSplit<'_>,
    strip: &str,
    pattern: &str,
    text: &str,
) -> Result<(), AllocError> {
    for wanted in strip.split(pattern) {
        expect_shown_part(rt, alloc, parts, wanted, text)?;
    }
    expect_end(rt, parts, text);
    Ok(())
}

// The parts without their sequences are those of the text without its sequences.
fn expect_same_strips(
    rt: &impl Abort,
    alloc: Global,
    text: &str,
    pattern: &str,
) -> Result<(), AllocError> {
    let strip = strip_text(alloc, text)?;
    let mut parts = AnsiSplit::new(alloc, text, pattern);
    expect_shown_parts(rt, alloc, &mut parts, strip.as_str(), pattern, text)
}

const TEXTS: &[&str] = &[
    "",
    "aaaaa",
    "\x1b[31m",
    "\x1b[30m12\x1b[1m\na\x1b[39maa\n",
    "漢\x1b[31m字\x1b[39m漢字é",
    "a\x1b]0;a\na\x07\na\x1b(B\x1b[0m\n\n",
];

const PATTERNS: &[&str] = &["", "a", "\n", "aa", "\na", "漢", "漢字", "é", "\x1b", "[31m"];

#[test]
fn splits_as_what_it_shows(rt: HostRuntime) -> Result<(), Fail> {
    for text in TEXTS {
        for pattern in PATTERNS {
            expect_same_strips(&rt, rt.alloc(), text, pattern)?;
        }
    }
    Ok(())
}
