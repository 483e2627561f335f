//! Cuts, splits at places, and which bounds and places are good.
use super::calls::{Case, expect_all, expect_sides};
use super::{Bounds, expect, expect_found, expect_text};
use Bounds::*;
use Case::Sides;
use ansi_str::{AnsiRange, AnsiStr, are_places, is_good_range, split_places};
use std::alloc::{AllocError, Global};
use std::borrow::CowStr;
use std::process::Abort;
use std::test::Fail;

// ---- cuts

const BOLD: &str = "\x1b[1maé\x1b[0mb";

// A text, a range, and what is cut: none where the bounds are not good.
const CUTS: &[(&str, Bounds, Option<&str>)] = &[
    // each kind of range, of a text with a character of two bytes
    (BOLD, Between(1, 3), Some("\x1b[1mé\x1b[0m")),
    (BOLD, Through(1, 2), Some("\x1b[1mé\x1b[0m")),
    (BOLD, From(3), Some("\x1b[1m\x1b[0mb")),
    (BOLD, To(1), Some("\x1b[1ma\x1b[22m")),
    (BOLD, ToThrough(0), Some("\x1b[1ma\x1b[22m")),
    (BOLD, ToThrough(usize::MAX), Some(BOLD)),
    (BOLD, All, Some(BOLD)),
    (BOLD, Between(5, 9), Some("\x1b[1m\x1b[0m")),
    // inside a character, and an end before the start
    (BOLD, From(2), None),
    (BOLD, Between(0, 2), None),
    (BOLD, ToThrough(1), None),
    (BOLD, Between(3, 1), None),
];

// What a range cuts of a text, after the test of its bounds.
fn expect_cut<R: AnsiRange>(
    rt: &impl Abort,
    alloc: Global,
    text: &str,
    range: R,
    wanted: Option<&str>,
) -> Result<(), AllocError> {
    if !is_good_range(text, &range) {
        expect(rt, wanted.is_none(), "bad bounds", text);
        return Ok(());
    }
    let found = text.ansi_cut(alloc, range)?;
    expect_found(rt, Some(found), wanted, text);
    Ok(())
}

fn expect_cut_at(
    rt: &impl Abort,
    alloc: Global,
    text: &str,
    bounds: Bounds,
    wanted: Option<&str>,
) -> Result<(), AllocError> {
    match bounds {
        Between(start, end) => expect_cut(rt, alloc, text, start..end, wanted),
        Through(start, last) => expect_cut(rt, alloc, text, start..=last, wanted),
        From(start) => expect_cut(rt, alloc, text, start.., wanted),
        To(end) => expect_cut(rt, alloc, text, ..end, wanted),
        ToThrough(last) => expect_cut(rt, alloc, text, ..=last, wanted),
        All => expect_cut(rt, alloc, text, .., wanted),
    }
}

// What is found has good bounds.
fn cut_what_is_found(rt: &impl Abort, alloc: Global) -> Result<(), AllocError> {
    let text = "\x1b[30mTEXT\x1b[39m";
    assert!(rt; text.ansi_get(alloc, 1..3)?.is_some());
    let part = text.ansi_cut(alloc, 1..3)?;
    expect_found(rt, Some(part), Some("\x1b[30mEX\x1b[39m"), text);
    Ok(())
}

fn cut_string(rt: &impl Abort, alloc: Global) -> Result<(), AllocError> {
    let string = String::from_str(alloc, BOLD)?;
    assert!(rt; is_good_range(string.as_str(), &(1..3)));
    let part = string.ansi_cut(alloc, 1..3)?;
    expect_found(rt, Some(part), Some("\x1b[1mé\x1b[0m"), BOLD);
    Ok(())
}

#[test]
fn cuts(rt: HostRuntime) -> Result<(), Fail> {
    for (text, bounds, wanted) in CUTS {
        expect_cut_at(&rt, rt.alloc(), text, *bounds, *wanted)?;
    }
    cut_what_is_found(&rt, rt.alloc())?;
    cut_string(&rt, rt.alloc())?;
    Ok(())
}

// ---- splits at a place

// A place past the end is the end.
fn split_past_the_end(rt: &impl Abort, alloc: Global) -> Result<(), AllocError> {
    let text = "\x1b[1mab";
    assert!(rt; is_good_range(text, &(3..)));
    let found = text.ansi_split_at(alloc, 3)?;
    expect_sides(rt, found, "\x1b[1mab\x1b[22m", "\x1b[1m\x1b[22m", text);
    Ok(())
}

const SPLIT: &[(&str, Case)] = &[
    (
        "\x1b[1mab\x1b[0m",
        Sides(1, "\x1b[1ma\x1b[22m", "\x1b[1mb\x1b[0m"),
    ),
    (
        "\x1b[1mab\x1b[0m",
        Sides(0, "\x1b[1m\x1b[22m", "\x1b[1mab\x1b[0m"),
    ),
    ("\x1b[1mab\x1b[0m", Sides(2, "\x1b[1mab\x1b[0m", "")),
    ("éa", Sides(2, "é", "a")),
    ("", Sides(0, "", "")),
];

#[test]
fn splits_at(rt: HostRuntime) -> Result<(), Fail> {
    expect_all(&rt, rt.alloc(), SPLIT)?;
    split_past_the_end(&rt, rt.alloc())?;
    Ok(())
}

// ---- splits at places

// A text, places, and the parts.
const PARTS: &[(&str, &[usize], &[&str])] = &[
    ("\x1b[31mab\x1b[0mcd", &[2], &["\x1b[31mab\x1b[0m", "cd"]),
    (
        "\x1b[31mab\x1b[0mcd",
        &[1],
        &["\x1b[31ma\x1b[39m", "\x1b[31mb\x1b[0mcd"],
    ),
    (
        "\x1b[31mab",
        &[0],
        &["\x1b[31m\x1b[39m", "\x1b[31mab\x1b[39m"],
    ),
    ("\x1b[31mab", &[], &["\x1b[31mab\x1b[39m"]),
    // a sequence is in the part that ends at its place, and in no other
    (
        "\x1b[1ma\x1b[2Jé\x1b[3mb\x1b[0m",
        &[1, 3, 4],
        &[
            "\x1b[1ma\x1b[2J\x1b[22m",
            "\x1b[1mé\x1b[3m\x1b[22m\x1b[23m",
            "\x1b[1m\x1b[3mb\x1b[0m",
            "",
        ],
    ),
    // a broken ESC is a sequence, and what comes after it is text
    ("a\x1b\nb\x1b[1", &[1, 5], &["a\x1b", "\nb\x1b[1", ""]),
    ("aéb", &[1, 3], &["a", "é", "b"]),
    ("", &[], &[""]),
    ("", &[0], &["", ""]),
];

fn expect_these(rt: &impl Abort, parts: &[CowStr<'_>], wanted: &[&str], text: &str) {
    expect(rt, parts.len() == wanted.len(), "how many parts", text);
    for (part, wanted) in parts.iter().zip(wanted) {
        expect_text(rt, part.as_str(), wanted, text);
    }
}

fn expect_split_places(
    rt: &impl Abort,
    alloc: Global,
    text: &str,
    places: &[usize],
    wanted: &[&str],
) -> Result<(), AllocError> {
    assert!(rt; are_places(text, places), "{text:?} at {places:?}");
    let parts = split_places(alloc, text, places)?;
    expect_these(rt, parts.as_slice(), wanted, text);
    Ok(())
}

const STYLED: &str = "\x1b[1mé\x1b[2Ja\x1b[0mb";

// A text, places, and whether it can be split there.
const PLACES: &[(&str, &[usize], bool)] = &[
    (STYLED, &[], true),
    (STYLED, &[0, 2, 3, 4], true),
    (STYLED, &[3], true),
    // inside a character, past the end
    (STYLED, &[1], false),
    (STYLED, &[0, 1], false),
    (STYLED, &[5], false),
    (STYLED, &[2, usize::MAX], false),
    // the same place twice, and one before another
    (STYLED, &[2, 2], false),
    (STYLED, &[0, 0], false),
    (STYLED, &[0, 3, 2], false),
    ("", &[0], true),
    ("\x1b[31m", &[1], false),
];

#[test]
fn splits_at_places(rt: HostRuntime) -> Result<(), Fail> {
    for (text, places, wanted) in PARTS {
        expect_split_places(&rt, rt.alloc(), text, places, wanted)?;
    }
    for (text, places, wanted) in PLACES {
        expect(&rt, are_places(text, places) == *wanted, "places", text);
    }
    Ok(())
}
