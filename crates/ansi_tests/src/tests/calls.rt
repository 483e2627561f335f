//! Calls that allocate, each with ample memory; `tests/memory` refuses it.
use super::search::expect_parts;
use super::{Bounds, expect, expect_found, expect_text};
use Bounds::*;
use Call::*;
use Case::*;
use ansi_str::AnsiStr;
use std::alloc::{AllocError, Global};
use std::borrow::CowStr;
use std::process::Abort;
use std::test::Fail;

// ---- what a case asserts

// A call that leaves a part of the text.
#[derive(Clone, Copy)]
pub(super) enum Call {
    Strip,
    Trim,
    Prefix(&'static str),
    Suffix(&'static str),
    Get(Bounds),
}

#[derive(Clone, Copy)]
pub(super) enum Case {
    // what a call leaves: none where there is no such prefix or suffix, or where the bounds are not good
    Leaves(Call, Option<&'static str>),
    // the parts between the matches of a pattern
    Parts(&'static str, &'static [&'static str]),
    // the two sides of a place
    Sides(usize, &'static str, &'static str),
    // whether there is an ESC, and whether each begins a whole sequence
    Escapes(bool, bool),
    // the places of what is shown at which a character begins, or that ends
    Boundaries(&'static [usize]),
    // whether what is shown begins with a pattern and ends with it, and where that comes first
    Search(&'static str, bool, bool, Option<usize>),
}

// What a call leaves.
fn left_by<T: AnsiStr>(
    of: &T,
    alloc: Global,
    call: Call,
) -> Result<Option<CowStr<'_>>, AllocError> {
    match call {
        Strip => Ok(Some(of.ansi_strip(alloc)?)),
        Trim => Ok(Some(of.ansi_trim(alloc)?)),
        Prefix(pattern) => of.ansi_strip_prefix(alloc, pattern),
        Suffix(pattern) => of.ansi_strip_suffix(alloc, pattern),
        Get(bounds) => found_between(of, alloc, bounds),
    }
}

fn found_between<T: AnsiStr>(
    of: &T,
    alloc: Global,
    bounds: Bounds,
) -> Result<Option<CowStr<'_>>, AllocError> {
    match bounds {
        Between(start, end) => of.ansi_get(alloc, start..end),
        Through(start, last) => of.ansi_get(alloc, start..=last),
        From(start) => of.ansi_get(alloc, start..),
        To(end) => of.ansi_get(alloc, ..end),
        ToThrough(last) => of.ansi_get(alloc, ..=last),
        All => of.ansi_get(alloc, ..),
    }
}

// The sides that a text was split into.
pub(super) fn expect_sides(
    rt: &impl Abort,
    found: (CowStr<'_>, CowStr<'_>),
    first: &str,
    second: &str,
    text: &str,
) {
    expect_text(rt, found.0.as_str(), first, text);
    expect_text(rt, found.1.as_str(), second, text);
}

// Places that are tried of each text.
const INDICES: &[usize] = &[0, 1, 2, 3, 4, 5, 6, 7, 8, usize::MAX];

fn expect_boundaries<T: AnsiStr>(rt: &impl Abort, of: &T, places: &[usize], text: &str) {
    for index in INDICES {
        let wanted = places.contains(index);
        let found = of.ansi_is_char_boundary(*index);
        expect(rt, found == wanted, "a boundary", text);
    }
}

fn expect_case<T: AnsiStr>(
    rt: &impl Abort,
    alloc: Global,
    of: &T,
    case: Case,
    text: &str,
) -> Result<(), AllocError> {
    match case {
        Leaves(call, wanted) => expect_found(rt, left_by(of, alloc, call)?, wanted, text),
        Parts(pattern, wanted) => expect_parts(rt, of.ansi_split(alloc, pattern), wanted, text)?,
        Sides(place, first, second) => {
            assert!(rt; of.ansi_is_char_boundary(place));
            expect_sides(rt, of.ansi_split_at(alloc, place)?, first, second, text);
        }
        Escapes(has_any, is_whole) => {
            expect(rt, of.ansi_has_any() == has_any, "an ESC", text);
            expect(rt, of.ansi_is_whole() == is_whole, "whole", text);
        }
        Boundaries(places) => expect_boundaries(rt, of, places, text),
        Search(pattern, starts, ends, place) => {
            expect(rt, of.ansi_starts_with(pattern) == starts, pattern, text);
            expect(rt, of.ansi_ends_with(pattern) == ends, pattern, text);
            expect(rt, of.ansi_find(pattern) == place, pattern, text);
        }
    }
    Ok(())
}

fn expect_of_string(
    rt: &impl Abort,
    alloc: Global,
    case: Case,
    text: &str,
) -> Result<(), AllocError> {
    let string = String::from_str(alloc, text)?;
    expect_case(rt, alloc, &string, case, text)
}

// Each case is tried on a text and on a string of it.
pub(super) fn expect_all(
    rt: &impl Abort,
    alloc: Global,
    cases: &[(&str, Case)],
) -> Result<(), AllocError> {
    for (text, case) in cases {
        expect_case(rt, alloc, text, *case, text)?;
        expect_of_string(rt, alloc, *case, text)?;
    }
    Ok(())
}

// ---- calls that leave a part of the text

const RED: &str = "\x1b[31mab\x1b[0mc";

const BLACK: &str = "\x1b[30mTEXT\x1b[39m";

const ACCENTS: &str = "\x1b[1mé\x1b[3mè\x1b[0m";

const MIXED: &str = "a\x1b[2Jb\x1b[31mc\x1b[1é\x1b[0md";

const LEFT: &[(&str, Case)] = &[
    ("\x1b[31mab\n\x1b]0;t\x07c", Leaves(Strip, Some("ab\nc"))),
    // a broken ESC counts as a sequence, and what comes after it is text
    ("a\x1b[1é\x1b[0m\x1b", Leaves(Strip, Some("a[1é"))),
    ("\x1b[2J\x1b(B\x1bPq\x1b\\", Leaves(Strip, Some(""))),
    (" \x1b[1m a ", Leaves(Strip, Some("  a "))),
    ("é漢\u{9b}31m\n", Leaves(Strip, Some("é漢\u{9b}31m\n"))),
    ("", Leaves(Strip, Some(""))),
    // trims
    (" \x1b[1m a ", Leaves(Trim, Some("\x1b[1ma"))),
    ("", Leaves(Trim, Some(""))),
    (" \t\n", Leaves(Trim, Some(""))),
    (" \x1b[1m \x1b[0m ", Leaves(Trim, Some("\x1b[1m\x1b[0m"))),
    (" a b ", Leaves(Trim, Some("a b"))),
    (
        "\u{3000}\x1b[31m a\x1b[1m \x1b[2Jb \x1b[0m\u{85}",
        Leaves(Trim, Some("\x1b[31ma\x1b[1m \x1b[2Jb\x1b[0m")),
    ),
    ("\x1b[31mab\x1b[0m", Leaves(Trim, Some("\x1b[31mab\x1b[0m"))),
    // a broken ESC is kept
    (" \x1b \x1b[1 ", Leaves(Trim, Some("\x1b\x1b[1"))),
    // prefixes and suffixes
    (RED, Leaves(Prefix("a"), Some("\x1b[31mb\x1b[0mc"))),
    (RED, Leaves(Suffix("a"), None)),
    (RED, Leaves(Prefix("x"), None)),
    (RED, Leaves(Suffix("x"), None)),
    (RED, Leaves(Prefix("abc"), Some("\x1b[31m\x1b[0m"))),
    (RED, Leaves(Suffix("abc"), Some("\x1b[31m\x1b[0m"))),
    (RED, Leaves(Prefix("bc"), None)),
    (RED, Leaves(Suffix("bc"), Some("\x1b[31ma\x1b[0m"))),
    (RED, Leaves(Prefix(""), Some(RED))),
    (RED, Leaves(Suffix(""), Some(RED))),
    ("", Leaves(Prefix(""), Some(""))),
    ("", Leaves(Suffix(""), Some(""))),
    ("", Leaves(Prefix("a"), None)),
    ("", Leaves(Suffix("a"), None)),
    ("aba", Leaves(Prefix("a"), Some("ba"))),
    ("aba", Leaves(Suffix("a"), Some("ab"))),
    (
        "\x1b[1mé\x1b[2J漢\x1b[0mé",
        Leaves(Prefix("é"), Some("\x1b[1m\x1b[2J漢\x1b[0mé")),
    ),
    (
        "\x1b[1mé\x1b[2J漢\x1b[0mé",
        Leaves(Suffix("é"), Some("\x1b[1mé\x1b[2J漢\x1b[0m")),
    ),
    // a broken ESC is kept
    ("a\x1b[éa", Leaves(Prefix("a"), Some("\x1b[éa"))),
    ("a\x1b[éa", Leaves(Suffix("a"), Some("a\x1b[é"))),
    // cuts
    (
        BLACK,
        Leaves(Get(Between(1, 3)), Some("\x1b[30mEX\x1b[39m")),
    ),
    (BLACK, Leaves(Get(Between(2, 1)), None)),
    // each kind of range; past the end is the end
    (BLACK, Leaves(Get(All), Some(BLACK))),
    (BLACK, Leaves(Get(From(3)), Some("\x1b[30mT\x1b[39m"))),
    (BLACK, Leaves(Get(To(1)), Some("\x1b[30mT\x1b[39m"))),
    (BLACK, Leaves(Get(Through(1, 1)), Some("\x1b[30mE\x1b[39m"))),
    (BLACK, Leaves(Get(ToThrough(0)), Some("\x1b[30mT\x1b[39m"))),
    (BLACK, Leaves(Get(ToThrough(usize::MAX)), Some(BLACK))),
    (
        BLACK,
        Leaves(Get(Between(2, 99)), Some("\x1b[30mXT\x1b[39m")),
    ),
    (
        BLACK,
        Leaves(Get(Between(98, 99)), Some("\x1b[30m\x1b[39m")),
    ),
    (BLACK, Leaves(Get(From(98)), Some("\x1b[30m\x1b[39m"))),
    (BLACK, Leaves(Get(Between(99, 98)), None)),
    (BLACK, Leaves(Get(Between(4, 4)), Some("\x1b[30m\x1b[39m"))),
    (BLACK, Leaves(Get(Between(0, 0)), Some("\x1b[30m\x1b[39m"))),
    // inside a character
    (ACCENTS, Leaves(Get(Between(1, 2)), None)),
    (ACCENTS, Leaves(Get(Between(0, 3)), None)),
    (
        ACCENTS,
        Leaves(Get(Between(2, 2)), Some("\x1b[1m\x1b[3m\x1b[22m\x1b[23m")),
    ),
    (
        ACCENTS,
        Leaves(Get(Between(2, 4)), Some("\x1b[1m\x1b[3mè\x1b[0m")),
    ),
    (
        ACCENTS,
        Leaves(Get(Between(0, 2)), Some("\x1b[1mé\x1b[3m\x1b[22m\x1b[23m")),
    ),
    // every sequence before the end is kept, also one that sets nothing, and a broken one; none after it
    (
        MIXED,
        Leaves(Get(Between(2, 3)), Some("\x1b[2J\x1b[31mc\x1b\x1b[39m")),
    ),
    (MIXED, Leaves(Get(Between(0, 1)), Some("a\x1b[2J"))),
    (
        MIXED,
        Leaves(Get(From(8)), Some("\x1b[2J\x1b[31m\x1b\x1b[0m")),
    ),
    ("", Leaves(Get(All), Some(""))),
    ("aé", Leaves(Get(Between(1, 3)), Some("é"))),
    ("aé", Leaves(Get(Between(2, 3)), None)),
];

#[test]
fn leaves_parts(rt: HostRuntime) -> Result<(), Fail> {
    expect_all(&rt, rt.alloc(), LEFT)?;
    Ok(())
}

// ---- splits

const SPLITS: &[(&str, Case)] = &[
    (
        "\x1b[30m123:456\x1b[39m",
        Parts("456", &["\x1b[30m123:\x1b[39m", "\x1b[30m\x1b[39m"]),
    ),
    (
        "\x1b[2;48;5;10m\x1b[38;5;20mDar\nren\x1b[0m",
        Parts(
            "\n",
            &[
                "\x1b[2;48;5;10m\x1b[38;5;20mDar\x1b[22m\x1b[39m\x1b[49m",
                "\x1b[2m\x1b[38;5;20m\x1b[48;5;10mren\x1b[0m",
            ],
        ),
    ),
    // where the text has no ESC, the parts are borrows
    (",a,,漢,", Parts(",", &["", "a", "", "漢", ""])),
    ("é漢a", Parts("", &["", "é", "漢", "a", ""])),
    ("ab", Parts("abc", &["ab"])),
];

#[test]
fn splits(rt: HostRuntime) -> Result<(), Fail> {
    expect_all(&rt, rt.alloc(), SPLITS)?;
    Ok(())
}

// ---- what is reported of a text

const STYLED: &str = "\x1b[31ma\x1b[1mb\x1b[0mc";

const TOLD: &[(&str, Case)] = &[
    ("", Escapes(false, true)),
    ("é漢\u{9b}31m\x07", Escapes(false, true)),
    ("a\x1b[31mb", Escapes(true, true)),
    ("\x1b]0;t\x07\x1b7", Escapes(true, true)),
    ("a\x1b[1é", Escapes(true, false)),
    ("\x1b[0m\x1b", Escapes(true, false)),
    // places
    ("", Boundaries(&[0])),
    ("\x1b[31m", Boundaries(&[0])),
    ("aéb", Boundaries(&[0, 1, 3, 4])),
    (
        "\x1b[31ma\x1b[1mé\x1b[0m漢\x1b[0m",
        Boundaries(&[0, 1, 3, 6]),
    ),
    ("\x1b]0;é\x07é", Boundaries(&[0, 2])),
    // a broken ESC counts as a sequence, and what comes after it is text
    ("a\x1b[1é\x1b", Boundaries(&[0, 1, 2, 3, 5])),
    // patterns
    ("", Search("", true, true, Some(0))),
    ("", Search("a", false, false, None)),
    ("\x1b[31m", Search("", true, true, Some(0))),
    ("\x1b[31m", Search("\x1b[31m", false, false, None)),
    ("\x1b[31m", Search("3", false, false, None)),
    (STYLED, Search("", true, true, Some(0))),
    (STYLED, Search("abc", true, true, Some(0))),
    (STYLED, Search("ab", true, false, Some(0))),
    (STYLED, Search("bc", false, true, Some(1))),
    (STYLED, Search("c", false, true, Some(2))),
    (STYLED, Search("1", false, false, None)),
    (STYLED, Search("abcd", false, false, None)),
    ("a\x1b[1ma\x1b[1mab", Search("aab", false, true, Some(1))),
    ("é\x1b[1mè", Search("é", true, false, Some(0))),
    ("é\x1b[1mè", Search("è", false, true, Some(2))),
    ("漢\x1b[1mé\x1b[0m漢", Search("é漢", false, true, Some(3))),
    // a broken ESC shows nothing, and what comes after it is text
    ("a\x1b[1é", Search("a[1é", true, true, Some(0))),
    ("a\x1b[1é", Search("1é", false, true, Some(2))),
    ("a\x1b[1é", Search("\x1b", false, false, None)),
];

#[test]
fn tells_escapes_and_boundaries_and_searches(rt: HostRuntime) -> Result<(), Fail> {
    expect_all(&rt, rt.alloc(), TOLD)?;
    Ok(())
}
