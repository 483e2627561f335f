//! Units, wraps and cuts. `tests/memory` runs these tests with each request for memory refused, and a
//! refusal is passed on.
use grid_config::Fault;
use std::process::Abort;
use tabled_size::{Unit, cut_styled, units, wrap_styled};

// What was found, and of what.
fn expect_text(rt: &impl Abort, found: &str, wanted: &str, what: &str) {
    assert_eq!(rt; found, wanted, "of {what:?}");
}

// A text, the width, and what it is without and with its words kept.
const WRAPS: &[(&str, usize, &str, &str)] = &[
    ("", 3, "", ""),
    ("Hello World", 0, "", ""),
    ("Hello World", 7, "Hello W\norld", "Hello \nWorld"),
    ("111 234 1", 4, "111 \n234 \n1", "111 \n234 \n1"),
    ("abcdefgh ij", 3, "abc\ndef\ngh \nij", "abc\ndef\ngh \nij"),
    ("ab cd\n\nef", 2, "ab\n c\nd\n\nef", "ab\n \ncd\n\nef"),
    ("12345678", 3, "123\n456\n78", "123\n456\n78"),
    ("abcdef", 3, "abc\ndef", "abc\ndef"),
    (
        "this is a long sentence",
        7,
        "this is\n a long\n senten\nce",
        "this is\n a long\n senten\nce",
    ),
    ("a\tb\u{7f}", 2, "a\t\nb\u{7f}", "a\t\nb\u{7f}"),
    // a character that costs more than the width takes the columns that are left
    ("a😳b", 1, "a\n\u{fffd}\nb", "a\n\u{fffd}\nb"),
    (
        "😳12😳3",
        1,
        "\u{fffd}\n1\n2\n\u{fffd}\n3",
        "\u{fffd}\n1\n2\n\u{fffd}\n3",
    ),
    ("1😳2", 2, "1\n😳\n2", "1\n😳\n2"),
    // each line opens and ends its own styles
    (
        "\u{1b}[37mHello World\u{1b}[0m",
        7,
        "\u{1b}[37mHello W\u{1b}[39m\n\u{1b}[37morld\u{1b}[0m",
        "\u{1b}[37mHello \u{1b}[39m\n\u{1b}[37mWorld\u{1b}[0m",
    ),
    // what replaces a character has no style, and its sequences are left out
    (
        "\u{1b}[31ma😳\u{1b}[1mb\u{1b}[0m",
        1,
        "\u{1b}[31ma\u{1b}[39m\n\u{fffd}\n\u{1b}[1m\u{1b}[31mb\u{1b}[0m",
        "\u{1b}[31ma\u{1b}[39m\n\u{fffd}\n\u{1b}[1m\u{1b}[31mb\u{1b}[0m",
    ),
    // a line that shows nothing stays as it is
    (
        "\u{1b}[31m\u{1b}[0m\na",
        1,
        "\u{1b}[31m\u{1b}[0m\na",
        "\u{1b}[31m\u{1b}[0m\na",
    ),
];

#[test]
fn wraps_lines(rt: HostRuntime) -> Result<(), Fault> {
    for (text, width, divided, kept) in WRAPS {
        let found = wrap_styled(rt.alloc(), text, *width, false)?;
        expect_text(&rt, found.as_str(), divided, text);
        let found = wrap_styled(rt.alloc(), text, *width, true)?;
        expect_text(&rt, found.as_str(), kept, text);
    }
    Ok(())
}

const STYLED: &str = "\u{1b}[31;100m123456\u{1b}[39m\u{1b}[49m";

// A text, the width, and what it is cut to.
const CUTS: &[(&str, usize, &str)] = &[
    (STYLED, 0, "\u{1b}[31;100m\u{1b}[39m\u{1b}[49m"),
    (STYLED, 3, "\u{1b}[31;100m123\u{1b}[39m\u{1b}[49m"),
    (STYLED, 10, STYLED),
    ("😳😳😳😳😳", 3, "😳\u{fffd}"),
    ("123\n456789", 3, "123"),
    ("123\n456789", 4, "123\n4567"),
];

#[test]
fn cuts_lines(rt: HostRuntime) -> Result<(), Fault> {
    for (text, width, wanted) in CUTS {
        let found = cut_styled(rt.alloc(), text, *width)?;
        expect_text(&rt, found.as_str(), wanted, text);
    }
    Ok(())
}

// Where units start and end, and what they cost, without and with the words kept.
const DIVIDED: &[(usize, usize, usize)] = &[
    (0, 1, 1),
    (1, 2, 1),
    (2, 3, 1),
    (3, 4, 1),
    (4, 7, 2),
    (7, 11, 2),
];

const KEPT: &[(usize, usize, usize)] = &[(0, 2, 2), (2, 3, 1), (3, 4, 1), (4, 7, 2), (7, 11, 2)];

fn expect_units(rt: &impl Abort, found: &[Unit], wanted: &[(usize, usize, usize)]) {
    assert_eq!(rt; found.len(), wanted.len(), "how many units");
    for (unit, (start, end, cost)) in found.iter().zip(wanted) {
        let (start, end, cost) = (*start, *end, *cost);
        assert_eq!(rt; *unit, Unit { start, end, cost });
    }
}

#[test]
fn gives_units(rt: HostRuntime) -> Result<(), Fault> {
    let line = "\u{1b}[1mab\u{1b}[0m  漢😳";
    expect_units(&rt, units(rt.alloc(), line, 3, false)?.as_slice(), DIVIDED);
    expect_units(&rt, units(rt.alloc(), line, 3, true)?.as_slice(), KEPT);
    Ok(())
}
