//! Worked rows of styles and blocks.
use super::{MEMORY, expect, expect_text};
use ansi_scan::Style;
use ansi_str_search::text::get_blocks;
use std::alloc::Global;
use std::process::Abort;

// A sequence, and the start and the end of the style that it makes of plain.
const STYLES: &[(&str, &str, &str)] = &[
    (
        "\x1b[38;5;20;1m",
        "\x1b[1m\x1b[38;5;20m",
        "\x1b[22m\x1b[39m",
    ),
    ("\x1b[1;38;5;300;4m", "\x1b[1m", "\x1b[22m"),
    ("\x1b[4;;1m", "\x1b[1m", "\x1b[22m"),
    ("\x1b[?1m", "", ""),
];

fn expect_style(rt: &impl Abort, alloc: Global, row: (&str, &str, &str)) {
    let (sequence, start, end) = row;
    let style = Style::plain().apply(sequence);
    let found = style.start().to_string(alloc).expect(rt, MEMORY);
    expect_text(rt, found.as_str(), start, sequence);
    let found = style.end().to_string(alloc).expect(rt, MEMORY);
    expect_text(rt, found.as_str(), end, sequence);
}

#[test]
fn sequences_make_styles(rt: HostRuntime) {
    for row in STYLES {
        expect_style(&rt, rt.alloc(), *row);
    }
}

// The blocks of a text, and which of them are styled.
const BLOCKS: [(&str, bool); 2] = [("a", true), ("b", false)];

#[test]
fn a_text_has_its_blocks(rt: HostRuntime) {
    let text = "\x1b[1ma\x1b[0mb";
    let mut blocks = get_blocks(text);
    for (shown, is_styled) in BLOCKS {
        let block = blocks.next().expect(&rt, "a block is missing");
        expect_text(&rt, block.text(), shown, text);
        expect(&rt, block.has_ansi() == is_styled, "styled", text);
    }
    expect(&rt, blocks.next().is_none(), "the end", text);
}
