//! The lines of a text.
ghost use Rattle.std.specs.Prelude.{◌≡◌, ◌+◌, ◌==◌, length};
ghost use Rattle.std.specs.List.{count_by};
ghost use Rattle.ansi_scan.specs.Sequences.{ForPieces};
ghost use Rattle.ansi_str.specs.StyledText.{has_escape};
ghost use Rattle.grid_records_measure.specs.TextLines.{AreLinesOf, is_line_feed, shown_lines, text_height, text_lines};

use ansi_str::{AnsiSplit, get_blocks};
use std::alloc::{AllocError, Global};
use std::borrow::CowStr;
use std::marker::Model;

/// How many lines a text has: one more than it shows line feeds. Does not allocate.
pub fn count_lines(text: &str) -> usize
    ensures pieces { ForPieces text.now (λ pieces. result ≡ length (shown_lines pieces)) }
    ensures text { result ≡ text_height text.now }
{
    let mut count = 1;
    for block in get_blocks(text) {
        count += line_feeds(block.text());
    }
    count
}

// How many line feeds a text without sequences has.
fn line_feeds(text: &str) -> usize
    ensures { result ≡ count_by is_line_feed text.now }
{
    text.as_bytes()
        .iter()
        .filter(|byte| **byte == b'\n')
        .count()
}

/// The lines of a text: its parts when it is split at line feeds, each with the styles that it shows
/// opened and ended within. A text without ESC is returned as borrows, without allocating; else a line
/// fails only where allocation fails, and no line comes after that.
pub fn get_lines<'a>(alloc: Global, text: &'a str) -> Lines<'a>
    ensures lines { ForPieces text.now (λ pieces. AreLinesOf pieces result.parts) }
    ensures can_fail { result.can_fail ≡ has_escape text.now }
    ensures count { ForPieces text.now (λ pieces. length result.parts ≡ length (shown_lines pieces)) }
    ensures text { result.parts ≡ text_lines text.now }
{
    Lines {
        parts: AnsiSplit::new(alloc, text, "\n"),
    }
}

/// The lines of a text that are still to come, made by `get_lines`. After the last, and after a failed
/// allocation, it gives `None` forever. In a contract it is the list of these lines, and whether they
/// may allocate.
#[derive(Debug)]
pub struct Lines<'a> {
    parts: AnsiSplit<'a>,
}

impl Drop for Lines<'_> {
    fn drop(self) {
        let Lines { parts } = self;
        drop(parts);
    }
}

impl<'a> Model for Lines<'a> {
    ghost use Rattle.ansi_str.specs.Splitting.{PartsLeft};

    ghost Value = { PartsLeft };

    ghost view = { λ lines. lines.parts };
}

impl<'a> Iterator for Lines<'a> {
    type Item = Result<CowStr<'a>, AllocError>;

    ghost use Rattle.std.specs.Prelude.{length};
    ghost use Rattle.std.specs.Iterator.{at_most};
    ghost use Rattle.ansi_str.specs.Splitting.{GivesPart};

    ghost next_gives = { GivesPart };

    ghost remaining = { λ lines. at_most (length lines.parts) };

    fn next(&mut self) -> Option<Result<CowStr<'a>, AllocError>> {
        self.parts.next()
    }
}
