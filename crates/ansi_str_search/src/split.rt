//! The parts of a text that is split.
ghost use Rattle.std.specs.Prelude.{◌≡◌, length};
ghost use Rattle.ansi_scan.specs.Sequences.{ForPieces};
ghost use Rattle.ansi_str_search.specs.Text.StyledText.{has_escape};
ghost use Rattle.ansi_str_search.specs.Matches.{AreParts};

use crate::rest::Rest;
use std::alloc::{AllocError, Global};
use std::borrow::CowStr;
use std::marker::Model;

/// The parts of a text that are still to come, made by `ansi_split`. After the last, and after a
/// failed allocation, it gives `None` forever. In a contract it is the list of these parts, and
/// whether they may allocate.
#[derive(Debug, Drop)]
pub struct AnsiSplit<'a> {
    rest: Option<Rest<'a>>,
}

impl<'a> Model for AnsiSplit<'a> {
    ghost use Rattle.ansi_str_search.specs.Splitting.{PartsLeft};
    ghost use Rattle.ansi_str_search.specs.Rests.{what_is_left};

    ghost Value = { PartsLeft };

    ghost view = { λ split. what_is_left split.rest };
}

impl<'a> AnsiSplit<'a> {
    /// The parts of the text between the matches of the pattern, as `ansi_split` gives them. They borrow
    /// the text itself, and not a variable that holds it. The call does not allocate; a part of a text with
    /// an ESC may.
    pub fn new(alloc: Global, text: &'a str, pattern: &'a str) -> AnsiSplit<'a>
        ensures parts { ForPieces text.now (λ pieces. AreParts pattern.now pieces result.parts) }
        ensures can_fail { result.can_fail ≡ has_escape text.now }
    {
        AnsiSplit {
            rest: Some(Rest::new(alloc, text, pattern)),
        }
    }
}

impl<'a> Iterator for AnsiSplit<'a> {
    type Item = Result<CowStr<'a>, AllocError>;

    ghost use Rattle.std.specs.Prelude.{length};
    ghost use Rattle.std.specs.Iterator.{at_most};
    ghost use Rattle.ansi_str_search.specs.Splitting.{GivesPart};

    ghost next_gives = { GivesPart };

    ghost remaining = { λ split. at_most (length split.parts) };

    fn next(&mut self) -> Option<Result<CowStr<'a>, AllocError>> {
        // a refusal leaves nothing
        let rest = self.rest.take()?;
        match rest.split_first() {
            Ok((part, rest)) => {
                self.rest = rest;
                Some(Ok(part))
            }
            Err(fault) => Some(Err(fault)),
        }
    }
}
