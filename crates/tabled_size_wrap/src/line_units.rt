//! The units of a line: what is not divided where it is wrapped.
ghost use Rattle.std.specs.Prelude.{◌≡◌, ◌+◌, ◌<◌, ◌^◌, List, IfOk, chars, length, true};
ghost use Rattle.ansi_scan.specs.Sequences.{ForPieces};
ghost use Rattle.ansi_str.specs.StyledText.{strip};
ghost use Rattle.grid_records_measure.specs.Measures.{are_printable};
ghost use Rattle.tabled_size_wrap.specs.Units.{line_units, placed_units};

use crate::words::{cost, split_character, split_word, word_cost};
use ansi_str::AnsiStr;
use grid_records_measure::is_printable;
use std::alloc::{AllocError, Global};
use std::marker::Model;

/// A unit of a line: bytes of the line without its sequences that stay together, and the columns that
/// they cost.
#[derive(Clone, Copy, Debug, PartialEq, Eq, Drop)]
pub struct Unit {
    /// The byte at which it begins.
    pub start: usize,
    /// The byte after it.
    pub end: usize,
    /// The columns that it costs.
    pub cost: usize,
}

/// The units of a line in their order. Without words kept they are its characters, each at a cost of the larger
/// of 1 and its own width. Where words are kept they are its spaces, each at a cost of 1, and the words between
/// them. A word that measures at most the width costs what it measures; a longer one is divided into its
/// characters. Joined, the units are the line without its sequences. It fails only where allocation fails.
/// (Unicode Standard Annex 11, by the rules of `unicode_width`.)
pub fn units(
    alloc: Global,
    line: &str,
    width: usize,
    keep_words: bool,
) -> Result<Vec<Unit>, AllocError>
    ensures { IfOk result (λ units. ForPieces line.now (λ pieces.
        units.items ≡ placed_units 0 (line_units width keep_words (chars (strip pieces))))) }
{
    let stripped = line.ansi_strip(alloc)?;
    let mut units = Vec::new(alloc);
    for unit in LineUnits::new(&stripped, width, keep_words) {
        units.push(unit)?;
    }
    Ok(units)
}

/// The units of a line without sequences that are still to come. After the last it gives `None` forever.
/// In a contract it is the list of these units.
#[derive(Debug, Drop)]
pub(crate) struct LineUnits<'a> {
    // characters that are units
    characters: &'a str,
    // what comes after them, whose words are kept
    words: &'a str,
    // where the characters begin
    place: usize,
    width: usize,
    // whether the words are known to be printable ASCII
    printable: bool,
    ghost fits: { place + length characters.now + length words.now < 2 ^ 64 },
    ghost known: { printable ≡ true → are_printable words.now ≡ true },
}

impl<'a> Model for LineUnits<'a> {
    ghost use Rattle.std.specs.Prelude.{List, ◌++◌, chars, map, true};
    ghost use Rattle.tabled_size_wrap.specs.declared.line_units.Unit.{Unit};
    ghost use Rattle.tabled_size_wrap.specs.Units.{character_unit, line_units, placed_units};

    ghost Value = { List Unit };

    ghost view = { λ u. placed_units u.place (map character_unit (chars u.characters.now) ++ line_units u.width true (chars u.words.now)) };
}

impl<'a> LineUnits<'a> {
    /// All units of a line.
    pub(crate) fn new(line: &'a str, width: usize, keep_words: bool) -> Self
        ensures { result ≡ placed_units 0 (line_units width keep_words (chars line.now)) }
    {
        if keep_words {
            LineUnits {
                characters: "",
                words: line,
                place: 0,
                width,
                printable: is_printable(line),
            }
        } else {
            LineUnits {
                characters: line,
                words: "",
                place: 0,
                width,
                printable: false,
            }
        }
    }
}

impl Iterator for LineUnits<'_> {
    type Item = Unit;

    ghost use Rattle.std.specs.Iterator.{YieldsFirst, item_count};

    ghost next_gives = { YieldsFirst (λ units. units) };

    ghost remaining = { item_count (λ units. units) };

    fn next(&mut self) -> Option<Unit> {
        let start = self.place;
        if self.characters.is_empty() {
            let (word, rest) = split_word(self.words);
            let cost = word_cost(word, self.printable);
            self.words = rest;
            if !word.is_empty() && cost <= self.width {
                self.place += word.len();
                return Some(Unit {
                    start,
                    end: self.place,
                    cost,
                });
            }
            self.characters = word;
        }
        let (c, rest) = split_character(self.characters)?;
        self.characters = rest;
        self.place += c.len_utf8();
        Some(Unit {
            start,
            end: self.place,
            cost: cost(c),
        })
    }
}
