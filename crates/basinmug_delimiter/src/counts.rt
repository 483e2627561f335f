//! How often each byte that is looked for was met, and which one that chooses.
ghost use Rattle.std.specs.Prelude.{◌≡◌, ◌+◌, ◌^◌, ◌∷◌, [], ℕ};
ghost use Rattle.basinmug_delimiter.specs.Choosing.{chosen};
ghost use Rattle.basinmug_delimiter.specs.Counting.{HasAtMost, counts_of, plus};

use crate::places::Place;

pub(crate) const TAB: u8 = b'\t';

pub(crate) const COMMA: u8 = b',';

pub(crate) const SEMICOLON: u8 = b';';

pub(crate) const BAR: u8 = b'|';

/// How often each byte that is looked for was met.
#[derive(Clone, Copy)]
pub(crate) struct Counts {
    pub(crate) tabs: usize,
    pub(crate) commas: usize,
    pub(crate) semicolons: usize,
    pub(crate) bars: usize,
}

impl Counts {
    /// Nothing was met.
    pub(crate) fn none() -> Counts
        ensures { result ≡ counts_of [] }
    {
        Counts {
            tabs: 0,
            commas: 0,
            semicolons: 0,
            bars: 0,
        }
    }

    /// The counts with one byte more. A comma between two digits doesn't count.
    pub(crate) fn with(self, place: Place) -> Counts
        requires { HasAtMost (2 ^ 63) self }
        ensures counts { result ≡ plus self (counts_of (place ∷ [])) }
        ensures few { (n : ℕ) → HasAtMost n self → HasAtMost (n + 1) result }
    {
        match place.here {
            TAB => Counts {
                tabs: self.tabs + 1,
                ..self
            },
            COMMA if !place.is_decimal() => Counts {
                commas: self.commas + 1,
                ..self
            },
            SEMICOLON => Counts {
                semicolons: self.semicolons + 1,
                ..self
            },
            BAR => Counts {
                bars: self.bars + 1,
                ..self
            },
            _ => self,
        }
    }

    /// The byte that is chosen: one tab chooses the tab; else the one that was met most often, in the order comma,
    /// semicolon, bar.
    pub(crate) fn chosen(self) -> u8
        ensures { result ≡ chosen self }
    {
        if self.tabs > 0 {
            TAB
        } else if self.commas >= self.semicolons && self.commas >= self.bars {
            COMMA
        } else if self.semicolons >= self.bars {
            SEMICOLON
        } else {
            BAR
        }
    }
}
