//! The search for the number at which enough moves.
ghost use Rattle.std.specs.Prelude.{◌≡◌, ◌≤◌, ◌<◌, ◌+◌, ◌^◌};
ghost use Rattle.tabled_size_priority.specs.LevelRules.Moving.{moved_sum};

use crate::levels::amounts::moved_in_all;
use crate::levels::rule::Rule;

/// What a move of width took.
#[derive(Drop)]
pub struct Moved {
    /// The walks over the columns.
    pub walks: u32,
    /// The last column that gave, or got, something; none where nothing was moved.
    pub last: Option<usize>,
}

// The number next below the least one at which enough moves.
#[derive(Drop)]
pub(crate) struct Found {
    pub(crate) number: u128,
    // what moves at that number
    pub(crate) moved: u128,
    // the walks over the columns
    pub(crate) walks: u32,
}

// Halves the range of the numbers until one is left.
pub(crate) fn number_below(rule: Rule, widths: &[usize], least: &[usize], amount: u128) -> Found
    requires some { moved_sum rule 0 least.now widths.now < amount }
    requires enough { amount ≤ moved_sum rule (2 ^ 64) least.now widths.now }
    ensures number { result.number < 2 ^ 64 }
    ensures moved { result.moved ≡ moved_sum rule result.number least.now widths.now }
    ensures too_little { result.moved < amount }
    ensures enough { amount ≤ moved_sum rule (result.number + 1) least.now widths.now }
    ensures walks { result.walks ≤ 65 }
{
    let mut low: u128 = 0;
    let mut high: u128 = 1 << 64;
    let mut moved = moved_in_all(rule, 0, widths, least);
    let mut walks = 1;
    for _ in 0..64u32 {
        let middle = low + (high - low) / 2;
        let there = moved_in_all(rule, middle, widths, least);
        walks += 1;
        if there < amount {
            low = middle;
            moved = there;
        } else {
            high = middle;
        }
    }
    Found {
        number: low,
        moved,
        walks,
    }
}
