//! How much moves at a column.
ghost use Rattle.std.specs.Prelude.{◌≡◌, ◌≤◌, ◌^◌};
ghost use Rattle.tabled_size_priority.specs.LevelRules.Moving.{moved, next_of};

/// How much a column gives or gets at a number: the number is one of turns, or of a level. With the number grows
/// what moves; at 0 nothing does.
#[derive(Clone, Copy)]
pub enum Rule {
    /// Each column gives one in each turn, while it has something above its least: the number of turns.
    Turns,
    /// The widest first: each column is cut to a level, so far below `usize::MAX` as the number says, but not
    /// below its least.
    Widest,
    /// The narrowest first: each column that is narrower than the number gives all that it has above its least.
    Narrowest,
    /// Each column that is narrower than the number is raised to it.
    Raised,
    /// Each column that is not 0 gets one in each turn: the number of turns.
    Shared,
}

impl Rule {
    /// How many columns of width a column of this width and least gives, or gets, at the number.
    pub fn moved(self, number: u128, width: usize, least: usize) -> u128
        ensures { result ≡ moved self number width least }
    {
        let gap = width.saturating_sub(least) as u128;
        let width = width as u128;
        let level = (usize::MAX as u128).saturating_sub(number);
        match self {
            Rule::Turns => gap.min(number),
            Rule::Widest => gap.min(width.saturating_sub(level)),
            Rule::Narrowest if width < number => gap,
            Rule::Raised => number.saturating_sub(width),
            Rule::Shared if width > 0 => number,
            Rule::Narrowest | Rule::Shared => 0,
        }
    }

    // The number at which a column moves, from what it then has, what one number further moves.
    pub(crate) fn next(self, number: u128) -> u128
        requires { number ≤ 2 ^ 64 }
        ensures { result ≡ next_of self number }
    {
        match self {
            Rule::Turns | Rule::Shared => 1,
            Rule::Widest | Rule::Narrowest | Rule::Raised => number + 1,
        }
    }
}
