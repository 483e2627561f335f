//! Which rows or records are shown, and the line that says how many others there are.
ghost use Rattle.std.specs.Prelude.{◌≡◌, IfOk, string_bytes};
ghost use Rattle.basinmug_columns.specs.Rows.{after_noun, before_noun, left_out_of, plural_end, rows_line};

use std::alloc::{AllocError, Global};

/// Which rows of a table, or which records, are shown. All counts are of rows or records that are not shown, but for
/// `first`.
#[derive(Clone, Copy, Debug, PartialEq, Eq)]
pub enum RowsShown {
    /// None is left out.
    All,
    /// The first ones are shown, and so many more come after them.
    More(usize),
    /// The last ones are shown, and so many come before them.
    Earlier(usize),
    /// The first and the last ones are shown.
    Between {
        /// How many of the first are shown.
        first: usize,
        /// How many are left out between these and the last.
        left_out: usize,
    },
}

impl RowsShown {
    /// How many are left out.
    pub fn left_out(self) -> usize
        ensures { result ≡ left_out_of self }
    {
        match self {
            RowsShown::All => 0,
            RowsShown::More(count) => count,
            RowsShown::Earlier(count) => count,
            RowsShown::Between { left_out, .. } => left_out,
        }
    }
}

/// The line below rows or records that says how many others there are, with a line feed: `(1 more row)`,
/// `(3 earlier rows)`, `(2 rows left out)`. It is empty where none is left out. One of them is called `noun`, several
/// have an `s` after it. Fails only where allocation fails.
pub fn rows_line(alloc: Global, noun: &str, shown: RowsShown) -> Result<String, AllocError>
    ensures { IfOk result (λ line. string_bytes line ≡ rows_line noun.now shown) }
{
    let count = shown.left_out();
    if count == 0 {
        return Ok(String::new(alloc));
    }
    let before = before_noun(shown);
    let end = plural_end(count);
    let after = after_noun(shown);
    format!(in alloc; "({count} {before}{noun}{end}{after})\n")
}

// What is between a count and its noun.
fn before_noun(shown: RowsShown) -> &'static str
    ensures { result.now ≡ before_noun shown }
{
    match shown {
        RowsShown::More(_) => "more ",
        RowsShown::Earlier(_) => "earlier ",
        RowsShown::All | RowsShown::Between { .. } => "",
    }
}

// What follows the noun.
fn after_noun(shown: RowsShown) -> &'static str
    ensures { result.now ≡ after_noun shown }
{
    match shown {
        RowsShown::Between { .. } => " left out",
        RowsShown::All | RowsShown::More(_) | RowsShown::Earlier(_) => "",
    }
}

// The plural of a noun ends so after a count.
fn plural_end(count: usize) -> &'static str
    ensures { result.now ≡ plural_end count }
{
    if count == 1 { "" } else { "s" }
}
