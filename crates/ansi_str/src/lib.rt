//! Text with escape sequences, read as what it shows (ECMA-48).
#![tactic(auto)]

mod cut;
mod editing;
mod edits;
pub mod laws;
mod places;
mod ranges;
mod text;
mod trim;

pub use ansi_str_search::AnsiSplit;
pub use ansi_str_search::text::{
    AnsiBlock, AnsiBlockIter, StrippedChars, get_blocks, stripped_chars,
};
pub use cut::is_good_range;
pub use editing::edit;
pub use edits::Edit;
pub use places::{are_places, split_places};
pub use ranges::AnsiRange;
pub use text::AnsiStr;
