//! Places, searches and splits of a text with escape sequences (ECMA-48), read as what it shows.
#![tactic(auto)]

pub mod laws;
mod matches;
mod places;
mod rest;
mod search;
mod split;
mod strip;
mod stripped;
pub mod text;

pub use matches::run_len;
pub use places::{Place, begins_with_escape, behind_item, front, split_item, text_len};
pub use search::{behind_place, ends_with, find, find_end, is_char_boundary, starts_with};
pub use split::AnsiSplit;
pub use strip::{has_escape, strip_text};
