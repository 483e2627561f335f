//! Measures, lines and cuts of text with escape sequences (ECMA-48; Unicode Standard Annex 11).
#![tactic(auto)]

mod characters;
mod cut;
pub mod laws;
mod measure;
mod printable;
mod raw_lines;
mod simple;
mod tabs;
mod text_lines;

pub use characters::{get_char_width, get_string_width};
pub use cut::{columns_with, cut_width};
pub use measure::{get_line_width, get_text_dimension, get_text_width};
pub use printable::is_printable;
pub use raw_lines::split_line;
pub use simple::{columns_of_three, columns_of_two};
pub use tabs::replace_tab;
pub use text_lines::{Lines, count_lines, get_lines};
