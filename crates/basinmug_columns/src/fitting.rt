//! What a text becomes in a narrower column: it is cut line by line, or wrapped between words.

mod changing;
mod cutting;
mod laws;
mod wrapping;

pub use cutting::cut_lines;
pub use wrapping::wrap_words;
