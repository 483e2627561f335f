//! The arguments of the command line of `columns`, read.

mod command;
pub mod laws;
mod names;
mod words;

pub use words::{Asked, read_words};
