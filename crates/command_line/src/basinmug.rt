//! The arguments of the command line of `basinmug`, read.

mod command;
mod fault;
pub mod laws;
mod names;
mod words;

pub use words::{Plan, ReadWords, WidthAsked, read_words};
