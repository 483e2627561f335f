//! The first records of a text, of which no more is read than the block in which they end.
#![tactic(auto)]

mod blocks;
mod front;
mod heads;
mod laws;
mod walk;

pub use heads::{Head, asked_or_found, head_end, read_head, records_read};
