//! The picture of a table: what each of its lines shows, by parts at coordinates.
#![tactic(auto)]

pub mod colors;
pub mod laws;
