//! Laws of the tables of `columns`. The program does not depend on this crate.
#![tactic(auto)]

pub mod bounds;
pub mod library;
pub mod plain;
pub mod refusals;
pub mod sequences;
