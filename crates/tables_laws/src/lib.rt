//! Laws of every table. The printers do not depend on this crate.
#![tactic(auto)]

pub mod additive;
pub mod by_hand;
pub mod characters;
pub mod grids;
pub mod pools;
pub mod shown;
pub mod worked;
