//! The prefix of a text whose columns add up, from its bytes (Unicode Standard Annex 11; Unicode Technical Standard
//! 51).
#![tactic(auto)]

pub mod bounds;
mod emoji;
mod front;

pub use front::measured_front;
