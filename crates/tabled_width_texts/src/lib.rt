//! What is done to one text in a number of columns: it is filled, wrapped, cut, or filled and then cut.
#![tactic(auto)]

mod cutting;
mod filling;
mod justifying;
mod last;
pub mod laws;
mod lines;
mod room;
mod wrapping;

pub use cutting::SuffixedCut;
pub use filling::Filling;
pub use justifying::Justifying;
pub use room::RoomChange;
pub use wrapping::{WrappingEach, WrappingWider};
