//! The values that settings of a table have: positions and sets of cells, sides, borders, alignments.
#![tactic(auto)]

mod alignment;
mod borders;
mod calls;
mod clone_in;
mod entity;
mod entity_iterator;
mod entity_map;
mod fault;
mod formatting;
pub mod laws;
mod numbered;
mod position;
mod renumbering;
mod sides;
pub mod spans;

pub use alignment::{AlignmentHorizontal, AlignmentVertical};
pub use borders::{Border, Borders};
pub use clone_in::CloneIn;
pub use entity::Entity;
pub use entity_iterator::EntityIterator;
pub use entity_map::EntityMap;
pub use fault::Fault;
pub use formatting::Formatting;
pub use position::Position;
pub use sides::{Indent, Sides};
