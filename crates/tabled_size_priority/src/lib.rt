//! Priorities of columns: which of them gives first where a table is made narrower, and which one gets
//! first where it is made wider.
#![tactic(auto)]

mod choice;
mod chosen;
pub mod laws;
mod least;
mod left;
pub mod levels;
mod max;
mod min;
mod none;
mod peaker;
mod priority;
mod right;
mod search;

pub use choice::Choice;
pub use chosen::PriorityChosen;
pub use least::PriorityLeast;
pub use left::PriorityLeft;
pub use max::PriorityMax;
pub use min::PriorityMin;
pub use none::PriorityNone;
pub use peaker::Peaker;
pub use priority::Priority;
pub use right::PriorityRight;
