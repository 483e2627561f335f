//! Lines that are wrapped and cut, priorities of columns, and sizes that a table keeps or is given.
#![tactic(auto)]

mod dimension;
pub mod laws;

pub use dimension::{
    CompleteDimension, ConstDimension, ConstSize, DimensionPriority, DimensionValue,
    PoolTableDimension, StaticDimension, SuffixLimit, ZeroDimension,
};
pub use tabled_size_priority::{
    Choice, Peaker, Priority, PriorityChosen, PriorityLeast, PriorityLeft, PriorityMax,
    PriorityMin, PriorityNone, PriorityRight,
};
pub use tabled_size_wrap::{Unit, cut_styled, units, wrap_styled};
