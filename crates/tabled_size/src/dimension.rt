//! Sizes of a table's columns and rows: those that a table keeps, and those that are given.

mod complete;
mod const_dimension;
mod const_size;
pub mod laws;
mod lists;
mod order;
mod pool;
mod priority;
mod static_dimension;
mod suffix;
mod value;
mod zero;

pub use complete::CompleteDimension;
pub use const_dimension::ConstDimension;
pub use const_size::ConstSize;
pub use pool::PoolTableDimension;
pub use priority::DimensionPriority;
pub use static_dimension::StaticDimension;
pub use suffix::SuffixLimit;
pub use value::DimensionValue;
pub use zero::ZeroDimension;
