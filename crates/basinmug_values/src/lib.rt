//! What the arguments of `basinmug` write: lists of columns, as `0=bold,price=red` and `2,0,4-6`, and delimiters.
#![tactic(auto)]

mod choices;
mod columns;
mod delimiters;
pub mod laws;
mod lists;
mod names;
mod twice;

pub use choices::chosen_listed;
pub use columns::column_named;
pub use delimiters::can_delimit;
pub use lists::listed;
pub use names::Named;
