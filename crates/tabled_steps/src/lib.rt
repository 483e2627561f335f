//! What a table is, and its options: each is one step of it.
#![tactic(auto)]

mod compact;
mod configuration;
mod configurations;
pub mod laws;
mod measurement;
mod option;
mod texts;

pub use configuration::{Configuration, KeptSizes};
pub use measurement::{Max, Measurement, Min, Percent};
pub use option::{CellOption, TableOption};
pub use texts::{TextChange, change_texts};
