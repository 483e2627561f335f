//! Lists of settings: each setting is one option of a table, or one setter of its configuration, with its
//! values.
#![tactic(auto)]

mod adjustable;
mod amount;
mod by_choice;
mod cells;
mod colored;
pub mod laws;
mod list;
mod setters;
mod setting;
mod span_at;
pub mod stripping;

pub use adjustable::Adjustable;
pub use amount::Amount;
pub use list::apply_list;
pub use setters::apply_setters;
pub use setting::Setting;
