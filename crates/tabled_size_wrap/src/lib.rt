//! Lines of styled text wrapped and cut at a width (ECMA-48; Unicode Standard Annex 11).
#![tactic(auto)]

pub mod cells;
mod cut;
mod full_lines;
pub mod laws;
mod line_units;
mod measured;
mod staying;
mod words;
mod wrap;
mod wrapped_lines;

pub use cut::cut_styled;
pub use line_units::{Unit, units};
pub use measured::MeasuredText;
pub use staying::stays;
pub use wrap::{wrap_line, wrap_only_line, wrap_styled};
