//! Laws of what `basinmug` prints: beside the program, which does not depend on them.
#![tactic(auto)]

pub mod additive;
pub mod controls;
pub mod shown;
pub mod widths;
pub mod worked;
