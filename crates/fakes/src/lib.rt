//! Sources, options and writers for tests, in place of real ones.
#![tactic(auto)]

pub mod borders;
pub mod options;
pub mod rows;
