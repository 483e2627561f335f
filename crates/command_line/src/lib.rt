//! The arguments of both programs, read by the toolchain's `clap`.
#![tactic(auto)]

pub mod basinmug;
pub mod columns;
pub mod ending;
pub mod options;
