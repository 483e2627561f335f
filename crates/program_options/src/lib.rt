//! The options of a run of a program, as a value: of `columns` and of `basinmug`.
#![tactic(auto)]

pub mod basinmug;
pub mod color_list;
pub mod columns;
