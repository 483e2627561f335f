//! The settings of tables of boxes whose cells are all alike, and the options that change them.

mod config;
pub mod laws;
mod options;

pub use config::CompactMultilineConfig;
pub use options::PoolSizes;
