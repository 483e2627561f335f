//! For tests of tables: a writer that fails, and options that are refused.

mod refused;
mod writer;

pub use refused::{OutOfMemory, OutOfRange};
pub use writer::StepWriter;
