//! The options of a run of `columns`, as a value, and why a run of it fails.

mod closing;
mod fault;
pub mod laws;
mod options;

pub use closing::colors_close;
pub use fault::RunFault;
pub use options::{Options, default_style};
