//! Colours of a table: what is written before and after what they colour (ECMA-48).

mod borrowed;
mod closing;
mod fault;
pub mod laws;
mod owned;

pub use borrowed::ANSIStr;
pub use fault::BufFault;
pub use owned::ANSIBuf;
