//! Readers and writers whose calls are counted, and the loops that read a reader to its end and write a whole text.
//! Also texts that are written piece by piece, and why a table was not written.
#![tactic(auto)]

mod building;
mod counted;
pub mod laws;
mod pieces;
mod reading;
mod writing;

pub use building::BuildFault;
pub use counted::Counted;
pub use pieces::{pass_line, write_piece};
pub use reading::{ReadFault, read_to_end};
pub use writing::{WriteFault, write_all};
