//! Records as a picture: a table with a header, in a width.

mod appearance;
mod cells;
mod documents;
mod facts;
mod fault;
mod fitting;
mod glyphs;
pub mod laws;
mod lines;
mod narrowing;
mod printing;
mod rows;
mod settings;
mod table_rows;

pub(crate) use facts::{ColumnFacts, known_or_found};
pub use fault::PrintFault;
pub(crate) use lines::Shown;
pub(crate) use narrowing::narrowed_to;
pub(crate) use printing::print_shown;
pub use printing::{Printed, print};
pub(crate) use rows::{header_of, header_rows, records_of};
