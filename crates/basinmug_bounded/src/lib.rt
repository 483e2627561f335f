//! The records of a text in memory, printed into memory that may be too little, by a request of numbers and lists: for
//! callers in other languages.
#![tactic(auto)]

mod answer;
mod cells;
pub mod laws;
mod lent;
mod lists;
mod options;
mod printing;
mod printing_cells;
mod refusal;
mod request;

pub use answer::{
    PrintAnswer, print_by, print_cells_by, print_cells_reported, print_reported, status_of,
};
pub use cells::Cells;
pub use lists::Lists;
pub use options::options_of;
pub use printing::{Size, print_into};
pub use printing_cells::print_cells_into;
pub use refusal::{CellFault, ListFault, Refusal};
pub use request::{PrintRequest, RequestFault, SIZE};
