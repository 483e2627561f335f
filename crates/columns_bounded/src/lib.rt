//! The table of a text in memory, written into memory that may be too little for it, by a request of numbers: for
//! callers in other languages.
#![tactic(auto)]

mod answer;
mod colors;
mod fault;
mod kept;
pub mod laws;
mod request;
mod table;
mod texts;
mod within;

pub use answer::{Answer, status_of, table_by, table_told};
pub use colors::options_of;
pub use fault::AnswerFault;
pub use request::{NO_WIDTH, Request, RequestFault, VERSION};
pub use table::table_into;
pub use texts::{strip_into, strip_told, width_of, width_told};
pub use within::table_within;
