//! What columns give or get where a list of widths is shrunk or grown: searches for the number of turns, or the
//! level, at which enough moves, and passes over the columns that move it.

mod amounts;
mod giving;
mod order;
mod rule;
mod search;
mod taking;

pub use amounts::least_at;
pub use giving::give;
pub use order::Order;
pub use rule::Rule;
pub use search::Moved;
pub use taking::{take, take_whole};
