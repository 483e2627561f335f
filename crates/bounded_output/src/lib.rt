//! A writer into memory that may be too little: it writes the bytes that fit, and counts all of them.
#![tactic(auto)]

mod bounded;
mod filling;
pub mod laws;
mod noted;

pub use bounded::Bounded;
pub use filling::fill;
