//! Values that lie side by side in rows and one below the other in columns. How large they are, what they show
//! line by line in a frame, and their text.

mod canvas;
mod draw;
mod framed;
mod glyphs;
pub mod laws;
mod line;
mod margins;
mod marks;
mod open_text;
mod part;
mod share;
mod size;
mod text;
mod value;

pub use margins::pool_text;
pub use value::TableValue;
