//! Options that set what a table looks like: margin, padding, borders, alignment, spans; and selections of
//! cells.
#![tactic(auto)]

mod alignment;
pub mod formatting;
mod frame;
pub mod laws;
mod margin;
pub mod multiline;
pub mod object;
mod padding;
mod sides;
mod span;
mod style;

pub use alignment::Alignment;
pub use formatting::{AlignmentStrategy, TrimStrategy};
pub use frame::FrameSettings;
pub use margin::Margin;
pub use padding::{Padding, PaddingExpand};
pub use span::Span;
pub use style::Style;
