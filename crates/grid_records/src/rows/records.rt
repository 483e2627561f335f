//! Rows of cells with a text.
pub mod empty;
pub mod into_records;
pub mod iter_records;
pub mod peeked_records;
pub mod records_mut;
pub mod vec_records;

pub use empty::EmptyRecords;
pub use grid_records_traits::records::{
    ExactRecords, PeekableRecords, RecordColumns, RecordTexts, Records, exact_records,
    peekable_records,
};
pub use into_records::IntoRecords;
pub use iter_records::IterRecords;
pub use peeked_records::PeekedRecords;
pub use records_mut::RecordsMut;
pub use vec_records::{Cell, FromText, Text, VecRecords};
