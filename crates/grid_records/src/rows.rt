//! Records of cells with a text: sources of rows, tables of rows, and what shortens them.

pub mod laws;
pub mod records;

pub use grid_records_traits::{Dimension, dimension};
pub use records::into_records::{
    BufRecords, IntoRecords, KeptTexts, LimitColumns, LimitRows, SkipRows, TruncateContent,
};
pub use records::vec_records::{Cell, FromText, Text, VecRecords, are_equally_long};
pub use records::{
    EmptyRecords, ExactRecords, IterRecords, PeekableRecords, PeekedRecords, RecordColumns,
    RecordTexts, Records, RecordsMut,
};
