//! What rows of cells have to return: the traits of sources, of tables and of cells, and of the sizes of
//! columns and rows.
#![tactic(auto)]

pub mod dimension;
pub mod laws;
mod lines;
pub mod records;

pub use dimension::Dimension;
pub use records::{
    Cell, ExactRecords, IntoRecords, PeekableRecords, RecordColumns, RecordTexts, Records,
    SingleLineCell, SingleLineRow,
};
