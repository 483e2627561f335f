//! Records of cells, what their texts measure, and the least sizes of a table of them.
#![tactic(auto)]

pub mod laws;
mod rows;

pub use grid_records_estimate::{
    CompactGridDimension, Estimate, IterGridDimension, PeekableGridDimension,
};
pub use grid_records_measure::{
    Lines, count_lines, cut_width, get_char_width, get_line_width, get_lines, get_string_width,
    get_text_dimension, get_text_width, replace_tab,
};
pub use rows::{
    BufRecords, Cell, Dimension, EmptyRecords, ExactRecords, FromText, IntoRecords, IterRecords,
    KeptTexts, LimitColumns, LimitRows, PeekableRecords, PeekedRecords, RecordColumns, RecordTexts,
    Records, RecordsMut, SkipRows, Text, TruncateContent, VecRecords, are_equally_long, records,
};
