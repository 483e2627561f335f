//! What tables are made of, by the modules in which `tabled` has it: settings, records and sizes.

/// Settings of a table.
pub mod config {
    pub use grid_config::{
        AlignmentHorizontal, AlignmentVertical, Border, Borders, ColoredConfig, CompactConfig,
        Entity, EntityMap, Fault, Formatting, Indent, Position, Sides, SpannedConfig,
    };
    pub use tabled_options::multiline::CompactMultilineConfig;
}

/// Sizes of columns and rows, and the least ones.
pub mod dimension {
    pub use grid_records_estimate::{
        CompactGridDimension, Estimate, IterGridDimension, PeekableGridDimension,
    };
    pub use grid_records_traits::Dimension;
    pub use tabled_size::{
        CompleteDimension, ConstDimension, ConstSize, DimensionPriority, DimensionValue,
        PoolTableDimension, StaticDimension, ZeroDimension,
    };
}

/// Rows of cells.
pub mod records {
    pub use grid_records::{
        BufRecords, Cell, EmptyRecords, ExactRecords, FromText, IntoRecords, IterRecords,
        LimitColumns, LimitRows, PeekableRecords, RecordColumns, RecordTexts, Records, RecordsMut,
        SkipRows, Text, TruncateContent, VecRecords,
    };
}
