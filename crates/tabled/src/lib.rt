//! Tables: rows of texts under settings, changed step by step.
#![tactic(auto)]

mod building;
mod cells;
pub mod grid;
pub mod laws;
mod layout;
mod makers;
pub mod settings;
mod table;
mod table_of;
mod table_records;

pub use building::BuildTable;
pub use grid_config::{Border, Borders, Entity, Fault, Indent, Position, Sides};
pub use layout::LayoutIterator;
pub use papergrid::{LineChoice, LineKind};
pub use table::Table;
pub use table_of::TableOf;
pub use table_records::TableRecords;
pub use tabled_compact::iter::IterTable;
pub use tabled_compact::{BuildFault, CompactTable, RowArray};
pub use tabled_height::{
    CellHeightIncrease, CellHeightLimit, Height, HeightList, TableHeightIncrease, TableHeightLimit,
};
pub use tabled_list::{Amount, Setting};
pub use tabled_options::multiline::CompactMultilineConfig;
pub use tabled_options::object::{Columns, Rows, Segment};
pub use tabled_options::{
    Alignment, AlignmentStrategy, Margin, Padding, PaddingExpand, Span, Style, TrimStrategy, object,
};
pub use tabled_output::Counted;
pub use tabled_size::SuffixLimit;
pub use tabled_size_priority::{
    Choice, Peaker, Priority, PriorityChosen, PriorityLeast, PriorityLeft, PriorityMax,
    PriorityMin, PriorityNone, PriorityRight,
};
pub use tabled_steps::{CellOption, Max, Measurement, Min, Percent, TableOption};
pub use tabled_text::{Builder, CellText, Tabled};
pub use tabled_width::{Justify, MinWidth, Truncate, Width, WidthList, Wrap};
