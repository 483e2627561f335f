//! What changes a table, by the modules in which `tabled` has it.
pub use tabled_height::{
    CellHeightIncrease, CellHeightLimit, Height, HeightList, TableHeightIncrease, TableHeightLimit,
};
pub use tabled_list::{Amount, Setting};
pub use tabled_options::{Alignment, Margin, Padding, PaddingExpand, Span, Style, object};
pub use tabled_size::SuffixLimit;
pub use tabled_steps::{CellOption, Max, Measurement, Min, Percent, TableOption};
pub use tabled_width::{Justify, MinWidth, Truncate, Width, WidthList, Wrap};

/// How the lines of texts are trimmed and aligned.
pub mod formatting {
    pub use tabled_options::{AlignmentStrategy, TrimStrategy};
}

/// Which columns give first where a table is made narrower.
pub mod peaker {
    pub use tabled_size_priority::{
        Choice, Peaker, Priority, PriorityChosen, PriorityLeast, PriorityLeft, PriorityMax,
        PriorityMin, PriorityNone, PriorityRight,
    };
}
