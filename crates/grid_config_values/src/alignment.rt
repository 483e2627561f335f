//! Where a text is in the free columns and lines of its cell.

/// Where a line is between the left and the right padding of its cell.
#[derive(Clone, Copy, Debug, PartialEq, Eq, PartialOrd, Ord, Hash)]
pub enum AlignmentHorizontal {
    /// No free column to its left.
    Left,
    /// Half of the free columns to its left, rounded down.
    Center,
    /// All free columns to its left.
    Right,
}

/// Where the lines of a text are between the top and the bottom padding of their cell.
#[derive(Clone, Copy, Debug, PartialEq, Eq, PartialOrd, Ord, Hash)]
pub enum AlignmentVertical {
    /// No free line above them.
    Top,
    /// Half of the free lines above them, rounded down.
    Center,
    /// All free lines above them.
    Bottom,
}
