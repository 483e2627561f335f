//! Who takes what is left over.

/// Which members of a row take the columns that are left over, and which of a column the lines.
#[derive(Clone, Copy, Debug, PartialEq, Eq, PartialOrd, Ord)]
pub enum DimensionPriority {
    /// The first one takes all.
    First,
    /// The last one takes all.
    Last,
    /// Each takes as many, and the first ones one more each until none is left.
    List,
}
