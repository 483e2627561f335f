//! What a cell needs along one axis.

/// What a cell needs of the columns that it takes; or of the rows, with rows and columns exchanged. A need that is
/// less is met before one that is greater.
#[derive(Clone, Copy, Debug, PartialEq, Eq, PartialOrd, Ord)]
pub(crate) struct Need {
    /// How many columns it takes.
    pub(crate) length: usize,
    /// The first of them.
    pub(crate) first: usize,
    /// Its row.
    pub(crate) cross_track: usize,
    /// How much these columns must measure together, with the boundaries between them.
    pub(crate) size: u128,
}
