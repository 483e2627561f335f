//! Makes priorities.
ghost use Rattle.std.specs.Prelude.{◌≡◌};

use crate::left::PriorityLeft;
use crate::max::PriorityMax;
use crate::min::PriorityMin;
use crate::none::PriorityNone;
use crate::right::PriorityRight;

/// Makes priorities.
#[derive(Clone, Copy, Debug, Default, PartialEq, Eq, PartialOrd, Ord, Hash)]
pub struct Priority;

impl Priority {
    /// One column after the other, from the first.
    pub const fn none() -> PriorityNone
        ensures { result ≡ 0 }
    {
        PriorityNone::new()
    }

    /// The narrowest column first; of equally narrow ones the rightmost where `right` holds, else the
    /// leftmost.
    pub const fn min(right: bool) -> PriorityMin
        ensures { result ≡ right }
    {
        PriorityMin::new(right)
    }

    /// The widest column first; of equally wide ones the rightmost where `right` holds, else the leftmost.
    pub const fn max(right: bool) -> PriorityMax
        ensures { result ≡ right }
    {
        PriorityMax::new(right)
    }

    /// The leftmost column first.
    pub const fn left() -> PriorityLeft {
        PriorityLeft::new()
    }

    /// The rightmost column first.
    pub const fn right() -> PriorityRight {
        PriorityRight::new()
    }
}
