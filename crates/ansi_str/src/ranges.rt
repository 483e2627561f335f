//! Ranges of places in a text.
ghost use Rattle.std.specs.Prelude.{◌≡◌, ℕ, Option};

use std::ops::{Range, RangeFrom, RangeFull, RangeInclusive, RangeTo, RangeToInclusive};

/// A range of places, with a start and an end that is excluded, or none.
pub trait AnsiRange: Drop {
    // The bounds.
    ghost start: { Self → ℕ };

    ghost end: { Self → Option ℕ };

    /// Where the range starts: 0 where it has no start.
    fn start_place(&self) -> usize
        ensures { result ≡ start self.now };

    /// Where it ends, that place excluded; none where it has no end, or an inclusive one of `usize::MAX`.
    fn end_place(&self) -> Option<usize>
        ensures { result ≡ end self.now };
}

impl AnsiRange for Range<usize> {
    ghost use Rattle.std.specs.Prelude.{Some};

    ghost start = { λ range. range.start };

    ghost end = { λ range. Some range.end };

    fn start_place(&self) -> usize {
        self.start
    }

    fn end_place(&self) -> Option<usize> {
        Some(self.end)
    }
}

impl AnsiRange for RangeFrom<usize> {
    ghost use Rattle.std.specs.Prelude.{None};

    ghost start = { λ range. range.start };

    ghost end = { λ _. None };

    fn start_place(&self) -> usize {
        self.start
    }

    fn end_place(&self) -> Option<usize> {
        None
    }
}

impl AnsiRange for RangeTo<usize> {
    ghost use Rattle.std.specs.Prelude.{Some};

    ghost start = { λ _. 0 };

    ghost end = { λ range. Some range.end };

    fn start_place(&self) -> usize {
        0
    }

    fn end_place(&self) -> Option<usize> {
        Some(self.end)
    }
}

impl AnsiRange for RangeFull {
    ghost use Rattle.std.specs.Prelude.{None};

    ghost start = { λ _. 0 };

    ghost end = { λ _. None };

    fn start_place(&self) -> usize {
        0
    }

    fn end_place(&self) -> Option<usize> {
        None
    }
}

impl AnsiRange for RangeInclusive<usize> {
    ghost use Rattle.std.specs.Range.{range_inclusive_start, range_inclusive_end, range_inclusive_exhausted};
    ghost use Rattle.ansi_str.specs.Ranges.{end_behind, inclusive_start};

    ghost start = { λ range. inclusive_start (range_inclusive_exhausted range) (range_inclusive_start range) (range_inclusive_end range) };

    ghost end = { λ range. end_behind (range_inclusive_end range) };

    fn start_place(&self) -> usize {
        // a range that was gone through to its end is empty there
        let (first, last) = (*self.start(), *self.end());
        if self.is_empty() && first <= last {
            last.checked_add(1).unwrap_or(last)
        } else {
            first
        }
    }

    fn end_place(&self) -> Option<usize> {
        self.end().checked_add(1)
    }
}

impl AnsiRange for RangeToInclusive<usize> {
    ghost use Rattle.ansi_str.specs.Ranges.{end_behind};

    ghost start = { λ _. 0 };

    ghost end = { λ range. end_behind range.end };

    fn start_place(&self) -> usize {
        0
    }

    fn end_place(&self) -> Option<usize> {
        self.end.checked_add(1)
    }
}
