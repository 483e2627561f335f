//! The text of a single value.
ghost use Rattle.std.specs.Prelude.{◌≡◌, ℕ, Bool, true, false, List, IfOk, IfSome, IsOk, decimal, encode_utf8, string_bytes};
ghost use Rattle.std.specs.Fmt.{signed_decimal};
ghost use Rattle.std.specs.Cow.{IsBorrowedStr, cow_str_bytes};
ghost use Rattle.tabled_text.specs.Fields.{bool_text};

use std::alloc::{AllocError, Global};
use std::borrow::CowStr;
use std::fmt::Display;

/// A single value that a cell can show.
pub trait CellText {
    ghost text: { Self → List ℕ };

    // The text is in memory already.
    ghost is_there: { Bool };

    /// The text that `Display` prints for the value. Where it is in memory already it is a borrow,
    /// without allocating; else it fails only where allocation fails.
    fn cell_text(&self, alloc: Global) -> Result<CowStr<'_>, AllocError>
        ensures text { IfOk result (λ out. cow_str_bytes out ≡ text self.now) }
        ensures answers { is_there ≡ true → IsOk result }
        ensures borrows { IfOk result (λ out. is_there ≡ true → IsBorrowedStr out) };
}

/// What `Display` prints.
pub(crate) fn displayed<'a, T: Display>(alloc: Global, value: &T) -> Result<CowStr<'a>, AllocError>
    ensures { IfOk result (λ out. IfSome (T.output value.now) (λ text. cow_str_bytes out ≡ text)) }
{
    Ok(CowStr::Owned(value.to_string(alloc)?))
}

impl<'a> CellText for &'a str {
    ghost text = { λ value. value.now };

    ghost is_there = { true };

    fn cell_text(&self, _alloc: Global) -> Result<CowStr<'_>, AllocError> {
        Ok(CowStr::Borrowed(self))
    }
}

impl CellText for String {
    ghost text = { string_bytes };

    ghost is_there = { true };

    fn cell_text(&self, _alloc: Global) -> Result<CowStr<'_>, AllocError> {
        Ok(CowStr::Borrowed(self.as_str()))
    }
}

impl CellText for char {
    ghost text = { encode_utf8 };

    ghost is_there = { false };

    fn cell_text(&self, alloc: Global) -> Result<CowStr<'_>, AllocError> {
        displayed(alloc, self)
    }
}

impl CellText for bool {
    ghost text = { bool_text };

    ghost is_there = { true };

    fn cell_text(&self, _alloc: Global) -> Result<CowStr<'_>, AllocError> {
        Ok(CowStr::Borrowed(if *self { "true" } else { "false" }))
    }
}

impl CellText for u8 {
    ghost text = { decimal };

    ghost is_there = { false };

    fn cell_text(&self, alloc: Global) -> Result<CowStr<'_>, AllocError> {
        displayed(alloc, self)
    }
}

impl CellText for u16 {
    ghost text = { decimal };

    ghost is_there = { false };

    fn cell_text(&self, alloc: Global) -> Result<CowStr<'_>, AllocError> {
        displayed(alloc, self)
    }
}

impl CellText for u32 {
    ghost text = { decimal };

    ghost is_there = { false };

    fn cell_text(&self, alloc: Global) -> Result<CowStr<'_>, AllocError> {
        displayed(alloc, self)
    }
}

impl CellText for u64 {
    ghost text = { decimal };

    ghost is_there = { false };

    fn cell_text(&self, alloc: Global) -> Result<CowStr<'_>, AllocError> {
        displayed(alloc, self)
    }
}

impl CellText for u128 {
    ghost text = { decimal };

    ghost is_there = { false };

    fn cell_text(&self, alloc: Global) -> Result<CowStr<'_>, AllocError> {
        displayed(alloc, self)
    }
}

impl CellText for usize {
    ghost text = { decimal };

    ghost is_there = { false };

    fn cell_text(&self, alloc: Global) -> Result<CowStr<'_>, AllocError> {
        displayed(alloc, self)
    }
}

impl CellText for i8 {
    ghost text = { signed_decimal };

    ghost is_there = { false };

    fn cell_text(&self, alloc: Global) -> Result<CowStr<'_>, AllocError> {
        displayed(alloc, self)
    }
}

impl CellText for i16 {
    ghost text = { signed_decimal };

    ghost is_there = { false };

    fn cell_text(&self, alloc: Global) -> Result<CowStr<'_>, AllocError> {
        displayed(alloc, self)
    }
}

impl CellText for i32 {
    ghost text = { signed_decimal };

    ghost is_there = { false };

    fn cell_text(&self, alloc: Global) -> Result<CowStr<'_>, AllocError> {
        displayed(alloc, self)
    }
}

impl CellText for i64 {
    ghost text = { signed_decimal };

    ghost is_there = { false };

    fn cell_text(&self, alloc: Global) -> Result<CowStr<'_>, AllocError> {
        displayed(alloc, self)
    }
}

impl CellText for i128 {
    ghost text = { signed_decimal };

    ghost is_there = { false };

    fn cell_text(&self, alloc: Global) -> Result<CowStr<'_>, AllocError> {
        displayed(alloc, self)
    }
}

impl CellText for isize {
    ghost text = { signed_decimal };

    ghost is_there = { false };

    fn cell_text(&self, alloc: Global) -> Result<CowStr<'_>, AllocError> {
        displayed(alloc, self)
    }
}
