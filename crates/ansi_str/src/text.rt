//! The calls on styled text.
ghost use Rattle.std.specs.Prelude.{◌≡◌, ℕ, List, length, IfErr, IfOk, IfSome, IsOk, IsTrue, false, ◌↔◌, string_bytes, [], ◌∷◌, min};
ghost use Rattle.std.specs.Cow.{cow_str_bytes};
ghost use Rattle.std.specs.Str.{IsCharBoundary};
ghost use Rattle.ansi_scan.specs.Sequences.{ForPieces, IsWhole};
ghost use Rattle.ansi_str.specs.StyledText.{BorrowsWithoutEscape, has_escape, strip};
ghost use Rattle.ansi_str.specs.Matches.{AreParts};
ghost use Rattle.ansi_str.specs.Searches.{BeginsWith, EndsWith, IsFound, IsFoundWhere};
ghost use Rattle.ansi_str.specs.Keeping.{IsTrimmed, without_end, without_front};
ghost use Rattle.ansi_str.specs.Cuts.{AreGoodBounds, cut_between, parts_at};
ghost use Rattle.ansi_str.specs.Parts.{IsGoodBound};

use crate::ranges::AnsiRange;
use crate::{cut, places, trim};
use ansi_scan::is_whole;
use ansi_str_search::{
    AnsiSplit, ends_with, find, has_escape, is_char_boundary, starts_with, strip_text,
};
use std::alloc::{AllocError, Global};
use std::borrow::CowStr;

/// Text that may hold escape sequences (ECMA-48), read as what it shows.
pub trait AnsiStr {
    // The bytes of the text.
    ghost text: { Self → List ℕ };

    /// The parts of the text between the matches of a pattern. The matches are those of `str::split` in the
    /// text without its sequences, also where the pattern is empty. Each part has the sequences from its
    /// first to its last place, both included, in their order. A part after a match begins with the start of
    /// the style after the sequences before it. Each part ends with the end of the style then open. A text
    /// without ESC is returned as borrows, without allocating. Else a part fails only where allocation fails,
    /// and no part comes after that. Places are bytes of the stripped text.
    fn ansi_split<'a>(&'a self, alloc: Global, pattern: &'a str) -> AnsiSplit<'a>
        ensures parts { ForPieces (text self.now) (λ pieces. AreParts pattern.now pieces result.parts) }
        ensures can_fail { result.can_fail ≡ has_escape (text self.now) };

    /// The text between good bounds, with all sequences at or before its end, and the end of the style then
    /// open. It is none where the bounds are not good. Bounds are places in the text without its sequences,
    /// and one past the end counts as the end. They are good where the end is not below the start and each is
    /// a character boundary. A text without ESC is returned as a borrow, without allocating. Bounds that are
    /// not good do not allocate either. Else it fails only where allocation fails.
    fn ansi_get<R: AnsiRange>(
        &self,
        alloc: Global,
        range: R,
    ) -> Result<Option<CowStr<'_>>, AllocError>
        ensures cut { IfOk result (λ found. ForPieces (text self.now) (λ pieces. IsFoundWhere
            (AreGoodBounds (strip pieces) (R.start range) (R.end range))
            (λ part. cow_str_bytes part ≡ cut_between (R.start range) (R.end range) pieces) found)) }
        ensures answers { has_escape (text self.now) ≡ false → IsOk result }
        ensures borrows { IfOk result (λ found. IfSome found (BorrowsWithoutEscape (text self.now))) }
        ensures refuses { IfErr result (λ _. ForPieces (text self.now) (λ pieces. AreGoodBounds (strip pieces) (R.start range) (R.end range))) };

    /// The text between two places of the text without its sequences, with all sequences at or before its
    /// end, and the end of the style then open. The bounds must be good, which `is_good_range` reports. The end
    /// is not below the start, and each is a character boundary, or past the end and counts as it. A text
    /// without ESC is returned as a borrow, without allocating; else it fails only where allocation fails.
    fn ansi_cut<R: AnsiRange>(&self, alloc: Global, range: R) -> Result<CowStr<'_>, AllocError>
        requires { ForPieces (text self.now) (λ pieces. AreGoodBounds (strip pieces) (R.start range) (R.end range)) }
        ensures part { IfOk result (λ part. ForPieces (text self.now) (λ pieces. cow_str_bytes part ≡ cut_between (R.start range) (R.end range) pieces)) }
        ensures answers { has_escape (text self.now) ≡ false → IsOk result }
        ensures borrows { IfOk result (BorrowsWithoutEscape (text self.now)) };

    /// The text before a place of the text without its sequences, and the text after it. Sequences at the
    /// place are in the first part. Each part ends with the end of the style then open, and the second
    /// begins with the start of the style known there. The place is a character boundary, or past the end and
    /// counts as the end (`is_good_range` reports it for `mid..`). A text without ESC is returned as borrows,
    /// without allocating; else it fails only where allocation fails.
    fn ansi_split_at(
        &self,
        alloc: Global,
        mid: usize,
    ) -> Result<(CowStr<'_>, CowStr<'_>), AllocError>
        requires { ForPieces (text self.now) (λ pieces. IsGoodBound (strip pieces) mid) }
        ensures parts { IfOk result (λ parts. ForPieces (text self.now) (λ pieces.
            parts_at (min mid (length (strip pieces)) ∷ []) pieces ≡ cow_str_bytes parts.0 ∷ cow_str_bytes parts.1 ∷ [])) }
        ensures answers { has_escape (text self.now) ≡ false → IsOk result }
        ensures borrows { IfOk result (λ parts.
            BorrowsWithoutEscape (text self.now) parts.0 × BorrowsWithoutEscape (text self.now) parts.1) };

    /// The text without its sequences: its items of text, joined. A text without ESC is returned as a
    /// borrow, without allocating; else it fails only where allocation fails.
    fn ansi_strip(&self, alloc: Global) -> Result<CowStr<'_>, AllocError>
        ensures strips { IfOk result (λ out. ForPieces (text self.now) (λ pieces. cow_str_bytes out ≡ strip pieces)) }
        ensures answers { has_escape (text self.now) ≡ false → IsOk result }
        ensures borrows { IfOk result (BorrowsWithoutEscape (text self.now)) };

    /// Whether a character of the text without its sequences begins at this byte, or that text ends
    /// there. Does not allocate.
    fn ansi_is_char_boundary(&self, index: usize) -> bool
        ensures { ForPieces (text self.now) (λ pieces. IsTrue result ↔ IsCharBoundary (strip pieces) index) };

    /// Whether the text without its sequences begins with the pattern. Does not allocate.
    fn ansi_starts_with(&self, pattern: &str) -> bool
        ensures { ForPieces (text self.now) (λ pieces. IsTrue result ↔ BeginsWith pattern.now (strip pieces)) };

    /// Whether the text without its sequences ends with the pattern. Does not allocate.
    fn ansi_ends_with(&self, pattern: &str) -> bool
        ensures { ForPieces (text self.now) (λ pieces. IsTrue result ↔ EndsWith pattern.now (strip pieces)) };

    /// The first byte of the text without its sequences at which the pattern occurs; none where it does not occur.
    /// Does not allocate.
    fn ansi_find(&self, pattern: &str) -> Option<usize>
        ensures { ForPieces (text self.now) (λ pieces. IsFound pattern.now (strip pieces) result) };

    /// The text without the prefix, where it begins with that once its sequences are left out, else none.
    /// Every sequence is kept, and none is added. A text without ESC is returned as a borrow. Neither that
    /// nor a text without the prefix allocates; else it fails only where allocation fails.
    fn ansi_strip_prefix(
        &self,
        alloc: Global,
        prefix: &str,
    ) -> Result<Option<CowStr<'_>>, AllocError>
        ensures kept { IfOk result (λ found. ForPieces (text self.now) (λ pieces.
            IsFoundWhere (BeginsWith prefix.now (strip pieces)) (λ left. cow_str_bytes left ≡ without_front (length prefix.now) pieces) found)) }
        ensures answers { has_escape (text self.now) ≡ false → IsOk result }
        ensures borrows { IfOk result (λ found. IfSome found (BorrowsWithoutEscape (text self.now))) }
        ensures refuses { IfErr result (λ _. ForPieces (text self.now) (λ pieces. BeginsWith prefix.now (strip pieces))) };

    /// The text without the suffix, where it ends with that once its sequences are left out, else none. Every
    /// sequence is kept, and none is added. A text without ESC is returned as a borrow. Neither that nor a
    /// text without the suffix allocates; else it fails only where allocation fails.
    fn ansi_strip_suffix(
        &self,
        alloc: Global,
        suffix: &str,
    ) -> Result<Option<CowStr<'_>>, AllocError>
        ensures kept { IfOk result (λ found. ForPieces (text self.now) (λ pieces.
            IsFoundWhere (EndsWith suffix.now (strip pieces)) (λ left. cow_str_bytes left ≡ without_end (length suffix.now) pieces) found)) }
        ensures answers { has_escape (text self.now) ≡ false → IsOk result }
        ensures borrows { IfOk result (λ found. IfSome found (BorrowsWithoutEscape (text self.now))) }
        ensures refuses { IfErr result (λ _. ForPieces (text self.now) (λ pieces. EndsWith suffix.now (strip pieces))) };

    /// The text without the white space that `str::trim` takes from it once its sequences are left out.
    /// Every sequence is kept, and none is added. A text without ESC is returned as a borrow, without
    /// allocating; else it fails only where allocation fails.
    fn ansi_trim(&self, alloc: Global) -> Result<CowStr<'_>, AllocError>
        ensures trims { IfOk result (λ left. ForPieces (text self.now) (λ pieces. IsTrimmed pieces (cow_str_bytes left))) }
        ensures answers { has_escape (text self.now) ≡ false → IsOk result }
        ensures borrows { IfOk result (BorrowsWithoutEscape (text self.now)) };

    /// Whether the text holds an ESC. Does not allocate.
    fn ansi_has_any(&self) -> bool
        ensures { result ≡ has_escape (text self.now) };

    /// Whether each ESC of the text begins a whole sequence. Does not allocate.
    fn ansi_is_whole(&self) -> bool
        ensures { IsTrue result ↔ IsWhole (text self.now) };
}

impl AnsiStr for &str {
    ghost text = { λ s. s.now };

    fn ansi_split<'a>(&'a self, alloc: Global, pattern: &'a str) -> AnsiSplit<'a> {
        AnsiSplit::new(alloc, self, pattern)
    }

    fn ansi_get<R: AnsiRange>(
        &self,
        alloc: Global,
        range: R,
    ) -> Result<Option<CowStr<'_>>, AllocError> {
        cut::get(alloc, self, range.start_place(), range.end_place())
    }

    fn ansi_cut<R: AnsiRange>(&self, alloc: Global, range: R) -> Result<CowStr<'_>, AllocError> {
        cut::cut(alloc, self, range.start_place(), range.end_place())
    }

    fn ansi_split_at(
        &self,
        alloc: Global,
        mid: usize,
    ) -> Result<(CowStr<'_>, CowStr<'_>), AllocError> {
        places::split_at(alloc, self, mid)
    }

    fn ansi_strip(&self, alloc: Global) -> Result<CowStr<'_>, AllocError> {
        strip_text(alloc, self)
    }

    fn ansi_is_char_boundary(&self, index: usize) -> bool {
        is_char_boundary(self, index)
    }

    fn ansi_starts_with(&self, pattern: &str) -> bool {
        starts_with(self, pattern)
    }

    fn ansi_ends_with(&self, pattern: &str) -> bool {
        ends_with(self, pattern)
    }

    fn ansi_find(&self, pattern: &str) -> Option<usize> {
        find(self, pattern)
    }

    fn ansi_strip_prefix(
        &self,
        alloc: Global,
        prefix: &str,
    ) -> Result<Option<CowStr<'_>>, AllocError> {
        trim::strip_prefix(alloc, self, prefix)
    }

    fn ansi_strip_suffix(
        &self,
        alloc: Global,
        suffix: &str,
    ) -> Result<Option<CowStr<'_>>, AllocError> {
        trim::strip_suffix(alloc, self, suffix)
    }

    fn ansi_trim(&self, alloc: Global) -> Result<CowStr<'_>, AllocError> {
        trim::trim(alloc, self)
    }

    fn ansi_has_any(&self) -> bool {
        has_escape(self)
    }

    fn ansi_is_whole(&self) -> bool {
        is_whole(self)
    }
}

impl AnsiStr for String {
    ghost text = { λ s. string_bytes s };

    fn ansi_split<'a>(&'a self, alloc: Global, pattern: &'a str) -> AnsiSplit<'a> {
        AnsiSplit::new(alloc, self.as_str(), pattern)
    }

    fn ansi_get<R: AnsiRange>(
        &self,
        alloc: Global,
        range: R,
    ) -> Result<Option<CowStr<'_>>, AllocError> {
        cut::get(alloc, self.as_str(), range.start_place(), range.end_place())
    }

    fn ansi_cut<R: AnsiRange>(&self, alloc: Global, range: R) -> Result<CowStr<'_>, AllocError> {
        cut::cut(alloc, self.as_str(), range.start_place(), range.end_place())
    }

    fn ansi_split_at(
        &self,
        alloc: Global,
        mid: usize,
    ) -> Result<(CowStr<'_>, CowStr<'_>), AllocError> {
        places::split_at(alloc, self.as_str(), mid)
    }

    fn ansi_strip(&self, alloc: Global) -> Result<CowStr<'_>, AllocError> {
        strip_text(alloc, self.as_str())
    }

    fn ansi_is_char_boundary(&self, index: usize) -> bool {
        is_char_boundary(self.as_str(), index)
    }

    fn ansi_starts_with(&self, pattern: &str) -> bool {
        starts_with(self.as_str(), pattern)
    }

    fn ansi_ends_with(&self, pattern: &str) -> bool {
        ends_with(self.as_str(), pattern)
    }

    fn ansi_find(&self, pattern: &str) -> Option<usize> {
        find(self.as_str(), pattern)
    }

    fn ansi_strip_prefix(
        &self,
        alloc: Global,
        prefix: &str,
    ) -> Result<Option<CowStr<'_>>, AllocError> {
        trim::strip_prefix(alloc, self.as_str(), prefix)
    }

    fn ansi_strip_suffix(
        &self,
        alloc: Global,
        suffix: &str,
    ) -> Result<Option<CowStr<'_>>, AllocError> {
        trim::strip_suffix(alloc, self.as_str(), suffix)
    }

    fn ansi_trim(&self, alloc: Global) -> Result<CowStr<'_>, AllocError> {
        trim::trim(alloc, self.as_str())
    }

    fn ansi_has_any(&self) -> bool {
        has_escape(self.as_str())
    }

    fn ansi_is_whole(&self) -> bool {
        is_whole(self.as_str())
    }
}
