//! The cut of a text at a width.
ghost use Rattle.std.specs.Prelude.{◌≡◌, IfOk, IsOk};
ghost use Rattle.std.specs.Cow.{IsOwnedStr, cow_str_bytes};
ghost use Rattle.ansi_scan.specs.Sequences.{ForPieces};
ghost use Rattle.grid_records_measure.specs.Cutting.{IsCutAt, CutIsFront};
ghost use Rattle.tabled_size_wrap.specs.Bytes.{cut_at};

use grid_records_measure::cut_width;
use std::alloc::{AllocError, Global};
use std::borrow::CowStr;

/// The longest prefix of a text whose lines but the last cost fewer columns than the width, and whose last
/// costs at most the width. Where text is left after it, a U+FFFD without style follows for each column
/// that its last line lacks. It is the cut of `cut_width`. A text without ESC whose cut lacks no column
/// is returned as a borrow, without allocating; else it fails only where allocation fails.
pub fn cut_styled<'a>(alloc: Global, text: &'a str, width: usize) -> Result<CowStr<'a>, AllocError>
    ensures cut { IfOk result (λ out. ForPieces text.now (λ pieces. IsCutAt width pieces (cow_str_bytes out))) }
    ensures bytes { IfOk result (λ out. cow_str_bytes out ≡ cut_at width text.now) }
    ensures answers { CutIsFront width text.now → IsOk result }
    ensures borrows { IfOk result (λ out. CutIsFront width text.now → ¬ (IsOwnedStr out)) }
{
    cut_width(alloc, text, width)
}
