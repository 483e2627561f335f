//! A text of printable ASCII that is wrapped.
ghost use Rattle.std.specs.Prelude.{◌≡◌, ◌<◌, IfOk, false, length, true};
ghost use Rattle.std.specs.Cow.{cow_str_bytes};
ghost use Rattle.std.specs.List.{join_with_byte};
ghost use Rattle.ansi_scan.specs.Pieces.{pieces};
ghost use Rattle.grid_records_measure.specs.Measures.{are_printable};
ghost use Rattle.grid_records_measure.specs.TextLines.{line_feed};
ghost use Rattle.tabled_size_wrap.specs.Runs.{wrapped_lines};

use crate::measured::MeasuredText;
use std::alloc::{AllocError, Global};
use std::borrow::CowStr;

/// The lines that such a text is wrapped into where words are not kept, with a line feed between each two. Each
/// byte is a unit that costs one column. So each line but the last has as many bytes as the width, and what the
/// lines measure is known. It fails only where allocation fails, and allocates once.
pub(crate) fn full_lines<'a>(
    alloc: Global,
    text: &str,
    width: usize,
) -> Result<MeasuredText<'a>, AllocError>
    requires some_width { 0 < width }
    requires some_text { 0 < length text.now }
    requires printable { are_printable text.now ≡ true }
    ensures { IfOk result (λ made. cow_str_bytes made.text ≡ join_with_byte line_feed (wrapped_lines width false (pieces text.now))) }
{
    let added = (text.len() - 1) / width;
    let mut out = String::with_capacity(alloc, text.len() + added)?;
    let mut rest = text;
    let (mut lines, mut columns) = (1, 0);
    while rest.len() > width {
        let (line, behind) = rest.split_at(width);
        out.push_str(line)?;
        out.push('\n')?;
        rest = behind;
        lines += 1;
        columns = width;
    }
    out.push_str(rest)?;
    Ok(MeasuredText {
        text: CowStr::Owned(out),
        lines,
        columns: columns.max(rest.len()),
    })
}
