//! A text that is wrapped at a width.
ghost use Rattle.std.specs.Prelude.{◌≡◌, ◌<◌, ◌∷◌, [], IfOk, IsOk, string_bytes};
ghost use Rattle.std.specs.Cow.{cow_str_bytes};
ghost use Rattle.ansi_scan.specs.Sequences.{ForPieces};
ghost use Rattle.grid_records_measure.specs.TextLines.{text_lines};
ghost use Rattle.tabled_size_wrap.specs.Bytes.{wrapped_text};
ghost use Rattle.tabled_size_wrap.specs.Wrapping.{IsWrapped};

use crate::full_lines::full_lines;
use crate::measured::MeasuredText;
use crate::wrapped_lines::push_wrapped_lines;
use grid_records_measure::{get_lines, is_printable};
use std::alloc::{AllocError, Global};
use std::borrow::CowStr;

/// A text with its lines wrapped at a width, in columns. Each line of `get_lines` is wrapped by itself into runs of
/// its units (`units`). Each run is as long as it fits: its units sum to at most the width. A unit that costs more
/// than the width takes the columns that its run has left, or a new run where none is left. Each of these columns
/// has a U+FFFD without style, and the part of the unit is left out with its sequences. The bytes of a run are the
/// parts of `split_places` at its ends and around such a unit, and runs are joined by line feeds. At width 0 the
/// result is the empty text. It fails only where allocation fails, and never at width 0.
pub fn wrap_styled(
    alloc: Global,
    text: &str,
    width: usize,
    keep_words: bool,
) -> Result<String, AllocError>
    ensures wrapped { IfOk result (λ out. ForPieces text.now (λ pieces. IsWrapped width keep_words pieces (string_bytes out))) }
    ensures bytes { IfOk result (λ out. string_bytes out ≡ wrapped_text width keep_words text.now) }
    ensures nothing { width ≡ 0 → IsOk result }
{
    if width == 0 {
        return Ok(String::new(alloc));
    }
    if !keep_words && !text.is_empty() && is_printable(text) {
        let made = full_lines(alloc, text, width)?;
        return made.text.into_owned(alloc);
    }
    wrap_each_line(alloc, text, width, keep_words)
}

// The same at some columns, whatever the text.
fn wrap_each_line(
    alloc: Global,
    text: &str,
    width: usize,
    keep_words: bool,
) -> Result<String, AllocError>
    requires { 0 < width }
    ensures { IfOk result (λ out. ForPieces text.now (λ pieces. IsWrapped width keep_words pieces (string_bytes out))) }
{
    let mut out = String::new(alloc);
    let mut begun = false;
    for line in get_lines(alloc, text) {
        let line = line?;
        if begun {
            out.push('\n')?;
        }
        begun = true;
        push_wrapped_lines(alloc, &mut out, &line, width, keep_words)?;
    }
    Ok(out)
}

/// The same of a text that is its only line, with what the lines of the result measure. Such is a text without ESC
/// and without line feeds, and one that opens and ends its own styles. Its lines are not looked for. Where words are
/// not kept and it is printable ASCII, nothing is measured either. It fails only where allocation fails.
pub fn wrap_line<'a>(
    alloc: Global,
    line: &str,
    width: usize,
    keep_words: bool,
) -> Result<MeasuredText<'a>, AllocError>
    requires { text_lines line.now ≡ line.now ∷ [] }
    ensures bytes { IfOk result (λ made. cow_str_bytes made.text ≡ wrapped_text width keep_words line.now) }
    ensures nothing { width ≡ 0 → IsOk result }
{
    if width > 0 && !keep_words && !line.is_empty() && is_printable(line) {
        return full_lines(alloc, line, width);
    }
    let out = wrap_only_line(alloc, line, width, keep_words)?;
    Ok(MeasuredText::new(CowStr::Owned(out)))
}

/// The same text alone: nothing is measured after it is wrapped. It fails only where allocation fails, and never at
/// width 0.
pub fn wrap_only_line(
    alloc: Global,
    line: &str,
    width: usize,
    keep_words: bool,
) -> Result<String, AllocError>
    requires { text_lines line.now ≡ line.now ∷ [] }
    ensures bytes { IfOk result (λ out. string_bytes out ≡ wrapped_text width keep_words line.now) }
    ensures nothing { width ≡ 0 → IsOk result }
{
    let mut out = String::new(alloc);
    if width == 0 {
        return Ok(out);
    }
    out.reserve(line.len())?;
    push_wrapped_lines(alloc, &mut out, line, width, keep_words)?;
    Ok(out)
}
