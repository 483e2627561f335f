//! The width of a text, and the text without its sequences.
ghost use Rattle.std.specs.Prelude.{◌≡◌, IfErr, IfOk, IsUtf8};
ghost use Rattle.std.specs.Str.Lossy.{utf8_valid_len};
ghost use Rattle.columns_bounded.specs.Texts.{IsTextWidth, IsStripped, TellsStripped, TellsWidth};

use crate::answer::{Answer, status_of};
use crate::fault::AnswerFault;
use ansi_str::AnsiStr;
use bounded_output::fill;
use columns_run::RunFault;
use grid_records_measure::get_text_width;
use std::alloc::Global;
use std::str;

/// The columns of the widest line of a text, without its sequences; or the byte at which it is no text. Does not
/// allocate.
pub fn width_of(text: &[u8]) -> Result<usize, AnswerFault>
    ensures { IsTextWidth text.now result }
{
    let text = text_of(text)?;
    Ok(get_text_width(text))
}

/// Writes a text without its sequences from the start of `out`, as far as it fits, and returns how many bytes the whole
/// has. What `out` holds after them stays; if the bytes are no text or allocation fails, all of it does.
pub fn strip_into(alloc: Global, text: &[u8], out: &mut [u8]) -> Result<usize, AnswerFault>
    ensures { IsStripped text.now out.old out.new result }
{
    let text = text_of(text)?;
    let Ok(stripped) = text.ansi_strip(alloc) else {
        return Err(AnswerFault::Text(RunFault::Memory));
    };
    fill(out, stripped.as_bytes());
    Ok(stripped.len())
}

/// Does what `width_of` does, returns the status of the outcome, and sets `answer` to the rest of it.
pub fn width_told(text: &[u8], answer: &mut Answer) -> u32
    ensures { TellsWidth text.now result answer.new }
{
    let outcome = width_of(text);
    *answer = Answer::of(&outcome);
    status_of(&outcome)
}

/// Does what `strip_into` does, returns the status of the outcome, and sets `answer` to the rest of it.
pub fn strip_told(alloc: Global, text: &[u8], out: &mut [u8], answer: &mut Answer) -> u32
    ensures { TellsStripped text.now out.old out.new result answer.new }
{
    let outcome = strip_into(alloc, text, out);
    *answer = Answer::of(&outcome);
    status_of(&outcome)
}

// The bytes as text. If they are no UTF-8, `NotUtf8` holds the length of their longest prefix that is.
fn text_of(bytes: &[u8]) -> Result<&str, RunFault>
    ensures ok { IfOk result (λ text. (text.now ≡ bytes.now) × IsUtf8 bytes.now) }
    ensures err { IfErr result (λ fault. ¬ (IsUtf8 bytes.now) × (fault ≡ RunFault.NotUtf8 (utf8_valid_len bytes.now))) }
{
    str::from_utf8(bytes).map_err(|error| RunFault::NotUtf8 {
        at: error.valid_up_to(),
    })
}
