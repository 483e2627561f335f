//! What is said of a run, in one line.
ghost use Rattle.std.specs.Prelude.{◌≡◌, IfOk, string_bytes};
ghost use Rattle.basinmug_run.specs.Messages.{with_visible_controls};

use basinmug_input::push_ordered;
use program_options::basinmug::Escapes;
use std::alloc::{AllocError, Global};

/// A text as a part of one line, whose control characters are made visible, so that no name in it moves
/// what is beside it. Fails only where allocation fails.
pub fn with_visible_controls(alloc: Global, text: &str) -> Result<String, AllocError>
    ensures { IfOk result (λ out. string_bytes out ≡ with_visible_controls text.now) }
{
    let mut out = String::with_capacity(alloc, text.len())?;
    for c in text.chars() {
        push_ordered(&mut out, Escapes::None, c)?;
    }
    Ok(out)
}
