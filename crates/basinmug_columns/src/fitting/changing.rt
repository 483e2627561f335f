//! Texts whose lines change one by one.
ghost use Rattle.std.specs.Prelude.{◌≡◌, ◌&&◌, ℕ, IfOk, List, map, not, string_bytes};
ghost use Rattle.std.specs.List.{list_any};
ghost use Rattle.ansi_str.specs.StyledText.{has_escape};
ghost use Rattle.grid_records_measure.specs.TextLines.{is_line_feed, text_lines};
ghost use Rattle.basinmug_columns.specs.Fitting.Fitting.{joined_lines};

use ansi_scan::ESC;
use grid_records_measure::get_lines;
use memchr::memchr2;
use std::alloc::{AllocError, Global};

/// What becomes of each line of a text.
pub(crate) trait LineChange {
    /// What a line becomes.
    ghost becomes: { Self → List ℕ → List ℕ };

    /// What this line becomes. Fails only where allocation fails.
    fn changed(&self, alloc: Global, line: &str) -> Result<String, AllocError>
        ensures { IfOk result (λ out. string_bytes out ≡ becomes self.now line.now) };
}

/// The text of what its lines become. Fails only where allocation fails.
pub(crate) fn change_lines<L: LineChange>(
    alloc: Global,
    text: &str,
    change: &L,
) -> Result<String, AllocError>
    ensures { IfOk result (λ out. string_bytes out ≡ joined_lines (map (L.becomes change.now) (text_lines text.now))) }
{
    let mut lines = Vec::new(alloc);
    for line in get_lines(alloc, text) {
        let line = line?;
        lines.push(change.changed(alloc, &line)?)?;
    }
    lines.join(alloc, "\n")
}

/// Whether a text has neither an ESC nor a line feed. Most have neither; such a text is its only line.
pub(crate) fn is_plain_line(text: &str) -> bool
    ensures { result ≡ (not (has_escape text.now) && not (list_any is_line_feed text.now)) }
{
    memchr2(ESC, b'\n', text.as_bytes()).is_none()
}
