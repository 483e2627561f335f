//! Texts whose lines change one by one.
ghost use Rattle.std.specs.Prelude.{◌≡◌, ◌++◌, ℕ, IfOk, List, OnOk, map, string_bytes};
ghost use Rattle.std.specs.List.{join_with_byte};
ghost use Rattle.grid_records_measure.specs.TextLines.{line_feed, text_lines};
ghost use Rattle.tabled_width_texts.specs.Filling.{separated};

use grid_records_measure::get_lines;
use std::alloc::{AllocError, Global};

/// What becomes of each line of a text.
pub(crate) trait LineChange {
    /// What a line becomes.
    ghost becomes: { Self → List ℕ → List ℕ };

    /// Appends what the line becomes. Fails only where allocation fails.
    fn push_line(&self, alloc: Global, out: &mut String, line: &str) -> Result<(), AllocError>
        ensures { OnOk result (string_bytes out.new ≡ string_bytes out.old ++ becomes self.now line.now) };
}

/// The text of what its lines become, each with its styles opened and ended within. Fails only where
/// allocation fails.
pub(crate) fn change_lines<L: LineChange>(
    alloc: Global,
    text: &str,
    change: &L,
) -> Result<String, AllocError>
    ensures { IfOk result (λ out. string_bytes out ≡ join_with_byte line_feed (map (L.becomes change.now) (text_lines text.now))) }
{
    let mut out = String::new(alloc);
    let mut begun = false;
    for line in get_lines(alloc, text) {
        let line = line?;
        push_behind(alloc, &mut out, begun, &line, change)?;
        begun = true;
    }
    Ok(out)
}

// Appends what a line becomes, after a line feed where others came before it.
fn push_behind<L: LineChange>(
    alloc: Global,
    out: &mut String,
    begun: bool,
    line: &str,
    change: &L,
) -> Result<(), AllocError>
    ensures { OnOk result (string_bytes out.new ≡ string_bytes out.old ++ separated begun (L.becomes change.now line.now)) }
{
    if begun {
        out.push('\n')?;
    }
    change.push_line(alloc, out, line)
}
