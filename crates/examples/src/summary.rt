//! A summary of tests in colours: its own contract says that no line of it leaks and that its edges are straight.
ghost use Rattle.std.specs.Prelude.{◌≡◌, ◌<◌, ℕ, All, IfOk, length, string_bytes};
ghost use Rattle.ansi_str.specs.Characters.{shown_chars};
ghost use Rattle.grid_records_measure.specs.Measures.{measure};
ghost use Rattle.grid_records_measure.specs.TextLines.{text_lines};
ghost use Rattle.tables_laws.specs.Grids.TextsOf.{AreAdditiveTexts};
ghost use Rattle.tables_laws.specs.Shown.PlainEnds.{EndsLinesPlain};

use grid_config::Fault;
use std::alloc::{AllocError, Global};
use tabled::{Builder, Table};

/// The table of some results. Where their texts show additive characters alone, in whatever colours, its lines are
/// even: none of them ends with a style open, and each measures the same columns.
pub(crate) fn summary(results: Builder) -> Result<String, Fault>
    ensures plain { AreAdditiveTexts results → IfOk result (λ text. EndsLinesPlain (string_bytes text)) }
    ensures even { AreAdditiveTexts results → IfOk result (λ text. 0 < length (string_bytes text) →
        (columns : ℕ) × All (λ line. measure (shown_chars line) ≡ columns) (text_lines (string_bytes text))) }
{
    let table = Table::from_builder(results)?;
    let text = table.to_string();
    drop(table);
    text
}

/// The results of a night. Those of the layout begin in red, and nothing ends it.
pub(crate) fn nightly(alloc: Global) -> Result<Builder, AllocError> {
    let mut results = Builder::new(alloc);
    results.push_record(["suite", "outcome"])?;
    results.push_record(["parser", "\u{1b}[32m214 passed\u{1b}[0m"])?;
    results.push_record(["layout", "\u{1b}[31m2 failed"])?;
    Ok(results)
}
