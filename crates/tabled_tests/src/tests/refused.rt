//! A refused setting leaves what those before it made of the table. `tests/memory` runs these tests with each
//! request for memory refused in turn, and a refusal is passed on. The tests themselves make no request after it.
use super::{let_go, spaced, three, wrap};
use grid_config::{Entity, Fault, Position};
use grid_records_traits::records::PeekableRecords;
use std::process::Abort;
use tabled::{Amount, Setting, Table};

const CELL: Position = Position { row: 0, col: 0 };

// The text of a table of one cell, and the width that is kept.
type State = (&'static str, Option<&'static [usize]>);

// What the table is after none of the settings, after the first, and so on.
const WRAPPED: &[State] = &[("Hello", None), ("Hel\nlo", Some(&[5]))];

const FILLED: &[State] = &[
    ("Hello", None),
    ("Hello..", None),
    ("Hello..", Some(&[12])),
    ("Hello..\n", None),
];

// Whether the table is in this state, with no height that is kept and without a margin.
fn is_in(table: &Table, state: &State) -> bool {
    let (text, widths) = *state;
    let sizes = table.get_dimension();
    let margin = table.get_config().spanned().get_margin();
    table.get_records().get_text(CELL) == text
        && sizes.get_widths() == widths
        && sizes.get_heights() == None
        && margin.left.size == 0
}

// Runs a list of three, and looks for the state that goes with the settings that were taken. A refusal for
// memory is passed on.
fn run(
    rt: &impl Abort,
    table: &mut Table,
    settings: &[Setting],
    states: &[State],
) -> Result<(), Fault> {
    let (taken, outcome) = match table.with_list(settings) {
        Ok(()) => (3, Ok(())),
        Err((index, fault)) => (index, Err(fault)),
    };
    let is_wanted = states.get(taken).is_some_and(|state| is_in(table, state));
    assert!(rt; is_wanted, "the table after {taken} settings");
    outcome
}

#[test]
fn leaves_a_wrapped_text(rt: HostRuntime) -> Result<(), Fault> {
    let (span, margin) = (
        Setting::ColumnSpan(CELL, 0),
        Setting::Margin(spaced(1, 1, 1, 1)),
    );
    let settings = three(rt.alloc(), wrap(7), span, margin)?;
    let mut table = Table::nohead(rt.alloc(), ["Hello"])?;
    let outcome = run(&rt, &mut table, &settings, WRAPPED);
    let_go(table);
    match outcome {
        Err(Fault::Spans) => Ok(()),
        other => other,
    }
}

#[test]
fn leaves_a_filled_text(rt: HostRuntime) -> Result<(), Fault> {
    let (at, fill) = (Entity::Global, '.');
    let (width, height) = (Amount::Exact(7), Amount::Exact(2));
    let filled = Setting::CellMinWidth { at, width, fill };
    let wide = Setting::WidthList(Vec::from_slice(rt.alloc(), &[12])?);
    let high = Setting::CellHeightIncrease { at, height };
    let settings = three(rt.alloc(), filled, wide, high)?;
    let mut table = Table::nohead(rt.alloc(), ["Hello"])?;
    let outcome = run(&rt, &mut table, &settings, FILLED);
    let_go(table);
    outcome
}
