//! What tables print after lists of settings, and which settings are refused.
use super::{MEMORY, alone, expect, expect_text, let_go, outcome, spaced, three, wrap};
use grid_config::{Entity, Fault, Position};
use std::alloc::Global;
use std::process::Abort;
use tabled::{Amount, Setting, Table};
use tabled_size_priority::Choice;

// That a table prints this.
fn prints(rt: &impl Abort, table: Table, wanted: &str) {
    let picture = table.to_string();
    let_go(table);
    let text = picture.expect(rt, "no picture is made");
    expect_text(rt, text.as_str(), wanted);
}

// A table of one cell.
fn begun(rt: &impl Abort, alloc: Global, text: &str) -> Table {
    Table::nohead(alloc, [text]).expect(rt, "no table is made")
}

// The table after a list that is taken.
fn after(rt: &impl Abort, alloc: Global, text: &str, settings: &[Setting]) -> Table {
    let mut table = begun(rt, alloc, text);
    let done = outcome(table.with_list(settings));
    done.expect(rt, "a setting is refused");
    table
}

// That one setting is taken on a table of one cell with this text, which then prints this.
fn shows(rt: &impl Abort, alloc: Global, text: &str, setting: Setting, wanted: &str) {
    let settings = alone(alloc, setting).expect(rt, MEMORY);
    prints(rt, after(rt, alloc, text, &settings), wanted);
}

fn grown(width: usize) -> Setting {
    Setting::MinWidth {
        width: Amount::Exact(width),
        priority: Choice::None,
    }
}

fn expect_refusal(rt: &impl Abort, found: Option<(usize, Fault)>, wanted: (usize, Fault)) {
    assert_eq!(rt; found, Some(wanted));
}

// That a list on a table of one cell is refused there, and the table then prints this.
fn refused(
    rt: &impl Abort,
    alloc: Global,
    settings: &[Setting],
    refusal: (usize, Fault),
    wanted: &str,
) {
    let mut table = begun(rt, alloc, "Hello");
    let found = table.with_list(settings).err();
    prints(rt, table, wanted);
    expect_refusal(rt, found, refusal);
}

const BEFORE: &str = "+-------+\n| Hello |\n+-------+";

#[test]
fn an_empty_list_changes_nothing(rt: HostRuntime) {
    let none = Vec::new(rt.alloc());
    let table = after(&rt, rt.alloc(), "Hello", &none);
    prints(&rt, table, BEFORE);
}

fn show_heights(rt: &impl Abort, a: Global) {
    let (height, priority) = (Amount::Exact(4), Choice::None);
    let higher = Setting::HeightIncrease { height, priority };
    shows(rt, a, "a", higher, "+---+\n| a |\n|   |\n+---+");
    let height = Amount::Exact(3);
    let lower = Setting::HeightLimit { height, priority };
    shows(rt, a, "a\nb", lower, "+---+\n| a |\n+---+");
}

// A list of one size.
fn size(rt: &impl Abort, alloc: Global, size: usize) -> Vec<usize> {
    Vec::from_slice(alloc, &[size]).expect(rt, MEMORY)
}

fn show_lists_of_sizes(rt: &impl Abort, a: Global) {
    let flat = Setting::HeightList(size(rt, a, 0));
    shows(rt, a, "a", flat, "+---+\n+---+");
    let wide = Setting::WidthList(size(rt, a, 5));
    shows(rt, a, "a", wide, "+-----+\n| a   |\n+-----+");
}

fn show_paddings_and_widths(rt: &impl Abort, a: Global) {
    let padded = Setting::Padding(Entity::Cell(0, 0), spaced(1, 1, 1, 0));
    shows(rt, a, "a", padded, "+---+\n|   |\n| a |\n+---+");
    shows(rt, a, "ab", wrap(6), "+----+\n| ab |\n+----+");
    shows(rt, a, "ab", wrap(100), "+----+\n| ab |\n+----+");
}

#[test]
fn settings_are_printed(rt: HostRuntime) {
    show_heights(&rt, rt.alloc());
    show_lists_of_sizes(&rt, rt.alloc());
    show_paddings_and_widths(&rt, rt.alloc());
}

#[test]
fn a_text_without_room_is_not_printed(rt: HostRuntime) {
    let narrow = Setting::WidthList(size(&rt, rt.alloc(), 2));
    let settings = alone(rt.alloc(), narrow).expect(&rt, MEMORY);
    let table = after(&rt, rt.alloc(), "Hello", &settings);
    let picture = table.to_string();
    let_go(table);
    let room = Fault::Room { row: 0, column: 0 };
    let is_refused = matches!(picture, Err(fault) if fault == room);
    expect(&rt, is_refused, "a text without room");
}

// A refused setting leaves what those before it made, and none after it is tried.
fn refuse_the_second(rt: &impl Abort, a: Global) {
    let span = Setting::ColumnSpan(Position::new(0, 0), 0);
    let margin = Setting::Margin(spaced(1, 1, 1, 1));
    let settings = three(a, wrap(7), span, margin).expect(rt, MEMORY);
    let wanted = "+-----+\n| Hel |\n| lo  |\n+-----+";
    refused(rt, a, &settings, (1, Fault::Spans), wanted);
}

// That a setting alone is refused, and changes nothing.
fn refuse(rt: &impl Abort, alloc: Global, setting: Setting, fault: Fault) {
    let settings = alone(alloc, setting).expect(rt, MEMORY);
    refused(rt, alloc, &settings, (0, fault), BEFORE);
}

// What is past the range, or past memory.
fn refuse_sizes(rt: &impl Abort, a: Global) {
    let (at, height) = (Entity::Global, Amount::Percent(usize::MAX));
    let percent = Setting::CellHeightLimit { at, height };
    refuse(rt, a, percent, Fault::Range);
    let (width, fill) = (Amount::Exact(usize::MAX), '😳');
    let filled = Setting::CellMinWidth { at, width, fill };
    refuse(rt, a, filled, Fault::Memory);
    let lines = Setting::CellHeightIncrease { at, height: width };
    refuse(rt, a, lines, Fault::Memory);
}

#[test]
fn a_list_ends_at_its_first_refusal(rt: HostRuntime) {
    refuse_the_second(&rt, rt.alloc());
    let span = Setting::RowSpan(Position::new(0, 0), 0);
    refuse(&rt, rt.alloc(), span, Fault::Spans);
    refuse_sizes(&rt, rt.alloc());
}

const GREETING: &str =
    "+-----+\n| &st |\n| r   |\n+-----+\n| Hel |\n| lo  |\n| Wor |\n| ld! |\n+-----+";

// Wrapped at seven columns, and grown to as many.
fn greeting(rt: &impl Abort, alloc: Global) -> Table {
    let mut settings = alone(alloc, wrap(7)).expect(rt, MEMORY);
    settings.push(grown(7)).expect(rt, MEMORY);
    let table = Table::new(alloc, ["Hello World!"]);
    let mut table = table.expect(rt, "no table is made");
    let done = outcome(table.with_list(&settings));
    done.expect(rt, "a setting is refused");
    table
}

#[test]
fn a_table_is_wrapped_and_grown(rt: HostRuntime) {
    let table = greeting(&rt, rt.alloc());
    expect(&rt, table.total_width() == Ok(7), "the width");
    expect(&rt, table.total_height() == Ok(9), "the height");
    prints(&rt, table, GREETING);
}
