//! The columns that a table has: all, those that are chosen, or those of them that fit.
ghost use Rattle.std.specs.Prelude.{◌≡◌, IfOk, [], Some, length};
ghost use Rattle.std.specs.List.{count_by};
ghost use Rattle.basinmug_cells.specs.Views.{view_rows};
ghost use Rattle.basinmug_run.specs.Columns.{columns_of_table, fitting_of, fitting_width, is_lined, is_of_input, shows_whole_rows, wanted_columns};
ghost use Rattle.basinmug_run.specs.Picture.Known.{AreKnown};

use crate::columns::chooses_none;
use crate::options::{ColumnsShown, Options};
use crate::picture::{ColumnFacts, known_or_found, narrowed_to};
use basinmug_cells::{RowsView, longest};
use basinmug_columns::{ShownColumn, columns_that_fit, push_numbers};
use program_options::basinmug::LineStyle;
use std::alloc::{AllocError, Global};

/// The columns that a table has.
#[derive(Drop)]
pub(crate) struct TableColumns {
    /// The columns, and the mark of those that are left out.
    pub shown: Vec<ShownColumn>,
    /// How many columns there are with those that are left out.
    pub all: usize,
    /// What is known of the columns of the rows.
    pub facts: Option<ColumnFacts>,
}

/// Whether all columns of rows are shown as they are, and what is known of them.
#[derive(Drop)]
pub(crate) struct WholeRows {
    pub are_shown: bool,
    pub facts: Option<ColumnFacts>,
}

// The columns that fit, and what is known of the columns of the rows.
#[derive(Drop)]
struct FittingColumns {
    shown: Vec<ShownColumn>,
    facts: Option<ColumnFacts>,
}

impl TableColumns {
    /// How many columns there are without those that are left out.
    pub(crate) fn count(&self) -> usize
        ensures { result ≡ count_by is_of_input self.now.shown.items }
    {
        let shown = self.shown.as_slice();
        count_of_input(shown)
    }
}

/// The columns that the table of rows has, where these are chosen. What is known of the columns of the rows is not
/// found again. Fails only where allocation fails.
pub(crate) fn columns_of_table(
    alloc: Global,
    rows: RowsView<'_>,
    options: &Options,
    chosen: &[ShownColumn],
    known: Option<ColumnFacts>,
) -> Result<TableColumns, AllocError>
    requires { AreKnown options.now.header (view_rows rows) known }
    ensures shown { IfOk result (λ it. it.shown.items ≡ columns_of_table options.now (view_rows rows.entry) chosen.now) }
    ensures all { IfOk result (λ it. it.all ≡ length (wanted_columns options.now (view_rows rows.entry) chosen.now)) }
    ensures known { IfOk result (λ it. AreKnown options.now.header (view_rows rows.entry) it.facts) }
{
    let wanted = wanted_columns(alloc, rows, options, chosen)?;
    let all = wanted.len();
    let fitting = fitting_columns(alloc, rows, options, wanted, known)?;
    let FittingColumns { shown, facts } = fitting;
    Ok(TableColumns { shown, all, facts })
}

/// Whether all columns of rows are shown as they are: none are chosen, and none is left out. Fails only where allocation
/// fails.
pub(crate) fn whole_rows(
    alloc: Global,
    rows: RowsView<'_>,
    options: &Options,
) -> Result<WholeRows, AllocError>
    ensures whole { IfOk result (λ whole. whole.are_shown ≡ shows_whole_rows options.now (view_rows rows.entry)) }
    ensures known { IfOk result (λ whole. AreKnown options.now.header (view_rows rows.entry) whole.facts) }
{
    let none = chooses_none(options);
    if !none {
        return Ok(WholeRows {
            are_shown: false,
            facts: None,
        });
    }
    let columns = columns_of_table(alloc, rows, options, &[], None)?;
    let count = columns.count();
    let TableColumns { all, facts, .. } = columns;
    Ok(WholeRows {
        are_shown: count == all,
        facts,
    })
}

// The columns that a table may have: those of its rows, or those that are chosen.
fn wanted_columns(
    alloc: Global,
    rows: RowsView<'_>,
    options: &Options,
    chosen: &[ShownColumn],
) -> Result<Vec<ShownColumn>, AllocError>
    ensures { IfOk result (λ columns. columns.items ≡ wanted_columns options.now (view_rows rows.entry) chosen.now) }
{
    let none = chooses_none(options);
    if !none {
        let columns = Vec::from_slice(alloc, chosen)?;
        return Ok(columns);
    }
    let mut columns = Vec::new(alloc);
    push_numbers(&mut columns, 0, longest(rows))?;
    Ok(columns)
}

// Those of some columns that fit, by what they need in these rows.
fn fitting_columns(
    alloc: Global,
    rows: RowsView<'_>,
    options: &Options,
    columns: Vec<ShownColumn>,
    known: Option<ColumnFacts>,
) -> Result<FittingColumns, AllocError>
    requires { AreKnown options.now.header (view_rows rows) known }
    ensures shown { IfOk result (λ it. it.shown.items ≡ fitting_of options.now (view_rows rows.entry) (fitting_width options.now) columns.items) }
    ensures known { IfOk result (λ it. AreKnown options.now.header (view_rows rows.entry) it.facts) }
{
    match fitting_width(options) {
        None => Ok(FittingColumns {
            shown: columns,
            facts: known,
        }),
        Some(width) => {
            let wanted = columns.as_slice();
            fitting_in(alloc, rows, options, wanted, known, width)
        }
    }
}

// Those of some columns that fit in a width.
fn fitting_in(
    alloc: Global,
    rows: RowsView<'_>,
    options: &Options,
    columns: &[ShownColumn],
    known: Option<ColumnFacts>,
    width: usize,
) -> Result<FittingColumns, AllocError>
    requires { AreKnown options.now.header (view_rows rows) known }
    ensures shown { IfOk result (λ it. it.shown.items ≡ fitting_of options.now (view_rows rows.entry) (Some width) columns.now) }
    ensures known { IfOk result (λ it. AreKnown options.now.header (view_rows rows.entry) it.facts) }
{
    let facts = known_or_found(alloc, options.header, rows, known)?;
    let lined = is_lined(options.line_style);
    let needs = facts.needs.as_slice();
    let shown = columns_that_fit(alloc, columns, needs, lined, width)?;
    Ok(FittingColumns {
        shown,
        facts: Some(facts),
    })
}

// The width in which columns are to fit.
fn fitting_width(options: &Options) -> Option<usize>
    ensures { result ≡ fitting_width options.now }
{
    match options.columns_shown {
        ColumnsShown::Fitting => narrowed_to(options),
        ColumnsShown::All => None,
    }
}

// Whether a style has lines between columns.
fn is_lined(line_style: LineStyle) -> bool
    ensures { result ≡ is_lined line_style }
{
    match line_style {
        LineStyle::Empty => false,
        LineStyle::Ascii
        | LineStyle::Modern
        | LineStyle::Rounded
        | LineStyle::Extended
        | LineStyle::Markdown => true,
    }
}

// How many of columns are of the input.
fn count_of_input(columns: &[ShownColumn]) -> usize
    ensures { result ≡ count_by is_of_input columns.now }
{
    let mut count = 0;
    for column in columns {
        if is_of_input(*column) {
            count += 1;
        }
    }
    count
}

// Whether a column is one of the input.
fn is_of_input(column: ShownColumn) -> bool
    ensures { result ≡ is_of_input column }
{
    match column {
        ShownColumn::Number(_) => true,
        ShownColumn::LeftOut => false,
    }
}
