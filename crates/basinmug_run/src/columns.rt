//! Rows of chosen columns, and what is requested of these.
ghost use Rattle.std.specs.Prelude.{◌≡◌, ◌++◌, ◌+◌, ◌-◌, ℕ, [], IfErr, IfOk, OnOk, Some, map, option_map};
ghost use Rattle.basinmug_columns.specs.Names.{number_of};
ghost use Rattle.basinmug_columns.specs.Shown.{numbered};
ghost use Rattle.basinmug_cells.specs.Views.{view_rows};
ghost use Rattle.basinmug_run.specs.Columns.{
  AreOfValues,
  are_none,
  asked_at,
  chosen_columns,
  columns_in,
  ends_of,
  given_for,
  last_for,
  missing_choice,
  missing_choices,
  missing_of_columns,
  missing_name,
  number_if_shown,
  number_in,
  past_last,
  placed,
  value_at,
  value_in,
  with_columns,
};
ghost use Rattle.basinmug_run.specs.Picture.Names.{IsFirstMissing, missing_by, text_if_missing};

use crate::options::Options;
use crate::picture::{PrintFault, header_of};
use basinmug_cells::{Rows, RowsView};
use basinmug_columns::{NamedColumns, ShownColumn, push_numbers};
use grid_config::ANSIBuf;
use grid_config_values::{AlignmentHorizontal, CloneIn};
use program_options::basinmug::{ColumnChoice, ColumnName};
use std::alloc::{AllocError, Global};
use std::collections::HashMap;

/// Whether no columns are chosen, so that all are shown.
pub(crate) fn chooses_none(options: &Options) -> bool
    ensures { result ≡ are_none options.now.columns.items }
{
    options.columns.is_empty()
}

/// The number of a named column; only a text may have none. Refused as `NoColumn` where it has none.
pub(crate) fn named_number(
    alloc: Global,
    named: &NamedColumns,
    name: &ColumnName,
) -> Result<usize, PrintFault>
    ensures number { IfOk result (λ number. number_of named.now name.now ≡ Some number) }
    ensures named { OnOk result (text_if_missing (number_of named.now name.now) name.now ≡ []) }
    ensures refused { IfErr result (IsFirstMissing (text_if_missing (number_of named.now name.now) name.now)) }
{
    match name {
        ColumnName::Number(number) => Ok(*number),
        ColumnName::Header(text) => match named.number(name) {
            Some(number) => Ok(number),
            None => Err(PrintFault::NoColumn(String::from_str(alloc, text.as_str())?)),
        },
    }
}

/// The columns that names denote.
#[derive(Drop)]
pub(crate) struct Named<'a> {
    /// The columns that are chosen, in turn.
    pub columns: Vec<ShownColumn>,
    /// Where the texts of columns are, by number.
    pub alignments: HashMap<usize, &'a AlignmentHorizontal>,
    /// The colours of columns, by number.
    pub colors: HashMap<usize, &'a ANSIBuf>,
}

/// The columns that the names in the options denote, of rows of which the first is the header where the options say
/// so, and of so many columns. Refused as `NoColumn` with the first name that the rows do not have, and as `Memory` where
/// allocation fails.
pub(crate) fn named_in<'a>(
    alloc: Global,
    rows: RowsView<'_>,
    count: usize,
    options: &'a Options,
) -> Result<Named<'a>, PrintFault>
    ensures columns { IfOk result (λ it. it.columns.items ≡ columns_in options.now (view_rows rows.entry)) }
    ensures alignments { IfOk result (λ it. (column : ℕ) → value_in it.alignments column ≡ last_for (given_for (number_in options.now (view_rows rows.entry)) options.now.alignments.items) column) }
    ensures colors { IfOk result (λ it. (column : ℕ) → value_in it.colors column ≡ last_for (given_for (number_in options.now (view_rows rows.entry)) options.now.colors.items) column) }
    ensures named { OnOk result (missing_of_columns options.now count (view_rows rows.entry) ≡ []) }
    ensures refused { IfErr result (IsFirstMissing (missing_of_columns options.now count (view_rows rows.entry))) }
{
    let header = header_of(options.header, rows);
    let named = NamedColumns::new(alloc, header)?;
    let columns = chosen_columns(alloc, &named, count, &options.columns)?;
    let alignments = last_of(alloc, &named, &options.alignments)?;
    let colors = last_of(alloc, &named, &options.colors)?;
    Ok(Named {
        columns,
        alignments,
        colors,
    })
}

// The columns that are chosen, in turn.
fn chosen_columns(
    alloc: Global,
    named: &NamedColumns,
    count: usize,
    choices: &[ColumnChoice],
) -> Result<Vec<ShownColumn>, PrintFault>
    ensures columns { IfOk result (λ columns. columns.items ≡ chosen_columns (number_of named.now) choices.now) }
    ensures named { OnOk result (missing_choices (number_of named.now) count choices.now ≡ []) }
    ensures refused { IfErr result (IsFirstMissing (missing_choices (number_of named.now) count choices.now)) }
{
    let mut columns = Vec::new(alloc);
    for choice in choices {
        let (first, last) = ends_of(alloc, named, count, choice)?;
        push_through(&mut columns, first, last)?;
    }
    Ok(columns)
}

// The first and the last column of a choice, of so many columns.
fn ends_of(
    alloc: Global,
    named: &NamedColumns,
    count: usize,
    choice: &ColumnChoice,
) -> Result<(usize, usize), PrintFault>
    ensures ends { IfOk result (λ ends. ends_of (number_of named.now) choice.now ≡ Some ends) }
    ensures named { OnOk result (missing_choice (number_of named.now) count choice.now ≡ []) }
    ensures refused { IfErr result (IsFirstMissing (missing_choice (number_of named.now) count choice.now)) }
{
    match choice {
        ColumnChoice::One(name) => {
            let number = one_of(alloc, named, count, name)?;
            Ok((number, number))
        }
        ColumnChoice::Range { first, last } => {
            refuse_past(alloc, count, *last)?;
            Ok((*first, *last))
        }
    }
}

// The number of a named column, of so many columns.
fn one_of(
    alloc: Global,
    named: &NamedColumns,
    count: usize,
    name: &ColumnName,
) -> Result<usize, PrintFault>
    ensures number { IfOk result (λ number. number_of named.now name.now ≡ Some number) }
    ensures named { OnOk result (missing_name (number_of named.now) count name.now ≡ []) }
    ensures refused { IfErr result (IsFirstMissing (missing_name (number_of named.now) count name.now)) }
{
    if let ColumnName::Number(number) = name {
        refuse_past(alloc, count, *number)?;
    }
    named_number(alloc, named, name)
}

// Refuses a number that is past the last of so many columns.
fn refuse_past(alloc: Global, count: usize, number: usize) -> Result<(), PrintFault>
    ensures named { OnOk result (past_last count number ≡ []) }
    ensures refused { IfErr result (IsFirstMissing (past_last count number)) }
{
    if number < count {
        return Ok(());
    }
    let name = format!(in alloc; "{number}")?;
    Err(PrintFault::NoColumn(name))
}

// The columns from one number to another, both of them too.
fn push_through(columns: &mut Vec<ShownColumn>, first: usize, last: usize) -> Result<(), AllocError>
    ensures { OnOk result (columns.new.items ≡ columns.old.items ++ numbered first (last + 1 - first)) }
{
    if first <= last {
        push_numbers(columns, first, last - first)?;
        columns.push(ShownColumn::Number(last))?;
    }
    Ok(())
}

// What is requested of named columns, by their numbers: of several values of one column the last.
fn last_of<'a, T>(
    alloc: Global,
    named: &NamedColumns,
    pairs: &'a [(ColumnName, T)],
) -> Result<HashMap<usize, &'a T>, PrintFault>
    ensures last { IfOk result (λ last. (column : ℕ) → value_in last column ≡ last_for (given_for (number_of named.now) pairs.now) column) }
    ensures named { OnOk result (missing_by (number_of named.now) pairs.now ≡ []) }
    ensures refused { IfErr result (IsFirstMissing (missing_by (number_of named.now) pairs.now)) }
{
    let mut last = HashMap::new(alloc);
    for (name, value) in pairs {
        let number = named_number(alloc, named, name)?;
        last.insert(number, value)?;
    }
    Ok(last)
}

// What is requested of these columns of the input, by their places among these.
fn placed<T: CloneIn>(
    alloc: Global,
    shown: &[ShownColumn],
    values: &HashMap<usize, &T>,
) -> Result<Vec<(ColumnName, T)>, AllocError>
    ensures { IfOk result (λ asked. asked.items ≡ placed shown.now (value_in values.now)) }
{
    let mut asked = Vec::new(alloc);
    for place in 0..shown.len() {
        let value = value_at(values, shown[place]);
        push_asked(alloc, &mut asked, place, value)?;
    }
    Ok(asked)
}

// What is requested of a column of the input, if there is something.
fn value_at<'a, T>(values: &HashMap<usize, &'a T>, column: ShownColumn) -> Option<&'a T>
    ensures { option_map (λ value. value.now) result ≡ value_at (value_in values.now) column }
{
    match column {
        ShownColumn::Number(number) => values.get(&number).copied(),
        ShownColumn::LeftOut => None,
    }
}

// A value that is requested of the column at a place, if there is one.
fn push_asked<T: CloneIn>(
    alloc: Global,
    asked: &mut Vec<(ColumnName, T)>,
    place: usize,
    value: Option<&T>,
) -> Result<(), AllocError>
    ensures { OnOk result (asked.new.items ≡ asked.old.items ++ asked_at place (option_map (λ value. value.now) value.entry)) }
{
    if let Some(value) = value {
        asked.push((ColumnName::Number(place), value.clone_in(alloc)?))?;
    }
    Ok(())
}

/// These columns of rows: those that a row lacks are empty, and an ellipsis is in place of those that are left out.
/// Fails only where allocation fails.
pub(crate) fn with_columns<'a>(
    alloc: Global,
    rows: Rows<'a>,
    shown: &[ShownColumn],
) -> Result<Rows<'a>, AllocError>
    ensures { IfOk result (λ chosen. chosen.rows ≡ with_columns shown.now rows.entry.rows) }
{
    let columns = numbers_of(alloc, shown)?;
    rows.select(alloc, &columns, "…")
}

// The number of each column that is shown, and none for those that are left out.
fn numbers_of(alloc: Global, shown: &[ShownColumn]) -> Result<Vec<Option<usize>>, AllocError>
    ensures { IfOk result (λ numbers. numbers.items ≡ map number_if_shown shown.now) }
{
    let mut numbers = Vec::with_capacity(alloc, shown.len())?;
    for column in shown {
        numbers.push(number_if_shown(*column))?;
    }
    Ok(numbers)
}

// The number of a column that is shown.
fn number_if_shown(column: ShownColumn) -> Option<usize>
    ensures { result ≡ number_if_shown column }
{
    match column {
        ShownColumn::Number(number) => Some(number),
        ShownColumn::LeftOut => None,
    }
}

/// What is requested of the table of these columns: the same, but of its own columns. Fails only where allocation fails.
pub(crate) fn own_options(
    alloc: Global,
    options: &Options,
    named: &Named<'_>,
    shown: &[ShownColumn],
) -> Result<Options, AllocError>
    ensures { IfOk result (λ own. AreOfValues options.now shown.now (value_in named.now.alignments) (value_in named.now.colors) own) }
{
    let alignments = placed(alloc, shown, &named.alignments)?;
    let colors = placed(alloc, shown, &named.colors)?;
    Ok(Options {
        line_style: options.line_style,
        header: options.header,
        escapes: options.escapes,
        rules: options.rules,
        width: options.width,
        truncate: options.truncate,
        priority: options.priority,
        columns: Vec::new(alloc),
        columns_shown: options.columns_shown,
        alignments,
        colors,
        expanded: options.expanded,
        max_rows: options.max_rows,
        tail: options.tail,
    })
}
