//! What the arguments of the command line request.
ghost use Rattle.std.specs.Prelude.{◌≡◌, codes, map, option_map, string_bytes, Some, None, IfOk, IfErr, IsErr};
ghost use Rattle.clap.specs.Words.{first_value, found_of, kind_of};
ghost use Rattle.command_line.specs.Basinmug.Asking.{
  IsAnswer,
  IsRead,
  IsRunOf,
  IsTold,
  byte_named,
  columns_asked,
  delimiter_asked,
  delimiter_named,
  file_asked,
  list_asked,
  rows_asked,
  tail_for,
  width_asked,
  width_for,
  with_line_feed,
};
ghost use Rattle.command_line.specs.Options.Given.{is_set};
ghost use Rattle.basinmug_values.specs.Choices.{chosen_of};
ghost use Rattle.basinmug_values.specs.Lists.{seen_items};
ghost use Rattle.command_line.specs.Basinmug.Refusing.{IsOfList, IsValueFault, Refuses};

use crate::basinmug::command::command;
use crate::basinmug::fault::ValueFault;
use crate::basinmug::names::{escapes_named, line_style_named, priority_named, rules_named};
use basinmug_values::{Named, can_delimit, chosen_listed, listed};
use clap::error::ErrorKind;
use clap::{ArgMatches, Error};
use program_options::basinmug::{ColumnChoice, ColumnName, LineStyle, Options};
use program_options::color_list::column_of;
use std::alloc::{AllocError, Global};
use std::convert::AsStr;

/// What the arguments of a command line request.
#[derive(Debug, Drop)]
pub enum ReadWords {
    /// A table.
    Run(Plan),
    /// This text, the help or the version, which is for standard output.
    Help(String),
    /// An error: the command does not accept the arguments. This text, which is for standard error, says why. It ends
    /// in a line feed, and shows arguments as they are.
    BadWords(String),
    /// An error: a value is wrong. This text, which is for standard error, says why in one line without its end, and
    /// shows no argument.
    BadValue(String),
}

/// The settings of a run.
#[derive(Debug, Drop)]
pub struct Plan {
    /// The path of the file; none for standard input.
    pub file: Option<String>,
    /// The byte between fields; none where the program finds it.
    pub delimiter: Option<u8>,
    /// How many records below the header are read at most; none where all are.
    pub head: Option<usize>,
    /// How many of the last records are shown; none where no number is requested. Never given together with `head`.
    pub tail: Option<usize>,
    /// How wide the table may be.
    pub width: WidthAsked,
    /// Whether it has all columns, also where they don't fit.
    pub all_columns: bool,
    /// The options of the table; their width is none.
    pub options: Options,
}

/// How wide a table may be.
#[derive(Clone, Copy, Debug, PartialEq, Eq)]
pub enum WidthAsked {
    /// As wide as its text.
    None,
    /// So many columns.
    Columns(usize),
    /// What the environment says.
    Environment,
}

/// What the arguments request. The first is the program's name and is passed over. Fails only where
/// allocation fails.
pub fn read_words<S: AsStr>(alloc: Global, words: &[S]) -> Result<ReadWords, AllocError>
    ensures { IfOk result (IsAnswer (map S.text words.entry.now)) }
{
    match command(alloc)?.try_get_matches_from(words) {
        Ok(matches) => run_of(alloc, &matches),
        Err(error) => told(alloc, &error),
    }
}

// The table that is requested, by the values that the command gives, or what is wrong with them.
fn run_of(alloc: Global, matches: &ArgMatches<'_>) -> Result<ReadWords, AllocError>
    ensures { IfOk result (IsRunOf (first_value (found_of matches.now))) }
{
    match plan_of(alloc, matches) {
        Ok(plan) => Ok(ReadWords::Run(plan)),
        Err(ValueFault::Memory) => Err(AllocError),
        Err(fault) => Ok(ReadWords::BadValue(String::from_str(alloc, fault.text())?)),
    }
}

// The settings of a run by these values.
fn plan_of(alloc: Global, matches: &ArgMatches<'_>) -> Result<Plan, ValueFault>
    ensures read { IfOk result (IsRead (first_value (found_of matches.now))) }
    ensures refused { IfErr result (IsValueFault (first_value (found_of matches.now))) }
{
    let delimiter = delimiter(matches)?;
    let max_rows = rows(matches, "max-rows")?;
    let head = rows(matches, "head")?;
    let tail = tail_for(head, rows(matches, "tail")?)?;
    let line_style = line_style_named(matches.get_str("style"));
    let width = width_for(line_style, width(matches)?)?;
    let alignments = list_in(alloc, matches, "align", ValueFault::Alignment)?;
    let colors = list_in(alloc, matches, "color", ValueFault::Color)?;
    let columns = chosen_columns(alloc, matches)?;
    let file = file(alloc, matches)?;
    let options = Options {
        line_style,
        header: !is_set(matches, "no-header"),
        escapes: escapes_named(matches.get_str("escapes")),
        rules: rules_named(matches.get_str("rules")),
        width: None,
        truncate: is_set(matches, "truncate"),
        priority: priority_named(matches.get_str("priority")),
        columns,
        alignments,
        colors,
        expanded: is_set(matches, "expanded"),
        max_rows,
    };
    Ok(Plan {
        file,
        delimiter,
        head,
        tail,
        width,
        all_columns: is_set(matches, "all-columns"),
        options,
    })
}

// The path of the file that is requested.
fn file(alloc: Global, matches: &ArgMatches<'_>) -> Result<Option<String>, AllocError>
    ensures { IfOk result (λ file. option_map string_bytes file ≡ file_asked (first_value (found_of matches.now) (codes "file"))) }
{
    match matches.get_str("file") {
        Some("-") | None => Ok(None),
        Some(path) => Ok(Some(String::from_str(alloc, path)?)),
    }
}

// The byte between fields.
fn delimiter(matches: &ArgMatches<'_>) -> Result<Option<u8>, ValueFault>
    ensures { Refuses (delimiter_asked (first_value (found_of matches.now) (codes "delimiter"))) ValueFault.Delimiter result }
{
    match matches.get_str("delimiter") {
        None => Ok(None),
        Some("auto") => Ok(None),
        Some(text) => match delimiter_named(text) {
            Some(byte) => Ok(Some(byte)),
            None => Err(ValueFault::Delimiter),
        },
    }
}

// The byte that a text names.
fn delimiter_named(text: &str) -> Option<u8>
    ensures { result ≡ delimiter_named text.now }
{
    match text {
        "\\t" => Some(b'\t'),
        "tab" => Some(b'\t'),
        _ => byte_named(text),
    }
}

// The byte that a text is.
fn byte_named(text: &str) -> Option<u8>
    ensures { result ≡ byte_named text.now }
{
    match text.as_bytes() {
        [byte] if can_delimit(*byte) => Some(*byte),
        _ => None,
    }
}

// The number of records that the option of this id gives.
fn rows(matches: &ArgMatches<'_>, id: &str) -> Result<Option<usize>, ValueFault>
    ensures { Refuses (rows_asked (first_value (found_of matches.now) id.now)) ValueFault.Rows result }
{
    let Some(text) = matches.get_str(id) else {
        return Ok(None);
    };
    match column_of(text) {
        Some(rows) => Ok(Some(rows)),
        None => Err(ValueFault::Rows),
    }
}

// How many of the last records are requested, which is refused where the first are requested too.
fn tail_for(head: Option<usize>, tail: Option<usize>) -> Result<Option<usize>, ValueFault>
    ensures { Refuses (tail_for head tail) ValueFault.HeadAndTail result }
{
    match (head, tail) {
        (Some(_), Some(_)) => Err(ValueFault::HeadAndTail),
        _ => Ok(tail),
    }
}

// The width that is requested.
fn width(matches: &ArgMatches<'_>) -> Result<WidthAsked, ValueFault>
    ensures { Refuses (width_asked (first_value (found_of matches.now) (codes "width"))) ValueFault.Width result }
{
    match matches.get_str("width") {
        None => Ok(WidthAsked::Environment),
        Some("none") => Ok(WidthAsked::None),
        Some(text) => match column_of(text) {
            Some(width) => Ok(WidthAsked::Columns(width)),
            None => Err(ValueFault::Width),
        },
    }
}

// The width of a table of this style: one of Markdown has none.
fn width_for(line_style: LineStyle, asked: WidthAsked) -> Result<WidthAsked, ValueFault>
    ensures { Refuses (width_for line_style asked) ValueFault.MarkdownWidth result }
{
    match (line_style, asked) {
        (LineStyle::Markdown, WidthAsked::Columns(_)) => Err(ValueFault::MarkdownWidth),
        (LineStyle::Markdown, _) => Ok(WidthAsked::None),
        _ => Ok(asked),
    }
}

// The list of columns that is given.
fn list_in<T: Named + Drop>(
    alloc: Global,
    matches: &ArgMatches<'_>,
    id: &str,
    fault: ValueFault,
) -> Result<Vec<(ColumnName, T)>, ValueFault>
    ensures read { IfOk result (λ given. list_asked T.value_of (first_value (found_of matches.now) id.now) ≡ Some (seen_items given.items)) }
    ensures refused { IfErr result (IsOfList (list_asked T.value_of (first_value (found_of matches.now) id.now)) fault) }
{
    let Some(list) = matches.get_str(id) else {
        return Ok(Vec::new(alloc));
    };
    match listed(alloc, list)? {
        Some(given) => Ok(given),
        None => Err(fault),
    }
}

// The columns that are chosen.
fn chosen_columns(alloc: Global, matches: &ArgMatches<'_>) -> Result<Vec<ColumnChoice>, ValueFault>
    ensures read { IfOk result (λ given. columns_asked (first_value (found_of matches.now) (codes "columns")) ≡ Some (map chosen_of given.items)) }
    ensures refused { IfErr result (IsOfList (columns_asked (first_value (found_of matches.now) (codes "columns"))) ValueFault.Columns) }
{
    let Some(list) = matches.get_str("columns") else {
        return Ok(Vec::new(alloc));
    };
    match chosen_listed(alloc, list)? {
        Some(given) => Ok(given),
        None => Err(ValueFault::Columns),
    }
}

// Whether the flag of this id is set.
fn is_set(matches: &ArgMatches<'_>, id: &str) -> bool
    ensures { result ≡ is_set (first_value (found_of matches.now) id.now) }
{
    match matches.get_str(id) {
        Some(text) => text == "true",
        None => false,
    }
}

// Why the command gives no values, as a text for the user.
fn told(alloc: Global, error: &Error) -> Result<ReadWords, AllocError>
    ensures text { IfOk result (IsTold (kind_of error.now)) }
    ensures memory { kind_of error.now ≡ ErrorKind.OutOfMemory → IsErr result }
{
    match error.kind() {
        ErrorKind::OutOfMemory => Err(AllocError),
        ErrorKind::DisplayHelp | ErrorKind::DisplayVersion => {
            Ok(ReadWords::Help(error.to_string(alloc)?))
        }
        _ => Ok(ReadWords::BadWords(with_line_feed(error.to_string(alloc)?)?)),
    }
}

// A text with a line feed at its end, which is added where there is none.
fn with_line_feed(text: String) -> Result<String, AllocError>
    ensures { IfOk result (λ out. string_bytes out ≡ with_line_feed (string_bytes text)) }
{
    let mut out = text;
    if out.as_bytes().last() != Some(&b'\n') {
        out.push('\n')?;
    }
    Ok(out)
}
