//! The rows that are shown, of all that there are.
ghost use Rattle.std.specs.Prelude.{◌≡◌, ◌≤◌, length};
ghost use Rattle.basinmug_input.specs.Kept.{kept_rows};
ghost use Rattle.basinmug_run.specs.Kept.{choice_of, first_rows, kept_of, kept_read, kept_view, shown_between, shown_by};

use crate::options::Options;
use crate::picture::header_rows;
use basinmug_cells::{Rows, longest};
use basinmug_columns::RowsShown;
use basinmug_input::{ReadRows, RowChoice};

/// The rows that are shown, and what is known of all.
#[derive(Drop)]
pub(crate) struct KeptRows<'a> {
    /// The rows that are shown, in their order.
    pub rows: Rows<'a>,
    /// Which of all these are, and how many are left out.
    pub shown: RowsShown,
    /// How many fields the longest of all rows has.
    pub columns: usize,
}

/// Which rows are shown, of which the first is the header where the options say so.
pub(crate) fn choice_of(options: &Options) -> RowChoice
    ensures { result ≡ choice_of options.now }
{
    let header = options.header;
    match (options.max_rows, options.tail) {
        (None, None) => RowChoice::All,
        (Some(most), None) => RowChoice::Ends {
            first: first_rows(header, most),
            last: 0,
        },
        (None, Some(last)) => RowChoice::Ends {
            first: header_rows(header),
            last,
        },
        (Some(most), Some(last)) => RowChoice::Ends {
            first: first_rows(header, most),
            last,
        },
    }
}

// How many rows the header and so many records are.
fn first_rows(header: bool, most: usize) -> usize
    ensures { result ≡ first_rows header most }
{
    most.saturating_add(header_rows(header))
}

// What is shown where so many rows are left out.
fn shown_by(options: &Options, left_out: usize) -> RowsShown
    ensures { result ≡ shown_by options.now.max_rows options.now.tail left_out }
{
    match (options.max_rows, options.tail) {
        (None, None) => RowsShown::All,
        (Some(_), None) => RowsShown::More(left_out),
        (None, Some(_)) => RowsShown::Earlier(left_out),
        (Some(most), Some(_)) => shown_between(most, left_out),
    }
}

// What is shown where so many rows are left out after the first records.
fn shown_between(first: usize, left_out: usize) -> RowsShown
    ensures { result ≡ shown_between first left_out }
{
    if left_out == 0 {
        RowsShown::All
    } else {
        RowsShown::Between { first, left_out }
    }
}

/// What is shown of rows that are read by the choice of the options.
pub(crate) fn kept_read<'a>(read: ReadRows<'a>, options: &Options) -> KeptRows<'a>
    ensures { kept_view result ≡ kept_read options.now read.entry.rows.rows read.entry.left_out read.entry.columns }
{
    let ReadRows {
        rows,
        left_out,
        columns,
        ..
    } = read;
    let shown = shown_by(options, left_out);
    KeptRows {
        rows,
        shown,
        columns,
    }
}

/// What is shown of rows.
pub(crate) fn kept_of<'a>(rows: Rows<'a>, options: &Options) -> KeptRows<'a>
    ensures { kept_view result ≡ kept_of options.now rows.entry.rows }
{
    let columns = longest(rows.view());
    let count = rows.len();
    let choice = choice_of(options);
    let kept = cut_rows(rows, choice);
    let left_out = count - kept.len();
    let shown = shown_by(options, left_out);
    KeptRows {
        rows: kept,
        shown,
        columns,
    }
}

// The rows that are kept of these.
fn cut_rows<'a>(rows: Rows<'a>, choice: RowChoice) -> Rows<'a>
    ensures rows { result.rows ≡ kept_rows choice rows.entry.rows }
    ensures fewer { length result.rows ≤ length rows.entry.rows }
{
    match choice {
        RowChoice::All => rows,
        RowChoice::Ends { first, last } => {
            let mut kept = rows;
            kept.keep_ends(first, last);
            kept
        }
    }
}
