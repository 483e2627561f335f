//! The columns that names, values and rules have.
ghost use Rattle.std.specs.Prelude.{◌≡◌, IfOk, map, string_bytes};
ghost use Rattle.basinmug_expanded.specs.Columns.{columns_of, columns_of_names, columns_of_rule, columns_of_values, columns_view, head_of, last_number, record_number, widest, widest_value};

use crate::form::Form;
use crate::values::width_at;
use basinmug_cells::{CellRow, CellRows};
use basinmug_columns::RowsShown;
use std::alloc::{AllocError, Global};

/// The columns of the rules where no width is given.
const USUAL_WIDTH: usize = 80;

/// The columns of the names, of the values and of a rule.
#[derive(Clone, Copy)]
pub(crate) struct Columns {
    pub names: usize,
    pub values: usize,
    pub rule: usize,
    /// Whether values are cut, or else wrapped.
    pub truncate: bool,
}

/// The columns of records whose fields have these names: one pass over the names and the records. Fails only where
/// allocation fails.
pub(crate) fn columns_of<R: CellRows>(
    alloc: Global,
    form: &Form,
    names: &[String],
    records: R,
) -> Result<Columns, AllocError>
    ensures { IfOk result (λ columns. columns_view columns ≡ columns_of form.now (map string_bytes names.now) (R.rows records)) }
{
    let of_names = columns_of_names(form.width, widest(names));
    let asked = widest_value(records);
    let head = head_of(alloc, last_number(form.rows_shown, records.len()))?;
    Ok(Columns {
        names: of_names,
        values: columns_of_values(form.width, of_names, asked),
        rule: columns_of_rule(form.width, of_names, asked, head.len()),
        truncate: form.truncate,
    })
}

/// The head of the rule of the record with this number. Fails only where allocation fails.
pub(crate) fn head_of(alloc: Global, number: usize) -> Result<String, AllocError>
    ensures { IfOk result (λ head. string_bytes head ≡ head_of number) }
{
    format!(in alloc; "-[ RECORD {number} ]")
}

// The number of the last of so many records that are shown.
fn last_number(shown: RowsShown, count: usize) -> usize
    ensures { result ≡ last_number shown count }
{
    let last = count.saturating_sub(1);
    match shown {
        RowsShown::All | RowsShown::More(_) => last,
        RowsShown::Earlier(earlier) => record_number(earlier, last),
        RowsShown::Between { first, .. } if count <= first => last,
        RowsShown::Between { left_out, .. } => record_number(left_out, last),
    }
}

/// The number of the record at this place of records that have numbers from one on.
pub(crate) fn record_number(from: usize, place: usize) -> usize
    ensures { result ≡ record_number from place }
{
    from.saturating_add(place)
}

// The columns of the widest line of these texts.
fn widest<T: CellRow>(texts: T) -> usize
    ensures { result ≡ widest (T.texts texts) }
{
    let mut most = 0;
    for place in 0..texts.len() {
        most = width_at(texts, place).max(most);
    }
    most
}

// The columns of the widest line of all values.
fn widest_value<R: CellRows>(records: R) -> usize
    ensures { result ≡ widest_value (R.rows records) }
{
    let mut most = 0;
    for place in 0..records.len() {
        most = widest(records.row(place)).max(most);
    }
    most
}

// The columns of names that request so many.
fn columns_of_names(width: Option<usize>, asked: usize) -> usize
    ensures { result ≡ columns_of_names width asked }
{
    match width {
        None => asked,
        Some(width) => asked.min(width / 2),
    }
}

// The columns of values that request so many, beside names of so many.
fn columns_of_values(width: Option<usize>, names: usize, asked: usize) -> usize
    ensures { result ≡ columns_of_values width names asked }
{
    match width {
        None => asked,
        Some(width) => width.saturating_sub(names.saturating_add(3)).max(1),
    }
}

// The columns of a rule, where the longest head has so many.
fn columns_of_rule(width: Option<usize>, names: usize, values: usize, head: usize) -> usize
    ensures { result ≡ columns_of_rule width names values head }
{
    let asked = names.saturating_add(3).saturating_add(values);
    asked
        .max(head.saturating_add(1))
        .min(width.unwrap_or(USUAL_WIDTH))
}
