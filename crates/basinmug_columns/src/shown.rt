//! Which columns are shown where not all of them fit.
ghost use Rattle.std.specs.Prelude.{◌≡◌, ◌≤◌, ◌<◌, ℕ, ◌+◌, ◌^◌, IfOk, OnOk, ◌++◌, length, map, nat_le, sum};
ghost use Rattle.basinmug_columns.specs.Shown.{IsGreatestFit, columns_that_fit, cost_of, first_alone, fit_count, kept, line_width, next_column, numbered, so_many};

use crate::rooms::{Need, ONE_COLUMN, need_at};
use std::alloc::{AllocError, Global};

/// A column that is shown.
#[derive(Clone, Copy, Debug, PartialEq, Eq)]
pub enum ShownColumn {
    /// The column of this number, counted from 0.
    Number(usize),
    /// The column that is shown in place of those that are left out.
    LeftOut,
}

/// Of some columns those that are shown in a table of this width, in columns of the terminal, whose columns have lines
/// between them or none: as many as fit with what they need, half of them from the first on and half to the last, and
/// between these the mark of those that are left out. Where not even one fits, the first is shown, and the mark beside
/// it where that leaves it one column of text. Takes time for each column once. Fails only where allocation fails.
pub fn columns_that_fit(
    alloc: Global,
    columns: &[ShownColumn],
    needs: &[Need],
    lined: bool,
    width: usize,
) -> Result<Vec<ShownColumn>, AllocError>
    ensures { IfOk result (λ shown. shown.items ≡ columns_that_fit needs.now lined width columns.now) }
{
    let line = line_width(lined);
    let mark = ONE_COLUMN + line;
    let costs = costs_of(alloc, columns, needs, lined)?;
    let shown = count_that_fit(&costs, line, mark, width);
    if shown == 0 {
        first_alone(alloc, columns, line + mark + mark <= width)
    } else {
        so_many(alloc, columns, shown)
    }
}

// A line at one side, where columns have lines between them.
fn line_width(lined: bool) -> usize
    ensures is { result ≡ line_width lined }
    ensures small { result ≤ 1 }
{
    if lined { 1 } else { 0 }
}

// What each column takes that has what it needs, with a line at one side where there are lines.
fn costs_of(
    alloc: Global,
    columns: &[ShownColumn],
    needs: &[Need],
    lined: bool,
) -> Result<Vec<usize>, AllocError>
    ensures { IfOk result (λ costs. costs.items ≡ map (cost_of needs.now lined) columns.now) }
{
    let mut costs = Vec::with_capacity(alloc, columns.len())?;
    for column in columns {
        costs.push(cost_of(needs, *column, lined))?;
    }
    Ok(costs)
}

// What a column takes that has what it needs.
fn cost_of(needs: &[Need], column: ShownColumn, lined: bool) -> usize
    ensures { result ≡ cost_of needs.now lined column }
{
    let line = line_width(lined);
    match column {
        ShownColumn::Number(number) => need_at(needs, number).width.saturating_add(line),
        ShownColumn::LeftOut => ONE_COLUMN + line,
    }
}

/// How many columns fit in a width: as many of the first as of the last, or one more. Each takes what it costs, the
/// table `frame` beside them, and `mark` where columns are left out. It is 0 where not even one column fits. Takes
/// time for each column once.
pub(crate) fn count_that_fit(costs: &[usize], frame: usize, mark: usize, width: usize) -> usize
    ensures greatest { IsGreatestFit frame mark costs.now width result }
    ensures count { result ≡ fit_count frame mark costs.now width }
{
    greatest_fit(costs, frame, mark, width)
}

// The greatest number of columns that fit.
fn greatest_fit(costs: &[usize], frame: usize, mark: usize, width: usize) -> usize
    ensures { IsGreatestFit frame mark costs.now width result }
{
    if width < frame {
        return 0;
    }
    let room = width - frame;
    if all_fit(costs, room) {
        return costs.len();
    }
    if room < mark {
        return 0;
    }
    count_in(costs, room - mark)
}

// Whether all columns fit.
fn all_fit(costs: &[usize], room: usize) -> bool
    ensures { result ≡ nat_le (sum costs.now) room }
{
    let mut left = room;
    for cost in costs {
        if left < *cost {
            return false;
        }
        left -= *cost;
    }
    true
}

// How many columns fit, as many of the first as of the last, or one more.
fn count_in(costs: &[usize], room: usize) -> usize
    ensures within { result ≤ length costs.now }
    ensures fits { sum (kept result costs.now) ≤ room }
    ensures greatest { result < length costs.now → room < sum (kept (result + 1) costs.now) }
{
    let mut left = room;
    for shown in 0..costs.len() {
        let cost = costs[next_column(costs.len(), shown)];
        if left < cost {
            return shown;
        }
        left -= cost;
    }
    costs.len()
}

// The column that is shown next where so many are shown.
fn next_column(count: usize, shown: usize) -> usize
    requires { shown < count }
    ensures column { result ≡ next_column count shown }
    ensures within { result < count }
{
    if shown % 2 == 0 {
        shown / 2
    } else {
        count - 1 - shown / 2
    }
}

// So many of some columns: the first of them, the mark, and the last; all of them where none is left out.
fn so_many(
    alloc: Global,
    columns: &[ShownColumn],
    shown: usize,
) -> Result<Vec<ShownColumn>, AllocError>
    ensures { IfOk result (λ some. some.items ≡ so_many shown columns.now) }
{
    let mut some = Vec::new(alloc);
    if shown >= columns.len() {
        some.extend_from_slice(columns)?;
        return Ok(some);
    }
    let last = shown / 2;
    some.extend_from_slice(&columns[..shown - last])?;
    some.push(ShownColumn::LeftOut)?;
    some.extend_from_slice(&columns[columns.len() - last..])?;
    Ok(some)
}

// The first of some columns, and beside it, where its width allows that, the mark of the others.
fn first_alone(
    alloc: Global,
    columns: &[ShownColumn],
    beside: bool,
) -> Result<Vec<ShownColumn>, AllocError>
    ensures { IfOk result (λ shown. shown.items ≡ first_alone beside columns.now) }
{
    let mut shown = Vec::new(alloc);
    if let Some(first) = columns.first() {
        shown.push(*first)?;
    }
    if beside && columns.len() > 1 {
        shown.push(ShownColumn::LeftOut)?;
    }
    Ok(shown)
}

/// Appends so many columns by their numbers, from one on. Fails only where allocation fails.
pub fn push_numbers(
    columns: &mut Vec<ShownColumn>,
    from: usize,
    count: usize,
) -> Result<(), AllocError>
    requires { from + count < 2 ^ 64 }
    ensures { OnOk result (columns.new.items ≡ columns.old.items ++ numbered from count) }
{
    for number in 0..count {
        columns.push(ShownColumn::Number(from + number))?;
    }
    Ok(())
}
