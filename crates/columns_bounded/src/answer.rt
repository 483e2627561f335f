//! What a call reports, as numbers.
ghost use Rattle.std.specs.Prelude.{◌≡◌, option_map};
ghost use Rattle.columns_bounded.specs.Answers.{IsOutcome, Tells, answer_of, request_status, status_of, text_status};

use crate::colors::options_of;
use crate::fault::AnswerFault;
use crate::request::{Request, RequestFault};
use crate::table::table_into;
use crate::within::table_within;
use columns_run::RunFault;
use std::alloc::Global;

/// What is reported beside a status. A number that the status says nothing of is 0.
#[repr(C)]
#[derive(Drop)]
pub struct Answer {
    /// How many bytes the whole table has, or the stripped text; or how many columns a text takes.
    pub size: usize,
    /// The byte of the text where the error is.
    pub place: usize,
    /// The row of the cell that is too wide, from 0.
    pub row: usize,
    /// The column of that cell, from 0.
    pub column: usize,
}

impl Answer {
    /// What is reported of an outcome beside its status.
    pub fn of(outcome: &Result<usize, AnswerFault>) -> Answer
        ensures { result ≡ answer_of outcome.now }
    {
        let mut answer = Answer {
            size: 0,
            place: 0,
            row: 0,
            column: 0,
        };
        match *outcome {
            Ok(size) => answer.size = size,
            Err(AnswerFault::Text(RunFault::NotUtf8 { at } | RunFault::Escape { at })) => {
                answer.place = at;
            }
            Err(AnswerFault::Text(RunFault::LineTooWide { row, column })) => {
                answer.row = row;
                answer.column = column;
            }
            Err(_) => {}
        }
        answer
    }
}

/// Writes the table of a request, in the colours of a list if there is one, as `table_into` does, or `table_within` its
/// greatest size; or returns why there is none, and leaves `out` as it was. The request is checked first, then the list.
pub fn table_by(
    alloc: Global,
    request: &Request,
    colors: Option<&[u8]>,
    text: &[u8],
    out: &mut [u8],
) -> Result<usize, AnswerFault>
    ensures { IsOutcome request.now (option_map (λ list. list.now) colors.entry) text.now out.old out.new result }
{
    let options = options_of(alloc, request, colors)?;
    match request.most() {
        Some(most) => table_within(alloc, &options, text, most, out),
        None => Ok(table_into(alloc, &options, text, out)?),
    }
}

/// The status of an outcome: 0 for a table, from 1 an error of the text, 13 a table over its greatest size, from 33 an
/// error of the request, and 39 a list of colours without the form.
pub fn status_of(outcome: &Result<usize, AnswerFault>) -> u32
    ensures { result ≡ status_of outcome.now }
{
    match *outcome {
        Ok(_) => 0,
        Err(AnswerFault::Text(fault)) => text_status(fault),
        Err(AnswerFault::Request(fault)) => request_status(fault),
        Err(AnswerFault::Colors) => 39,
        Err(AnswerFault::OverMaxSize) => 13,
    }
}

// The status of a text without a table.
fn text_status(fault: RunFault) -> u32
    ensures { result ≡ text_status fault }
{
    match fault {
        RunFault::NotUtf8 { .. } => 1,
        RunFault::Escape { .. } => 2,
        RunFault::Range => 3,
        RunFault::LineTooWide { .. } => 4,
        RunFault::Memory => 5,
        RunFault::ReadTooLong => 6,
        RunFault::Read => 7,
        RunFault::Write => 8,
        RunFault::WriteZero => 9,
    }
}

// The status of a request that is refused.
fn request_status(fault: RequestFault) -> u32
    ensures { result ≡ request_status fault }
{
    match fault {
        RequestFault::Version => 33,
        RequestFault::Style => 34,
        RequestFault::Priority => 35,
        RequestFault::Truncate => 36,
        RequestFault::KeepWords => 37,
        RequestFault::Reserved => 38,
    }
}

/// Does what `table_by` does, returns the status of the outcome, and sets `answer` to the rest of it.
pub fn table_told(
    alloc: Global,
    request: &Request,
    colors: Option<&[u8]>,
    text: &[u8],
    out: &mut [u8],
    answer: &mut Answer,
) -> u32
    ensures { Tells request.now (option_map (λ list. list.now) colors.entry) text.now out.old out.new result answer.new }
{
    let outcome = table_by(alloc, request, colors, text, out);
    *answer = Answer::of(&outcome);
    status_of(&outcome)
}
