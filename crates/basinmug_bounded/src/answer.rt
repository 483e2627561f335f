//! What a call reports, as numbers.
ghost use Rattle.std.specs.Prelude.{◌≡◌};
ghost use Rattle.basinmug_bounded.specs.Answers.{IsCellsOutcome, IsOutcome, ReportsCells, ReportsText, answer_of, answers, cell_answer, cell_status, list_status, request_status, run_answer, run_status, status_of};
ghost use Rattle.basinmug_bounded.specs.Cells.{given_by};
ghost use Rattle.basinmug_bounded.specs.Lists.{texts_of};

use crate::cells::Cells;
use crate::lists::Lists;
use crate::options::options_of;
use crate::printing::{Size, print_into};
use crate::printing_cells::print_cells_into;
use crate::refusal::{CellFault, ListFault, Refusal};
use crate::request::{PrintRequest, RequestFault, delimiter_numbered, head_in};
use basinmug_input::InputFault;
use basinmug_run::{Fault, PrintFault, RunFault};
use std::alloc::Global;
use tabled_output::BuildFault;

/// What is reported beside a status. A number that the status says nothing of is 0.
#[repr(C)]
#[derive(Drop)]
pub struct PrintAnswer {
    /// How many bytes the whole output has.
    pub size: usize,
    /// 1 if the table is wider than requested.
    pub wider: usize,
    /// The line of the error, from 1.
    pub line: usize,
    /// Its field in the record, from 1.
    pub field: usize,
    /// The row of the cell that is too wide, from 0; of records as cells also that of the first cell that can't be shown,
    /// which has no line and no field.
    pub row: usize,
    /// The column of that cell, from 0.
    pub column: usize,
}

impl PrintAnswer {
    /// What is reported of an outcome beside its status.
    pub fn of(outcome: &Result<Size, Refusal>) -> PrintAnswer
        ensures { result ≡ answer_of outcome.now }
    {
        match outcome {
            Ok(size) => PrintAnswer {
                size: size.bytes,
                wider: usize::from(size.wider),
                ..PrintAnswer::none()
            },
            Err(Refusal::Run(fault)) => PrintAnswer::of_run(fault),
            Err(Refusal::Cell(fault)) => PrintAnswer::of_cell(*fault),
            Err(_) => PrintAnswer::none(),
        }
    }

    // What is reported of an error of the run.
    fn of_run(fault: &RunFault) -> PrintAnswer
        ensures { result ≡ run_answer fault.now }
    {
        match fault {
            RunFault::Input(
                InputFault::NotText { line, field } | InputFault::Escape { line, field },
            ) => {
                PrintAnswer {
                    line: *line,
                    field: *field,
                    ..PrintAnswer::none()
                }
            }
            RunFault::Input(InputFault::Quote { line }) => PrintAnswer {
                line: *line,
                ..PrintAnswer::none()
            },
            RunFault::Print(PrintFault::Table(BuildFault::Table(Fault::Room { row, column }))) => {
                PrintAnswer {
                    row: *row,
                    column: *column,
                    ..PrintAnswer::none()
                }
            }
            _ => PrintAnswer::none(),
        }
    }

    // What is reported of an error of a cell.
    fn of_cell(fault: CellFault) -> PrintAnswer
        ensures { result ≡ cell_answer fault }
    {
        match fault {
            CellFault::Lengths => PrintAnswer::none(),
            CellFault::NotText { row, column } | CellFault::Escape { row, column } => PrintAnswer {
                row,
                column,
                ..PrintAnswer::none()
            },
        }
    }

    // Nothing.
    fn none() -> PrintAnswer
        ensures { result ≡ answers 0 0 0 0 0 0 }
    {
        PrintAnswer {
            size: 0,
            wider: 0,
            line: 0,
            field: 0,
            row: 0,
            column: 0,
        }
    }
}

/// Prints the records of a text as a request and its lists say, as `print_into` does; or returns why there is no output.
/// The request is checked first, then the lists.
pub fn print_by(
    alloc: Global,
    request: &PrintRequest,
    lists: Lists<'_>,
    text: &[u8],
    out: &mut [u8],
) -> Result<Size, Refusal>
    ensures { IsOutcome request.now (texts_of lists.entry) text.now out.old out.new result }
{
    let options = options_of(alloc, request, lists)?;
    let delimiter = delimiter_numbered(request.delimiter);
    let head = head_in(request.head);
    print_into(
        alloc,
        &options,
        delimiter,
        head,
        text,
        request.max_size,
        out,
    )
}

/// Prints records of cells as a request and its lists say, as `print_cells_into` does; or returns why there is no output. The
/// request is checked first, then the lists, then the cells. The delimiter has no effect.
pub fn print_cells_by(
    alloc: Global,
    request: &PrintRequest,
    lists: Lists<'_>,
    cells: Cells<'_>,
    out: &mut [u8],
) -> Result<Size, Refusal>
    ensures { IsCellsOutcome request.now (texts_of lists.entry) (given_by cells.entry) out.old out.new result }
{
    let options = options_of(alloc, request, lists)?;
    let head = head_in(request.head);
    print_cells_into(alloc, &options, head, cells, request.max_size, out)
}

/// The status of an outcome: 0 for an output; from 1 an error of the text, of a cell or of the output, of which 13 is an
/// output over the greatest size; from 33 one of the request, of a list or, as 49, of the lengths of cells.
pub fn status_of(outcome: &Result<Size, Refusal>) -> u32
    ensures { result ≡ status_of outcome.now }
{
    match outcome {
        Ok(_) => 0,
        Err(Refusal::Request(fault)) => request_status(*fault),
        Err(Refusal::List(fault)) => list_status(*fault),
        Err(Refusal::Run(fault)) => run_status(fault),
        Err(Refusal::Cell(fault)) => cell_status(*fault),
        Err(Refusal::OverMaxSize) => 13,
    }
}

// The status of a request that is refused.
fn request_status(fault: RequestFault) -> u32
    ensures { result ≡ request_status fault }
{
    match fault {
        RequestFault::Size => 33,
        RequestFault::Delimiter => 40,
        RequestFault::NoHeader => 41,
        RequestFault::Style => 34,
        RequestFault::Rules => 42,
        RequestFault::Escapes => 43,
        RequestFault::Truncate => 36,
        RequestFault::Priority => 35,
        RequestFault::Expanded => 44,
        RequestFault::AllColumns => 48,
        RequestFault::Head => 50,
        RequestFault::Width => 45,
        RequestFault::Reserved => 38,
    }
}

// The status of a list without the form.
fn list_status(fault: ListFault) -> u32
    ensures { result ≡ list_status fault }
{
    match fault {
        ListFault::Columns => 47,
        ListFault::Align => 46,
        ListFault::Color => 39,
    }
}

// The status of cells that are not shown.
fn cell_status(fault: CellFault) -> u32
    ensures { result ≡ cell_status fault }
{
    match fault {
        CellFault::Lengths => 49,
        CellFault::NotText { .. } => 1,
        CellFault::Escape { .. } => 2,
    }
}

// The status of records without an output.
fn run_status(fault: &RunFault) -> u32
    ensures { result ≡ run_status fault.now }
{
    match fault {
        RunFault::Input(InputFault::NotText { .. }) => 1,
        RunFault::Input(InputFault::Escape { .. }) => 2,
        RunFault::Input(InputFault::Quote { .. }) => 10,
        RunFault::Print(PrintFault::NoColumn(_)) => 11,
        RunFault::Print(PrintFault::Table(BuildFault::Table(Fault::Range))) => 3,
        RunFault::Print(PrintFault::Table(BuildFault::Table(Fault::Room { .. }))) => 4,
        RunFault::Print(PrintFault::Table(BuildFault::Table(Fault::Spans))) => 12,
        RunFault::Print(PrintFault::Table(BuildFault::Write)) => 8,
        RunFault::Print(PrintFault::Table(BuildFault::WriteZero)) => 9,
        RunFault::Input(InputFault::Memory)
        | RunFault::Print(PrintFault::Table(BuildFault::Table(Fault::Memory)))
        | RunFault::Print(PrintFault::Memory)
        | RunFault::Memory => 5,
    }
}

/// Does what `print_by` does, returns the status of the outcome, and sets `answer` to the rest of it.
pub fn print_reported(
    alloc: Global,
    request: &PrintRequest,
    lists: Lists<'_>,
    text: &[u8],
    out: &mut [u8],
    answer: &mut PrintAnswer,
) -> u32
    ensures { ReportsText request.now (texts_of lists.entry) text.now out.old out.new result answer.new }
{
    let outcome = print_by(alloc, request, lists, text, out);
    *answer = PrintAnswer::of(&outcome);
    status_of(&outcome)
}

/// Does what `print_cells_by` does, returns the status of the outcome, and sets `answer` to the rest of it.
pub fn print_cells_reported(
    alloc: Global,
    request: &PrintRequest,
    lists: Lists<'_>,
    cells: Cells<'_>,
    out: &mut [u8],
    answer: &mut PrintAnswer,
) -> u32
    ensures { ReportsCells request.now (texts_of lists.entry) (given_by cells.entry) out.old out.new result answer.new }
{
    let outcome = print_cells_by(alloc, request, lists, cells, out);
    *answer = PrintAnswer::of(&outcome);
    status_of(&outcome)
}
