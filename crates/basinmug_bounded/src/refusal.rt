//! Why there is no output.
use crate::request::RequestFault;
use basinmug_run::RunFault;

/// Which list does not have the form.
#[derive(Clone, Copy, Debug, PartialEq, Eq)]
pub enum ListFault {
    /// That of chosen columns.
    Columns,
    /// That of alignments.
    Align,
    /// That of colours.
    Color,
}

/// Why cells are not shown. Rows and columns are counted from 0.
#[derive(Clone, Copy, Debug, PartialEq, Eq)]
pub enum CellFault {
    /// The lengths are not those of whole records, or not those of all bytes.
    Lengths,
    /// The cell is not UTF-8. It is the first with an error of those that are read.
    NotText { row: usize, column: usize },
    /// An escape of the cell begins no whole sequence. It is the first with an error of those that are read.
    Escape { row: usize, column: usize },
}

/// Why there is no output: the request comes first, then the lists, then the cells or the text. `Memory` of a run may come at
/// any step.
#[derive(Debug, Drop)]
pub enum Refusal {
    /// A number of the request has no meaning.
    Request(RequestFault),
    /// A list is no text, or does not have the form.
    List(ListFault),
    /// The cells are no records, or one of them can't be shown.
    Cell(CellFault),
    /// The records have no output.
    Run(RunFault),
    /// The output has more bytes than it may have.
    OverMaxSize,
}

impl From<RunFault> for Refusal {
    ghost use Rattle.std.specs.Prelude.{◌≡◌};
    ghost use Rattle.basinmug_bounded.specs.declared.refusal.Refusal.TheVariants.{Run};

    ghost from_gives = { λ given fault. fault ≡ Run given };

    fn from(fault: RunFault) -> Refusal {
        Refusal::Run(fault)
    }
}
