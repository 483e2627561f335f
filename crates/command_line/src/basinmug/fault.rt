//! Why values that the command accepts are wrong.
use std::alloc::AllocError;

/// What is wrong with the values.
#[derive(Clone, Copy, Debug, PartialEq, Eq)]
pub enum ValueFault {
    /// `--delimiter` is no character that can separate fields.
    Delimiter,
    /// `--max-rows`, `--head` or `--tail` is no number of rows.
    Rows,
    /// Both `--head` and `--tail` are given.
    HeadAndTail,
    /// `--width` is no number of columns, and not `none`.
    Width,
    /// A table of Markdown is given a width.
    MarkdownWidth,
    /// `--align` is no list of alignments.
    Alignment,
    /// `--color` is no list of colours.
    Color,
    /// `--columns` is no list of columns.
    Columns,
    /// Allocation failed.
    Memory,
}

impl ValueFault {
    ghost use Rattle.std.specs.Prelude.{◌≡◌};
    ghost use Rattle.command_line.specs.Basinmug.Messages.{refusal_text};

    /// The message for it, in one line without its end.
    pub fn text(self) -> &'static str
        ensures { result.now ≡ refusal_text self }
    {
        match self {
            ValueFault::Delimiter =>
                "basinmug: bad delimiter: use an ASCII character, tab, or auto",
            ValueFault::Rows => "basinmug: bad number of rows: use 0 to 4294967295",
            ValueFault::HeadAndTail => "basinmug: --head and --tail exclude each other",
            ValueFault::Width => "basinmug: bad width: use 0 to 4294967295, or none",
            ValueFault::MarkdownWidth => "basinmug: markdown takes no width",
            ValueFault::Alignment =>
                "basinmug: bad alignment: use COLUMN=left, center or right, separated by commas",
            ValueFault::Color => "basinmug: bad color: use COLUMN=NAME, separated by commas",
            ValueFault::Columns => "basinmug: bad columns: use COLUMN or N-M, separated by commas",
            ValueFault::Memory => "basinmug: out of memory",
        }
    }
}

impl From<AllocError> for ValueFault {
    ghost use Rattle.std.specs.Prelude.{◌≡◌};
    ghost use Rattle.command_line.specs.declared.basinmug.fault.ValueFault.TheVariants.{Memory};

    ghost from_gives = { λ _ fault. fault ≡ Memory };

    fn from(_error: AllocError) -> ValueFault {
        ValueFault::Memory
    }
}
