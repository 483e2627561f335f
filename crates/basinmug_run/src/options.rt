//! What is requested of a run, as a value: what the command line's options say, and which columns and rows are shown.
ghost use Rattle.std.specs.Prelude.{◌≡◌, [], None, false, true};
ghost use Rattle.basinmug_run.specs.Requests.{options_of};

use grid_config::ANSIBuf;
use grid_config_values::AlignmentHorizontal;
use program_options::basinmug::{
    ColumnChoice, ColumnName, Escapes, LineStyle, Options as OfCommandLine, Rules,
};
use std::alloc::Global;
use tabled_size_priority::Choice;

/// Which columns a table has.
#[derive(Clone, Copy, Debug, PartialEq, Eq)]
pub enum ColumnsShown {
    /// All of them, however wide they are.
    All,
    /// In a width, as many as fit, and a mark of those that are left out.
    Fitting,
}

/// What is requested of a table of records: `Options` of `program_options::basinmug`, which columns it has, and how many
/// of the last records are shown.
#[derive(Debug, Drop)]
pub struct Options {
    /// The lines of the table.
    pub line_style: LineStyle,
    /// Whether the first record is a header.
    pub header: bool,
    /// The escape sequences of the records that are kept.
    pub escapes: Escapes,
    /// The rows between which a line is drawn.
    pub rules: Rules,
    /// The greatest width of the table, in columns; none where it may be as wide as its text. Columns keep what they
    /// need to be readable, where that fits. Else each keeps two columns of text, or one where that is little enough
    /// for all; so a table that has all of its columns may be wider.
    pub width: Option<usize>,
    /// Whether text beyond the width is cut off, and not wrapped. It has no effect without a width.
    pub truncate: bool,
    /// Which column is made narrower first. It has no effect without a width.
    pub priority: Choice,
    /// The columns that are shown, in this order; one of them may be there more than once. Where this is empty, all are
    /// shown in their own order.
    pub columns: Vec<ColumnChoice>,
    /// Which of these the table has. Without a width it has all, and so it does in Markdown.
    pub columns_shown: ColumnsShown,
    /// Columns, and the alignment of the texts of each: where a column is there more than once, the last one decides.
    pub alignments: Vec<(ColumnName, AlignmentHorizontal)>,
    /// Columns, and the colour of each: where a column is there more than once, the last one decides.
    pub colors: Vec<(ColumnName, ANSIBuf)>,
    /// Whether records are written one below the other, each field on lines of its own. Then `line_style`, `rules`,
    /// `priority`, `alignments` and `colors` have no effect, but each name in them must be one of the header.
    pub expanded: bool,
    /// How many of the first records below the header are shown, where the others are left out. Where there is none,
    /// no record is left out, or all but the last.
    pub max_rows: Option<usize>,
    /// How many of the last records are shown, where the others are left out but for the first of `max_rows`. Where
    /// there is none, no record is left out, or all but the first.
    pub tail: Option<usize>,
}

impl Options {
    /// The defaults of the command line; in a width, as many columns as fit. Does not allocate.
    pub fn new(alloc: Global) -> Options
        ensures line_style { result.line_style ≡ LineStyle.Rounded }
        ensures header { result.header ≡ true }
        ensures escapes { result.escapes ≡ Escapes.Colors }
        ensures rules { result.rules ≡ Rules.Header }
        ensures width { result.width ≡ None }
        ensures truncate { result.truncate ≡ false }
        ensures priority { result.priority ≡ Choice.MaxRight }
        ensures columns { result.columns.items ≡ [] }
        ensures columns_shown { result.columns_shown ≡ ColumnsShown.Fitting }
        ensures alignments { result.alignments.items ≡ [] }
        ensures colors { result.colors.items ≡ [] }
        ensures expanded { result.expanded ≡ false }
        ensures max_rows { result.max_rows ≡ None }
        ensures tail { result.tail ≡ None }
    {
        Options::of(OfCommandLine::new(alloc), ColumnsShown::Fitting, None)
    }

    /// What the options of a command line request, of these columns and of so many of the last records.
    pub fn of(options: OfCommandLine, columns_shown: ColumnsShown, tail: Option<usize>) -> Options
        ensures { result ≡ options_of options columns_shown tail }
    {
        Options {
            line_style: options.line_style,
            header: options.header,
            escapes: options.escapes,
            rules: options.rules,
            width: options.width,
            truncate: options.truncate,
            priority: options.priority,
            columns: options.columns,
            columns_shown,
            alignments: options.alignments,
            colors: options.colors,
            expanded: options.expanded,
            max_rows: options.max_rows,
            tail,
        }
    }
}
