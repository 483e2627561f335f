//! The options of a run of `basinmug`, as a value.
//!
//! The settings of a run, and the defaults of all settings.
ghost use Rattle.std.specs.Prelude.{◌≡◌, [], None, false, true};

use grid_config::ANSIBuf;
use grid_config_values::AlignmentHorizontal;
use std::alloc::Global;
use tabled_size_priority::Choice;

/// The lines of a table.
#[derive(Clone, Copy, Debug, PartialEq, Eq)]
pub enum LineStyle {
    /// Of `-`, `|` and `+`.
    Ascii,
    /// Of box-drawing characters.
    Modern,
    /// The same with round corners.
    Rounded,
    /// Of double box-drawing characters.
    Extended,
    /// A table of Markdown: rules and a width do not change it.
    Markdown,
    /// None at all.
    Empty,
}

/// The rows between which a line is drawn.
#[derive(Clone, Copy, Debug, PartialEq, Eq)]
pub enum Rules {
    /// Below the header alone.
    Header,
    /// Between each two rows.
    All,
    /// Between none.
    None,
}

/// The escape sequences of the input that are kept.
#[derive(Clone, Copy, Debug, PartialEq, Eq)]
pub enum Escapes {
    /// Those that set colours and other styles, and nothing else. `ESC [ K`, `ESC [ 0 K` and `ESC ( B`, which programs
    /// write beside them, are left out. Any other escape is shown as text.
    Colors,
    /// All; an escape that begins no sequence is an error.
    All,
    /// None: each escape is shown as text.
    None,
}

/// A column of a table.
#[derive(Debug, Drop)]
pub enum ColumnName {
    /// By its number, counted from 0.
    Number(usize),
    /// By its text in the header, without the sequences in it.
    Header(String),
}

/// Columns that are chosen together.
#[derive(Debug, Drop)]
pub enum ColumnChoice {
    /// One column.
    One(ColumnName),
    /// The columns from one number to another, both of them too, counted from 0.
    Range {
        /// The number of the first.
        first: usize,
        /// The number of the last, which is not less.
        last: usize,
    },
}

/// The settings of a table of records.
#[derive(Debug, Drop)]
pub struct Options {
    /// The lines of the table.
    pub line_style: LineStyle,
    /// Whether the first record is a header.
    pub header: bool,
    /// The escape sequences of the records that are kept.
    pub escapes: Escapes,
    /// The rows between which a line is drawn.
    pub rules: Rules,
    /// The greatest width of the table, in columns; none where it may be as wide as its text. Each column keeps two
    /// columns of text, or one where two do not fit, or all of its own text where that is less.
    pub width: Option<usize>,
    /// Whether text beyond the width is cut off, and not wrapped. It has no effect without a width.
    pub truncate: bool,
    /// Which column is made narrower first. It has no effect without a width.
    pub priority: Choice,
    /// The columns that are shown, in this order; one of them may be there more than once. Where this is empty, all are
    /// shown in their own order.
    pub columns: Vec<ColumnChoice>,
    /// Columns, and the alignment of the texts of each: where a column is there more than once, the last one decides.
    pub alignments: Vec<(ColumnName, AlignmentHorizontal)>,
    /// Columns, and the colour of each: where a column is there more than once, the last one decides.
    pub colors: Vec<(ColumnName, ANSIBuf)>,
    /// Whether records are written one below the other, each field on lines of its own. Then `line_style`, `rules`,
    /// `priority`, `alignments` and `colors` have no effect, but each name in them must be one of the header.
    pub expanded: bool,
    /// How many records below the header are shown at most; none where all are.
    pub max_rows: Option<usize>,
}

impl Options {
    /// The defaults: round corners, a header with a line below it, escape sequences of colours alone, and a table as
    /// wide as its text. The widest column is made narrower first; nothing else is set. Does not allocate.
    pub fn new(alloc: Global) -> Options
        ensures line_style { result.line_style ≡ LineStyle.Rounded }
        ensures header { result.header ≡ true }
        ensures escapes { result.escapes ≡ Escapes.Colors }
        ensures rules { result.rules ≡ Rules.Header }
        ensures width { result.width ≡ None }
        ensures truncate { result.truncate ≡ false }
        ensures priority { result.priority ≡ Choice.MaxRight }
        ensures columns { result.columns.items ≡ [] }
        ensures alignments { result.alignments.items ≡ [] }
        ensures colors { result.colors.items ≡ [] }
        ensures expanded { result.expanded ≡ false }
        ensures max_rows { result.max_rows ≡ None }
    {
        Options {
            line_style: LineStyle::Rounded,
            header: true,
            escapes: Escapes::Colors,
            rules: Rules::Header,
            width: None,
            truncate: false,
            priority: Choice::MaxRight,
            columns: Vec::new(alloc),
            alignments: Vec::new(alloc),
            colors: Vec::new(alloc),
            expanded: false,
            max_rows: None,
        }
    }
}
