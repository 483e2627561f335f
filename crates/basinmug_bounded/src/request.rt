//! What is requested of the output, as numbers.
ghost use Rattle.std.specs.List.{list_all};
ghost use Rattle.std.specs.Prelude.{◌≡◌, ◌<◌, ◌==◌, get_or, length, true};
ghost use Rattle.basinmug_bounded.specs.Requests.{
  all_escapes,
  all_rules,
  columns_shown,
  delimiter_in,
  first_fault,
  has_both_ends,
  head_in,
  is_delimiter,
  is_narrow_markdown,
  line_styles,
  number_in,
  priorities,
  reserves_nothing,
};
ghost use Rattle.basinmug_run.specs.declared.options.ColumnsShown.TheVariants.{Fitting};
ghost use Rattle.program_options.specs.declared.basinmug.Escapes.TheVariants.{Colors as OfColors};
ghost use Rattle.program_options.specs.declared.basinmug.LineStyle.TheVariants.{Rounded as Round};
ghost use Rattle.program_options.specs.declared.basinmug.Rules.TheVariants.{Header as BelowHeader};
ghost use Rattle.tabled_size_priority.specs.declared.choice.Choice.TheVariants.{MaxRight as Widest};

use basinmug_run::{ColumnsShown, Escapes, LineStyle, Rules};
use basinmug_values::can_delimit;
use tabled_size_priority::Choice;

/// How many bytes a `PrintRequest` has.
pub const SIZE: usize = 136;

// The number of Markdown.
const MARKDOWN: u32 = 5;

/// What is requested of the output. A number without a meaning is refused, so that a later version may give it one.
#[repr(C)]
#[derive(Drop)]
pub struct PrintRequest {
    /// `SIZE`.
    pub size: usize,
    /// The byte between fields; 0 if the text says what it is.
    pub delimiter: u32,
    /// 1 if the first record is no header, 0 if it is one.
    pub no_header: u32,
    /// The lines of the table: 0 ASCII, 1 modern, 2 extended, 3 empty, 4 rounded, 5 Markdown.
    pub style: u32,
    /// Between which rows there is a line: 0 below the header, 1 between all, 2 between none.
    pub rules: u32,
    /// Which escape sequences stay: 0 those of colours, 1 all, 2 none.
    pub escapes: u32,
    /// 1 to cut off what passes the width, 0 to wrap lines.
    pub truncate: u32,
    /// Which column gives up width first: 0 each in turn, 1 the narrowest, 2 the widest, 3 the leftmost, 4 the rightmost.
    pub priority: u32,
    /// 1 for records one below the other, 0 for a table.
    pub expanded: u32,
    /// 1 to show all columns, 0 to leave out those that do not fit the width.
    pub all_columns: u32,
    /// 0.
    pub reserved: u32,
    /// The greatest width of the table, in columns; `usize::MAX` if it may be as wide as its text.
    pub width: usize,
    /// How many of the first records below the header are shown at most; `usize::MAX` if no number is requested.
    pub max_rows: usize,
    /// How many of the last records are shown at most; `usize::MAX` if no number is requested. With neither of the two
    /// all are shown.
    pub tail: usize,
    /// How many bytes the output may have.
    pub max_size: usize,
    /// How many of the first records below the header are read at most; 0 if all are. Not with `tail`.
    pub head: usize,
    /// 0, each of them.
    pub reserved_words: [u64; 6],
}

/// Which number of a request has no meaning. Of several it is the first in this order.
#[derive(Clone, Copy, Debug, PartialEq, Eq)]
pub enum RequestFault {
    /// The size is not `SIZE`.
    Size,
    /// The delimiter can't separate fields.
    Delimiter,
    /// `no_header` is neither 0 nor 1.
    NoHeader,
    /// No lines have this number.
    Style,
    /// No rules have this number.
    Rules,
    /// No choice of escape sequences has this number.
    Escapes,
    /// `truncate` is neither 0 nor 1.
    Truncate,
    /// No priority has this number.
    Priority,
    /// `expanded` is neither 0 nor 1.
    Expanded,
    /// `all_columns` is neither 0 nor 1.
    AllColumns,
    /// A table of Markdown takes no width.
    Width,
    /// `head` and `tail` exclude each other.
    Head,
    /// A reserved number is not 0.
    Reserved,
}

impl PrintRequest {
    /// The first number without a meaning, if there is one.
    pub(crate) fn first_fault(&self) -> Option<RequestFault>
        ensures { result ≡ first_fault self.now }
    {
        if self.size != SIZE {
            Some(RequestFault::Size)
        } else if !is_delimiter(self.delimiter) {
            Some(RequestFault::Delimiter)
        } else if self.no_header > 1 {
            Some(RequestFault::NoHeader)
        } else if self.style > 5 {
            Some(RequestFault::Style)
        } else if self.rules > 2 {
            Some(RequestFault::Rules)
        } else if self.escapes > 2 {
            Some(RequestFault::Escapes)
        } else if self.truncate > 1 {
            Some(RequestFault::Truncate)
        } else if self.priority > 4 {
            Some(RequestFault::Priority)
        } else if self.expanded > 1 {
            Some(RequestFault::Expanded)
        } else if self.all_columns > 1 {
            Some(RequestFault::AllColumns)
        } else if self.is_narrow_markdown() {
            Some(RequestFault::Width)
        } else if self.has_both_ends() {
            Some(RequestFault::Head)
        } else if !self.reserves_nothing() {
            Some(RequestFault::Reserved)
        } else {
            None
        }
    }

    // Whether a width is requested of a table of Markdown.
    fn is_narrow_markdown(&self) -> bool
        ensures { result ≡ is_narrow_markdown self.now }
    {
        self.style == MARKDOWN && self.width != usize::MAX
    }

    // Whether both the first records and the last are requested.
    fn has_both_ends(&self) -> bool
        ensures { result ≡ has_both_ends self.now }
    {
        self.head != 0 && self.tail != usize::MAX
    }

    // Whether each reserved number is 0.
    fn reserves_nothing(&self) -> bool
        ensures { result ≡ reserves_nothing self.now }
    {
        self.reserved == 0 && are_zero(&self.reserved_words)
    }
}

// Whether all of these numbers are 0.
fn are_zero(words: &[u64]) -> bool
    ensures { result ≡ list_all (λ word. word == 0) words.now }
{
    words.iter().all(|word| *word == 0)
}

// Whether a number says what is between fields.
fn is_delimiter(number: u32) -> bool
    ensures { result ≡ is_delimiter number }
{
    match u8::try_from(number) {
        Ok(0) => true,
        Ok(byte) => can_delimit(byte),
        Err(_) => false,
    }
}

/// The byte between fields by its number, which has a meaning; none if the text says what it is.
pub(crate) fn delimiter_numbered(number: u32) -> Option<u8>
    requires { is_delimiter number ≡ true }
    ensures { result ≡ delimiter_in number }
{
    match u8::try_from(number) {
        Ok(0) | Err(_) => None,
        Ok(byte) => Some(byte),
    }
}

/// How many records are read, by the number; none if all are.
pub(crate) fn head_in(number: usize) -> Option<usize>
    ensures { result ≡ head_in number }
{
    if number == 0 { None } else { Some(number) }
}

/// The lines of a table by their number.
pub(crate) fn line_style_numbered(number: u32) -> LineStyle
    requires { number < length line_styles }
    ensures { result ≡ get_or line_styles number Round }
{
    match number {
        0 => LineStyle::Ascii,
        1 => LineStyle::Modern,
        2 => LineStyle::Extended,
        3 => LineStyle::Empty,
        4 => LineStyle::Rounded,
        _ => LineStyle::Markdown,
    }
}

/// Between which rows there is a line, by the number.
pub(crate) fn rules_numbered(number: u32) -> Rules
    requires { number < length all_rules }
    ensures { result ≡ get_or all_rules number BelowHeader }
{
    match number {
        0 => Rules::Header,
        1 => Rules::All,
        _ => Rules::None,
    }
}

/// Which escape sequences stay, by the number.
pub(crate) fn escapes_numbered(number: u32) -> Escapes
    requires { number < length all_escapes }
    ensures { result ≡ get_or all_escapes number OfColors }
{
    match number {
        0 => Escapes::Colors,
        1 => Escapes::All,
        _ => Escapes::None,
    }
}

/// The priority of this number. Of equally wide columns the right one gives up width first.
pub(crate) fn priority_numbered(number: u32) -> Choice
    requires { number < length priorities }
    ensures { result ≡ get_or priorities number Widest }
{
    match number {
        0 => Choice::None,
        1 => Choice::MinRight,
        2 => Choice::MaxRight,
        3 => Choice::Left,
        _ => Choice::Right,
    }
}

/// Which columns a table has, by the number.
pub(crate) fn columns_numbered(number: u32) -> ColumnsShown
    requires { number < length columns_shown }
    ensures { result ≡ get_or columns_shown number Fitting }
{
    if number == 0 {
        ColumnsShown::Fitting
    } else {
        ColumnsShown::All
    }
}

/// A number that may be missing: the greatest one means that it is.
pub(crate) fn number_in(number: usize) -> Option<usize>
    ensures { result ≡ number_in number }
{
    if number == usize::MAX {
        None
    } else {
        Some(number)
    }
}
