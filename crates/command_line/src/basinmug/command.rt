//! The command, with its options and the texts of its help.
ghost use Rattle.std.specs.Prelude.{◌≡◌, IfOk, codes, false};
ghost use Rattle.clap.specs.Words.{app_of, rule_of};
ghost use Rattle.command_line.specs.Options.Rules.{IsOfNames, flag_rule, text_rule};
ghost use Rattle.command_line.specs.Basinmug.Command.{IsBasinmug, file_rule};
ghost use Rattle.command_line.specs.Basinmug.Names.{escapes_names, line_style_names, priority_names, rules_names};

use crate::options::{flag, one_of, text};
use clap::builder::ValueParser;
use clap::{Arg, ArgAction, Command};
use std::alloc::{AllocError, Global};

static ESCAPES: [&str; 3] = ["colors", "all", "none"];

static PRIORITIES: [&str; 5] = ["max", "none", "min", "left", "right"];

static STYLES: [&str; 6] = [
    "rounded", "modern", "ascii", "extended", "markdown", "empty",
];

static RULES: [&str; 3] = ["header", "all", "none"];

const VERSION: &str = "0.1.0";

const INPUT: &str = "Input";

const WIDTH: &str = "Width";

const LOOK: &str = "Look";

const ROWS: &str = "Rows";

const ABOUT: &str = "\
Prints CSV or TSV as a table.

The delimiter is found: a first line sep=; names it; else it is the tab where
FILE's name ends in .tsv or .tab, else the tab, comma, semicolon or bar that
the first line has. Without FILE, or where it is -, standard input is read. The
table is at most as wide as COLUMNS says in the environment, where that is a
number above 0; else it is as wide as its text. Of escape sequences those of
colours are kept; most others are shown as text. Columns of numbers are at the
right.";

const USAGE: &str = "basinmug [OPTIONS] [FILE]";

const AFTER_HELP: &str = "\
Columns in lists:
  by number, from 0, or by their text in the header: 0=bold,price=red
  --columns takes ranges of numbers too: price,2-4,0

Colours:
  black, red, green, yellow, blue, magenta, cyan, white, bold, underline

Examples:
  basinmug notes.csv
          the table of a file, with a line below its header
  printf 'name;size\\nlog;42\\n' | basinmug
          fields separated by semicolons, from standard input
  basinmug --delimiter ' ' words.txt
          fields separated by spaces, which are not looked for
  basinmug --width 60 --style modern --rules all notes.csv
          a table of at most 60 columns, with a line below each row
  basinmug --color 0=bold,hours=red --align author=right notes.csv
          a bold first column, red hours, authors at the right
  basinmug --columns hours,0-2 notes.csv
          the hours first, then the first three columns, and no others
  basinmug --style markdown notes.csv > notes.md
          a table for a document
  basinmug --expanded --max-rows 2 notes.csv
          the first two records, each field on lines of its own
  basinmug --head 5 long.csv
          the first five records; what is below them is not read
  basinmug --tail 5 long.csv
          the last five records, and how many are before them

Exit status:
  0  the table, this help or the version was printed
  1  reading or printing failed, or the text has an error: standard error says how
  2  the arguments are wrong: standard error says how";

/// The command: its options, and the values that each of them takes.
pub fn command<'a>(alloc: Global) -> Result<Command<'a>, AllocError>
    ensures { IfOk result (λ command. IsBasinmug (app_of command)) }
{
    Command::new(alloc, "basinmug")
        .version(VERSION)
        .about(ABOUT)
        .override_usage(USAGE)
        .after_help(AFTER_HELP)
        .arg(file(alloc))?
        .arg(delimiter(alloc))?
        .arg(no_header(alloc))?
        .arg(escapes(alloc))?
        .arg(width(alloc))?
        .arg(priority(alloc))?
        .arg(truncate(alloc))?
        .arg(all_columns(alloc))?
        .arg(style(alloc))?
        .arg(rules(alloc))?
        .arg(columns(alloc))?
        .arg(align(alloc))?
        .arg(color(alloc))?
        .arg(max_rows(alloc))?
        .arg(head(alloc))?
        .arg(tail(alloc))?
        .arg(expanded(alloc))
}

// The file that is read.
fn file<'a>(alloc: Global) -> Arg<'a>
    ensures rule { rule_of result ≡ file_rule }
    ensures global { result.global ≡ false }
{
    Arg::new(alloc, "file")
        .value_name("FILE")
        .action(ArgAction::Set)
        .value_parser(ValueParser::String)
        .help("The file to read; - or none: standard input")
}

// What separates fields.
fn delimiter<'a>(alloc: Global) -> Arg<'a>
    ensures rule { rule_of result ≡ text_rule (codes "delimiter") }
    ensures global { result.global ≡ false }
{
    text(alloc, "delimiter", "CHAR").help_heading(INPUT).help(
        "What separates fields: an ASCII character, tab, or auto: found in the text [default: auto]",
    )
}

// Whether there is no header.
fn no_header<'a>(alloc: Global) -> Arg<'a>
    ensures rule { rule_of result ≡ flag_rule (codes "no-header") }
    ensures global { result.global ≡ false }
{
    flag(alloc, "no-header")
        .help_heading(INPUT)
        .help("The first record is no header")
}

// Which escape sequences are kept.
fn escapes<'a>(alloc: Global) -> Arg<'a>
    ensures rule { IsOfNames (codes "escapes") escapes_names (rule_of result) }
    ensures global { result.global ≡ false }
{
    one_of(alloc, "escapes", "ESCAPES", ESCAPES.as_slice())
        .help_heading(INPUT)
        .help("Which escape sequences take effect; most others are shown as text")
}

// How wide the table may be, in columns.
fn width<'a>(alloc: Global) -> Arg<'a>
    ensures rule { rule_of result ≡ text_rule (codes "width") }
    ensures global { result.global ≡ false }
{
    text(alloc, "width", "N").help_heading(WIDTH).help(
        "At most N columns, 0 to 4294967295, or none: as wide as its text [default: COLUMNS, else none]",
    )
}

// Which column is made narrower first.
fn priority<'a>(alloc: Global) -> Arg<'a>
    ensures rule { IsOfNames (codes "priority") priority_names (rule_of result) }
    ensures global { result.global ≡ false }
{
    one_of(alloc, "priority", "PRIORITY", PRIORITIES.as_slice())
        .help_heading(WIDTH)
        .help("In a width: which column gives first; none: each in turn")
}

// Whether to cut off what doesn't fit.
fn truncate<'a>(alloc: Global) -> Arg<'a>
    ensures rule { rule_of result ≡ flag_rule (codes "truncate") }
    ensures global { result.global ≡ false }
{
    flag(alloc, "truncate").help_heading(WIDTH).help(
        "In a width: cut off what doesn't fit [default: wrap lines between words]",
    )
}

// Whether no column is left out.
fn all_columns<'a>(alloc: Global) -> Arg<'a>
    ensures rule { rule_of result ≡ flag_rule (codes "all-columns") }
    ensures global { result.global ≡ false }
{
    flag(alloc, "all-columns").help_heading(WIDTH).help(
        "In a width: leave no column out [default: show as many as fit, and … in place of the others]",
    )
}

// The lines of the table.
fn style<'a>(alloc: Global) -> Arg<'a>
    ensures rule { IsOfNames (codes "style") line_style_names (rule_of result) }
    ensures global { result.global ≡ false }
{
    one_of(alloc, "style", "STYLE", STYLES.as_slice())
        .help_heading(LOOK)
        .help("The table's lines; markdown takes no width")
}

// Between which rows lines are drawn.
fn rules<'a>(alloc: Global) -> Arg<'a>
    ensures rule { IsOfNames (codes "rules") rules_names (rule_of result) }
    ensures global { result.global ≡ false }
{
    one_of(alloc, "rules", "RULES", RULES.as_slice())
        .help_heading(LOOK)
        .help("Lines between rows: below the header, all or none")
}

// Which columns are shown.
fn columns<'a>(alloc: Global) -> Arg<'a>
    ensures rule { rule_of result ≡ text_rule (codes "columns") }
    ensures global { result.global ≡ false }
{
    text(alloc, "columns", "LIST").help_heading(LOOK).help(
        "Show these columns, in this order: COLUMN or N-M, separated by commas [default: all]",
    )
}

// The alignment of columns.
fn align<'a>(alloc: Global) -> Arg<'a>
    ensures rule { rule_of result ≡ text_rule (codes "align") }
    ensures global { result.global ≡ false }
{
    text(alloc, "align", "LIST").help_heading(LOOK).help(
        "Align columns: COLUMN=left, center or right, separated by commas [default: numbers at the right]",
    )
}

// The colours of columns.
fn color<'a>(alloc: Global) -> Arg<'a>
    ensures rule { rule_of result ≡ text_rule (codes "color") }
    ensures global { result.global ≡ false }
{
    text(alloc, "color", "LIST").help_heading(LOOK).help(
        "Colour columns: COLUMN=NAME, separated by commas [default: none]",
    )
}

// How many records are shown.
fn max_rows<'a>(alloc: Global) -> Arg<'a>
    ensures rule { rule_of result ≡ text_rule (codes "max-rows") }
    ensures global { result.global ≡ false }
{
    text(alloc, "max-rows", "N")
        .help_heading(ROWS)
        .help("Show at most N records, 0 to 4294967295 [default: all]")
}

// How many records are read.
fn head<'a>(alloc: Global) -> Arg<'a>
    ensures rule { rule_of result ≡ text_rule (codes "head") }
    ensures global { result.global ≡ false }
{
    text(alloc, "head", "N").help_heading(ROWS).help(
        "Read no more than the first N records, 0 to 4294967295 [default: all]",
    )
}

// How many of the last records are shown.
fn tail<'a>(alloc: Global) -> Arg<'a>
    ensures rule { rule_of result ≡ text_rule (codes "tail") }
    ensures global { result.global ≡ false }
{
    text(alloc, "tail", "N").help_heading(ROWS).help(
        "Show the last N records, 0 to 4294967295; with --max-rows M the first M too [default: all]",
    )
}

// Whether records are written one below the other.
fn expanded<'a>(alloc: Global) -> Arg<'a>
    ensures rule { rule_of result ≡ flag_rule (codes "expanded") }
    ensures global { result.global ≡ false }
{
    flag(alloc, "expanded").help_heading(ROWS).help(
        "Records one below the other, each field on lines of its own; of the look only --columns has an effect",
    )
}
