//! The command, with its options and the texts of its help.
ghost use Rattle.std.specs.Prelude.{◌≡◌, IfOk, codes, false};
ghost use Rattle.clap.specs.Words.{app_of, rule_of};
ghost use Rattle.command_line.specs.Options.Rules.{IsOfNames, flag_rule};
ghost use Rattle.command_line.specs.Columns.Command.{IsColumns, color_rule, width_rule};
ghost use Rattle.command_line.specs.Columns.Names.{priority_names, style_names};

use crate::options::{flag, one_of, text};
use clap::builder::ValueParser;
use clap::{Arg, ArgAction, Command};
use std::alloc::{AllocError, Global};

static PRIORITIES: [&str; 5] = ["none", "min", "max", "left", "right"];

static STYLES: [&str; 4] = ["ascii", "modern", "extended", "empty"];

const VERSION: &str = "0.1.0";

const ABOUT: &str = "\
Reads standard input, also from a terminal, to its end (Ctrl-D), and prints it
as a table.

Each line is a row, and a tab ends a cell. Colours and other escape sequences
are kept.";

const USAGE: &str = "columns [OPTIONS] < FILE";

const AFTER_HELP: &str = "\
Colours:
  black, red, green, yellow, blue, magenta, cyan, white, bold, underline

Examples:
  columns --width 60 --priority max < report.tsv
          a table narrowed to 60 columns, of which the widest gives first
  printf 'name\\tsize\\nlog\\t42\\n' | columns
          a table of two rows, with lines of -, | and +
  columns --width 40 --keep-words --style modern < notes.tsv
          a table narrowed to 40 columns, its lines wrapped between words
  columns --color 0=bold,2=red < notes.tsv
          a table whose first column is bold and whose third is red

Exit status:
  0  the table, this help or the version was printed
  1  reading or printing failed, or the text has an error: standard error says how
  2  the arguments are wrong: standard error says how";

/// The command: its options, and the values that each takes.
pub fn command<'a>(alloc: Global) -> Result<Command<'a>, AllocError>
    ensures { IfOk result (λ command. IsColumns (app_of command)) }
{
    Command::new(alloc, "columns")
        .version(VERSION)
        .about(ABOUT)
        .override_usage(USAGE)
        .after_help(AFTER_HELP)
        .arg(width(alloc))?
        .arg(truncate(alloc))?
        .arg(keep_words(alloc))?
        .arg(priority(alloc))?
        .arg(style(alloc))?
        .arg(streamed(alloc))?
        .arg(color(alloc))
}

// How wide the table may be, in columns.
fn width<'a>(alloc: Global) -> Arg<'a>
    ensures rule { rule_of result ≡ width_rule }
    ensures global { result.global ≡ false }
{
    Arg::new(alloc, "width")
        .long("width")
        .value_name("N")
        .action(ArgAction::Set)
        .value_parser(ValueParser::unsigned(0, 4294967295))
        .help("Narrow the table to N columns, 0 to 4294967295 [default: as wide as its text]")
}

// Whether to cut off what doesn't fit.
fn truncate<'a>(alloc: Global) -> Arg<'a>
    ensures rule { rule_of result ≡ flag_rule (codes "truncate") }
    ensures global { result.global ≡ false }
{
    flag(alloc, "truncate").help("With --width: cut off what doesn't fit [default: wrap lines]")
}

// Whether to wrap lines between words.
fn keep_words<'a>(alloc: Global) -> Arg<'a>
    ensures rule { rule_of result ≡ flag_rule (codes "keep-words") }
    ensures global { result.global ≡ false }
{
    flag(alloc, "keep-words").help("With --width: wrap lines between words [default: anywhere]")
}

// Which column is made narrower first.
fn priority<'a>(alloc: Global) -> Arg<'a>
    ensures rule { IsOfNames (codes "priority") priority_names (rule_of result) }
    ensures global { result.global ≡ false }
{
    one_of(alloc, "priority", "PRIORITY", PRIORITIES.as_slice()).help(
        "With --width: which column gives first; none: each in turn",
    )
}

// The glyphs.
fn style<'a>(alloc: Global) -> Arg<'a>
    ensures rule { IsOfNames (codes "style") style_names (rule_of result) }
    ensures global { result.global ≡ false }
{
    one_of(alloc, "style", "STYLE", STYLES.as_slice()).help(
        "The table's lines: - | +, light, double, or none at all",
    )
}

// Whether to print a streamed table.
fn streamed<'a>(alloc: Global) -> Arg<'a>
    ensures rule { rule_of result ≡ flag_rule (codes "streamed") }
    ensures global { result.global ≡ false }
{
    flag(alloc, "streamed").help("Print a streamed table: as wide as its text, by --style alone")
}

// The colours of columns.
fn color<'a>(alloc: Global) -> Arg<'a>
    ensures rule { rule_of result ≡ color_rule }
    ensures global { result.global ≡ false }
{
    text(alloc, "color", "LIST").help(
        "Colour columns, from 0: COLUMN=NAME, separated by commas [default: none]",
    )
}
