//! Options of a command line, by rules that both programs share.
//!
//! An option without a value, one that takes any text, and one that takes one of some names.
ghost use Rattle.std.specs.Prelude.{◌≡◌, ◌<◌, false, length, map};
ghost use Rattle.clap.specs.Words.{rule_of};
ghost use Rattle.command_line.specs.Options.Rules.{IsOfNames, flag_rule, text_rule};

use clap::builder::ValueParser;
use clap::{Arg, ArgAction};
use std::alloc::Global;

/// The option `--name`, which takes no value. It has no help yet.
pub fn flag<'a>(alloc: Global, name: &'a str) -> Arg<'a>
    ensures rule { rule_of result ≡ flag_rule name.now }
    ensures global { result.global ≡ false }
{
    Arg::new(alloc, name).long(name).action(ArgAction::SetTrue)
}

/// The option `--name`, which takes any text, called `value` in its help, and has no default. It has no help yet.
pub fn text<'a>(alloc: Global, name: &'a str, value: &'a str) -> Arg<'a>
    ensures rule { rule_of result ≡ text_rule name.now }
    ensures global { result.global ≡ false }
{
    Arg::new(alloc, name)
        .long(name)
        .value_name(value)
        .action(ArgAction::Set)
        .value_parser(ValueParser::String)
}

/// The option `--name`, which takes one of these names, called `value` in its help, and the first of them where it
/// isn't given. It has no help yet.
pub fn one_of<'a>(alloc: Global, name: &'a str, value: &'a str, names: &'a [&'a str]) -> Arg<'a>
    requires some { 0 < length names.now }
    ensures rule { IsOfNames name.now (map (λ name. name.now) names.now) (rule_of result) }
    ensures global { result.global ≡ false }
{
    Arg::new(alloc, name)
        .long(name)
        .value_name(value)
        .action(ArgAction::Set)
        .value_parser(names)
        .default_value(names[0])
}
