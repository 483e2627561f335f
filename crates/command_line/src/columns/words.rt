//! What the arguments of the command line request.
ghost use Rattle.std.specs.Prelude.{◌≡◌, codes, map, option_map, vec_items, IfErr, IfOk, IfSome, IsErr};
ghost use Rattle.clap.specs.Words.{first_value, found_of, kind_of};
ghost use Rattle.program_options.specs.declared.columns.fault.RunFault.TheVariants.{Memory};
ghost use Rattle.command_line.specs.Columns.Asking.{IsAnswer, IsRunOf, IsTold, IsWidth, IsWidthOf, colors_asked};
ghost use Rattle.command_line.specs.Options.Given.{is_set};

use crate::columns::command::command;
use crate::columns::names::{priority_named, style_named};
use clap::error::ErrorKind;
use clap::{ArgMatches, Error};
use grid_config::ANSIBuf;
use program_options::color_list::colors_of;
use program_options::columns::{Options, RunFault};
use std::alloc::{AllocError, Global};
use std::convert::AsStr;

// The message for a list of colours that is not one.
const BAD_COLOR: &str = "columns: bad color";

/// What the arguments of a command line request.
#[derive(Debug, Drop)]
pub enum Asked {
    /// A table with these options. Where `streamed` is set it is a streamed one, by their style alone.
    Run { options: Options, streamed: bool },
    /// This text, the help or the version, which is for standard output.
    Help(String),
    /// An error: this text, which is for standard error, says why. For a list of colours that is not one it is
    /// `columns: bad color`, and ends without a line feed.
    Faulty(String),
}

/// What the arguments request. The first is the program's name and is passed over. Fails with `Memory` alone.
pub fn read_words<S: AsStr>(alloc: Global, words: &[S]) -> Result<Asked, RunFault>
    ensures answer { IfOk result (IsAnswer (map S.text words.entry.now)) }
    ensures refused { IfErr result (λ fault. fault ≡ Memory) }
{
    Ok(asked_by(alloc, words)?)
}

// What the arguments request, unless allocation fails.
fn asked_by<S: AsStr>(alloc: Global, words: &[S]) -> Result<Asked, AllocError>
    ensures { IfOk result (IsAnswer (map S.text words.entry.now)) }
{
    match command(alloc)?.try_get_matches_from(words) {
        Ok(matches) => run_of(alloc, &matches),
        Err(error) => told(alloc, &error),
    }
}

// The table that is requested, by the values that the command gives. A list of colours that is not one is an
// error, whatever the other values are.
fn run_of(alloc: Global, matches: &ArgMatches<'_>) -> Result<Asked, AllocError>
    requires { IfSome (first_value (found_of matches.now) (codes "width")) IsWidth }
    ensures { IfOk result (IsRunOf (first_value (found_of matches.now))) }
{
    let Some(colors) = colors(alloc, matches)? else {
        return Ok(Asked::Faulty(String::from_str(alloc, BAD_COLOR)?));
    };
    let options = Options {
        width: width(matches),
        truncate: is_set(matches, "truncate"),
        keep_words: is_set(matches, "keep-words"),
        priority: priority_named(matches.get_str("priority")),
        style: style_named(matches.get_str("style")),
        colors,
    };
    Ok(Asked::Run {
        options,
        streamed: is_set(matches, "streamed"),
    })
}

// The colours that are requested; none where their list has another form.
fn colors(
    alloc: Global,
    matches: &ArgMatches<'_>,
) -> Result<Option<Vec<(usize, ANSIBuf)>>, AllocError>
    ensures { IfOk result (λ found. option_map vec_items found ≡ colors_asked (first_value (found_of matches.now) (codes "color"))) }
{
    match matches.get_str("color") {
        Some(list) => colors_of(alloc, list),
        None => Ok(Some(Vec::new(alloc))),
    }
}

// The width that is requested.
fn width(matches: &ArgMatches<'_>) -> Option<usize>
    requires { IfSome (first_value (found_of matches.now) (codes "width")) IsWidth }
    ensures { IsWidthOf (first_value (found_of matches.now) (codes "width")) result }
{
    match matches.get_str("width") {
        Some(text) => text.parse::<usize>().ok(),
        None => None,
    }
}

// Whether the flag of this id is set.
fn is_set(matches: &ArgMatches<'_>, id: &str) -> bool
    ensures { result ≡ is_set (first_value (found_of matches.now) id.now) }
{
    match matches.get_str(id) {
        Some(text) => text == "true",
        None => false,
    }
}

// Why the command gives no values, as a text for the user.
fn told(alloc: Global, error: &Error) -> Result<Asked, AllocError>
    ensures text { IfOk result (IsTold (kind_of error.now)) }
    ensures memory { kind_of error.now ≡ ErrorKind.OutOfMemory → IsErr result }
{
    match error.kind() {
        ErrorKind::OutOfMemory => Err(AllocError),
        ErrorKind::DisplayHelp | ErrorKind::DisplayVersion => {
            Ok(Asked::Help(error.to_string(alloc)?))
        }
        _ => Ok(Asked::Faulty(error.to_string(alloc)?)),
    }
}
