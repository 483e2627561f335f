//! Prints tab-separated text as a table with borders, as the arguments of the command line request.
#![tactic(auto)]

ghost use Rattle.columns_run.specs.Narrow.{IsRunnable};
ghost use Rattle.columns_run.specs.Wanted.{wanted_of};

pub use columns_run::{
    Counted, Options, RunFault, colors_close, laws, read_all, run, run_streamed, style_is_plain,
};
use columns_run::{run_buffered, run_streamed_buffered};
pub use command_line::columns::{Asked, read_words};
use command_line::ending::{Ending, OUTPUT_BUFFER, words_of};
use std::env;
use std::process::ExitCode;
use tabled_output::write_all;

/// Standard input to standard output. Its status is 0; or 1 with one line on standard error; or 2, where the arguments
/// are wrong, with a text on standard error. Where standard error accepts nothing, the status alone says so.
fn main(rt: HostRuntime) -> ExitCode {
    let ending = answered(&rt);
    let _ = ending.say("columns", &mut rt.stderr());
    ending.status()
}

// Does what the arguments request.
fn answered(rt: &HostRuntime) -> Ending<RunFault> {
    let words = match words_of(rt.alloc(), env::args(rt)) {
        Ok(words) => words,
        Err(ending) => return ending,
    };
    match read_words(rt.alloc(), &words) {
        Ok(Asked::Run { options, streamed }) => Ending::from(print(rt, &options, streamed)),
        Ok(Asked::Help(text)) => Ending::from(tell(rt, &text)),
        Ok(Asked::Faulty(text)) => Ending::Faulty(text),
        Err(fault) => Ending::Failed(fault),
    }
}

// Prints the table. A buffer holds its lines until they are many, so that a line needs no system call of its own.
fn print(rt: &HostRuntime, options: &Options, streamed: bool) -> Result<(), RunFault>
    requires { IsRunnable (wanted_of options.now) }
{
    let mut reader = Counted::new(rt.stdin());
    let mut writer = Counted::new(rt.stdout());
    if streamed {
        let style = &options.style;
        run_streamed_buffered(rt.alloc(), style, OUTPUT_BUFFER, &mut reader, &mut writer)
    } else {
        run_buffered(rt.alloc(), options, OUTPUT_BUFFER, &mut reader, &mut writer)
    }
}

// Prints the help or the version.
fn tell(rt: &HostRuntime, text: &str) -> Result<(), RunFault> {
    let mut writer = Counted::new(rt.stdout());
    Ok(write_all(&mut writer, text.as_bytes())?)
}
