//! Worked command lines.
use command_line::columns::{Asked, read_words};
use program_options::columns::{Options, RunFault};
use std::alloc::Global;
use std::process::Abort;
use tabled_size_priority::Choice;

// The run that the arguments request, and none where they request none.
fn asked_run(alloc: Global, words: &[&str]) -> Result<Option<(Options, bool)>, RunFault> {
    match read_words(alloc, words)? {
        Asked::Run { options, streamed } => Ok(Some((options, streamed))),
        _ => Ok(None),
    }
}

// Arguments, and the run that they request: its width, whether it cuts off, its priority, and whether it goes row
// by row.
const RUNS: &[(&[&str], Option<usize>, bool, Choice, bool)] = &[
    (&["columns"], None, false, Choice::None, false),
    (
        &["columns", "--width", "6", "--truncate", "--priority", "max"],
        Some(6),
        true,
        Choice::MaxLeft,
        false,
    ),
    (
        &["columns", "--width", "4294967295"],
        Some(4294967295),
        false,
        Choice::None,
        false,
    ),
    (
        &["columns", "--streamed", "--style", "modern"],
        None,
        false,
        Choice::None,
        true,
    ),
];

fn expect_run(
    rt: &impl Abort,
    found: Option<(Options, bool)>,
    wanted: (Option<usize>, bool, Choice, bool),
) {
    let (options, streamed) = found.expect(rt, "no run is asked for");
    let found = (options.width, options.truncate, options.priority, streamed);
    assert_eq!(rt; found, wanted);
    assert!(rt; !options.keep_words);
}

#[test]
fn words_ask_for_a_run(rt: HostRuntime) -> Result<(), RunFault> {
    for (words, width, truncate, priority, streamed) in RUNS {
        let found = asked_run(rt.alloc(), words)?;
        expect_run(&rt, found, (*width, *truncate, *priority, *streamed));
    }
    Ok(())
}

// The glyph at the top left corner of the requested style.
#[test]
fn a_style_is_asked_for(rt: HostRuntime) -> Result<(), RunFault> {
    let words = &["columns", "--streamed", "--style", "modern"];
    let (options, _) = asked_run(rt.alloc(), words)?.expect(&rt, "no run is asked for");
    assert_eq!(rt; options.style.get_borders().top_left, Some('┌'));
    Ok(())
}

const AT_FAULT: &[&[&str]] = &[
    &["columns", "--width", "4294967296"],
    &["columns", "--style", "none"],
    &["columns", "x"],
];

#[test]
fn other_words_are_at_fault(rt: HostRuntime) -> Result<(), RunFault> {
    for words in AT_FAULT {
        let asked = read_words(rt.alloc(), *words)?;
        assert!(rt; matches!(asked, Asked::Faulty(_)), "{words:?}");
    }
    let asked = read_words(rt.alloc(), &["columns", "--help"])?;
    assert!(rt; matches!(asked, Asked::Help(_)));
    Ok(())
}
