//! How bytes of the first line are read: in a quoted field, or outside of one.
ghost use Rattle.std.specs.Prelude.{◌≡◌};
ghost use Rattle.basinmug_delimiter.specs.Bytes.{is_candidate};
ghost use Rattle.basinmug_delimiter.specs.States.{next_state, next_unquoted, is_ended, is_outside, is_quoted};

use crate::counts::{BAR, COMMA, SEMICOLON, TAB};
use crate::preamble::is_line_end;

// What a quoted field begins and ends with.
const QUOTE: u8 = b'"';

/// How a byte is read, by the bytes before it.
#[derive(Clone, Copy)]
pub(crate) enum State {
    /// Before the first line: all bytes so far end lines.
    Before,
    /// At the start of a field: a quote opens it.
    FieldStart,
    /// In a field that is not quoted.
    Field,
    /// In quotes.
    Quoted,
    /// After a quote in quotes: it closes the field, or is the first of two.
    AfterQuote,
    /// After the first line.
    Ended,
}

impl State {
    /// The state after one more byte. Quotes may not count.
    pub(crate) fn next_state(self, quotes: bool, byte: u8) -> State
        ensures { result ≡ next_state quotes self byte }
    {
        match self {
            State::Before if is_line_end(byte) => State::Before,
            State::Before | State::FieldStart => next_unquoted(quotes, byte),
            State::Field => next_unquoted(false, byte),
            State::Quoted if byte == QUOTE => State::AfterQuote,
            State::Quoted => State::Quoted,
            State::AfterQuote if byte == QUOTE => State::Quoted,
            State::AfterQuote => next_unquoted(false, byte),
            State::Ended => State::Ended,
        }
    }

    /// Whether a byte that is looked for is outside of quotes in the first line.
    pub(crate) fn is_outside(self) -> bool
        ensures { result ≡ is_outside self }
    {
        !matches!(self, State::Quoted | State::Ended)
    }

    /// Whether it is in quotes.
    pub(crate) fn is_quoted(self) -> bool
        ensures { result ≡ is_quoted self }
    {
        matches!(self, State::Quoted)
    }

    /// Whether it is after the first line.
    pub(crate) fn is_ended(self) -> bool
        ensures { result ≡ is_ended self }
    {
        matches!(self, State::Ended)
    }
}

// The state after a byte outside of quotes; a quote opens a field where one `opens`.
fn next_unquoted(opens: bool, byte: u8) -> State
    ensures { result ≡ next_unquoted opens byte }
{
    if is_line_end(byte) {
        State::Ended
    } else if opens && byte == QUOTE {
        State::Quoted
    } else if is_candidate(byte) {
        State::FieldStart
    } else {
        State::Field
    }
}

// Whether a byte is one of those that are looked for.
fn is_candidate(byte: u8) -> bool
    ensures { result ≡ is_candidate byte }
{
    byte == TAB || byte == COMMA || byte == SEMICOLON || byte == BAR
}
