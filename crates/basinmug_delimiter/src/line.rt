//! The first line, byte by byte.
ghost use Rattle.std.specs.Prelude.{◌≡◌, ◌+◌, ◌^◌, ℕ, drop};
ghost use Rattle.basinmug_delimiter.specs.Choosing.{delimiter_in};
ghost use Rattle.basinmug_delimiter.specs.Counting.{HasAtMost, counts_of, plus};
ghost use Rattle.basinmug_delimiter.specs.Places.{outside_at, outside_of, is_counted};
ghost use Rattle.basinmug_delimiter.specs.States.{state_after};
ghost use Rattle.basinmug_delimiter.specs.Walking.{all_counts, start};

use crate::counts::Counts;
use crate::places::{Place, first};
use crate::sequences::rendition_len;
use crate::state::State;

/// The byte that the first line chooses: a comma where there is none.
pub(crate) fn delimiter_in(text: &[u8]) -> u8
    ensures { result ≡ delimiter_in text.now }
{
    let quoted = read_line(text, true);
    if quoted.state.is_quoted() {
        read_line(text, false).counts.chosen()
    } else {
        quoted.counts.chosen()
    }
}

/// How far the first line is read.
#[derive(Clone, Copy)]
pub(crate) struct Progress {
    /// How the next byte is read.
    pub(crate) state: State,
    /// How many bytes more belong to a sequence that has begun.
    pub(crate) covered: usize,
    /// The byte before; 0 where there is none.
    pub(crate) before: u8,
    /// What was met.
    pub(crate) counts: Counts,
}

impl Progress {
    // Nothing is read.
    fn start() -> Progress
        ensures read { result ≡ start }
        ensures few { HasAtMost 0 result.counts }
    {
        Progress {
            state: State::Before,
            covered: 0,
            before: 0,
            counts: Counts::none(),
        }
    }

    // What is read with the first byte of these.
    fn with(self, quotes: bool, bytes: &[u8]) -> Progress
        requires { HasAtMost (2 ^ 63) self.counts }
        ensures counts { all_counts quotes result (drop 1 bytes.now) ≡ all_counts quotes self bytes.now }
        ensures state { state_after quotes result.state (drop 1 bytes.now) ≡ state_after quotes self.state bytes.now }
        ensures few { (n : ℕ) → HasAtMost n self.counts → HasAtMost (n + 1) result.counts }
    {
        let [byte, rest @ ..] = bytes else {
            return self;
        };
        let place = Place {
            before: self.before,
            here: *byte,
            after: first(rest),
        };
        let covered = self.covered.max(rendition_len(bytes));
        Progress {
            state: self.state.next_state(quotes, *byte),
            covered: covered.saturating_sub(1),
            before: *byte,
            counts: self.met(covered, place),
        }
    }

    // What was met with this byte, from which on so many belong to a sequence.
    fn met(self, covered: usize, place: Place) -> Counts
        requires { HasAtMost (2 ^ 63) self.counts }
        ensures counts { result ≡ plus self.counts (counts_of (outside_at self.state covered place)) }
        ensures few { (n : ℕ) → HasAtMost n self.counts → HasAtMost (n + 1) result }
    {
        if is_counted(self.state, covered) {
            self.counts.with(place)
        } else {
            self.counts
        }
    }
}

// Whether a byte read in this state, from which on so many belong to a sequence, is in none and in no quotes.
fn is_counted(state: State, covered: usize) -> bool
    ensures { result ≡ is_counted state covered }
{
    state.is_outside() && covered == 0
}

// What is met in the first line, and the state at its end: in quotes, where these count and one isn't closed.
fn read_line(text: &[u8], quotes: bool) -> Progress
    ensures counts { result.counts ≡ counts_of (outside_of quotes text.now) }
    ensures state { result.state ≡ state_after quotes State.Before text.now }
{
    let mut read = Progress::start();
    for at in 0..text.len() {
        if read.state.is_ended() {
            return read;
        }
        read = read.with(quotes, &text[at..]);
    }
    read
}
