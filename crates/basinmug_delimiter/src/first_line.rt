//! The first line of a text whose bytes come one block after the other.
ghost use Rattle.std.specs.Prelude.{◌≡◌, ◌≤◌, ◌↔◌, List, ℕ, IsTrue, [], length, take, true};
ghost use Rattle.basinmug_delimiter.specs.FirstLines.{HasFirstLine, IsKnownOf};
ghost use Rattle.basinmug_delimiter.specs.States.{state_after};

use crate::preamble::{tells_mark, without_mark};
use crate::state::State;

/// What is known of the first line of a text, by the bytes that have come.
#[derive(Clone, Copy)]
pub struct FirstLine {
    // What the next byte is in; none where a byte order mark may still be at the start.
    stand: Option<State>,
}

impl FirstLine {
    /// Nothing is known.
    pub fn start() -> FirstLine
        ensures { IsKnownOf [] result }
    {
        FirstLine { stand: None }
    }

    /// What is known by all bytes that have come, of which those from `from` on are new. The others are not read,
    /// but the first three.
    pub fn with(self, bytes: &[u8], from: usize) -> FirstLine
        requires within { from ≤ length bytes.now }
        requires known { IsKnownOf (take from bytes.now) self }
        ensures { IsKnownOf bytes.now result }
    {
        match self.stand {
            Some(stand) => FirstLine {
                stand: Some(state_behind(stand, &bytes[from..])),
            },
            None if tells_mark(bytes) => FirstLine {
                stand: Some(state_behind(State::Before, without_mark(bytes))),
            },
            None => self,
        }
    }

    /// Whether the first line has ended, so that no byte that comes later changes what is found.
    pub fn is_whole(self) -> bool
        ensures { (bytes : List ℕ) → IsKnownOf bytes self → (IsTrue result ↔ HasFirstLine bytes) }
    {
        match self.stand {
            Some(stand) => stand.is_ended(),
            None => false,
        }
    }
}

// What the byte after these is in.
fn state_behind(stand: State, bytes: &[u8]) -> State
    ensures { result ≡ state_after true stand bytes.now }
{
    bytes
        .iter()
        .fold(stand, |stand, byte| stand.next_state(true, *byte))
}
