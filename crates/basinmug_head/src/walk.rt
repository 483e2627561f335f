//! Where the last of so many records ends.
ghost use Rattle.std.specs.Prelude.{◌≡◌, ◌<◌, ◌≤◌, ℕ, List, [], None, length, take};
ghost use Rattle.basinmug_input.specs.Reading.{settings};
ghost use Rattle.basinmug_input.specs.Walking.{csv_action};
ghost use Rattle.basinmug_head.specs.Walking.{IsStep, IsStepOver, IsWalkOf, IsWalked, IsWalkedOver, KeepsFound, left_behind};

use basinmug_delimiter::{Found, tells_mark};
use basinmug_input::progress::{ByteAction, RecordState, step};
use basinmug_input::without_mark;

/// How far the records of a text are walked over.
#[derive(Clone, Copy)]
pub(crate) struct Walk {
    // What is between the fields of the text, and where its records begin.
    found: Found,
    // How many records are still to end, the one at hand among them.
    left: usize,
    // The state of the machine; none where a byte order mark may still come before the records.
    state: Option<RecordState>,
}

/// What comes of more bytes.
#[derive(Clone, Copy)]
pub(crate) enum Step {
    /// Records are still to end.
    On(Walk),
    /// The last record ends before this byte.
    End(usize),
}

impl Walk {
    /// No byte is walked over, and so many records are to end.
    pub(crate) fn start(found: Found, records: usize) -> Walk
        requires { 0 < records }
        ensures { IsWalked found records [] result }
    {
        Walk {
            found,
            left: records,
            state: None,
        }
    }

    /// What comes of the bytes from `from` on, of all that have come.
    pub(crate) fn with(self, bytes: &[u8], from: usize) -> Step
        requires within { from ≤ length bytes.now }
        requires starts { self.found.start ≤ length bytes.now }
        ensures found { KeepsFound self.found result }
        ensures step { (records : ℕ) → IsWalked self.found records (take from bytes.now) self → IsStep self.found records bytes.now result }
    {
        match self.state {
            Some(state) => self.over(state, &bytes[from..], bytes.len()),
            None => self.from_start(bytes),
        }
    }

    // The same where no byte is walked over yet.
    fn from_start(self, bytes: &[u8]) -> Step
        requires { self.found.start ≤ length bytes.now }
        ensures found { KeepsFound self.found result }
        ensures step { (records : ℕ) → self.left ≡ records → 0 < records → self.state ≡ None → IsStep self.found records bytes.now result }
    {
        let text = &bytes[self.found.start..];
        if !tells_mark(text) {
            return Step::On(self);
        }
        self.over(RecordState::RecordStart, without_mark(text), bytes.len())
    }

    // What comes of these bytes, the last of so many, where the machine is in this state.
    fn over(self, state: RecordState, bytes: &[u8], size: usize) -> Step
        requires { length bytes.now ≤ size }
        ensures found { KeepsFound self.found result }
        ensures step { (records : ℕ) (text : List ℕ) → IsWalkOf (settings self.found.delimiter) records text state self.left → IsStepOver self.found records text bytes.now size result }
    {
        let walked = walked_over(self.found.delimiter, state, self.left, bytes);
        if walked.left == 0 {
            return Step::End(size - bytes.len() + walked.count);
        }
        Step::On(Walk {
            left: walked.left,
            state: Some(walked.state),
            ..self
        })
    }
}

/// The state of the machine after some bytes, how many they are, and how many records are then still to end.
#[derive(Clone, Copy)]
struct Walked {
    state: RecordState,
    left: usize,
    count: usize,
}

// Walks over bytes, up to the end of the last record.
fn walked_over(delimiter: u8, state: RecordState, left: usize, bytes: &[u8]) -> Walked
    ensures within { result.count ≤ length bytes.now }
    ensures walked { 0 < left → IsWalkedOver (settings delimiter) state left bytes.now result }
{
    let mut stands = state;
    let mut still = left;
    for at in 0..bytes.len() {
        let (next, action) = step(delimiter, stands, bytes[at]);
        stands = next;
        still = left_behind(action, still);
        if still == 0 {
            return Walked {
                state: stands,
                left: 0,
                count: at + 1,
            };
        }
    }
    Walked {
        state: stands,
        left: still,
        count: bytes.len(),
    }
}

// How many of so many records are still to end after a byte with this action.
fn left_behind(action: ByteAction, left: usize) -> usize
    ensures { result ≡ left_behind (csv_action action) left }
{
    match action {
        ByteAction::EndRecord => left.saturating_sub(1),
        ByteAction::Skip | ByteAction::Copy | ByteAction::EndField => left,
    }
}
