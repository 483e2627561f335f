//! How far a text of records is read, by the machine of `csv` (RFC 4180, section 2). Its reader says neither where a
//! field is nor that a quote isn't closed, so that the machine is walked again where one of these is asked.
ghost use Rattle.std.specs.Prelude.{◌≡◌, ◌+◌, ℕ, List, [], ◌∷◌, ◌++◌};
ghost use Rattle.csv.specs.Machine as Machine;
ghost use Rattle.csv.specs.declared.parser.State.TheVariants as st;
ghost use Rattle.basinmug_input.specs.Reading.{settings};
ghost use Rattle.basinmug_input.specs.Walking.{csv_action, csv_state, HasAtMost, CanCountOn, IsReadOf};

/// What encloses a quoted field.
pub(crate) const QUOTE: u8 = b'"';

/// Where in a record the machine is.
#[derive(Clone, Copy)]
pub enum RecordState {
    RecordStart,
    FieldStart,
    Unquoted,
    Quoted,
    /// After a quote in a quoted field: it closes the field, or is the first of two.
    QuoteBehind,
    /// After a carriage return that ended a record.
    ReturnBehind,
}

/// What a byte does.
#[derive(Clone, Copy)]
pub enum ByteAction {
    Skip,
    Copy,
    EndField,
    EndRecord,
}

/// What has been read of a text: the machine's state, and how many records, fields of the record at hand and bytes of
/// the field at hand.
#[derive(Clone, Copy)]
pub(crate) struct Progress {
    pub(crate) state: RecordState,
    pub(crate) records: usize,
    pub(crate) fields: usize,
    pub(crate) bytes: usize,
}

impl Progress {
    /// Nothing read.
    pub(crate) fn start() -> Progress
        ensures read { (delimiter : ℕ) → IsReadOf (settings delimiter) [] result }
        ensures few { HasAtMost 0 result }
    {
        Progress {
            state: RecordState::RecordStart,
            records: 0,
            fields: 0,
            bytes: 0,
        }
    }

    /// What has been read with one byte more.
    pub(crate) fn with(self, delimiter: u8, byte: u8) -> Progress
        requires { CanCountOn self }
        ensures read { (front : List ℕ) → IsReadOf (settings delimiter) front self → IsReadOf (settings delimiter) (front ++ byte ∷ []) result }
        ensures few { (n : ℕ) → HasAtMost n self → HasAtMost (n + 1) result }
    {
        let (state, action) = step(delimiter, self.state, byte);
        match action {
            ByteAction::Skip => Progress { state, ..self },
            ByteAction::Copy => Progress {
                state,
                bytes: self.bytes + 1,
                ..self
            },
            ByteAction::EndField => Progress {
                state,
                fields: self.fields + 1,
                bytes: 0,
                ..self
            },
            ByteAction::EndRecord => Progress {
                state,
                records: self.records + 1,
                fields: 0,
                bytes: 0,
            },
        }
    }
}

/// The state after a byte, and what the byte does.
pub fn step(delimiter: u8, state: RecordState, byte: u8) -> (RecordState, ByteAction)
    ensures state { csv_state result.0 ≡ (Machine.step (settings delimiter) (csv_state state) byte).0 }
    ensures action { csv_action result.1 ≡ (Machine.step (settings delimiter) (csv_state state) byte).1 }
{
    match state {
        RecordState::RecordStart => record_start(delimiter, byte),
        RecordState::FieldStart => field_start(delimiter, byte),
        RecordState::Unquoted => unquoted(delimiter, byte),
        RecordState::Quoted if byte == QUOTE => (RecordState::QuoteBehind, ByteAction::Skip),
        RecordState::Quoted => (RecordState::Quoted, ByteAction::Copy),
        RecordState::QuoteBehind if byte == QUOTE => (RecordState::Quoted, ByteAction::Copy),
        RecordState::QuoteBehind => unquoted(delimiter, byte),
        RecordState::ReturnBehind if byte == b'\n' => (RecordState::RecordStart, ByteAction::Skip),
        RecordState::ReturnBehind => record_start(delimiter, byte),
    }
}

// The same where a record may begin: empty lines are no records.
fn record_start(delimiter: u8, byte: u8) -> (RecordState, ByteAction)
    ensures state { csv_state result.0 ≡ (Machine.step (settings delimiter) st.StartRecord byte).0 }
    ensures action { csv_action result.1 ≡ (Machine.step (settings delimiter) st.StartRecord byte).1 }
{
    if byte == b'\r' || byte == b'\n' {
        (RecordState::RecordStart, ByteAction::Skip)
    } else {
        field_start(delimiter, byte)
    }
}

// The same where a field begins.
fn field_start(delimiter: u8, byte: u8) -> (RecordState, ByteAction)
    ensures state { csv_state result.0 ≡ (Machine.step (settings delimiter) st.StartField byte).0 }
    ensures action { csv_action result.1 ≡ (Machine.step (settings delimiter) st.StartField byte).1 }
{
    if byte == QUOTE {
        (RecordState::Quoted, ByteAction::Skip)
    } else {
        unquoted(delimiter, byte)
    }
}

// The same outside quotes.
fn unquoted(delimiter: u8, byte: u8) -> (RecordState, ByteAction)
    ensures state { csv_state result.0 ≡ (Machine.step (settings delimiter) st.InField byte).0 }
    ensures action { csv_action result.1 ≡ (Machine.step (settings delimiter) st.InField byte).1 }
{
    if byte == delimiter {
        (RecordState::FieldStart, ByteAction::EndField)
    } else if byte == b'\r' {
        (RecordState::ReturnBehind, ByteAction::EndRecord)
    } else if byte == b'\n' {
        (RecordState::RecordStart, ByteAction::EndRecord)
    } else {
        (RecordState::Unquoted, ByteAction::Copy)
    }
}
