//! A byte of the first line with its neighbours.
ghost use Rattle.std.specs.Prelude.{◌≡◌, slice_index};
ghost use Rattle.std.specs.Char.{is_ascii_digit};
ghost use Rattle.basinmug_delimiter.specs.Places.{is_decimal};

/// A byte, with the one before it and the one after it; 0 where there is none.
#[derive(Clone, Copy)]
pub(crate) struct Place {
    pub(crate) before: u8,
    pub(crate) here: u8,
    pub(crate) after: u8,
}

impl Place {
    /// Whether the byte is between two digits.
    pub(crate) fn is_decimal(self) -> bool
        ensures { result ≡ is_decimal self }
    {
        self.before.is_ascii_digit() && self.after.is_ascii_digit()
    }
}

/// The first byte; 0 where there is none.
pub(crate) fn first(bytes: &[u8]) -> u8
    ensures { result ≡ slice_index bytes.now 0 }
{
    match bytes {
        [byte, ..] => *byte,
        [] => 0,
    }
}
