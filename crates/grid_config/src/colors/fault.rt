//! Why no colour was made of a text.
use std::alloc::AllocError;
use std::error::Error;
use std::fmt;

/// Why `ANSIBuf::from_text` gave no colour.
#[derive(Clone, Copy, Debug, PartialEq, Eq)]
pub enum BufFault {
    /// The text shows no character, so no block of it has a style.
    NoBlock,
    /// Allocation failed.
    Memory,
}

/// The reason as a short text, with no line feed.
impl fmt::Display for BufFault {
    ghost use Rattle.std.specs.Prelude.{Some};
    ghost use Rattle.grid_config.specs.Ansi.Fault.{fault_text};

    ghost output = { λ fault. Some (fault_text fault) };

    fn fmt<W: fmt::Write>(&self, f: &mut fmt::Formatter<W>) -> fmt::Result {
        match self {
            BufFault::NoBlock => write!(f, "no text to take a colour from"),
            BufFault::Memory => write!(f, "out of memory"),
        }
    }
}

impl Error for BufFault {}

impl From<AllocError> for BufFault {
    ghost use Rattle.std.specs.Prelude.{◌≡◌};
    ghost use Rattle.grid_config.specs.declared.colors.fault.BufFault.TheVariants.{Memory};

    ghost from_gives = { λ _ fault. fault ≡ Memory };

    fn from(_error: AllocError) -> BufFault {
        BufFault::Memory
    }
}
