//! A list of bytes that only proofs read.
ghost use Rattle.std.specs.Borrow.{ftrue};
ghost use Rattle.std.specs.Prelude.{◌≡◌, ◌++◌, [], ℕ, List};

use std::marker::Model;

/// A list of bytes that only proofs read. It takes no memory, and its functions do nothing at run time.
#[derive(Drop)]
pub(crate) struct Noted {
    pub ghost bytes: { List ℕ },
}

impl Model for Noted {
    ghost also_owns = { λ _. ftrue };
}

impl Noted {
    /// No bytes.
    pub(crate) fn none() -> Noted
        ensures { result.bytes ≡ [] }
    {
        Noted {}
    }

    /// Those of `before`, and then these.
    pub(crate) fn and(before: &Noted, bytes: &[u8]) -> Noted
        ensures { result.bytes ≡ before.now.bytes ++ bytes.now }
    {
        Noted {}
    }
}
