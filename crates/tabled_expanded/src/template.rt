//! What is in the heads of records.
ghost use Rattle.std.specs.Prelude.{ℕ, Result, String};
ghost use Rattle.std.specs.declared.alloc.Global.{Global as Heap};
ghost use Rattle.grid_config_values.specs.declared.fault.Fault.{Fault as TableFault};
ghost use Rattle.tabled_expanded.specs.Heads.{GivesNumber};

use grid_config_values::Fault;
use std::alloc::{AllocError, Global};

/// What is in the heads of records.
pub trait Template {
    // A head may be requested for each record.
    ghost can_give: { Self → Type 0 } = { λ _. Unit {0} };

    // What it may return for the number of a record.
    ghost gives: { Self → ℕ → Result (String Heap) TableFault → Type 0 };

    /// The text in the head of a record, whose number counts from 0, provided that it may be requested. What
    /// prints the records passes an error on.
    fn head(&self, alloc: Global, number: usize) -> Result<String, Fault>
        requires { can_give self.now }
        ensures { gives self.now number result };
}

/// The number of the record: `[ RECORD 0 ]`, and so on. It is refused only where allocation fails.
#[derive(Clone, Copy)]
pub struct RecordNumber;

impl Template for RecordNumber {
    ghost gives = { λ _ number answer. GivesNumber number answer };

    fn head(&self, alloc: Global, number: usize) -> Result<String, Fault> {
        Ok(numbered(alloc, number)?)
    }
}

ghost use Rattle.std.specs.Prelude.{◌≡◌, IfOk, string_bytes};
ghost use Rattle.tabled_expanded.specs.Heads.{record_number};

// The number of a record in brackets.
fn numbered(alloc: Global, number: usize) -> Result<String, AllocError>
    ensures { IfOk result (λ text. string_bytes text ≡ record_number number) }
{
    format!(in alloc; "[ RECORD {number} ]")
}
