//! Laws of the errors of a run.
ghost use Rattle.std.specs.Prelude.{◌≡◌, ◌↔◌, Some, true};
ghost use Rattle.program_options.specs.Columns.Fault.{fault_text, read_fault, run_fault, write_fault};
ghost use Rattle.program_options.specs.declared.columns.fault.RunFault.{RunFault as OneFault};
ghost use Rattle.program_options.specs.declared.columns.fault.RunFault.TheVariants.{Memory as OutOfMemory};
ghost use Rattle.grid_config_values.specs.declared.fault.Fault.{Fault as TableFault};
ghost use Rattle.tabled_output.specs.declared.reading.ReadFault.{ReadFault as ReadingFault};
ghost use Rattle.tabled_output.specs.declared.writing.WriteFault.{WriteFault as WritingFault};
ghost use Rattle.std.specs.declared.alloc.AllocError.{AllocError as Refused};

use crate::columns::fault::RunFault;
use grid_config::Fault;
use std::alloc::AllocError;
use std::fmt::Display;
use tabled_output::{ReadFault, WriteFault};

/// `==` of errors is equality; a clone is the same error, and never fails. An error is printed by its own text.
/// Errors of a table, of a reader, of a writer and of memory become the one of the same meaning. The exception is
/// bad spans, which no table of a text has: they become `Range`.
pub fn faults_are_compared_cloned_and_printed_whole()
    ensures equality { (a b : OneFault) → (⟦<RunFault as PartialEq>⟧.eq a b ≡ true) ↔ (a ≡ b) }
    ensures clone { (source clone : OneFault) → ⟦<RunFault as Clone>⟧.is_clone source clone → clone ≡ source }
    ensures comes { (source : OneFault) → ⟦<RunFault as Clone>⟧.is_infallible source }
    ensures printed { (fault : OneFault) → ⟦<RunFault as Display>⟧.output fault ≡ Some (fault_text fault) }
    ensures of_table { (given : TableFault) (fault : OneFault) → ⟦<RunFault as From<Fault>>⟧.from_gives given fault → fault ≡ run_fault given }
    ensures of_reader { (given : ReadingFault) (fault : OneFault) → ⟦<RunFault as From<ReadFault>>⟧.from_gives given fault → fault ≡ read_fault given }
    ensures of_writer { (given : WritingFault) (fault : OneFault) → ⟦<RunFault as From<WriteFault>>⟧.from_gives given fault → fault ≡ write_fault given }
    ensures of_memory { (given : Refused) (fault : OneFault) → ⟦<RunFault as From<AllocError>>⟧.from_gives given fault → fault ≡ OutOfMemory }
{}
