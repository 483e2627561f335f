//! Laws of what the contracts cite.

ghost use Rattle.std.specs.Prelude.{◌≡◌, ◌↔◌, ℕ, Ok, Some, [], codes, false, true};
ghost use Rattle.grid_config_values.specs.declared.fault.Fault.{Fault as TableFault};
ghost use Rattle.grid_config_values.specs.declared.fault.Fault.TheVariants.{Memory};
ghost use Rattle.std.specs.declared.alloc.AllocError.{AllocError as Refused};
ghost use Rattle.tabled_output.specs.Building.{build_fault_text, writing_fault};
ghost use Rattle.tabled_output.specs.Counts.{inner_of, is_write_refused, tells_end, writes_of_nothing_after};
ghost use Rattle.tabled_output.specs.Faults.{fault_text, read_fault_text};
ghost use Rattle.tabled_output.specs.declared.counted.Counted.{Counted as Counting};
ghost use Rattle.tabled_output.specs.declared.building.BuildFault.{BuildFault as OneBuildFault};
ghost use Rattle.tabled_output.specs.declared.building.BuildFault.TheVariants.{Table as OfTable};
ghost use Rattle.tabled_output.specs.declared.reading.ReadFault.{ReadFault as OneReadFault};
ghost use Rattle.tabled_output.specs.declared.writing.WriteFault.{WriteFault as OneFault};

use crate::building::BuildFault;
use crate::counted::Counted;
use crate::reading::ReadFault;
use crate::writing::WriteFault;
use grid_config_values::Fault;
use std::alloc::{AllocError, AllocFailed};
use std::fmt::Display;
use std::io::{Read, Write};

/// `==` of the reasons for which not all was written is equality. A clone is the same reason, and is never refused.
/// Each is printed as its own text.
pub fn faults_are_compared_cloned_and_printed_whole()
    ensures equality { (a b : OneFault) → (⟦<WriteFault as PartialEq>⟧.eq a b ≡ true) ↔ (a ≡ b) }
    ensures clone { (source clone : OneFault) → ⟦<WriteFault as Clone>⟧.is_clone source clone → clone ≡ source }
    ensures comes { (source : OneFault) → ⟦<WriteFault as Clone>⟧.is_infallible source }
    ensures printed { (fault : OneFault) → ⟦<WriteFault as Display>⟧.output fault ≡ Some (fault_text fault) }
{}

/// `==` of the reasons for which a reader was not read to its end is equality. A clone is the same reason, and is
/// never refused. Each is printed as its own text.
pub fn read_faults_are_compared_cloned_and_printed_whole()
    ensures equality { (a b : OneReadFault) → (⟦<ReadFault as PartialEq>⟧.eq a b ≡ true) ↔ (a ≡ b) }
    ensures clone { (source clone : OneReadFault) → ⟦<ReadFault as Clone>⟧.is_clone source clone → clone ≡ source }
    ensures comes { (source : OneReadFault) → ⟦<ReadFault as Clone>⟧.is_infallible source }
    ensures printed { (fault : OneReadFault) → ⟦<ReadFault as Display>⟧.output fault ≡ Some (read_fault_text fault) }
{}

/// `==` of refusals is equality. A clone is the same refusal, and is never refused. Each is printed as its own text.
/// Those of a table and of a writer become the one of the same meaning. A growth that was refused, or a value that
/// was not pushed, becomes the table's `Memory`.
pub fn build_faults_are_compared_cloned_and_printed_whole<T: Drop>()
    ensures equality { (a b : OneBuildFault) → (⟦<BuildFault as PartialEq>⟧.eq a b ≡ true) ↔ (a ≡ b) }
    ensures clone { (source clone : OneBuildFault) → ⟦<BuildFault as Clone>⟧.is_clone source clone → clone ≡ source }
    ensures comes { (source : OneBuildFault) → ⟦<BuildFault as Clone>⟧.is_infallible source }
    ensures printed { (fault : OneBuildFault) → ⟦<BuildFault as Display>⟧.output fault ≡ Some (build_fault_text fault) }
    ensures of_table { (given : TableFault) (fault : OneBuildFault) → ⟦<BuildFault as From<Fault>>⟧.from_gives given fault → fault ≡ OfTable given }
    ensures of_memory { (given : Refused) (fault : OneBuildFault) → ⟦<BuildFault as From<AllocError>>⟧.from_gives given fault → fault ≡ OfTable Memory }
    ensures of_push { (given : _) (fault : OneBuildFault) → ⟦<BuildFault as From<AllocFailed<T>>>⟧.from_gives given fault → fault ≡ OfTable Memory }
    ensures of_writer { (given : OneFault) (fault : OneBuildFault) → ⟦<BuildFault as From<WriteFault>>⟧.from_gives given fault → fault ≡ writing_fault given }
{}

/// What is left to read of a counted reader is what is left of the reader inside it. What a counted writer
/// holds is what the writer inside it holds.
pub fn counted_streams_are_those_within<R: Read, W: Write>()
    ensures remaining { (stream : Counting R) → ⟦<Counted<R> as Read>⟧.remaining stream ≡ R.remaining (inner_of stream) }
    ensures contents { (stream : Counting W) → ⟦<Counted<W> as Write>⟧.contents stream ≡ W.contents (inner_of stream) }
{}

/// Writes of an empty piece are counted, and no others; a write that took a byte is not refused; a read reports the end by
/// giving no byte.
pub fn counts_by_hand()
    ensures of_nothing { writes_of_nothing_after [] 3 ≡ 4 }
    ensures of_some { writes_of_nothing_after (codes "a") 3 ≡ 3 }
    ensures accepted { is_write_refused {E = ℕ} (Ok 1) (codes "a") ≡ false }
    ensures end { tells_end {E = ℕ} (Ok 0) ≡ true }
    ensures no_end { tells_end {E = ℕ} (Ok 1) ≡ false }
{}
