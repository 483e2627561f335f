//! Laws of the definitions that the other contracts cite.

ghost use Rattle.std.specs.Prelude.{◌≡◌, ◌↔◌, IsTrue, List, Some, true};
ghost use Rattle.std.specs.declared.alloc.AllocError.{AllocError as Refused};
ghost use Rattle.std.specs.declared.cmp.Ordering.TheVariants.{Equal};
ghost use Rattle.ansi_scan.specs.Sequences.{Piece};
ghost use Rattle.ansi_scan.specs.Attributes.{Attributes, plain_attributes};
ghost use Rattle.ansi_str_search.specs.Text.StyledText.{style_after_all};
ghost use Rattle.grid_config.specs.declared.colors.borrowed.ANSIStr.{ANSIStr as Borrowed};
ghost use Rattle.grid_config.specs.declared.colors.fault.BufFault.{BufFault as OneFault};
ghost use Rattle.grid_config.specs.declared.colors.fault.BufFault.TheVariants.{Memory};
ghost use Rattle.grid_config.specs.Ansi.Closing.{Clears};
ghost use Rattle.grid_config.specs.Ansi.Clearing.{ClearsEach, codes_of};
ghost use Rattle.grid_config.specs.Ansi.Colors.{color_of};
ghost use Rattle.grid_config.specs.Ansi.Equality.{compared, equal};
ghost use Rattle.grid_config.specs.Ansi.Fault.{fault_text};

use crate::colors::borrowed::ANSIStr;
use crate::colors::fault::BufFault;
use std::alloc::AllocError;
use std::fmt::Display;

/// The two wordings of a suffix that clears a style are one: read from plain and from the style it ends
/// plain, or read from plain it ends plain and one of its codes clears each attribute that is set.
pub fn one_meaning()
    ensures { (style : Attributes) (suffix : List Piece) →
        Clears style suffix ↔ ((style_after_all plain_attributes suffix ≡ plain_attributes) × ClearsEach style (codes_of suffix)) }
{}

/// `==` of borrowed colours is equality of both texts, and `cmp` finds the same ones equal.
pub fn equal_colors_have_the_same_texts()
    ensures equality { (a b : Borrowed) → IsTrue (equal a b) ↔ (color_of a ≡ color_of b) }
    ensures order { (a b : Borrowed) → (compared a b ≡ Equal) ↔ (color_of a ≡ color_of b) }
{}

/// A clone of a borrowed colour has the same texts, and is never refused.
pub fn clones_of_colors_have_the_same_texts()
    ensures clone { (source clone : Borrowed) → ⟦<ANSIStr<'static> as Clone>⟧.is_clone source clone → color_of clone ≡ color_of source }
    ensures comes { (source : Borrowed) → ⟦<ANSIStr<'static> as Clone>⟧.is_infallible source }
{}

/// `==` of the reasons for which a text has no colour is equality; a clone is the same reason, and is never
/// refused; each prints a text of its own, and one of memory becomes `Memory`.
pub fn color_faults_are_compared_cloned_and_printed_whole()
    ensures equality { (a b : OneFault) → (⟦<BufFault as PartialEq>⟧.eq a b ≡ true) ↔ (a ≡ b) }
    ensures clone { (source clone : OneFault) → ⟦<BufFault as Clone>⟧.is_clone source clone → clone ≡ source }
    ensures comes { (source : OneFault) → ⟦<BufFault as Clone>⟧.is_infallible source }
    ensures printed { (fault : OneFault) → ⟦<BufFault as Display>⟧.output fault ≡ Some (fault_text fault) }
    ensures of_memory { (given : Refused) (fault : OneFault) → ⟦<BufFault as From<AllocError>>⟧.from_gives given fault → fault ≡ Memory }
{}
