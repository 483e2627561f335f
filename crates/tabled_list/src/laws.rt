//! Laws of sizes by name.
ghost use Rattle.std.specs.Prelude.{◌≡◌, ◌↔◌, ℕ, List, Ok, Result, Some, false, is_some, length, nat_le, nat_lt, true};
ghost use Rattle.std.specs.Global.{Vec as VecOf};
ghost use Rattle.grid_config.specs.Looks.{Look};
ghost use Rattle.grid_config_values.specs.declared.fault.Fault.{Fault as TableFault};
ghost use Rattle.tabled_list.specs.Amounts.{allocates, height_of, width_of};
ghost use Rattle.tabled_list.specs.Settings.{setting_step};
ghost use Rattle.tabled_list.specs.declared.amount.Amount.{Amount as AskedAmount};
ghost use Rattle.tabled_list.specs.declared.amount.Amount.TheVariants.{Exact, Max, Min, Percent};
ghost use Rattle.tabled_list.specs.declared.setting.Setting.TheVariants.{HeightList, MinWidth, WidthList};
ghost use Rattle.tabled_size_priority.specs.declared.choice.Choice.{Choice};
ghost use Rattle.tabled_steps.specs.States.{State, column_count};
ghost use Rattle.tabled_width.specs.Tables.{has_cells};

use crate::amount::Amount;
use tabled_height::Height;
use tabled_steps::Measurement;
use tabled_width::Width;

/// `==` of sizes by name is equality; a clone is the same size, and is never refused.
pub fn amounts_are_compared_and_cloned_whole()
    ensures equality { (a b : AskedAmount) → (⟦<Amount as PartialEq>⟧.eq a b ≡ true) ↔ (a ≡ b) }
    ensures clone { (source clone : AskedAmount) → ⟦<Amount as Clone>⟧.is_clone source clone → clone ≡ source }
    ensures comes { (source : AskedAmount) → ⟦<Amount as Clone>⟧.is_infallible source }
{}

/// A size by name is the number that its name gives, as a width and as a height.
pub fn amounts_give_their_sizes()
    ensures width { (amount : AskedAmount) (columns : ℕ) (rows : List (List (List ℕ))) (look : Look) (outcome : Result ℕ TableFault) →
        ⟦<Amount as Measurement<Width>>⟧.measures amount columns rows look outcome → width_of amount columns rows look ≡ outcome }
    ensures height { (amount : AskedAmount) (columns : ℕ) (rows : List (List (List ℕ))) (look : Look) (outcome : Result ℕ TableFault) →
        ⟦<Amount as Measurement<Height>>⟧.measures amount columns rows look outcome → height_of amount columns rows look ≡ outcome }
{}

/// Of the sizes by name only a share of what the table takes may be refused for want of memory.
pub fn shares_alone_allocate()
    ensures number { allocates (Exact 5) ≡ false }
    ensures greatest { allocates Max ≡ false }
    ensures least { allocates Min ≡ false }
    ensures share { allocates (Percent 50) ≡ true }
{}

/// Sizes that a list gives are kept, where it has one for each column, or for each row. A table that is made wider keeps
/// its widths and its heights.
pub fn given_sizes_are_kept()
    ensures widths { (widths : VecOf ℕ) (s last : State) → nat_le (column_count s.rows) (length widths.items) ≡ true →
        setting_step (WidthList widths) s (Ok last) → last.sizes.widths ≡ Some widths.items }
    ensures heights { (heights : VecOf ℕ) (s last : State) → nat_lt (length heights.items) (length s.rows) ≡ false →
        setting_step (HeightList heights) s (Ok last) → last.sizes.heights ≡ Some heights.items }
    ensures min_width { (width : AskedAmount) (priority : Choice) (s last : State) → has_cells s ≡ true →
        setting_step (MinWidth width priority) s (Ok last) → (is_some last.sizes.widths ≡ true) × (is_some last.sizes.heights ≡ true) }
{}
