//! Heights of rows that are given.
ghost use Rattle.std.specs.Prelude.{◌≡◌, IfOk, IsOk, List, None, ℕ};
ghost use Rattle.std.specs.Iterator.{Drains, IsFinite};
ghost use Rattle.tabled_height.specs.Steps.{listing_heights};
ghost use Rattle.tabled_steps.specs.States.{StepsTo, state_with};

use grid_config::{Entity, Fault};
use grid_records_traits::records::ExactRecords;
use std::alloc::{AllocError, Global};
use std::marker::Model;
use tabled_size::CompleteDimension;
use tabled_steps::{Configuration, TableOption};

/// The heights of a table's rows, in lines.
#[derive(Debug, Drop)]
pub struct HeightList {
    heights: Vec<usize>,
}

impl Model for HeightList {
    ghost Value = { List ℕ };

    ghost view = { λ list. list.heights.items };
}

impl HeightList {
    /// These heights. Does not allocate.
    pub fn new(list: Vec<usize>) -> HeightList
        ensures { result ≡ list.items }
    {
        HeightList { heights: list }
    }

    /// The items as heights, provided that they end. It fails only where allocation fails.
    pub fn from_iter<I: IntoIterator<Item = usize>>(
        alloc: Global,
        items: I,
    ) -> Result<HeightList, AllocError>
    where
        I::IntoIter: Drop,
        requires { (s : I.IntoIter) → I.into_iter_gives items s → I.IntoIter.can_next s × IsFinite (I.IntoIter.remaining s) }
        ensures { IfOk result (λ list. (s : I.IntoIter) × (taken : List ℕ) × I.into_iter_gives items s × Drains I.IntoIter.next_gives s taken × (list ≡ taken)) }
    {
        let mut heights = Vec::new(alloc);
        for height in items {
            heights.push(height)?;
        }
        Ok(HeightList { heights })
    }
}

/// These heights. Does not allocate.
impl From<Vec<usize>> for HeightList {
    ghost from_gives = { λ heights list. list ≡ heights.items };

    fn from(list: Vec<usize>) -> HeightList {
        HeightList::new(list)
    }
}

/// The rows keep these heights, where there is one for each; else nothing changes. Does not allocate.
impl<R: ExactRecords, C: Configuration> TableOption<R, C, CompleteDimension> for HeightList {
    ghost step = { λ heights state outcome. listing_heights heights state ≡ outcome };

    ghost hint = { λ _. None };

    fn change(
        self,
        _alloc: Global,
        records: &mut R,
        cfg: &mut C,
        dims: &mut CompleteDimension,
    ) -> Result<(), Fault>
        ensures answers { IsOk result }
        ensures step { StepsTo (listing_heights self) result
            (state_with (R.rows records.old) (C.look cfg.old) (C.colors cfg.old) dims.old) (state_with (R.rows records.new) (C.look cfg.new) (C.colors cfg.new) dims.new) }
    {
        if self.heights.len() >= records.count_rows() {
            dims.set_heights(self.heights);
        }
        Ok(())
    }

    fn hint_change(&self) -> Option<Entity> {
        None
    }
}
