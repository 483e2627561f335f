//! Lists of widths.
ghost use Rattle.std.specs.Prelude.{◌≡◌, ℕ, IfOk, IsOk, List, None};
ghost use Rattle.std.specs.Iterator.{Drains, IsFinite};
ghost use Rattle.tabled_width.specs.Lists.{with_width_list};
ghost use Rattle.tabled_steps.specs.States.{StepsTo, colored_state};

use grid_config::{ColoredConfig, Entity, Fault};
use grid_records::{FromText, VecRecords};
use grid_records_traits::records::{RecordColumns, RecordTexts};
use std::alloc::{AllocError, Global};
use std::marker::Model;
use tabled_size::CompleteDimension;
use tabled_steps::{KeptSizes, TableOption};

/// A width for each column, in columns of the terminal. A list that is shorter than the table has no
/// effect.
#[derive(Debug, Drop)]
pub struct WidthList {
    widths: Vec<usize>,
}

impl Model for WidthList {
    ghost Value = { List ℕ };

    ghost view = { λ list. list.widths.items };
}

impl WidthList {
    /// These widths. Does not allocate.
    pub fn new(list: Vec<usize>) -> WidthList
        ensures { result ≡ list.items }
    {
        WidthList { widths: list }
    }

    /// The items in their order, provided that they end. It fails only where allocation fails.
    pub fn from_iter<I: IntoIterator<Item = usize>>(
        alloc: Global,
        items: I,
    ) -> Result<WidthList, AllocError>
    where
        I::IntoIter: Drop,
        requires { (s : I.IntoIter) → I.into_iter_gives items s → I.IntoIter.can_next s × IsFinite (I.IntoIter.remaining s) }
        ensures { IfOk result (λ list. (s : I.IntoIter) × (taken : List ℕ) × I.into_iter_gives items s × Drains I.IntoIter.next_gives s taken × (list ≡ taken)) }
    {
        let mut widths = Vec::new(alloc);
        for width in items {
            widths.push(width)?;
        }
        Ok(WidthList { widths })
    }
}

/// These widths. Does not allocate.
impl From<Vec<usize>> for WidthList {
    ghost from_gives = { λ widths list. list ≡ widths.items };

    fn from(list: Vec<usize>) -> WidthList {
        WidthList::new(list)
    }
}

/// Keeps these widths, where there are as many as columns. Does not allocate.
impl<T: FromText> TableOption<VecRecords<T>, ColoredConfig, CompleteDimension> for WidthList {
    ghost step = { λ widths state outcome. with_width_list widths state ≡ outcome };

    ghost hint = { λ _. None };

    fn change(
        self,
        _alloc: Global,
        records: &mut VecRecords<T>,
        cfg: &mut ColoredConfig,
        dims: &mut CompleteDimension,
    ) -> Result<(), Fault>
        ensures answers { IsOk result }
        ensures step { StepsTo (with_width_list self) result
            (colored_state (⟦<VecRecords<T> as RecordTexts>⟧.rows records.old) cfg.old dims.old) (colored_state (⟦<VecRecords<T> as RecordTexts>⟧.rows records.new) cfg.new dims.new) }
    {
        if self.widths.len() >= records.count_columns() {
            dims.set_widths(self.widths);
        }
        Ok(())
    }

    fn hint_change(&self) -> Option<Entity> {
        None
    }
}
