//! Options of a table whose priority goes by its name.
ghost use Rattle.std.specs.Prelude.{◌≡◌, None, Some};
ghost use Rattle.grid_config_values.specs.declared.entity.Entity.TheVariants.{Row as OneRow};
ghost use Rattle.tabled_height.specs.Options.{table_increase, table_limit};
ghost use Rattle.tabled_list.specs.Amounts.{height_of, width_of};
ghost use Rattle.tabled_list.specs.Priorities.{LimitsBy, NarrowsBy, RaisesBy, StepsByName, WidensBy};
ghost use Rattle.tabled_list.specs.Settings.{cutting_by};
ghost use Rattle.tabled_size_priority.specs.Choices.{IsGrownByChoice, IsShrunkByChoice};
ghost use Rattle.tabled_size_priority.specs.declared.choice.Choice.{Choice as Named};
ghost use Rattle.tabled_steps.specs.States.{Outcome, Settles, State, Steps};
ghost use Rattle.tabled_width.specs.WrappedOrCut.{wrapping_each};
ghost use Rattle.tabled_width.specs.Cutting.{truncating};
ghost use Rattle.tabled_width.specs.Options.{truncation, widening, wrapping};

use crate::adjustable::Adjustable;
use crate::amount::Amount;
use grid_config::Fault;
use grid_records::{FromText, VecRecords};
use tabled_height::{TableHeightIncrease, TableHeightLimit};
use tabled_size::SuffixLimit;
use tabled_size_priority::{
    Choice, Peaker, PriorityLeft, PriorityMax, PriorityMin, PriorityNone, PriorityRight,
};
use tabled_width::{MinWidth, Truncate, Wrap};

/// An option of a table that waits for its priority.
pub trait Prioritized<T: FromText> {
    /// Its step, by the name of the priority.
    ghost stepped: { Self → Named → State → Outcome → Type 0 };

    /// Changes the table by the option with this priority: its step by each name of the priority. Refused as
    /// the step is, and as `Memory` where allocation fails, and then nothing has changed.
    fn adjust_by<S: Adjustable<VecRecords<T>>, P: Peaker + Drop>(
        self,
        table: &mut S,
        priority: P,
    ) -> Result<(), Fault>
        ensures { StepsByName P.shrinks P.grows priority (stepped self) result (S.state table.old) (S.state table.new) };
}

/// Changes the table by the option with the priority of this name.
pub(crate) fn by_choice<T: FromText, S: Adjustable<VecRecords<T>>, X: Prioritized<T>>(
    table: &mut S,
    option: X,
    choice: Choice,
) -> Result<(), Fault>
    ensures { Steps (X.stepped option choice) result (S.state table.old) (S.state table.new) }
{
    match choice {
        Choice::None => option.adjust_by(table, PriorityNone::new()),
        Choice::MinLeft => option.adjust_by(table, PriorityMin::left()),
        Choice::MinRight => option.adjust_by(table, PriorityMin::right()),
        Choice::MaxLeft => option.adjust_by(table, PriorityMax::left()),
        Choice::MaxRight => option.adjust_by(table, PriorityMax::right()),
        Choice::Left => option.adjust_by(table, PriorityLeft::new()),
        Choice::Right => option.adjust_by(table, PriorityRight::new()),
    }
}

impl<T: FromText> Prioritized<T> for Wrap<Amount> {
    ghost stepped = { λ option choice. Settles (Some (OneRow 0)) (NarrowsBy (IsShrunkByChoice choice) (wrapping_each (wrapping option).keep_words) (width_of (wrapping option).width)) };

    fn adjust_by<S: Adjustable<VecRecords<T>>, P: Peaker + Drop>(
        self,
        table: &mut S,
        priority: P,
    ) -> Result<(), Fault> {
        table.adjust(self.priority(priority))
    }
}

/// What `Truncate` is to have but for its priority.
#[derive(Drop)]
pub(crate) struct TextCutting<'a> {
    pub(crate) width: Amount,
    pub(crate) suffix: &'a str,
    pub(crate) limit: SuffixLimit,
    pub(crate) multiline: bool,
    pub(crate) try_color: bool,
}

impl<'a, T: FromText> Prioritized<T> for TextCutting<'a> {
    ghost stepped = { λ option choice. Settles None
        (NarrowsBy (IsShrunkByChoice choice) (truncating (cutting_by option.suffix.now option.limit option.multiline option.try_color))
        (width_of option.width)) };

    fn adjust_by<S: Adjustable<VecRecords<T>>, P: Peaker + Drop>(
        self,
        table: &mut S,
        priority: P,
    ) -> Result<(), Fault> {
        let option = cutting(
            self.width,
            self.suffix,
            self.limit,
            self.multiline,
            self.try_color,
        );
        table.adjust(option.priority(priority))
    }
}

/// The option that cuts texts so.
pub(crate) fn cutting<'a>(
    width: Amount,
    suffix: &'a str,
    limit: SuffixLimit,
    multiline: bool,
    try_color: bool,
) -> Truncate<'a, Amount>
    ensures { truncation result ≡ record { width = width; cutting = cutting_by suffix.now limit multiline try_color; priority = 0 } }
{
    Truncate::new(width)
        .suffix(suffix)
        .suffix_limit(limit)
        .multiline(multiline)
        .suffix_try_color(try_color)
}

impl<T: FromText> Prioritized<T> for MinWidth<Amount> {
    ghost stepped = { λ option choice. Settles None (WidensBy (IsGrownByChoice choice) (width_of (widening option).width)) };

    fn adjust_by<S: Adjustable<VecRecords<T>>, P: Peaker + Drop>(
        self,
        table: &mut S,
        priority: P,
    ) -> Result<(), Fault> {
        table.adjust(self.priority(priority))
    }
}

impl<T: FromText> Prioritized<T> for TableHeightIncrease<Amount> {
    ghost stepped = { λ option choice. Settles None (RaisesBy (IsGrownByChoice choice) (height_of (table_increase option).0)) };

    fn adjust_by<S: Adjustable<VecRecords<T>>, P: Peaker + Drop>(
        self,
        table: &mut S,
        priority: P,
    ) -> Result<(), Fault> {
        table.adjust(self.priority(priority))
    }
}

impl<T: FromText> Prioritized<T> for TableHeightLimit<Amount> {
    ghost stepped = { λ option choice. Settles None (LimitsBy (IsShrunkByChoice choice) (height_of (table_limit option).0)) };

    fn adjust_by<S: Adjustable<VecRecords<T>>, P: Peaker + Drop>(
        self,
        table: &mut S,
        priority: P,
    ) -> Result<(), Fault> {
        table.adjust(self.priority(priority))
    }
}
