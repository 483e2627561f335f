//! Where texts are in their cells.
ghost use Rattle.std.specs.Prelude.{◌≡◌, IsOk, Some};
ghost use Rattle.grid_config_values.specs.declared.alignment.AlignmentHorizontal.TheVariants.{Center, Left, Right};
ghost use Rattle.grid_config_values.specs.declared.alignment.AlignmentVertical.TheVariants.{Bottom, Center as Middle, Top};
ghost use Rattle.grid_config_values.specs.declared.entity.Entity.TheVariants.{Global as EveryCell};
ghost use Rattle.tabled_options.specs.Options.{with_alignment};
ghost use Rattle.tabled_steps.specs.Looks.{with_alignment_horizontal, with_alignment_vertical};
ghost use Rattle.tabled_steps.specs.States.{StepsTo, colored_state, looking};
ghost use Rattle.tabled_steps.specs.Stored.{Stored};

use grid_config::{AlignmentHorizontal, AlignmentVertical, ColoredConfig, Entity, Fault};
use grid_records_traits::records::RecordTexts;
use std::alloc::Global;
use tabled_steps::{CellOption, KeptSizes, TableOption};

/// Where texts are in their cells: between the left and right padding, or between the top and bottom
/// padding.
#[derive(Clone, Copy, Debug)]
pub struct Alignment {
    direction: Direction,
}

#[derive(Clone, Copy, Debug)]
enum Direction {
    Horizontal(AlignmentHorizontal),
    Vertical(AlignmentVertical),
}

impl Alignment {
    /// At the left padding.
    pub fn left() -> Alignment
        ensures { with_alignment result ≡ (λ at look. with_alignment_horizontal at Left look) }
    {
        Alignment::horizontal(AlignmentHorizontal::Left)
    }

    /// In the middle between the left and right padding.
    pub fn center() -> Alignment
        ensures { with_alignment result ≡ (λ at look. with_alignment_horizontal at Center look) }
    {
        Alignment::horizontal(AlignmentHorizontal::Center)
    }

    /// At the right padding.
    pub fn right() -> Alignment
        ensures { with_alignment result ≡ (λ at look. with_alignment_horizontal at Right look) }
    {
        Alignment::horizontal(AlignmentHorizontal::Right)
    }

    /// At the top padding.
    pub fn top() -> Alignment
        ensures { with_alignment result ≡ (λ at look. with_alignment_vertical at Top look) }
    {
        Alignment::vertical(AlignmentVertical::Top)
    }

    /// In the middle between the top and bottom padding.
    pub fn center_vertical() -> Alignment
        ensures { with_alignment result ≡ (λ at look. with_alignment_vertical at Middle look) }
    {
        Alignment::vertical(AlignmentVertical::Center)
    }

    /// At the bottom padding.
    pub fn bottom() -> Alignment
        ensures { with_alignment result ≡ (λ at look. with_alignment_vertical at Bottom look) }
    {
        Alignment::vertical(AlignmentVertical::Bottom)
    }

    fn horizontal(value: AlignmentHorizontal) -> Alignment
        ensures { with_alignment result ≡ (λ at look. with_alignment_horizontal at value look) }
    {
        Alignment {
            direction: Direction::Horizontal(value),
        }
    }

    fn vertical(value: AlignmentVertical) -> Alignment
        ensures { with_alignment result ≡ (λ at look. with_alignment_vertical at value look) }
    {
        Alignment {
            direction: Direction::Vertical(value),
        }
    }
}

/// Sets the alignment of the cells. Fails only where allocation fails, and for all cells never.
impl<R: RecordTexts> CellOption<R, ColoredConfig> for Alignment {
    ghost step = { λ alignment at state outcome. looking (with_alignment alignment at) state ≡ outcome };

    ghost hint = { λ _. Some EveryCell };

    fn change(
        &self,
        _alloc: Global,
        records: &mut R,
        cfg: &mut ColoredConfig,
        entity: Entity,
    ) -> Result<(), Fault>
        ensures all_cells { entity ≡ EveryCell → IsOk result }
        ensures step { (sizes : Stored) → StepsTo (looking (with_alignment self.now entity)) result
            (colored_state (R.rows records.old) cfg.old sizes) (colored_state (R.rows records.new) cfg.new sizes) }
    {
        match self.direction {
            Direction::Horizontal(value) => cfg
                .spanned_mut()
                .set_alignment_horizontal(entity, value),
            Direction::Vertical(value) => cfg.spanned_mut().set_alignment_vertical(entity, value),
        }
    }

    fn hint_change(&self) -> Option<Entity> {
        Some(Entity::Global)
    }
}

/// Sets the alignment of all cells. Does not allocate.
impl<R: RecordTexts, D: KeptSizes> TableOption<R, ColoredConfig, D> for Alignment {
    ghost step = { λ alignment state outcome. looking (with_alignment alignment EveryCell) state ≡ outcome };

    ghost hint = { λ _. Some EveryCell };

    fn change(
        self,
        alloc: Global,
        records: &mut R,
        cfg: &mut ColoredConfig,
        dims: &mut D,
    ) -> Result<(), Fault>
        ensures answers { IsOk result }
        ensures step { StepsTo (looking (with_alignment self EveryCell)) result
            (colored_state (R.rows records.old) cfg.old (D.sizes dims.old)) (colored_state (R.rows records.new) cfg.new (D.sizes dims.new)) }
    {
        CellOption::<R, ColoredConfig>::change(&self, alloc, records, cfg, Entity::Global)
    }

    fn hint_change(&self) -> Option<Entity> {
        Some(Entity::Global)
    }
}
