//! The padding of cells.
ghost use Rattle.std.specs.Prelude.{◌≡◌, if◌then◌else◌, IsOk, Some};
ghost use Rattle.grid_config_values.specs.declared.entity.Entity.TheVariants.{Global as EveryCell};
ghost use Rattle.tabled_options.specs.Options.{filled_sides, padding_sides, spaced_sides};
ghost use Rattle.tabled_options.specs.declared.padding.PaddingExpand.TheVariants.{Horizontal, Vertical};
ghost use Rattle.tabled_steps.specs.Looks.{with_padding};
ghost use Rattle.tabled_steps.specs.States.{StepsTo, colored_state, looking, state_with};
ghost use Rattle.tabled_steps.specs.Stored.{Stored};

use crate::frame::FrameSettings;
use crate::sides;
use grid_config::{ColoredConfig, Entity, Fault, Indent, Sides};
use grid_records_traits::records::RecordTexts;
use std::alloc::Global;
use tabled_steps::{CellOption, KeptSizes, TableOption};

/// The padding of cells: columns at the left and right of a text, lines at its top and bottom.
#[derive(Clone, Copy, Debug, PartialEq, Eq, PartialOrd, Ord)]
pub struct Padding {
    indent: Sides<Indent>,
}

impl Padding {
    /// A padding of these sizes, filled with spaces.
    pub const fn new(left: usize, right: usize, top: usize, bottom: usize) -> Padding
        ensures { padding_sides result ≡ spaced_sides left right top bottom }
    {
        Padding {
            indent: sides::spaced(left, right, top, bottom),
        }
    }

    /// No padding: each size is 0.
    pub const fn zero() -> Padding
        ensures { padding_sides result ≡ spaced_sides 0 0 0 0 }
    {
        Padding::new(0, 0, 0, 0)
    }

    /// A padding of the same sizes, filled with these characters.
    pub const fn fill(self, left: char, right: char, top: char, bottom: char) -> Padding
        ensures { padding_sides result ≡ filled_sides left right top bottom (padding_sides self) }
    {
        Padding {
            indent: sides::filled(self.indent, left, right, top, bottom),
        }
    }

    /// A padding that takes what a cell has free at its left and right, or else at its top and bottom.
    pub const fn expand(horizontal: bool) -> PaddingExpand
        ensures { result ≡ (if horizontal then Horizontal else Vertical) }
    {
        if horizontal {
            PaddingExpand::Horizontal
        } else {
            PaddingExpand::Vertical
        }
    }
}

/// Which free columns or lines a padding is to take. It is a value alone: no table has it yet.
#[derive(Clone, Copy, Debug)]
pub enum PaddingExpand {
    /// The columns at the left and right of a text.
    Horizontal,
    /// The lines at its top and bottom.
    Vertical,
}

/// The four indents of the padding.
impl From<Padding> for Sides<Indent> {
    ghost from_gives = { λ padding sides. sides ≡ padding_sides padding };

    fn from(padding: Padding) -> Sides<Indent> {
        padding.indent
    }
}

/// A padding of these four indents.
impl From<Sides<Indent>> for Padding {
    ghost from_gives = { λ sides padding. padding_sides padding ≡ sides };

    fn from(indent: Sides<Indent>) -> Padding {
        Padding { indent }
    }
}

/// Sets the padding of the cells. Fails only where allocation fails, and for all cells never.
impl<R: RecordTexts> CellOption<R, ColoredConfig> for Padding {
    ghost step = { λ padding at state outcome. looking (with_padding at (padding_sides padding)) state ≡ outcome };

    ghost hint = { λ _. Some EveryCell };

    fn change(
        &self,
        _alloc: Global,
        records: &mut R,
        cfg: &mut ColoredConfig,
        entity: Entity,
    ) -> Result<(), Fault>
        ensures all_cells { entity ≡ EveryCell → IsOk result }
        ensures step { (sizes : Stored) → StepsTo (looking (with_padding entity (padding_sides self.now))) result
            (colored_state (R.rows records.old) cfg.old sizes) (colored_state (R.rows records.new) cfg.new sizes) }
    {
        cfg.spanned_mut().set_padding(entity, self.indent)
    }

    fn hint_change(&self) -> Option<Entity> {
        Some(Entity::Global)
    }
}

/// Sets the padding of all cells. Does not allocate.
impl<R: RecordTexts, C: FrameSettings, D: KeptSizes> TableOption<R, C, D> for Padding {
    ghost step = { λ padding state outcome. looking (with_padding EveryCell (padding_sides padding)) state ≡ outcome };

    ghost hint = { λ _. Some EveryCell };

    fn change(self, _alloc: Global, records: &mut R, cfg: &mut C, dims: &mut D) -> Result<(), Fault>
        ensures answers { IsOk result }
        ensures step { StepsTo (looking (with_padding EveryCell (padding_sides self))) result
            (state_with (R.rows records.old) (C.look cfg.old) (C.colors cfg.old) (D.sizes dims.old)) (state_with (R.rows records.new) (C.look cfg.new) (C.colors cfg.new) (D.sizes dims.new)) }
    {
        cfg.put_padding(self.indent)
    }

    fn hint_change(&self) -> Option<Entity> {
        Some(Entity::Global)
    }
}
