//! The margin round a table.
ghost use Rattle.std.specs.Prelude.{◌≡◌, IsOk, Some};
ghost use Rattle.grid_config_values.specs.declared.entity.Entity.TheVariants.{Global as EveryCell};
ghost use Rattle.tabled_options.specs.Options.{filled_sides, margin_sides, spaced_sides};
ghost use Rattle.tabled_steps.specs.Looks.{with_margin};
ghost use Rattle.tabled_steps.specs.States.{StepsTo, looking, state_with};

use crate::frame::FrameSettings;
use crate::sides;
use grid_config::{Entity, Fault, Indent, Sides};
use grid_records_traits::records::RecordTexts;
use std::alloc::Global;
use tabled_steps::{KeptSizes, TableOption};

/// The margin round a table: columns at its left and right, lines at its top and bottom.
#[derive(Clone, Debug, Drop)]
pub struct Margin {
    indent: Sides<Indent>,
}

impl Margin {
    /// A margin of these sizes, filled with spaces.
    pub const fn new(left: usize, right: usize, top: usize, bottom: usize) -> Margin
        ensures { margin_sides result ≡ spaced_sides left right top bottom }
    {
        Margin {
            indent: sides::spaced(left, right, top, bottom),
        }
    }

    /// A margin of the same sizes, filled with these characters.
    pub const fn fill(self, left: char, right: char, top: char, bottom: char) -> Margin
        ensures { margin_sides result ≡ filled_sides left right top bottom (margin_sides self) }
    {
        Margin {
            indent: sides::filled(self.indent, left, right, top, bottom),
        }
    }
}

/// The four indents of the margin.
impl From<Margin> for Sides<Indent> {
    ghost from_gives = { λ margin sides. sides ≡ margin_sides margin };

    fn from(margin: Margin) -> Sides<Indent> {
        margin.indent
    }
}

/// A margin of these four indents.
impl From<Sides<Indent>> for Margin {
    ghost from_gives = { λ sides margin. margin_sides margin ≡ sides };

    fn from(indent: Sides<Indent>) -> Margin {
        Margin { indent }
    }
}

/// Sets the margin. Does not allocate.
impl<R: RecordTexts, C: FrameSettings, D: KeptSizes> TableOption<R, C, D> for Margin {
    ghost step = { λ margin state outcome. looking (with_margin (margin_sides margin)) state ≡ outcome };

    ghost hint = { λ _. Some EveryCell };

    fn change(self, _alloc: Global, records: &mut R, cfg: &mut C, dims: &mut D) -> Result<(), Fault>
        ensures answers { IsOk result }
        ensures step { StepsTo (looking (with_margin (margin_sides self))) result
            (state_with (R.rows records.old) (C.look cfg.old) (C.colors cfg.old) (D.sizes dims.old)) (state_with (R.rows records.new) (C.look cfg.new) (C.colors cfg.new) (D.sizes dims.new)) }
    {
        cfg.put_margin(self.indent);
        Ok(())
    }

    fn hint_change(&self) -> Option<Entity> {
        Some(Entity::Global)
    }
}
