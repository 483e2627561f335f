//! Styles: the glyphs of a table's boundaries.
ghost use Rattle.std.specs.Prelude.{◌≡◌, IsOk, Some};
ghost use Rattle.grid_config_values.specs.declared.entity.Entity.TheVariants.{Global as EveryCell};
ghost use Rattle.grid_config_values.specs.Glyphs.{no_borders};
ghost use Rattle.tabled_glyphs.specs.Glyphs.{ascii, extended, modern};
ghost use Rattle.tabled_options.specs.Styles.{style_borders};
ghost use Rattle.tabled_steps.specs.Looks.{with_borders};
ghost use Rattle.tabled_steps.specs.States.{StepsTo, looking, state_with};

use crate::frame::FrameSettings;
use grid_config::{Borders, Entity, Fault};
use grid_records_traits::records::RecordTexts;
use std::alloc::Global;
use tabled_glyphs::{ascii, extended, modern};
use tabled_steps::{KeptSizes, TableOption};

/// The glyphs of a table's boundaries.
#[derive(Clone, Copy, Debug)]
pub struct Style {
    borders: Borders<char>,
}

impl Style {
    /// Lines of `-` and `|` that meet in `+`.
    pub const fn ascii() -> Style
        ensures { style_borders result ≡ ascii }
    {
        Style { borders: ascii() }
    }

    /// Light lines.
    pub const fn modern() -> Style
        ensures { style_borders result ≡ modern }
    {
        Style { borders: modern() }
    }

    /// Double lines.
    pub const fn extended() -> Style
        ensures { style_borders result ≡ extended }
    {
        Style {
            borders: extended(),
        }
    }

    /// No glyph, and so no boundary.
    pub const fn empty() -> Style
        ensures { style_borders result ≡ no_borders }
    {
        Style {
            borders: Borders::empty(),
        }
    }

    /// Its glyphs.
    pub const fn get_borders(&self) -> Borders<char>
        ensures { result ≡ style_borders self.now }
    {
        self.borders
    }
}

/// The style of these glyphs.
impl From<Borders<char>> for Style {
    ghost from_gives = { λ borders style. style_borders style ≡ borders };

    fn from(borders: Borders<char>) -> Style {
        Style { borders }
    }
}

/// Sets the glyphs of the boundaries. Does not allocate.
impl<R: RecordTexts, C: FrameSettings, D: KeptSizes> TableOption<R, C, D> for Style {
    ghost step = { λ style state outcome. looking (with_borders (style_borders style)) state ≡ outcome };

    ghost hint = { λ _. Some EveryCell };

    fn change(self, _alloc: Global, records: &mut R, cfg: &mut C, dims: &mut D) -> Result<(), Fault>
        ensures answers { IsOk result }
        ensures step { StepsTo (looking (with_borders (style_borders self))) result
            (state_with (R.rows records.old) (C.look cfg.old) (C.colors cfg.old) (D.sizes dims.old)) (state_with (R.rows records.new) (C.look cfg.new) (C.colors cfg.new) (D.sizes dims.new)) }
    {
        cfg.put_borders(self.borders);
        Ok(())
    }

    fn hint_change(&self) -> Option<Entity> {
        Some(Entity::Global)
    }
}
