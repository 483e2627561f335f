//! The settings that a table has as a whole.
ghost use Rattle.std.specs.Prelude.{◌≡◌, None, IfOk, IsOk};
ghost use Rattle.grid_config_values.specs.Glyphs.{no_borders};
ghost use Rattle.grid_config.specs.Compact.{compact_of, each_side, no_indent};
ghost use Rattle.grid_config.specs.Settings.{IsUncolored, side_colors_if};

use crate::colors::ANSIBuf;
use crate::compact::CompactConfig;
use crate::owning::{fill_borders, owned_sides};
use grid_config_values::{Borders, CloneIn, Indent, Sides};
use std::alloc::{AllocError, Global};

/// The settings that a table has as a whole.
#[derive(Debug)]
pub(crate) struct WholeSettings {
    pub(crate) margin: Sides<Indent>,
    pub(crate) margin_color: Sides<Option<ANSIBuf>>,
    pub(crate) borders: Borders<char>,
    pub(crate) borders_color: Borders<ANSIBuf>,
}

impl Drop for WholeSettings {
    fn drop(self) {
        let WholeSettings {
            margin: _,
            margin_color,
            borders: _,
            borders_color,
        } = self;
        drop(margin_color);
        drop(borders_color);
    }
}

impl WholeSettings {
    /// No margin, no glyph, no colour.
    pub(crate) fn new() -> WholeSettings
        ensures margin { result.margin ≡ each_side no_indent }
        ensures margin_color { result.margin_color ≡ each_side None }
        ensures borders { result.borders ≡ no_borders }
        ensures borders_color { result.borders_color ≡ no_borders }
    {
        WholeSettings {
            margin: Sides::filled(Indent::zero()),
            margin_color: Sides::new(None, None, None, None),
            borders: Borders::empty(),
            borders_color: Borders::empty(),
        }
    }

    /// Those of a compact table. Fails only where allocation fails, and never where no colour has a text.
    pub(crate) fn from_compact(
        alloc: Global,
        c: &CompactConfig,
    ) -> Result<WholeSettings, AllocError>
        ensures margin { IfOk result (λ whole. whole.margin ≡ (compact_of c.now).margin) }
        ensures margin_color { IfOk result (λ whole. whole.margin_color ≡ side_colors_if (compact_of c.now).margin_color) }
        ensures borders { IfOk result (λ whole. whole.borders ≡ (compact_of c.now).borders) }
        ensures borders_color { IfOk result (λ whole. whole.borders_color ≡ (compact_of c.now).borders_color) }
        ensures answers { IsUncolored (compact_of c.now) → IsOk result }
    {
        let margin_color = owned_sides(alloc, c.get_margin_color())?;
        let mut whole = WholeSettings {
            margin: *c.get_margin(),
            margin_color,
            borders: *c.get_borders(),
            borders_color: Borders::empty(),
        };
        fill_borders(alloc, c.get_borders_color(), &mut whole.borders_color)?;
        Ok(whole)
    }

    /// The same settings again. Fails only where allocation fails.
    pub(crate) fn clone(&self, alloc: Global) -> Result<WholeSettings, AllocError>
        ensures { IfOk result (λ copy. copy ≡ self.now) }
    {
        Ok(WholeSettings {
            margin: self.margin,
            margin_color: self.margin_color.clone_in(alloc)?,
            borders: self.borders,
            borders_color: self.borders_color.clone_in(alloc)?,
        })
    }
}
