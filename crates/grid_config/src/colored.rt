//! The settings of a table whose cells have colours.
use crate::colors::ANSIBuf;
use crate::spanned::SpannedConfig;
use grid_config_values::{Entity, EntityMap, Fault, Position};
use std::alloc::{AllocError, Global};
use std::marker::Model;

/// The colours of a table's cells. A cell has the colour of the last accepted call whose entity covers
/// it, and before any none. In a contract it is the map of them.
#[derive(Debug, Drop)]
pub struct ColorMap {
    colors: EntityMap<Option<ANSIBuf>>,
}

impl Model for ColorMap {
    ghost use Rattle.std.specs.Prelude.{Option};
    ghost use Rattle.grid_config_values.specs.declared.entity_map.EntityMap.{EntityMap};
    ghost use Rattle.grid_config.specs.Ansi.Colors.{Color};

    ghost Value = { EntityMap (Option Color) };

    ghost view = { λ map. map.colors };
}

impl ColorMap {
    ghost use Rattle.std.specs.Prelude.{◌≡◌, None, IfOk, MatchOption};
    ghost use Rattle.grid_config_values.specs.Settings.{IsUnchanged, value_at};
    ghost use Rattle.grid_config.specs.Settings.{IsEverywhere};

    // No cell has a colour. Does not allocate.
    pub(crate) fn new(alloc: Global) -> ColorMap
        ensures { IsEverywhere result None }
    {
        ColorMap {
            colors: EntityMap::new(alloc, None),
        }
    }

    // The same colours again. Fails only where allocation fails.
    pub(crate) fn clone(&self, alloc: Global) -> Result<ColorMap, AllocError>
        ensures { IfOk result (IsUnchanged self.now) }
    {
        Ok(ColorMap {
            colors: self.colors.clone(alloc)?,
        })
    }

    /// The colour of the cell at this place, where it has one. Does not allocate.
    pub fn get_color(&self, pos: Position) -> Option<&ANSIBuf>
        ensures { MatchOption result (value_at self.now pos ≡ None) (λ color. value_at self.now pos ≡ Some color.now) }
    {
        self.colors.get(pos).as_ref()
    }
}

/// All settings of a table, and the colours of its cells.
#[derive(Debug)]
pub struct ColoredConfig {
    config: SpannedConfig,
    colors: ColorMap,
}

impl Drop for ColoredConfig {
    fn drop(self) {
        let ColoredConfig { config, colors } = self;
        drop(config);
        drop(colors);
    }
}

impl Model for ColoredConfig {
    ghost use Rattle.grid_config.specs.Coloring.{Coloring};

    ghost Value = { Coloring };

    ghost view = { λ config. record { settings = config.config; colors = config.colors } };
}

impl ColoredConfig {
    ghost use Rattle.std.specs.Prelude.{◌≡◌, None, Some, IfOk};
    ghost use Rattle.std.specs.Borrow.{sem};
    ghost use Rattle.grid_config_values.specs.Settings.{IsUnchanged, SetsOrIsRefused};
    ghost use Rattle.grid_config.specs.Settings.{IsEverywhere};
    ghost use Rattle.grid_config.specs.Lending.{LendsSettings};
    ghost use Rattle.grid_config.specs.Looks.{look_of};

    /// These settings, and no cell has a colour. Does not allocate.
    pub fn new(config: SpannedConfig) -> ColoredConfig
        ensures settings { result.settings ≡ config }
        ensures colors { IsEverywhere result.colors None }
    {
        let colors = ColorMap::new(config.allocator());
        ColoredConfig { config, colors }
    }

    /// A clone of the settings and the colours, which shares no memory with them. Fails only where allocation fails.
    pub fn clone(&self, alloc: Global) -> Result<ColoredConfig, AllocError>
        ensures look { IfOk result (λ copy. look_of copy.settings ≡ look_of self.now.settings) }
        ensures spans { IfOk result (λ copy. copy.settings.spans ≡ self.now.settings.spans) }
        ensures colors { IfOk result (λ copy. IsUnchanged self.now.colors copy.colors) }
    {
        Ok(ColoredConfig {
            config: self.config.clone(alloc)?,
            colors: self.get_colors().clone(alloc)?,
        })
    }

    /// The settings.
    pub fn spanned(&self) -> &SpannedConfig
        ensures { result.now ≡ self.now.settings }
    {
        &self.config
    }

    /// The settings, to be changed; the cells keep their colours.
    pub fn spanned_mut(&mut self) -> &mut SpannedConfig
        ensures* lends { sem 𝓛 (LendsSettings self.entry result) }
        ensures settings { result.now ≡ self.old.settings }
    {
        &mut self.config
    }

    /// Sets the colour of cells, for the cells of the entity. Fails only as [`EntityMap::insert`] does, and then
    /// nothing has changed; for all cells never.
    pub fn set_color(&mut self, entity: Entity, color: ANSIBuf) -> Result<(), Fault>
        ensures outcome { SetsOrIsRefused self.old.colors self.new.colors entity (Some color) result }
        ensures others { self.new.settings ≡ self.old.settings }
    {
        self.colors.colors.insert(entity, Some(color))?;
        Ok(())
    }

    /// The colours of the cells.
    pub fn get_colors(&self) -> &ColorMap
        ensures { result.now ≡ self.now.colors }
    {
        &self.colors
    }
}
