//! The settings of a table, and the sizes that it keeps, as its options see them.
ghost use Rattle.std.specs.Prelude.{Option};
ghost use Rattle.grid_config.specs.Colors.{Color};
ghost use Rattle.grid_config_values.specs.declared.position.Position.{Position as CellPosition};
ghost use Rattle.grid_config_values.specs.Settings.{value_at};
ghost use Rattle.grid_config.specs.Looks.{Look, look_of};
ghost use Rattle.tabled_size.specs.Dimension.Stored.{Stored};

use grid_config::ColoredConfig;
use tabled_size::CompleteDimension;

/// What contracts see of the settings of a table: those that each cell has, and its colour.
pub trait Configuration {
    ghost look: { Self → Look };

    ghost colors: { Self → CellPosition → Option Color };
}

impl Configuration for ColoredConfig {
    ghost look = { λ config. look_of config.settings };

    ghost colors = { λ config. value_at config.colors };
}

/// What contracts see of the sizes that a table keeps: its widths and its heights, where they are kept.
pub trait KeptSizes {
    ghost sizes: { Self → Stored };
}

impl KeptSizes for CompleteDimension {
    ghost sizes = { λ dimension. dimension };
}
