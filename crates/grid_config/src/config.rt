//! The settings and their values, by the modules in which `papergrid` has them.

pub use grid_config_values::{
    AlignmentHorizontal, AlignmentVertical, Border, Borders, Entity, EntityIterator, Formatting,
    Indent, Position, Sides,
};

/// The settings of a table whose cells are all alike.
pub mod compact {
    pub use crate::compact::CompactConfig;
}

/// All settings of a table.
pub mod spanned {
    pub use crate::spanned::SpannedConfig;
    pub use grid_config_values::EntityMap;
}
