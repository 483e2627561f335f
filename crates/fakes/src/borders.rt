//! Values for tests of tables. A constant is made without calls, so not by `Borders::empty`, and is written out here
//! once.

use grid_config_values::Borders;

/// No glyph is set.
pub const NO_BORDERS: Borders<char> = Borders {
    top: None,
    top_left: None,
    top_right: None,
    top_intersection: None,
    bottom: None,
    bottom_left: None,
    bottom_right: None,
    bottom_intersection: None,
    horizontal: None,
    left_intersection: None,
    right_intersection: None,
    intersection: None,
    vertical: None,
    left: None,
    right: None,
};

/// Boundaries of `-`, `|` and `+`.
pub const ASCII: Borders<char> = Borders {
    top: Some('-'),
    top_left: Some('+'),
    top_right: Some('+'),
    top_intersection: Some('+'),
    bottom: Some('-'),
    bottom_left: Some('+'),
    bottom_right: Some('+'),
    bottom_intersection: Some('+'),
    horizontal: Some('-'),
    left_intersection: Some('+'),
    right_intersection: Some('+'),
    intersection: Some('+'),
    vertical: Some('|'),
    left: Some('|'),
    right: Some('|'),
};
