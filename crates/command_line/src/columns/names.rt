//! What the names of priorities and styles mean.
ghost use Rattle.std.specs.Prelude.{◌≡◌, option_map};
ghost use Rattle.command_line.specs.Options.Names.{named};
ghost use Rattle.command_line.specs.Columns.Names.{priorities, styles};
ghost use Rattle.grid_config.specs.Compact.{compact_of};
ghost use Rattle.program_options.specs.Columns.Settings.{settings_with};
ghost use Rattle.tabled_glyphs.specs.Glyphs.{ascii};

use grid_config::{Borders, CompactConfig};
use program_options::columns::default_style;
use tabled_glyphs::{ascii, extended, modern};
use tabled_size_priority::Choice;

/// The priority of this name. Of equally wide columns the left one comes first.
pub fn priority_named(name: Option<&str>) -> Choice
    ensures { result ≡ named priorities Choice.None (option_map (λ text. text.now) name.entry) }
{
    match name {
        Some("min") => Choice::MinLeft,
        Some("max") => Choice::MaxLeft,
        Some("left") => Choice::Left,
        Some("right") => Choice::Right,
        _ => Choice::None,
    }
}

/// The settings of the style of this name: its glyphs, and one space on both sides of a text.
pub fn style_named(name: Option<&str>) -> CompactConfig
    ensures { compact_of result ≡ settings_with (named styles ascii (option_map (λ text. text.now) name.entry)) }
{
    default_style().set_borders(glyphs_named(name))
}

// The glyphs of the style of this name.
fn glyphs_named(name: Option<&str>) -> Borders<char>
    ensures { result ≡ named styles ascii (option_map (λ text. text.now) name.entry) }
{
    match name {
        Some("modern") => modern(),
        Some("extended") => extended(),
        Some("empty") => Borders::empty(),
        _ => ascii(),
    }
}
