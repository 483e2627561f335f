//! What the names of the command line mean.
ghost use Rattle.std.specs.Prelude.{◌≡◌, Some, option_map};
ghost use Rattle.command_line.specs.Options.Names.{named};
ghost use Rattle.command_line.specs.Basinmug.Names.{escapes, line_styles, priorities, rules};

use program_options::basinmug::{Escapes, LineStyle, Rules};
use tabled_size_priority::Choice;

/// The priority of this name; `MaxRight` where none is given. Of equally wide columns the right one comes first.
pub fn priority_named(name: Option<&str>) -> Choice
    ensures { result ≡ named priorities Choice.MaxRight (option_map (λ text. text.now) name.entry) }
{
    match name {
        Some("none") => Choice::None,
        Some("min") => Choice::MinRight,
        Some("left") => Choice::Left,
        Some("right") => Choice::Right,
        _ => Choice::MaxRight,
    }
}

/// The lines of this name; round corners where none is given.
pub fn line_style_named(name: Option<&str>) -> LineStyle
    ensures { result ≡ named line_styles LineStyle.Rounded (option_map (λ text. text.now) name.entry) }
{
    match name {
        Some(name) => line_style_of(name),
        None => LineStyle::Rounded,
    }
}

// The lines of a name; round corners where it is none of the others.
fn line_style_of(name: &str) -> LineStyle
    ensures { result ≡ named line_styles LineStyle.Rounded (Some name.now) }
{
    match name {
        "modern" => LineStyle::Modern,
        "ascii" => LineStyle::Ascii,
        "extended" => LineStyle::Extended,
        "markdown" => LineStyle::Markdown,
        "empty" => LineStyle::Empty,
        _ => LineStyle::Rounded,
    }
}

/// The rows of this name between which lines are drawn; below the header alone where none is given.
pub fn rules_named(name: Option<&str>) -> Rules
    ensures { result ≡ named rules Rules.Header (option_map (λ text. text.now) name.entry) }
{
    match name {
        Some("all") => Rules::All,
        Some("none") => Rules::None,
        _ => Rules::Header,
    }
}

/// The escape sequences of this name that are kept; those of colours where none is given.
pub fn escapes_named(name: Option<&str>) -> Escapes
    ensures { result ≡ named escapes Escapes.Colors (option_map (λ text. text.now) name.entry) }
{
    match name {
        Some("all") => Escapes::All,
        Some("none") => Escapes::None,
        _ => Escapes::Colors,
    }
}
