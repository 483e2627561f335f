//! The names of colours.
ghost use Rattle.std.specs.Prelude.{◌≡◌};
ghost use Rattle.std.specs.Option.{option_map};
ghost use Rattle.grid_config.specs.Ansi.Colors.{color_of};
ghost use Rattle.program_options.specs.ColorList.Listed.{color_of_name};

use grid_config::ANSIStr;

/// The colour of this name; none where no colour has it. Does not allocate.
pub fn color_named(name: &str) -> Option<ANSIStr<'static>>
    ensures { option_map color_of result ≡ color_of_name name.now }
{
    let (prefix, suffix) = match name {
        "black" => ("\u{1b}[30m", "\u{1b}[39m"),
        "red" => ("\u{1b}[31m", "\u{1b}[39m"),
        "green" => ("\u{1b}[32m", "\u{1b}[39m"),
        "yellow" => ("\u{1b}[33m", "\u{1b}[39m"),
        "blue" => ("\u{1b}[34m", "\u{1b}[39m"),
        "magenta" => ("\u{1b}[35m", "\u{1b}[39m"),
        "cyan" => ("\u{1b}[36m", "\u{1b}[39m"),
        "white" => ("\u{1b}[37m", "\u{1b}[39m"),
        "bold" => ("\u{1b}[1m", "\u{1b}[22m"),
        "underline" => ("\u{1b}[4m", "\u{1b}[24m"),
        _ => return None,
    };
    Some(ANSIStr::new(prefix, suffix))
}
