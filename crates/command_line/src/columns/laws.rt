//! Command lines worked by hand: what the command makes of their arguments. The functions do nothing.
ghost use Rattle.std.specs.Prelude.{◌≡◌, ◌∷◌, [], Some, None, codes, Bool, false, true};
ghost use Rattle.clap.specs.declared.error.kind.ErrorKind.TheVariants.{ArgumentConflict, DisplayHelp, DisplayVersion, InvalidValue, UnknownArgument, ValueValidation};
ghost use Rattle.grid_config.specs.Compact.{compact_of};
ghost use Rattle.program_options.specs.ColorList.Names.{color_of_texts};
ghost use Rattle.program_options.specs.Columns.Settings.{settings_with};
ghost use Rattle.command_line.specs.Columns.Asking.{colors_asked, number, IsBadColor, IsRead};
ghost use Rattle.command_line.specs.Columns.Command.{IsColumns};
ghost use Rattle.command_line.specs.Options.Names.{named};
ghost use Rattle.command_line.specs.Columns.Names.{priorities, styles};
ghost use Rattle.command_line.specs.Columns.Worked.{Finds, GivesValues, columns_by_hand};
ghost use Rattle.grid_config_values.specs.Glyphs.{no_borders};
ghost use Rattle.tabled_glyphs.specs.Glyphs.{ascii, modern, extended};
ghost use Rattle.tabled_size_priority.specs.Choices.{IsShrunkByChoice};
ghost use Rattle.command_line.specs.Basinmug.Worked.{by_names};
ghost use Rattle.program_options.specs.declared.columns.options.Options.{Options as Read};

use tabled_size_priority::Choice;

/// The command that the lines below are read by is the one that `read_words` reads by.
pub fn the_command_is_columns()
    ensures { IsColumns columns_by_hand }
{}

/// Lines that request a run, with the values that they give.
pub fn words_are_taken()
    ensures nothing { GivesValues [] (None ∷ Some (codes "false") ∷ Some (codes "false") ∷ Some (codes "none") ∷ Some (codes "ascii") ∷ Some (codes "false") ∷ None ∷ []) }
    ensures narrowed { GivesValues (codes "--width" ∷ codes "6" ∷ codes "--truncate" ∷ codes "--priority" ∷ codes "max" ∷ [])
        (Some (codes "6") ∷ Some (codes "true") ∷ Some (codes "false") ∷ Some (codes "max") ∷ Some (codes "ascii")
        ∷ Some (codes "false") ∷ None ∷ []) }
    ensures attached { GivesValues (codes "--keep-words" ∷ codes "--width=0" ∷ []) (Some (codes "0") ∷ Some (codes "false") ∷ Some (codes "true")
        ∷ Some (codes "none") ∷ Some (codes "ascii") ∷ Some (codes "false") ∷ None ∷ []) }
    ensures greatest { GivesValues (codes "--width" ∷ codes "4294967295" ∷ []) (Some (codes "4294967295") ∷ Some (codes "false")
        ∷ Some (codes "false") ∷ Some (codes "none") ∷ Some (codes "ascii") ∷ Some (codes "false") ∷ None ∷ []) }
    ensures colored { GivesValues (codes "--color" ∷ codes "0=red,2=bold" ∷ []) (None ∷ Some (codes "false") ∷ Some (codes "false")
        ∷ Some (codes "none") ∷ Some (codes "ascii") ∷ Some (codes "false") ∷ Some (codes "0=red,2=bold") ∷ []) }
    ensures no_list { GivesValues (codes "--color=" ∷ []) (None ∷ Some (codes "false") ∷ Some (codes "false") ∷ Some (codes "none") ∷ Some (codes "ascii") ∷ Some (codes "false") ∷ Some [] ∷ []) }
    ensures streamed { GivesValues (codes "--streamed" ∷ codes "--style" ∷ codes "modern" ∷ [])
        (None ∷ Some (codes "false") ∷ Some (codes "false") ∷ Some (codes "none") ∷ Some (codes "modern")
        ∷ Some (codes "true") ∷ None ∷ []) }
{}

/// Lines that the command does not accept, with the kind of their error.
pub fn words_are_at_fault()
    ensures too_wide { Finds (codes "--width" ∷ codes "4294967296" ∷ []) (ValueValidation ∷ []) }
    ensures below_zero { Finds (codes "--width" ∷ codes "-1" ∷ []) (UnknownArgument ∷ []) }
    ensures no_style { Finds (codes "--style" ∷ codes "none" ∷ []) (InvalidValue ∷ []) }
    ensures stray { Finds (codes "x" ∷ []) (UnknownArgument ∷ []) }
    ensures twice { Finds (codes "--truncate" ∷ codes "--truncate" ∷ []) (ArgumentConflict ∷ []) }
    ensures no_value { Finds (codes "--width" ∷ []) (InvalidValue ∷ []) }
    ensures no_colors { Finds (codes "--color" ∷ []) (InvalidValue ∷ []) }
    ensures two_lists { Finds (codes "--color" ∷ codes "0=red" ∷ codes "--color" ∷ codes "1=red" ∷ []) (ArgumentConflict ∷ []) }
{}

/// Lines that request the help and the version.
pub fn texts_are_asked_for()
    ensures help { Finds (codes "--help" ∷ []) (DisplayHelp ∷ []) }
    ensures version { Finds (codes "--version" ∷ []) (DisplayVersion ∷ []) }
{}

/// Of two equally narrow columns, `--priority min` makes the left one narrower first. Of two equally wide ones,
/// `--priority max` does so too.
pub fn ties_go_to_the_left()
    ensures narrowest { IsShrunkByChoice (named priorities Choice.None (Some (codes "min"))) [] 1 (6 ∷ 6 ∷ 7 ∷ []) (5 ∷ 6 ∷ 7 ∷ []) }
    ensures widest { IsShrunkByChoice (named priorities Choice.None (Some (codes "max"))) [] 1 (5 ∷ 6 ∷ 6 ∷ []) (5 ∷ 5 ∷ 6 ∷ []) }
{}

/// What some values mean.
pub fn values_by_hand()
    ensures greatest { number (codes "4294967295") ≡ 4294967295 }
    ensures zeros { number (codes "+007") ≡ 7 }
    ensures min { named priorities Choice.None (Some (codes "min")) ≡ Choice.MinLeft }
    ensures max { named priorities Choice.None (Some (codes "max")) ≡ Choice.MaxLeft }
    ensures left { named priorities Choice.None (Some (codes "left")) ≡ Choice.Left }
    ensures right { named priorities Choice.None (Some (codes "right")) ≡ Choice.Right }
    ensures none { named priorities Choice.Left (Some (codes "none")) ≡ Choice.None }
    ensures no_name { named priorities Choice.Left None ≡ Choice.Left }
    ensures modern { named styles ascii (Some (codes "modern")) ≡ modern }
    ensures empty { named styles ascii (Some (codes "empty")) ≡ no_borders }
    ensures uncolored { colors_asked None ≡ Some [] }
    ensures red { colors_asked (Some (codes "1=red")) ≡ Some ((1, color_of_texts (codes "\u{1b}[31m") (codes "\u{1b}[39m")) ∷ []) }
    ensures pink { colors_asked (Some (codes "0=pink")) ≡ None }
    ensures ascii { named styles no_borders (Some (codes "ascii")) ≡ ascii }
    ensures extended { named styles ascii (Some (codes "extended")) ≡ extended }
{}

/// Each option has its own effect, and none where it is not given.
pub fn options_by_hand()
    ensures width { (options : Read) (by_row : Bool) → IsRead (by_names ((codes "width", codes "+6") ∷ [])) options by_row → options.width ≡ Some 6 }
    ensures truncate { (options : Read) (by_row : Bool) → IsRead (by_names ((codes "truncate", codes "true") ∷ [])) options by_row → options.truncate ≡ true }
    ensures keep_words { (options : Read) (by_row : Bool) → IsRead (by_names ((codes "keep-words", codes "true") ∷ [])) options by_row → options.keep_words ≡ true }
    ensures priority { (options : Read) (by_row : Bool) → IsRead (by_names ((codes "priority", codes "left") ∷ [])) options by_row → options.priority ≡ Choice.Left }
    ensures streamed { (options : Read) (by_row : Bool) → IsRead (by_names ((codes "streamed", codes "true") ∷ [])) options by_row → by_row ≡ true }
    ensures no_width { (options : Read) (by_row : Bool) → IsRead (λ _. None) options by_row → options.width ≡ None }
    ensures wrapped { (options : Read) (by_row : Bool) → IsRead (λ _. None) options by_row → options.truncate ≡ false }
    ensures anywhere { (options : Read) (by_row : Bool) → IsRead (λ _. None) options by_row → options.keep_words ≡ false }
    ensures whole { (options : Read) (by_row : Bool) → IsRead (λ _. None) options by_row → by_row ≡ false }
    ensures style { (options : Read) (by_row : Bool) → IsRead (by_names ((codes "style", codes "modern") ∷ [])) options by_row → compact_of options.style ≡ settings_with modern }
    ensures usual_style { (options : Read) (by_row : Bool) → IsRead (λ _. None) options by_row → compact_of options.style ≡ settings_with ascii }
    ensures colors { (options : Read) (by_row : Bool) → IsRead (by_names ((codes "color", codes "1=red") ∷ [])) options by_row →
        options.colors.items ≡ (1, color_of_texts (codes "\u{1b}[31m") (codes "\u{1b}[39m")) ∷ [] }
    ensures no_colors { (options : Read) (by_row : Bool) → IsRead (λ _. None) options by_row → options.colors.items ≡ [] }
    ensures usual_priority { (options : Read) (by_row : Bool) → IsRead (λ _. None) options by_row → options.priority ≡ Choice.None }
    ensures not_streamed { (options : Read) (by_row : Bool) → IsRead (by_names ((codes "streamed", codes "false") ∷ [])) options by_row → by_row ≡ false }
    ensures bad_color { (text : _) → IsBadColor (Some (codes "0=pink")) text → text ≡ codes "columns: bad color" }
{}
