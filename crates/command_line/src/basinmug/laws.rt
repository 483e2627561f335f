//! Command lines worked by hand: what the command makes of their arguments. The functions do nothing.
ghost use Rattle.std.specs.Prelude.{◌≡◌, ◌∷◌, ℕ, List, [], Option, Some, None, Ok, Err, codes, false, true, map, option_map, string_bytes};
ghost use Rattle.std.specs.Io.BufRead.{ends_with_byte};
ghost use Rattle.std.specs.List.{AllByRecursion};
ghost use Rattle.papergrid_picture.specs.Colors.ClosingColors.{IsClosing};
ghost use Rattle.clap.specs.declared.error.kind.ErrorKind.TheVariants.{ArgumentConflict, DisplayHelp, DisplayVersion, InvalidValue, UnknownArgument};
ghost use Rattle.program_options.specs.ColorList.Listed.{color_of_name};
ghost use Rattle.program_options.specs.ColorList.Names.{color_of_texts};
ghost use Rattle.command_line.specs.Basinmug.Asking.{IsRead, IsTold, alignments_asked, asked_table_width, colors_asked, columns_asked, delimiter_asked, file_asked, refusal_of, rows_asked, tail_asked, width_asked};
ghost use Rattle.command_line.specs.Basinmug.Command.{IsBasinmug};
ghost use Rattle.basinmug_values.specs.Choices.{Single, Through, chosen_of};
ghost use Rattle.basinmug_values.specs.Lists.{Numbered, Titled, seen_items};
ghost use Rattle.command_line.specs.Options.Given.{is_wanted};
ghost use Rattle.command_line.specs.Options.Names.{named};
ghost use Rattle.command_line.specs.Basinmug.Names.{escapes, line_styles, priorities, rules};
ghost use Rattle.command_line.specs.declared.basinmug.words.Plan.{Plan as Read};
ghost use Rattle.command_line.specs.declared.basinmug.words.ReadWords.TheVariants.{BadWords};
ghost use Rattle.command_line.specs.Basinmug.Worked.{Finds, GivesValues, basinmug_by_hand, by_names};
ghost use Rattle.tabled_size_priority.specs.Choices.{IsShrunkByChoice};
ghost use Rattle.command_line.specs.Ending.{ended_by, said_of, status_of, unread_for};
ghost use Rattle.command_line.specs.declared.ending.Ending.TheVariants.{Done, Failed, Memory, Faulty, NotUtf8};
ghost use Rattle.std.specs.declared.io.ErrorKind.TheVariants.{InvalidData, OutOfMemory};

use crate::basinmug::words::WidthAsked;
use grid_config_values::AlignmentHorizontal;
use program_options::basinmug::{Escapes, LineStyle, Rules};
use tabled_size_priority::Choice;

/// The command that the lines below are read by is the one that `read_words` reads by.
pub fn the_command_is_basinmug()
    ensures { IsBasinmug basinmug_by_hand }
{}

/// Lines that request a run, with the values that they give for these options.
pub fn words_are_taken()
    ensures nothing { GivesValues [] (codes "file" ∷ codes "escapes" ∷ codes "width" ∷ codes "style" ∷ codes "priority" ∷ codes "rules" ∷ codes "truncate"
        ∷ codes "delimiter" ∷ codes "no-header" ∷ codes "all-columns" ∷ codes "columns" ∷ codes "align" ∷ codes "color" ∷ codes "max-rows" ∷ codes "head" ∷ codes "tail" ∷ codes "expanded" ∷ [])
        (None ∷ Some (codes "colors") ∷ None ∷ Some (codes "rounded") ∷ Some (codes "max") ∷ Some (codes "header") ∷ Some (codes "false")
        ∷ None ∷ Some (codes "false") ∷ Some (codes "false") ∷ None ∷ None ∷ None ∷ None ∷ None ∷ None ∷ Some (codes "false") ∷ []) }
    ensures file { GivesValues (codes "notes.csv" ∷ codes "--columns=2,0" ∷ []) (codes "file" ∷ codes "columns" ∷ []) (Some (codes "notes.csv") ∷ Some (codes "2,0") ∷ []) }
    ensures dash { GivesValues (codes "-" ∷ []) (codes "file" ∷ []) (Some (codes "-") ∷ []) }
    ensures behind { GivesValues (codes "--" ∷ codes "--x" ∷ []) (codes "file" ∷ []) (Some (codes "--x") ∷ []) }
    ensures mixed { GivesValues (codes "--width" ∷ codes "60" ∷ codes "notes.csv" ∷ codes "--expanded" ∷ []) (codes "file" ∷ codes "width" ∷ codes "expanded" ∷ [])
        (Some (codes "notes.csv") ∷ Some (codes "60") ∷ Some (codes "true") ∷ []) }
    ensures lists { GivesValues (codes "--color=0=red,note=bold" ∷ codes "--align" ∷ codes "1=right" ∷ []) (codes "color" ∷ codes "align" ∷ [])
        (Some (codes "0=red,note=bold") ∷ Some (codes "1=right") ∷ []) }
    ensures found { GivesValues (codes "--delimiter=auto" ∷ codes "notes.txt" ∷ []) (codes "delimiter" ∷ codes "file" ∷ []) (Some (codes "auto") ∷ Some (codes "notes.txt") ∷ []) }
    ensures head { GivesValues (codes "--head" ∷ codes "2" ∷ []) (codes "head" ∷ codes "max-rows" ∷ []) (Some (codes "2") ∷ None ∷ []) }
    ensures tail { GivesValues (codes "--tail=3" ∷ codes "--max-rows" ∷ codes "2" ∷ []) (codes "head" ∷ codes "tail" ∷ codes "max-rows" ∷ []) (None ∷ Some (codes "3") ∷ Some (codes "2") ∷ []) }
    ensures both_ends { GivesValues (codes "--head=1" ∷ codes "--tail=1" ∷ []) (codes "head" ∷ codes "tail" ∷ []) (Some (codes "1") ∷ Some (codes "1") ∷ []) }
    ensures all_columns { GivesValues (codes "--all-columns" ∷ []) (codes "all-columns" ∷ codes "truncate" ∷ []) (Some (codes "true") ∷ Some (codes "false") ∷ []) }
    ensures tab { GivesValues (codes "--delimiter" ∷ codes "\\t" ∷ codes "--no-header" ∷ []) (codes "delimiter" ∷ codes "no-header" ∷ [])
        (Some (codes "\\t") ∷ Some (codes "true") ∷ []) }
{}

/// Lines that the command does not accept, with the kind of their error.
pub fn words_are_at_fault()
    ensures two_files { Finds (codes "a" ∷ codes "b" ∷ []) (UnknownArgument ∷ []) }
    ensures no_style { Finds (codes "--style" ∷ codes "round" ∷ []) (InvalidValue ∷ []) }
    ensures no_escapes { Finds (codes "--escapes" ∷ codes "color" ∷ []) (InvalidValue ∷ []) }
    ensures no_rules { Finds (codes "--rules=some" ∷ []) (InvalidValue ∷ []) }
    ensures twice { Finds (codes "--truncate" ∷ codes "--truncate" ∷ []) (ArgumentConflict ∷ []) }
    ensures no_value { Finds (codes "--width" ∷ []) (InvalidValue ∷ []) }
    ensures unknown { Finds (codes "--colour" ∷ codes "0=red" ∷ []) (UnknownArgument ∷ []) }
    ensures below_zero { Finds (codes "--max-rows" ∷ codes "-1" ∷ []) (UnknownArgument ∷ []) }
    ensures head_twice { Finds (codes "--head" ∷ codes "1" ∷ codes "--head=2" ∷ []) (ArgumentConflict ∷ []) }
    ensures no_tail { Finds (codes "--tail" ∷ []) (InvalidValue ∷ []) }
{}

/// Lines that request the help and the version.
pub fn texts_are_asked_for()
    ensures help { Finds (codes "--help" ∷ []) (DisplayHelp ∷ []) }
    ensures short { Finds (codes "-h" ∷ []) (DisplayHelp ∷ []) }
    ensures version { Finds (codes "--version" ∷ []) (DisplayVersion ∷ []) }
{}

/// Of two equally narrow columns, `--priority min` makes the right one narrower first. Of two equally wide ones,
/// `--priority max` does so too.
pub fn ties_go_to_the_right()
    ensures narrowest { IsShrunkByChoice (named priorities Choice.None (Some (codes "min"))) [] 1 (6 ∷ 6 ∷ 7 ∷ []) (6 ∷ 5 ∷ 7 ∷ []) }
    ensures widest { IsShrunkByChoice (named priorities Choice.None (Some (codes "max"))) [] 1 (5 ∷ 6 ∷ 6 ∷ []) (5 ∷ 6 ∷ 5 ∷ []) }
{}

/// What some values mean.
pub fn values_by_hand()
    ensures path { file_asked (Some (codes "notes.csv")) ≡ Some (codes "notes.csv") }
    ensures dash { file_asked (Some (codes "-")) ≡ None }
    ensures semicolon { delimiter_asked (Some (codes ";")) ≡ Some (Some 0x3b) }
    ensures tab { delimiter_asked (Some (codes "\\t")) ≡ Some (Some 0x09) }
    ensures no_delimiter { delimiter_asked None ≡ Some None }
    ensures auto { delimiter_asked (Some (codes "auto")) ≡ Some None }
    ensures letter { delimiter_asked (Some (codes "a")) ≡ Some (Some 0x61) }
    ensures rows { rows_asked (Some (codes "007")) ≡ Some (Some 7) }
    ensures tail { tail_asked None (Some (codes "05")) ≡ Some (Some 5) }
    ensures empty_tail { tail_asked None (Some (codes "0")) ≡ Some (Some 0) }
    ensures width_of_zero { width_asked (Some (codes "0")) ≡ Some (WidthAsked.Columns 0) }
    ensures no_tail { tail_asked (Some (codes "2")) None ≡ Some None }
    ensures no_ends { tail_asked None None ≡ Some None }
    ensures width { width_asked (Some (codes "60")) ≡ Some (WidthAsked.Columns 60) }
    ensures any_width { width_asked (Some (codes "none")) ≡ Some WidthAsked.None }
    ensures environment { asked_table_width None None ≡ Some WidthAsked.Environment }
    ensures markdown { asked_table_width (Some (codes "markdown")) None ≡ Some WidthAsked.None }
    ensures markdown_of_any_width { asked_table_width (Some (codes "markdown")) (Some (codes "none")) ≡ Some WidthAsked.None }
    ensures max { named priorities Choice.None (Some (codes "max")) ≡ Choice.MaxRight }
    ensures min { named priorities Choice.None (Some (codes "min")) ≡ Choice.MinRight }
    ensures left { named priorities Choice.None (Some (codes "left")) ≡ Choice.Left }
    ensures right { named priorities Choice.None (Some (codes "right")) ≡ Choice.Right }
    ensures line_style { named line_styles LineStyle.Rounded (Some (codes "extended")) ≡ LineStyle.Extended }
    ensures colors_alone { named escapes Escapes.Colors (Some (codes "colors")) ≡ Escapes.Colors }
    ensures all_escapes { named escapes Escapes.Colors (Some (codes "all")) ≡ Escapes.All }
    ensures no_escapes { named escapes Escapes.Colors (Some (codes "none")) ≡ Escapes.None }
    ensures rules { named rules Rules.Header (Some (codes "none")) ≡ Rules.None }
    ensures red { colors_asked (Some (codes "1=red")) ≡ Some ((Numbered 1, color_of_texts (codes "\u{1b}[31m") (codes "\u{1b}[39m")) ∷ []) }
    ensures no_list { alignments_asked None ≡ Some [] }
    ensures all_columns { columns_asked None ≡ Some [] }
    ensures one_column { columns_asked (Some (codes "price")) ≡ Some (Single (Titled (codes "price")) ∷ []) }
    ensures columns { columns_asked (Some (codes "price,2-4,00,0")) ≡ Some (Single (Titled (codes "price")) ∷ Through 2 4 ∷ Single (Numbered 0) ∷ Single (Numbered 0) ∷ []) }
    ensures range_of_one { columns_asked (Some (codes "7-07")) ≡ Some (Through 7 7 ∷ []) }
    ensures no_range { columns_asked (Some (codes "2-,-3,a-b,1-2-3")) ≡ Some (Single (Titled (codes "2-")) ∷ Single (Titled (codes "-3")) ∷ Single (Titled (codes "a-b")) ∷ Single (Titled (codes "1-2-3")) ∷ []) }
    ensures two { alignments_asked (Some (codes "007=right,a b=left")) ≡ Some ((Numbered 7, AlignmentHorizontal.Right) ∷ (Titled (codes "a b"), AlignmentHorizontal.Left) ∷ []) }
    ensures tab_by_name { delimiter_asked (Some (codes "tab")) ≡ Some (Some 0x09) }
    ensures in_turns { named priorities Choice.MaxRight (Some (codes "none")) ≡ Choice.None }
    ensures rounded { named line_styles LineStyle.Empty (Some (codes "rounded")) ≡ LineStyle.Rounded }
    ensures modern { named line_styles LineStyle.Rounded (Some (codes "modern")) ≡ LineStyle.Modern }
    ensures ascii { named line_styles LineStyle.Rounded (Some (codes "ascii")) ≡ LineStyle.Ascii }
    ensures of_document { named line_styles LineStyle.Rounded (Some (codes "markdown")) ≡ LineStyle.Markdown }
    ensures no_lines { named line_styles LineStyle.Rounded (Some (codes "empty")) ≡ LineStyle.Empty }
    ensures below_header { named rules Rules.None (Some (codes "header")) ≡ Rules.Header }
    ensures all_rules { named rules Rules.Header (Some (codes "all")) ≡ Rules.All }
{}

/// Values that are wrong.
pub fn values_that_are_none()
    ensures no_byte { delimiter_asked (Some []) ≡ None }
    ensures two_bytes { delimiter_asked (Some (codes ";;")) ≡ None }
    ensures automatic { delimiter_asked (Some (codes "automatic")) ≡ None }
    ensures capitals { delimiter_asked (Some (codes "AUTO")) ≡ None }
    ensures quote { delimiter_asked (Some (0x22 ∷ [])) ≡ None }
    ensures line_feed { delimiter_asked (Some (0x0a ∷ [])) ≡ None }
    ensures rows { rows_asked (Some (codes "4294967296")) ≡ None }
    ensures tail { tail_asked None (Some (codes "five")) ≡ None }
    ensures head_and_tail { tail_asked (Some (codes "2")) (Some (codes "5")) ≡ None }
    ensures empty_head_and_tail { tail_asked (Some (codes "0")) (Some (codes "0")) ≡ None }
    ensures plus { width_asked (Some (codes "+6")) ≡ None }
    ensures markdown { asked_table_width (Some (codes "markdown")) (Some (codes "60")) ≡ None }
    ensures middle { alignments_asked (Some (codes "0=middle")) ≡ None }
    ensures twice { alignments_asked (Some (codes "0=left,00=left")) ≡ None }
    ensures title_twice { alignments_asked (Some (codes "a=left,b=left,a=right")) ≡ None }
    ensures empty { alignments_asked (Some []) ≡ None }
    ensures at_end { alignments_asked (Some (codes "0=left,")) ≡ None }
    ensures no_column { alignments_asked (Some (codes "=left")) ≡ None }
    ensures no_name { alignments_asked (Some (codes "0")) ≡ None }
    ensures too_great { alignments_asked (Some (codes "4294967296=left")) ≡ None }
    ensures no_columns { columns_asked (Some []) ≡ None }
    ensures columns_at_end { columns_asked (Some (codes "a,")) ≡ None }
    ensures falling { columns_asked (Some (codes "3-1")) ≡ None }
    ensures too_great_column { columns_asked (Some (codes "4294967296")) ≡ None }
    ensures first { refusal_of (λ _. Some (codes "x")) ≡ Some (codes "basinmug: bad number of rows: use 0 to 4294967295") }
    ensures none { refusal_of (λ _. None) ≡ None }
    ensures both_ends { refusal_of (by_names ((codes "head", codes "1") ∷ (codes "tail", codes "2") ∷ (codes "width", codes "x") ∷ [])) ≡ Some (codes "basinmug: --head and --tail exclude each other") }
    ensures bad_tail { refusal_of (by_names ((codes "head", codes "1") ∷ (codes "tail", codes "x") ∷ [])) ≡ Some (codes "basinmug: bad number of rows: use 0 to 4294967295") }
    ensures bad_width { refusal_of (by_names ((codes "tail", codes "2") ∷ (codes "width", codes "x") ∷ [])) ≡ Some (codes "basinmug: bad width: use 0 to 4294967295, or none") }
    ensures delimiter_first { refusal_of (by_names ((codes "columns", codes "3-1") ∷ (codes "color", codes "x") ∷ (codes "align", codes "x") ∷ (codes "width", codes "60") ∷ (codes "style", codes "markdown") ∷ (codes "max-rows", codes "x") ∷ (codes "delimiter", codes "xx") ∷ [])) ≡ Some (codes "basinmug: bad delimiter: use an ASCII character, tab, or auto") }
    ensures rows_second { refusal_of (by_names ((codes "columns", codes "3-1") ∷ (codes "color", codes "x") ∷ (codes "align", codes "x") ∷ (codes "width", codes "60") ∷ (codes "style", codes "markdown") ∷ (codes "max-rows", codes "x") ∷ [])) ≡ Some (codes "basinmug: bad number of rows: use 0 to 4294967295") }
    ensures markdown_width { refusal_of (by_names ((codes "columns", codes "3-1") ∷ (codes "color", codes "x") ∷ (codes "align", codes "x") ∷ (codes "width", codes "60") ∷ (codes "style", codes "markdown") ∷ [])) ≡ Some (codes "basinmug: markdown takes no width") }
    ensures alignment { refusal_of (by_names ((codes "columns", codes "3-1") ∷ (codes "color", codes "x") ∷ (codes "align", codes "x") ∷ [])) ≡ Some (codes "basinmug: bad alignment: use COLUMN=left, center or right, separated by commas") }
    ensures color { refusal_of (by_names ((codes "columns", codes "3-1") ∷ (codes "color", codes "x") ∷ [])) ≡ Some (codes "basinmug: bad color: use COLUMN=NAME, separated by commas") }
    ensures columns { refusal_of (by_names ((codes "columns", codes "3-1") ∷ [])) ≡ Some (codes "basinmug: bad columns: use COLUMN or N-M, separated by commas") }
{}

/// Each colour that is read for a run clears what it sets.
pub fn colors_that_are_read_close()
    ensures { (given : List ℕ → Option (List ℕ)) (plan : Read) → IsRead given plan → AllByRecursion (λ pair. IsClosing pair.1) plan.options.colors.items }
{}

/// Each colour that is read for a run is one that has a name.
pub fn colors_that_are_read_have_names()
    ensures { (given : List ℕ → Option (List ℕ)) (plan : Read) → IsRead given plan → AllByRecursion (λ pair. (name : List ℕ) × (color_of_name name ≡ Some pair.1)) plan.options.colors.items }
{}

/// Each option has its own effect, and none where it is not given.
pub fn options_by_hand()
    ensures no_header { (plan : Read) → IsRead (by_names ((codes "no-header", codes "true") ∷ [])) plan → plan.options.header ≡ false }
    ensures truncate { (plan : Read) → IsRead (by_names ((codes "truncate", codes "true") ∷ [])) plan → plan.options.truncate ≡ true }
    ensures expanded { (plan : Read) → IsRead (by_names ((codes "expanded", codes "true") ∷ [])) plan → plan.options.expanded ≡ true }
    ensures all_columns { (plan : Read) → IsRead (by_names ((codes "all-columns", codes "true") ∷ [])) plan → plan.all_columns ≡ true }
    ensures style { (plan : Read) → IsRead (by_names ((codes "style", codes "ascii") ∷ [])) plan → plan.options.line_style ≡ LineStyle.Ascii }
    ensures escapes { (plan : Read) → IsRead (by_names ((codes "escapes", codes "none") ∷ [])) plan → plan.options.escapes ≡ Escapes.None }
    ensures rules { (plan : Read) → IsRead (by_names ((codes "rules", codes "all") ∷ [])) plan → plan.options.rules ≡ Rules.All }
    ensures priority { (plan : Read) → IsRead (by_names ((codes "priority", codes "left") ∷ [])) plan → plan.options.priority ≡ Choice.Left }
    ensures delimiter { (plan : Read) → IsRead (by_names ((codes "delimiter", codes ";") ∷ [])) plan → plan.delimiter ≡ Some 0x3b }
    ensures max_rows { (plan : Read) → IsRead (by_names ((codes "max-rows", codes "7") ∷ [])) plan → plan.options.max_rows ≡ Some 7 }
    ensures head { (plan : Read) → IsRead (by_names ((codes "head", codes "7") ∷ [])) plan → plan.head ≡ Some 7 }
    ensures tail { (plan : Read) → IsRead (by_names ((codes "tail", codes "7") ∷ [])) plan → plan.tail ≡ Some 7 }
    ensures width { (plan : Read) → IsRead (by_names ((codes "width", codes "60") ∷ [])) plan → plan.width ≡ WidthAsked.Columns 60 }
    ensures header { (plan : Read) → IsRead (λ _. None) plan → plan.options.header ≡ true }
    ensures wrapped { (plan : Read) → IsRead (λ _. None) plan → plan.options.truncate ≡ false }
    ensures table { (plan : Read) → IsRead (λ _. None) plan → plan.options.expanded ≡ false }
    ensures fitting { (plan : Read) → IsRead (λ _. None) plan → plan.all_columns ≡ false }
    ensures usual_style { (plan : Read) → IsRead (λ _. None) plan → plan.options.line_style ≡ LineStyle.Rounded }
    ensures usual_escapes { (plan : Read) → IsRead (λ _. None) plan → plan.options.escapes ≡ Escapes.Colors }
    ensures usual_rules { (plan : Read) → IsRead (λ _. None) plan → plan.options.rules ≡ Rules.Header }
    ensures usual_priority { (plan : Read) → IsRead (λ _. None) plan → plan.options.priority ≡ Choice.MaxRight }
    ensures no_head { (plan : Read) → IsRead (λ _. None) plan → plan.head ≡ None }
    ensures no_tail { (plan : Read) → IsRead (λ _. None) plan → plan.tail ≡ None }
    ensures all_rows { (plan : Read) → IsRead (λ _. None) plan → plan.options.max_rows ≡ None }
    ensures environment { (plan : Read) → IsRead (λ _. None) plan → plan.width ≡ WidthAsked.Environment }
    ensures not_cut { (plan : Read) → IsRead (by_names ((codes "truncate", codes "false") ∷ [])) plan → plan.options.truncate ≡ false }
    ensures file { (plan : Read) → IsRead (by_names ((codes "file", codes "a.csv") ∷ [])) plan → option_map string_bytes plan.file ≡ Some (codes "a.csv") }
    ensures columns { (plan : Read) → IsRead (by_names ((codes "columns", codes "2,0") ∷ [])) plan → map chosen_of plan.options.columns.items ≡ Single (Numbered 2) ∷ Single (Numbered 0) ∷ [] }
    ensures alignments { (plan : Read) → IsRead (by_names ((codes "align", codes "1=right") ∷ [])) plan → seen_items plan.options.alignments.items ≡ (Numbered 1, AlignmentHorizontal.Right) ∷ [] }
    ensures colors { (plan : Read) → IsRead (by_names ((codes "color", codes "1=red") ∷ [])) plan → seen_items plan.options.colors.items ≡ (Numbered 1, color_of_texts (codes "\u{1b}[31m") (codes "\u{1b}[39m")) ∷ [] }
    ensures room { (plan : Read) → IsRead (λ _. None) plan → plan.options.width ≡ None }
{}

/// Which kinds of what the command finds are requests for a text; a message on an error ends with a line feed.
pub fn wanted_texts_by_hand()
    ensures help { is_wanted DisplayHelp ≡ true }
    ensures version { is_wanted DisplayVersion ≡ true }
    ensures unknown { is_wanted UnknownArgument ≡ false }
    ensures no_value { is_wanted InvalidValue ≡ false }
    ensures line_feed { (text : _) → IsTold UnknownArgument (BadWords text) → ends_with_byte 0x0a (string_bytes text) ≡ true }
{}

/// The status of each ending, what is said of it on standard error, and how a run ends.
pub fn endings_by_hand()
    ensures done { status_of {F = ℕ} Done ≡ 0 }
    ensures failed { status_of {F = ℕ} (Failed 7) ≡ 1 }
    ensures memory { status_of {F = ℕ} Memory ≡ 1 }
    ensures faulty { (text : _) → status_of {F = ℕ} (Faulty text) ≡ 2 }
    ensures not_utf8 { status_of {F = ℕ} NotUtf8 ≡ 2 }
    ensures silent { said_of {F = ℕ} (codes "basinmug") (λ _. None) Done ≡ Some [] }
    ensures reason { said_of {F = ℕ} (codes "basinmug") (λ _. Some (codes "no")) (Failed 7) ≡ Some (codes "basinmug: no\n") }
    ensures out_of_memory { said_of {F = ℕ} (codes "columns") (λ _. None) Memory ≡ Some (codes "columns: out of memory\n") }
    ensures ended { (text : _) → string_bytes text ≡ codes "no\n" → said_of {F = ℕ} (codes "basinmug") (λ _. None) (Faulty text) ≡ Some (codes "no\n") }
    ensures not_ended { (text : _) → string_bytes text ≡ codes "no" → said_of {F = ℕ} (codes "basinmug") (λ _. None) (Faulty text) ≡ Some (codes "no\n") }
    ensures no_text { said_of {F = ℕ} (codes "columns") (λ _. None) NotUtf8 ≡ Some (codes "columns: an argument is not UTF-8\n") }
    ensures of_a_run { ended_by {F = ℕ} {T = ℕ} (Ok 1) ≡ Done }
    ensures of_a_failed_run { ended_by {F = ℕ} {T = ℕ} (Err 7) ≡ Failed 7 }
    ensures no_memory_for_words { unread_for {F = ℕ} OutOfMemory ≡ Memory }
    ensures word_that_is_no_text { unread_for {F = ℕ} InvalidData ≡ NotUtf8 }
{}
