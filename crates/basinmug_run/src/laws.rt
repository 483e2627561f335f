//! Laws of the definitions that the contracts cite. The functions do nothing.
ghost use Rattle.std.specs.Prelude.{◌≡◌, ◌∷◌, ◌+◌, ◌<◌, ◌^◌, ℕ, Bool, List, Option, [], None, Some, codes, false, length, take, true, ◌++◌, string_bytes};
ghost use Rattle.basinmug_columns.specs.Fitting.Fitting.{ellipsis};
ghost use Rattle.basinmug_columns.specs.Names.{column_number};
ghost use Rattle.basinmug_columns.specs.declared.rows.RowsShown.TheVariants.{All as AllShown, Between, Earlier, More};
ghost use Rattle.basinmug_columns.specs.declared.shown.ShownColumn.TheVariants.{Number as Shown, LeftOut};
ghost use Rattle.program_options.specs.declared.basinmug.ColumnChoice.TheVariants.{One, Range};
ghost use Rattle.program_options.specs.declared.basinmug.ColumnName.TheVariants.{Number as ByNumber};
ghost use Rattle.program_options.specs.declared.basinmug.LineStyle.TheVariants.{Empty, Rounded, Ascii, Modern, Extended};
ghost use Rattle.basinmug_run.specs.Columns.{AreOfValues, chosen_columns, columns_through, fitting_in, is_lined, last_for, missing_choices, placed, rows_with, with_columns, column_counts, missing_of_columns, number_in};
ghost use Rattle.basinmug_run.specs.declared.options.ColumnsShown.{ColumnsShown as ShownOnes};
ghost use Rattle.basinmug_run.specs.declared.options.ColumnsShown.TheVariants.{All as AllColumns, Fitting};
ghost use Rattle.basinmug_run.specs.Requests.{options_of};
ghost use Rattle.program_options.specs.declared.basinmug.Options.{Options as OfCommandLine};
ghost use Rattle.grid_config.specs.Colors.{Color as CellColor};
ghost use Rattle.basinmug_columns.specs.declared.rows.RowsShown.{RowsShown as Which};
ghost use Rattle.basinmug_columns.specs.declared.shown.ShownColumn.{ShownColumn as Choosing};
ghost use Rattle.basinmug_input.specs.Kept.{kept_rows, rows_left_out};
ghost use Rattle.basinmug_run.specs.Picture.Rows.{header_rows, header_of};
ghost use Rattle.basinmug_run.specs.Kept.{choice_by, kept_of, shown_by};
ghost use Rattle.basinmug_run.specs.Columns.{missing_in};
ghost use Rattle.basinmug_run.specs.Runs.{form_of, missing_kept};
ghost use Rattle.basinmug_run.specs.declared.options.Options.{Options as Asked};
ghost use Rattle.basinmug_input.specs.declared.fault.InputFault.{InputFault as ReadingFault};
ghost use Rattle.basinmug_run.specs.declared.picture.fault.PrintFault.{PrintFault as PrintingFault};
ghost use Rattle.basinmug_run.specs.Faults.{of_input, of_print, run_fault_text};
ghost use Rattle.basinmug_run.specs.Messages.{with_visible_controls};
ghost use Rattle.basinmug_run.specs.declared.fault.RunFault.{RunFault as OneFault};
ghost use Rattle.basinmug_run.specs.Picture.Names.{missing_names};
ghost use Rattle.tabled_text.specs.Rows.{longest};
ghost use Rattle.basinmug_run.specs.declared.picture.fault.PrintFault.TheVariants.{NoColumn};
ghost use Rattle.basinmug_run.specs.declared.fault.RunFault.TheVariants.{Print as OfPrint, Memory as NoMemory};

use crate::fault::RunFault;
use crate::picture::PrintFault;
use basinmug_input::InputFault;
use grid_config_values::AlignmentHorizontal;
use std::fmt::Display;

/// An error is printed as its own text; one of the text and one of printing are reported by their own names, but
/// that a lack of memory is `Memory`.
pub fn faults_are_printed_whole()
    ensures printed { (fault : OneFault) → ⟦<RunFault as Display>⟧.output fault ≡ Some (run_fault_text fault) }
    ensures of_input { (given : ReadingFault) (fault : OneFault) → ⟦<RunFault as From<InputFault>>⟧.from_gives given fault → fault ≡ of_input given }
    ensures of_print { (given : PrintingFault) (fault : OneFault) → ⟦<RunFault as From<PrintFault>>⟧.from_gives given fault → fault ≡ of_print given }
{}

/// Texts as they are shown in one line.
pub fn visible_by_hand()
    ensures nothing { with_visible_controls [] ≡ [] }
    ensures plain { with_visible_controls (codes "a b") ≡ codes "a b" }
    ensures line_feed { with_visible_controls (codes "a\nb") ≡ 0x61 ∷ 0xe2 ∷ 0x90 ∷ 0x8a ∷ 0x62 ∷ [] }
    ensures escape { with_visible_controls (0x1b ∷ codes "[m") ≡ 0xe2 ∷ 0x90 ∷ 0x9b ∷ codes "[m" }
    ensures delete { with_visible_controls (0x7f ∷ []) ≡ 0xe2 ∷ 0x90 ∷ 0xa1 ∷ [] }
    ensures of_c1 { with_visible_controls (0xc2 ∷ 0x85 ∷ []) ≡ 0xef ∷ 0xbf ∷ 0xbd ∷ [] }
    ensures turned { with_visible_controls (0xe2 ∷ 0x80 ∷ 0xae ∷ []) ≡ 0xef ∷ 0xbf ∷ 0xbd ∷ [] }
    ensures past_controls { with_visible_controls (0xc2 ∷ 0xa0 ∷ []) ≡ 0xc2 ∷ 0xa0 ∷ [] }
{}

/// Columns that are chosen, by number and in ranges, and those of them that three columns lack; rows of such columns,
/// where one is shown twice, one is past a row and one is the mark of those that are left out; and what is requested of
/// columns, of which the last decides, by their places.
pub fn chosen_columns_by_hand()
    ensures range { columns_through (Some (2, 4)) ≡ Shown 2 ∷ Shown 3 ∷ Shown 4 ∷ [] }
    ensures falling { columns_through (Some (3, 2)) ≡ [] }
    ensures chosen { chosen_columns (column_number []) (One (ByNumber 7) ∷ Range 0 1 ∷ One (ByNumber 7) ∷ []) ≡ Shown 7 ∷ Shown 0 ∷ Shown 1 ∷ Shown 7 ∷ [] }
    ensures missing { missing_choices (column_number []) 3 (One (ByNumber 3) ∷ Range 1 2 ∷ Range 0 5 ∷ []) ≡ codes "3" ∷ codes "5" ∷ [] }
    ensures rows { with_columns (Shown 1 ∷ LeftOut ∷ Shown 1 ∷ []) ((codes "a" ∷ codes "b" ∷ []) ∷ (codes "c" ∷ []) ∷ []) ≡ (codes "b" ∷ ellipsis ∷ codes "b" ∷ []) ∷ ([] ∷ ellipsis ∷ [] ∷ []) ∷ [] }
    ensures last { last_for {X = ℕ} ((Some 0, 1) ∷ (None, 2) ∷ (Some 0, 3) ∷ (Some 1, 4) ∷ []) 0 ≡ Some 3 }
    ensures nothing { last_for {X = ℕ} ((Some 0, 1) ∷ []) 1 ≡ None }
    ensures places { placed {X = ℕ} (Shown 2 ∷ LeftOut ∷ Shown 0 ∷ Shown 2 ∷ []) (last_for {X = ℕ} ((Some 2, 5) ∷ [])) ≡ (ByNumber 0, 5) ∷ (ByNumber 3, 5) ∷ [] }
    ensures own { rows_with (One (ByNumber 1) ∷ []) (Shown 1 ∷ []) ((codes "a" ∷ codes "b" ∷ []) ∷ []) ≡ (codes "b" ∷ []) ∷ [] }
    ensures all { rows_with [] [] ((codes "a" ∷ codes "b" ∷ []) ∷ []) ≡ (codes "a" ∷ codes "b" ∷ []) ∷ [] }
{}

/// In which width columns are to fit: in that of the table, but for all columns, and without a width.
pub fn fitting_by_hand()
    ensures fitting { fitting_in Fitting (Some 80) ≡ Some 80 }
    ensures any_width { fitting_in Fitting None ≡ None }
    ensures all { fitting_in AllColumns (Some 80) ≡ None }
    ensures lined { is_lined Rounded ≡ true }
    ensures unlined { is_lined Empty ≡ false }
    ensures others { is_lined Ascii ∷ is_lined Modern ∷ is_lined Extended ∷ [] ≡ true ∷ true ∷ true ∷ [] }
{}

/// Which rows are shown of a header and four records, 0 to 4, and which are said to be left out: by no option, by
/// `max_rows` alone, by `tail` alone, and by both, also where they reach all and where one is 0.
pub fn shown_rows_by_hand()
    ensures all { kept_rows {X = ℕ} (choice_by true None None) (0 ∷ 1 ∷ 2 ∷ 3 ∷ 4 ∷ []) ≡ 0 ∷ 1 ∷ 2 ∷ 3 ∷ 4 ∷ [] }
    ensures first { kept_rows {X = ℕ} (choice_by true (Some 1) None) (0 ∷ 1 ∷ 2 ∷ 3 ∷ 4 ∷ []) ≡ 0 ∷ 1 ∷ [] }
    ensures none_of_the_first { kept_rows {X = ℕ} (choice_by true (Some 0) None) (0 ∷ 1 ∷ 2 ∷ 3 ∷ 4 ∷ []) ≡ 0 ∷ [] }
    ensures last { kept_rows {X = ℕ} (choice_by true None (Some 1)) (0 ∷ 1 ∷ 2 ∷ 3 ∷ 4 ∷ []) ≡ 0 ∷ 4 ∷ [] }
    ensures none_of_the_last { kept_rows {X = ℕ} (choice_by true None (Some 0)) (0 ∷ 1 ∷ 2 ∷ 3 ∷ 4 ∷ []) ≡ 0 ∷ [] }
    ensures both { kept_rows {X = ℕ} (choice_by true (Some 1) (Some 2)) (0 ∷ 1 ∷ 2 ∷ 3 ∷ 4 ∷ []) ≡ 0 ∷ 1 ∷ 3 ∷ 4 ∷ [] }
    ensures none_and_last { kept_rows {X = ℕ} (choice_by true (Some 0) (Some 1)) (0 ∷ 1 ∷ 2 ∷ 3 ∷ 4 ∷ []) ≡ 0 ∷ 4 ∷ [] }
    ensures first_and_none { kept_rows {X = ℕ} (choice_by true (Some 1) (Some 0)) (0 ∷ 1 ∷ 2 ∷ 3 ∷ 4 ∷ []) ≡ 0 ∷ 1 ∷ [] }
    ensures both_reach { kept_rows {X = ℕ} (choice_by true (Some 2) (Some 2)) (0 ∷ 1 ∷ 2 ∷ 3 ∷ 4 ∷ []) ≡ 0 ∷ 1 ∷ 2 ∷ 3 ∷ 4 ∷ [] }
    ensures both_overlap { kept_rows {X = ℕ} (choice_by true (Some 3) (Some 9)) (0 ∷ 1 ∷ 2 ∷ 3 ∷ 4 ∷ []) ≡ 0 ∷ 1 ∷ 2 ∷ 3 ∷ 4 ∷ [] }
    ensures no_header_first { kept_rows {X = ℕ} (choice_by false (Some 1) None) (1 ∷ 2 ∷ 3 ∷ 4 ∷ []) ≡ 1 ∷ [] }
    ensures no_header_last { kept_rows {X = ℕ} (choice_by false None (Some 1)) (1 ∷ 2 ∷ 3 ∷ 4 ∷ []) ≡ 4 ∷ [] }
    ensures no_header_both { kept_rows {X = ℕ} (choice_by false (Some 1) (Some 2)) (1 ∷ 2 ∷ 3 ∷ 4 ∷ []) ≡ 1 ∷ 3 ∷ 4 ∷ [] }
    ensures header_alone { kept_rows {X = ℕ} (choice_by true None (Some 3)) (0 ∷ []) ≡ 0 ∷ [] }
    ensures nothing { kept_rows {X = ℕ} (choice_by true (Some 1) (Some 1)) [] ≡ [] }
{}

/// What is said to be left out of five rows: by no option, by `max_rows` alone, by `tail` alone, and by both.
pub fn left_out_by_hand()
    ensures all { shown_by None None (rows_left_out {X = ℕ} (choice_by true None None) (0 ∷ 1 ∷ 2 ∷ 3 ∷ 4 ∷ [])) ≡ AllShown }
    ensures first { shown_by (Some 1) None (rows_left_out {X = ℕ} (choice_by true (Some 1) None) (0 ∷ 1 ∷ 2 ∷ 3 ∷ 4 ∷ [])) ≡ More 3 }
    ensures last { shown_by None (Some 1) (rows_left_out {X = ℕ} (choice_by true None (Some 1)) (0 ∷ 1 ∷ 2 ∷ 3 ∷ 4 ∷ [])) ≡ Earlier 3 }
    ensures last_without_header { shown_by None (Some 1) (rows_left_out {X = ℕ} (choice_by false None (Some 1)) (0 ∷ 1 ∷ 2 ∷ 3 ∷ 4 ∷ [])) ≡ Earlier 4 }
    ensures both { shown_by (Some 1) (Some 2) (rows_left_out {X = ℕ} (choice_by true (Some 1) (Some 2)) (0 ∷ 1 ∷ 2 ∷ 3 ∷ 4 ∷ [])) ≡ Between 1 1 }
    ensures none_and_last { shown_by (Some 0) (Some 1) (rows_left_out {X = ℕ} (choice_by true (Some 0) (Some 1)) (0 ∷ 1 ∷ 2 ∷ 3 ∷ 4 ∷ [])) ≡ Between 0 3 }
    ensures both_reach { shown_by (Some 2) (Some 2) (rows_left_out {X = ℕ} (choice_by true (Some 2) (Some 2)) (0 ∷ 1 ∷ 2 ∷ 3 ∷ 4 ∷ [])) ≡ AllShown }
{}

/// The first records alone are the rows up to them, as many as a list has. With any choice the header is shown, so that
/// the names that are missing are those that are missing of all rows.
pub fn the_header_is_shown()
    ensures first { (header : Bool) (most : ℕ) (rows : List (List (List ℕ))) → length rows < 2 ^ 64 → kept_rows (choice_by header (Some most) None) rows ≡ take (most + header_rows header) rows }
    ensures missing { (options : Asked) (rows : List (List (List ℕ))) → missing_kept options (kept_of options rows) ≡ missing_in options rows }
{}

/// Of a table of all columns as many are counted as the longest row has fields, also where some of them are left out; and
/// where all are to be shown, none is left out.
pub fn columns_are_counted()
    ensures all { (options : Asked) (rows : List (List (List ℕ))) → options.columns.items ≡ [] → (column_counts options rows).1 ≡ longest rows }
    ensures shown { (options : Asked) (rows : List (List (List ℕ))) → options.columns.items ≡ [] → options.columns_shown ≡ AllColumns → (column_counts options rows).0 ≡ longest rows }
{}

/// The first name that is missing is one of the chosen columns; where all of these are there, one of alignments; and else one
/// of colours.
pub fn names_are_missing_in_turn()
    ensures chosen { (options : Asked) (count : ℕ) (rows : List (List (List ℕ))) (name : List ℕ) (others : List (List ℕ)) →
        missing_choices (number_in options rows) count options.columns.items ≡ name ∷ others →
        (rest : List (List ℕ)) × (missing_of_columns options count rows ≡ name ∷ rest) }
    ensures aligned { (options : Asked) (count : ℕ) (rows : List (List (List ℕ))) (name : List ℕ) (others : List (List ℕ)) →
        missing_choices (number_in options rows) count options.columns.items ≡ [] → missing_names (header_of options.header rows) options.alignments.items ≡ name ∷ others →
        (rest : List (List ℕ)) × (missing_of_columns options count rows ≡ name ∷ rest) }
{}

/// What errors of a run print.
pub fn run_faults_by_hand()
    ensures no_column { (name : _) → run_fault_text (OfPrint (NoColumn name)) ≡ codes "there is no column " ++ string_bytes name }
    ensures memory { run_fault_text NoMemory ≡ codes "out of memory" }
{}

/// What the options of a command line request is what each of them holds; the columns shown and the number of the last
/// records are given beside them.
pub fn options_are_requested()
    ensures line_style { (given : OfCommandLine) (shown : ShownOnes) (tail : Option ℕ) → (options_of given shown tail).line_style ≡ given.line_style }
    ensures header { (given : OfCommandLine) (shown : ShownOnes) (tail : Option ℕ) → (options_of given shown tail).header ≡ given.header }
    ensures escapes { (given : OfCommandLine) (shown : ShownOnes) (tail : Option ℕ) → (options_of given shown tail).escapes ≡ given.escapes }
    ensures rules { (given : OfCommandLine) (shown : ShownOnes) (tail : Option ℕ) → (options_of given shown tail).rules ≡ given.rules }
    ensures width { (given : OfCommandLine) (shown : ShownOnes) (tail : Option ℕ) → (options_of given shown tail).width ≡ given.width }
    ensures truncate { (given : OfCommandLine) (shown : ShownOnes) (tail : Option ℕ) → (options_of given shown tail).truncate ≡ given.truncate }
    ensures priority { (given : OfCommandLine) (shown : ShownOnes) (tail : Option ℕ) → (options_of given shown tail).priority ≡ given.priority }
    ensures columns { (given : OfCommandLine) (shown : ShownOnes) (tail : Option ℕ) → (options_of given shown tail).columns ≡ given.columns }
    ensures alignments { (given : OfCommandLine) (shown : ShownOnes) (tail : Option ℕ) → (options_of given shown tail).alignments ≡ given.alignments }
    ensures colors { (given : OfCommandLine) (shown : ShownOnes) (tail : Option ℕ) → (options_of given shown tail).colors ≡ given.colors }
    ensures expanded { (given : OfCommandLine) (shown : ShownOnes) (tail : Option ℕ) → (options_of given shown tail).expanded ≡ given.expanded }
    ensures max_rows { (given : OfCommandLine) (shown : ShownOnes) (tail : Option ℕ) → (options_of given shown tail).max_rows ≡ given.max_rows }
    ensures columns_shown { (given : OfCommandLine) (shown : ShownOnes) (tail : Option ℕ) → (options_of given shown tail).columns_shown ≡ shown }
    ensures tail { (given : OfCommandLine) (shown : ShownOnes) (tail : Option ℕ) → (options_of given shown tail).tail ≡ tail }
{}

/// Records are written one below the other as they are requested.
pub fn records_are_written_as_requested()
    ensures header { (options : Asked) (shown : Which) (rows : List (List (List ℕ))) → (form_of options shown rows).header ≡ options.header }
    ensures width { (options : Asked) (shown : Which) (rows : List (List (List ℕ))) → (form_of options shown rows).width ≡ options.width }
    ensures truncate { (options : Asked) (shown : Which) (rows : List (List (List ℕ))) → (form_of options shown rows).truncate ≡ options.truncate }
    ensures rows_shown { (options : Asked) (shown : Which) (rows : List (List (List ℕ))) → (form_of options shown rows).rows_shown ≡ shown }
{}

/// What is requested of the table of some columns is what is requested of all, but of its columns.
pub fn tables_of_columns_are_as_requested()
    ensures line_style { (options own : Asked) (shown : List Choosing) (alignment_of : ℕ → Option AlignmentHorizontal) (color_of : ℕ → Option CellColor) → AreOfValues options shown alignment_of color_of own → own.line_style ≡ options.line_style }
    ensures header { (options own : Asked) (shown : List Choosing) (alignment_of : ℕ → Option AlignmentHorizontal) (color_of : ℕ → Option CellColor) → AreOfValues options shown alignment_of color_of own → own.header ≡ options.header }
    ensures escapes { (options own : Asked) (shown : List Choosing) (alignment_of : ℕ → Option AlignmentHorizontal) (color_of : ℕ → Option CellColor) → AreOfValues options shown alignment_of color_of own → own.escapes ≡ options.escapes }
    ensures rules { (options own : Asked) (shown : List Choosing) (alignment_of : ℕ → Option AlignmentHorizontal) (color_of : ℕ → Option CellColor) → AreOfValues options shown alignment_of color_of own → own.rules ≡ options.rules }
    ensures width { (options own : Asked) (shown : List Choosing) (alignment_of : ℕ → Option AlignmentHorizontal) (color_of : ℕ → Option CellColor) → AreOfValues options shown alignment_of color_of own → own.width ≡ options.width }
    ensures truncate { (options own : Asked) (shown : List Choosing) (alignment_of : ℕ → Option AlignmentHorizontal) (color_of : ℕ → Option CellColor) → AreOfValues options shown alignment_of color_of own → own.truncate ≡ options.truncate }
    ensures priority { (options own : Asked) (shown : List Choosing) (alignment_of : ℕ → Option AlignmentHorizontal) (color_of : ℕ → Option CellColor) → AreOfValues options shown alignment_of color_of own → own.priority ≡ options.priority }
    ensures columns_shown { (options own : Asked) (shown : List Choosing) (alignment_of : ℕ → Option AlignmentHorizontal) (color_of : ℕ → Option CellColor) → AreOfValues options shown alignment_of color_of own → own.columns_shown ≡ options.columns_shown }
    ensures expanded { (options own : Asked) (shown : List Choosing) (alignment_of : ℕ → Option AlignmentHorizontal) (color_of : ℕ → Option CellColor) → AreOfValues options shown alignment_of color_of own → own.expanded ≡ options.expanded }
    ensures max_rows { (options own : Asked) (shown : List Choosing) (alignment_of : ℕ → Option AlignmentHorizontal) (color_of : ℕ → Option CellColor) → AreOfValues options shown alignment_of color_of own → own.max_rows ≡ options.max_rows }
    ensures tail { (options own : Asked) (shown : List Choosing) (alignment_of : ℕ → Option AlignmentHorizontal) (color_of : ℕ → Option CellColor) → AreOfValues options shown alignment_of color_of own → own.tail ≡ options.tail }
{}
