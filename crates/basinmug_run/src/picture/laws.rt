//! Laws of the definitions that the contracts cite. The functions do nothing.
ghost use Rattle.std.specs.Io.KnownBytes.{Appends};
ghost use Rattle.std.specs.Prelude.{◌≡◌, ◌≤◌, ◌∷◌, ◌++◌, ℕ, [], codes, false, true, List, None, Option, Some};
ghost use Rattle.std.specs.declared.alloc.AllocError.{AllocError as Refused};
ghost use Rattle.grid_config_values.specs.declared.fault.Fault.{Fault as TableFault};
ghost use Rattle.tabled_output.specs.declared.building.BuildFault.{BuildFault as BuildingFault};
ghost use Rattle.tabled_output.specs.declared.building.BuildFault.TheVariants.{Table as OfTable};
ghost use Rattle.grid_config_values.specs.declared.entity.Entity.TheVariants.{Column};
ghost use Rattle.tabled.specs.Tables.{new_state};
ghost use Rattle.tabled.specs.Totals.{drawn_width};
ghost use Rattle.tabled_list.specs.Lists.{LeadsThrough};
ghost use Rattle.tabled_list.specs.declared.setting.Setting.TheVariants.{LineAlignment, TrimHorizontal, AlignHorizontal, Borders, Color};
ghost use Rattle.tabled_steps.specs.States.{State};
ghost use Rattle.tabled_text.specs.Rows.{filled};
ghost use Rattle.program_options.specs.declared.basinmug.LineStyle.TheVariants.{Markdown, Rounded, Ascii, Modern, Extended, Empty};
ghost use Rattle.basinmug_columns.specs.declared.rows.RowsShown.{RowsShown as Which};
ghost use Rattle.basinmug_columns.specs.declared.rows.RowsShown.TheVariants.{All as AllShown, Between, Earlier, More};
ghost use Rattle.basinmug_run.specs.declared.options.Options.{Options as Asked};
ghost use Rattle.program_options.specs.declared.basinmug.Rules.TheVariants.{All as AllRules, Header as HeaderRule, None as NoRules};
ghost use Rattle.basinmug_columns.specs.Fitting.Fitting.{cut_lines, ellipsis};
ghost use Rattle.grid_records_measure.specs.TextLines.{text_width};
ghost use Rattle.papergrid_print.specs.declared.choice.LineKind.TheVariants.{Boundary, Row};
ghost use Rattle.basinmug_run.specs.Kept.{rows_shown, shown_rows};
ghost use Rattle.basinmug_run.specs.Picture.Faults.{of_build, print_fault_text};
ghost use Rattle.basinmug_run.specs.Picture.Fitting.{fitted, trims};
ghost use Rattle.basinmug_run.specs.Picture.Lines.{below, is_chosen};
ghost use Rattle.basinmug_run.specs.Picture.Pictures.{IsTable, asked_settings, cells_in, is_wider, needs_in, numeric_of};
ghost use Rattle.basinmug_columns.specs.Needs.{needs_of};
ghost use Rattle.basinmug_run.specs.Picture.Printed.{Prints, text_of};
ghost use Rattle.basinmug_run.specs.Picture.Settings.{glyphs_of, settings_of};
ghost use Rattle.basinmug_run.specs.Picture.Rows.{cells_of, is_markdown};
ghost use Rattle.basinmug_run.specs.declared.picture.fault.PrintFault.{PrintFault as OneFault};
ghost use Rattle.basinmug_run.specs.declared.picture.fault.PrintFault.TheVariants.{Memory};
ghost use Rattle.grid_config_values.specs.declared.alignment.AlignmentHorizontal.TheVariants.{Left as AtLeft, Right as AtRight};
ghost use Rattle.program_options.specs.declared.basinmug.ColumnName.TheVariants.{Number as ByNumber};
ghost use Rattle.basinmug_run.specs.Picture.Documents.{is_of};
ghost use Rattle.basinmug_run.specs.declared.picture.documents.DocumentPart.TheVariants.{Header as OfHeader, Records as OfRecords};

use crate::picture::fault::PrintFault;
use std::alloc::{AllocError, AllocFailed};
use std::fmt::Display;
use tabled::{BuildFault, Fault};

/// An error is printed as its own text; one of a table is reported by its own name, but that a lack of memory, a
/// growth that was refused and a value that was not pushed are `Memory`.
pub fn faults_are_printed_whole<T: Drop>()
    ensures printed { (fault : OneFault) → ⟦<PrintFault as Display>⟧.output fault ≡ Some (print_fault_text fault) }
    ensures of_build { (given : BuildingFault) (fault : OneFault) → ⟦<PrintFault as From<BuildFault>>⟧.from_gives given fault → fault ≡ of_build given }
    ensures of_table { (given : TableFault) (fault : OneFault) → ⟦<PrintFault as From<Fault>>⟧.from_gives given fault → fault ≡ of_build (OfTable given) }
    ensures of_memory { (given : Refused) (fault : OneFault) → ⟦<PrintFault as From<AllocError>>⟧.from_gives given fault → fault ≡ Memory }
    ensures of_push { (given : _) (fault : OneFault) → ⟦<PrintFault as From<AllocFailed<T>>>⟧.from_gives given fault → fault ≡ Memory }
{}

/// What is reported to be no wider than requested is the text of a table that is at most so wide.
pub fn tables_are_as_wide_as_is_told()
    ensures { (options : Asked) (rows : List (List (List ℕ))) (width : ℕ) (old new : Option (List ℕ)) → options.width ≡ Some width → Prints options rows false old new →
        (s : State) × IsTable options (rows_shown options rows) (shown_rows options rows) s × (drawn_width s ≤ width) × Appends old new (text_of options (rows_shown options rows) (shown_rows options rows) None s) }
{}

/// The table of a document is the table of its cells after its settings alone, whatever width is requested.
pub fn documents_are_never_wrapped()
    ensures { (options : Asked) (shown : Which) (rows : List (List (List ℕ))) (s : State) → is_markdown options.line_style ≡ true → IsTable options shown rows s →
        LeadsThrough (asked_settings options rows) (new_state (filled (cells_in options shown rows))) s }
{}

/// What is below a table: how many columns and rows are left out.
pub fn counts_by_hand()
    ensures no_row { below Rounded None (More 0) ≡ [] }
    ensures one_row { below Rounded None (More 1) ≡ codes "(1 more row)\n" }
    ensures three_rows { below Rounded None (More 3) ≡ codes "(3 more rows)\n" }
    ensures earlier { below Rounded None (Earlier 3) ≡ codes "(3 earlier rows)\n" }
    ensures between { below Rounded None (Between 2 3) ≡ codes "(3 rows left out)\n" }
    ensures of_document { below Markdown None (Between 2 1) ≡ codes "\n(1 row left out)\n" }
    ensures columns { below Rounded (Some (2, 4)) (More 1) ≡ codes "(2 of 4 columns)\n(1 more row)\n" }
    ensures all_columns { below Rounded (Some (3, 3)) AllShown ≡ [] }
    ensures whole_document { below Markdown (Some (2, 3)) AllShown ≡ [] }
{}

/// Where the row of ellipses is: after the header and the first records, above the last ones, one ellipsis for each column
/// of the longest row; and where no rows are left out between others, nowhere.
pub fn marks_by_hand()
    ensures between { cells_of Rounded true (Between 1 7) ((codes "n" ∷ []) ∷ (codes "a" ∷ codes "b" ∷ []) ∷ (codes "z" ∷ []) ∷ []) ≡ (codes "n" ∷ []) ∷ (codes "a" ∷ codes "b" ∷ []) ∷ (ellipsis ∷ ellipsis ∷ []) ∷ (codes "z" ∷ []) ∷ [] }
    ensures no_header { cells_of Rounded false (Between 1 7) ((codes "a" ∷ []) ∷ (codes "z" ∷ []) ∷ []) ≡ (codes "a" ∷ []) ∷ (ellipsis ∷ []) ∷ (codes "z" ∷ []) ∷ [] }
    ensures none_of_the_first { cells_of Rounded true (Between 0 7) ((codes "n" ∷ []) ∷ (codes "z" ∷ []) ∷ []) ≡ (codes "n" ∷ []) ∷ (ellipsis ∷ []) ∷ (codes "z" ∷ []) ∷ [] }
    ensures none_of_the_last { cells_of Rounded true (Between 1 7) ((codes "n" ∷ []) ∷ (codes "a" ∷ []) ∷ []) ≡ (codes "n" ∷ []) ∷ (codes "a" ∷ []) ∷ (ellipsis ∷ []) ∷ [] }
    ensures earlier { cells_of Rounded true (Earlier 7) ((codes "n" ∷ []) ∷ (codes "z" ∷ []) ∷ []) ≡ (codes "n" ∷ []) ∷ (codes "z" ∷ []) ∷ [] }
    ensures of_document { cells_of Markdown false (Between 0 7) ([] ∷ []) ≡ [] ∷ [] ∷ [] ∷ [] }
{}

/// Texts that are cut or stay, and whose lines are trimmed: of two columns that take nine and four, and have five and
/// four, two of which are paddings.
pub fn rooms_by_hand()
    ensures wide { (text : List ℕ) → text_width text ≡ 4 → fitted true (9 ∷ 4 ∷ []) (5 ∷ 4 ∷ []) 0 text ≡ Some (cut_lines 3 text) }
    ensures fits { (text : List ℕ) → text_width text ≡ 3 → fitted true (9 ∷ 4 ∷ []) (5 ∷ 4 ∷ []) 0 text ≡ None }
    ensures room { fitted true (9 ∷ 4 ∷ []) (5 ∷ 4 ∷ []) 1 (codes "too long") ≡ None }
    ensures no_column { fitted true (9 ∷ 4 ∷ []) (5 ∷ 4 ∷ []) 2 (codes "too long") ≡ None }
    ensures wrapped { trims false (9 ∷ 4 ∷ []) (5 ∷ 4 ∷ []) ≡ TrimHorizontal (Column 0) true ∷ LineAlignment (Column 0) true ∷ [] }
    ensures cut { trims true (9 ∷ 4 ∷ []) (5 ∷ 4 ∷ []) ≡ [] }
{}

/// Which lines of a table of three rows are printed: those above the first row and below the last, the rows, and
/// between rows the one below the header, all, or none.
pub fn lines_by_hand()
    ensures below_header { is_chosen HeaderRule true 3 (Boundary 1) ≡ true }
    ensures below_record { is_chosen HeaderRule true 3 (Boundary 2) ≡ false }
    ensures no_header { is_chosen HeaderRule false 3 (Boundary 1) ≡ false }
    ensures all { is_chosen AllRules true 3 (Boundary 2) ≡ true }
    ensures top { is_chosen NoRules true 3 (Boundary 0) ≡ true }
    ensures between { is_chosen NoRules true 3 (Boundary 1) ≡ false }
    ensures bottom { is_chosen NoRules true 3 (Boundary 3) ≡ true }
    ensures row { is_chosen NoRules true 3 (Row 1) ≡ true }
{}

/// The rows of a document are between bars, and no line of its table is above, between or below them.
pub fn bars_by_hand()
    ensures bars { (glyphs_of Markdown).left ≡ Some 0x7c × (glyphs_of Markdown).vertical ≡ Some 0x7c × (glyphs_of Markdown).right ≡ Some 0x7c }
    ensures lines { (glyphs_of Markdown).top ≡ None × (glyphs_of Markdown).horizontal ≡ None × (glyphs_of Markdown).bottom ≡ None }
{}

/// Some glyphs of each other style: of ASCII, and of the Unicode block Box Drawing.
pub fn glyphs_by_hand()
    ensures ascii { (glyphs_of Ascii).top_left ≡ Some 0x2b × (glyphs_of Ascii).left ≡ Some 0x7c × (glyphs_of Ascii).horizontal ≡ Some 0x2d }
    ensures modern { (glyphs_of Modern).top_left ≡ Some 0x250c × (glyphs_of Modern).left ≡ Some 0x2502 × (glyphs_of Modern).horizontal ≡ Some 0x2500 }
    ensures extended { (glyphs_of Extended).top_left ≡ Some 0x2554 × (glyphs_of Extended).left ≡ Some 0x2551 × (glyphs_of Extended).horizontal ≡ Some 0x2550 }
    ensures rounded { (glyphs_of Rounded).top_left ≡ Some 0x256d × (glyphs_of Rounded).left ≡ Some 0x2502 × (glyphs_of Rounded).horizontal ≡ Some 0x2500 }
    ensures corners { (glyphs_of Rounded).top_right ≡ Some 0x256e × (glyphs_of Rounded).bottom_right ≡ Some 0x256f × (glyphs_of Rounded).bottom_left ≡ Some 0x2570 }
    ensures empty { (glyphs_of Empty).top_left ≡ None × (glyphs_of Empty).left ≡ None × (glyphs_of Empty).vertical ≡ None × (glyphs_of Empty).horizontal ≡ None }
{}

/// Settings in their order, of which the last decides: numbers at the right, then what is requested of columns, and their
/// colours last.
pub fn settings_by_hand()
    ensures aligned { settings_of Rounded [] (true ∷ false ∷ []) ((ByNumber 0, AtLeft) ∷ []) []
        ≡ Borders (glyphs_of Rounded) ∷ AlignHorizontal (Column 0) AtRight ∷ AlignHorizontal (Column 0) AtLeft ∷ [] }
    ensures colored { (color : _) → settings_of Empty [] (false ∷ true ∷ []) ((ByNumber 2, AtLeft) ∷ []) ((ByNumber 0, color) ∷ [])
        ≡ Borders (glyphs_of Empty) ∷ AlignHorizontal (Column 1) AtRight ∷ AlignHorizontal (Column 2) AtLeft ∷ Color (Column 0) color ∷ [] }
{}

/// A table that takes just the requested columns is no wider, and one that takes a column more is; without a request none is.
pub fn wider_tables_by_hand()
    ensures just { (s : State) → drawn_width s ≡ 80 → is_wider (Some 80) s ≡ false }
    ensures one_more { (s : State) → drawn_width s ≡ 81 → is_wider (Some 80) s ≡ true }
    ensures none { (s : State) → is_wider None s ≡ false }
{}

/// The parts of a document: the first row is the header, the others are records, and no line between rows is of either.
pub fn parts_by_hand()
    ensures header { is_of OfHeader (Row 0) ≡ true }
    ensures record_of_header { is_of OfHeader (Row 1) ≡ false }
    ensures first_record { is_of OfRecords (Row 1) ≡ true }
    ensures header_of_records { is_of OfRecords (Row 0) ≡ false }
    ensures between { is_of OfRecords (Boundary 1) ≡ false }
{}

/// Columns of numbers are found below the header, as many as the longest row has.
pub fn numeric_columns_by_hand()
    ensures header { numeric_of true ((codes "n" ∷ codes "m" ∷ []) ∷ (codes "1" ∷ codes "x" ∷ []) ∷ []) ≡ true ∷ false ∷ [] }
    ensures no_header { numeric_of false ((codes "n" ∷ []) ∷ (codes "1" ∷ []) ∷ []) ≡ false ∷ [] }
    ensures longer { numeric_of true ((codes "n" ∷ []) ∷ (codes "1" ∷ codes "2" ∷ []) ∷ []) ≡ true ∷ true ∷ [] }
{}

/// What columns need is found in the header and the records below it; without a header in all rows.
pub fn needs_are_of_header_and_records()
    ensures header { (row : List (List ℕ)) (rows : List (List (List ℕ))) → needs_in true (row ∷ rows) ≡ needs_of row rows (numeric_of true (row ∷ rows)) }
    ensures no_header { (rows : List (List (List ℕ))) → needs_in false rows ≡ needs_of [] rows (numeric_of false rows) }
{}
