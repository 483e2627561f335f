//! No line of a table is wider than requested, where its columns are those that fit. Laws alone.
//!
//! Laws of the width of a table, each the contract of a function that does nothing. A table of Markdown takes no width,
//! and with all columns a table may be wider: `run` reports whether it is. Records one below the other are no table.
ghost use Rattle.std.specs.Io.KnownBytes.{Appends};
ghost use Rattle.std.specs.Prelude.{◌≡◌, ◌≤◌, ◌+◌, ◌*◌, ◌++◌, ℕ, Bool, IfOk, List, [], ◌∷◌, Option, None, Result, Some, codes, false};
ghost use Rattle.grid_config_values.specs.declared.fault.Fault.{Fault as TableFault};
ghost use Rattle.grid_config_values.specs.declared.fault.Fault.TheVariants.{Range};
ghost use Rattle.grid_records_measure.specs.TextLines.{text_width};
ghost use Rattle.papergrid_picture.specs.Shown.{AreWholeTexts, IsWholeText};
ghost use Rattle.tabled_output.specs.declared.building.BuildFault.TheVariants.{Table as OfTable};
ghost use Rattle.tabled_text.specs.Rows.{longest};
ghost use Rattle.tables_laws.specs.Grids.TextsOf.{AreAdditiveTexts};
ghost use Rattle.basinmug_columns.specs.Rows.{rows_line};
ghost use Rattle.basinmug_columns.specs.Shown.{line_width, mark_cost};
ghost use Rattle.basinmug_columns.specs.declared.rows.RowsShown.{RowsShown as Which};
ghost use Rattle.program_options.specs.declared.basinmug.LineStyle.TheVariants.{Markdown, Modern};
ghost use Rattle.basinmug_run.specs.declared.fault.RunFault.{RunFault as Fault};
ghost use Rattle.basinmug_run.specs.declared.fault.RunFault.TheVariants.{Print};
ghost use Rattle.basinmug_run.specs.declared.options.ColumnsShown.TheVariants.{All as AllColumns, Fitting};
ghost use Rattle.basinmug_run.specs.declared.options.Options.{Options as Asked};
ghost use Rattle.basinmug_run.specs.declared.picture.fault.PrintFault.TheVariants.{Table};
ghost use Rattle.basinmug_run.specs.declared.picture.printing.Printed.{Printed as Answered};
ghost use Rattle.basinmug_run.specs.Columns.{is_lined};
ghost use Rattle.basinmug_run.specs.Kept.{Kept as Rows};
ghost use Rattle.basinmug_run.specs.Picture.Fitting.{fitted_text};
ghost use Rattle.basinmug_run.specs.Picture.Lines.{columns_line};
ghost use Rattle.basinmug_run.specs.Picture.Pictures.{narrowed_to};
ghost use Rattle.basinmug_run.specs.Picture.Printed.{PrintsShown};
ghost use Rattle.basinmug_run.specs.Runs.{IsKeptFault, IsRunFault, PrintsKept};
ghost use Rattle.basinmug_laws.specs.Shown.ClosingOptions.{HaveClosingColors};
ghost use Rattle.basinmug_laws.specs.Shown.EndedLines.{ended_lines};
ghost use Rattle.basinmug_laws.specs.Shown.RunsShown.{IsRunOf};
ghost use Rattle.basinmug_laws.specs.Widths.Requested.{AreLinesWithin, IsRequested};

/// A whole text that is cut or wrapped to a width measures at most that width, whatever its characters are.
pub fn fitted_texts_keep_to_their_columns()
    ensures { (truncate : Bool) (columns : ℕ) (text : List ℕ) → IsWholeText text → text_width (fitted_text truncate columns text) ≤ columns }
{}

/// No table of whole texts is wider than requested, where its columns are those that fit, and the width is at least 5:
/// `run` never reports that it is. So it is with all columns of the rows, where the width has one column of text for each
/// of them, with its paddings and its line.
pub fn no_table_is_wider_than_requested()
    ensures kept { (options : Asked) (kept : Rows) (width : ℕ) (wider : Bool) (old new : Option (List ℕ)) → IsRequested options width → AreWholeTexts kept.rows →
        PrintsKept options kept wider old new → wider ≡ false }
    ensures runs { (delimiter : ℕ) (bytes : List ℕ) (options : Asked) (width : ℕ) (result : Result Answered Fault) (before after : Option (List ℕ)) → IsRequested options width →
        IsRunOf delimiter bytes options result before after → IfOk result (λ printed. printed.wider ≡ false) }
    ensures all_columns { (options : Asked) (shown : Which) (rows : List (List (List ℕ))) (width : ℕ) (counts : Option (ℕ × ℕ)) (wider : Bool) (old new : Option (List ℕ)) →
        narrowed_to options ≡ Some width → AreWholeTexts rows →
        line_width (is_lined options.line_style) + longest rows * mark_cost (is_lined options.line_style) ≤ width →
        PrintsShown options shown rows counts wider old new → wider ≡ false }
{}

/// So no line of the table of additive records is wider than requested: each measures as one text at most the columns
/// of the width. Below the table are the lines that say how many columns and rows are left out.
pub fn no_line_is_wider_than_requested()
    ensures { (options : Asked) (kept : Rows) (width : ℕ) (wider : Bool) (old new : Option (List ℕ)) → IsRequested options width →
        HaveClosingColors options → AreAdditiveTexts kept.rows → options.expanded ≡ false → PrintsKept options kept wider old new →
        (counts : Option (ℕ × ℕ)) × (lines : List (List ℕ)) × AreLinesWithin width lines
        × Appends old new (ended_lines lines ++ (columns_line options.line_style counts ++ rows_line (codes "row") kept.shown)) }
{}

/// The table of records is refused only where its totals are out of range. No cell of it spans others, and each column has
/// room for its texts, so `Spans` and `Room` never come, whatever the bytes and the options are.
pub fn tables_of_records_fit()
    ensures kept { (options : Asked) (kept : Rows) (fault : TableFault) → IsKeptFault options kept (Table (OfTable fault)) → fault ≡ Range }
    ensures runs { (delimiter : ℕ) (bytes : List ℕ) (options : Asked) (fault : TableFault) → IsRunFault delimiter bytes options (Print (Table (OfTable fault))) → fault ≡ Range }
{}

/// Which options request a width: not those of no width or of another, of fewer than 5 columns, of all columns of the
/// rows, or of a document.
pub fn requested_widths_by_hand()
    ensures requested { (options : Asked) → options.width ≡ Some 5 → options.columns_shown ≡ Fitting → options.line_style ≡ Modern → IsRequested options 5 }
    ensures none { (options : Asked) (width : ℕ) → options.width ≡ None → ¬ (IsRequested options width) }
    ensures another { (options : Asked) → options.width ≡ Some 5 → ¬ (IsRequested options 6) }
    ensures too_narrow { (options : Asked) → ¬ (IsRequested options 4) }
    ensures all_columns { (options : Asked) (width : ℕ) → options.columns_shown ≡ AllColumns → ¬ (IsRequested options width) }
    ensures document { (options : Asked) (width : ℕ) → options.line_style ≡ Markdown → ¬ (IsRequested options width) }
{}

/// Which lines keep to so many columns: not one that measures more, one in which a style is open at its end, or two
/// lines as one.
pub fn lines_within_by_hand()
    ensures within { AreLinesWithin 3 (codes "ab" ∷ codes "\u{1b}[31mabc\u{1b}[0m" ∷ []) }
    ensures too_wide { ¬ (AreLinesWithin 2 (codes "ab" ∷ codes "abc" ∷ [])) }
    ensures left_open { ¬ (AreLinesWithin 9 (codes "\u{1b}[31mabc" ∷ [])) }
    ensures two_lines { ¬ (AreLinesWithin 9 (codes "a\nb" ∷ [])) }
{}
