//! No line of a table is wider than its column: a law alone.
//!
//! The law of lines in their columns, the contract of a function that does nothing.
ghost use Rattle.std.specs.Prelude.{◌≡◌, ◌≤◌, ℕ, Bool, IsUtf8, List, None};
ghost use Rattle.ansi_scan.specs.Sequences.{IsWhole};
ghost use Rattle.columns_asked.specs.declared.asked.WidthLimit.{WidthLimit};
ghost use Rattle.columns_asked.specs.DrawnTables.{too_wide};
ghost use Rattle.tabled_size_wrap.specs.Cells.Resizing.{Wrap, Cut, resized_text};
ghost use Rattle.columns_run.specs.DrawnTables.{wide_cell};
ghost use Rattle.columns_run.specs.Run.{MayEndBy};
ghost use Rattle.columns_run.specs.Wanted.{Wanted};
ghost use Rattle.program_options.specs.declared.columns.fault.RunFault.TheVariants.{LineTooWide};
ghost use Rattle.grid_config.specs.Compact.{Compact};
ghost use Rattle.grid_records_measure.specs.TextLines.{text_width};
ghost use Rattle.papergrid_picture.specs.Shown.{AreWholeTexts, IsWholeText};

/// A whole text that is wrapped or cut at a width measures at most that width, whatever its characters are, and
/// whether words are kept or not. So no line of a table in a requested width takes more columns than its column
/// has, and `LineTooWide` never comes, for any input and any options.
pub fn no_line_is_too_wide()
    ensures wrapped { (width : ℕ) (keep_words : Bool) (text : List ℕ) → IsWholeText text → text_width (resized_text (Wrap width keep_words) text) ≤ width }
    ensures cut { (width : ℕ) (text : List ℕ) → IsWholeText text → text_width (resized_text (Cut width) text) ≤ width }
    ensures tables { (style : Compact) (asked : WidthLimit) (texts : List (List (List ℕ))) → AreWholeTexts texts → too_wide style asked texts ≡ None }
    ensures runs { (wanted : Wanted) (input : List ℕ) → IsUtf8 input → IsWhole input → wide_cell wanted input ≡ None }
    ensures never { (wanted : Wanted) (input : List ℕ) (row column : ℕ) → ¬ (MayEndBy wanted input (LineTooWide row column)) }
{}
