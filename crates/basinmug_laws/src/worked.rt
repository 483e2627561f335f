//! Columns that fit, names that are missing, and records one below the other, worked out by hand. The functions do nothing.
ghost use Rattle.std.specs.Prelude.{◌≡◌, ◌∷◌, List, None, [], codes, false, string_bytes, true, ℕ};
ghost use Rattle.basinmug_columns.specs.Names.{column_number};
ghost use Rattle.basinmug_columns.specs.Shown.{numbered};
ghost use Rattle.basinmug_columns.specs.declared.rows.RowsShown.TheVariants.{All as AllShown};
ghost use Rattle.basinmug_columns.specs.declared.shown.ShownColumn.TheVariants.{LeftOut, Number as Shown};
ghost use Rattle.basinmug_run.specs.Columns.{chosen_columns, column_counts, fitting_width, missing_choices, shows_whole_rows, table_columns};
ghost use Rattle.basinmug_run.specs.Picture.Documents.{header_delimiters};
ghost use Rattle.basinmug_run.specs.Picture.Names.{missing_names};
ghost use Rattle.basinmug_run.specs.Runs.{IsOwn, kept_text, shown_text};
ghost use Rattle.basinmug_laws.specs.Worked.{fitted, header_at_right, letters, named, with_names, without_names};
ghost use Rattle.basinmug_run.specs.declared.options.ColumnsShown.TheVariants.{All as AllColumns};
ghost use Rattle.basinmug_run.specs.declared.options.Options.{Options as Asked};
ghost use Rattle.grid_config_values.specs.declared.alignment.AlignmentHorizontal.{AlignmentHorizontal};
ghost use Rattle.grid_config_values.specs.declared.alignment.AlignmentHorizontal.TheVariants.{Left as AtLeft, Right as AtRight};
ghost use Rattle.program_options.specs.declared.basinmug.ColumnChoice.TheVariants.{One};
ghost use Rattle.program_options.specs.declared.basinmug.ColumnName.TheVariants.{Header, Number as ByNumber};
ghost use Rattle.program_options.specs.declared.basinmug.LineStyle.TheVariants.{Markdown};

/// The columns of four letters in 17 columns, which are enough for all, and in 16. A column of numbers needs their width
/// where the first record is its header. In a document all columns are shown.
pub fn tables_by_hand()
    ensures all_fit { (options : Asked) → options.columns.items ≡ [] → table_columns (fitted 17 options) letters ≡ numbered 0 4 }
    ensures two_fit { (options : Asked) → options.columns.items ≡ [] → table_columns (fitted 16 options) letters ≡ Shown 0 ∷ LeftOut ∷ Shown 3 ∷ [] }
    ensures counted { (options : Asked) → options.columns.items ≡ [] → column_counts (fitted 16 options) letters ≡ (2, 4) }
    ensures whole { (options : Asked) → options.columns.items ≡ [] → shows_whole_rows (fitted 17 options) letters ≡ true }
    ensures not_whole { (options : Asked) → options.columns.items ≡ [] → shows_whole_rows (fitted 16 options) letters ≡ false }
    ensures chosen { (options : Asked) → options.columns.items ≡ One (ByNumber 1) ∷ [] → column_counts (record options { columns_shown = AllColumns }) letters ≡ (1, 1) }
    ensures number { (options : Asked) → options.columns.items ≡ [] →
        table_columns (record (fitted 19 options) { header = true }) ((codes "n" ∷ codes "x" ∷ []) ∷ (codes "123456789012" ∷ codes "a" ∷ []) ∷ []) ≡ Shown 0 ∷ LeftOut ∷ [] }
    ensures document { (options : Asked) → fitting_width (record (fitted 5 options) { line_style = Markdown }) ≡ None }
{}

/// The last of four columns, where two between are left out, is aligned at its own place.
pub fn alignments_by_hand()
    ensures { (options own : Asked) → options.columns.items ≡ [] → options.alignments.items ≡ (ByNumber 3, AtRight) ∷ [] →
        IsOwn (fitted 16 options) (record { rows = letters; shown = AllShown; columns = 4 }) own → own.alignments.items ≡ (ByNumber 2, AtRight) ∷ [] }
{}

/// Names that the header has, and others.
pub fn names_by_hand()
    ensures chosen { (name : _) → string_bytes name ≡ codes "b" → chosen_columns (column_number (codes "a" ∷ codes "b" ∷ [])) (One (Header name) ∷ []) ≡ Shown 1 ∷ [] }
    ensures not_missing { (name : _) → string_bytes name ≡ codes "b" → missing_choices (column_number (codes "a" ∷ codes "b" ∷ [])) 2 (One (Header name) ∷ []) ≡ [] }
    ensures missing { (name : _) → string_bytes name ≡ codes "x" → missing_choices (column_number (codes "a" ∷ codes "b" ∷ [])) 2 (One (Header name) ∷ []) ≡ codes "x" ∷ [] }
    ensures not_aligned { (name : _) → string_bytes name ≡ codes "x" → missing_names {X = AlignmentHorizontal} (codes "a" ∷ []) ((Header name, AtLeft) ∷ []) ≡ codes "x" ∷ [] }
{}

/// Records below a header, which is none of them, and without one; and the second of two columns.
pub fn records_by_hand()
    ensures named { (options : Asked) → shown_text (with_names options) AllShown named ≡ codes "-[ RECORD 0 ]-\nname | C\nx    | 1\n" }
    ensures numbered { (options : Asked) → shown_text (without_names options) AllShown ((codes "a" ∷ []) ∷ (codes "b" ∷ codes "c" ∷ []) ∷ []) ≡ codes "-[ RECORD 0 ]-\n0 | a\n1 | \n-[ RECORD 1 ]-\n0 | b\n1 | c\n" }
    ensures chosen { (options : Asked) → options.columns.items ≡ One (ByNumber 1) ∷ [] →
        kept_text (with_names options) (record { rows = named; shown = AllShown; columns = 2 }) ≡ codes "-[ RECORD 0 ]-\nx | 1\n" }
{}

/// The row below the header of a document, whose second text is at the right.
pub fn documents_by_hand()
    ensures { header_delimiters header_at_right ≡ codes "|:--|---:|\n" }
{}
