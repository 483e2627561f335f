//! The table of additive records: every line of it measures as many columns as the others. Laws alone.
//!
//! Laws of the table of additive records, each the contract of a function that does nothing.
ghost use Rattle.std.specs.Io.KnownBytes.{Appends};
ghost use Rattle.std.specs.Prelude.{◌≡◌, ◌++◌, ℕ, All, Bool, List, Ok, Option, codes, false, map, [], ◌∷◌};
ghost use Rattle.ansi_str.specs.Characters.{shown_chars};
ghost use Rattle.tables_laws.specs.Characters.AdditiveCharacters.{is_spacing};
ghost use Rattle.grid_records_measure.specs.Measures.{line_cost, measure};
ghost use Rattle.papergrid.specs.LineKind.{LineKind as Kind};
ghost use Rattle.tables_laws.specs.Grids.TextsOf.{AreAdditiveTexts, AreTextsOf};
ghost use Rattle.papergrid_picture.specs.Shown.{ArePlainlyShown};
ghost use Rattle.tabled.specs.Printing.{IsFitsAnswer};
ghost use Rattle.tabled.specs.Totals.{drawn_line, drawn_width};
ghost use Rattle.tabled_steps.specs.States.{State};
ghost use Rattle.tables_laws.specs.Shown.ShownTables.{chosen_numbers};
ghost use Rattle.basinmug_run.specs.declared.options.Options.{Options as Asked};
ghost use Rattle.basinmug_columns.specs.Rows.{rows_line};
ghost use Rattle.basinmug_columns.specs.declared.rows.RowsShown.{RowsShown as Which};
ghost use Rattle.basinmug_run.specs.Kept.{rows_shown};
ghost use Rattle.basinmug_run.specs.Picture.Lines.{columns_line};
ghost use Rattle.basinmug_run.specs.Picture.Pictures.{IsTable};
ghost use Rattle.basinmug_run.specs.Picture.Printed.{Prints, PrintsShown};
ghost use Rattle.basinmug_run.specs.Picture.Rows.{is_markdown};
ghost use Rattle.basinmug_laws.specs.Shown.ClosingOptions.{HaveClosingColors};
ghost use Rattle.basinmug_laws.specs.Shown.EndedLines.{AreEvenLines, ended_lines};
ghost use Rattle.basinmug_laws.specs.Additive.MeasuredLines.{AreMeasuredLines};

/// Where the rows show additive characters and line feeds alone, each line of their table that can be printed
/// measures as one text the columns of its total width: also where texts are cut or wrapped, and where columns have
/// colours that close. So what is printed in a box is lines that measure as many columns, and the lines that
/// say how many columns and rows are left out.
pub fn lines_of_additive_records_are_even()
    ensures table { (options : Asked) (shown : Which) (rows : List (List (List ℕ))) (s : State) (chooses : Kind → Bool) → HaveClosingColors options → AreAdditiveTexts rows →
        IsTable options shown rows s → IsFitsAnswer s (Ok tt) →
        All (λ line. measure (shown_chars line) ≡ drawn_width s) (map (drawn_line s) (chosen_numbers s chooses)) }
    ensures shown { (options : Asked) (shown : Which) (rows : List (List (List ℕ))) (counts : Option (ℕ × ℕ)) (wider : Bool) (old new : Option (List ℕ)) → HaveClosingColors options → AreAdditiveTexts rows →
        is_markdown options.line_style ≡ false → PrintsShown options shown rows counts wider old new →
        (columns : ℕ) × (lines : List (List ℕ)) × AreMeasuredLines columns lines × Appends old new (ended_lines lines ++ (columns_line options.line_style counts ++ rows_line (codes "row") shown)) }
    ensures print { (options : Asked) (rows : List (List (List ℕ))) (wider : Bool) (old new : Option (List ℕ)) → HaveClosingColors options → AreAdditiveTexts rows →
        is_markdown options.line_style ≡ false → Prints options rows wider old new →
        (columns : ℕ) × (lines : List (List ℕ)) × AreMeasuredLines columns lines × Appends old new (ended_lines lines ++ rows_line (codes "row") (rows_shown options rows)) }
{}

/// Where each character takes a column or two, the lines cost as many; and rows of plain characters are such.
pub fn spacing_records_cost_what_they_take()
    ensures costs { (options : Asked) (shown : Which) (rows : List (List (List ℕ))) (s : State) (chooses : Kind → Bool) → HaveClosingColors options → AreTextsOf is_spacing rows →
        IsTable options shown rows s → IsFitsAnswer s (Ok tt) →
        All (λ line. line_cost (shown_chars line) ≡ drawn_width s) (map (drawn_line s) (chosen_numbers s chooses)) }
    ensures plain { (rows : List (List (List ℕ))) → ArePlainlyShown rows → AreTextsOf is_spacing rows }
{}

/// Where the rows show plain characters and line feeds alone, each line of their table that can be printed takes the
/// columns of its total width: also where texts are cut or wrapped, and where columns have colours that close. So
/// what is printed in a box is lines that take as many columns, and the lines that say how many columns and rows are left out.
pub fn lines_of_plain_records_are_even()
    ensures table { (options : Asked) (shown : Which) (rows : List (List (List ℕ))) (s : State) (chooses : Kind → Bool) → HaveClosingColors options → ArePlainlyShown rows →
        IsTable options shown rows s → IsFitsAnswer s (Ok tt) →
        All (λ line. line_cost (shown_chars line) ≡ drawn_width s) (map (drawn_line s) (chosen_numbers s chooses)) }
    ensures shown { (options : Asked) (shown : Which) (rows : List (List (List ℕ))) (counts : Option (ℕ × ℕ)) (wider : Bool) (old new : Option (List ℕ)) → HaveClosingColors options → ArePlainlyShown rows →
        is_markdown options.line_style ≡ false → PrintsShown options shown rows counts wider old new →
        (columns : ℕ) × (lines : List (List ℕ)) × AreEvenLines columns lines × Appends old new (ended_lines lines ++ (columns_line options.line_style counts ++ rows_line (codes "row") shown)) }
    ensures print { (options : Asked) (rows : List (List (List ℕ))) (wider : Bool) (old new : Option (List ℕ)) → HaveClosingColors options → ArePlainlyShown rows →
        is_markdown options.line_style ≡ false → Prints options rows wider old new →
        (columns : ℕ) × (lines : List (List ℕ)) × AreEvenLines columns lines × Appends old new (ended_lines lines ++ rows_line (codes "row") (rows_shown options rows)) }
{}

/// Lines that do not take as many columns as each other are not even, and no more are lines that leave a style open.
pub fn even_lines_by_hand()
    ensures uneven { ¬ (AreEvenLines 2 (codes "ab" ∷ codes "abc" ∷ [])) }
    ensures left_open { ¬ (AreEvenLines 3 (codes "\u{1b}[31mabc" ∷ [])) }
    ensures unevenly_measured { ¬ (AreMeasuredLines 2 (codes "ab" ∷ codes "a" ∷ [])) }
    ensures measured_and_open { ¬ (AreMeasuredLines 3 (codes "\u{1b}[31mabc" ∷ [])) }
{}
