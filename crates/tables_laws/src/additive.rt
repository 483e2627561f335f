//! Tables of additive characters: each line measures the columns of the table. Laws alone.
//!
//! Laws of tables of additive characters, each the contract of a function that does nothing.
ghost use Rattle.std.specs.Prelude.{◌≡◌, ◌<◌, ℕ, All, List, Ok, length};
ghost use Rattle.ansi_str.specs.Characters.{shown_chars};
ghost use Rattle.grid_config.specs.Looks.{Look};
ghost use Rattle.grid_config_values.specs.Spans.Spans.{ArePositive, extent_at};
ghost use Rattle.grid_config_values.specs.declared.spans.extent.Extent.{Extent as CellExtent};
ghost use Rattle.grid_config_values.specs.declared.position.Position.{Position as CellPosition};
ghost use Rattle.tables_laws.specs.Characters.AdditiveCharacters.{is_additive, is_spacing};
ghost use Rattle.grid_records_measure.specs.Measures.{measure};
ghost use Rattle.grid_records_measure.specs.TextLines.{text_lines};
ghost use Rattle.tables_laws.specs.Grids.CountedLooks.{TakesOnes};
ghost use Rattle.tables_laws.specs.Grids.TextsOf.{AreAdditiveTexts, AreTextsOf};
ghost use Rattle.papergrid_picture.specs.Colors.ClosingColors.{AreClosing, ShowNothing};
ghost use Rattle.papergrid_picture.specs.Shown.{AreWholeTexts};
ghost use Rattle.tabled.specs.Tables.{new_look, new_state};
ghost use Rattle.tabled_steps.specs.States.{State, column_count};
ghost use Rattle.tabled_list.specs.Stripping.Printing.{IsFitsAnswer, printed};
ghost use Rattle.tabled_list.specs.Stripping.Totals.{drawn_height, drawn_width};
ghost use Rattle.tabled_text.specs.Rows.{filled};
ghost use Rattle.tables_laws.specs.Shown.ClosingLooks.{IsClosingLook};
ghost use Rattle.tables_laws.specs.Shown.CountedTables.{CountsOnes, IsCounted, TextsAddUp};
ghost use Rattle.tables_laws.specs.Shown.PlainEnds.{EndsLinesPlain};
ghost use Rattle.tables_laws.specs.Additive.MeasuredTables.{IsMeasured, measured_columns};

/// Each line of a table of additive characters, in colours or without, measures as one text its total width.
pub fn lines_of_additive_tables_are_even()
    ensures columns { (spans : List (CellPosition × CellExtent)) (s : State) (y : ℕ) → IsMeasured spans s → measured_columns s y ≡ drawn_width s }
    ensures all { (spans : List (CellPosition × CellExtent)) (s : State) → IsMeasured spans s → IsClosingLook s.look → AreWholeTexts s.rows → AreClosing s.colors → 0 < drawn_height s →
        All (λ line. measure (shown_chars line) ≡ drawn_width s) (text_lines (printed s)) }
    ensures new { TakesOnes is_additive new_look }
{}

/// The text of a new table of additive texts ends no line with a style open, whatever colours the texts have. Where
/// it has bytes and the table can be printed, each of its lines measures the columns of the table. The short rows are
/// filled with empty texts.
pub fn new_tables_of_additive_texts_are_even()
    ensures plain { (rows : List (List (List ℕ))) → AreAdditiveTexts rows → EndsLinesPlain (printed (new_state (filled rows))) }
    ensures even { (rows : List (List (List ℕ))) → AreAdditiveTexts rows → IsFitsAnswer (new_state (filled rows)) (Ok tt) → 0 < length (printed (new_state (filled rows))) →
        All (λ line. measure (shown_chars line) ≡ drawn_width (new_state (filled rows))) (text_lines (printed (new_state (filled rows)))) }
{}

/// Texts of additive characters that take a column or two cost what they measure, line by line, both as they are and
/// trimmed. So tables of them are counted.
pub fn spacing_tables_are_counted()
    ensures texts { (look : Look) (rows : List (List (List ℕ))) → AreTextsOf is_spacing rows → TextsAddUp look rows }
    ensures counted { (spans : List (CellPosition × CellExtent)) (s : State) → s.look.extent ≡ extent_at spans → ArePositive spans → CountsOnes s.look →
        ShowNothing s.colors → AreTextsOf is_spacing s.rows → 0 < length s.rows → 0 < column_count s.rows → IsFitsAnswer s (Ok tt) → IsCounted spans s }
{}
