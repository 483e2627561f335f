//! What every table shows: the characters of its texts in their styles, and the columns of its lines. Laws alone.
//!
//! Laws of what every table shows, each the contract of a function that does nothing.
ghost use Rattle.std.specs.Prelude.{◌≡◌, ◌<◌, ◌∷◌, ◌++◌, ℕ, [], All, Bool, IsUtf8, List, Ok, Option, codes, flat_map, length, map, suc, true};
ghost use Rattle.std.specs.List.{range_with_len};
ghost use Rattle.ansi_scan.specs.Attributes.{plain_attributes};
ghost use Rattle.ansi_scan.specs.Pieces.{pieces};
ghost use Rattle.ansi_str.specs.Characters.{shown_chars};
ghost use Rattle.ansi_str.specs.Lines.{IsClosedLine};
ghost use Rattle.ansi_str.specs.StyledText.{strip};
ghost use Rattle.grid_config.specs.Colors.{Color};
ghost use Rattle.grid_config.specs.Looks.{Look, compact_look};
ghost use Rattle.grid_config.specs.Settings.{Settings};
ghost use Rattle.grid_config_values.specs.Spans.Spans.{ArePositive, extent_at};
ghost use Rattle.grid_config_values.specs.declared.spans.extent.Extent.{Extent as CellExtent};
ghost use Rattle.grid_config_values.specs.declared.position.Position.{Position as CellPosition};
ghost use Rattle.grid_records_measure.specs.Measures.{line_cost};
ghost use Rattle.grid_records_measure.specs.TextLines.{line_feed, text_lines};
ghost use Rattle.papergrid.specs.Compact.{without_high_padding};
ghost use Rattle.papergrid.specs.LineKind.{LineKind as Kind};
ghost use Rattle.papergrid_picture.specs.Colors.ClosingColors.{AreClosing};
ghost use Rattle.papergrid_picture.specs.Colors.ColoredPicture.{colored_picture};
ghost use Rattle.papergrid_picture.specs.Shown.{ArePlainlyShown, AreWholeTexts, CostsOne, IsBare, IsWholeText, KeepsLineEnds, Shows, ShowsOnly, styled_texts};
ghost use Rattle.papergrid_picture.specs.Tables.{table_line, table_text};
ghost use Rattle.tabled_size_wrap.specs.Bytes.{cut_at, wrapped_text};
ghost use Rattle.tabled_size_wrap.specs.Runs.{wrapped_lines};
ghost use Rattle.tabled.specs.Narrowed.{IsPlainlyPrinted, line_columns};
ghost use Rattle.tabled.specs.Tables.{new_look};
ghost use Rattle.tabled.specs.Writing.{chosen_lines, ended_text};
ghost use Rattle.tabled_compact.specs.Tables.{Compacted, printed as compact_text};
ghost use Rattle.tabled_compact.specs.Iter.Tables.{Streamed, printed as streamed_text};
ghost use Rattle.tabled_steps.specs.States.{State, column_count};
ghost use Rattle.tabled_list.specs.Stripping.Printing.{IsFitsAnswer, drawn_heights, drawn_widths, printed};
ghost use Rattle.tabled_list.specs.Stripping.Stripping.{stripped_state, uncolored_state};
ghost use Rattle.tabled_list.specs.Stripping.Totals.{drawn_height, drawn_line, drawn_width};
ghost use Rattle.tables_laws.specs.Shown.ClosingLooks.{IsClosingLook};
ghost use Rattle.tables_laws.specs.Shown.CountedTables.{CountsOnes, IsCounted, TextsAddUp};
ghost use Rattle.tables_laws.specs.Shown.OtherTables.{compacted_state, streamed_state};
ghost use Rattle.tables_laws.specs.Shown.PlainEnds.{EndsLinesPlain};
ghost use Rattle.tables_laws.specs.Shown.ShownTables.{chosen_numbers, chosen_picture, shown_line, shown_picture, sized};

/// The text of a table shows its picture: the characters of its texts, each in its style, trimmed where the look
/// trims. The lines of a coloured cell are in its colour, and glyphs and fills in theirs. No style is open where a line
/// of the text ends, and the last one ends the text. The texts are whole, no glyph or fill is a control character, and
/// each colour closes. For a bare look that trims no line at its ends, the picture is that of
/// `papergrid_picture::colors`.
pub fn tables_show_their_texts()
    ensures shown { (s : State) → IsClosingLook s.look → AreWholeTexts s.rows → AreClosing s.colors → Shows (printed s) (shown_picture s) }
    ensures plain { (s : State) → IsClosingLook s.look → AreWholeTexts s.rows → AreClosing s.colors → EndsLinesPlain (printed s) }
    ensures line_feeds { (s : State) → IsClosingLook s.look → AreWholeTexts s.rows → AreClosing s.colors →
        All (λ x. x.0 ≡ line_feed → x.1 ≡ plain_attributes) (shown_picture s) }
    ensures untrimmed { (s : State) → IsBare s.look → KeepsLineEnds s.look →
        shown_picture s ≡ colored_picture s.look (styled_texts s.rows) s.rows s.colors (drawn_widths s) (drawn_heights s) }
{}

/// Bytes that end their lines plain, and bytes that do not, worked out by hand. In the latter a style is open where
/// a line ends, or at the end, or an ESC is broken.
pub fn plain_ends_by_hand()
    ensures ended { EndsLinesPlain (codes "\u{1b}[31mx\u{1b}[0m\n") }
    ensures open_at_a_feed { ¬ (EndsLinesPlain (codes "\u{1b}[31mx\n\u{1b}[0m")) }
    ensures open_at_the_end { ¬ (EndsLinesPlain (codes "\u{1b}[31mx")) }
    ensures broken { ¬ (EndsLinesPlain (codes "\u{1b}")) }
{}

/// The lines of such a text, separated at the line feeds that it shows, are those of the table, from the first to the
/// last. Each shows its line of the picture, and leaves no style open.
pub fn lines_of_texts_are_those_of_tables()
    ensures lines { (s : State) → IsClosingLook s.look → AreWholeTexts s.rows → AreClosing s.colors → 0 < drawn_height s →
        text_lines (printed s) ≡ map (drawn_line s) (range_with_len 0 (drawn_height s)) }
    ensures shown { (s : State) (y : ℕ) → IsClosingLook s.look → AreWholeTexts s.rows → AreClosing s.colors → Shows (drawn_line s y) (shown_line s y) }
    ensures closed { (s : State) (y : ℕ) → IsClosingLook s.look → AreWholeTexts s.rows → AreClosing s.colors → IsClosedLine (drawn_line s y) }
{}

/// The same of lines that are chosen, each with a line feed after it. Where only cells are coloured, these lines
/// without their sequences are the chosen lines of the table of the stripped texts, without the colours of its cells.
pub fn chosen_lines_show_their_texts()
    ensures shown { (chooses : Kind → Bool) (s : State) → IsClosingLook s.look → AreWholeTexts s.rows → AreClosing s.colors →
        Shows (chosen_lines chooses s) (chosen_picture s chooses) }
    ensures plain { (chooses : Kind → Bool) (s : State) → IsClosingLook s.look → AreWholeTexts s.rows → AreClosing s.colors →
        EndsLinesPlain (chosen_lines chooses s) }
    ensures lines { (chooses : Kind → Bool) (s : State) → IsClosingLook s.look → AreWholeTexts s.rows → AreClosing s.colors →
        text_lines (chosen_lines chooses s) ≡ map (drawn_line s) (chosen_numbers s chooses) ++ [] ∷ [] }
    ensures stripped { (chooses : Kind → Bool) (s : State) → IsClosingLook s.look → IsBare s.look → AreWholeTexts s.rows → AreClosing s.colors →
        strip (pieces (chosen_lines chooses s)) ≡ chosen_lines chooses (uncolored_state (stripped_state s)) }
{}

/// The text of a table with a line feed after its last line, as `Table::write_lines` writes it, is all its lines.
pub fn ended_texts_are_all_lines()
    ensures { (s : State) → ended_text s ≡ chosen_lines (λ _. true) s }
{}

/// Each line of a table takes the columns of its total width, also where its cells and its glyphs have colours, if
/// these are sequences alone. The table can be printed, and each glyph and fill takes one column. Each line of a text
/// measures what its characters cost one by one, as those of plain characters do.
pub fn lines_of_tables_are_even()
    ensures columns { (spans : List (CellPosition × CellExtent)) (s : State) (y : ℕ) → IsCounted spans s → line_columns s y ≡ drawn_width s }
    ensures all { (spans : List (CellPosition × CellExtent)) (s : State) → IsCounted spans s → IsClosingLook s.look → AreWholeTexts s.rows → AreClosing s.colors → 0 < drawn_height s →
        All (λ line. line_cost (shown_chars line) ≡ drawn_width s) (text_lines (printed s)) }
    ensures texts { (s : State) → ArePlainlyShown s.rows → TextsAddUp s.look s.rows }
    ensures plain { (spans : List (CellPosition × CellExtent)) (s : State) → s.look.extent ≡ extent_at spans → ArePositive spans → IsClosingLook s.look → ShowsOnly CostsOne s.look →
        AreClosing s.colors → ArePlainlyShown s.rows → 0 < length s.rows → 0 < column_count s.rows → IsFitsAnswer s (Ok tt) → IsCounted spans s }
    ensures plainly { (settings : Settings) (s : State) → IsPlainlyPrinted settings s → IsCounted settings.spans s }
{}

/// A text in given sizes is that of the table which keeps these sizes, and so are its lines. So the laws of a table's
/// text here hold of it.
pub fn texts_in_sizes_are_those_of_tables()
    ensures text { (look : Look) (rows : List (List (List ℕ))) (colors : CellPosition → Option Color) (widths heights : List ℕ) →
        length widths ≡ column_count rows → length heights ≡ length rows → printed (sized look rows colors widths heights) ≡ table_text look rows colors widths heights }
    ensures line { (look : Look) (rows : List (List (List ℕ))) (colors : CellPosition → Option Color) (widths heights : List ℕ) →
        length widths ≡ column_count rows → length heights ≡ length rows → (y : ℕ) →
        drawn_line (sized look rows colors widths heights) y ≡ table_line look rows colors widths heights y }
{}

/// What a streamed table prints (`IterTable`) is the text of a table that keeps its sizes. So it shows its picture and
/// ends no line with a style open. Its rows are whole, and no glyph or fill is a control character.
pub fn streamed_tables_show_their_texts()
    ensures text { (table : Streamed) → streamed_text table ≡ printed (streamed_state table) }
    ensures shown { (table : Streamed) → IsClosingLook (compact_look table.settings) → AreWholeTexts table.rows → Shows (streamed_text table) (shown_picture (streamed_state table)) }
    ensures plain { (table : Streamed) → IsClosingLook (compact_look table.settings) → AreWholeTexts table.rows → EndsLinesPlain (streamed_text table) }
{}

/// The same of a compact table (`CompactTable`), each row of which takes one line.
pub fn compact_tables_show_their_texts()
    ensures text { (table : Compacted) → compact_text table ≡ printed (compacted_state table) }
    ensures shown { (table : Compacted) → IsClosingLook (compact_look (without_high_padding table.settings)) → AreWholeTexts table.rows → Shows (compact_text table) (shown_picture (compacted_state table)) }
    ensures plain { (table : Compacted) → IsClosingLook (compact_look (without_high_padding table.settings)) → AreWholeTexts table.rows → EndsLinesPlain (compact_text table) }
{}

/// A new table's look is bare. None of its glyphs and fills is a control character, and each takes one column.
pub fn new_looks_are_bare()
    ensures bare { IsBare new_look }
    ensures closing { IsClosingLook new_look }
    ensures ones { CountsOnes new_look }
{}

/// The lines of a whole text that is wrapped at a width of at least 1 are those into which its lines break, each by the
/// runs of its units. Those of a text of one line are the lines into which it breaks. A closed line that is cut is one
/// line.
pub fn wrapped_texts_have_the_lines_of_their_runs()
    ensures text { (n : ℕ) (keep_words : Bool) (text : List ℕ) → IsWholeText text →
        text_lines (wrapped_text (suc n) keep_words text) ≡ flat_map (λ line. wrapped_lines (suc n) keep_words (pieces line)) (text_lines text) }
    ensures line { (n : ℕ) (keep_words : Bool) (line : List ℕ) → IsWholeText line → text_lines line ≡ line ∷ [] →
        text_lines (wrapped_text (suc n) keep_words line) ≡ wrapped_lines (suc n) keep_words (pieces line) }
    ensures cut { (width : ℕ) (line : List ℕ) → IsUtf8 line → IsClosedLine line → text_lines (cut_at width line) ≡ cut_at width line ∷ [] }
{}
