//! Laws over the definitions, each the contract of a function that does nothing.
ghost use Rattle.std.specs.Prelude.{◌≡◌, ◌↔◌, ℕ, ◌<◌, ◌≤◌, ◌++◌, All, chars, encode_utf8, false, flat_map, true, codes, List, ◌∷◌, [], length, map};
ghost use Rattle.std.specs.Prelude.{max, replicate, slice_index_or, IsUtf8, None, Option, Result, Some, ⊤};
ghost use Rattle.std.specs.List.{range_with_len};
ghost use Rattle.std.specs.Str.{encode_utf8_all};
ghost use Rattle.ansi_scan.specs.Sequences.{Piece, ArePiecesOf, AreWholePiecesOf, IsWhole};
ghost use Rattle.ansi_scan.specs.Pieces.{pieces};
ghost use Rattle.ansi_str.specs.StyledText.{has_escape, strip, styled};
ghost use Rattle.ansi_str_search.specs.Text.Characters.{shown_chars};
ghost use Rattle.ansi_str.specs.Lines.{IsClosedLine};
ghost use Rattle.ansi_str.specs.Matches.{AreMatches};
ghost use Rattle.columns_asked.specs.DrawnTables.{asked_picture, asked_text};
ghost use Rattle.columns_asked.specs.Resizing.{resized_text};
ghost use Rattle.columns_asked.specs.Worked.{cuts, no_width, wraps};
ghost use Rattle.columns_asked.specs.Colors.ColumnColors.{cell_color};
ghost use Rattle.columns_asked.specs.Colors.Worked.{bold, green, only, red};
ghost use Rattle.program_options.specs.Columns.ColumnColors.{AllClose};
ghost use Rattle.program_options.specs.Columns.Settings.{default_settings};
ghost use Rattle.grid_config_values.specs.declared.position.Position.{Position as CellPosition};
ghost use Rattle.grid_records_measure.specs.Measures.{measure};
ghost use Rattle.grid_records_measure.specs.TextLines.{text_lines};
ghost use Rattle.grid_records_estimate.specs.Rows.{HasCell, text_at};
ghost use Rattle.papergrid_picture.specs.Blocks.{Fill, Glyph, TextLine, text_line};
ghost use Rattle.papergrid_picture.specs.Frame.{block_width, column_count, full_line_width, line_count, row_count, track_at};
ghost use Rattle.papergrid_picture.specs.Picture.{PlacedPart, at, block_parts, laid, picture_line};
ghost use Rattle.papergrid_picture.specs.Shown.{Styled, character_of, in_plain};
ghost use Rattle.papergrid_picture.specs.Tiling.{IsLineOf, ShowsAllLines, ShowsBlock, Tiles};
ghost use Rattle.columns_run.specs.Rows.{cell_parts, line_feed, places, rows_of, stripped};
ghost use Rattle.columns_run.specs.DrawnTables.{TableInRange, characters_of, colored_line, grid_of, line_bytes, output_of, picture, resized_texts};
ghost use Rattle.columns_run.specs.DrawnTables.{picture_without_colors, placed_bytes, placed_columns, resize_of, table_characters, wide_cell};
ghost use Rattle.columns_run.specs.Narrow.{HasNarrowGlyphs, IsRunnable};
ghost use Rattle.columns_run.specs.TableShown.{ShowsTableOf};
ghost use Rattle.columns_run.specs.Run.{HasTable, MayEndBy, Serves};
ghost use Rattle.columns_run.specs.Wanted.{IsDefault, Wanted, WantsStyleAlone, default_wanted, without_colors, style_alone};
ghost use Rattle.columns_run.specs.Widths.{narrowest_columns, natural_columns, taken_columns};
ghost use Rattle.columns_run.specs.Fault.{TellsOfInput};
ghost use Rattle.tabled_size_priority.specs.declared.choice.Choice.TheVariants.{None as InTurns, MaxLeft};
ghost use Rattle.program_options.specs.declared.columns.fault.RunFault.{RunFault};

/// Tables worked out by hand, in the style that `Options::new` has, without a width.
pub fn worked_tables()
    ensures empty { (wanted : Wanted) → IsDefault wanted → table_characters wanted [] ≡ [] }
    ensures two_by_two { (wanted : Wanted) → IsDefault wanted →
        table_characters wanted (codes "a\tb\n1\t2\n") ≡ codes "+---+---+\n| a | b |\n+---+---+\n| 1 | 2 |\n+---+---+\n" }
    ensures short_row { (wanted : Wanted) → IsDefault wanted →
        table_characters wanted (codes "a\tb\nc\n") ≡ codes "+---+---+\n| a | b |\n+---+---+\n| c |   |\n+---+---+\n" }
    ensures longer_row { (wanted : Wanted) → IsDefault wanted →
        table_characters wanted (codes "a\nbcd\te\tf\n")
        ≡ codes "+-----+---+---+\n| a   |   |   |\n+-----+---+---+\n| bcd | e | f |\n+-----+---+---+\n" }
    ensures empty_row { (wanted : Wanted) → IsDefault wanted → table_characters wanted (codes "\n") ≡ codes "+--+\n|  |\n+--+\n" }
    ensures two_empty_rows { (wanted : Wanted) → IsDefault wanted → table_characters wanted (codes "\n\n") ≡ codes "+--+\n|  |\n+--+\n|  |\n+--+\n" }
    ensures empty_last_row { (wanted : Wanted) → IsDefault wanted → table_characters wanted (codes "a\n\n") ≡ codes "+---+\n| a |\n+---+\n|   |\n+---+\n" }
    ensures empty_middle_row { (wanted : Wanted) → IsDefault wanted →
        table_characters wanted (codes "a\n\nb") ≡ codes "+---+\n| a |\n+---+\n|   |\n+---+\n| b |\n+---+\n" }
    ensures lone_tab { (wanted : Wanted) → IsDefault wanted → table_characters wanted (codes "\t") ≡ codes "+--+--+\n|  |  |\n+--+--+\n" }
    ensures tab_at_end { (wanted : Wanted) → IsDefault wanted → table_characters wanted (codes "a\t\n") ≡ codes "+---+--+\n| a |  |\n+---+--+\n" }
    ensures no_final_line_feed { (wanted : Wanted) → IsDefault wanted → table_characters wanted (codes "a\tb") ≡ codes "+---+---+\n| a | b |\n+---+---+\n" }
    ensures carriage_return { (wanted : Wanted) → IsDefault wanted → table_characters wanted (codes "a\r\n") ≡ codes "+----+\n| a\r |\n+----+\n" }
{}

/// Tables of styled texts, worked out by hand, without a width and without colours: their bytes.
pub fn worked_outputs()
    ensures two_cells { (wanted : Wanted) → IsDefault wanted → wanted.colors ≡ [] →
        output_of wanted (codes "\u{1b}[31mab\tc\n")
        ≡ codes "+----+---+\n| \u{1b}[31mab\u{1b}[39m | \u{1b}[31mc\u{1b}[39m |\n+----+---+\n" }
    ensures two_lines { (wanted : Wanted) → IsDefault wanted → wanted.colors ≡ [] →
        output_of wanted (codes "\u{1b}[1ma\nb\u{1b}[0m\n")
        ≡ codes "+---+\n| \u{1b}[1ma\u{1b}[22m |\n+---+\n| \u{1b}[1mb\u{1b}[0m |\n+---+\n" }
    ensures lone_sequence { (wanted : Wanted) → IsDefault wanted → wanted.colors ≡ [] → output_of wanted (codes "\u{1b}[31m") ≡ [] }
    ensures tab_in_a_string { (wanted : Wanted) → IsDefault wanted → wanted.colors ≡ [] →
        output_of wanted (codes "\u{1b}]0;a\tb\u{7}x\n") ≡ codes "+---+\n| \u{1b}]0;a\tb\u{7}x |\n+---+\n" }
    ensures same_color_twice { (wanted : Wanted) → IsDefault wanted → wanted.colors ≡ [] →
        output_of wanted (codes "\u{1b}[31ma\u{1b}[31mb\n") ≡ codes "+----+\n| \u{1b}[31ma\u{1b}[31mb\u{1b}[39m |\n+----+\n" }
{}

/// Tables in a width, worked out by hand: their bytes. A coloured text is wrapped, each line in its own colour, and a
/// style that ended in a line before stays ended; it is cut; words are kept. At width 0 only the paddings stay. Columns
/// shrink in turns, or the widest first. A width that the table does not pass changes nothing. No column has a colour.
pub fn worked_widths()
    ensures wrapped { output_of (default_wanted (wraps 6 false InTurns) []) (codes "\u{1b}[31m123456\u{1b}[0m\n")
        ≡ codes "+----+\n| \u{1b}[31m12\u{1b}[39m |\n| \u{1b}[31m34\u{1b}[39m |\n| \u{1b}[31m56\u{1b}[0m |\n+----+\n" }
    ensures wrapped_behind { output_of (default_wanted (wraps 6 false InTurns) []) (codes "\u{1b}[31m12\u{1b}[0m34\n")
        ≡ codes "+----+\n| \u{1b}[31m12\u{1b}[0m |\n| 34 |\n+----+\n" }
    ensures cut { output_of (default_wanted (cuts 6) []) (codes "\u{1b}[31m123456\u{1b}[0m\n") ≡ codes "+----+\n| \u{1b}[31m12\u{1b}[39m |\n+----+\n" }
    ensures words { output_of (default_wanted (wraps 8 true InTurns) []) (codes "111 234 1\n") ≡ codes "+------+\n| 111  |\n| 234  |\n| 1    |\n+------+\n" }
    ensures nothing { output_of (default_wanted (wraps 0 false InTurns) []) (codes "ab\tc\n") ≡ codes "+--+--+\n|  |  |\n+--+--+\n" }
    ensures in_turns { output_of (default_wanted (wraps 11 false InTurns) []) (codes "aaaa\tbb\n") ≡ codes "+-----+---+\n| aaa | b |\n| a   | b |\n+-----+---+\n" }
    ensures widest { output_of (default_wanted (wraps 11 false MaxLeft) []) (codes "aaaa\tbb\n") ≡ codes "+----+----+\n| aa | bb |\n| aa |    |\n+----+----+\n" }
    ensures natural { output_of (default_wanted (wraps 6 false InTurns) []) (codes "ab\n") ≡ codes "+----+\n| ab |\n+----+\n" }
    ensures wide { output_of (default_wanted (wraps 100 false InTurns) []) (codes "ab\n") ≡ codes "+----+\n| ab |\n+----+\n" }
{}

/// Tables with colours of columns, worked out by hand: their bytes. The second of two columns is red. A cell resets
/// its style, and one leaves it open. Each line of a wrapped cell and of one that is cut opens and ends the colour by
/// itself. A cell without text prints nothing of it, nor does a colour of a column that the table does not have. The
/// last colour of a column decides.
pub fn worked_colors()
    ensures one_column { output_of (default_wanted no_width (only 1 red)) (codes "a\tb\n") ≡ codes "+---+---+\n| a | \u{1b}[31mb\u{1b}[39m |\n+---+---+\n" }
    ensures cleared { output_of (default_wanted no_width (only 0 red)) (codes "\u{1b}[1mab\u{1b}[0mc\n") ≡ codes "+-----+\n| \u{1b}[31m\u{1b}[1mab\u{1b}[0mc\u{1b}[39m |\n+-----+\n" }
    ensures both { output_of (default_wanted no_width (only 0 red)) (codes "\u{1b}[1mab\n") ≡ codes "+----+\n| \u{1b}[31m\u{1b}[1mab\u{1b}[22m\u{1b}[39m |\n+----+\n" }
    ensures wrapped { output_of (default_wanted (wraps 6 false InTurns) (only 0 red)) (codes "1234\n")
        ≡ codes "+----+\n| \u{1b}[31m12\u{1b}[39m |\n| \u{1b}[31m34\u{1b}[39m |\n+----+\n" }
    ensures cut { output_of (default_wanted (cuts 6) (only 0 red)) (codes "1234\n") ≡ codes "+----+\n| \u{1b}[31m12\u{1b}[39m |\n+----+\n" }
    ensures empty { output_of (default_wanted no_width (only 0 red)) (codes "\ta\n") ≡ codes "+--+---+\n|  | a |\n+--+---+\n" }
    ensures outside { output_of (default_wanted no_width (only 5 red)) (codes "a\n") ≡ codes "+---+\n| a |\n+---+\n" }
    ensures last { output_of (default_wanted no_width ((0, red) ∷ (1, bold) ∷ (0, green) ∷ [])) (codes "a\n") ≡ codes "+---+\n| \u{1b}[32ma\u{1b}[39m |\n+---+\n" }
{}

/// The table of a whole text shows the picture of the text: the characters that it shows, in their styles and in the
/// colours of their columns. No style is open where a line of it ends. The style of the table is narrow, and each
/// colour closes.
pub fn table_shown()
    ensures { (wanted : Wanted) (input : List ℕ) → IsRunnable wanted → IsUtf8 input → IsWhole input → ShowsTableOf wanted input (output_of wanted input) }
{}

/// The places of an ASCII character in a text are those at which it matches.
pub fn places_match()
    ensures { (c : ℕ) (text : List ℕ) → c < 128 → AreMatches (c ∷ []) text (places c text) }
{}

/// Without colours the style and the width determine the table: its bytes, and its picture. Colours refuse no input,
/// and accept none: a run with them may end with the same errors of the same inputs, at the same places.
pub fn tables_without_colors()
    ensures same { (wanted : Wanted) → wanted.colors ≡ [] → without_colors wanted ≡ wanted }
    ensures output { (wanted : Wanted) (input : List ℕ) → output_of (without_colors wanted) input ≡ asked_text wanted.style wanted.limit (cell_parts input) }
    ensures picture { (wanted : Wanted) (input : List ℕ) → picture (without_colors wanted) input ≡ picture_without_colors wanted (styled (pieces input)) }
    ensures drawn { (wanted : Wanted) (characters : List Styled) → picture_without_colors wanted characters ≡ asked_picture wanted.style wanted.limit (rows_of character_of characters) }
    ensures accepted { (wanted : Wanted) (input : List ℕ) → (HasTable (without_colors wanted) input ↔ HasTable wanted input) }
    ensures refuses { (wanted : Wanted) (input : List ℕ) (fault : RunFault) → (MayEndBy (without_colors wanted) input fault ↔ MayEndBy wanted input fault) }
{}

/// Neither styles nor colours change a character of the picture, which is that of the characters alone. A text
/// without its sequences has a table where the text has one. Its output without colours is, byte for byte, the text's
/// output without its sequences, also where columns have colours. It is in range where the text is, and the same cell
/// of it is too wide. The laws of bytes (`without_escape`, `output`, `lines`, `both`) are of a narrow style, and of
/// colours that close.
pub fn without_styles()
    ensures picture { (wanted : Wanted) (characters : List Styled) →
        characters_of (picture_without_colors wanted characters) ≡ characters_of (picture_without_colors wanted (map in_plain (characters_of characters))) }
    ensures characters { (wanted : Wanted) (characters : List Styled) →
        characters_of (picture_without_colors wanted characters) ≡ table_characters wanted (characters_of characters) }
    ensures colors { (wanted : Wanted) (input : List ℕ) → IsUtf8 input → IsWhole input →
        characters_of (picture wanted input) ≡ table_characters wanted (chars (stripped input)) }
    ensures without_escape { (wanted : Wanted) (text : List ℕ) → HasNarrowGlyphs wanted.style → IsUtf8 text → has_escape text ≡ false →
        output_of (without_colors wanted) text ≡ encode_utf8_all (table_characters wanted (chars text)) }
    ensures accepted { (wanted : Wanted) (input : List ℕ) (ps : List Piece) →
        ArePiecesOf input ps → HasTable wanted input → HasTable wanted (strip ps) }
    ensures in_range { (wanted : Wanted) (input : List ℕ) (ps : List Piece) → ArePiecesOf input ps → (TableInRange wanted (strip ps) ↔ TableInRange wanted input) }
    ensures too_wide { (wanted : Wanted) (input : List ℕ) (ps : List Piece) → ArePiecesOf input ps → wide_cell wanted (strip ps) ≡ wide_cell wanted input }
    ensures output { (wanted : Wanted) (input : List ℕ) (ps qs : List Piece) → IsRunnable wanted →
        IsUtf8 input → AreWholePiecesOf input ps → ArePiecesOf (output_of wanted input) qs → strip qs ≡ output_of (without_colors wanted) (strip ps) }
    ensures lines { (wanted : Wanted) (input : List ℕ) (y : ℕ) → IsRunnable wanted → IsUtf8 input → IsWhole input →
        strip (pieces (line_bytes wanted input y)) ≡ strip (pieces (line_bytes (without_colors wanted) input y)) }
    ensures both { (wanted : Wanted) (input : List ℕ) (ps qs rs : List Piece) → IsRunnable wanted →
        IsUtf8 input → AreWholePiecesOf input ps → ArePiecesOf (output_of wanted input) qs → ArePiecesOf (output_of wanted (strip ps)) rs → strip qs ≡ strip rs }
{}

/// The output is drawn by the parts of a grid: it is the lines of the grid, each of them the bytes of its parts and
/// then a line feed. Where the input has a table, the parts of each line are side by side from column 0 to the table's
/// width, with no gap and no overlap. The style is narrow.
pub fn tiling()
    ensures output { (wanted : Wanted) (input : List ℕ) → HasNarrowGlyphs wanted.style →
        output_of wanted input ≡ flat_map (λ y. line_bytes wanted input y ++ line_feed ∷ []) (range_with_len 0 (line_count (grid_of wanted input).frame)) }
    ensures lines { (wanted : Wanted) (input : List ℕ) (y : ℕ) → HasTable wanted input →
        Tiles 0 (picture_line (grid_of wanted input) y) (full_line_width (grid_of wanted input).frame) }
{}

/// Each line of the table leaves no style open and shows no line feed. So the lines that the output shows, separated
/// at the line feeds that it shows, are those of the table, with nothing after the last. The input is a whole text.
pub fn shown_lines_are_those_of_the_table()
    ensures closed { (wanted : Wanted) (input : List ℕ) (y : ℕ) → IsRunnable wanted → IsUtf8 input → IsWhole input → IsClosedLine (line_bytes wanted input y) }
    ensures lines { (wanted : Wanted) (input : List ℕ) → IsRunnable wanted → IsUtf8 input → IsWhole input →
        text_lines (output_of wanted input) ≡ map (line_bytes wanted input) (range_with_len 0 (line_count (grid_of wanted input).frame)) ++ [] ∷ [] }
{}

/// What the parts are. In each line of a cell's rectangle, those between its first column and its last are one line
/// of the cell's block: paddings, what is left free, and between them a line of the cell's text. That line has just the
/// bytes that it has in the text, between the texts of the colour of its column where it has bytes. All other parts are
/// characters, each in as many columns as it takes. The cell's text is its part of the input, wrapped or cut where its
/// column shrank.
pub fn cell_lines_keep_their_bytes()
    ensures blocks { (wanted : Wanted) (input : List ℕ) (i j y : ℕ) → HasTable wanted input →
        i < row_count (grid_of wanted input).frame → j < column_count (grid_of wanted input).frame →
        IsLineOf (grid_of wanted input) (at i j) y → ShowsBlock (grid_of wanted input) (at i j) y }
    ensures texts { (wanted : Wanted) (input : List ℕ) (placed : PlacedPart) (cell : CellPosition) (k : ℕ) → placed.part.content ≡ TextLine cell k →
        placed_bytes wanted input placed ≡ colored_line (cell_color wanted.colors cell) (slice_index_or (text_lines (text_at (resized_texts wanted input) cell)) k []) }
    ensures fills { (wanted : Wanted) (input : List ℕ) (placed : PlacedPart) (c : ℕ) → placed.part.content ≡ Fill c →
        placed_bytes wanted input placed ≡ flat_map encode_utf8 (replicate placed.part.width c) }
    ensures glyphs { (wanted : Wanted) (input : List ℕ) (placed : PlacedPart) (c : ℕ) → placed.part.content ≡ Glyph c →
        placed_bytes wanted input placed ≡ flat_map encode_utf8 (replicate placed.part.width c) }
    ensures kept { (wanted : Wanted) (input : List ℕ) (cell : CellPosition) → HasCell (cell_parts input) cell →
        text_at (resized_texts wanted input) cell ≡ resized_text (resize_of wanted input cell.col) (text_at (cell_parts input) cell) }
{}

/// Each part takes just the columns that it is drawn on: a line of a cell measures so many, and the characters
/// of a glyph or a fill take them one by one. In the style of `Options::new` these measure so many as one
/// text too. The style is narrow, each colour closes, and the input is a whole text.
pub fn measured_parts()
    ensures each { (wanted : Wanted) (input : List ℕ) (y : ℕ) → IsRunnable wanted → IsUtf8 input → IsWhole input →
        All (λ placed. placed_columns wanted input placed ≡ placed.part.width) (picture_line (grid_of wanted input) y) }
    ensures default_style { (wanted : Wanted) (input : List ℕ) (y : ℕ) → wanted.style ≡ default_settings → AllClose wanted.colors → IsUtf8 input → IsWhole input →
        All (λ placed. measure (shown_chars (placed_bytes wanted input placed)) ≡ placed.part.width) (picture_line (grid_of wanted input) y) }
{}

/// A table whose text needs more columns than are requested takes the requested number, boundaries and margins
/// included. Where its boundaries, margins and paddings alone take more, it takes that. Any other table takes as many
/// as its text needs.
pub fn tables_take_the_width_that_is_asked()
    ensures narrowed { (wanted : Wanted) (input : List ℕ) (width : ℕ) → wanted.limit.width ≡ Some width →
        width < natural_columns wanted input → taken_columns wanted input ≡ max width (narrowest_columns wanted input) }
    ensures natural { (wanted : Wanted) (input : List ℕ) (width : ℕ) → wanted.limit.width ≡ Some width →
        natural_columns wanted input ≤ width → taken_columns wanted input ≡ natural_columns wanted input }
    ensures no_width { (wanted : Wanted) (input : List ℕ) → wanted.limit.width ≡ None → taken_columns wanted input ≡ natural_columns wanted input }
{}

/// Each row is high enough for all lines of its cells, and each such line is one line of its cell's rectangle, between
/// the paddings at its sides.
pub fn each_line_of_a_cell_is_seen()
    ensures all_lines { (wanted : Wanted) (input : List ℕ) → ShowsAllLines (grid_of wanted input) }
    ensures shown { (wanted : Wanted) (input : List ℕ) (i j k : ℕ) → let grid = grid_of wanted input in
        i < row_count grid.frame → j < column_count grid.frame → k < length (grid.measures (at i j)) →
        (y : ℕ) × IsLineOf grid (at i j) y
        × (block_parts grid (at i j) y ≡ laid (track_at grid.frame.columns j) (text_line grid (at i j) (block_width grid.frame (at i j)) k)) }
{}

/// An input that has no table is refused with one name and place alone, memory and the reader aside. One that has
/// a table is never refused with such a name.
pub fn one_refusal()
    ensures one { (wanted : Wanted) (input : List ℕ) (fault other : RunFault) → TellsOfInput fault → TellsOfInput other →
        MayEndBy wanted input fault → MayEndBy wanted input other → fault ≡ other }
    ensures no_table { (wanted : Wanted) (input : List ℕ) (fault : RunFault) → TellsOfInput fault → MayEndBy wanted input fault → ¬ (HasTable wanted input) }
{}

/// Without a width no line takes more columns than its column has.
pub fn no_cell_is_too_wide()
    ensures { (wanted : Wanted) (input : List ℕ) → wanted.limit.width ≡ None → wide_cell wanted input ≡ None }
{}

/// The style of `Options::new` is narrow, so that `run` accepts it.
pub fn default_style_is_narrow()
    ensures { HasNarrowGlyphs default_settings }
{}

/// A streamed table is the table: for each input, `run_streamed` promises with a style what `run` promises with
/// options of that style without a width and without colours, whatever else they have. They refuse the same inputs
/// with the same names, memory aside, and write the same bytes.
pub fn streamed_tables_are_tables()
    ensures bytes { (wanted : Wanted) (input : List ℕ) → WantsStyleAlone wanted → output_of (style_alone wanted.style) input ≡ output_of wanted input }
    ensures accepted { (wanted : Wanted) (input : List ℕ) → WantsStyleAlone wanted → (HasTable (style_alone wanted.style) input ↔ HasTable wanted input) }
    ensures refuses { (wanted : Wanted) (input : List ℕ) (fault : RunFault) → WantsStyleAlone wanted →
        (MayEndBy (style_alone wanted.style) input fault ↔ MayEndBy wanted input fault) }
    ensures serves { (wanted : Wanted) (input : List ℕ) (result : Result ⊤ RunFault) (old new : Option (List ℕ)) → WantsStyleAlone wanted →
        (Serves (style_alone wanted.style) input result old new ↔ Serves wanted input result old new) }
{}
