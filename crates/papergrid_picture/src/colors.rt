//! Laws of what a table shows where some of its cells have colours.
ghost use Rattle.std.specs.Prelude.{◌≡◌, ◌∷◌, ◌++◌, [], ℕ, All, List, None, Option, Some, codes, encode_utf8, flat_map, map};
ghost use Rattle.ansi_scan.specs.Attributes.{Attributes, plain_attributes};
ghost use Rattle.ansi_scan.specs.Pieces.{pieces};
ghost use Rattle.ansi_scan.specs.Sequences.{Piece, ArePiecesOf, NoneBroken};
ghost use Rattle.ansi_str.specs.StyledText.{strip, style_after_all};
ghost use Rattle.grid_config_values.specs.declared.position.Position.{Position as CellPosition};
ghost use Rattle.grid_config.specs.Closing.{Clears};
ghost use Rattle.grid_config.specs.Colors.{Color};
ghost use Rattle.grid_config.specs.Looks.{Look};
ghost use Rattle.grid_records_measure.specs.TextLines.{line_feed};
ghost use Rattle.papergrid_picture.specs.Blocks.{Grid};
ghost use Rattle.papergrid_picture.specs.Picture.{at, picture_line};
ghost use Rattle.papergrid_picture.specs.Reading.{Reading, grid_items, part_items};
ghost use Rattle.papergrid_picture.specs.Shown.{AreWholeTexts, IsBare, KeepsLineEnds, Shows, Styled, character_of, stripped_texts, styled_picture, styled_texts};
ghost use Rattle.papergrid_picture.specs.Tables.{in_bytes, in_color, table_grid, table_line, table_text};
ghost use Rattle.papergrid_picture.specs.Worked.{bare_look, joined_lines};
ghost use Rattle.papergrid_picture.specs.Colors.ClosingColors.{AreClosing, ShowNothing, ShowsNothing};
ghost use Rattle.papergrid_picture.specs.Colors.ColoredLines.{with_painted_lines, without_text_colors};
ghost use Rattle.papergrid_picture.specs.Colors.ColoredPicture.{colored_picture, line_in};
ghost use Rattle.papergrid_picture.specs.Colors.Worked.{bold_in, green, in_foreground, red, second_column_red, styled_in, two_cells, two_lines};

/// Sequences that clear a style clear it too after a line whose own sequences clear what they set. So a closed line
/// between the prefix and the suffix of a colour that closes is closed.
pub fn closed_lines_stay_closed()
    ensures { (style : Attributes) (line suffix : List Piece) →
        style_after_all plain_attributes line ≡ plain_attributes → Clears style suffix →
        style_after_all (style_after_all style line) suffix ≡ plain_attributes }
{}

/// The colour of a cell colours each of its lines by itself, and nothing else, in whatever items the picture
/// is read.
pub fn colors_stand_in_lines<X>()
    ensures { (reading : Reading X) (grid : Grid) →
        grid_items reading grid ≡ grid_items (with_painted_lines reading grid.text_color) (without_text_colors grid) }
{}

/// The text of a table whose cells have colours that close shows its picture in these colours, and no style is open
/// at its end. Without colours that is the picture of styled characters. This holds provided that the texts are
/// whole, no line is trimmed at its ends, and the look is bare.
pub fn colored_reading()
    ensures shown { (look : Look) (rows : List (List (List ℕ))) (colors : CellPosition → Option Color) (widths heights : List ℕ) →
        IsBare look → AreWholeTexts rows → KeepsLineEnds look → AreClosing colors →
        Shows (table_text look rows colors widths heights) (colored_picture look (styled_texts rows) rows colors widths heights) }
    ensures without_colors { (look : Look) (cells : List (List (List Styled))) (texts : List (List (List ℕ))) (widths heights : List ℕ) →
        colored_picture look cells texts (λ _. None) widths heights ≡ styled_picture look cells widths heights }
{}

/// Colours change no character of the picture. Each line feed in it has the plain style, so that no style is open
/// where a line ends. This holds provided that the texts are whole, and no line is trimmed at its ends.
pub fn colored_characters()
    ensures characters { (look : Look) (rows : List (List (List ℕ))) (colors : CellPosition → Option Color) (widths heights : List ℕ) →
        AreWholeTexts rows → KeepsLineEnds look →
        map character_of (colored_picture look (styled_texts rows) rows colors widths heights)
        ≡ map character_of (styled_picture look (styled_texts rows) widths heights) }
    ensures line_feeds { (look : Look) (rows : List (List (List ℕ))) (colors : CellPosition → Option Color) (widths heights : List ℕ) →
        AreWholeTexts rows → KeepsLineEnds look →
        All (λ x. x.0 ≡ line_feed → x.1 ≡ plain_attributes) (colored_picture look (styled_texts rows) rows colors widths heights) }
{}

/// Without its sequences, the text of a table whose cells have colours is the text of the table of the stripped cells
/// without colours, trimmed or not. No ESC of it is broken. Each of its lines shows what that line shows without
/// colours, and a line in a colour shows what the line does. This holds provided that the texts are whole, the look
/// is bare, and the texts of the colours are sequences alone. The colours need not close.
pub fn colors_are_stripped()
    ensures text { (look : Look) (rows : List (List (List ℕ))) (colors : CellPosition → Option Color) (widths heights : List ℕ) (ps : List Piece) →
        IsBare look → AreWholeTexts rows → ShowNothing colors → ArePiecesOf (table_text look rows colors widths heights) ps →
        strip ps ≡ table_text look (stripped_texts rows) (λ _. None) widths heights }
    ensures whole { (look : Look) (rows : List (List (List ℕ))) (colors : CellPosition → Option Color) (widths heights : List ℕ) (ps : List Piece) →
        IsBare look → AreWholeTexts rows → ShowNothing colors → ArePiecesOf (table_text look rows colors widths heights) ps →
        NoneBroken ps }
    ensures lines { (look : Look) (rows : List (List (List ℕ))) (colors : CellPosition → Option Color) (widths heights : List ℕ) (y : ℕ) →
        IsBare look → AreWholeTexts rows → ShowNothing colors →
        strip (pieces (table_line look rows colors widths heights y)) ≡ strip (pieces (table_line look rows (λ _. None) widths heights y)) }
    ensures line { (color : Color) (bytes : List ℕ) → ShowsNothing color → NoneBroken (pieces bytes) → strip (pieces (in_color color bytes)) ≡ strip (pieces bytes) }
    ensures closing { (colors : CellPosition → Option Color) → AreClosing colors → ShowNothing colors }
{}

/// A line of the text of such a table is its parts. They are the parts of the line without colours, except that a
/// line of a cell that has bytes is in the cell's colour.
pub fn colored_lines_by_parts()
    ensures { (look : Look) (rows : List (List (List ℕ))) (colors : CellPosition → Option Color) (widths heights : List ℕ) (y : ℕ) → IsBare look →
        table_line look rows colors widths heights y
        ≡ flat_map (λ placed. part_items (with_painted_lines (in_bytes look rows) colors) placed.part)
        (picture_line (table_grid look rows (λ _. None) widths heights) y) }
{}

/// Lines in a colour, worked out by hand. A line without sequences takes the colour. U+FFFD is plain after a sequence
/// of the line that clears the colour, and takes the colour after one that clears something else. What comes after a
/// reset is plain.
pub fn worked_lines()
    ensures takes { line_in (Some red) (codes "ab") [] ≡ styled_in (in_foreground 31) (codes "ab") }
    ensures cleared { line_in (Some green) (codes "\u{1b}[31mx\u{1b}[39m" ++ encode_utf8 0xfffd) []
        ≡ (0x78, in_foreground 31) ∷ (0xfffd, plain_attributes) ∷ [] }
    ensures kept { line_in (Some red) (codes "\u{1b}[1mx\u{1b}[22m" ++ encode_utf8 0xfffd) [] ≡ (0x78, bold_in 31) ∷ (0xfffd, in_foreground 31) ∷ [] }
    ensures reset { line_in (Some red) (codes "\u{1b}[1mab\u{1b}[0mc") []
        ≡ styled_in (bold_in 31) (codes "ab") ++ styled_in plain_attributes (codes "c") }
{}

/// Tables with a colour, worked out by hand. In the first, the second of two cells is red. In the other, a red cell
/// has two lines in a row of three: each line opens and ends the colour by itself, and the free one prints nothing of
/// it.
pub fn worked_colored_tables()
    ensures text { table_text bare_look two_cells second_column_red (1 ∷ 1 ∷ []) (1 ∷ [])
        ≡ joined_lines (codes "+-+-+" ∷ codes "|a|\u{1b}[31mb\u{1b}[39m|" ∷ codes "+-+-+" ∷ []) }
    ensures shown { colored_picture bare_look (styled_texts two_cells) two_cells second_column_red (1 ∷ 1 ∷ []) (1 ∷ [])
        ≡ styled_in plain_attributes (codes "+-+-+\n|a|") ++ styled_in (in_foreground 31) (codes "b") ++ styled_in plain_attributes (codes "|\n+-+-+") }
    ensures lines { table_text bare_look two_lines (λ _. Some red) (1 ∷ []) (3 ∷ [])
        ≡ joined_lines (codes "+-+" ∷ codes "|\u{1b}[31ma\u{1b}[39m|" ∷ codes "|\u{1b}[31m\u{1b}[1mb\u{1b}[22m\u{1b}[39m|" ∷ codes "| |" ∷ codes "+-+" ∷ []) }
    ensures lines_shown { colored_picture bare_look (styled_texts two_lines) two_lines (λ _. Some red) (1 ∷ []) (3 ∷ [])
        ≡ styled_in plain_attributes (codes "+-+\n|") ++ styled_in (in_foreground 31) (codes "a") ++ styled_in plain_attributes (codes "|\n|")
        ++ styled_in (bold_in 31) (codes "b") ++ styled_in plain_attributes (codes "|\n| |\n+-+") }
    ensures by_lines { grid_items (with_painted_lines (in_bytes bare_look two_lines) (λ _. Some red)) (without_text_colors (table_grid bare_look two_lines (λ _. Some red) (1 ∷ []) (3 ∷ [])))
        ≡ joined_lines (codes "+-+" ∷ codes "|\u{1b}[31ma\u{1b}[39m|" ∷ codes "|\u{1b}[31m\u{1b}[1mb\u{1b}[22m\u{1b}[39m|" ∷ codes "| |" ∷ codes "+-+" ∷ []) }
    ensures blank { (with_painted_lines (in_bytes bare_look two_lines) (λ _. Some red)).line (at 0 0) 2 ≡ [] }
{}
