//! Tables in a requested width whose columns have colours: what they print, and what that shows.
//!
//! Laws of tables whose columns have colours, each the contract of a function that does nothing.
ghost use Rattle.std.specs.Prelude.{◌≡◌, ◌∷◌, [], ℕ, All, List, None, Option, Some, codes, false, map};
ghost use Rattle.ansi_scan.specs.Attributes.{plain_attributes};
ghost use Rattle.ansi_scan.specs.Sequences.{Piece, ArePiecesOf, NoneBroken};
ghost use Rattle.ansi_str.specs.StyledText.{strip};
ghost use Rattle.columns_asked.specs.declared.asked.WidthLimit.{WidthLimit};
ghost use Rattle.columns_asked.specs.DrawnTables.{asked_picture, asked_text};
ghost use Rattle.columns_asked.specs.Worked.{ascii_settings, cuts, no_width, one_row, wraps};
ghost use Rattle.columns_asked.specs.Colors.ColoredTables.{colored_items, colored_text};
ghost use Rattle.columns_asked.specs.Colors.ColumnColors.{cell_color, column_color};
ghost use Rattle.columns_asked.specs.Colors.Worked.{bold, green, only, red};
ghost use Rattle.grid_config.specs.Colors.{Color};
ghost use Rattle.grid_config.specs.Compact.{Compact};
ghost use Rattle.grid_config.specs.Looks.{compact_look};
ghost use Rattle.grid_config_values.specs.declared.position.Position.{Position as CellPosition};
ghost use Rattle.grid_records_measure.specs.TextLines.{line_feed};
ghost use Rattle.papergrid_picture.specs.Colors.ClosingColors.{AreClosing, ShowNothing};
ghost use Rattle.papergrid_picture.specs.Shown.{AreWholeTexts, IsBare, Shows, Styled, character_of, stripped_texts, styled_texts};
ghost use Rattle.tabled_size_priority.specs.declared.choice.Choice.TheVariants.{None as InTurns};

/// The text of a table whose cells have colours that close shows its picture in these colours. No style is open
/// where a line ends, nor at the end. Colours change no character. The law is of whole texts, where the glyphs and
/// fills of the style begin no sequence, and the style has no colour of its own.
pub fn colored_table_shown()
    ensures shown { (style : Compact) (asked : WidthLimit) (colors : CellPosition → Option Color) (texts : List (List (List ℕ))) → IsBare (compact_look style) → AreWholeTexts texts →
        AreClosing colors → Shows (colored_text style asked colors texts) (colored_items style asked colors (styled_texts texts) texts) }
    ensures line_feeds { (style : Compact) (asked : WidthLimit) (colors : CellPosition → Option Color) (texts : List (List (List ℕ))) → AreWholeTexts texts →
        All (λ x. x.0 ≡ line_feed → x.1 ≡ plain_attributes) (colored_items style asked colors (styled_texts texts) texts) }
    ensures characters { (style : Compact) (asked : WidthLimit) (colors : CellPosition → Option Color) (texts : List (List (List ℕ))) → AreWholeTexts texts →
        map character_of (colored_items style asked colors (styled_texts texts) texts) ≡ map character_of (asked_picture style asked (styled_texts texts)) }
{}

/// Without colours it is the table as it was, by its text and by its picture.
pub fn tables_without_colors()
    ensures text { (style : Compact) (asked : WidthLimit) (texts : List (List (List ℕ))) → colored_text style asked (λ _. None) texts ≡ asked_text style asked texts }
    ensures picture { (style : Compact) (asked : WidthLimit) (rows : List (List (List Styled))) (texts : List (List (List ℕ))) →
        colored_items style asked (λ _. None) rows texts ≡ asked_picture style asked rows }
    ensures none_given { (cell : CellPosition) → cell_color [] cell ≡ None }
{}

/// Without its sequences the text of a table whose cells have colours is that of the table of the stripped texts
/// without colours. No ESC of it is broken. The law is of whole texts. The glyphs and fills of the style begin no
/// sequence, it has no colour of its own, and the colours of cells are sequences alone.
pub fn colored_table_stripped()
    ensures text { (style : Compact) (asked : WidthLimit) (colors : CellPosition → Option Color) (texts : List (List (List ℕ))) (ps : List Piece) →
        IsBare (compact_look style) → AreWholeTexts texts → ShowNothing colors →
        ArePiecesOf (colored_text style asked colors texts) ps → strip ps ≡ asked_text style asked (stripped_texts texts) }
    ensures whole { (style : Compact) (asked : WidthLimit) (colors : CellPosition → Option Color) (texts : List (List (List ℕ))) (ps : List Piece) →
        IsBare (compact_look style) → AreWholeTexts texts → ShowNothing colors →
        ArePiecesOf (colored_text style asked colors texts) ps → NoneBroken ps }
{}

/// Tables worked out by hand, by their bytes. The second of two columns is red; a text resets its style, and one
/// leaves it open. Each line of a wrapped text opens and ends the colour by itself, and so does one that is cut. A
/// cell without text prints nothing of its colour, nor does a colour of a column after the last one of the table. Of
/// several colours of a column the last decides.
pub fn worked_colors()
    ensures one_column { colored_text ascii_settings no_width (cell_color (only 1 red)) (one_row (codes "a" ∷ codes "b" ∷ []))
        ≡ codes "+---+---+\n| a | \u{1b}[31mb\u{1b}[39m |\n+---+---+\n" }
    ensures cleared { colored_text ascii_settings no_width (cell_color (only 0 red)) (one_row (codes "\u{1b}[1mab\u{1b}[0mc" ∷ []))
        ≡ codes "+-----+\n| \u{1b}[31m\u{1b}[1mab\u{1b}[0mc\u{1b}[39m |\n+-----+\n" }
    ensures both { colored_text ascii_settings no_width (cell_color (only 0 red)) (one_row (codes "\u{1b}[1mab" ∷ []))
        ≡ codes "+----+\n| \u{1b}[31m\u{1b}[1mab\u{1b}[22m\u{1b}[39m |\n+----+\n" }
    ensures wrapped { colored_text ascii_settings (wraps 6 false InTurns) (cell_color (only 0 red)) (one_row (codes "1234" ∷ []))
        ≡ codes "+----+\n| \u{1b}[31m12\u{1b}[39m |\n| \u{1b}[31m34\u{1b}[39m |\n+----+\n" }
    ensures cut { colored_text ascii_settings (cuts 6) (cell_color (only 0 red)) (one_row (codes "1234" ∷ []))
        ≡ codes "+----+\n| \u{1b}[31m12\u{1b}[39m |\n+----+\n" }
    ensures empty { colored_text ascii_settings no_width (cell_color (only 0 red)) (one_row ([] ∷ codes "a" ∷ []))
        ≡ codes "+--+---+\n|  | a |\n+--+---+\n" }
    ensures outside { colored_text ascii_settings no_width (cell_color (only 5 red)) (one_row (codes "a" ∷ []))
        ≡ codes "+---+\n| a |\n+---+\n" }
    ensures last { column_color ((0, red) ∷ (1, bold) ∷ (0, green) ∷ []) 0 ≡ Some green }
{}
