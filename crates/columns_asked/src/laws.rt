//! Laws of tables in a requested width, each the contract of a function that does nothing.
ghost use Rattle.std.specs.Prelude.{◌≡◌, ◌↔◌, ◌∷◌, ℕ, All, List, None, [], chars, codes, encode_utf8_all, false, map, true};
ghost use Rattle.ansi_scan.specs.Attributes.{plain_attributes};
ghost use Rattle.ansi_scan.specs.Sequences.{Piece, ArePiecesOf};
ghost use Rattle.ansi_str.specs.StyledText.{strip};
ghost use Rattle.grid_config.specs.Compact.{Compact};
ghost use Rattle.grid_config.specs.Looks.{compact_look};
ghost use Rattle.grid_records_measure.specs.TextLines.{line_feed};
ghost use Rattle.papergrid_picture.specs.Shown.{AreTextsWithoutEscape, AreWholeTexts, IsBare, Shows, Styled, character_of, cell_characters, in_plain, stripped_texts, styled_texts};
ghost use Rattle.papergrid_picture.specs.Tables.{table_text};
ghost use Rattle.tabled_size_priority.specs.Choices.{IsShrunkByChoice};
ghost use Rattle.tabled_size_priority.specs.declared.choice.Choice.{Choice};
ghost use Rattle.tabled_size_priority.specs.declared.choice.Choice.TheVariants.{None as InTurns, MaxLeft};
ghost use Rattle.columns_asked.specs.WidthLimits.{WidthLimit};
ghost use Rattle.columns_asked.specs.DrawnTables.{AskedInRange, asked_characters, asked_frame, asked_picture, asked_text, asked_widths, ended, heights_of, resized_cells, resized_rows, too_wide};
ghost use Rattle.columns_asked.specs.Shrunk.{shrunk_list};
ghost use Rattle.columns_asked.specs.Worked.{ascii_settings, cuts, no_width, one_row, wraps};

use crate::asked::WidthLimit as Limit;

/// Tables worked out by hand, by their bytes. A coloured text is wrapped, each line in its own colour, and a style
/// that ended in a line before stays ended; it is cut; words are kept. At width 0 only the paddings stay. Columns
/// shrink in turns, or the widest first. A width that the table does not pass changes nothing.
pub fn worked_texts()
    ensures wrapped { asked_text ascii_settings (wraps 6 false InTurns) (one_row (codes "\u{1b}[31m123456\u{1b}[0m" ∷ []))
        ≡ codes "+----+\n| \u{1b}[31m12\u{1b}[39m |\n| \u{1b}[31m34\u{1b}[39m |\n| \u{1b}[31m56\u{1b}[0m |\n+----+\n" }
    ensures wrapped_behind { asked_text ascii_settings (wraps 6 false InTurns) (one_row (codes "\u{1b}[31m12\u{1b}[0m34" ∷ []))
        ≡ codes "+----+\n| \u{1b}[31m12\u{1b}[0m |\n| 34 |\n+----+\n" }
    ensures cut { asked_text ascii_settings (cuts 6) (one_row (codes "\u{1b}[31m123456\u{1b}[0m" ∷ []))
        ≡ codes "+----+\n| \u{1b}[31m12\u{1b}[39m |\n+----+\n" }
    ensures words { asked_text ascii_settings (wraps 8 true InTurns) (one_row (codes "111 234 1" ∷ []))
        ≡ codes "+------+\n| 111  |\n| 234  |\n| 1    |\n+------+\n" }
    ensures nothing { asked_text ascii_settings (wraps 0 false InTurns) (one_row (codes "ab" ∷ codes "c" ∷ []))
        ≡ codes "+--+--+\n|  |  |\n+--+--+\n" }
    ensures in_turns { asked_text ascii_settings (wraps 11 false InTurns) (one_row (codes "aaaa" ∷ codes "bb" ∷ []))
        ≡ codes "+-----+---+\n| aaa | b |\n| a   | b |\n+-----+---+\n" }
    ensures widest { asked_text ascii_settings (wraps 11 false MaxLeft) (one_row (codes "aaaa" ∷ codes "bb" ∷ []))
        ≡ codes "+----+----+\n| aa | bb |\n| aa |    |\n+----+----+\n" }
    ensures natural { asked_text ascii_settings (wraps 6 false InTurns) (one_row (codes "ab" ∷ [])) ≡ codes "+----+\n| ab |\n+----+\n" }
    ensures wide { asked_text ascii_settings (wraps 100 false InTurns) (one_row (codes "ab" ∷ [])) ≡ codes "+----+\n| ab |\n+----+\n" }
    ensures no_width { asked_text ascii_settings no_width (one_row (codes "ab" ∷ [])) ≡ codes "+----+\n| ab |\n+----+\n" }
{}

/// The texts that a table keeps once its cells are resized show the cells of the picture. What is printed is the
/// table of these texts in the widths that are kept. The first law is of whole texts.
pub fn stored_table()
    ensures cells { (style : Compact) (asked : WidthLimit) (texts : List (List (List ℕ))) → AreWholeTexts texts →
        styled_texts (resized_rows style asked texts) ≡ resized_cells character_of in_plain style asked (styled_texts texts) }
    ensures whole { (style : Compact) (asked : WidthLimit) (texts : List (List (List ℕ))) → AreWholeTexts texts → AreWholeTexts (resized_rows style asked texts) }
    ensures printed { (style : Compact) (asked : WidthLimit) (texts : List (List (List ℕ))) →
        asked_text style asked texts ≡ ended line_feed (asked_frame style asked texts)
        (table_text (compact_look style) (resized_rows style asked texts) (λ _. None) (asked_widths style asked texts) (heights_of style (resized_rows style asked texts))) }
{}

/// The text of a table in a requested width shows its picture: the characters that its cells show, in their styles,
/// resized and drawn, with glyphs, fills and line feeds in the plain style. So no style is open where a line ends,
/// nor at the end. The law is of whole texts, where the glyphs and fills of the style begin no sequence and no colour
/// is set.
pub fn table_shown()
    ensures shown { (style : Compact) (asked : WidthLimit) (texts : List (List (List ℕ))) → IsBare (compact_look style) → AreWholeTexts texts →
        Shows (asked_text style asked texts) (asked_picture style asked (styled_texts texts)) }
    ensures line_feeds { (style : Compact) (asked : WidthLimit) (rows : List (List (List Styled))) →
        All (λ x. x.0 ≡ line_feed → x.1 ≡ plain_attributes) (asked_picture style asked rows) }
{}

/// Styles change only the styles of a table. The characters of its picture are those of the picture of the
/// characters alone. The laws of texts need glyphs and fills that begin no sequence, and no colour. For texts without
/// ESC the table's text is these characters. For whole texts the table's text without its sequences is that of the
/// table of the stripped texts. These have a table where the others have one, with the same cell too wide.
pub fn without_styles()
    ensures picture { (style : Compact) (asked : WidthLimit) (rows : List (List (List Styled))) →
        map character_of (asked_picture style asked rows) ≡ map character_of (asked_picture style asked (map (map (map in_plain)) (cell_characters rows))) }
    ensures characters { (style : Compact) (asked : WidthLimit) (rows : List (List (List Styled))) →
        map character_of (asked_picture style asked rows) ≡ asked_characters style asked (cell_characters rows) }
    ensures without_escape { (style : Compact) (asked : WidthLimit) (texts : List (List (List ℕ))) → IsBare (compact_look style) → AreTextsWithoutEscape texts →
        asked_text style asked texts ≡ encode_utf8_all (asked_characters style asked (map (map chars) texts)) }
    ensures text { (style : Compact) (asked : WidthLimit) (texts : List (List (List ℕ))) (ps : List Piece) → IsBare (compact_look style) → AreWholeTexts texts →
        ArePiecesOf (asked_text style asked texts) ps → strip ps ≡ asked_text style asked (stripped_texts texts) }
    ensures in_range { (style : Compact) (asked : WidthLimit) (texts : List (List (List ℕ))) → AreWholeTexts texts →
        (AskedInRange style asked (stripped_texts texts) ↔ AskedInRange style asked texts) }
    ensures too_wide { (style : Compact) (asked : WidthLimit) (texts : List (List (List ℕ))) → AreWholeTexts texts →
        too_wide style asked (stripped_texts texts) ≡ too_wide style asked texts }
{}

/// The function `shrunk_list` gives the list that widths shrink to by a priority, and no other list is one.
pub fn the_shrunk_list()
    ensures meets { (priority : Choice) (least : List ℕ) (by : ℕ) (widths : List ℕ) → IsShrunkByChoice priority least by widths (shrunk_list priority least by widths) }
    ensures one { (priority : Choice) (least : List ℕ) (by : ℕ) (widths sizes : List ℕ) →
        IsShrunkByChoice priority least by widths sizes → sizes ≡ shrunk_list priority least by widths }
{}

/// `==` of width limits is equality of all parts; a clone is the same, and never fails.
pub fn askings_are_compared_and_cloned_whole()
    ensures equality { (a b : WidthLimit) → (⟦<Limit as PartialEq>⟧.eq a b ≡ true) ↔ (a ≡ b) }
    ensures clone { (source clone : WidthLimit) → ⟦<Limit as Clone>⟧.is_clone source clone → clone ≡ source }
    ensures comes { (source : WidthLimit) → ⟦<Limit as Clone>⟧.is_infallible source }
{}
