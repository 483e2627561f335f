//! Tables of the library worked out by hand: what settings, widths and choices of lines make of them. Laws alone.
//!
//! Laws of tables that can be worked out by hand, each the contract of a function that does nothing.
ghost use Rattle.std.specs.Prelude.{◌≡◌, ◌∷◌, ℕ, Err, None, Ok, Some, [], codes, encode_utf8_all, false, true};
ghost use Rattle.ansi_scan.specs.Attributes.{plain_attributes};
ghost use Rattle.ansi_scan.specs.Pieces.{pieces};
ghost use Rattle.ansi_str_search.specs.Text.Blocks.{blocks_from};
ghost use Rattle.grid_config.specs.Ansi.FirstColor.{first_color};
ghost use Rattle.grid_config.specs.Compact.{new_compact};
ghost use Rattle.grid_config.specs.Settings.{HorizontalAlignment, Justification as JustificationField, JustificationColor, KeepsOthers, LineAlignment as LineAlignmentField, Padding as PaddingField, PaddingColor, Settings, CellSpans, TrimHorizontal as TrimHorizontalField, TrimVertical as TrimVerticalField, VerticalAlignment, compact_start, new_start};
ghost use Rattle.grid_config_values.specs.Glyphs.{no_borders};
ghost use Rattle.grid_config_values.specs.declared.alignment.AlignmentHorizontal.TheVariants.{Center, Left, Right};
ghost use Rattle.grid_config_values.specs.declared.alignment.AlignmentVertical.TheVariants.{Bottom};
ghost use Rattle.grid_config_values.specs.declared.entity.Entity.TheVariants.{Column as OneColumn, Global as EveryCell};
ghost use Rattle.grid_config_values.specs.declared.fault.Fault.TheVariants.{Spans as BadSpan};
ghost use Rattle.papergrid_picture.specs.Colors.Worked.{red};
ghost use Rattle.papergrid_picture.specs.Fitting.{first_too_wide};
ghost use Rattle.papergrid_picture.specs.Picture.{at};
ghost use Rattle.tabled.specs.Making.{named_field_rows};
ghost use Rattle.tabled.specs.Shown.{shown_in};
ghost use Rattle.tabled.specs.Tables.{new_look};
ghost use Rattle.tabled.specs.Writing.{chosen_lines};
ghost use Rattle.tabled_glyphs.specs.Glyphs.{extended, modern};
ghost use Rattle.tabled_list.specs.Amounts.{height_of, width_of};
ghost use Rattle.tabled_list.specs.Lists.{RefusedAt};
ghost use Rattle.tabled_list.specs.Settings.{cutting_by, setting_step};
ghost use Rattle.tabled_list.specs.Stripping.Printing.{drawn_frame, printed};
ghost use Rattle.tabled_list.specs.declared.amount.Amount.TheVariants.{Exact, Max, Min, Percent};
ghost use Rattle.tabled_list.specs.declared.setting.Setting.TheVariants.{AlignHorizontal, AlignVertical, Borders, CellHeightIncrease, CellHeightLimit, CellMinWidth, CellWrap, Color, ColumnSpan, Justification, Justify, LineAlignment, Margin, Padding, RowSpan, TrimHorizontal, TrimVertical};
ghost use Rattle.tabled_size.specs.declared.dimension.suffix.SuffixLimit.TheVariants.{Cut, Ignore, Replace};
ghost use Rattle.tabled_size.specs.Dimension.Stored.{none_stored};
ghost use Rattle.tabled_steps.specs.States.{Outcome, State, compact_state};
ghost use Rattle.tabled_width_texts.specs.Cutting.{truncating};
ghost use Rattle.tabled_width_texts.specs.Filling.{filling};
ghost use Rattle.tabled_width_texts.specs.WrappedOrCut.{justifying, wrapping_wider};
ghost use Rattle.tables_laws.specs.Shown.ClosingLooks.{IsClosingLook};
ghost use Rattle.tables_laws.specs.Worked.Tables.{Gives, at_the_right, below, beside, in_margin, in_widths, is_boundary, is_in_margin, is_row, marked_sides, of_one, square, wide_texts};

/// What each setting of the configuration makes of a table. Margins are round the table, paddings round each text.
/// Texts are at the right, at the bottom, or aligned line by line; they are trimmed, or justified by dots. A cell takes
/// two columns, or two rows. A column is red.
pub fn settings_by_hand()
    ensures padding { Gives (Padding EveryCell (marked_sides 2 1 1 0)) (of_one (codes "a")) (codes "+----+\n|^^^^|\n|<<a>|\n+----+") }
    ensures margin { Gives (Margin (marked_sides 1 2 1 1)) (of_one (codes "a")) (codes "^^^^^^^^\n<+---+>>\n<| a |>>\n<+---+>>\n________") }
    ensures borders { Gives (Borders no_borders) (of_one (codes "a")) (codes " a ") }
    ensures right { Gives (AlignHorizontal (OneColumn 0) Right) (below (codes "a") (codes "bcd")) (codes "+-----+\n|   a |\n+-----+\n| bcd |\n+-----+") }
    ensures other_column { Gives (AlignHorizontal (OneColumn 1) Right) (below (codes "a") (codes "bcd")) (codes "+-----+\n| a   |\n+-----+\n| bcd |\n+-----+") }
    ensures bottom { Gives (AlignVertical EveryCell Bottom) (beside (codes "a") (codes "b\nc")) (codes "+---+---+\n|   | b |\n| a | c |\n+---+---+") }
    ensures by_lines { Gives (LineAlignment EveryCell true) (at_the_right (of_one (codes "ab\nc"))) (codes "+----+\n| ab |\n|  c |\n+----+") }
    ensures as_a_block { Gives (LineAlignment EveryCell false) (at_the_right (of_one (codes "ab\nc"))) (codes "+----+\n| ab |\n| c  |\n+----+") }
    ensures trimmed { Gives (TrimHorizontal EveryCell true) (of_one (codes " a")) (codes "+----+\n| a  |\n+----+") }
    ensures trimmed_lines { Gives (TrimVertical EveryCell true) (of_one (codes "\na")) (codes "+---+\n| a |\n|   |\n+---+") }
    ensures justified { Gives (Justification EveryCell 0x2e) (below (codes "a") (codes "bc")) (codes "+----+\n| a. |\n+----+\n| bc |\n+----+") }
    ensures other_fill { Gives (Justification (OneColumn 1) 0x2e) (below (codes "a") (codes "bc")) (codes "+----+\n| a  |\n+----+\n| bc |\n+----+") }
    ensures two_columns { Gives (ColumnSpan (at 0 0) 2) square (codes "+---+---+\n| a     |\n+---+---+\n| c | d |\n+---+---+") }
    ensures two_rows { Gives (RowSpan (at 0 0) 2) square (codes "+---+---+\n| a | b |\n+   +---+\n|   | d |\n+---+---+") }
    ensures colored { Gives (Color (OneColumn 1) red) (beside (codes "a") (codes "b")) (codes "+---+---+\n| a | \u{1b}[31mb\u{1b}[39m |\n+---+---+") }
    ensures no_columns { (s : State) (outcome : Outcome) → setting_step (ColumnSpan (at 0 0) 0) s outcome → outcome ≡ Err BadSpan }
    ensures no_rows { (s : State) (outcome : Outcome) → setting_step (RowSpan (at 0 0) 0) s outcome → outcome ≡ Err BadSpan }
{}

/// After a setting that changes how cells look no size is kept, whatever was.
pub fn sizes_are_forgotten()
    ensures padding { (s last : State) → setting_step (Padding EveryCell (marked_sides 2 1 1 0)) s (Ok last) → last.sizes ≡ none_stored }
    ensures two_columns { (s last : State) → setting_step (ColumnSpan (at 0 0) 2) s (Ok last) → last.sizes ≡ none_stored }
    ensures two_rows { (s last : State) → setting_step (RowSpan (at 0 0) 2) s (Ok last) → last.sizes ≡ none_stored }
    ensures colored { (s last : State) → setting_step (Color (OneColumn 1) red) s (Ok last) → last.sizes ≡ none_stored }
{}

/// What settings of cells make of their texts. A text is filled with dots up to a width, or wrapped at it, also between
/// words. It gets a second line, or keeps the first; a text of another column stays. All texts are justified.
pub fn cell_sizes_by_hand()
    ensures filled { Gives (CellMinWidth EveryCell (Exact 3) 0x2e) (of_one (codes "a")) (codes "+-----+\n| a.. |\n+-----+") }
    ensures wrapped { Gives (CellWrap EveryCell (Exact 1) false) (of_one (codes "ab")) (codes "+---+\n| a |\n| b |\n+---+") }
    ensures by_words { Gives (CellWrap EveryCell (Exact 4) true) (of_one (codes "ab cd")) (codes "+-----+\n| ab  |\n| cd  |\n+-----+") }
    ensures raised { Gives (CellHeightIncrease EveryCell (Exact 2)) (of_one (codes "a")) (codes "+---+\n| a |\n|   |\n+---+") }
    ensures limited { Gives (CellHeightLimit EveryCell (Exact 1)) (of_one (codes "a\nb")) (codes "+---+\n| a |\n+---+") }
    ensures other_column { Gives (CellHeightLimit (OneColumn 1) (Exact 1)) (beside (codes "a\nb") (codes "c\nd")) (codes "+---+---+\n| a | c |\n| b |   |\n+---+---+") }
    ensures justified { Gives (Justify (Exact 3)) (below (codes "a") (codes "bcde")) (codes "+-----+\n| a   |\n+-----+\n| bcd |\n+-----+") }
{}

/// Widths and heights by name. The greatest width is that of a text, the least that of the row whose least text is
/// widest. The greatest height is that of a text, the least that of the row whose highest text is lowest. A part of a
/// hundred is one of the whole table, with its boundaries, rounded down.
pub fn amounts_by_hand()
    ensures widest { width_of Max 2 ((codes "abc" ∷ codes "d" ∷ []) ∷ (codes "ef" ∷ codes "gh" ∷ []) ∷ []) new_look ≡ Ok 3 }
    ensures narrowest { width_of Min 2 ((codes "abc" ∷ codes "d" ∷ []) ∷ (codes "ef" ∷ codes "gh" ∷ []) ∷ []) new_look ≡ Ok 2 }
    ensures third { width_of (Percent 33) 2 ((codes "abc" ∷ codes "d" ∷ []) ∷ (codes "ef" ∷ codes "gh" ∷ []) ∷ []) new_look ≡ Ok 3 }
    ensures highest { height_of Max 2 ((codes "a\nb" ∷ codes "c" ∷ []) ∷ (codes "d" ∷ codes "e" ∷ []) ∷ []) new_look ≡ Ok 2 }
    ensures lowest { height_of Min 2 ((codes "a\nb" ∷ codes "c" ∷ []) ∷ (codes "d" ∷ codes "e" ∷ []) ∷ []) new_look ≡ Ok 1 }
    ensures half { height_of (Percent 50) 2 ((codes "a\nb" ∷ codes "c" ∷ []) ∷ (codes "d" ∷ codes "e" ∷ []) ∷ []) new_look ≡ Ok 3 }
{}

/// Texts that are cut, with a suffix after them. Where it fits it is after as much of the text as it leaves room for.
/// Where not, it is cut itself, or left out, or a character is in place of the text. Each line is cut by itself, also
/// one that fits. The suffix has the style of the last character before it, or none.
pub fn cut_texts_by_hand()
    ensures fits { truncating (cutting_by (codes "..") Cut false false) 6 (codes "abcdef") ≡ None }
    ensures suffix { truncating (cutting_by (codes "..") Cut false false) 4 (codes "abcdef") ≡ Some (codes "ab..") }
    ensures no_suffix { truncating (cutting_by [] Cut false true) 4 (codes "abcdef") ≡ Some (codes "abcd") }
    ensures cut_suffix { truncating (cutting_by (codes "-=+*") Cut false false) 3 (codes "abcdef") ≡ Some (codes "-=+") }
    ensures as_wide { truncating (cutting_by (codes "-=+") Ignore false false) 3 (codes "abcdef") ≡ Some (codes "abc") }
    ensures replaced { truncating (cutting_by (codes "-=+*") (Replace 0x23) false false) 3 (codes "abcdef") ≡ Some (codes "###") }
    ensures replaced_by_wide { truncating (cutting_by (codes "-=+*") (Replace 0x65e5) false false) 3 (codes "abcdef") ≡ Some (encode_utf8_all (0x65e5 ∷ 0xfffd ∷ [])) }
    ensures by_lines { truncating (cutting_by (codes ".") Cut true false) 2 (codes "abc\nde") ≡ Some (codes "a.\nd.") }
    ensures as_one { truncating (cutting_by (codes ".") Cut false false) 2 (codes "abc\nde") ≡ Some (codes "a.") }
    ensures styled { truncating (cutting_by (codes ".") Cut false true) 2 (codes "\u{1b}[31mabc\u{1b}[0m") ≡ Some (codes "\u{1b}[31ma\u{1b}[39m\u{1b}[31m.\u{1b}[39m") }
    ensures unstyled { truncating (cutting_by (codes ".") Cut false false) 2 (codes "\u{1b}[31mabc\u{1b}[0m") ≡ Some (codes "\u{1b}[31ma\u{1b}[39m.") }
{}

/// Texts that are filled up to a width, line by line, or wrapped at it, or filled with spaces and then cut.
pub fn filled_texts_by_hand()
    ensures filled { filling 0x2e 3 (codes "a\nbc") ≡ Some (codes "a..\nbc.") }
    ensures wide_enough { filling 0x2e 2 (codes "a\nbc") ≡ None }
    ensures styled { filling 0x2e 2 (codes "\u{1b}[31ma\u{1b}[39m") ≡ Some (codes "\u{1b}[31ma\u{1b}[39m.") }
    ensures wrapped { wrapping_wider false 1 (codes "ab") ≡ Some (codes "a\nb") }
    ensures by_words { wrapping_wider true 4 (codes "ab cd") ≡ Some (codes "ab \ncd") }
    ensures narrow_enough { wrapping_wider false 2 (codes "ab") ≡ None }
    ensures justified { justifying 3 (codes "a") ≡ Some (codes "a  ") }
    ensures justified_cut { justifying 2 (codes "abc") ≡ Some (codes "ab") }
    ensures just_so { justifying 2 (codes "ab") ≡ None }
{}

/// Tables as they are shown in a width. What they lack of it is at the left, at the right, or the smaller half at the
/// left; a fill of no character is a space. A wider table stays, and an alignment is that of all cells.
pub fn tables_in_widths_by_hand()
    ensures left { printed (shown_in (Some 8) (Some Left) 0x2e (of_one (codes "a"))) ≡ codes "...+---+\n...| a |\n...+---+" }
    ensures none_given { printed (shown_in (Some 8) None 0x2e (of_one (codes "a"))) ≡ codes "...+---+\n...| a |\n...+---+" }
    ensures right { printed (shown_in (Some 8) (Some Right) 0x2e (of_one (codes "a"))) ≡ codes "+---+...\n| a |...\n+---+..." }
    ensures center { printed (shown_in (Some 8) (Some Center) 0x2e (of_one (codes "a"))) ≡ codes ".+---+..\n.| a |..\n.+---+.." }
    ensures no_fill { printed (shown_in (Some 6) None 0 (of_one (codes "a"))) ≡ codes " +---+\n | a |\n +---+" }
    ensures wider { printed (shown_in (Some 4) (Some Right) 0x2e (of_one (codes "a"))) ≡ codes "+---+\n| a |\n+---+" }
    ensures aligned { printed (shown_in None (Some Right) 0x2e (below (codes "a") (codes "bcd"))) ≡ codes "+-----+\n|   a |\n+-----+\n| bcd |\n+-----+" }
    ensures both_margins { printed (shown_in (Some 9) (Some Right) 0x2e (in_margin (marked_sides 1 1 0 0) (of_one (codes "a")))) ≡ codes ".+---+...\n.| a |...\n.+---+..." }
{}

/// Lines that are chosen by what they show: those of rows, that of a boundary, those of the margins.
pub fn chosen_lines_by_hand()
    ensures rows { chosen_lines is_row square ≡ codes "| a | b |\n| c | d |\n" }
    ensures between { chosen_lines (is_boundary 1) square ≡ codes "+---+---+\n" }
    ensures none { chosen_lines (is_boundary 3) square ≡ [] }
    ensures margins { chosen_lines is_in_margin (in_margin (marked_sides 0 0 1 1) (of_one (codes "a"))) ≡ codes "^^^^^\n_____\n" }
{}

/// Rows of a name beside each field, one value after the other.
pub fn named_rows_by_hand()
    ensures { named_field_rows (codes "n" ∷ codes "m" ∷ []) (λ texts. texts) ((codes "a" ∷ codes "b" ∷ []) ∷ (codes "c" ∷ codes "d" ∷ []) ∷ [])
        ≡ (codes "n" ∷ codes "a" ∷ []) ∷ (codes "m" ∷ codes "b" ∷ []) ∷ (codes "n" ∷ codes "c" ∷ []) ∷ (codes "m" ∷ codes "d" ∷ []) ∷ [] }
{}

/// The colour that a text begins with, and a text that shows nothing.
pub fn first_colors_by_hand()
    ensures styled { first_color (blocks_from plain_attributes (pieces (codes "\u{1b}[1;31mx\u{1b}[0my")))
        ≡ Some (record { prefix = codes "\u{1b}[1m\u{1b}[31m"; suffix = codes "\u{1b}[22m\u{1b}[39m" }) }
    ensures plain { first_color (blocks_from plain_attributes (pieces (codes "x\u{1b}[31my"))) ≡ Some (record { prefix = []; suffix = [] }) }
    ensures nothing { first_color (blocks_from plain_attributes (pieces (codes "\u{1b}[31m"))) ≡ None }
{}

/// A table in each of the other named styles is closing, as a new one is.
pub fn looks_of_styles_are_closing()
    ensures modern { IsClosingLook (record new_look { borders = modern }) }
    ensures extended { IsClosingLook (record new_look { borders = extended }) }
    ensures empty { IsClosingLook (record new_look { borders = no_borders }) }
{}

/// Settings that no call has changed draw texts alone, at the left and filled up by spaces. Those of all tables begin as
/// those of compact ones do.
pub fn new_settings_by_hand()
    ensures drawn { printed (compact_state ((codes "a" ∷ codes "bc" ∷ []) ∷ (codes "d" ∷ [] ∷ []) ∷ []) new_compact none_stored) ≡ codes "abc\nd  " }
    ensures begin { new_start ≡ compact_start new_compact }
{}

/// The first cell that is wider than its column, by row, then column; and none where each has its columns.
pub fn wide_cells_by_hand()
    ensures first { first_too_wide (drawn_frame (in_widths (3 ∷ 3 ∷ []))) wide_texts ≡ Some (at 0 1) }
    ensures second { first_too_wide (drawn_frame (in_widths (3 ∷ 4 ∷ []))) wide_texts ≡ Some (at 1 0) }
    ensures none { first_too_wide (drawn_frame (in_widths (4 ∷ 4 ∷ []))) wide_texts ≡ None }
{}

/// A list of settings of which the second is refused: that is the one which is named, and the first remains in effect.
pub fn refused_lists_by_hand()
    ensures only { (s : State) → RefusedAt (ColumnSpan (at 0 0) 0 ∷ []) s s 0 BadSpan }
    ensures second { (s new : State) (index : ℕ) → RefusedAt (Borders no_borders ∷ ColumnSpan (at 0 0) 0 ∷ []) s new index BadSpan → (index ≡ 1) × (new.look.borders ≡ no_borders) }
{}

/// A setter of cells changes its own setting, and no other.
pub fn settings_change_alone()
    ensures padding { (old new : Settings) → KeepsOthers PaddingField old new → new ≡ record old { padding = new.padding } }
    ensures padding_color { (old new : Settings) → KeepsOthers PaddingColor old new → new ≡ record old { padding_color = new.padding_color } }
    ensures alignment_horizontal { (old new : Settings) → KeepsOthers HorizontalAlignment old new → new ≡ record old { alignment_horizontal = new.alignment_horizontal } }
    ensures alignment_vertical { (old new : Settings) → KeepsOthers VerticalAlignment old new → new ≡ record old { alignment_vertical = new.alignment_vertical } }
    ensures line_alignment { (old new : Settings) → KeepsOthers LineAlignmentField old new → new ≡ record old { line_alignment = new.line_alignment } }
    ensures trim_horizontal { (old new : Settings) → KeepsOthers TrimHorizontalField old new → new ≡ record old { trim_horizontal = new.trim_horizontal } }
    ensures trim_vertical { (old new : Settings) → KeepsOthers TrimVerticalField old new → new ≡ record old { trim_vertical = new.trim_vertical } }
    ensures justification { (old new : Settings) → KeepsOthers JustificationField old new → new ≡ record old { justification = new.justification } }
    ensures justification_color { (old new : Settings) → KeepsOthers JustificationColor old new → new ≡ record old { justification_color = new.justification_color } }
    ensures spans { (old new : Settings) → KeepsOthers CellSpans old new → new ≡ record old { spans = new.spans } }
{}
