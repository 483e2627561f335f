//! Tables with and without the sequences of their texts: what they print, and laws of lists of settings.
//!
//! Laws of tables with and without the sequences of their texts, each the contract of a function that does
//! nothing.
ghost use Rattle.std.specs.Prelude.{◌≡◌, ◌↔◌, ℕ, List, None, Result};
ghost use Rattle.ansi_scan.specs.Pieces.{pieces};
ghost use Rattle.ansi_str.specs.StyledText.{strip};
ghost use Rattle.grid_config_values.specs.declared.fault.Fault.{Fault as TableFault};
ghost use Rattle.grid_config_values.specs.declared.position.Position.{Position as CellPosition};
ghost use Rattle.grid_records_traits.specs.Rows.{text_at};
ghost use Rattle.papergrid_picture.specs.Colors.ClosingColors.{ShowNothing};
ghost use Rattle.papergrid_picture.specs.Shown.{AreWholeTexts, IsBare};
ghost use Rattle.tabled_list.specs.Lists.{LeadsThrough, RefusedAt};
ghost use Rattle.tabled_list.specs.Settings.{setting_step};
ghost use Rattle.tabled_list.specs.declared.setting.Setting.{Setting};
ghost use Rattle.tabled_steps.specs.States.{Outcome, State};
ghost use Rattle.tabled_list.specs.Stripping.Printing.{IsFitsAnswer, drawn_heights, drawn_widths, printed};
ghost use Rattle.tabled_list.specs.Stripping.Stripping.{IsOfTable, PutInNoEscape, cell_line_bytes, colors_after, drawn_grid, stripped_state, uncolored_state};
ghost use Rattle.tabled_list.specs.Stripping.Totals.{drawn_height, drawn_width};

/// A setting makes at most one thing of a table, and so does a list of settings. It leads to one table at most, or
/// is refused at one setting at most, by one name, memory aside. It does not do both.
pub fn lists_lead_to_one_table()
    ensures step { (setting : Setting) (s : State) (a b : Outcome) → setting_step setting s a → setting_step setting s b → a ≡ b }
    ensures run { (settings : List Setting) (s a b : State) → LeadsThrough settings s a → LeadsThrough settings s b → a ≡ b }
    ensures refused { (settings : List Setting) (s a b : State) (i j : ℕ) (fault other : TableFault) → IsOfTable fault → IsOfTable other →
        RefusedAt settings s a i fault → RefusedAt settings s b j other → (i ≡ j) × (fault ≡ other) }
    ensures not_both { (settings : List Setting) (s a b : State) (i : ℕ) (fault : TableFault) → IsOfTable fault →
        LeadsThrough settings s a → ¬ (RefusedAt settings s b i fault) }
{}

/// The settings of a list put in no character which begins a sequence, and no colour but such as are sequences
/// alone. What the list makes of a table it makes, without sequences, of the table of the stripped texts. A setting
/// that is refused of the one is refused of the other. The texts of the table stay whole.
pub fn settings_change_stripped_tables_alike()
    ensures run { (settings : List Setting) (s last : State) → PutInNoEscape settings → AreWholeTexts s.rows → LeadsThrough settings s last →
        LeadsThrough settings (stripped_state s) (stripped_state last) }
    ensures whole { (settings : List Setting) (s last : State) → PutInNoEscape settings → AreWholeTexts s.rows → LeadsThrough settings s last →
        AreWholeTexts last.rows }
    ensures refused { (settings : List Setting) (old new : State) (index : ℕ) (fault : TableFault) → PutInNoEscape settings → AreWholeTexts old.rows →
        RefusedAt settings old new index fault → RefusedAt settings (stripped_state old) (stripped_state new) index fault }
{}

/// A table and the table of its stripped texts take the same columns and lines, and are refused by the same
/// name. Without its sequences the text of the one is the text of the other without the colours of its cells.
/// For this, nothing else must be coloured, and these colours must be sequences alone, as those that close are.
/// So both texts are the same without their sequences.
pub fn stripped_tables_print_the_stripped_text()
    ensures text { (s : State) → IsBare s.look → AreWholeTexts s.rows → ShowNothing s.colors →
        strip (pieces (printed s)) ≡ printed (uncolored_state (stripped_state s)) }
    ensures both { (s : State) → IsBare s.look → AreWholeTexts s.rows → ShowNothing s.colors →
        strip (pieces (printed s)) ≡ strip (pieces (printed (stripped_state s))) }
    ensures no_colors { (s : State) → IsBare s.look → AreWholeTexts s.rows → s.colors ≡ (λ _. None) →
        strip (pieces (printed s)) ≡ printed (stripped_state s) }
    ensures fits { (s : State) (answer : Result (Unit {0}) TableFault) → (IsFitsAnswer (stripped_state s) answer ↔ IsFitsAnswer s answer) }
    ensures one { (s : State) (a b : Result (Unit {0}) TableFault) → IsFitsAnswer s a → IsFitsAnswer s b → a ≡ b }
    ensures width { (s : State) → drawn_width (stripped_state s) ≡ drawn_width s }
    ensures height { (s : State) → drawn_height (stripped_state s) ≡ drawn_height s }
{}

/// Layout and stripping can be exchanged. Where a list puts in no ESC, a look whose glyphs and fills begin no
/// sequence, and that has no colour, stays such a look. Cells have the colours of the last setting that covers
/// them, or stay as they were. Where those before are sequences alone, these are too. The list leads to one table,
/// and to another from the stripped texts. The text of the first without its sequences is that of the other without
/// colours. Both are printed, or refused by the same name.
pub fn layout_and_stripping_can_be_exchanged()
    ensures look { (settings : List Setting) (s last : State) → PutInNoEscape settings → IsBare s.look → LeadsThrough settings s last → IsBare last.look }
    ensures colors { (settings : List Setting) (s last : State) → PutInNoEscape settings → IsBare s.look → LeadsThrough settings s last → last.colors ≡ colors_after settings s.colors }
    ensures silent { (settings : List Setting) (s last : State) → PutInNoEscape settings → IsBare s.look → ShowNothing s.colors → LeadsThrough settings s last → ShowNothing last.colors }
    ensures text { (settings : List Setting) (s last other : State) → PutInNoEscape settings → AreWholeTexts s.rows → IsBare s.look → ShowNothing s.colors →
        LeadsThrough settings s last → LeadsThrough settings (stripped_state s) other → strip (pieces (printed last)) ≡ printed (uncolored_state other) }
    ensures both { (settings : List Setting) (s last other : State) → PutInNoEscape settings → AreWholeTexts s.rows → IsBare s.look → ShowNothing s.colors →
        LeadsThrough settings s last → LeadsThrough settings (stripped_state s) other → strip (pieces (printed last)) ≡ strip (pieces (printed other)) }
    ensures no_colors { (settings : List Setting) (s last other : State) → PutInNoEscape settings → AreWholeTexts s.rows → IsBare s.look → colors_after settings s.colors ≡ (λ _. None) →
        LeadsThrough settings s last → LeadsThrough settings (stripped_state s) other → strip (pieces (printed last)) ≡ printed other }
    ensures refused { (settings : List Setting) (s last other : State) (a b : Result (Unit {0}) TableFault) → PutInNoEscape settings → AreWholeTexts s.rows →
        LeadsThrough settings s last → LeadsThrough settings (stripped_state s) other → IsFitsAnswer last a → IsFitsAnswer other b → a ≡ b }
{}

/// Two tables of whole texts are the same once their texts are stripped. A list that puts in no ESC leads them to
/// two that are so too. These have the same sizes, and their placed parts are at the same places. A cell that had
/// the same text in both still has the same text in both, and each line of it is printed by the same bytes.
pub fn tables_of_the_same_characters_are_laid_out_alike()
    ensures ends { (settings : List Setting) (a b m n : State) → PutInNoEscape settings → AreWholeTexts a.rows → AreWholeTexts b.rows →
        stripped_state a ≡ stripped_state b → LeadsThrough settings a m → LeadsThrough settings b n → stripped_state m ≡ stripped_state n }
    ensures texts { (settings : List Setting) (a b m n : State) (place : CellPosition) → PutInNoEscape settings → AreWholeTexts a.rows → AreWholeTexts b.rows →
        stripped_state a ≡ stripped_state b → LeadsThrough settings a m → LeadsThrough settings b n → text_at a.rows place ≡ text_at b.rows place →
        text_at m.rows place ≡ text_at n.rows place }
    ensures widths { (a b : State) → stripped_state a ≡ stripped_state b → drawn_widths a ≡ drawn_widths b }
    ensures heights { (a b : State) → stripped_state a ≡ stripped_state b → drawn_heights a ≡ drawn_heights b }
    ensures places { (a b : State) → stripped_state a ≡ stripped_state b → drawn_grid a ≡ drawn_grid b }
    ensures lines { (a b : State) (cell : CellPosition) (k : ℕ) → stripped_state a ≡ stripped_state b → text_at a.rows cell ≡ text_at b.rows cell →
        cell_line_bytes a cell k ≡ cell_line_bytes b cell k }
{}
