//! Tables of additive characters: what is wrapped or cut of them, and how many columns each line takes. Laws alone.
//!
//! Laws of texts of additive characters, each the contract of a function that does nothing.
ghost use Rattle.std.specs.Prelude.{◌≡◌, ◌++◌, ℕ, All, Bool, List, Option, None, encode_utf8, true};
ghost use Rattle.std.specs.List.{sum_by};
ghost use Rattle.ansi_str.specs.Characters.{shown_chars};
ghost use Rattle.grid_config.specs.Colors.{Color};
ghost use Rattle.grid_config.specs.Looks.{Look};
ghost use Rattle.grid_config_values.specs.declared.spans.extent.Extent.{Extent as CellExtent};
ghost use Rattle.grid_config_values.specs.declared.position.Position.{Position as CellPosition};
ghost use Rattle.tables_laws.specs.Characters.AdditiveCharacters.{are_additive, columns_of, is_additive};
ghost use Rattle.grid_records_measure.specs.Cutting.{replacement};
ghost use Rattle.grid_records_measure.specs.Measures.{measure, own_width};
ghost use Rattle.grid_records_measure.specs.TextLines.{text_lines};
ghost use Rattle.grid_records_measure.specs.Trimming.{trimmed};
ghost use Rattle.papergrid_picture.specs.Colors.ClosingColors.{ShowNothing};
ghost use Rattle.papergrid_picture.specs.Frame.{frame_of, full_line_width};
ghost use Rattle.papergrid_picture.specs.Tables.{table_grid, table_line};
ghost use Rattle.papergrid_picture.specs.Tiling.{HasGoodSpans, HasRoom};
ghost use Rattle.tabled_size_wrap.specs.Cells.Resizing.{Resize, resized_text};
ghost use Rattle.tabled_size_wrap.specs.Bytes.{cut_at};
ghost use Rattle.tables_laws.specs.Grids.CountedLooks.{AddsUp, TakesOnes};
ghost use Rattle.tables_laws.specs.Grids.TextsOf.{AreAdditiveTexts, AreTextsOf, IsAdditiveText, IsTextOf};

/// Each line of a text of additive characters measures the sum of what its characters take. So does what is left of it
/// without the white space at its ends.
pub fn lines_of_additive_texts_add_up()
    ensures lines { (text : List ℕ) → IsAdditiveText text → All (λ line. are_additive (shown_chars line) ≡ true) (text_lines text) }
    ensures measures { (text : List ℕ) → IsAdditiveText text →
        All (λ line. measure (shown_chars line) ≡ sum_by columns_of (shown_chars line)) (text_lines text) }
    ensures trims { (text : List ℕ) → IsAdditiveText text →
        All (λ line. measure (shown_chars (trimmed line)) ≡ sum_by columns_of (shown_chars (trimmed line))) (text_lines text) }
{}

/// What is wrapped or cut of a text of a class of characters that has U+FFFD is such a text. So are two of them one
/// after the other, as a text that is cut and the ellipsis after it. So the result is of additive characters, of which
/// the ellipsis is one.
pub fn resized_texts_stay_in_their_class()
    ensures resizes { (of_class : ℕ → Bool) (resize : Resize) (text : List ℕ) → of_class replacement ≡ true → IsTextOf of_class text →
        IsTextOf of_class (resized_text resize text) }
    ensures cuts { (of_class : ℕ → Bool) (width : ℕ) (text : List ℕ) → of_class replacement ≡ true → IsTextOf of_class text → IsTextOf of_class (cut_at width text) }
    ensures joins { (of_class : ℕ → Bool) (text behind : List ℕ) → IsTextOf of_class text → IsTextOf of_class behind → IsTextOf of_class (text ++ behind) }
    ensures additive { (resize : Resize) (text : List ℕ) → IsAdditiveText text → IsAdditiveText (resized_text resize text) }
    ensures shortened { (width : ℕ) (text : List ℕ) → IsAdditiveText text → IsAdditiveText (cut_at width text ++ encode_utf8 0x2026) }
{}

/// Each line of a table of additive characters, with colours or without, measures as one text the columns of the table.
/// Each glyph and fill must be such a character that takes one column. Where the glyphs and fills are any characters of
/// one column, that is the sum of what the characters of the line take one by one.
pub fn lines_of_additive_tables_are_even()
    ensures measured { (look : Look) (rows : List (List (List ℕ))) (colors : CellPosition → Option Color) (widths heights : List ℕ)
        (spans : List (CellPosition × CellExtent)) (y : ℕ) → TakesOnes is_additive look → ShowNothing colors → AreAdditiveTexts rows →
        HasGoodSpans (table_grid look rows (λ _. None) widths heights) spans → HasRoom (table_grid look rows (λ _. None) widths heights) →
        measure (shown_chars (table_line look rows colors widths heights y)) ≡ full_line_width (frame_of look widths heights) }
    ensures counted { (of_class : ℕ → Bool) (look : Look) (rows : List (List (List ℕ))) (colors : CellPosition → Option Color) (widths heights : List ℕ)
        (spans : List (CellPosition × CellExtent)) (y : ℕ) → AddsUp of_class → TakesOnes (λ _. true) look → ShowNothing colors → AreTextsOf of_class rows →
        HasGoodSpans (table_grid look rows (λ _. None) widths heights) spans → HasRoom (table_grid look rows (λ _. None) widths heights) →
        sum_by own_width (shown_chars (table_line look rows colors widths heights y)) ≡ full_line_width (frame_of look widths heights) }
{}
