//! Lines cut and wrapped by hand, and what a cut line measures. The functions do nothing.
ghost use Rattle.std.specs.Prelude.{◌≡◌, ◌≤◌, ◌++◌, ℕ, List, [], chars, codes, encode_utf8_all, true};
ghost use Rattle.std.specs.List.{list_all};
ghost use Rattle.std.specs.Str.{IsUtf8};
ghost use Rattle.ansi_scan.specs.Pieces.{pieces as pieces_of};
ghost use Rattle.ansi_scan.specs.Sequences.{NoneBroken};
ghost use Rattle.ansi_str.specs.StyledText.{strip};
ghost use Rattle.grid_records_measure.specs.PlainCharacters.{is_plain_character};
ghost use Rattle.grid_records_measure.specs.TextLines.{line_width};
ghost use Rattle.basinmug_columns.specs.Fitting.Fitting.{wrapped_line, cut_line, cut_lines, ellipsis, shortened, wrap_words};

/// A line that fits stays. Of one that takes a column more the ellipsis takes the last that it has, which is all
/// where it has one, and no columns leave nothing. Its sequences stay around what is kept, and a wide character of
/// which half would be cut is marked before the ellipsis.
pub fn cuts_by_hand()
    ensures fits { cut_line 3 (codes "abc") ≡ codes "abc" }
    ensures one_too_many { cut_line 3 (codes "abcd") ≡ codes "ab" ++ ellipsis }
    ensures one_column { cut_line 1 (codes "abcd") ≡ ellipsis }
    ensures no_columns { cut_line 0 (codes "abcd") ≡ [] }
    ensures nothing { cut_line 0 [] ≡ [] }
    ensures styles { cut_line 3 (codes "\u{1b}[31mabcd\u{1b}[39m") ≡ codes "\u{1b}[31mab\u{1b}[39m" ++ ellipsis }
    ensures half { shortened 3 (encode_utf8_all (codes "a😳b")) ≡ encode_utf8_all (codes "a�…") }
{}

/// A line that fits stays. Words are kept together where they fit, and else divided. The space between two lines
/// is at the end of the first where that has a column left, and is not shown where it has none; a line of spaces
/// alone leaves nothing, and so do no columns. Each line opens and ends its own styles.
pub fn wraps_by_hand()
    ensures fits { wrapped_line 7 (codes "abc def") ≡ codes "abc def" }
    ensures words { wrapped_line 4 (codes "111 234 1") ≡ codes "111 \n234 \n1" }
    ensures space_between_lines { wrapped_line 3 (codes "abc def") ≡ codes "abc\ndef" }
    ensures long_word { wrapped_line 3 (codes "abcde f") ≡ codes "abc\nde \nf" }
    ensures spaces { wrapped_line 3 (codes "    ") ≡ [] }
    ensures no_columns { wrapped_line 0 (codes "abc") ≡ [] }
    ensures styles { wrapped_line 5 (codes "\u{1b}[37mHello World\u{1b}[0m") ≡ codes "\u{1b}[37mHello\u{1b}[39m\n\u{1b}[37mWorld\u{1b}[0m" }
{}

/// A number with spaces around it is whole where it fits without them: lines of spaces are dropped.
pub fn wrapped_numbers_by_hand()
    ensures padded { wrapped_line 3 (codes "  123 ") ≡ codes "123" }
    ensures far { wrapped_line 2 (codes "     7") ≡ codes " 7" }
{}

/// A whole line of plain characters that is cut to a width measures no more than it.
pub fn cut_lines_fit()
    ensures { (room : ℕ) (line : List ℕ) → IsUtf8 line → NoneBroken (pieces_of line) →
        list_all is_plain_character (chars (strip (pieces_of line))) ≡ true → line_width (cut_line room line) ≤ room }
{}

/// Of a text each line is cut or wrapped by itself, and an empty one stays.
pub fn texts_by_hand()
    ensures cut { cut_lines 3 (codes "abcd\nef\n\nghij") ≡ codes "ab" ++ ellipsis ++ codes "\nef\n\ngh" ++ ellipsis }
    ensures wrapped { wrap_words 3 (codes "abc def\n\ng") ≡ codes "abc\ndef\n\ng" }
{}
