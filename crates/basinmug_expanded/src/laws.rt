//! Columns, rules and records that were worked out by hand. The functions do nothing.
ghost use Rattle.std.specs.Prelude.{◌≡◌, ◌∷◌, ◌++◌, ◌-◌, ◌^◌, ℕ, List, [], None, Some, codes, false, map, true};
ghost use Rattle.grid_records_measure.specs.TextLines.{line_width, text_lines};
ghost use Rattle.basinmug_columns.specs.Fitting.Fitting.{cut_lines};
ghost use Rattle.basinmug_columns.specs.declared.rows.RowsShown.TheVariants.{All, Between, Earlier, More};
ghost use Rattle.basinmug_expanded.specs.Columns.{columns_of_names, columns_of_rule, columns_of_values, last_number, names_of, record_number};
ghost use Rattle.basinmug_expanded.specs.Records.{filled_line, fitted_lines, name_lines, records_text, rule_line};

/// What names, values and rules have: what they request; or in a width half of it at most, what is left of it but at
/// least a column, and at most all of it. A rule holds its head and a dash, and no more than 80 columns where no width
/// is given.
pub fn columns_by_hand()
    ensures names { columns_of_names None 7 ≡ 7 }
    ensures half { columns_of_names (Some 10) 7 ≡ 5 }
    ensures few { columns_of_names (Some 20) 7 ≡ 7 }
    ensures values { columns_of_values None 4 20 ≡ 20 }
    ensures left { columns_of_values (Some 10) 4 20 ≡ 3 }
    ensures least { columns_of_values (Some 1) 0 20 ≡ 1 }
    ensures head { columns_of_rule None 4 3 13 ≡ 14 }
    ensures lines { columns_of_rule None 4 30 13 ≡ 37 }
    ensures usual { columns_of_rule None 4 90 13 ≡ 80 }
    ensures asked { columns_of_rule (Some 100) 4 190 13 ≡ 100 }
    ensures narrow { columns_of_rule (Some 5) 4 3 13 ≡ 5 }
{}

/// What fields are called: by a header, which may lack names, or by number.
pub fn names_by_hand()
    ensures header { names_of true (codes "a" ∷ []) ((codes "1" ∷ codes "2" ∷ []) ∷ []) ≡ codes "a" ∷ [] ∷ [] }
    ensures longer { names_of true (codes "a" ∷ codes "b" ∷ []) ((codes "1" ∷ []) ∷ []) ≡ codes "a" ∷ codes "b" ∷ [] }
    ensures numbers { names_of false [] ((codes "1" ∷ codes "2" ∷ []) ∷ []) ≡ codes "0" ∷ codes "1" ∷ [] }
{}

/// Rules of as many columns as are given: with a cross where the bar is, unless the head takes its place, and cut where
/// the head is longer.
pub fn rules_by_hand()
    ensures whole { rule_line (record { names = 4; values = 3; rule = 14; truncate = false }) 0 ≡ codes "-[ RECORD 0 ]-" }
    ensures crossed { rule_line (record { names = 14; values = 3; rule = 20; truncate = false }) 0 ≡ codes "-[ RECORD 0 ]--+----" }
    ensures just_behind { rule_line (record { names = 13; values = 3; rule = 20; truncate = false }) 0 ≡ codes "-[ RECORD 0 ]-+-----" }
    ensures taken { rule_line (record { names = 12; values = 5; rule = 20; truncate = false }) 0 ≡ codes "-[ RECORD 0 ]-------" }
    ensures tenth { rule_line (record { names = 1; values = 1; rule = 16; truncate = false }) 10 ≡ codes "-[ RECORD 10 ]--" }
    ensures cut { rule_line (record { names = 1; values = 1; rule = 5; truncate = false }) 0 ≡ codes "-[ RE" }
{}

/// Lines are filled by what they measure: one of a wide character lacks two of four columns.
pub fn lines_are_filled_by_columns()
    ensures { (line : List ℕ) → line_width line ≡ 2 → filled_line 4 line ≡ line ++ codes "  " }
{}

/// Records by a header, the wider of whose names is the first or the last, and by number; no record, and how many are
/// left out.
pub fn records_by_hand()
    ensures one { records_text (record { header = true; width = None; truncate = false; rows_shown = All }) (codes "name" ∷ codes "x" ∷ []) ((codes "C" ∷ codes "1" ∷ []) ∷ [])
        ≡ codes "-[ RECORD 0 ]-\nname | C\nx    | 1\n" }
    ensures wide_last { records_text (record { header = true; width = None; truncate = false; rows_shown = All }) (codes "x" ∷ codes "name" ∷ []) ((codes "1" ∷ codes "C3" ∷ []) ∷ [])
        ≡ codes "-[ RECORD 0 ]-\nx    | 1\nname | C3\n" }
    ensures numbered { records_text (record { header = false; width = None; truncate = false; rows_shown = All }) [] ((codes "a" ∷ []) ∷ (codes "b" ∷ codes "c" ∷ []) ∷ [])
        ≡ codes "-[ RECORD 0 ]-\n0 | a\n1 | \n-[ RECORD 1 ]-\n0 | b\n1 | c\n" }
    ensures none { records_text (record { header = true; width = Some 5; truncate = true; rows_shown = All }) (codes "name" ∷ []) [] ≡ [] }
    ensures left_out { records_text (record { header = true; width = None; truncate = false; rows_shown = More 1 }) (codes "a" ∷ []) ((codes "1" ∷ []) ∷ [])
        ≡ codes "-[ RECORD 0 ]-\na | 1\n(1 more record)\n" }
    ensures all_left_out { records_text (record { header = true; width = None; truncate = false; rows_shown = More 2 }) (codes "a" ∷ []) [] ≡ codes "(2 more records)\n" }
{}

/// Records of which the last are shown, or the first and the last: these keep their numbers, and rules have space for
/// the greatest. A line with an ellipsis is in place of records that are left out after the first ones, also where there
/// are no first or no last ones.
pub fn numbers_by_hand()
    ensures earlier { records_text (record { header = true; width = None; truncate = false; rows_shown = Earlier 2 }) (codes "a" ∷ []) ((codes "1" ∷ []) ∷ [])
        ≡ codes "-[ RECORD 2 ]-\na | 1\n(2 earlier records)\n" }
    ensures between { records_text (record { header = true; width = None; truncate = false; rows_shown = Between 1 9 }) (codes "a" ∷ []) ((codes "1" ∷ []) ∷ (codes "2" ∷ []) ∷ [])
        ≡ codes "-[ RECORD 0 ]--\na | 1\n" ++ (0xe2 ∷ 0x80 ∷ 0xa6 ∷ codes "\n-[ RECORD 10 ]-\na | 2\n(9 records left out)\n") }
    ensures no_first { records_text (record { header = true; width = None; truncate = false; rows_shown = Between 0 1 }) (codes "a" ∷ []) ((codes "1" ∷ []) ∷ [])
        ≡ 0xe2 ∷ 0x80 ∷ 0xa6 ∷ codes "\n-[ RECORD 1 ]-\na | 1\n(1 record left out)\n" }
    ensures no_last { records_text (record { header = true; width = None; truncate = false; rows_shown = Between 1 3 }) (codes "a" ∷ []) ((codes "1" ∷ []) ∷ [])
        ≡ codes "-[ RECORD 0 ]-\na | 1\n" ++ (0xe2 ∷ 0x80 ∷ 0xa6 ∷ codes "\n(3 records left out)\n") }
    ensures no_gap { records_text (record { header = true; width = None; truncate = false; rows_shown = Between 1 0 }) (codes "a" ∷ []) ((codes "1" ∷ []) ∷ (codes "2" ∷ []) ∷ [])
        ≡ codes "-[ RECORD 0 ]-\na | 1\n-[ RECORD 1 ]-\na | 2\n" }
    ensures last_more { last_number (More 9) 2 ≡ 1 }
    ensures last_earlier { last_number (Earlier 9) 2 ≡ 10 }
    ensures last_between { last_number (Between 1 9) 2 ≡ 10 }
    ensures last_first { last_number (Between 2 9) 2 ≡ 1 }
    ensures no_record { last_number All 0 ≡ 0 }
    ensures most { record_number (2 ^ 64 - 1) 1 ≡ 2 ^ 64 - 1 }
{}

/// A name or a value of several lines, and a style that a value leaves open: each line ends its own.
pub fn lines_by_hand()
    ensures values { records_text (record { header = true; width = None; truncate = false; rows_shown = All }) (codes "a" ∷ []) ((codes "one\ntwo" ∷ []) ∷ [])
        ≡ codes "-[ RECORD 0 ]-\na | one\n  | two\n" }
    ensures names { records_text (record { header = true; width = None; truncate = false; rows_shown = All }) (codes "a\nb" ∷ []) ((codes "1" ∷ []) ∷ [])
        ≡ codes "-[ RECORD 0 ]-\na | 1\nb | \n" }
    ensures styles { records_text (record { header = true; width = None; truncate = false; rows_shown = All }) (codes "a" ∷ []) ((codes "\u{1b}[31mx\ny" ∷ []) ∷ [])
        ≡ codes "-[ RECORD 0 ]-\na | \u{1b}[31mx\u{1b}[39m\n  | \u{1b}[31my\u{1b}[39m\n" }
{}

/// In a width names are cut to half of it, and values are cut or wrapped in what is left; in one column names have
/// nothing and values a column.
pub fn widths_by_hand()
    ensures cut_name { fitted_lines true 5 (codes "abcdefgh") ≡ (codes "abcd" ++ 0xe2 ∷ 0x80 ∷ 0xa6 ∷ []) ∷ [] }
    ensures wrapped { records_text (record { header = true; width = Some 10; truncate = false; rows_shown = All }) (codes "a" ∷ []) ((codes "one two" ∷ []) ∷ [])
        ≡ codes "-[ RECORD \na | one \n  | two\n" }
    ensures cut { records_text (record { header = true; width = Some 10; truncate = true; rows_shown = All }) (codes "a" ∷ []) ((codes "one two" ∷ []) ∷ [])
        ≡ codes "-[ RECORD \na | one t" ++ 0xe2 ∷ 0x80 ∷ 0xa6 ∷ codes "\n" }
    ensures one_column { records_text (record { header = true; width = Some 1; truncate = false; rows_shown = All }) (codes "ab" ∷ []) ((codes "ab" ∷ []) ∷ [])
        ≡ codes "-\n | a\n | b\n" }
{}

/// A value that is wider than a head makes each rule longer, whichever record has it. A value of spaces that just fits
/// stays.
pub fn long_texts_by_hand()
    ensures value { records_text (record { header = true; width = None; truncate = false; rows_shown = All }) (codes "a" ∷ []) ((codes "1" ∷ []) ∷ (codes "12345678901234567890" ∷ []) ∷ [])
        ≡ codes "-[ RECORD 0 ]-----------\na | 1\n-[ RECORD 1 ]-----------\na | 12345678901234567890\n" }
    ensures just_fits { fitted_lines false 2 (codes "  ") ≡ codes "  " ∷ [] }
{}

/// A name that is wider than its columns is cut, and not wrapped as a value is.
pub fn names_are_cut()
    ensures { name_lines 3 (codes "abcd") ≡ map (filled_line 3) (text_lines (cut_lines 3 (codes "abcd"))) }
{}
