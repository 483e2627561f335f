//! Numbers and columns of numbers worked by hand. The functions do nothing.
ghost use Rattle.std.specs.Prelude.{◌≡◌, ◌∷◌, [], codes, encode_utf8_all, false, true};
ghost use Rattle.basinmug_columns.specs.Numbers.Columns.{is_numeric};
ghost use Rattle.basinmug_columns.specs.Numbers.Numbers.{is_number};

/// Digits, signs, points, groups, exponents and percent signs.
pub fn numbers_by_hand()
    ensures digits { is_number (codes "13960000") ≡ true }
    ensures sign { is_number (codes "-3") ≡ true }
    ensures plus { is_number (codes "+12.50") ≡ true }
    ensures point_in_front { is_number (codes ".5") ≡ true }
    ensures point_behind { is_number (codes "5.") ≡ true }
    ensures groups { is_number (codes "-1,234,567.89") ≡ true }
    ensures exponent { is_number (codes "6.02E+23") ≡ true }
    ensures whole_exponent { is_number (codes "1e-9") ≡ true }
    ensures percent { is_number (codes "12.5%") ≡ true }
    ensures nothing { is_number [] ≡ false }
    ensures sign_alone { is_number (codes "-") ≡ false }
    ensures point_alone { is_number (codes ".") ≡ false }
    ensures two_points { is_number (codes "1.2.3") ≡ false }
    ensures two_signs { is_number (codes "--1") ≡ false }
    ensures short_group { is_number (codes "1,23") ≡ false }
    ensures long_group { is_number (codes "1234,567") ≡ false }
    ensures comma_in_front { is_number (codes ",123") ≡ false }
    ensures comma_in_fraction { is_number (codes "0.123,456") ≡ false }
    ensures no_exponent { is_number (codes "1e") ≡ false }
    ensures exponent_alone { is_number (codes "e5") ≡ false }
    ensures two_percents { is_number (codes "5%%") ≡ false }
    ensures date { is_number (codes "2026-11-02") ≡ false }
    ensures letters { is_number (codes "0x1F") ≡ false }
    ensures not_a_number { is_number (codes "NaN") ≡ false }
    ensures space { is_number (codes "1 000") ≡ false }
    ensures exponent_and_percent { is_number (codes "1.5e3%") ≡ true }
    ensures percent_and_exponent { is_number (codes "5%e3") ≡ false }
    ensures groups_in_exponent { is_number (codes "1e1,000") ≡ false }
    ensures groups_and_point { is_number (codes "1,234.") ≡ true }
    ensures first_group_of_one { is_number (codes "1,234") ≡ true }
    ensures first_group_of_two { is_number (codes "12,345") ≡ true }
    ensures first_group_of_three { is_number (codes "123,456") ≡ true }
{}

/// Columns of one cell a record: all numbers, one of them with its colour and white space around it; a blank cell and one
/// that lacks; no number at all; a text among numbers; and the second column of two.
pub fn numeric_columns_by_hand()
    ensures numbers { is_numeric ((codes "1" ∷ []) ∷ (codes "-2.5%" ∷ []) ∷ []) 0 ≡ true }
    ensures styled { is_numeric ((codes "\u{1b}[31m 12\t\u{1b}[0m" ∷ []) ∷ []) 0 ≡ true }
    ensures other_space { is_numeric ((encode_utf8_all (codes "\u{a0}12") ∷ []) ∷ []) 0 ≡ true }
    ensures blank { is_numeric ((codes " \n" ∷ []) ∷ (codes "1" ∷ []) ∷ [] ∷ []) 0 ≡ true }
    ensures blanks_alone { is_numeric ((codes " " ∷ []) ∷ [] ∷ []) 0 ≡ false }
    ensures text { is_numeric ((codes "1" ∷ []) ∷ (codes "n/a" ∷ []) ∷ (codes "2" ∷ []) ∷ []) 0 ≡ false }
    ensures second { is_numeric ((codes "a" ∷ codes "1" ∷ []) ∷ []) 1 ≡ true }
    ensures no_records { is_numeric [] 0 ≡ false }
{}
