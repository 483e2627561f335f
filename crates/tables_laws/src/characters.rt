//! Characters whose columns add up in every text of them. Definitions and laws alone.
//!
//! Laws of additive characters, each the contract of a function that does nothing.
ghost use Rattle.std.specs.Prelude.{◌≡◌, ◌∷◌, ◌+◌, ◌++◌, ◌≤◌, ℕ, [], List, not, true};
ghost use Rattle.std.specs.List.{list_all, sum_by};
ghost use Rattle.grid_records_measure.specs.Cutting.{replacement};
ghost use Rattle.grid_records_measure.specs.Measures.{line_cost, measure, own_width};
ghost use Rattle.grid_records_measure.specs.PlainCharacters.{is_plain_character};
ghost use Rattle.grid_records_measure.specs.SimpleCharacters.{takes};
ghost use Rattle.tables_laws.specs.Characters.AdditiveCharacters.{are_additive, columns_of, is_additive, is_spacing};

/// Where all characters are additive, they measure as one text the sum of the columns that they take one by one. So
/// they do in any part of the text and with any additive characters around it. Where each takes a column or two, that
/// is also what they cost.
pub fn additive_characters_add_up()
    ensures own { (c : ℕ) → is_additive c ≡ true → own_width c ≡ columns_of c }
    ensures few { (c : ℕ) → columns_of c ≤ 2 }
    ensures sum { (characters : List ℕ) → are_additive characters ≡ true → measure characters ≡ sum_by columns_of characters }
    ensures parts { (front part behind : List ℕ) → are_additive (front ++ (part ++ behind)) ≡ true →
        measure (front ++ (part ++ behind)) ≡ measure front + (measure part + measure behind) }
    ensures costs { (characters : List ℕ) → list_all is_spacing characters ≡ true → line_cost characters ≡ measure characters }
{}

/// Plain characters are additive, and take a column or two; simple ones are additive, and take what their tables say.
/// So are the marks in the place of what is cut, U+FFFD and U+2026 HORIZONTAL ELLIPSIS.
pub fn classes_that_are_additive()
    ensures plain { (c : ℕ) → is_plain_character c ≡ true → is_spacing c ≡ true }
    ensures simple { (c columns : ℕ) → takes c columns ≡ true → is_additive c ≡ true }
    ensures takes { (c columns : ℕ) → takes c columns ≡ true → columns_of c ≡ columns }
    ensures mark { is_spacing replacement ≡ true }
    ensures ellipsis { is_spacing 0x2026 ≡ true }
{}

/// Some by hand: a letter under its acute, which costs a column and takes none, two ideographs, a check mark and a
/// face, a word of Hebrew. Others show why some characters are in no range: an alef joins the lam before it, a selector
/// widens a heart, and a modifier colours a hand. Together these measure other than by themselves.
pub fn additive_characters_by_hand()
    ensures acute { (measure (0x65 ∷ 0x301 ∷ []) ≡ 1) × (line_cost (0x65 ∷ 0x301 ∷ []) ≡ 2) }
    ensures ideographs { measure (0x65e5 ∷ 0x672c ∷ []) ≡ 4 }
    ensures faces { measure (0x2705 ∷ 0x20 ∷ 0x1f600 ∷ []) ≡ 5 }
    ensures hebrew { measure (0x5e9 ∷ 0x5dc ∷ 0x5d5 ∷ 0x5dd ∷ []) ≡ 4 }
    ensures alef { (measure (0x644 ∷ 0x627 ∷ []) ≡ 1) × (own_width 0x644 ≡ 1) × (own_width 0x627 ≡ 1) }
    ensures selector { (measure (0x2764 ∷ 0xfe0f ∷ []) ≡ 2) × (own_width 0x2764 ≡ 1) × (own_width 0xfe0f ≡ 0) }
    ensures modifier { (measure (0x1f44d ∷ 0x1f3fd ∷ []) ≡ 2) × (own_width 0x1f44d ≡ 2) × (own_width 0x1f3fd ≡ 2) }
{}

/// Which characters are additive, by hand. These are letters of Hebrew and Devanagari, a vowel sign, Thai, Hangul, kana
/// and ideographs, a fullwidth letter, symbols and faces, box drawing and Braille. These are not: an alef, a joiner, a
/// selector, the keycap, a modifier, a regional indicator, a tab and an ESC.
pub fn additive_classes_by_hand()
    ensures additive { are_additive (0x5e9 ∷ 0x915 ∷ 0x93f ∷ 0xe01 ∷ 0xac00 ∷ 0x3042 ∷ 0x65e5 ∷ 0xff21 ∷ 0x2192 ∷ 0x1f600 ∷ 0x2502 ∷ 0x28ff ∷ []) ≡ true }
    ensures others { list_all (λ c. not (is_additive c)) (0x627 ∷ 0x200d ∷ 0xfe0f ∷ 0x20e3 ∷ 0x1f3fd ∷ 0x1f1e6 ∷ 0x9 ∷ 0x1b ∷ []) ≡ true }
    ensures spacing { list_all is_spacing (0x5e9 ∷ 0xe01 ∷ 0x65e5 ∷ 0x1f600 ∷ []) ≡ true }
    ensures marks { list_all (λ c. not (is_spacing c)) (0x301 ∷ 0x5b0 ∷ 0x94d ∷ []) ≡ true }
{}
