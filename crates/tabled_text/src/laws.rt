//! Laws of the definitions that the other contracts cite, and rows worked by hand.
ghost use Rattle.std.specs.Prelude.{◌≡◌, ◌++◌, ℕ, ℤ, Bool, List, String as Bytes, [], ◌∷◌, None, Some, codes, decimal, encode_utf8, false, length, map, replicate, string_bytes, true, vec_len};
ghost use Rattle.std.specs.Borrow.{Bor};
ghost use Rattle.std.specs.Fmt.{signed_decimal};
ghost use Rattle.std.specs.Global.{Box as BoxOf};
ghost use Rattle.std.proofs.Common.{Global as Heap};
ghost use Rattle.tabled_text.specs.Fields.{bool_text, fields_or_empty, numbers, saturated};
ghost use Rattle.tabled_text.specs.Rows.{filled, longest};

use crate::cell_text::CellText;
use crate::tabled::Tabled;
use std::borrow::CowStr;

/// Fields, or names of fields, that are as many as the names are `length()` texts: a vector holds no more of
/// them than a `usize` counts.
pub fn fields_have_length<'a, T: Tabled>(fields: &Vec<CowStr<'a>>)
    ensures { vec_len fields.now ≡ length T.names → vec_len fields.now ≡ saturated (length T.names) }
{}

/// Rows of two texts and of one are two texts long, and an empty text comes after the one.
pub fn rows_are_filled()
    ensures longest { longest ((codes "a" ∷ codes "b" ∷ []) ∷ (codes "c" ∷ []) ∷ []) ≡ 2 }
    ensures filled { filled ((codes "a" ∷ codes "b" ∷ []) ∷ (codes "c" ∷ []) ∷ []) ≡ (codes "a" ∷ codes "b" ∷ []) ∷ (codes "c" ∷ [] ∷ []) ∷ [] }
    ensures nothing { filled [] ≡ [] }
{}

/// Fields by number, those of a missing value, and yes and no.
pub fn fields_by_hand()
    ensures numbers { numbers 11 ≡ codes "0" ∷ codes "1" ∷ codes "2" ∷ codes "3" ∷ codes "4" ∷ codes "5" ∷ codes "6" ∷ codes "7" ∷ codes "8" ∷ codes "9" ∷ codes "10" ∷ [] }
    ensures missing { fields_or_empty (λ text. text ∷ text ∷ []) 2 None ≡ [] ∷ [] ∷ [] }
    ensures there { fields_or_empty (λ text. text ∷ text ∷ []) 2 (Some (codes "a")) ≡ codes "a" ∷ codes "a" ∷ [] }
    ensures yes { bool_text true ≡ codes "true" }
    ensures no { bool_text false ≡ codes "false" }
{}

/// The text of each single value, and which of them lend theirs.
pub fn values_have_their_texts<'a>()
    ensures borrowed { (value : Bor (List ℕ)) → ⟦<&'a str as CellText>⟧.text value ≡ value.now }
    ensures owned { (value : Bytes Heap) → ⟦<String as CellText>⟧.text value ≡ string_bytes value }
    ensures character { (value : ℕ) → ⟦<char as CellText>⟧.text value ≡ encode_utf8 value }
    ensures truth { (value : Bool) → ⟦<bool as CellText>⟧.text value ≡ bool_text value }
    ensures of_u8 { (value : ℕ) → ⟦<u8 as CellText>⟧.text value ≡ decimal value }
    ensures of_u16 { (value : ℕ) → ⟦<u16 as CellText>⟧.text value ≡ decimal value }
    ensures of_u32 { (value : ℕ) → ⟦<u32 as CellText>⟧.text value ≡ decimal value }
    ensures of_u64 { (value : ℕ) → ⟦<u64 as CellText>⟧.text value ≡ decimal value }
    ensures of_u128 { (value : ℕ) → ⟦<u128 as CellText>⟧.text value ≡ decimal value }
    ensures of_usize { (value : ℕ) → ⟦<usize as CellText>⟧.text value ≡ decimal value }
    ensures of_i8 { (value : ℤ) → ⟦<i8 as CellText>⟧.text value ≡ signed_decimal value }
    ensures of_i16 { (value : ℤ) → ⟦<i16 as CellText>⟧.text value ≡ signed_decimal value }
    ensures of_i32 { (value : ℤ) → ⟦<i32 as CellText>⟧.text value ≡ signed_decimal value }
    ensures of_i64 { (value : ℤ) → ⟦<i64 as CellText>⟧.text value ≡ signed_decimal value }
    ensures of_i128 { (value : ℤ) → ⟦<i128 as CellText>⟧.text value ≡ signed_decimal value }
    ensures of_isize { (value : ℤ) → ⟦<isize as CellText>⟧.text value ≡ signed_decimal value }
    ensures borrowed_is_there { ⟦<&'a str as CellText>⟧.is_there ≡ true }
    ensures owned_is_there { ⟦<String as CellText>⟧.is_there ≡ true }
    ensures truth_is_there { ⟦<bool as CellText>⟧.is_there ≡ true }
{}

/// A single value is a row of one text, under the name of its type.
pub fn single_values_are_rows_of_one_text<'a>()
    ensures borrowed { (value : Bor (List ℕ)) → ⟦<&'a str as Tabled>⟧.texts value ≡ value.now ∷ [] }
    ensures borrowed_name { ⟦<&'a str as Tabled>⟧.names ≡ codes "&str" ∷ [] }
    ensures owned { (value : Bytes Heap) → ⟦<String as Tabled>⟧.texts value ≡ string_bytes value ∷ [] }
    ensures owned_name { ⟦<String as Tabled>⟧.names ≡ codes "String" ∷ [] }
    ensures character { (value : ℕ) → ⟦<char as Tabled>⟧.texts value ≡ encode_utf8 value ∷ [] }
    ensures character_name { ⟦<char as Tabled>⟧.names ≡ codes "char" ∷ [] }
    ensures truth { (value : Bool) → ⟦<bool as Tabled>⟧.texts value ≡ bool_text value ∷ [] }
    ensures truth_name { ⟦<bool as Tabled>⟧.names ≡ codes "bool" ∷ [] }
    ensures of_u8 { (value : ℕ) → ⟦<u8 as Tabled>⟧.texts value ≡ decimal value ∷ [] }
    ensures of_u8_name { ⟦<u8 as Tabled>⟧.names ≡ codes "u8" ∷ [] }
    ensures of_u16 { (value : ℕ) → ⟦<u16 as Tabled>⟧.texts value ≡ decimal value ∷ [] }
    ensures of_u16_name { ⟦<u16 as Tabled>⟧.names ≡ codes "u16" ∷ [] }
    ensures of_u32 { (value : ℕ) → ⟦<u32 as Tabled>⟧.texts value ≡ decimal value ∷ [] }
    ensures of_u32_name { ⟦<u32 as Tabled>⟧.names ≡ codes "u32" ∷ [] }
    ensures of_u64 { (value : ℕ) → ⟦<u64 as Tabled>⟧.texts value ≡ decimal value ∷ [] }
    ensures of_u64_name { ⟦<u64 as Tabled>⟧.names ≡ codes "u64" ∷ [] }
    ensures of_u128 { (value : ℕ) → ⟦<u128 as Tabled>⟧.texts value ≡ decimal value ∷ [] }
    ensures of_u128_name { ⟦<u128 as Tabled>⟧.names ≡ codes "u128" ∷ [] }
    ensures of_usize { (value : ℕ) → ⟦<usize as Tabled>⟧.texts value ≡ decimal value ∷ [] }
    ensures of_usize_name { ⟦<usize as Tabled>⟧.names ≡ codes "usize" ∷ [] }
    ensures of_i8 { (value : ℤ) → ⟦<i8 as Tabled>⟧.texts value ≡ signed_decimal value ∷ [] }
    ensures of_i8_name { ⟦<i8 as Tabled>⟧.names ≡ codes "i8" ∷ [] }
    ensures of_i16 { (value : ℤ) → ⟦<i16 as Tabled>⟧.texts value ≡ signed_decimal value ∷ [] }
    ensures of_i16_name { ⟦<i16 as Tabled>⟧.names ≡ codes "i16" ∷ [] }
    ensures of_i32 { (value : ℤ) → ⟦<i32 as Tabled>⟧.texts value ≡ signed_decimal value ∷ [] }
    ensures of_i32_name { ⟦<i32 as Tabled>⟧.names ≡ codes "i32" ∷ [] }
    ensures of_i64 { (value : ℤ) → ⟦<i64 as Tabled>⟧.texts value ≡ signed_decimal value ∷ [] }
    ensures of_i64_name { ⟦<i64 as Tabled>⟧.names ≡ codes "i64" ∷ [] }
    ensures of_i128 { (value : ℤ) → ⟦<i128 as Tabled>⟧.texts value ≡ signed_decimal value ∷ [] }
    ensures of_i128_name { ⟦<i128 as Tabled>⟧.names ≡ codes "i128" ∷ [] }
    ensures of_isize { (value : ℤ) → ⟦<isize as Tabled>⟧.texts value ≡ signed_decimal value ∷ [] }
    ensures of_isize_name { ⟦<isize as Tabled>⟧.names ≡ codes "isize" ∷ [] }
{}

/// What holds one value, or none, is a row of its texts under its names; none is a row of empty texts. The
/// members of an array have numbers for names, and those of a tuple come one after the other.
pub fn values_of_values_have_their_texts<
    'a,
    A: Tabled,
    B: Tabled,
    C: Tabled,
    D: Tabled,
    E: Tabled,
    F: Tabled,
    T: CellText,
    const N: usize,
>()
where
    A: 'a,
    ensures referred { (value : Bor A) → ⟦<&'a A as Tabled>⟧.texts value ≡ A.texts value.now }
    ensures referred_names { ⟦<&'a A as Tabled>⟧.names ≡ A.names }
    ensures boxed { (value : BoxOf A) → ⟦<Box<A> as Tabled>⟧.texts value ≡ A.texts value.value }
    ensures boxed_names { ⟦<Box<A> as Tabled>⟧.names ≡ A.names }
    ensures some { (value : A) → ⟦<Option<A> as Tabled>⟧.texts (Some value) ≡ A.texts value }
    ensures none { ⟦<Option<A> as Tabled>⟧.texts None ≡ replicate (length A.names) [] }
    ensures option_names { ⟦<Option<A> as Tabled>⟧.names ≡ A.names }
    ensures array { (values : List T) → ⟦<[T; N] as Tabled>⟧.texts values ≡ map T.text values }
    ensures array_names { ⟦<[T; N] as Tabled>⟧.names ≡ numbers N }
    ensures one { (value : A) → ⟦<(A,) as Tabled>⟧.texts (record { 0 = value }) ≡ A.texts value }
    ensures one_names { ⟦<(A,) as Tabled>⟧.names ≡ A.names }
    ensures two { (value : A × B) → ⟦<(A, B) as Tabled>⟧.texts value ≡ A.texts value.0 ++ B.texts value.1 }
    ensures two_names { ⟦<(A, B) as Tabled>⟧.names ≡ A.names ++ B.names }
    ensures three { (value : A × B × C) → ⟦<(A, B, C) as Tabled>⟧.texts value ≡ A.texts value.0 ++ B.texts value.1 ++ C.texts value.2 }
    ensures three_names { ⟦<(A, B, C) as Tabled>⟧.names ≡ A.names ++ B.names ++ C.names }
    ensures four { (value : A × B × C × D) → ⟦<(A, B, C, D) as Tabled>⟧.texts value ≡ A.texts value.0 ++ B.texts value.1 ++ C.texts value.2 ++ D.texts value.3 }
    ensures four_names { ⟦<(A, B, C, D) as Tabled>⟧.names ≡ A.names ++ B.names ++ C.names ++ D.names }
    ensures five { (value : A × B × C × D × E) → ⟦<(A, B, C, D, E) as Tabled>⟧.texts value ≡ A.texts value.0 ++ B.texts value.1 ++ C.texts value.2 ++ D.texts value.3 ++ E.texts value.4 }
    ensures five_names { ⟦<(A, B, C, D, E) as Tabled>⟧.names ≡ A.names ++ B.names ++ C.names ++ D.names ++ E.names }
    ensures six { (value : A × B × C × D × E × F) →
        ⟦<(A, B, C, D, E, F) as Tabled>⟧.texts value ≡ A.texts value.0 ++ B.texts value.1 ++ C.texts value.2 ++ D.texts value.3
        ++ E.texts value.4 ++ F.texts value.5 }
    ensures six_names { ⟦<(A, B, C, D, E, F) as Tabled>⟧.names ≡ A.names ++ B.names ++ C.names ++ D.names ++ E.names ++ F.names }
{}
