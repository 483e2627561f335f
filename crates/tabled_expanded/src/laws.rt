//! Laws of what the other contracts cite, tables, cuts and escapes worked by hand, and a closure that gives heads.
ghost use Rattle.std.specs.Prelude.{◌≡◌, ◌↔◌, ℕ, IfOk, List, Result, String as Bytes, Vec as List1, [], ◌∷◌, ◌++◌, codes, length, replicate, string_bytes, true, false};
ghost use Rattle.std.specs.declared.alloc.Global.{Global as Heap};
ghost use Rattle.grid_config_values.specs.declared.fault.Fault.{Fault as TableFault};
ghost use Rattle.tabled_expanded.specs.Cutting.{Fields, Values, can_be_truncated, cut_for, cut_text};
ghost use Rattle.tabled_expanded.specs.Escapes.{escaped};
ghost use Rattle.tabled_expanded.specs.Expanded.{expanded_text, joined_lines, table_of_rows};
ghost use Rattle.tabled_expanded.specs.Heads.{GivesNumber, record_number};
ghost use Rattle.tabled_expanded.specs.Tables.{expanded};
ghost use Rattle.tabled_expanded.specs.declared.table.ExtendedTable.{ExtendedTable as OneTable};
ghost use Rattle.tabled_expanded.specs.declared.template.RecordNumber.{RecordNumber as Numbers};
ghost use Rattle.tabled_text.specs.Rows.{text_rows};

use crate::given::Given;
use crate::table::ExtendedTable;
use crate::template::{RecordNumber, Template};
use grid_config_values::Fault;
use std::alloc::Global;

/// A table that is made of rows has the first as the names of the fields, and the others as records.
pub fn rows_are_tables()
    ensures { (rows : List1 (List1 (Bytes Heap) Heap) Heap) (table : OneTable Numbers) →
        ⟦<ExtendedTable<RecordNumber> as From<Vec<Vec<String>>>>⟧.from_gives rows table →
        expanded table ≡ table_of_rows (text_rows rows.items) }
{}

/// The head of a record has its number, or is refused for memory, and can always be given. Or it is what a given
/// function returns, provided that the function may be called for each number.
pub fn heads_are_given<F: Fn(Global, usize) -> Result<String, Fault>>()
    ensures number { (template : Numbers) (number : ℕ) (answer : Result (Bytes Heap) TableFault) → ⟦<RecordNumber as Template>⟧.gives template number answer ↔ GivesNumber number answer }
    ensures always { (template : Numbers) → ⟦<RecordNumber as Template>⟧.can_give template }
    ensures function { (function : F) (number : ℕ) (answer : Result (Bytes Heap) TableFault) →
        ⟦<Given<F> as Template>⟧.gives function number answer ↔ ((alloc : Heap) × F.post function alloc number answer) }
    ensures callable { (function : F) → F.IsAlwaysCallable function → ⟦<Given<F> as Template>⟧.can_give function }
{}

/// Clones of what gives the heads by number are the same, and never refused. One of a given function is a clone
/// of it, and never refused where that never is.
pub fn clones_are_the_same<F: Clone>()
    ensures numbers { (source clone : Numbers) → ⟦<RecordNumber as Clone>⟧.is_clone source clone → clone ≡ source }
    ensures numbers_come { (source : Numbers) → ⟦<RecordNumber as Clone>⟧.is_infallible source }
    ensures function { (source clone : F) → ⟦<Given<F> as Clone>⟧.is_clone source clone → F.is_clone source clone }
    ensures function_comes { (source : F) → F.is_infallible source → ⟦<Given<F> as Clone>⟧.is_infallible source }
{}

/// A closure that may be called for each number is a template, and its table is printed: neither call wants a proof.
pub fn closures_give_heads(alloc: Global, table: ExtendedTable) -> Result<String, Fault>
    ensures { IfOk result (λ text. (heads : List (List ℕ)) × (length heads ≡ length (expanded table).records) × (string_bytes text ≡ expanded_text (expanded table) heads)) }
{
    let days = table.template(|alloc: Global, day: usize| -> Result<String, Fault> {
        Ok(format!(in alloc; "day {day}")?)
    });
    days.to_string(alloc)
}

/// Heads are as wide as the widest line, each byte of them counted. They have a `+` where they leave the place of the
/// bar. A record may have fewer values than there are fields, or more.
pub fn tables_by_hand()
    ensures numbered { expanded_text (table_of_rows ((codes "name" ∷ codes "x" ∷ []) ∷ (codes "C" ∷ codes "1" ∷ []) ∷ [])) (record_number 0 ∷ [])
        ≡ joined_lines (codes "-[ RECORD 0 ]-" ∷ codes "name | C" ∷ codes "x    | 1" ∷ []) }
    ensures given { expanded_text (table_of_rows ((codes "name" ∷ []) ∷ (codes "C" ∷ []) ∷ [])) (codes "r0" ∷ [])
        ≡ joined_lines (codes "-r0--+--" ∷ codes "name | C" ∷ []) }
    ensures bytes { expanded_text (table_of_rows ((codes "name" ∷ []) ∷ (codes "C" ∷ []) ∷ [])) ((0xc3 ∷ 0xa9 ∷ []) ∷ [])
        ≡ joined_lines ((0x2d ∷ 0xc3 ∷ 0xa9 ∷ codes "--+--") ∷ codes "name | C" ∷ []) }
    ensures many_bytes { expanded_text (table_of_rows ((codes "name" ∷ []) ∷ (codes "C" ∷ []) ∷ [])) ((0xe6 ∷ 0xbc ∷ 0xa2 ∷ 0xe6 ∷ 0xbc ∷ 0xa2 ∷ []) ∷ [])
        ≡ joined_lines ((0x2d ∷ 0xe6 ∷ 0xbc ∷ 0xa2 ∷ 0xe6 ∷ 0xbc ∷ 0xa2 ∷ 0x2d ∷ []) ∷ codes "name | C" ∷ []) }
    ensures wide { expanded_text (table_of_rows ((codes "abcdefghijklm" ∷ []) ∷ (codes "abcdefghijklmn" ∷ []) ∷ [])) (record_number 0 ∷ [])
        ≡ joined_lines (codes "-[ RECORD 0 ]-+---------------" ∷ codes "abcdefghijklm | abcdefghijklmn" ∷ []) }
    ensures taken { expanded_text (table_of_rows ((codes "abcdefghijkl" ∷ []) ∷ (codes "abcdefghijklmn" ∷ []) ∷ [])) (record_number 0 ∷ [])
        ≡ joined_lines (codes "-[ RECORD 0 ]----------------" ∷ codes "abcdefghijkl | abcdefghijklmn" ∷ []) }
    ensures fewer { expanded_text (table_of_rows ((codes "a" ∷ codes "b" ∷ []) ∷ (codes "1" ∷ []) ∷ [])) (record_number 0 ∷ [])
        ≡ joined_lines (codes "-[ RECORD 0 ]-" ∷ codes "a | 1" ∷ []) }
    ensures more { expanded_text (table_of_rows ((codes "a" ∷ []) ∷ (codes "1" ∷ codes "2" ∷ []) ∷ [] ∷ [])) (record_number 0 ∷ record_number 1 ∷ [])
        ≡ joined_lines (codes "-[ RECORD 0 ]-" ∷ codes "a | 1" ∷ codes "-[ RECORD 1 ]-" ∷ []) }
    ensures styled { expanded_text (table_of_rows (((0x1b ∷ codes "[1mb") ∷ codes "abcdefg" ∷ []) ∷ (codes "1" ∷ codes "2" ∷ []) ∷ [])) (record_number 0 ∷ [])
        ≡ joined_lines (codes "-[ RECORD 0 ]-" ∷ (0x1b ∷ codes "[1mb   | 1") ∷ codes "abcdefg | 2" ∷ []) }
    ensures nothing { expanded_text (table_of_rows ((codes "a" ∷ []) ∷ [])) [] ≡ [] }
{}

/// Values are cut where the fields leave them columns. Else the fields are cut, and the values to nothing: what is
/// left is the suffix where there was a text.
pub fn cuts_by_hand()
    ensures values { cut_for 14 [] (table_of_rows ((codes "name" ∷ []) ∷ (codes "abcdefghij" ∷ []) ∷ [])) ≡ Values 7 }
    ensures with_suffix { cut_for 14 (codes "..") (table_of_rows ((codes "name" ∷ []) ∷ (codes "abcdefghij" ∷ []) ∷ [])) ≡ Values 3 }
    ensures fields { cut_for 15 (codes "..") (table_of_rows ((codes "abcdefghijkl" ∷ []) ∷ (codes "x" ∷ []) ∷ [])) ≡ Fields 8 }
    ensures lost { cut_text 0 (codes "..") (codes "x") ≡ codes ".." }
    ensures not_lost { cut_text 0 (codes "..") [] ≡ [] }
    ensures has_room { can_be_truncated 14 [] (table_of_rows ((codes "name" ∷ []) ∷ (codes "abcdefghij" ∷ []) ∷ [])) ≡ true }
    ensures has_none { can_be_truncated 13 [] (table_of_rows ((codes "name" ∷ codes "x" ∷ []) ∷ (codes "C" ∷ codes "1" ∷ []) ∷ [])) ≡ false }
    ensures suffix_fits { can_be_truncated 14 (codes ".....") (table_of_rows ((codes "abcdefghijkl" ∷ []) ∷ (codes "x" ∷ []) ∷ [])) ≡ true }
    ensures values_have_none { can_be_truncated 14 (codes "..") (table_of_rows ((codes "abcdefgh" ∷ []) ∷ (codes "x" ∷ []) ∷ [])) ≡ false }
    ensures ten_records { can_be_truncated 14 [] (table_of_rows ((codes "n" ∷ []) ∷ replicate 10 (codes "x" ∷ []))) ≡ false }
    ensures suffix_does_not { can_be_truncated 14 (codes "......") (table_of_rows ((codes "abcdefghijkl" ∷ []) ∷ (codes "x" ∷ []) ∷ [])) ≡ false }
{}

/// Each kind of escape, and what stays.
pub fn escapes_by_hand()
    ensures own { escaped (0x00 ∷ 0x09 ∷ 0x0d ∷ 0x0a ∷ 0x27 ∷ 0x22 ∷ 0x5c ∷ []) ≡ codes "\\0\\t\\r\\n\\'\\\"\\\\" }
    ensures sequence { escaped (0x1b ∷ codes "[31mx") ≡ codes "\\u{1b}[31mx" }
    ensures controls { escaped (0x01 ∷ 0x0f ∷ 0x1f ∷ 0x20 ∷ 0x7e ∷ 0x7f ∷ []) ≡ codes "\\u{1}\\u{f}\\u{1f} ~\\u{7f}" }
    ensures past_ascii { escaped (0xc2 ∷ 0x80 ∷ 0xc2 ∷ 0x9f ∷ 0xc2 ∷ 0xa0 ∷ 0xe6 ∷ 0xbc ∷ 0xa2 ∷ []) ≡ codes "\\u{80}\\u{9f}" ++ (0xc2 ∷ 0xa0 ∷ 0xe6 ∷ 0xbc ∷ 0xa2 ∷ []) }
{}
