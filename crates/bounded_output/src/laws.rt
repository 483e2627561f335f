//! Laws of bounded writers, and memory filled by hand. The functions do nothing.
ghost use Rattle.std.specs.Prelude.{◌≡◌, ◌++◌, ℕ, [], List, Some, codes};
ghost use Rattle.std.specs.Io.KnownBytes.{Appends};
ghost use Rattle.bounded_output.specs.Filled.{filled, filled_from};
ghost use Rattle.bounded_output.specs.Held.{held_of, limit_of, memory_of, name_of, taken_of};
ghost use Rattle.bounded_output.specs.declared.bounded.Bounded.{Bounded as Writer};

/// What four bytes of memory hold once a text of two, of four and of six is written from their start; and memory of none.
pub fn memory_filled_by_hand()
    ensures shorter { filled (codes "....") (codes "ab") ≡ codes "ab.." }
    ensures as_long { filled (codes "....") (codes "abcd") ≡ codes "abcd" }
    ensures longer { filled (codes "....") (codes "abcdef") ≡ codes "abcd" }
    ensures no_text { filled (codes "....") [] ≡ codes "...." }
    ensures no_memory { filled [] (codes "ab") ≡ [] }
    ensures within { filled_from 1 (codes "....") (codes "ab") ≡ codes ".ab." }
    ensures over_the_end { filled_from 3 (codes "....") (codes "ab") ≡ codes "...a" }
    ensures at_the_end { filled_from 4 (codes "....") (codes "ab") ≡ codes "...." }
{}

/// A writer to which this text was written, by whatever calls, is the same but for the bytes that it took: these grew by
/// the text.
pub fn writers_take_what_is_written()
    ensures name { (before after : Writer) (text : List ℕ) → Appends (Some (held_of before)) (Some (held_of after)) text → name_of after ≡ name_of before }
    ensures limit { (before after : Writer) (text : List ℕ) → Appends (Some (held_of before)) (Some (held_of after)) text → limit_of after ≡ limit_of before }
    ensures memory { (before after : Writer) (text : List ℕ) → Appends (Some (held_of before)) (Some (held_of after)) text → memory_of after ≡ memory_of before }
    ensures taken { (before after : Writer) (text : List ℕ) → Appends (Some (held_of before)) (Some (held_of after)) text → taken_of after ≡ taken_of before ++ text }
{}
