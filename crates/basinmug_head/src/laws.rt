//! Heads of texts that were worked out by hand. The functions do nothing.
ghost use Rattle.std.specs.Prelude.{◌≡◌, ◌∷◌, [], None, Some, codes, false, true};
ghost use Rattle.basinmug_head.specs.Fronts.{TellsFields};
ghost use Rattle.basinmug_head.specs.Heads.{IsHeadOf, asked_or_found, records_of, records_read};

/// What separates the fields of bytes, by what is requested, by their first line, by a line that names it, and by the name
/// of their file; the records below such a line and after a byte order mark; and the first records of texts: one of two,
/// one whose field goes over two lines, all where there are fewer, and none.
pub fn heads_by_hand()
    ensures asked { asked_or_found (Some 0x3b) (codes "a,b") None ≡ record { delimiter = 0x3b; start = 0 } }
    ensures found { asked_or_found None (codes "a|b") None ≡ record { delimiter = 0x7c; start = 0 } }
    ensures named { asked_or_found None (codes "sep=;\na,b") None ≡ record { delimiter = 0x3b; start = 5 } }
    ensures records { records_of (record { delimiter = 0x3b; start = 5 }) (codes "sep=;\na;b\nc") ≡ (codes "a" ∷ codes "b" ∷ []) ∷ (codes "c" ∷ []) ∷ [] }
    ensures one { IsHeadOf (Some 0x2c) None 1 (codes "a,b\n") (record { delimiter = 0x2c; start = 0 }) (codes "a,b\nc,d\n") }
    ensures two_lines { IsHeadOf (Some 0x2c) None 1 (codes "\"a\n\",b\n") (record { delimiter = 0x2c; start = 0 }) (codes "\"a\n\",b\nc,d\n") }
    ensures few { IsHeadOf (Some 0x2c) None 7 (codes "a\nb") (record { delimiter = 0x2c; start = 0 }) (codes "a\nb") }
    ensures none { IsHeadOf (Some 0x2c) None 0 [] (record { delimiter = 0x2c; start = 0 }) (codes "a\n") }
    ensures by_name { asked_or_found None (codes "a|b") (Some (codes "x.tsv")) ≡ record { delimiter = 0x09; start = 0 } }
    ensures head_by_name { IsHeadOf None (Some (codes "x.tsv")) 1 (codes "a|b\n") (record { delimiter = 0x09; start = 0 }) (codes "a|b\nc\n") }
    ensures marked { records_of (record { delimiter = 0x2c; start = 0 }) (0xef ∷ 0xbb ∷ 0xbf ∷ codes "a,b") ≡ (codes "a" ∷ codes "b" ∷ []) ∷ [] }
    ensures asked_before_a_name { asked_or_found (Some 0x2c) (codes "sep=;\na") None ≡ record { delimiter = 0x2c; start = 0 } }
{}

/// Prefixes that say what separates the fields: any where that is requested, else those whose first line is whole.
pub fn fronts_by_hand()
    ensures requested { TellsFields (Some 0x2c) [] }
    ensures whole { TellsFields None (codes "a;b\n") }
    ensures not_whole { ¬ TellsFields None (codes "a;b") }
    ensures nothing { ¬ TellsFields None [] }
{}

/// How many records are read where three below the header are requested, none, the greatest number, and no number.
pub fn records_read_by_hand()
    ensures header { records_read true (Some 3) ≡ Some 4 }
    ensures no_header { records_read false (Some 3) ≡ Some 3 }
    ensures header_alone { records_read true (Some 0) ≡ Some 1 }
    ensures nothing { records_read false (Some 0) ≡ Some 0 }
    ensures greatest { records_read true (Some 18446744073709551615) ≡ Some 18446744073709551615 }
    ensures all { records_read true None ≡ None }
{}

/// Bytes that are no head of a text with one record: they have two, or none, or are not at its start, or another byte than
/// the requested one is said to separate their fields.
pub fn no_heads_by_hand()
    ensures two { ¬ IsHeadOf (Some 0x2c) None 1 (codes "a\nb\n") (record { delimiter = 0x2c; start = 0 }) (codes "a\nb\n") }
    ensures none { ¬ IsHeadOf (Some 0x2c) None 1 [] (record { delimiter = 0x2c; start = 0 }) (codes "a\nb\n") }
    ensures later { ¬ IsHeadOf (Some 0x2c) None 1 (codes "b\n") (record { delimiter = 0x2c; start = 0 }) (codes "a\nb\n") }
    ensures another_byte { ¬ IsHeadOf (Some 0x2c) None 1 (codes "a;b\n") (record { delimiter = 0x3b; start = 0 }) (codes "a;b\n") }
{}
