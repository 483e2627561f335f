//! What is left out of a first line, and what is found in texts that were worked by hand. The functions do nothing.
ghost use Rattle.std.specs.Prelude.{◌≡◌, ◌<◌, ◌∷◌, ◌++◌, ℕ, List, [], None, Option, Some, codes, false, length, take, true};
ghost use Rattle.std.specs.List.{filter, range_with_len};
ghost use Rattle.ansi_scan.specs.Sequences.{IsSgr};
ghost use Rattle.basinmug_delimiter.specs.Choosing.{delimiter_in};
ghost use Rattle.basinmug_delimiter.specs.Finding.{found_in};
ghost use Rattle.basinmug_delimiter.specs.FirstLines.{HasFirstLine};
ghost use Rattle.basinmug_delimiter.specs.Names.{means_tab};
ghost use Rattle.basinmug_delimiter.specs.Preamble.{can_delimit, tells_mark};
ghost use Rattle.basinmug_delimiter.specs.Sequences.{rendition_len};
ghost use Rattle.basinmug_delimiter.specs.declared.Found.{Found};

/// The sequences that are left out are those of the kind `Sgr` of `ansi_scan`: what is found at the start is one, and
/// each one at the start is found.
pub fn sequences_are_renditions()
    ensures found { (bytes : List ℕ) → 0 < rendition_len bytes → IsSgr (take (rendition_len bytes) bytes) }
    ensures all { (form after : List ℕ) → IsSgr form → rendition_len (form ++ after) ≡ length form }
{}

/// First lines, and the byte that they choose.
pub fn first_lines_by_hand()
    ensures commas { delimiter_in (codes "a,b") ≡ 0x2c }
    ensures semicolons { delimiter_in (codes "a;b;c,d") ≡ 0x3b }
    ensures bars { delimiter_in (codes "a|b|c;d\n;;;;") ≡ 0x7c }
    ensures one_tab { delimiter_in (codes "city, state\tpop") ≡ 0x09 }
    ensures decimal_commas { delimiter_in (codes "1,5;2,5;3,5") ≡ 0x3b }
    ensures numbers_alone { delimiter_in (codes "1,5|2,5") ≡ 0x7c }
    ensures comma_first { delimiter_in (codes "a,b;c|d") ≡ 0x2c }
    ensures semicolon_before_bar { delimiter_in (codes "a;b|c") ≡ 0x3b }
    ensures colored { delimiter_in (0x1b ∷ (codes "[1;31;4ma,b" ++ 0x1b ∷ codes "[0m\n")) ≡ 0x2c }
    ensures no_color { delimiter_in (0x1b ∷ codes "[1;31;4,b") ≡ 0x3b }
    ensures quoted { delimiter_in (codes "\"a;b;c\",d") ≡ 0x2c }
    ensures quoted_lines { delimiter_in (codes "\"a\n;\",b;c;d\n,,,,") ≡ 0x3b }
    ensures two_quotes { delimiter_in (codes "\"a\"\";;\",b") ≡ 0x2c }
    ensures inches { delimiter_in (codes "5\" disk,b") ≡ 0x2c }
    ensures never_closed { delimiter_in (codes "\"a;b;c,d\n\t") ≡ 0x3b }
    ensures blank_lines { delimiter_in (codes "\r\n\n\ra;b\r,,") ≡ 0x3b }
    ensures one_column { delimiter_in (codes "name\na;b") ≡ 0x2c }
    ensures nothing { delimiter_in [] ≡ 0x2c }
    ensures quoted_behind_a_comma { delimiter_in (codes "a,\"b;c;d\"") ≡ 0x2c }
    ensures quoted_behind_a_semicolon { delimiter_in (codes "a;\"b,c,d\"") ≡ 0x3b }
    ensures quoted_behind_a_bar { delimiter_in (codes "a|\"b,c,d\"") ≡ 0x7c }
    ensures quoted_tab { delimiter_in (codes "\"a\tb\",c") ≡ 0x2c }
    ensures digit_behind_a_sequence { delimiter_in (0x31 ∷ 0x1b ∷ codes "[m,5;6") ≡ 0x2c }
    ensures behind_a_quoted_field { delimiter_in (codes "\"a\";\"b\"") ≡ 0x3b }
    ensures first_byte { delimiter_in (codes ";a") ≡ 0x3b }
    ensures empty_fields { delimiter_in (codes "a;;b,c") ≡ 0x3b }
    ensures digit_before_a_comma { delimiter_in (codes "no1,b;c") ≡ 0x2c }
    ensures digit_after_a_comma { delimiter_in (codes "a,1;b") ≡ 0x2c }
    ensures quotes_in_a_field { delimiter_in (codes "a \"b;c;d\",e") ≡ 0x3b }
{}

/// Names of files, and whether they say that tabs separate fields.
pub fn names_by_hand()
    ensures tsv { means_tab (Some (codes "a.tsv")) ≡ true }
    ensures tab { means_tab (Some (codes "dir.csv/b.tab")) ≡ true }
    ensures capitals { means_tab (Some (codes "A.TSV")) ≡ true }
    ensures ending_alone { means_tab (Some (codes ".Tab")) ≡ true }
    ensures csv { means_tab (Some (codes "a.csv")) ≡ false }
    ensures longer { means_tab (Some (codes "a.tsv.gz")) ≡ false }
    ensures no_point { means_tab (Some (codes "tsv")) ≡ false }
    ensures none { means_tab None ≡ false }
{}

/// Bytes and what is found in them.
pub fn found_by_hand()
    ensures plain { found_in (codes "a;b") None ≡ record { delimiter = 0x3b; start = 0 } }
    ensures marked { found_in (0xef ∷ 0xbb ∷ 0xbf ∷ codes "\"a;b;\",c") None ≡ record { delimiter = 0x2c; start = 0 } }
    ensures by_name { found_in (codes "a;b") (Some (codes "x.tsv")) ≡ record { delimiter = 0x09; start = 0 } }
    ensures other_name { found_in (codes "a;b") (Some (codes "x.csv")) ≡ record { delimiter = 0x3b; start = 0 } }
    ensures no_text { found_in (0xff ∷ 0x7c ∷ 0xfe ∷ []) None ≡ record { delimiter = 0x7c; start = 0 } }
    ensures named { found_in (codes "sep=;\r\na;b,c,d") None ≡ record { delimiter = 0x3b; start = 5 } }
    ensures named_after_mark { found_in (0xef ∷ 0xbb ∷ 0xbf ∷ codes "sep=^\na^b") None ≡ record { delimiter = 0x5e; start = 8 } }
    ensures named_in_tabs { found_in (codes "sep=,\na,b") (Some (codes "x.tsv")) ≡ record { delimiter = 0x2c; start = 5 } }
    ensures named_alone { found_in (codes "sep=\t") None ≡ record { delimiter = 0x09; start = 5 } }
    ensures not_named { found_in (codes "sep=;a") None ≡ record { delimiter = 0x3b; start = 0 } }
    ensures names_nothing { found_in (codes "sep=\na|b") None ≡ record { delimiter = 0x2c; start = 0 } }
    ensures names_a_quote { found_in (codes "sep=\"\na") None ≡ record { delimiter = 0x2c; start = 0 } }
    ensures second_line { found_in (codes "\nsep=;\na") None ≡ record { delimiter = 0x3b; start = 0 } }
    ensures names_a_return { found_in (codes "sep=\r\na|b") None ≡ record { delimiter = 0x2c; start = 0 } }
    ensures half_a_mark { found_in (0xef ∷ 0xbb ∷ 0x3b ∷ []) None ≡ record { delimiter = 0x3b; start = 0 } }
    ensures other_second_byte { found_in (0xef ∷ 0x3b ∷ 0xbf ∷ []) None ≡ record { delimiter = 0x3b; start = 0 } }
    ensures other_first_byte { found_in (0x3b ∷ 0xbb ∷ 0xbf ∷ []) None ≡ record { delimiter = 0x3b; start = 0 } }
    ensures capital { found_in (codes "Sep=;\na|b") None ≡ record { delimiter = 0x3b; start = 0 } }
    ensures no_sign { found_in (codes "sepia\na|b") None ≡ record { delimiter = 0x2c; start = 0 } }
    ensures other_second_letter { found_in (codes "sap=;\na|b") None ≡ record { delimiter = 0x3b; start = 0 } }
    ensures other_third_letter { found_in (codes "set=;\na|b") None ≡ record { delimiter = 0x3b; start = 0 } }
    ensures names_no_ascii { found_in (codes "sep=" ++ 0xa7 ∷ codes "\na|b") None ≡ record { delimiter = 0x2c; start = 0 } }
{}

/// Lists of bytes, and how long the sequence is that each begins with.
pub fn sequences_by_hand()
    ensures reset { rendition_len (0x1b ∷ codes "[0mx") ≡ 4 }
    ensures empty { rendition_len (0x1b ∷ codes "[m") ≡ 3 }
    ensures long { rendition_len (0x1b ∷ codes "[38;5;7:1mm") ≡ 11 }
    ensures no_end { rendition_len (0x1b ∷ codes "[1;2") ≡ 0 }
    ensures other { rendition_len (0x1b ∷ codes "[2K") ≡ 0 }
    ensures later { rendition_len (0x61 ∷ 0x1b ∷ codes "[m") ≡ 0 }
{}

/// What is found in bytes that have the first line whole is found in each text that begins with them.
pub fn first_lines_tell()
    ensures { (front rest : List ℕ) (file : Option (List ℕ)) → HasFirstLine front → found_in (front ++ rest) file ≡ found_in front file }
{}

/// Prefixes of texts, and whether their first line is whole.
pub fn whole_lines_by_hand()
    ensures whole { HasFirstLine (codes "a;b\n") }
    ensures not_ended { ¬ HasFirstLine (codes "a;b") }
    ensures in_quotes { ¬ HasFirstLine (codes "\"a\n") }
    ensures half_a_mark { ¬ HasFirstLine (0xef ∷ 0xbb ∷ []) }
    ensures blank { ¬ HasFirstLine (codes "\r\n\n") }
{}

/// Prefixes of texts, and whether they show if a byte order mark is at the start.
pub fn marks_by_hand()
    ensures nothing { tells_mark [] ≡ false }
    ensures letter { tells_mark (codes "a") ≡ true }
    ensures first { tells_mark (0xef ∷ []) ≡ false }
    ensures two { tells_mark (0xef ∷ 0xbb ∷ []) ≡ false }
    ensures another { tells_mark (0xef ∷ 0xbc ∷ []) ≡ true }
    ensures mark { tells_mark (0xef ∷ 0xbb ∷ 0xbf ∷ []) ≡ true }
{}

/// All bytes of ASCII separate fields where a line names them, but the quote and the two that end lines.
pub fn named_bytes_by_hand()
    ensures count { length (filter can_delimit (range_with_len 0 256)) ≡ 125 }
    ensures first { can_delimit 0x00 ≡ true }
    ensures last { can_delimit 0x7f ≡ true }
    ensures line_feed { can_delimit 0x0a ≡ false }
    ensures carriage_return { can_delimit 0x0d ≡ false }
    ensures quote { can_delimit 0x22 ≡ false }
{}
