//! Laws of the definitions, and texts worked by hand. The functions do nothing.
ghost use Rattle.std.specs.Prelude.{◌≡◌, ◌≢◌, ◌<◌, ℕ, List, [], ◌∷◌, ◌++◌, IsUtf8, Some, codes, take};
ghost use Rattle.std.specs.List.{AllByRecursion, filter, range_with_len};
ghost use Rattle.std.specs.declared.alloc.AllocError.{AllocError as Refused};
ghost use Rattle.csv.specs.Reading.{records, strip_bom};
ghost use Rattle.csv.specs.declared.parser.State.TheVariants as st;
ghost use Rattle.basinmug_input.specs.Cleaning.{HasOnly, cleaned, cleaned_text, may_stand, picture_of_escape};
ghost use Rattle.basinmug_input.specs.Faults.{IsFaultOf, IsNotUtf8, IsReadable, IsTextWithClosedQuotes, fault_text};
ghost use Rattle.basinmug_input.specs.declared.kept.ReadRows.{ReadRows};
ghost use Rattle.basinmug_input.specs.Kept.{IsReadRows, LeavesOutOneRun, kept_rows, rows_before, rows_left_out};
ghost use Rattle.basinmug_input.specs.Places.{EndsInQuotes, IsOpenQuote, Opens, field_at, line_number_at};
ghost use Rattle.basinmug_input.specs.Reading.{all_read, read_of, settings};
ghost use Rattle.basinmug_input.specs.Renditions.{is_in_kept_ranges, is_kept_code};
ghost use Rattle.basinmug_input.specs.Rows.{rows_in};
ghost use Rattle.program_options.specs.declared.basinmug.Escapes.{Escapes as Chosen};
ghost use Rattle.program_options.specs.declared.basinmug.Escapes.TheVariants.{Colors, All as AllEscapes, None as NoEscapes};
ghost use Rattle.basinmug_input.specs.declared.fault.InputFault.{InputFault as Fault};
ghost use Rattle.basinmug_input.specs.declared.kept.RowChoice.{RowChoice as WhichRows};
ghost use Rattle.basinmug_input.specs.declared.kept.RowChoice.TheVariants.{All as AllRows, Ends};
ghost use Rattle.basinmug_input.specs.declared.fault.InputFault.TheVariants.{Memory, NotText, Quote, Escape};

use crate::fault::InputFault;
use std::alloc::{AllocError, AllocFailed};
use std::fmt::Display;

/// The records of a text are what is read of it byte by byte, which says where each byte is.
pub fn records_are_what_is_read()
    ensures { (delimiter : ℕ) (text : List ℕ) → records (settings delimiter) text ≡ all_read (read_of (settings delimiter) text) }
{}

/// A readable text has no error but `Memory`, so that its rows are refused only where memory is.
pub fn readable_texts_have_no_fault()
    ensures { (escapes : Chosen) (delimiter : ℕ) (text : List ℕ) (fault : Fault) → IsReadable escapes (settings delimiter) text → IsFaultOf escapes (settings delimiter) text fault → fault ≡ Memory }
{}

/// A text has at most one error besides `Memory`, in one place.
pub fn texts_have_one_fault()
    ensures { (escapes : Chosen) (delimiter : ℕ) (text : List ℕ) (one other : Fault) → IsFaultOf escapes (settings delimiter) text one → IsFaultOf escapes (settings delimiter) text other →
        one ≢ Memory → other ≢ Memory → one ≡ other }
{}

/// An error is printed in its own words, and a growth that was refused, or a value that was not pushed, is `Memory`.
pub fn faults_are_printed_whole<T: Drop>()
    ensures printed { (fault : Fault) → ⟦<InputFault as Display>⟧.output fault ≡ Some (fault_text fault) }
    ensures of_memory { (given : Refused) (fault : Fault) → ⟦<InputFault as From<AllocError>>⟧.from_gives given fault → fault ≡ Memory }
    ensures of_push { (given : _) (fault : Fault) → ⟦<InputFault as From<AllocFailed<T>>>⟧.from_gives given fault → fault ≡ Memory }
{}

/// Where the delimiter is ASCII, the fields of a text are texts: `NotText` then means bytes that are no text, and
/// of nothing else.
pub fn fields_of_texts_are_texts()
    ensures fields { (delimiter : ℕ) (text : List ℕ) → delimiter < 128 → IsUtf8 text → AllByRecursion (AllByRecursion IsUtf8) (records (settings delimiter) text) }
    ensures faults { (escapes : Chosen) (delimiter : ℕ) (text : List ℕ) (line field : ℕ) → delimiter < 128 →
        IsFaultOf escapes (settings delimiter) text (NotText line field) → IsNotUtf8 (settings delimiter) text line field }
{}

/// Texts and their records: the rules of RFC 4180, section 2, by their numbers there, and what else is read.
pub fn records_by_hand()
    ensures one_each_line { records (settings 44) (codes "aaa,bbb\r\nzzz,yyy\r\n") ≡ (codes "aaa" ∷ codes "bbb" ∷ []) ∷ (codes "zzz" ∷ codes "yyy" ∷ []) ∷ [] }
    ensures two_last_line { records (settings 44) (codes "aaa,bbb\r\nzzz,yyy") ≡ (codes "aaa" ∷ codes "bbb" ∷ []) ∷ (codes "zzz" ∷ codes "yyy" ∷ []) ∷ [] }
    ensures four_spaces_are_part { records (settings 44) (codes " a , b ") ≡ (codes " a " ∷ codes " b " ∷ []) ∷ [] }
    ensures five_quotes_are_no_part { records (settings 44) (codes "\"aaa\",\"bbb\"\r\nzzz,yyy") ≡ (codes "aaa" ∷ codes "bbb" ∷ []) ∷ (codes "zzz" ∷ codes "yyy" ∷ []) ∷ [] }
    ensures six_breaks_and_commas { records (settings 44) (codes "\"aaa\",\"b\r\nbb\",\"c,c\"") ≡ (codes "aaa" ∷ codes "b\r\nbb" ∷ codes "c,c" ∷ []) ∷ [] }
    ensures seven_doubled_quotes { records (settings 44) (codes "\"aaa\",\"b\"\"bb\"") ≡ (codes "aaa" ∷ codes "b\"bb" ∷ []) ∷ [] }
    ensures another_delimiter { records (settings 59) (codes "a;b,c\n") ≡ (codes "a" ∷ codes "b,c" ∷ []) ∷ [] }
    ensures of_any_length { records (settings 9) (codes "a\tb\nc\n\n\td") ≡ (codes "a" ∷ codes "b" ∷ []) ∷ (codes "c" ∷ []) ∷ ([] ∷ codes "d" ∷ []) ∷ [] }
    ensures behind_a_quote { records (settings 44) (codes "\"a\"b,c\"d\"") ≡ (codes "ab" ∷ codes "c\"d\"" ∷ []) ∷ [] }
    ensures no_records { records (settings 44) (codes "\r\n\n") ≡ [] }
    ensures a_mark_goes { strip_bom (0xef ∷ 0xbb ∷ 0xbf ∷ codes "a") ≡ codes "a" }
{}

/// Texts outside sequences, and what they become: a tab, line ends, controls with and without a picture, the first and the
/// last of each kind of character that turns the order of others, and those beside these.
pub fn cleaned_by_hand()
    ensures tab { cleaned_text Colors (codes "a\tb") ≡ codes "a    b" }
    ensures line_feed { cleaned_text Colors (codes "a\nb") ≡ codes "a\nb" }
    ensures both_ends { cleaned_text Colors (codes "a\r\nb") ≡ codes "a\nb" }
    ensures one_return { cleaned_text Colors (codes "a\rb") ≡ 0x61 ∷ 0xe2 ∷ 0x90 ∷ 0x8d ∷ 0x62 ∷ [] }
    ensures two_returns { cleaned_text Colors (codes "\r\r\n") ≡ 0xe2 ∷ 0x90 ∷ 0x8d ∷ 0x0a ∷ [] }
    ensures bell { cleaned_text Colors (0x07 ∷ []) ≡ 0xe2 ∷ 0x90 ∷ 0x87 ∷ [] }
    ensures delete { cleaned_text Colors (0x7f ∷ []) ≡ 0xe2 ∷ 0x90 ∷ 0xa1 ∷ [] }
    ensures of_c1 { cleaned_text Colors (0x9b ∷ []) ≡ 0xef ∷ 0xbf ∷ 0xbd ∷ [] }
    ensures other { cleaned_text Colors (0xa0 ∷ []) ≡ 0xc2 ∷ 0xa0 ∷ [] }
    ensures first_control { cleaned_text Colors (0x00 ∷ []) ≡ 0xe2 ∷ 0x90 ∷ 0x80 ∷ [] }
    ensures last_of_c0 { cleaned_text Colors (0x1f ∷ []) ≡ 0xe2 ∷ 0x90 ∷ 0x9f ∷ [] }
    ensures tilde { cleaned_text Colors (0x7e ∷ []) ≡ codes "~" }
    ensures ends_of_c1 { cleaned_text Colors (0x80 ∷ 0x9f ∷ []) ≡ 0xef ∷ 0xbf ∷ 0xbd ∷ 0xef ∷ 0xbf ∷ 0xbd ∷ [] }
    ensures embedding { cleaned_text Colors (0x202a ∷ 0x202e ∷ []) ≡ 0xef ∷ 0xbf ∷ 0xbd ∷ 0xef ∷ 0xbf ∷ 0xbd ∷ [] }
    ensures isolating { cleaned_text Colors (0x2066 ∷ 0x2069 ∷ []) ≡ 0xef ∷ 0xbf ∷ 0xbd ∷ 0xef ∷ 0xbf ∷ 0xbd ∷ [] }
    ensures beside_these { cleaned_text Colors (0x2029 ∷ 0x202f ∷ 0x2065 ∷ 0x206a ∷ []) ≡ 0xe2 ∷ 0x80 ∷ 0xa9 ∷ 0xe2 ∷ 0x80 ∷ 0xaf ∷ 0xe2 ∷ 0x81 ∷ 0xa5 ∷ 0xe2 ∷ 0x81 ∷ 0xaa ∷ [] }
    ensures right_to_left { cleaned_text Colors (0x200f ∷ 0x5d0 ∷ []) ≡ 0xe2 ∷ 0x80 ∷ 0x8f ∷ 0xd7 ∷ 0x90 ∷ [] }
{}

/// Sequences stay as they are, with the BEL that ends one.
pub fn sequences_stay()
    ensures colored { cleaned Colors (0x1b ∷ 0x5b ∷ 0x31 ∷ 0x6d ∷ 0x09 ∷ []) ≡ 0x1b ∷ 0x5b ∷ 0x31 ∷ 0x6d ∷ 0x20 ∷ 0x20 ∷ 0x20 ∷ 0x20 ∷ [] }
    ensures ended_by_bell { cleaned AllEscapes (0x1b ∷ 0x5d ∷ 0x30 ∷ 0x07 ∷ []) ≡ 0x1b ∷ 0x5d ∷ 0x30 ∷ 0x07 ∷ [] }
    ensures of_many_codes { cleaned Colors (codes "\u{1b}[;1;38;5;8;48;2;1;2;3m") ≡ codes "\u{1b}[;1;38;5;8;48;2;1;2;3m" }
    ensures clearing { cleaned Colors (codes "\u{1b}[22;24;39;49m") ≡ codes "\u{1b}[22;24;39;49m" }
    ensures bright { cleaned Colors (codes "\u{1b}[90;107m") ≡ codes "\u{1b}[90;107m" }
    ensures of_underlines { cleaned Colors (codes "\u{1b}[58;5;255;59m") ≡ codes "\u{1b}[58;5;255;59m" }
{}

/// Under `Colors` what is no sequence of whole colours is shown as text, but for three that go; under `None` all is. Under
/// `All` too controls outside sequences are made visible.
pub fn escapes_by_hand()
    ensures cursor { cleaned Colors (codes "\u{1b}[2A") ≡ picture_of_escape ++ codes "[2A" }
    ensures concealed { cleaned Colors (codes "\u{1b}[1;8m") ≡ picture_of_escape ++ codes "[1;8m" }
    ensures unknown_code { cleaned Colors (codes "\u{1b}[1;200m") ≡ picture_of_escape ++ codes "[1;200m" }
    ensures with_colons { cleaned Colors (codes "\u{1b}[4:3m") ≡ picture_of_escape ++ codes "[4:3m" }
    ensures half_a_color { cleaned Colors (codes "\u{1b}[38;2;1;2m") ≡ picture_of_escape ++ codes "[38;2;1;2m" }
    ensures title { cleaned Colors (codes "\u{1b}]0;a\n\u{7}b") ≡ picture_of_escape ++ codes "]0;a\n" ++ (0xe2 ∷ 0x90 ∷ 0x87 ∷ codes "b") }
    ensures alone { cleaned Colors (codes "a\u{1b}") ≡ codes "a" ++ picture_of_escape }
    ensures line_cleared { cleaned Colors (codes "a\u{1b}[K\u{1b}[0K\u{1b}(Bb") ≡ codes "ab" }
    ensures none { cleaned NoEscapes (codes "\u{1b}[1ma\u{1b}[K") ≡ picture_of_escape ++ codes "[1ma" ++ picture_of_escape ++ codes "[K" }
    ensures turned { cleaned Colors (0x61 ∷ 0xe2 ∷ 0x80 ∷ 0xae ∷ []) ≡ 0x61 ∷ 0xef ∷ 0xbf ∷ 0xbd ∷ [] }
    ensures turning { cleaned AllEscapes (0x61 ∷ 0xe2 ∷ 0x80 ∷ 0xae ∷ []) ≡ 0x61 ∷ 0xe2 ∷ 0x80 ∷ 0xae ∷ [] }
    ensures color_alone { cleaned Colors (codes "\u{1b}[38m") ≡ picture_of_escape ++ codes "[38m" }
    ensures color_without_number { cleaned Colors (codes "\u{1b}[48;5m") ≡ picture_of_escape ++ codes "[48;5m" }
    ensures number_too_great { cleaned Colors (codes "\u{1b}[38;5;256m") ≡ picture_of_escape ++ codes "[38;5;256m" }
    ensures color_of_another_form { cleaned Colors (codes "\u{1b}[38;3;1m") ≡ picture_of_escape ++ codes "[38;3;1m" }
    ensures all_of_a_line { cleaned Colors (codes "\u{1b}[2Ka") ≡ picture_of_escape ++ codes "[2Ka" }
    ensures turned_under_none { cleaned NoEscapes (0x61 ∷ 0xe2 ∷ 0x80 ∷ 0xae ∷ []) ≡ 0x61 ∷ 0xef ∷ 0xbf ∷ 0xbd ∷ [] }
    ensures bell_under_all { cleaned AllEscapes (0x61 ∷ 0x07 ∷ []) ≡ 0x61 ∷ 0xe2 ∷ 0x90 ∷ 0x87 ∷ [] }
{}

/// The codes up to 255 that take effect alone: those of the table of codes, and 0, but for the one that conceals.
pub fn kept_codes_are_of_the_table()
    ensures { filter is_kept_code (range_with_len 0 256) ≡ filter is_in_kept_ranges (range_with_len 0 256) }
{}

/// Where not all escapes take effect, a field that is cleaned has no control character but line feeds, and an ESC only
/// where a sequence begins that is allowed: under `Colors` one of colours and other styles, under `None` none. So have
/// all fields of a text.
pub fn cleaned_records_have_no_controls()
    ensures field { (escapes : Chosen) (bytes : List ℕ) → escapes ≢ AllEscapes → HasOnly (may_stand escapes) (cleaned escapes bytes) }
    ensures records { (escapes : Chosen) (delimiter : ℕ) (bytes : List ℕ) → escapes ≢ AllEscapes → AllByRecursion (AllByRecursion (HasOnly (may_stand escapes))) (rows_in escapes delimiter bytes) }
{}

/// Where not all escapes take effect, no escape makes a text unreadable: a text of UTF-8 is readable where no quote is
/// left open and the delimiter is ASCII.
pub fn escapes_refuse_no_text()
    ensures { (escapes : Chosen) (delimiter : ℕ) (text : List ℕ) → escapes ≢ AllEscapes → delimiter < 128 → IsTextWithClosedQuotes (settings delimiter) text → IsReadable escapes (settings delimiter) text }
{}

/// Bytes and their rows.
pub fn rows_by_hand()
    ensures cleaned { rows_in Colors 44 (0xef ∷ 0xbb ∷ 0xbf ∷ codes "a\tb,\"c\r\nd\"\r\n,\n") ≡ (codes "a    b" ∷ codes "c\nd" ∷ []) ∷ ([] ∷ [] ∷ []) ∷ [] }
    ensures colored { rows_in Colors 9 (0x1b ∷ 0x5b ∷ 0x31 ∷ 0x6d ∷ 0x61 ∷ 0x09 ∷ 0x62 ∷ []) ≡ ((0x1b ∷ 0x5b ∷ 0x31 ∷ 0x6d ∷ 0x61 ∷ []) ∷ (0x62 ∷ []) ∷ []) ∷ [] }
{}

/// Rows that are kept of one to five: all, the first, the last after the first, and all where these meet or overlap. The
/// row with the most fields counts, also where it is left out.
pub fn kept_by_hand()
    ensures all { kept_rows {X = ℕ} AllRows (1 ∷ 2 ∷ 3 ∷ 4 ∷ 5 ∷ []) ≡ 1 ∷ 2 ∷ 3 ∷ 4 ∷ 5 ∷ [] }
    ensures first { kept_rows {X = ℕ} (Ends 2 0) (1 ∷ 2 ∷ 3 ∷ 4 ∷ 5 ∷ []) ≡ 1 ∷ 2 ∷ [] }
    ensures last { kept_rows {X = ℕ} (Ends 0 2) (1 ∷ 2 ∷ 3 ∷ 4 ∷ 5 ∷ []) ≡ 4 ∷ 5 ∷ [] }
    ensures ends { kept_rows {X = ℕ} (Ends 1 2) (1 ∷ 2 ∷ 3 ∷ 4 ∷ 5 ∷ []) ≡ 1 ∷ 4 ∷ 5 ∷ [] }
    ensures meeting { kept_rows {X = ℕ} (Ends 2 3) (1 ∷ 2 ∷ 3 ∷ 4 ∷ 5 ∷ []) ≡ 1 ∷ 2 ∷ 3 ∷ 4 ∷ 5 ∷ [] }
    ensures overlapping { kept_rows {X = ℕ} (Ends 3 4) (1 ∷ 2 ∷ 3 ∷ 4 ∷ 5 ∷ []) ≡ 1 ∷ 2 ∷ 3 ∷ 4 ∷ 5 ∷ [] }
    ensures none { kept_rows {X = ℕ} (Ends 0 0) (1 ∷ 2 ∷ 3 ∷ []) ≡ [] }
    ensures of_none { kept_rows {X = ℕ} (Ends 1 2) [] ≡ [] }
    ensures before { rows_before (Ends 1 2) 5 ≡ 1 }
    ensures all_before { rows_before (Ends 3 1) 2 ≡ 2 }
    ensures before_none { rows_before AllRows 5 ≡ 5 }
    ensures left_out { rows_left_out {X = ℕ} (Ends 1 2) (1 ∷ 2 ∷ 3 ∷ 4 ∷ 5 ∷ []) ≡ 2 }
    ensures none_left_out { rows_left_out {X = ℕ} (Ends 2 3) (1 ∷ 2 ∷ 3 ∷ 4 ∷ 5 ∷ []) ≡ 0 }
    ensures of_a_text { kept_rows (Ends 1 1) (rows_in Colors 44 (codes "a,b\n1,2\n3\n4,5,6\n")) ≡ (codes "a" ∷ codes "b" ∷ []) ∷ (codes "4" ∷ codes "5" ∷ codes "6" ∷ []) ∷ [] }
    ensures columns { (read : ReadRows) → IsReadRows (Ends 1 1) (([] ∷ []) ∷ ([] ∷ [] ∷ [] ∷ []) ∷ ([] ∷ [] ∷ []) ∷ []) read → read.columns ≡ 3 }
{}

/// The rows that are left out come one after the other, and their number is given, as is the number of the kept ones
/// before them. So many first ones and none of the last are the first.
pub fn left_out_rows_are_one_run()
    ensures run { (choice : WhichRows) (rows : List (List (List ℕ))) → LeavesOutOneRun choice rows }
    ensures first { (count : ℕ) (rows : List (List (List ℕ))) → kept_rows (Ends count 0) rows ≡ take count rows }
{}

/// The places of bytes, quotes that open a field, and texts that end in quotes.
pub fn places_by_hand()
    ensures first { line_number_at (codes "a,b") 0 ≡ 1 }
    ensures before_a_break { line_number_at (codes "a\nb") 1 ≡ 1 }
    ensures after_a_break { line_number_at (codes "a\n\"b\nc") 2 ≡ 2 }
    ensures first_field { field_at (settings 44) (codes "a,b") 0 ≡ 1 }
    ensures second_field { field_at (settings 44) (codes "a,b") 2 ≡ 2 }
    ensures line_in_quotes { line_number_at (codes "a,\"b\nc\",d") 8 ≡ 2 }
    ensures field_in_quotes { field_at (settings 44) (codes "a,\"b,\nc\",d") 9 ≡ 3 }
    ensures next_record { field_at (settings 44) (codes "a,b\r\nc") 5 ≡ 1 }
    ensures in_next_record { field_at (settings 44) (codes "a,b\nc,d") 6 ≡ 2 }
    ensures opens { Opens (settings 44) (codes "a,\"b") 2 }
    ensures opens_none { ¬ Opens (settings 44) (codes "a\"b") 1 }
    ensures open { EndsInQuotes (settings 44) (codes "a,\"b\nc,d\n") }
    ensures open_behind_two { EndsInQuotes (settings 44) (codes "\"a\"\"") }
    ensures closed { (read_of (settings 44) (codes "a,\"b\nc\"")).state ≡ st.AfterQuote }
    ensures not_open { ¬ EndsInQuotes (settings 44) (codes "a,\"b\"") }
    ensures inside_a_field { (read_of (settings 44) (codes "a \"b")).state ≡ st.InField }
{}

/// What errors print.
pub fn faults_by_hand()
    ensures not_text { fault_text (NotText 12 3) ≡ codes "line 12, field 3: not UTF-8" }
    ensures quote { fault_text (Quote 2) ≡ codes "line 2: a quote that is not closed" }
    ensures escape { fault_text (Escape 1 20) ≡ codes "line 1, field 20: an escape that begins no sequence" }
    ensures memory { fault_text Memory ≡ codes "out of memory" }
{}

/// The quote that is not closed is the last that opens a field: neither one of a field before it, nor one of two in quotes.
pub fn open_quotes_by_hand()
    ensures last { IsOpenQuote (settings 44) (codes "\"a\"\n\"b\"\"") 4 }
    ensures first { ¬ IsOpenQuote (settings 44) (codes "\"a\"\n\"b\"\"") 0 }
    ensures closed { ¬ IsOpenQuote (settings 44) (codes "\"a\"") 0 }
{}

/// Texts that are readable and others, and the errors of these: a quote that is not closed, bytes that are no text, and an
/// escape that begins no sequence, where all take effect.
pub fn readable_texts_by_hand()
    ensures readable { IsReadable Colors (settings 44) (codes "a,\"b\"") }
    ensures open_quote { ¬ IsReadable Colors (settings 44) (codes "a,\"b") }
    ensures no_text { ¬ IsReadable Colors (settings 44) (0x61 ∷ 0xff ∷ []) }
    ensures quote { IsFaultOf Colors (settings 44) (codes "a\n\"b") (Quote 2) }
    ensures not_text { IsFaultOf Colors (settings 44) (0x61 ∷ 0x2c ∷ 0xff ∷ []) (NotText 1 2) }
    ensures escape { IsFaultOf AllEscapes (settings 44) (codes "a\nb,c\u{1b}") (Escape 2 2) }
{}
