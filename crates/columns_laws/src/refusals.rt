//! Why inputs have no table, and what each error prints: worked out by hand. Laws alone.
//!
//! Laws of the errors of a run, each the contract of a function that does nothing.
ghost use Rattle.std.specs.Prelude.{◌≡◌, ◌∷◌, ℕ, [], codes, encode_utf8_all, false};
ghost use Rattle.columns_asked.specs.Worked.{cuts, wraps};
ghost use Rattle.columns_laws.specs.Refusals.PaddedStyles.{padded_above, padded_left};
ghost use Rattle.columns_run.specs.DrawnTables.{TableInRange, output_of};
ghost use Rattle.columns_run.specs.Fault.{MayFollowWrites};
ghost use Rattle.columns_run.specs.Run.{MayEndBy, read_limit};
ghost use Rattle.columns_run.specs.Wanted.{Wanted, default_wanted, wanted_of};
ghost use Rattle.grid_config_values.specs.declared.fault.Fault.TheVariants.{Memory as NoMemory, Range as PassesMax, Room, Spans};
ghost use Rattle.program_options.specs.Columns.Fault.{fault_text, read_fault, run_fault, write_fault};
ghost use Rattle.program_options.specs.declared.columns.fault.RunFault.TheVariants.{Escape, LineTooWide, Memory, NotUtf8, Range, Read, ReadTooLong, Write, WriteZero};
ghost use Rattle.program_options.specs.declared.columns.options.Options.{Options as OneRequest};
ghost use Rattle.tabled_output.specs.declared.reading.ReadFault.TheVariants.{Memory as NoMemoryToRead, Read as ReadFailed, TooLong};
ghost use Rattle.tabled_output.specs.declared.writing.WriteFault.TheVariants.{Write as Failed, WriteZero as TookNothing};
ghost use Rattle.tabled_size_priority.specs.declared.choice.Choice.TheVariants.{None as InTurns};

/// Inputs without a table, and the byte of each at which it has none. Bytes that are no text are refused before an
/// escape is. An escape may begin nothing, or a sequence or a string without an end. By `one_refusal` of
/// `columns_run` no other error comes.
pub fn inputs_without_a_table_by_hand()
    ensures no_text { (wanted : Wanted) → MayEndBy wanted (0x61 ∷ 0xff ∷ []) (NotUtf8 1) }
    ensures no_text_first { (wanted : Wanted) → MayEndBy wanted (0x1b ∷ 0xff ∷ []) (NotUtf8 1) }
    ensures lone { (wanted : Wanted) → MayEndBy wanted (codes "\u{1b}") (Escape 0) }
    ensures behind_a_sequence { (wanted : Wanted) → MayEndBy wanted (codes "\u{1b}[31m\u{1b}[1") (Escape 5) }
    ensures string { (wanted : Wanted) → MayEndBy wanted (codes "\u{1b}]0;a") (Escape 0) }
{}

/// The greatest tables. One column takes a boundary, its left padding, a letter, a column of space and a boundary: four
/// more than the padding. One row takes three lines more than the padding above. So many are in range, and one more is
/// not.
pub fn greatest_tables_by_hand()
    ensures widest { TableInRange (padded_left 18446744073709551611) (codes "a\n") }
    ensures too_wide { ¬ (TableInRange (padded_left 18446744073709551612) (codes "a\n")) }
    ensures highest { TableInRange (padded_above 18446744073709551612) (codes "a\n") }
    ensures too_high { ¬ (TableInRange (padded_above 18446744073709551613) (codes "a\n")) }
    ensures refused { MayEndBy (padded_left 18446744073709551615) (codes "a\n") Range }
{}

/// How many reads without an end are too many.
pub fn limits_by_hand()
    ensures { read_limit ≡ 1099511627776 }
{}

/// What each error prints, after the name of the program.
pub fn errors_by_hand()
    ensures read { fault_text Read ≡ codes "read failed" }
    ensures too_long { fault_text ReadTooLong ≡ codes "input too long" }
    ensures no_text { fault_text (NotUtf8 12) ≡ codes "not UTF-8 at byte 12" }
    ensures escape { fault_text (Escape 0) ≡ codes "escape at byte 0" }
    ensures range { fault_text Range ≡ codes "size out of range" }
    ensures too_wide { fault_text (LineTooWide 3 10) ≡ codes "row 3 column 10 too wide" }
    ensures write { fault_text Write ≡ codes "write failed" }
    ensures write_zero { fault_text WriteZero ≡ codes "writer took nothing" }
    ensures memory { fault_text Memory ≡ codes "out of memory" }
{}

/// The errors before which nothing is written: all but those of the writer, and want of memory.
pub fn errors_before_writes_by_hand()
    ensures read { ¬ (MayFollowWrites Read) }
    ensures too_long { ¬ (MayFollowWrites ReadTooLong) }
    ensures no_text { (place : ℕ) → ¬ (MayFollowWrites (NotUtf8 place)) }
    ensures escape { (place : ℕ) → ¬ (MayFollowWrites (Escape place)) }
    ensures range { ¬ (MayFollowWrites Range) }
    ensures too_wide { (row column : ℕ) → ¬ (MayFollowWrites (LineTooWide row column)) }
{}

/// What the errors of a reader, a writer and a table become.
pub fn errors_keep_their_meaning()
    ensures read { (read_fault ReadFailed ≡ Read) × (read_fault TooLong ≡ ReadTooLong) × (read_fault NoMemoryToRead ≡ Memory) }
    ensures write { (write_fault Failed ≡ Write) × (write_fault TookNothing ≡ WriteZero) }
    ensures table { (run_fault NoMemory ≡ Memory) × (run_fault PassesMax ≡ Range) × (run_fault (Room 3 10) ≡ LineTooWide 3 10) }
    ensures spans { run_fault Spans ≡ Range }
{}

/// Each option is requested as it is given.
pub fn options_are_requested()
    ensures width { (options : OneRequest) → (wanted_of options).limit.width ≡ options.width }
    ensures truncate { (options : OneRequest) → (wanted_of options).limit.truncate ≡ options.truncate }
    ensures keep_words { (options : OneRequest) → (wanted_of options).limit.keep_words ≡ options.keep_words }
    ensures priority { (options : OneRequest) → (wanted_of options).limit.priority ≡ options.priority }
    ensures colors { (options : OneRequest) → (wanted_of options).colors ≡ options.colors.items }
{}

/// A wide character in red that does not fit. In one column its line has U+FFFD in its place, in no style, and the next
/// line is red. Where it is cut, U+FFFD is after the end of the red.
pub fn replaced_characters_by_hand()
    ensures wrapped { output_of (default_wanted (wraps 5 false InTurns) []) (encode_utf8_all (codes "\u{1b}[31m😳1\u{1b}[0m\n"))
        ≡ encode_utf8_all (codes "+---+\n| � |\n| \u{1b}[31m1\u{1b}[0m |\n+---+\n") }
    ensures cut { output_of (default_wanted (cuts 7) []) (encode_utf8_all (codes "\u{1b}[31m😳😳\u{1b}[39m\n"))
        ≡ encode_utf8_all (codes "+-----+\n| \u{1b}[31m😳\u{1b}[39m� |\n+-----+\n") }
{}
