//! How many bytes the sequences of a printed table take, by those of its input: definitions and laws alone.
//!
//! Laws of the sequences of a printed table, each the contract of a function that does nothing.
ghost use Rattle.std.specs.Prelude.{◌≡◌, ◌+◌, ◌*◌, ◌≤◌, ℕ, IsUtf8, List, [], codes};
ghost use Rattle.ansi_scan.specs.Sequences.{IsWhole};
ghost use Rattle.columns_run.specs.DrawnTables.{output_of, resized_texts};
ghost use Rattle.columns_run.specs.Narrow.{IsRunnable};
ghost use Rattle.columns_run.specs.Wanted.{Wanted};
ghost use Rattle.columns_laws.specs.Sequences.Bounds.{bold_letters, count_cell_lines, color_bytes, in_five_columns, red_in_five_columns, sequence_byte_count, start_and_end};

/// The sequences of the table of a whole text take at most the sum of three parts. These are the bytes of the input's
/// sequences; for each line of a cell the longest start and the longest end of a style; and for each line of a coloured
/// cell that has bytes the texts of its colour. So no line repeats what earlier ones have, however narrow the table is.
/// The style of the table is narrow, and each colour closes. Without colours the last part is 0.
pub fn sequences_are_few()
    ensures all { (wanted : Wanted) (input : List ℕ) → IsRunnable wanted → IsUtf8 input → IsWhole input →
        sequence_byte_count (output_of wanted input) ≤ sequence_byte_count input + start_and_end * count_cell_lines (resized_texts wanted input)
        + color_bytes wanted.colors (resized_texts wanted input) }
    ensures no_colors { (rows : List (List (List ℕ))) → color_bytes [] rows ≡ 0 }
{}

/// A narrow table worked out by hand: each line has the sequence that comes after its letter, begins with
/// what is open there, and ends it. So 12 bytes of sequences become 35, over three lines. In a red column each
/// line adds the 10 bytes of its colour: 65 in all.
pub fn worked_sequences()
    ensures output { output_of in_five_columns bold_letters
        ≡ codes "+---+\n| \u{1b}[1ma\u{1b}[1m\u{1b}[22m |\n| \u{1b}[1mb\u{1b}[1m\u{1b}[22m |\n| \u{1b}[1mc\u{1b}[22m |\n+---+\n" }
    ensures input { sequence_byte_count bold_letters ≡ 12 }
    ensures taken { sequence_byte_count (output_of in_five_columns bold_letters) ≡ 35 }
    ensures lines { count_cell_lines (resized_texts in_five_columns bold_letters) ≡ 3 }
    ensures colored { output_of red_in_five_columns bold_letters
        ≡ codes "+---+\n| \u{1b}[31m\u{1b}[1ma\u{1b}[1m\u{1b}[22m\u{1b}[39m |\n| \u{1b}[31m\u{1b}[1mb\u{1b}[1m\u{1b}[22m\u{1b}[39m |\n| \u{1b}[31m\u{1b}[1mc\u{1b}[22m\u{1b}[39m |\n+---+\n" }
    ensures added { color_bytes red_in_five_columns.colors (resized_texts red_in_five_columns bold_letters) ≡ 30 }
    ensures taken_in_red { sequence_byte_count (output_of red_in_five_columns bold_letters) ≡ 65 }
{}
