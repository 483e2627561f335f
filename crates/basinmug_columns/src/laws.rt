//! Laws of the names and the widths of columns, and widths and shown columns worked out by hand. The functions do
//! nothing.
ghost use Rattle.std.specs.Prelude.{◌≡◌, ◌≤◌, ◌+◌, ◌-◌, ◌↔◌, ℕ, List, EachIndex, None, Some, [], ◌∷◌, codes, encode_utf8_all, false, true, length, max, slice_index, string_bytes, sum};
ghost use Rattle.ansi_scan.specs.Pieces.{pieces};
ghost use Rattle.ansi_str.specs.StyledText.{strip};
ghost use Rattle.tabled_size_priority.specs.declared.choice.Choice.{Choice as OneChoice};
ghost use Rattle.tabled_size_priority.specs.declared.choice.Choice.TheVariants.{None as InTurns, MaxRight, MinLeft, Left};
ghost use Rattle.program_options.specs.declared.basinmug.ColumnName.TheVariants.{Header, Number};
ghost use Rattle.basinmug_columns.specs.Names.{column_number, shows};
ghost use Rattle.basinmug_columns.specs.Needs.{needs_of};
ghost use Rattle.basinmug_columns.specs.Shown.{columns_that_fit, numbered, shown_width, so_many};
ghost use Rattle.basinmug_columns.specs.declared.shown.ShownColumn.TheVariants.{Number as Shown, LeftOut};
ghost use Rattle.basinmug_columns.specs.Rows.{left_out_of, rows_line};
ghost use Rattle.basinmug_columns.specs.declared.rows.RowsShown.TheVariants.{All as AllRows, Between, Earlier, More};
ghost use Rattle.basinmug_columns.specs.Rooms.{AreShrunkWidths, first_rooms, kept_rooms, least_rooms, need_at, needed_rooms, number, one_column, text};
ghost use Rattle.basinmug_columns.specs.declared.rooms.Need.{Need as Needed};

/// Widths that were worked out by hand: the widest first, of equal ones the right one; each keeps what it needs, where
/// the others can give the rest; a column of numbers gives nothing where another can; it gives what is lacking where
/// that one has given all that it can; all give down to two columns of text with their paddings, and a narrower one
/// keeps its width; down to one where that is enough and two is not; the narrowest gives all first; nothing is
/// requested; no columns; a column whose need is not known.
pub fn rooms_by_hand()
    ensures widest { AreShrunkWidths MaxRight (text 10 ∷ text 9 ∷ text 2 ∷ []) 6 (12 ∷ 9 ∷ 2 ∷ []) (8 ∷ 7 ∷ 2 ∷ []) }
    ensures needs_stay { AreShrunkWidths Left (text 10 ∷ text 10 ∷ []) 7 (16 ∷ 12 ∷ []) (10 ∷ 11 ∷ []) }
    ensures numbers_stay { AreShrunkWidths MaxRight (text 4 ∷ number 12 ∷ []) 3 (9 ∷ 12 ∷ []) (6 ∷ 12 ∷ []) }
    ensures numbers_give { AreShrunkWidths Left (number 10 ∷ text 8 ∷ text 3 ∷ []) 5 (10 ∷ 8 ∷ 3 ∷ []) (9 ∷ 4 ∷ 3 ∷ []) }
    ensures too_much { AreShrunkWidths InTurns (number 9 ∷ text 3 ∷ []) 100 (9 ∷ 3 ∷ []) (4 ∷ 3 ∷ []) }
    ensures one_column { AreShrunkWidths MaxRight (text 10 ∷ text 3 ∷ []) 6 (9 ∷ 3 ∷ []) (3 ∷ 3 ∷ []) }
    ensures narrowest { AreShrunkWidths MinLeft (text 8 ∷ text 8 ∷ []) 4 (9 ∷ 7 ∷ []) (8 ∷ 4 ∷ []) }
    ensures nothing_asked { AreShrunkWidths MaxRight (number 9 ∷ text 2 ∷ []) 0 (9 ∷ 2 ∷ []) (9 ∷ 2 ∷ []) }
    ensures no_columns { AreShrunkWidths MaxRight [] 7 [] [] }
    ensures past_the_needs { AreShrunkWidths Left (text 8 ∷ []) 5 (8 ∷ 8 ∷ []) (8 ∷ 3 ∷ []) }
{}

/// Each column gets a width. It is no more than the width that the column had, and no less than what it keeps in any
/// case: what it needs where all of them can have that, and else two columns of text with their paddings, or one.
pub fn rooms_stay_between()
    ensures each { (priority : OneChoice) (needs : List Needed) (by : ℕ) (widths rooms : List ℕ) →
        AreShrunkWidths priority needs by widths rooms → length rooms ≡ length widths }
    ensures kept { (priority : OneChoice) (needs : List Needed) (by : ℕ) (widths rooms : List ℕ) →
        AreShrunkWidths priority needs by widths rooms → EachIndex widths (λ column. slice_index (kept_rooms needs by widths) column ≤ slice_index rooms column) }
    ensures most { (priority : OneChoice) (needs : List Needed) (by : ℕ) (widths rooms : List ℕ) →
        AreShrunkWidths priority needs by widths rooms → EachIndex widths (λ column. slice_index rooms column ≤ slice_index widths column) }
{}

/// The new widths are together what was requested less than the old ones, or the sum of what the columns keep in any
/// case, where that is more. Where one column of text is little enough for all, they are exactly what was requested
/// less.
pub fn rooms_give_what_is_asked()
    ensures sum { (priority : OneChoice) (needs : List Needed) (by : ℕ) (widths rooms : List ℕ) →
        AreShrunkWidths priority needs by widths rooms → sum rooms ≡ max (sum widths - by) (sum (kept_rooms needs by widths)) }
    ensures all { (priority : OneChoice) (needs : List Needed) (by : ℕ) (widths rooms : List ℕ) →
        AreShrunkWidths priority needs by widths rooms → by + sum (least_rooms one_column widths) ≤ sum widths → sum rooms ≡ sum widths - by }
{}

/// Where all columns can have what they need, each has it.
pub fn needs_are_met()
    ensures { (priority : OneChoice) (needs : List Needed) (by : ℕ) (widths rooms : List ℕ) →
        AreShrunkWidths priority needs by widths rooms → by + sum (needed_rooms needs widths) ≤ sum widths →
        EachIndex widths (λ column. slice_index (needed_rooms needs widths) column ≤ slice_index rooms column) }
{}

/// Where the other columns can give what is requested, each column of numbers keeps its width.
pub fn numbers_stay_whole()
    ensures { (priority : OneChoice) (needs : List Needed) (by : ℕ) (widths rooms : List ℕ) →
        AreShrunkWidths priority needs by widths rooms → by + sum (first_rooms needs (kept_rooms needs by widths) widths) ≤ sum widths →
        EachIndex widths (λ column. (need_at needs column).is_numeric ≡ true → slice_index rooms column ≡ slice_index widths column) }
{}

/// A header calls its column by what it shows: its text without its sequences. Of several such columns the first is
/// meant; a number is itself, whatever the header.
pub fn columns_are_named_by_what_is_shown()
    ensures shown { (name text : List ℕ) → (shows name text ≡ true) ↔ (strip (pieces text) ≡ name) }
    ensures first { (name : _) (other text : List ℕ) → shows (string_bytes name) other ≡ false → shows (string_bytes name) text ≡ true →
        column_number (other ∷ text ∷ text ∷ []) (Header name) ≡ Some 1 }
    ensures missing { (name : _) (other : List ℕ) → shows (string_bytes name) other ≡ false → column_number (other ∷ []) (Header name) ≡ None }
    ensures number { column_number [] (Number 7) ≡ Some 7 }
{}

/// How many columns of the terminal tables take of which some columns are shown, and which these are: of columns that
/// cost four, five and six, in a frame of one and with a mark of four.
pub fn shown_columns_by_hand()
    ensures all { shown_width 1 4 (4 ∷ 5 ∷ 6 ∷ []) 3 ≡ 16 }
    ensures two { shown_width 1 4 (4 ∷ 5 ∷ 6 ∷ []) 2 ≡ 15 }
    ensures one { shown_width 1 4 (4 ∷ 5 ∷ 6 ∷ []) 1 ≡ 9 }
    ensures three_of_five { so_many 3 (numbered 0 5) ≡ Shown 0 ∷ Shown 1 ∷ LeftOut ∷ Shown 4 ∷ [] }
    ensures two_of_five { so_many 2 (numbered 0 5) ≡ Shown 0 ∷ LeftOut ∷ Shown 4 ∷ [] }
    ensures one_of_five { so_many 1 (numbered 0 5) ≡ Shown 0 ∷ LeftOut ∷ [] }
    ensures all_of_two { so_many 2 (numbered 0 2) ≡ Shown 0 ∷ Shown 1 ∷ [] }
    ensures chosen { so_many 2 (Shown 7 ∷ Shown 7 ∷ Shown 3 ∷ []) ≡ Shown 7 ∷ LeftOut ∷ Shown 3 ∷ [] }
    ensures none { so_many 0 [] ≡ [] }
{}

/// Which of five columns are shown that need ten, five, ten, ten and ten columns of the terminal. With lines between them
/// all take 51; four and the mark 44; three and the mark 33; two 27; one 16. In less the first gets what is left, and the
/// mark is beside it from nine columns on. A mark that is already among two of them takes four columns.
pub fn columns_that_fit_by_hand()
    ensures all { columns_that_fit (text 10 ∷ text 5 ∷ text 10 ∷ text 10 ∷ text 10 ∷ []) true 51 (numbered 0 5) ≡ numbered 0 5 }
    ensures not_all { columns_that_fit (text 10 ∷ text 5 ∷ text 10 ∷ text 10 ∷ text 10 ∷ []) true 50 (numbered 0 5) ≡ Shown 0 ∷ Shown 1 ∷ LeftOut ∷ Shown 3 ∷ Shown 4 ∷ [] }
    ensures four { columns_that_fit (text 10 ∷ text 5 ∷ text 10 ∷ text 10 ∷ text 10 ∷ []) true 44 (numbered 0 5) ≡ Shown 0 ∷ Shown 1 ∷ LeftOut ∷ Shown 3 ∷ Shown 4 ∷ [] }
    ensures not_four { columns_that_fit (text 10 ∷ text 5 ∷ text 10 ∷ text 10 ∷ text 10 ∷ []) true 43 (numbered 0 5) ≡ Shown 0 ∷ Shown 1 ∷ LeftOut ∷ Shown 4 ∷ [] }
    ensures three { columns_that_fit (text 10 ∷ text 5 ∷ text 10 ∷ text 10 ∷ text 10 ∷ []) true 33 (numbered 0 5) ≡ Shown 0 ∷ Shown 1 ∷ LeftOut ∷ Shown 4 ∷ [] }
    ensures not_three { columns_that_fit (text 10 ∷ text 5 ∷ text 10 ∷ text 10 ∷ text 10 ∷ []) true 32 (numbered 0 5) ≡ Shown 0 ∷ LeftOut ∷ Shown 4 ∷ [] }
    ensures two { columns_that_fit (text 10 ∷ text 5 ∷ text 10 ∷ text 10 ∷ text 10 ∷ []) true 27 (numbered 0 5) ≡ Shown 0 ∷ LeftOut ∷ Shown 4 ∷ [] }
    ensures not_two { columns_that_fit (text 10 ∷ text 5 ∷ text 10 ∷ text 10 ∷ text 10 ∷ []) true 26 (numbered 0 5) ≡ Shown 0 ∷ LeftOut ∷ [] }
    ensures one { columns_that_fit (text 10 ∷ text 5 ∷ text 10 ∷ text 10 ∷ text 10 ∷ []) true 16 (numbered 0 5) ≡ Shown 0 ∷ LeftOut ∷ [] }
    ensures first { columns_that_fit (text 10 ∷ text 5 ∷ text 10 ∷ text 10 ∷ text 10 ∷ []) true 15 (numbered 0 5) ≡ Shown 0 ∷ LeftOut ∷ [] }
    ensures beside { columns_that_fit (text 10 ∷ text 5 ∷ text 10 ∷ text 10 ∷ text 10 ∷ []) true 9 (numbered 0 5) ≡ Shown 0 ∷ LeftOut ∷ [] }
    ensures alone { columns_that_fit (text 10 ∷ text 5 ∷ text 10 ∷ text 10 ∷ text 10 ∷ []) true 8 (numbered 0 5) ≡ Shown 0 ∷ [] }
    ensures only_one { columns_that_fit (text 10 ∷ []) true 9 (numbered 0 1) ≡ Shown 0 ∷ [] }
    ensures empty { columns_that_fit [] true 80 [] ≡ [] }
    ensures with_a_mark { columns_that_fit (text 10 ∷ text 10 ∷ []) true 27 (Shown 0 ∷ LeftOut ∷ Shown 1 ∷ []) ≡ Shown 0 ∷ LeftOut ∷ Shown 1 ∷ [] }
    ensures not_with_a_mark { columns_that_fit (text 10 ∷ text 10 ∷ []) true 26 (Shown 0 ∷ LeftOut ∷ Shown 1 ∷ []) ≡ Shown 0 ∷ LeftOut ∷ [] }
{}

/// The same without lines, where three columns take 30, two and the mark 23, and the mark is beside the first from six
/// columns on; and with a number of 24 digits, which takes 27 with its paddings and a line.
pub fn unlined_columns_by_hand()
    ensures all { columns_that_fit (text 10 ∷ text 10 ∷ text 10 ∷ []) false 30 (numbered 0 3) ≡ numbered 0 3 }
    ensures not_all { columns_that_fit (text 10 ∷ text 10 ∷ text 10 ∷ []) false 29 (numbered 0 3) ≡ Shown 0 ∷ LeftOut ∷ Shown 2 ∷ [] }
    ensures two { columns_that_fit (text 10 ∷ text 10 ∷ text 10 ∷ []) false 23 (numbered 0 3) ≡ Shown 0 ∷ LeftOut ∷ Shown 2 ∷ [] }
    ensures not_two { columns_that_fit (text 10 ∷ text 10 ∷ text 10 ∷ []) false 22 (numbered 0 3) ≡ Shown 0 ∷ LeftOut ∷ [] }
    ensures beside { columns_that_fit (text 10 ∷ text 10 ∷ text 10 ∷ []) false 6 (numbered 0 3) ≡ Shown 0 ∷ LeftOut ∷ [] }
    ensures alone { columns_that_fit (text 10 ∷ text 10 ∷ text 10 ∷ []) false 5 (numbered 0 3) ≡ Shown 0 ∷ [] }
    ensures number { columns_that_fit (number 26 ∷ text 10 ∷ []) true 39 (numbered 0 2) ≡ numbered 0 2 }
    ensures no_number { columns_that_fit (number 26 ∷ text 10 ∷ []) true 38 (numbered 0 2) ≡ Shown 0 ∷ LeftOut ∷ [] }
{}

/// What columns need, with a padding at each side. A text needs its widest line, which may be the header, but at most 8.
/// A number needs all its columns, but at most 24; its header and the white space of ASCII around it count as text.
pub fn needs_by_hand()
    ensures widest { needs_of (codes "ab" ∷ codes "abcd" ∷ []) ((codes "abc" ∷ codes "a\nbc" ∷ []) ∷ []) (false ∷ false ∷ []) ≡ text 5 ∷ text 6 ∷ [] }
    ensures eight { needs_of (codes "12345678" ∷ codes "123456789" ∷ []) [] (false ∷ false ∷ []) ≡ text 10 ∷ text 10 ∷ [] }
    ensures numbers { needs_of (codes "n" ∷ codes "m" ∷ []) ((codes "123456789" ∷ codes "7" ∷ []) ∷ (codes "7" ∷ codes "42" ∷ []) ∷ []) (true ∷ true ∷ []) ≡ number 11 ∷ number 4 ∷ [] }
    ensures most { needs_of [] ((codes "123456789012345678901234" ∷ codes "1234567890123456789012345" ∷ []) ∷ []) (true ∷ true ∷ []) ≡ number 26 ∷ number 26 ∷ [] }
    ensures header { needs_of (codes "number of people" ∷ []) ((codes "7" ∷ []) ∷ []) (true ∷ []) ≡ number 10 ∷ [] }
    ensures padded { needs_of (codes "n" ∷ codes "m" ∷ []) ((codes "                    7" ∷ codes " 123456789\n " ∷ []) ∷ []) (true ∷ true ∷ []) ≡ number 10 ∷ number 11 ∷ [] }
    ensures styled { needs_of (codes "n" ∷ []) ((codes "\u{1b}[31m   123456789\u{1b}[0m" ∷ []) ∷ []) (true ∷ []) ≡ number 11 ∷ [] }
    ensures blank { needs_of (codes "n" ∷ []) ((codes "          " ∷ []) ∷ [] ∷ []) (true ∷ []) ≡ number 10 ∷ [] }
    ensures other_space { needs_of [] ((encode_utf8_all (codes "\u{a0}12345678") ∷ []) ∷ []) (true ∷ []) ≡ number 11 ∷ [] }
    ensures short { needs_of [] [] (false ∷ true ∷ []) ≡ text 2 ∷ number 2 ∷ [] }
    ensures records { needs_of [] ((codes "a" ∷ []) ∷ (codes "abcd" ∷ []) ∷ (codes "ab" ∷ []) ∷ []) (false ∷ []) ≡ text 6 ∷ [] }
{}

/// The line below rows or records in each of its forms: none is left out, one is, several are.
pub fn rows_lines_by_hand()
    ensures all { rows_line (codes "row") AllRows ≡ [] }
    ensures no_more { rows_line (codes "row") (More 0) ≡ [] }
    ensures one_more { rows_line (codes "row") (More 1) ≡ codes "(1 more row)\n" }
    ensures more { rows_line (codes "row") (More 3) ≡ codes "(3 more rows)\n" }
    ensures more_records { rows_line (codes "record") (More 20) ≡ codes "(20 more records)\n" }
    ensures no_earlier { rows_line (codes "row") (Earlier 0) ≡ [] }
    ensures one_earlier { rows_line (codes "record") (Earlier 1) ≡ codes "(1 earlier record)\n" }
    ensures earlier { rows_line (codes "row") (Earlier 10) ≡ codes "(10 earlier rows)\n" }
    ensures none_between { rows_line (codes "row") (Between 2 0) ≡ [] }
    ensures one_between { rows_line (codes "row") (Between 2 1) ≡ codes "(1 row left out)\n" }
    ensures between { rows_line (codes "record") (Between 0 12) ≡ codes "(12 records left out)\n" }
    ensures left_out { left_out_of AllRows ∷ left_out_of (More 2) ∷ left_out_of (Earlier 3) ∷ left_out_of (Between 4 5) ∷ [] ≡ 0 ∷ 2 ∷ 3 ∷ 5 ∷ [] }
{}
