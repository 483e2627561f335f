//! Laws of the definitions that the contracts cite, and cells, requests and outcomes worked by hand. The functions do nothing.
ghost use Rattle.std.specs.Prelude.{◌≡◌, ◌∷◌, ◌*◌, ℕ, List, [], Option, None, Some, Result, Ok, Err, codes, false, take, true};
ghost use Rattle.std.specs.List.{AllByRecursion};
ghost use Rattle.basinmug_bounded.specs.Answers.{IsCellsOutcome, IsOutcome, ReportsCells, ReportsText, answers};
ghost use Rattle.basinmug_bounded.specs.CellOutputs.{IsCellsPrinted};
ghost use Rattle.basinmug_bounded.specs.Cells.{AreRecords, AreWhole, AreWholeRows, Given, IsReadCells, cells_in, cells_read, fault_at, given};
ghost use Rattle.basinmug_bounded.specs.Lists.{Texts, list_in, texts};
ghost use Rattle.basinmug_bounded.specs.Outputs.{most_of};
ghost use Rattle.basinmug_bounded.specs.Requests.{delimiter_in, first_fault, head_in, number_in, all_escapes, all_rules, columns_shown, line_styles, priorities};
ghost use Rattle.basinmug_bounded.specs.Worked.{AreOfFault, HasFault, IsReportedBy, greatest, numbers, zeros, other_numbers, some_numbers};
ghost use Rattle.basinmug_bounded.specs.Texts.{AreReadOf, IsTextPrinted, delimited, read_as};
ghost use Rattle.basinmug_bounded.specs.declared.answer.PrintAnswer.{PrintAnswer as Reported};
ghost use Rattle.basinmug_bounded.specs.declared.printing.Size.{Size};
ghost use Rattle.basinmug_bounded.specs.declared.refusal.CellFault.TheVariants as cell;
ghost use Rattle.basinmug_bounded.specs.declared.refusal.ListFault.TheVariants as list;
ghost use Rattle.basinmug_bounded.specs.declared.refusal.Refusal.{Refusal};
ghost use Rattle.basinmug_bounded.specs.declared.refusal.Refusal.TheVariants.{Request as OfRequest, List as OfList, Cell as OfCell, Run as OfRun, OverMaxSize as Over};
ghost use Rattle.basinmug_bounded.specs.declared.request.PrintRequest.{PrintRequest as Asked};
ghost use Rattle.basinmug_bounded.specs.declared.request.RequestFault.{RequestFault as AskedFault};
ghost use Rattle.basinmug_bounded.specs.declared.request.RequestFault.TheVariants as fault;
ghost use Rattle.basinmug_input.specs.declared.cells.Flaw.TheVariants as flaw;
ghost use Rattle.basinmug_input.specs.declared.fault.InputFault.TheVariants as input;
ghost use Rattle.basinmug_run.specs.declared.fault.RunFault.TheVariants.{Input as OfInput, Print as OfPrint, Memory as NoMemory};
ghost use Rattle.basinmug_run.specs.declared.picture.fault.PrintFault.TheVariants as print;
ghost use Rattle.grid_config_values.specs.declared.fault.Fault.TheVariants as table;
ghost use Rattle.tabled_output.specs.declared.building.BuildFault.TheVariants as build;
ghost use Rattle.basinmug_bounded.specs.Meant.{AreOptionsOf, IsFirstBadList, alignments_in, colors_in, columns_in};
ghost use Rattle.basinmug_run.specs.declared.options.Options.{Options as Meant};
ghost use Rattle.basinmug_run.specs.declared.options.ColumnsShown.TheVariants.{All as AllShown, Fitting};
ghost use Rattle.basinmug_values.specs.Choices.{Single};
ghost use Rattle.basinmug_values.specs.Lists.{Numbered};
ghost use Rattle.grid_config_values.specs.declared.alignment.AlignmentHorizontal.TheVariants.{Right as AtRight};
ghost use Rattle.program_options.specs.ColorList.Names.{color_of_texts};
ghost use Rattle.program_options.specs.declared.basinmug.Escapes.TheVariants.{Colors, All as AllEscapes, None as NoEscapes};
ghost use Rattle.program_options.specs.declared.basinmug.LineStyle.TheVariants.{Ascii, Modern, Rounded, Extended, Markdown, Empty};
ghost use Rattle.program_options.specs.declared.basinmug.Rules.TheVariants.{Header as BelowHeader, All as AllRules, None as NoRules};
ghost use Rattle.tabled_size_priority.specs.declared.choice.Choice.TheVariants.{None as InTurns, MinRight, MaxRight, Left, Right};

/// Cells of lengths, one of them 0; the cells of a head of records, of none, and of more than there are.
pub fn cells_by_hand()
    ensures cells { cells_in (2 ∷ 0 ∷ 1 ∷ []) (codes "abc") ≡ codes "ab" ∷ [] ∷ codes "c" ∷ [] }
    ensures nothing { cells_in [] [] ≡ [] }
    ensures all { cells_read None (given (codes "abcd") (1 ∷ 1 ∷ 1 ∷ 1 ∷ []) 2) ≡ codes "a" ∷ codes "b" ∷ codes "c" ∷ codes "d" ∷ [] }
    ensures head { cells_read (Some 1) (given (codes "abcd") (1 ∷ 1 ∷ 1 ∷ 1 ∷ []) 2) ≡ codes "a" ∷ codes "b" ∷ [] }
    ensures no_head { cells_read (Some 0) (given (codes "abcd") (1 ∷ 1 ∷ 1 ∷ 1 ∷ []) 2) ≡ [] }
    ensures more { cells_read (Some 3) (given (codes "ab") (1 ∷ 1 ∷ []) 2) ≡ codes "a" ∷ codes "b" ∷ [] }
{}

/// Whole records, of two, of none, and of no columns; a part of one; cells without a column; and cells that have a byte too
/// few or too many. Rows of records.
pub fn records_by_hand()
    ensures two { AreWhole 6 3 }
    ensures no_records { AreWhole 0 3 }
    ensures no_columns { AreWhole 0 0 }
    ensures part { ¬ AreWhole 5 3 }
    ensures cells_of_no_column { ¬ AreWhole 2 0 }
    ensures records { AreRecords (given (codes "abc") (2 ∷ 1 ∷ []) 2) }
    ensures nothing { AreRecords (given [] [] 0) }
    ensures too_few { ¬ AreRecords (given (codes "ab") (2 ∷ 1 ∷ []) 2) }
    ensures too_many { ¬ AreRecords (given (codes "abcd") (2 ∷ 1 ∷ []) 2) }
    ensures part_of_cells { ¬ AreRecords (given (codes "abc") (2 ∷ 1 ∷ []) 3) }
    ensures rows { AreWholeRows 2 (codes "a" ∷ codes "b" ∷ codes "c" ∷ codes "d" ∷ []) ((codes "a" ∷ codes "b" ∷ []) ∷ (codes "c" ∷ codes "d" ∷ []) ∷ []) }
    ensures no_rows { AreWholeRows 2 [] [] }
{}

/// Where a cell with an error is: the first, the last of a row, and the first of the next.
pub fn places_of_cells_by_hand()
    ensures first { fault_at 0 (flaw.NotText 7) 3 ≡ cell.NotText 0 0 }
    ensures last_of_a_row { fault_at 2 (flaw.NotText 7) 3 ≡ cell.NotText 0 2 }
    ensures next { fault_at 3 (flaw.Escape 7) 3 ≡ cell.Escape 1 0 }
    ensures sixth { fault_at 5 (flaw.Escape 0) 3 ≡ cell.Escape 1 2 }
    ensures one_column { fault_at 5 (flaw.NotText 0) 1 ≡ cell.NotText 5 0 }
{}

/// The cells of a head are the first of all.
pub fn heads_are_the_first_cells()
    ensures { (records : ℕ) (all : Given) → cells_read (Some records) all ≡ take (records * all.per_record) (cells_in all.lengths all.bytes) }
{}

/// The first number without a meaning is reported, whatever the numbers are that are checked after it; and none of numbers
/// that all have one.
pub fn first_faults_by_hand()
    ensures none { first_fault (numbers 136 0 0 4 0 0 0 2 0 0 greatest greatest 0 0 zeros) ≡ None }
    ensures last_meanings { first_fault (numbers 136 59 1 5 2 2 1 4 1 1 greatest greatest 1 0 zeros) ≡ None }
    ensures size { (delimiter no_header style rules escapes truncate priority expanded all_columns width tail head reserved : ℕ) (words : List ℕ) →
        AllByRecursion (λ size. HasFault (numbers size delimiter no_header style rules escapes truncate priority expanded all_columns width tail head reserved words) fault.Size) (0 ∷ 128 ∷ 137 ∷ []) }
    ensures delimiter { (no_header style rules escapes truncate priority expanded all_columns width tail head reserved : ℕ) (words : List ℕ) →
        AllByRecursion (λ delimiter. HasFault (numbers 136 delimiter no_header style rules escapes truncate priority expanded all_columns width tail head reserved words) fault.Delimiter) (10 ∷ 13 ∷ 34 ∷ 128 ∷ []) }
    ensures no_header { (style rules escapes truncate priority expanded all_columns width tail head reserved : ℕ) (words : List ℕ) →
        HasFault (numbers 136 0 2 style rules escapes truncate priority expanded all_columns width tail head reserved words) fault.NoHeader }
    ensures style { (rules escapes truncate priority expanded all_columns width tail head reserved : ℕ) (words : List ℕ) →
        HasFault (numbers 136 0 0 6 rules escapes truncate priority expanded all_columns width tail head reserved words) fault.Style }
    ensures rules { (escapes truncate priority expanded all_columns width tail head reserved : ℕ) (words : List ℕ) →
        HasFault (numbers 136 0 0 5 3 escapes truncate priority expanded all_columns width tail head reserved words) fault.Rules }
    ensures escapes { (truncate priority expanded all_columns width tail head reserved : ℕ) (words : List ℕ) →
        HasFault (numbers 136 0 0 5 0 3 truncate priority expanded all_columns width tail head reserved words) fault.Escapes }
    ensures truncate { (priority expanded all_columns width tail head reserved : ℕ) (words : List ℕ) →
        HasFault (numbers 136 0 0 5 0 0 2 priority expanded all_columns width tail head reserved words) fault.Truncate }
    ensures priority { (expanded all_columns width tail head reserved : ℕ) (words : List ℕ) →
        HasFault (numbers 136 0 0 5 0 0 0 5 expanded all_columns width tail head reserved words) fault.Priority }
    ensures expanded { (all_columns width tail head reserved : ℕ) (words : List ℕ) → HasFault (numbers 136 0 0 5 0 0 0 2 2 all_columns width tail head reserved words) fault.Expanded }
    ensures all_columns { (width tail head reserved : ℕ) (words : List ℕ) → HasFault (numbers 136 0 0 5 0 0 0 2 0 2 width tail head reserved words) fault.AllColumns }
    ensures width { (tail head reserved : ℕ) (words : List ℕ) → HasFault (numbers 136 0 0 5 0 0 0 2 0 0 80 tail head reserved words) fault.Width }
    ensures head { (reserved : ℕ) (words : List ℕ) → AllByRecursion (λ tail. HasFault (numbers 136 0 0 4 0 0 0 2 0 0 80 tail 1 reserved words) fault.Head) (0 ∷ 1 ∷ 18446744073709551614 ∷ []) }
    ensures reserved { (words : List ℕ) → HasFault (numbers 136 0 0 4 0 0 0 2 0 0 80 greatest 1 1 words) fault.Reserved }
    ensures reserved_words { AllByRecursion (λ words. HasFault (numbers 136 0 0 4 0 0 0 2 0 0 80 1 0 0 words) fault.Reserved) ((1 ∷ 0 ∷ 0 ∷ 0 ∷ 0 ∷ 0 ∷ []) ∷ (0 ∷ 0 ∷ 0 ∷ 0 ∷ 0 ∷ greatest ∷ []) ∷ []) }
{}

/// Numbers that may be missing: a width, by the greatest number, and a head and a delimiter, by 0. How many bytes an output
/// may have. A list that is none, and one that is no text.
pub fn numbers_by_hand()
    ensures no_width { number_in greatest ≡ None }
    ensures width { number_in 0 ≡ Some 0 }
    ensures no_head { head_in 0 ≡ None }
    ensures head { head_in greatest ≡ Some greatest }
    ensures no_delimiter { delimiter_in 0 ≡ None }
    ensures delimiter { delimiter_in 44 ≡ Some 44 }
    ensures most { most_of 7 ≡ 7 }
    ensures any_size { most_of greatest ≡ 18446744073709551614 }
    ensures no_list { (read : List ℕ → Option (List ℕ)) → list_in read [] ≡ Some [] }
    ensures no_text { (read : List ℕ → Option (List ℕ)) → list_in read (0xff ∷ []) ≡ None }
{}

/// The status and the answer of each outcome.
pub fn outcomes_by_number()
    ensures output { (size : ℕ) → IsReportedBy (Ok (record { bytes = size; wider = false })) 0 (answers size 0 0 0 0 0) }
    ensures wider { (size : ℕ) → IsReportedBy (Ok (record { bytes = size; wider = true })) 0 (answers size 1 0 0 0 0) }
    ensures not_text { (line field : ℕ) → IsReportedBy (Err (OfRun (OfInput (input.NotText line field)))) 1 (answers 0 0 line field 0 0) }
    ensures escape { (line field : ℕ) → IsReportedBy (Err (OfRun (OfInput (input.Escape line field)))) 2 (answers 0 0 line field 0 0) }
    ensures cell_not_text { (row column : ℕ) → IsReportedBy (Err (OfCell (cell.NotText row column))) 1 (answers 0 0 0 0 row column) }
    ensures cell_escape { (row column : ℕ) → IsReportedBy (Err (OfCell (cell.Escape row column))) 2 (answers 0 0 0 0 row column) }
    ensures range { IsReportedBy (Err (OfRun (OfPrint (print.Table (build.Table table.Range))))) 3 (answers 0 0 0 0 0 0) }
    ensures line_too_wide { (row column : ℕ) → IsReportedBy (Err (OfRun (OfPrint (print.Table (build.Table (table.Room row column)))))) 4 (answers 0 0 0 0 row column) }
    ensures memory { IsReportedBy (Err (OfRun NoMemory)) 5 (answers 0 0 0 0 0 0) }
    ensures memory_to_read { IsReportedBy (Err (OfRun (OfInput input.Memory))) 5 (answers 0 0 0 0 0 0) }
    ensures memory_to_print { IsReportedBy (Err (OfRun (OfPrint print.Memory))) 5 (answers 0 0 0 0 0 0) }
    ensures memory_for_a_table { IsReportedBy (Err (OfRun (OfPrint (print.Table (build.Table table.Memory))))) 5 (answers 0 0 0 0 0 0) }
    ensures quote { (line : ℕ) → IsReportedBy (Err (OfRun (OfInput (input.Quote line)))) 10 (answers 0 0 line 0 0 0) }
    ensures write { IsReportedBy (Err (OfRun (OfPrint (print.Table build.Write)))) 8 (answers 0 0 0 0 0 0) }
    ensures write_zero { IsReportedBy (Err (OfRun (OfPrint (print.Table build.WriteZero)))) 9 (answers 0 0 0 0 0 0) }
    ensures no_column { (name : _) → IsReportedBy (Err (OfRun (OfPrint (print.NoColumn name)))) 11 (answers 0 0 0 0 0 0) }
    ensures spans { IsReportedBy (Err (OfRun (OfPrint (print.Table (build.Table table.Spans))))) 12 (answers 0 0 0 0 0 0) }
    ensures over { IsReportedBy (Err Over) 13 (answers 0 0 0 0 0 0) }
    ensures size { IsReportedBy (Err (OfRequest fault.Size)) 33 (answers 0 0 0 0 0 0) }
    ensures style { IsReportedBy (Err (OfRequest fault.Style)) 34 (answers 0 0 0 0 0 0) }
    ensures priority { IsReportedBy (Err (OfRequest fault.Priority)) 35 (answers 0 0 0 0 0 0) }
    ensures truncate { IsReportedBy (Err (OfRequest fault.Truncate)) 36 (answers 0 0 0 0 0 0) }
    ensures reserved { IsReportedBy (Err (OfRequest fault.Reserved)) 38 (answers 0 0 0 0 0 0) }
    ensures color { IsReportedBy (Err (OfList list.Color)) 39 (answers 0 0 0 0 0 0) }
    ensures delimiter { IsReportedBy (Err (OfRequest fault.Delimiter)) 40 (answers 0 0 0 0 0 0) }
    ensures no_header { IsReportedBy (Err (OfRequest fault.NoHeader)) 41 (answers 0 0 0 0 0 0) }
    ensures rules { IsReportedBy (Err (OfRequest fault.Rules)) 42 (answers 0 0 0 0 0 0) }
    ensures escapes { IsReportedBy (Err (OfRequest fault.Escapes)) 43 (answers 0 0 0 0 0 0) }
    ensures expanded { IsReportedBy (Err (OfRequest fault.Expanded)) 44 (answers 0 0 0 0 0 0) }
    ensures width { IsReportedBy (Err (OfRequest fault.Width)) 45 (answers 0 0 0 0 0 0) }
    ensures align { IsReportedBy (Err (OfList list.Align)) 46 (answers 0 0 0 0 0 0) }
    ensures columns { IsReportedBy (Err (OfList list.Columns)) 47 (answers 0 0 0 0 0 0) }
    ensures all_columns { IsReportedBy (Err (OfRequest fault.AllColumns)) 48 (answers 0 0 0 0 0 0) }
    ensures lengths { IsReportedBy (Err (OfCell cell.Lengths)) 49 (answers 0 0 0 0 0 0) }
    ensures head { IsReportedBy (Err (OfRequest fault.Head)) 50 (answers 0 0 0 0 0 0) }
{}

/// A request with a number that has no meaning is refused by the first of these, with any lists, records and memory, and then
/// nothing is written.
pub fn first_faults_are_reported()
    ensures text { (request : Asked) (which : AskedFault) → first_fault request ≡ Some which →
        (lists : Texts) (given old new : List ℕ) (status : ℕ) (answer : Reported) → ReportsText request lists given old new status answer → AreOfFault which old new status answer }
    ensures cells { (request : Asked) (which : AskedFault) → first_fault request ≡ Some which →
        (lists : Texts) (all : Given) (old new : List ℕ) (status : ℕ) (answer : Reported) → ReportsCells request lists all old new status answer → AreOfFault which old new status answer }
{}

/// What each number of a request means, from 0 on, as `include/basinmug.h` says.
pub fn meanings_by_hand()
    ensures styles { line_styles ≡ Ascii ∷ Modern ∷ Extended ∷ Empty ∷ Rounded ∷ Markdown ∷ [] }
    ensures rules { all_rules ≡ BelowHeader ∷ AllRules ∷ NoRules ∷ [] }
    ensures escapes { all_escapes ≡ Colors ∷ AllEscapes ∷ NoEscapes ∷ [] }
    ensures priorities { priorities ≡ InTurns ∷ MinRight ∷ MaxRight ∷ Left ∷ Right ∷ [] }
    ensures columns { columns_shown ≡ Fitting ∷ AllShown ∷ [] }
{}

/// The options of two requests, whose numbers mean other things.
pub fn options_by_number()
    ensures no_header { (lists : Texts) (options : Meant) → AreOptionsOf some_numbers lists options → options.header ≡ false }
    ensures ascii { (lists : Texts) (options : Meant) → AreOptionsOf some_numbers lists options → options.line_style ≡ Ascii }
    ensures all_rules { (lists : Texts) (options : Meant) → AreOptionsOf some_numbers lists options → options.rules ≡ AllRules }
    ensures no_escapes { (lists : Texts) (options : Meant) → AreOptionsOf some_numbers lists options → options.escapes ≡ NoEscapes }
    ensures wrapped { (lists : Texts) (options : Meant) → AreOptionsOf some_numbers lists options → options.truncate ≡ false }
    ensures leftmost { (lists : Texts) (options : Meant) → AreOptionsOf some_numbers lists options → options.priority ≡ Left }
    ensures expanded { (lists : Texts) (options : Meant) → AreOptionsOf some_numbers lists options → options.expanded ≡ true }
    ensures fitting { (lists : Texts) (options : Meant) → AreOptionsOf some_numbers lists options → options.columns_shown ≡ Fitting }
    ensures width { (lists : Texts) (options : Meant) → AreOptionsOf some_numbers lists options → options.width ≡ Some 60 }
    ensures tail { (lists : Texts) (options : Meant) → AreOptionsOf some_numbers lists options → options.tail ≡ Some 5 }
    ensures no_first { (lists : Texts) (options : Meant) → AreOptionsOf some_numbers lists options → options.max_rows ≡ None }
    ensures first_rows { (lists : Texts) (options : Meant) → AreOptionsOf (record some_numbers { max_rows = 7 }) lists options → options.max_rows ≡ Some 7 }
    ensures header { (lists : Texts) (options : Meant) → AreOptionsOf other_numbers lists options → options.header ≡ true }
    ensures markdown { (lists : Texts) (options : Meant) → AreOptionsOf other_numbers lists options → options.line_style ≡ Markdown }
    ensures no_rules { (lists : Texts) (options : Meant) → AreOptionsOf other_numbers lists options → options.rules ≡ NoRules }
    ensures all_escapes { (lists : Texts) (options : Meant) → AreOptionsOf other_numbers lists options → options.escapes ≡ AllEscapes }
    ensures cut { (lists : Texts) (options : Meant) → AreOptionsOf other_numbers lists options → options.truncate ≡ true }
    ensures rightmost { (lists : Texts) (options : Meant) → AreOptionsOf other_numbers lists options → options.priority ≡ Right }
    ensures table { (lists : Texts) (options : Meant) → AreOptionsOf other_numbers lists options → options.expanded ≡ false }
    ensures all_columns { (lists : Texts) (options : Meant) → AreOptionsOf other_numbers lists options → options.columns_shown ≡ AllShown }
    ensures any_width { (lists : Texts) (options : Meant) → AreOptionsOf other_numbers lists options → options.width ≡ None }
    ensures no_tail { (lists : Texts) (options : Meant) → AreOptionsOf other_numbers lists options → options.tail ≡ None }
    ensures some_mean { first_fault some_numbers ≡ None }
    ensures others_mean { first_fault other_numbers ≡ None }
{}

/// Three lists, and what each says. The first that does not have the form, where the others do not either.
pub fn lists_by_hand()
    ensures columns { columns_in (texts (codes "2,0") (codes "1=right") (codes "0=red")) ≡ Some (Single (Numbered 2) ∷ Single (Numbered 0) ∷ []) }
    ensures alignments { alignments_in (texts (codes "2,0") (codes "1=right") (codes "0=red")) ≡ Some ((Numbered 1, AtRight) ∷ []) }
    ensures colors { colors_in (texts (codes "2,0") (codes "1=right") (codes "0=red"))
        ≡ Some ((Numbered 0, color_of_texts (codes "\u{1b}[31m") (codes "\u{1b}[39m")) ∷ []) }
    ensures first { IsFirstBadList (texts (codes "3-1") (codes "x") (codes "x")) list.Columns }
    ensures second { IsFirstBadList (texts (codes "2") (codes "x") (codes "x")) list.Align }
    ensures third { IsFirstBadList (texts (codes "2") (codes "1=right") (codes "x")) list.Color }
{}

/// What is read of a text and of cells of which a delimiter, three records and ten bytes are requested, and of a text and of
/// cells of which one record below the header is. The records of a text begin after a line that says what separates fields.
pub fn texts_by_hand()
    ensures numbers { (lists : Texts) (text old new : List ℕ) (size : Size) → IsOutcome (record some_numbers { head = 3; max_size = 10 }) lists text old new (Ok size) →
        (options : Meant) × IsTextPrinted options (Some 59) (Some 3) text 10 old new (Ok size) }
    ensures cells { (lists : Texts) (all : Given) (old new : List ℕ) (size : Size) → IsCellsOutcome (record some_numbers { head = 3; max_size = 10 }) lists all old new (Ok size) →
        (options : Meant) × IsCellsPrinted options (Some 3) all 10 old new (Ok size) }
    ensures header { (options : Meant) (text old new : List ℕ) (outcome : Result Size Refusal) → options.header ≡ true →
        IsTextPrinted options (Some 59) (Some 1) text greatest old new outcome → (bytes : List ℕ) × AreReadOf (Some 59) (Some 2) text bytes }
    ensures header_of_cells { (options : Meant) (all : Given) (old new : List ℕ) (size : Size) → options.header ≡ true →
        IsCellsPrinted options (Some 1) all greatest old new (Ok size) → (rows : List (List (List ℕ))) × IsReadCells options.escapes (Some 2) all rows }
    ensures after_a_line { read_as (record { delimiter = 59; start = 5 }) (codes "sep=;\na;b") ≡ delimited 59 (codes "\na;b") }
{}
