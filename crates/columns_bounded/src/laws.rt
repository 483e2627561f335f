//! Laws of requests and answers, with numbers worked by hand. The functions do nothing.
ghost use Rattle.std.specs.Prelude.{◌≡◌, ◌≢◌, ◌∷◌, ℕ, List, [], Option, None, Some, Ok, Err, codes, encode_utf8_all, length, replicate};
ghost use Rattle.std.specs.List.{AllByRecursion};
ghost use Rattle.columns_asked.specs.Colors.Worked.{red};
ghost use Rattle.columns_bounded.specs.Answers.{IsOver, IsWithin, OfWanted, Tells};
ghost use Rattle.columns_bounded.specs.Requests.{colors_in, most_by, width_by};
ghost use Rattle.columns_bounded.specs.Texts.{TellsStripped, TellsWidth};
ghost use Rattle.columns_bounded.specs.Worked.{IsRefusedBy, IsTaken, IsToldBy, asks, drawn_by, greatest_32, greatest_64, numbers, tells};
ghost use Rattle.columns_bounded.specs.declared.fault.AnswerFault.TheVariants.{Request, Colors, Text, OverMaxSize};
ghost use Rattle.columns_bounded.specs.declared.answer.Answer.{Answer as Reported};
ghost use Rattle.columns_bounded.specs.declared.request.Request.{Request as Asked};
ghost use Rattle.columns_bounded.specs.declared.request.RequestFault.TheVariants.{Version, Style, Priority, Truncate, KeepWords, Reserved};
ghost use Rattle.columns_run.specs.DrawnTables.{output_of};
ghost use Rattle.program_options.specs.declared.columns.fault.RunFault.TheVariants.{Read, ReadTooLong, NotUtf8, Escape, Range, LineTooWide, Write, WriteZero, Memory};

/// What each number of a style draws.
pub fn styles_by_number()
    ensures ascii { drawn_by (asks 0 greatest_64 0 0 0) (codes "a\tb\n1\t2\n") ≡ codes "+---+---+\n| a | b |\n+---+---+\n| 1 | 2 |\n+---+---+\n" }
    ensures modern { drawn_by (asks 1 greatest_64 0 0 0) (codes "a\tb\n1\t2\n") ≡ encode_utf8_all (codes "┌───┬───┐\n│ a │ b │\n├───┼───┤\n│ 1 │ 2 │\n└───┴───┘\n") }
    ensures extended { drawn_by (asks 2 greatest_64 0 0 0) (codes "a\tb\n1\t2\n") ≡ encode_utf8_all (codes "╔═══╦═══╗\n║ a ║ b ║\n╠═══╬═══╣\n║ 1 ║ 2 ║\n╚═══╩═══╝\n") }
    ensures empty { drawn_by (asks 3 greatest_64 0 0 0) (codes "a\tb\n1\t2\n") ≡ codes " a  b \n 1  2 \n" }
{}

/// Which columns give up two columns of width by each number of a priority: each in turn, the narrowest, the widest,
/// the leftmost, the rightmost. What passes them is cut off.
pub fn priorities_by_number()
    ensures in_turns { drawn_by (asks 0 17 0 1 0) (codes "abc\tde\tfghi\n") ≡ codes "+----+---+------+\n| ab | d | fghi |\n+----+---+------+\n" }
    ensures narrowest { drawn_by (asks 0 17 1 1 0) (codes "abc\tde\tfghi\n") ≡ codes "+-----+--+------+\n| abc |  | fghi |\n+-----+--+------+\n" }
    ensures widest { drawn_by (asks 0 17 2 1 0) (codes "abc\tde\tfghi\n") ≡ codes "+----+----+-----+\n| ab | de | fgh |\n+----+----+-----+\n" }
    ensures leftmost { drawn_by (asks 0 17 3 1 0) (codes "abc\tde\tfghi\n") ≡ codes "+---+----+------+\n| a | de | fghi |\n+---+----+------+\n" }
    ensures rightmost { drawn_by (asks 0 17 4 1 0) (codes "abc\tde\tfghi\n") ≡ codes "+-----+----+----+\n| abc | de | fg |\n+-----+----+----+\n" }
{}

/// What becomes of a text of six columns in four: it is wrapped anywhere, or between words; or it is cut off, and then
/// words change nothing.
pub fn ways_by_number()
    ensures anywhere { drawn_by (asks 0 8 0 0 0) (codes "ab cde\n") ≡ codes "+------+\n| ab c |\n| de   |\n+------+\n" }
    ensures between_words { drawn_by (asks 0 8 0 0 1) (codes "ab cde\n") ≡ codes "+------+\n| ab   |\n| cde  |\n+------+\n" }
    ensures cut { drawn_by (asks 0 8 0 1 0) (codes "ab cde\n") ≡ codes "+------+\n| ab c |\n+------+\n" }
    ensures cut_with_words { drawn_by (asks 0 8 0 1 1) (codes "ab cde\n") ≡ codes "+------+\n| ab c |\n+------+\n" }
{}

/// The greatest number alone means no width.
pub fn widths_by_number()
    ensures greatest { width_by greatest_64 ≡ None }
    ensures next { width_by 18446744073709551614 ≡ Some 18446744073709551614 }
    ensures of_32_bits { width_by greatest_32 ≡ Some greatest_32 }
    ensures one { width_by 1 ≡ Some 1 }
    ensures least { width_by 0 ≡ Some 0 }
{}

/// Each number with a meaning is accepted, whatever the width is, and so is each greatest size.
pub fn numbers_that_are_taken()
    ensures styles { (width : ℕ) → AllByRecursion (λ style. IsTaken (asks style width 4 1 1)) (0 ∷ 1 ∷ 2 ∷ 3 ∷ []) }
    ensures priorities { (width : ℕ) → AllByRecursion (λ priority. IsTaken (asks 3 width priority 1 1)) (0 ∷ 1 ∷ 2 ∷ 3 ∷ 4 ∷ []) }
    ensures truncates { (width : ℕ) → AllByRecursion (λ truncate. IsTaken (asks 3 width 4 truncate 1)) (0 ∷ 1 ∷ []) }
    ensures words { (width : ℕ) → AllByRecursion (λ keep_words. IsTaken (asks 3 width 4 1 keep_words)) (0 ∷ 1 ∷ []) }
    ensures sizes { (width max_size : ℕ) → IsTaken (numbers 1 3 4 1 1 0 (0 ∷ 0 ∷ 0 ∷ []) width max_size) }
{}

/// Each number without a meaning, from the first on, is refused by its own status, whatever the numbers are that are
/// checked after it.
pub fn numbers_that_are_refused()
    ensures version { (style priority truncate keep_words reserved : ℕ) (words : List ℕ) (width max_size : ℕ) →
        AllByRecursion (λ version. IsRefusedBy 33 (numbers version style priority truncate keep_words reserved words width max_size)) (0 ∷ 2 ∷ greatest_32 ∷ []) }
    ensures style { (priority truncate keep_words reserved : ℕ) (words : List ℕ) (width max_size : ℕ) →
        AllByRecursion (λ style. IsRefusedBy 34 (numbers 1 style priority truncate keep_words reserved words width max_size)) (4 ∷ greatest_32 ∷ []) }
    ensures priority { (truncate keep_words reserved : ℕ) (words : List ℕ) (width max_size : ℕ) →
        AllByRecursion (λ priority. IsRefusedBy 35 (numbers 1 3 priority truncate keep_words reserved words width max_size)) (5 ∷ greatest_32 ∷ []) }
    ensures truncate { (keep_words reserved : ℕ) (words : List ℕ) (width max_size : ℕ) →
        AllByRecursion (λ truncate. IsRefusedBy 36 (numbers 1 3 4 truncate keep_words reserved words width max_size)) (2 ∷ greatest_32 ∷ []) }
    ensures keep_words { (reserved : ℕ) (words : List ℕ) (width max_size : ℕ) →
        AllByRecursion (λ keep_words. IsRefusedBy 37 (numbers 1 3 4 1 keep_words reserved words width max_size)) (2 ∷ greatest_32 ∷ []) }
    ensures reserved { (words : List ℕ) (width max_size : ℕ) → AllByRecursion (λ reserved. IsRefusedBy 38 (numbers 1 3 4 1 1 reserved words width max_size)) (1 ∷ greatest_32 ∷ []) }
    ensures reserved_words { (width max_size : ℕ) → AllByRecursion (λ words. IsRefusedBy 38 (numbers 1 3 4 1 1 0 words width max_size))
        ((1 ∷ 0 ∷ 0 ∷ []) ∷ (0 ∷ 1 ∷ 0 ∷ []) ∷ (0 ∷ 0 ∷ 1 ∷ []) ∷ (0 ∷ 0 ∷ greatest_64 ∷ []) ∷ []) }
{}

/// The status and the numbers of each outcome.
pub fn outcomes_by_number()
    ensures table { (size : ℕ) → IsToldBy (Ok size) 0 (tells size 0 0 0) }
    ensures not_utf8 { (at : ℕ) → IsToldBy (Err (Text (NotUtf8 at))) 1 (tells 0 at 0 0) }
    ensures escape { (at : ℕ) → IsToldBy (Err (Text (Escape at))) 2 (tells 0 at 0 0) }
    ensures range { IsToldBy (Err (Text Range)) 3 (tells 0 0 0 0) }
    ensures line_too_wide { (row column : ℕ) → IsToldBy (Err (Text (LineTooWide row column))) 4 (tells 0 0 row column) }
    ensures memory { IsToldBy (Err (Text Memory)) 5 (tells 0 0 0 0) }
    ensures too_long { IsToldBy (Err (Text ReadTooLong)) 6 (tells 0 0 0 0) }
    ensures read { IsToldBy (Err (Text Read)) 7 (tells 0 0 0 0) }
    ensures write { IsToldBy (Err (Text Write)) 8 (tells 0 0 0 0) }
    ensures write_zero { IsToldBy (Err (Text WriteZero)) 9 (tells 0 0 0 0) }
    ensures version { IsToldBy (Err (Request Version)) 33 (tells 0 0 0 0) }
    ensures style { IsToldBy (Err (Request Style)) 34 (tells 0 0 0 0) }
    ensures priority { IsToldBy (Err (Request Priority)) 35 (tells 0 0 0 0) }
    ensures truncate { IsToldBy (Err (Request Truncate)) 36 (tells 0 0 0 0) }
    ensures keep_words { IsToldBy (Err (Request KeepWords)) 37 (tells 0 0 0 0) }
    ensures reserved { IsToldBy (Err (Request Reserved)) 38 (tells 0 0 0 0) }
    ensures colors { IsToldBy (Err Colors) 39 (tells 0 0 0 0) }
    ensures over { IsToldBy (Err OverMaxSize) 13 (tells 0 0 0 0) }
{}

/// No greatest size, by 0; the least, and the greatest. Of a size as great as it may be, and of one more.
pub fn greatest_sizes_by_number()
    ensures none { most_by 0 ≡ None }
    ensures one { most_by 1 ≡ Some 1 }
    ensures greatest { most_by greatest_64 ≡ Some greatest_64 }
    ensures within { IsWithin (Some 44) 44 }
    ensures not_within { ¬ IsWithin (Some 44) 45 }
    ensures over { IsOver (Some 44) 45 }
    ensures not_over { ¬ IsOver (Some 44) 44 }
    ensures any { (size : ℕ) → IsWithin None size × ¬ IsOver None size }
{}

/// A table that is reported has at most so many bytes as the request allows. If it had more, by status 13, then nothing is
/// written, and all numbers are zero.
pub fn greatest_sizes_are_kept()
    ensures within { (request : Asked) (list : Option (List ℕ)) (text old new : List ℕ) (status : ℕ) (answer : Reported) → Tells request list text old new status answer →
        status ≡ 0 → IsWithin (most_by request.max_size) answer.size }
    ensures over { (request : Asked) (list : Option (List ℕ)) (text old new : List ℕ) (status : ℕ) (answer : Reported) → Tells request list text old new status answer →
        status ≡ 13 → OfWanted request list (λ wanted. IsOver (most_by request.max_size) (length (output_of wanted text))) × (new ≡ old) × (answer ≡ tells 0 0 0 0) }
{}

/// Without a list there are no colours; an empty list, and one that is no text, have not the form; one colour.
pub fn lists_by_hand()
    ensures none { colors_in None ≡ Some [] }
    ensures empty { colors_in (Some []) ≡ None }
    ensures no_text { colors_in (Some (0xff ∷ [])) ≡ None }
    ensures one { colors_in (Some (codes "0=red")) ≡ Some ((0, red) ∷ []) }
{}

/// What is reported of a text. It takes the columns of its widest line, without its sequences. Without them it is written as
/// far as it fits, and the memory after it stays. A byte that is in no text is reported by its place.
pub fn texts_by_hand()
    ensures width { (status : ℕ) (answer : Reported) → TellsWidth (codes "\u{1b}[31mab\u{1b}[0m\nc\n") status answer → (status ≡ 0) × (answer ≡ tells 2 0 0 0) }
    ensures stripped { (new : List ℕ) (answer : Reported) → TellsStripped (codes "\u{1b}[31mab\u{1b}[0m") (codes "xyz") new 0 answer → (answer ≡ tells 2 0 0 0) × (new ≡ codes "abz") }
    ensures no_room { (new : List ℕ) (answer : Reported) → TellsStripped (codes "\u{1b}[31mab\u{1b}[0m") (codes "x") new 0 answer → (answer ≡ tells 2 0 0 0) × (new ≡ codes "a") }
    ensures no_width { (status : ℕ) (answer : Reported) → TellsWidth (0x61 ∷ 0xff ∷ []) status answer → (status ≡ 1) × (answer ≡ tells 0 1 0 0) }
    ensures not_stripped { (old new : List ℕ) (status : ℕ) (answer : Reported) → TellsStripped (0x61 ∷ 0xff ∷ []) old new status answer → (status ≡ 1) × (answer ≡ tells 0 1 0 0) × (new ≡ old) }
{}

/// What is reported of a table: its size, and as much of it as fits; and its bytes in the colours of a list, and the memory
/// after them. A list without the form gives no table.
pub fn tables_by_hand()
    ensures no_room { (new : List ℕ) (answer : Reported) → Tells (asks 0 greatest_64 0 0 0) None (codes "a\n") (codes "xyz") new 0 answer →
        (answer ≡ tells 18 0 0 0) × (new ≡ codes "+--") }
    ensures colored { (new : List ℕ) (answer : Reported) → Tells (asks 0 greatest_64 0 0 0) (Some (codes "0=red")) (codes "a\n") (replicate 30 0x2e) new 0 answer →
        (answer ≡ tells 28 0 0 0) × (new ≡ codes "+---+\n| \u{1b}[31ma\u{1b}[39m |\n+---+\n..") }
    ensures no_list { (old new : List ℕ) (status : ℕ) (answer : Reported) → Tells (asks 0 greatest_64 0 0 0) (Some (codes "0=pink")) (codes "a\n") old new status answer → status ≢ 5 →
        (status ≡ 39) × (answer ≡ tells 0 0 0 0) × (new ≡ old) }
{}
