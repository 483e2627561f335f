//! What tables are made of, worked out by hand: texts of errors, colours, tabs, sides, rooms, counts and orders. Laws alone.
ghost use Rattle.std.specs.Prelude.{◌≡◌, ◌∷◌, ◌-◌, ◌^◌, ℕ, List, String as Bytes, Err, None, Ok, Some, [], codes, false, string_bytes, true};
ghost use Rattle.std.proofs.Common.{Global as Heap};
ghost use Rattle.std.specs.declared.cmp.Ordering.TheVariants.{Greater, Less};
ghost use Rattle.ansi_scan.specs.Pieces.{pieces};
ghost use Rattle.grid_config.specs.Ansi.Colors.{color_of, is_no_color, no_color};
ghost use Rattle.grid_config.specs.Ansi.Fault.{fault_text as color_fault_text};
ghost use Rattle.grid_config.specs.Compact.{each_side, map_borders, new_compact, side_colors};
ghost use Rattle.grid_config.specs.Looks.{Look};
ghost use Rattle.grid_config.specs.Settings.{side_colors_if};
ghost use Rattle.grid_config.specs.declared.colors.borrowed.ANSIStr.{ANSIStr};
ghost use Rattle.grid_config.specs.declared.colors.fault.BufFault.TheVariants.{Memory as NoMemoryForColor, NoBlock};
ghost use Rattle.grid_config_values.specs.Fault.{fault_text};
ghost use Rattle.grid_config_values.specs.Glyphs.{boundary_count, has_column_boundary, no_borders};
ghost use Rattle.grid_config_values.specs.Spans.Owners.{owner};
ghost use Rattle.grid_config_values.specs.Spans.Spans.{extent_at};
ghost use Rattle.grid_config_values.specs.declared.entity.Entity.TheVariants.{Global as EveryCell};
ghost use Rattle.grid_config_values.specs.declared.fault.Fault.TheVariants.{Memory, Range, Room, Spans};
ghost use Rattle.grid_config_values.specs.declared.borders.Borders.{Borders};
ghost use Rattle.grid_config_values.specs.declared.sides.Sides.{Sides};
ghost use Rattle.grid_records_measure.specs.Tabs.{tabs_replaced};
ghost use Rattle.papergrid_picture.specs.Fitting.{FitsAnswer, InRange};
ghost use Rattle.papergrid_picture.specs.Frame.{Frame};
ghost use Rattle.papergrid_picture.specs.Picture.{at};
ghost use Rattle.tabled.specs.Tables.{new_look};
ghost use Rattle.tabled_compact.specs.Columns.{spaced_widths};
ghost use Rattle.tabled_compact.specs.Iter.Tables.{begun};
ghost use Rattle.tabled_compact.specs.Tables.{begun_settings};
ghost use Rattle.tabled_list.specs.Settings.{cutting_by, setting_step};
ghost use Rattle.tabled_list.specs.Stripping.Printing.{printed};
ghost use Rattle.tabled_list.specs.declared.amount.Amount.TheVariants.{Exact};
ghost use Rattle.tabled_list.specs.declared.setting.Setting.TheVariants.{HeightIncrease, HeightLimit, MinWidth, Truncate};
ghost use Rattle.tabled_options.specs.Formatting.{with_strategy, with_trim};
ghost use Rattle.tabled_options.specs.Multiline.Multiline.{multiline_look, over};
ghost use Rattle.tabled_options.specs.Options.{filled_sides, spaced_sides};
ghost use Rattle.tabled_options.specs.declared.formatting.AlignmentStrategy.TheVariants.{PerCell, PerLine};
ghost use Rattle.tabled_options.specs.declared.formatting.TrimStrategy.TheVariants.{Horizontal as OfLines, Vertical as OfTexts};
ghost use Rattle.tabled_output.specs.Building.{build_fault_text};
ghost use Rattle.tabled_output.specs.Counts.{empty_writes_after, is_write_refused, next_count};
ghost use Rattle.tabled_output.specs.Faults.{fault_text as write_fault_text, read_fault_text};
ghost use Rattle.tabled_output.specs.declared.building.BuildFault.TheVariants.{Table, Write as WriteOfTable, WriteZero as NoWriteOfTable};
ghost use Rattle.tabled_output.specs.declared.reading.ReadFault.TheVariants.{Memory as NoMemoryToRead, Read, TooLong};
ghost use Rattle.tabled_output.specs.declared.writing.WriteFault.TheVariants.{Write, WriteZero};
ghost use Rattle.tabled_pool.specs.Boxes.Order.{compared};
ghost use Rattle.tabled_pool.specs.Boxes.Values.{Beside, Member, NoMore, Stacked, Text};
ghost use Rattle.tabled_pool.specs.Pools.{PassesRange, begun as begun_pool, rows_nesting, text_of};
ghost use Rattle.tabled_size.specs.Dimension.Order.{stored_cmp};
ghost use Rattle.tabled_size.specs.Dimension.Stored.{none_stored};
ghost use Rattle.tabled_size.specs.declared.dimension.suffix.SuffixLimit.TheVariants.{Cut, Replace};
ghost use Rattle.tabled_size_priority.specs.Leasts.{GoInTwoSteps, greater};
ghost use Rattle.tabled_size_priority.specs.declared.choice.Choice.TheVariants.{Left as FromLeft};
ghost use Rattle.tabled_steps.specs.Looks.{with_column_span};
ghost use Rattle.tabled_steps.specs.States.{State};
ghost use Rattle.tabled_width.specs.Order.{truncation_cmp, widening_cmp};
ghost use Rattle.tabled_width.specs.Rooms.{text_room};
ghost use Rattle.tables_laws.specs.Worked.Tables.{Gives, at_the_right, below, beside, of_one};

/// The texts of errors: of a table, of a writer and a reader, of a table that is written, and of a text that has no colour.
pub fn errors_by_hand()
    ensures memory { fault_text Memory ≡ codes "out of memory" }
    ensures range { fault_text Range ≡ codes "size out of range" }
    ensures spans { fault_text Spans ≡ codes "bad spans" }
    ensures room { fault_text (Room 3 10) ≡ codes "row 3 column 10 does not fit" }
    ensures write { write_fault_text Write ≡ codes "write failed" }
    ensures write_zero { write_fault_text WriteZero ≡ codes "writer took nothing" }
    ensures read { read_fault_text Read ≡ codes "read failed" }
    ensures too_long { read_fault_text TooLong ≡ codes "input too long" }
    ensures memory_to_read { read_fault_text NoMemoryToRead ≡ codes "out of memory" }
    ensures table { build_fault_text (Table (Room 1 23)) ≡ codes "row 1 column 23 does not fit" }
    ensures write_of_table { build_fault_text WriteOfTable ≡ codes "write failed" }
    ensures no_write_of_table { build_fault_text NoWriteOfTable ≡ codes "writer took nothing" }
    ensures no_color { color_fault_text NoBlock ≡ codes "no text to take a colour from" }
    ensures memory_for_color { color_fault_text NoMemoryForColor ≡ codes "out of memory" }
{}

/// Only a colour of two empty texts is none. Each side, and each place of a border, keeps its own colour.
pub fn colors_by_hand()
    ensures empty { is_no_color (record { prefix = []; suffix = [] }) ≡ true }
    ensures prefix { is_no_color (record { prefix = codes "a"; suffix = [] }) ≡ false }
    ensures suffix { is_no_color (record { prefix = []; suffix = codes "a" }) ≡ false }
    ensures sides { (left right top bottom : ℕ) → side_colors_if (record { left = (record { prefix = left ∷ []; suffix = [] }); right = (record { prefix = right ∷ []; suffix = [] }); top = (record { prefix = top ∷ []; suffix = [] }); bottom = (record { prefix = bottom ∷ []; suffix = [] }) })
        ≡ record { left = Some (record { prefix = left ∷ []; suffix = [] }); right = Some (record { prefix = right ∷ []; suffix = [] }); top = Some (record { prefix = top ∷ []; suffix = [] }); bottom = Some (record { prefix = bottom ∷ []; suffix = [] }) } }
    ensures none { side_colors_if (each_side no_color) ≡ each_side None }
    ensures places { (borders : Borders ℕ) → map_borders (λ glyph. glyph) borders ≡ borders }
    ensures left { (sides : Sides ANSIStr) → (side_colors sides).left ≡ color_of sides.left }
    ensures right { (sides : Sides ANSIStr) → (side_colors sides).right ≡ color_of sides.right }
    ensures top { (sides : Sides ANSIStr) → (side_colors sides).top ≡ color_of sides.top }
    ensures bottom { (sides : Sides ANSIStr) → (side_colors sides).bottom ≡ color_of sides.bottom }
{}

/// Spaces in the place of tabs: so many, none, and not within a sequence.
pub fn tabs_by_hand()
    ensures spaces { tabs_replaced 2 (pieces (codes "a\tb")) ≡ codes "a  b" }
    ensures none { tabs_replaced 0 (pieces (codes "\ta\t")) ≡ codes "a" }
    ensures within_a_sequence { tabs_replaced 1 (pieces (codes "\u{1b}]0;a\tb\u{7}\t")) ≡ codes "\u{1b}]0;a\tb\u{7} " }
{}

/// Writes that are counted as such that took nothing, or as refused: not those of an empty piece. The greatest count is
/// followed by 0.
pub fn counts_by_hand()
    ensures nothing_given { empty_writes_after {E = ℕ} (Ok 0) [] 3 ≡ 3 }
    ensures nothing_taken { empty_writes_after {E = ℕ} (Ok 0) (codes "a") 3 ≡ 4 }
    ensures some_taken { empty_writes_after {E = ℕ} (Ok 1) (codes "ab") 3 ≡ 3 }
    ensures not_refused { is_write_refused {E = ℕ} (Ok 0) [] ≡ false }
    ensures refused { is_write_refused {E = ℕ} (Ok 0) (codes "a") ≡ true }
    ensures next { next_count 7 ≡ 8 }
    ensures wraps { next_count (2 ^ 64 - 1) ≡ 0 }
{}

/// Sides with sizes and with fills, in their order: left, right, top, bottom.
pub fn sides_by_hand()
    ensures spaced { spaced_sides 1 2 3 4 ≡ record {
      left = record { size = 1; fill = 0x20 };
      right = record { size = 2; fill = 0x20 };
      top = record { size = 3; fill = 0x20 };
      bottom = record { size = 4; fill = 0x20 };
    } }
    ensures filled { filled_sides 0x3c 0x3e 0x5e 0x5f (spaced_sides 1 2 3 4) ≡ record {
      left = record { size = 1; fill = 0x3c };
      right = record { size = 2; fill = 0x3e };
      top = record { size = 3; fill = 0x5e };
      bottom = record { size = 4; fill = 0x5f };
    } }
{}

/// The cell that is seen where two cells that span several overlap: the first by row, then by column. The boundaries of no
/// columns.
pub fn places_by_hand()
    ensures first { owner (extent_at ((record { row = 0; col = 0 }, record { rows = 2; columns = 2 }) ∷ (record { row = 0; col = 1 }, record { rows = 2; columns = 2 }) ∷ []))
        (record { row = 1; col = 1 }) ≡ record { row = 0; col = 0 } }
    ensures by_row { owner (extent_at ((record { row = 1; col = 0 }, record { rows = 2; columns = 2 }) ∷ (record { row = 0; col = 1 }, record { rows = 3; columns = 1 }) ∷ []))
        (record { row = 2; col = 1 }) ≡ record { row = 0; col = 1 } }
    ensures no_columns { boundary_count (has_column_boundary (record (no_borders {T = ℕ}) { left = Some 0x7c })) 0 ≡ 1 }
    ensures no_right { boundary_count (has_column_boundary (record (no_borders {T = ℕ}) { right = Some 0x7c })) 0 ≡ 0 }
{}

/// Bad spans are refused before a size that is out of range, and that before a text that does not fit.
pub fn refusals_by_hand()
    ensures spans_first { (frame : Frame) (rows : List (List (List ℕ))) → FitsAnswer frame rows ⊥ (Err Spans) }
    ensures range_first { (frame : Frame) (rows : List (List (List ℕ))) (row column : ℕ) → FitsAnswer frame rows (Unit {0}) (Err (Room row column)) → InRange frame }
{}

/// The columns of texts of rows, of which the last may lack some, each with two columns more. A table of an iterator looks
/// at a thousand rows first.
pub fn columns_by_hand()
    ensures widths { spaced_widths 2 ((codes "abc" ∷ codes "d" ∷ []) ∷ (codes "e" ∷ codes "fg" ∷ []) ∷ []) ≡ 5 ∷ 4 ∷ [] }
    ensures short { spaced_widths 2 ((codes "a" ∷ []) ∷ []) ≡ 3 ∷ 2 ∷ [] }
    ensures sniffed { (rows : List (List (List ℕ))) → (begun rows).sniff ≡ 1000 }
{}

/// Widths are compared before heights, no list comes before one, and the width of an option before its fill, or its suffix,
/// and that before its switches.
pub fn orders_by_hand()
    ensures widths_first { stored_cmp (record { widths = Some (1 ∷ []); heights = Some (9 ∷ []) }) (record { widths = Some (2 ∷ []); heights = Some (3 ∷ []) }) ≡ Less }
    ensures none_first { stored_cmp none_stored (record { widths = Some []; heights = None }) ≡ Less }
    ensures width_first { widening_cmp (record { width = 2; fill = 0x61; priority = 0 }) (record { width = 1; fill = 0x62; priority = 5 }) ≡ Greater }
    ensures then_fill { widening_cmp (record { width = 1; fill = 0x62; priority = 0 }) (record { width = 1; fill = 0x61; priority = 5 }) ≡ Greater }
    ensures cut_width_first { truncation_cmp (record { width = 1; cutting = cutting_by (codes "b") Cut true true; priority = 9 }) (record { width = 2; cutting = cutting_by (codes "a") Cut false false; priority = 0 }) ≡ Less }
    ensures then_lines { truncation_cmp (record { width = 1; cutting = cutting_by (codes "a") Cut false true; priority = 9 }) (record { width = 1; cutting = cutting_by (codes "a") Cut true false; priority = 0 }) ≡ Less }
    ensures then_suffix { truncation_cmp (record { width = 1; cutting = cutting_by (codes "b") Cut false false; priority = 0 }) (record { width = 1; cutting = cutting_by (codes "a") Cut true true; priority = 9 }) ≡ Greater }
{}

/// A priority with leasts of its own: the greater ones of these and the table's; columns shrink to them first, and then to
/// the table's. Leasts of another number than columns count for nothing, and neither do any where columns grow.
pub fn leasts_by_hand()
    ensures greater { greater (3 ∷ 1 ∷ []) (2 ∷ 2 ∷ []) ≡ 3 ∷ 2 ∷ [] }
    ensures missing { greater (3 ∷ 1 ∷ []) (2 ∷ []) ≡ 3 ∷ 1 ∷ [] }
    ensures first { (asked kept : List ℕ) → GoInTwoSteps (3 ∷ 3 ∷ []) (1 ∷ 1 ∷ []) (5 ∷ 3 ∷ []) asked kept → (asked ≡ 3 ∷ 3 ∷ []) × (kept ≡ 3 ∷ 3 ∷ []) }
    ensures second { (asked kept : List ℕ) → GoInTwoSteps (3 ∷ 3 ∷ []) (1 ∷ 1 ∷ []) (3 ∷ 3 ∷ []) asked kept → asked ≡ 1 ∷ 1 ∷ [] }
    ensures other_count { (asked kept : List ℕ) → GoInTwoSteps (3 ∷ []) (1 ∷ 1 ∷ []) (5 ∷ 5 ∷ []) asked kept → (asked ≡ 1 ∷ 1 ∷ []) × (kept ≡ 3 ∷ []) }
    ensures growth { (asked kept : List ℕ) → GoInTwoSteps (3 ∷ []) [] (5 ∷ []) asked kept → (asked ≡ []) × (kept ≡ 3 ∷ []) }
{}

/// What a format changes of how texts are laid out: the ends of lines, the first and last lines, and how lines are aligned.
/// In a table that no call has changed a line that is blank stays, and each text is aligned as a block.
pub fn formats_by_hand()
    ensures ends { (with_trim OfLines EveryCell new_look).trim_horizontal (at 0 0) ≡ true }
    ensures ends_alone { (with_trim OfLines EveryCell new_look).trim_vertical (at 0 0) ≡ false }
    ensures lines { (with_trim OfTexts EveryCell new_look).trim_vertical (at 0 0) ≡ true }
    ensures lines_alone { (with_trim OfTexts EveryCell new_look).trim_horizontal (at 0 0) ≡ false }
    ensures by_lines { (with_strategy PerLine EveryCell new_look).line_alignment (at 0 0) ≡ true }
    ensures by_cells { (look : Look) → (with_strategy PerCell EveryCell look).line_alignment (at 0 0) ≡ false }
    ensures blank_line { printed (of_one (codes "\na")) ≡ codes "+---+\n|   |\n| a |\n+---+" }
    ensures block { printed (at_the_right (of_one (codes "ab\nc"))) ≡ codes "+----+\n| ab |\n| c  |\n+----+" }
{}

/// What cells leave to their texts: the columns that they take within the table and the boundaries between these, less their
/// paddings; nothing to a hidden cell, or to one that is narrower than it may be.
pub fn rooms_by_hand()
    ensures two { text_room (with_column_span (at 0 0) 2 new_look) (2 ∷ 2 ∷ []) (3 ∷ 4 ∷ []) (at 0 0) ≡ Some 6 }
    ensures hidden { text_room (with_column_span (at 0 0) 2 new_look) (2 ∷ 2 ∷ []) (3 ∷ 4 ∷ []) (at 0 1) ≡ None }
    ensures inside { text_room (with_column_span (at 0 1) 5 new_look) (2 ∷ 2 ∷ 2 ∷ []) (3 ∷ 4 ∷ 5 ∷ []) (at 0 1) ≡ Some 8 }
    ensures too_narrow { text_room new_look (4 ∷ []) (3 ∷ []) (at 0 0) ≡ None }
{}

/// A pool that no call has changed: its rows are one below the other, what is left over is shared, and texts are at the top;
/// without rows it is an empty box. One with its margin is as high as `usize::MAX` at most. Its settings keep their places. A
/// row comes before a column, that before a text, and what has fewer members before what has more.
pub fn pools_by_hand()
    ensures new { text_of (begun_pool (rows_nesting ((codes "a" ∷ codes "x\ny" ∷ []) ∷ (codes "abcdefg" ∷ []) ∷ []))) ≡ codes "+----+----+\n| a  | x  |\n|    | y  |\n+----+----+\n| abcdefg |\n+---------+" }
    ensures no_rows { text_of (begun_pool (rows_nesting [])) ≡ codes "+--+\n|  |\n+--+" }
    ensures shared_lines { text_of (begun_pool (Beside (Member (Stacked (Member (Text (codes "a")) (Member (Text (codes "b")) NoMore))) (Member (Text (codes "1\n2\n3\n4\n5")) NoMore)))) ≡ codes "+---+---+\n| a | 1 |\n|   | 2 |\n+---+ 3 |\n| b | 4 |\n|   | 5 |\n+---+---+" }
    ensures highest { ¬ PassesRange (record (begun_pool (Text [])) { settings = over (record begun_settings { margin = spaced_sides 0 0 (2 ^ 64 - 4) 0 }) }) }
    ensures too_high { PassesRange (record (begun_pool (Text [])) { settings = over (record begun_settings { margin = spaced_sides 0 0 (2 ^ 64 - 3) 0 }) }) }
    ensures trims_ends { (multiline_look (record (over new_compact) { formatting = record { horizontal_trim = true; vertical_trim = false; allow_lines_alignment = false } })).trim_horizontal (at 0 0) ≡ true }
    ensures trims_lines { (multiline_look (record (over new_compact) { formatting = record { horizontal_trim = false; vertical_trim = true; allow_lines_alignment = false } })).trim_vertical (at 0 0) ≡ true }
    ensures aligns_lines { (multiline_look (record (over new_compact) { formatting = record { horizontal_trim = false; vertical_trim = false; allow_lines_alignment = true } })).line_alignment (at 0 0) ≡ true }
    ensures rows_first { compared (Beside NoMore) (Stacked NoMore) ≡ Less }
    ensures texts_last { compared (Text []) (Stacked NoMore) ≡ Greater }
    ensures fewer { compared (Beside NoMore) (Beside (Member (Text []) NoMore)) ≡ Less }
    ensures bytes { compared (Text (codes "a")) (Text (codes "b")) ≡ Less }
{}

/// Tables that get a height or a width: the first row, or column, gets what they lack, or gives what is too much, and then
/// has fewer lines, or its text is cut: a suffix comes after it, in its style where that is requested, or a character in its
/// place where the suffix does not fit. A table that is wide enough stays; the sizes that its texts need are kept.
pub fn resized_tables_by_hand()
    ensures higher { Gives (HeightIncrease (Exact 6) FromLeft) (below (codes "a") (codes "b")) (codes "+---+\n| a |\n|   |\n+---+\n| b |\n+---+") }
    ensures lower { Gives (HeightLimit (Exact 6) FromLeft) (below (codes "a\nb\nc") (codes "d\ne")) (codes "+---+\n| a |\n+---+\n| d |\n| e |\n+---+") }
    ensures wider { Gives (MinWidth (Exact 10) FromLeft) (beside (codes "a") (codes "b")) (codes "+----+---+\n| a  | b |\n+----+---+") }
    ensures sizes { (left : State) → setting_step (MinWidth (Exact 9) FromLeft) (beside (codes "a") (codes "b")) (Ok left) → left.sizes ≡ record { widths = Some (3 ∷ 3 ∷ []); heights = Some (1 ∷ []) } }
    ensures in_its_style { (suffix : Bytes Heap) → string_bytes suffix ≡ codes "." → Gives (Truncate (Exact 6) suffix Cut false true FromLeft) (of_one (codes "\u{1b}[31mabc\u{1b}[0m")) (codes "+----+\n| \u{1b}[31ma\u{1b}[39m\u{1b}[31m.\u{1b}[39m |\n+----+") }
    ensures replaced { (suffix : Bytes Heap) → string_bytes suffix ≡ codes ".." → Gives (Truncate (Exact 6) suffix (Replace 0x23) true false FromLeft) (of_one (codes "abc")) (codes "+----+\n| ## |\n+----+") }
    ensures wide_enough { Gives (MinWidth (Exact 9) FromLeft) (beside (codes "a") (codes "b")) (codes "+---+---+\n| a | b |\n+---+---+") }
{}
