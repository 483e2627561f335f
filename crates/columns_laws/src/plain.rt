//! Tables of plain characters: every line of them takes as many columns as the others. Laws alone.
//!
//! Laws of tables of plain inputs, each the contract of a function that does nothing.
ghost use Rattle.std.specs.Prelude.{◌≡◌, ◌<◌, ℕ, List, None, Some, codes, max, min};
ghost use Rattle.std.specs.List.{sum_by};
ghost use Rattle.ansi_str.specs.Characters.{shown_chars};
ghost use Rattle.grid_config_values.specs.Glyphs.{no_borders};
ghost use Rattle.tables_laws.specs.Characters.AdditiveCharacters.{is_spacing};
ghost use Rattle.grid_records_measure.specs.Measures.{line_cost, measure, own_width};
ghost use Rattle.papergrid_picture.specs.Frame.{line_count};
ghost use Rattle.tabled_glyphs.specs.Glyphs.{ascii, extended, modern};
ghost use Rattle.program_options.specs.Columns.Settings.{settings_with};
ghost use Rattle.columns_run.specs.DrawnTables.{grid_of, line_bytes, output_of};
ghost use Rattle.columns_run.specs.Narrow.{IsRunnable};
ghost use Rattle.columns_run.specs.Wanted.{Wanted};
ghost use Rattle.columns_run.specs.Widths.{narrowest_columns, natural_columns, taken_columns};
ghost use Rattle.columns_laws.specs.Plain.AdditiveInputs.{HasAdditiveGlyphs, IsAdditiveInput, IsInputOf, ideographs, in_five_columns, replaced};
ghost use Rattle.columns_laws.specs.Plain.PlainInputs.{IsPlainInput, in_nine_columns, red_letters};

/// Each line of the table of a plain input takes as many columns as the table, in a narrow style. So its edges are
/// straight, in whatever width is requested and in whatever colours that close.
pub fn plain_inputs_have_even_lines()
    ensures { (wanted : Wanted) (input : List ℕ) (y : ℕ) → IsRunnable wanted → IsPlainInput input → y < line_count (grid_of wanted input).frame →
        line_cost (shown_chars (line_bytes wanted input y)) ≡ taken_columns wanted input }
{}

/// Each line of the table of an additive input takes as many columns as the table: what its characters take one by
/// one. So it is in a narrow style, in whatever width is requested and in whatever colours that close. Where the
/// style's glyphs are additive too, as those of each named style are, the line measures the same as one text. This is
/// the natural total without a width. With one it is no more than is requested, or than boundaries, margins and
/// paddings take, where that is more.
pub fn additive_inputs_have_even_lines()
    ensures columns { (wanted : Wanted) (input : List ℕ) (y : ℕ) → IsRunnable wanted → IsAdditiveInput input → y < line_count (grid_of wanted input).frame →
        sum_by own_width (shown_chars (line_bytes wanted input y)) ≡ taken_columns wanted input }
    ensures measured { (wanted : Wanted) (input : List ℕ) (y : ℕ) → IsRunnable wanted → HasAdditiveGlyphs wanted.style → IsAdditiveInput input →
        y < line_count (grid_of wanted input).frame → measure (shown_chars (line_bytes wanted input y)) ≡ taken_columns wanted input }
    ensures natural { (wanted : Wanted) (input : List ℕ) (y : ℕ) → wanted.limit.width ≡ None → IsRunnable wanted → HasAdditiveGlyphs wanted.style → IsAdditiveInput input →
        y < line_count (grid_of wanted input).frame → measure (shown_chars (line_bytes wanted input y)) ≡ natural_columns wanted input }
    ensures asked { (wanted : Wanted) (input : List ℕ) (width y : ℕ) → wanted.limit.width ≡ Some width → IsRunnable wanted → HasAdditiveGlyphs wanted.style → IsAdditiveInput input →
        y < line_count (grid_of wanted input).frame →
        measure (shown_chars (line_bytes wanted input y)) ≡ min (natural_columns wanted input) (max width (narrowest_columns wanted input)) }
    ensures styles { HasAdditiveGlyphs (settings_with ascii) × HasAdditiveGlyphs (settings_with modern) × HasAdditiveGlyphs (settings_with extended) × HasAdditiveGlyphs (settings_with no_borders) }
{}

/// Where each character takes a column or two, that is what the line costs. Plain inputs are such inputs, and their
/// law says the same.
pub fn spacing_inputs_cost_what_they_take()
    ensures costs { (wanted : Wanted) (input : List ℕ) (y : ℕ) → IsRunnable wanted → IsInputOf is_spacing input → y < line_count (grid_of wanted input).frame →
        line_cost (shown_chars (line_bytes wanted input y)) ≡ taken_columns wanted input }
    ensures plain { (input : List ℕ) → IsPlainInput input → IsInputOf is_spacing input }
{}

/// A width takes columns from a table of any input, and never adds any. The table takes as many as without a width, or
/// fewer: as many as are requested, or as its boundaries, margins and paddings take.
pub fn tables_take_at_most_the_natural_total()
    ensures { (wanted : Wanted) (input : List ℕ) (width : ℕ) → wanted.limit.width ≡ Some width →
        taken_columns wanted input ≡ min (natural_columns wanted input) (max width (narrowest_columns wanted input)) }
{}

/// A plain input worked out by hand, in nine columns: its letters are one below the other in their colour. Each of
/// its lines takes nine columns.
pub fn plain_input_by_hand()
    ensures plain { IsPlainInput red_letters }
    ensures output { output_of in_nine_columns red_letters
        ≡ codes "+---+---+\n| \u{1b}[31ma\u{1b}[39m | c |\n| \u{1b}[31mb\u{1b}[0m |   |\n+---+---+\n" }
    ensures lines { (y : ℕ) → y < line_count (grid_of in_nine_columns red_letters).frame → line_cost (shown_chars (line_bytes in_nine_columns red_letters y)) ≡ 9 }
{}

/// An additive input worked out by hand, in five columns, of which its text has one. Its ideographs, which take two,
/// are replaced, one below the other. Each of its lines measures five columns.
pub fn wide_input_by_hand()
    ensures additive { IsAdditiveInput ideographs }
    ensures output { output_of in_five_columns ideographs ≡ replaced }
    ensures lines { (y : ℕ) → y < line_count (grid_of in_five_columns ideographs).frame → measure (shown_chars (line_bytes in_five_columns ideographs y)) ≡ 5 }
{}
