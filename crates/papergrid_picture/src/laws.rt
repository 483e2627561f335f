//! Laws of the definitions that the contracts of the grids cite.
ghost use Rattle.std.specs.Prelude.{◌≡◌, ◌==◌, ◌↔◌, if◌then◌else◌, ◌<◌, ◌≤◌, ◌+◌, ℕ, All, List, [], ◌∷◌, None, Option, Some, chars, codes};
ghost use Rattle.std.specs.Prelude.{encode_utf8_all, false, flat_map, length, map, slice_index, true};
ghost use Rattle.std.specs.List.{join_with_byte, range_with_len};
ghost use Rattle.ansi_scan.specs.Attributes.{plain_attributes};
ghost use Rattle.ansi_scan.specs.Sequences.{Piece, ArePiecesOf, NoneBroken};
ghost use Rattle.ansi_str.specs.StyledText.{strip};
ghost use Rattle.grid_config_values.specs.declared.alignment.AlignmentHorizontal.TheVariants.{Right};
ghost use Rattle.grid_config_values.specs.declared.alignment.AlignmentVertical.TheVariants.{Bottom, Center as Middle, Top};
ghost use Rattle.grid_config_values.specs.declared.position.Position.{Position as CellPosition};
ghost use Rattle.grid_config_values.specs.Glyphs.{no_borders};
ghost use Rattle.grid_config_values.specs.declared.spans.extent.Extent.{Extent};
ghost use Rattle.grid_config.specs.Colors.{Color};
ghost use Rattle.grid_config.specs.Compact.{each_side};
ghost use Rattle.grid_config.specs.Looks.{Look};
ghost use Rattle.ansi_str.specs.Characters.{shown_chars};
ghost use Rattle.grid_records_measure.specs.Measures.{line_cost};
ghost use Rattle.grid_records_measure.specs.TextLines.{line_feed};
ghost use Rattle.papergrid_picture.specs.Blocks.{Grid, text_line};
ghost use Rattle.papergrid_picture.specs.CellLines.{cell_lines, cell_measures};
ghost use Rattle.papergrid_picture.specs.Frame.{Boundary, InMargin, Row, Tracks, boundary_at, column_count, frame_of, full_line_width, line_count, line_kind, row_count, track_at};
ghost use Rattle.papergrid_picture.specs.Picture.{laid, picture_line, seen};
ghost use Rattle.papergrid_picture.specs.Reading.{Reading, grid_items};
ghost use Rattle.papergrid_picture.specs.Shown.{ArePlainlyShown, AreTextsWithoutEscape, AreWholeTexts, CostsOne, IsBare, IsReadBy, KeepsLineEnds, Shows};
ghost use Rattle.papergrid_picture.specs.Shown.{ShowsOnly, Styled, character_of, character_picture, cell_characters, stripped_texts, styled_picture};
ghost use Rattle.papergrid_picture.specs.Shown.{styled_texts};
ghost use Rattle.papergrid_picture.specs.Tables.{table_grid, table_line, table_lines, table_text};
ghost use Rattle.papergrid_picture.specs.Tiling.{BeginsBehindMargin, HasGoodSpans, HasRoom, IsLineOf, ShowsAllLines, ShowsBlock, ShowsKind, Tiles};
ghost use Rattle.papergrid_picture.specs.Worked.{ascii, bracketed, capitals, cells, crossed, drawn, drawn_in, drawn_unmeasured, each_its_own};
ghost use Rattle.papergrid_picture.specs.Worked.{bare_look, extents, half_bracketed, hidden_cell, joined_lines, lettered, no_top, numbered_cells, outer, padded};
ghost use Rattle.papergrid_picture.specs.Worked.{red_rows, round_bracketed, sided, span, spaced, with_margins};

/// Pictures that were worked out by hand:
/// - two by two cells;
/// - cells of two lines to the right, as a block and line by line; one cell line by line, beside others as blocks;
/// - a cell of three lines in a row of two; a row of no height;
/// - a line in the middle of four, where the larger part of the free lines is below; a line at the bottom;
/// - a line that takes no column, which is printed all the same;
/// - no rows; no columns.
pub fn worked_tables()
    ensures two_by_two { drawn bare_look (1 ∷ 1 ∷ []) (1 ∷ 1 ∷ []) (cells (codes "a" ∷ codes "b" ∷ []) ∷ cells (codes "1" ∷ codes "2" ∷ []) ∷ [])
        ≡ joined_lines (codes "+-+-+" ∷ codes "|a|b|" ∷ codes "+-+-+" ∷ codes "|1|2|" ∷ codes "+-+-+" ∷ []) }
    ensures to_the_right { drawn (record bare_look { alignment_horizontal = λ _. Right }) (4 ∷ []) (2 ∷ 1 ∷ [])
        (((codes "ab" ∷ codes "c" ∷ []) ∷ []) ∷ ((codes "abcd" ∷ []) ∷ []) ∷ [])
        ≡ joined_lines (codes "+----+" ∷ codes "|  ab|" ∷ codes "|  c |" ∷ codes "+----+" ∷ codes "|abcd|" ∷ codes "+----+" ∷ []) }
    ensures line_by_line { drawn (record bare_look { alignment_horizontal = λ _. Right; line_alignment = λ _. true }) (4 ∷ []) (2 ∷ 1 ∷ [])
        (((codes "ab" ∷ codes "c" ∷ []) ∷ []) ∷ ((codes "abcd" ∷ []) ∷ []) ∷ [])
        ≡ joined_lines (codes "+----+" ∷ codes "|  ab|" ∷ codes "|   c|" ∷ codes "+----+" ∷ codes "|abcd|" ∷ codes "+----+" ∷ []) }
    ensures one_line_by_line { drawn (record bare_look { alignment_horizontal = λ _. Right; line_alignment = λ cell. cell.col == 1 }) (4 ∷ 4 ∷ 4 ∷ []) (2 ∷ [])
        (((codes "ab" ∷ codes "c" ∷ []) ∷ (codes "ab" ∷ codes "c" ∷ []) ∷ (codes "ab" ∷ codes "c" ∷ []) ∷ []) ∷ [])
        ≡ joined_lines (codes "+----+----+----+" ∷ codes "|  ab|  ab|  ab|" ∷ codes "|  c |   c|  c |" ∷ codes "+----+----+----+" ∷ []) }
    ensures too_high { drawn bare_look (1 ∷ []) (2 ∷ []) (((codes "a" ∷ codes "b" ∷ codes "c" ∷ []) ∷ []) ∷ [])
        ≡ joined_lines (codes "+-+" ∷ codes "|a|" ∷ codes "|b|" ∷ codes "+-+" ∷ []) }
    ensures no_height { drawn bare_look (1 ∷ []) (0 ∷ 1 ∷ []) (cells (codes "a" ∷ []) ∷ cells (codes "b" ∷ []) ∷ [])
        ≡ joined_lines (codes "+-+" ∷ codes "+-+" ∷ codes "|b|" ∷ codes "+-+" ∷ []) }
    ensures in_the_middle { drawn (record bare_look { alignment_vertical = λ _. Middle }) (1 ∷ []) (4 ∷ []) (cells (codes "a" ∷ []) ∷ [])
        ≡ joined_lines (codes "+-+" ∷ codes "| |" ∷ codes "|a|" ∷ codes "| |" ∷ codes "| |" ∷ codes "+-+" ∷ []) }
    ensures at_the_bottom { drawn (record bare_look { alignment_vertical = λ _. Bottom }) (1 ∷ []) (3 ∷ []) (cells (codes "a" ∷ []) ∷ [])
        ≡ joined_lines (codes "+-+" ∷ codes "| |" ∷ codes "| |" ∷ codes "|a|" ∷ codes "+-+" ∷ []) }
    ensures unmeasured { drawn_unmeasured bare_look (1 ∷ []) (1 ∷ []) (cells (codes "a" ∷ []) ∷ [])
        ≡ joined_lines (codes "+-+" ∷ codes "|a |" ∷ codes "+-+" ∷ []) }
    ensures no_rows { drawn bare_look (1 ∷ []) [] [] ≡ [] }
    ensures no_columns { drawn bare_look [] (1 ∷ []) ([] ∷ []) ≡ [] }
{}

/// Cells that span rows and columns, worked out by hand:
/// - a row span of two in the middle of its height; row spans of three, two and two, whose texts are on boundary lines;
/// - two by two cells, with the crossing in their middle hidden, at the first place and at the last;
/// - a span over a boundary that is absent; a row of columns, one with the width 0;
/// - spans of rows and of columns side by side.
pub fn worked_spans()
    ensures two_rows { drawn (record bare_look { extent = extents (span 0 0 2 1 ∷ []); alignment_vertical = λ _. Middle }) (3 ∷ 3 ∷ []) (1 ∷ 1 ∷ []) (numbered_cells 2 2)
        ≡ joined_lines (codes "+---+---+" ∷ codes "|   |0-1|" ∷ codes "+0-0+---+" ∷ codes "|   |1-1|" ∷ codes "+---+---+" ∷ []) }
    ensures three_rows { drawn (record bare_look { extent = extents (span 0 0 3 1 ∷ span 0 1 2 1 ∷ span 0 2 2 1 ∷ []) }) (3 ∷ 3 ∷ 3 ∷ []) (0 ∷ 0 ∷ 1 ∷ []) (numbered_cells 3 3)
        ≡ joined_lines (codes "+---+---+---+" ∷ codes "+0-0+0-1+0-2+" ∷ codes "+   +---+---+" ∷ codes "|   |2-1|2-2|" ∷ codes "+---+---+---+" ∷ []) }
    ensures two_by_two { drawn (record bare_look { extent = extents (span 0 0 2 2 ∷ []) }) (3 ∷ 3 ∷ 3 ∷ []) (1 ∷ 1 ∷ 1 ∷ []) (numbered_cells 3 3)
        ≡ joined_lines (codes "+---+---+---+" ∷ codes "|0-0    |0-2|" ∷ codes "+       +---+" ∷ codes "|       |1-2|" ∷ codes "+---+---+---+" ∷ codes "|2-0|2-1|2-2|" ∷ codes "+---+---+---+" ∷ []) }
    ensures last { drawn (record bare_look { extent = extents (span 1 1 2 2 ∷ []) }) (3 ∷ 3 ∷ 3 ∷ []) (1 ∷ 1 ∷ 1 ∷ []) (numbered_cells 3 3)
        ≡ joined_lines (codes "+---+---+---+" ∷ codes "|0-0|0-1|0-2|" ∷ codes "+---+---+---+" ∷ codes "|1-0|1-1    |" ∷ codes "+---+       +" ∷ codes "|2-0|       |" ∷ codes "+---+---+---+" ∷ []) }
    ensures without_inner { drawn (record outer { extent = extents (span 0 0 1 2 ∷ []) }) (1 ∷ 2 ∷ []) (1 ∷ 1 ∷ []) (cells (codes "abc" ∷ codes "" ∷ []) ∷ cells (codes "d" ∷ codes "e" ∷ []) ∷ [])
        ≡ joined_lines (codes "+---+" ∷ codes "|abc|" ∷ codes "|de |" ∷ codes "+---+" ∷ []) }
    ensures no_width { drawn bare_look (1 ∷ 0 ∷ []) (1 ∷ []) (cells (codes "a" ∷ [] ∷ []) ∷ [])
        ≡ joined_lines (codes "+-++" ∷ codes "|a||" ∷ codes "+-++" ∷ []) }
    ensures both_ways { drawn (record bare_look { extent = extents (span 0 0 2 1 ∷ span 0 1 1 2 ∷ span 2 1 1 2 ∷ []); alignment_vertical = λ cell. if cell.row == 0 then Middle else Top })
        (3 ∷ 2 ∷ 3 ∷ []) (1 ∷ 1 ∷ 2 ∷ [])
        (cells (codes "up" ∷ codes "wide" ∷ [] ∷ []) ∷ cells ([] ∷ codes "a" ∷ codes "b" ∷ []) ∷ ((codes "c" ∷ []) ∷ (codes "two" ∷ codes "lines" ∷ []) ∷ []) ∷ [])
        ≡ joined_lines (codes "+---+--+---+" ∷ codes "|   |wide  |" ∷ codes "+up +--+---+" ∷ codes "|   |a |b  |" ∷ codes "+---+--+---+"
        ∷ codes "|c  |two   |" ∷ codes "|   |lines |" ∷ codes "+---+--+---+" ∷ []) }
{}

/// Paddings, margins and boundaries, worked out by hand:
/// - fills of each side, where a row that is too low does not show the bottom padding;
/// - margins, whose lines at the top and bottom are as wide as all others;
/// - boundaries with one absent, and a present one without a glyph at some of its places;
/// - fifteen different glyphs.
pub fn worked_edges()
    ensures paddings { drawn padded (4 ∷ []) (3 ∷ []) (cells (codes "ab" ∷ []) ∷ [])
        ≡ joined_lines (codes "+----+" ∷ codes "|^^^^|" ∷ codes "|<ab>|" ∷ codes "|____|" ∷ codes "+----+" ∷ []) }
    ensures low { drawn padded (4 ∷ []) (2 ∷ []) (cells (codes "ab" ∷ []) ∷ [])
        ≡ joined_lines (codes "+----+" ∷ codes "|^^^^|" ∷ codes "|<ab>|" ∷ codes "+----+" ∷ []) }
    ensures margins { drawn with_margins (1 ∷ []) (1 ∷ []) (cells (codes "a" ∷ []) ∷ [])
        ≡ joined_lines (codes "^^^^^^" ∷ codes "^^^^^^" ∷ codes "<+-+>>" ∷ codes "<|a|>>" ∷ codes "<+-+>>" ∷ codes "______" ∷ []) }
    ensures no_top { drawn no_top (1 ∷ []) (1 ∷ []) (cells (codes "a" ∷ []) ∷ [])
        ≡ joined_lines (codes "|a|" ∷ codes " - " ∷ []) }
    ensures all_glyphs { drawn (record bare_look { borders = lettered }) (1 ∷ 1 ∷ []) (1 ∷ 1 ∷ []) (cells (codes "1" ∷ codes "2" ∷ []) ∷ cells (codes "3" ∷ codes "4" ∷ []) ∷ [])
        ≡ joined_lines (codes "abcbd" ∷ codes "e1f2g" ∷ codes "hijik" ∷ codes "e3f4g" ∷ codes "lmnmo" ∷ []) }
    ensures no_vertical { drawn (record bare_look { borders = record ascii { vertical = None } }) (1 ∷ 1 ∷ []) (1 ∷ []) (cells (codes "a" ∷ codes "b" ∷ []) ∷ [])
        ≡ joined_lines (codes "+-+-+" ∷ codes "|a b|" ∷ codes "+-+-+" ∷ []) }
{}

/// Colours, worked out by hand:
/// - a cell's text; a text of no bytes, which has no colour;
/// - a boundary line, whose neighbours in one colour are coloured together. They are so past a column of width 0,
///   whatever colour it has, and past a boundary that is absent. They are not past a cell that goes on there, even one
///   of width 0;
/// - two colours that begin or end in different ways; fifteen different glyphs, each in a colour of its own;
/// - paddings and margins, each side in its own colour; two cells, each with its own settings and colour;
/// - the justification, in two parts, also of a free line.
pub fn worked_colors()
    ensures text { drawn_in (λ _. Some bracketed) bare_look (1 ∷ []) (1 ∷ []) (cells (codes "a" ∷ []) ∷ [])
        ≡ joined_lines (codes "+-+" ∷ codes "|[a]|" ∷ codes "+-+" ∷ []) }
    ensures empty { drawn_in (λ _. Some bracketed) bare_look (1 ∷ []) (1 ∷ []) (cells ([] ∷ []) ∷ [])
        ≡ joined_lines (codes "+-+" ∷ codes "| |" ∷ codes "+-+" ∷ []) }
    ensures runs { drawn crossed (1 ∷ 1 ∷ []) (1 ∷ []) (cells (codes "a" ∷ codes "b" ∷ []) ∷ [])
        ≡ joined_lines (codes "+[-+-]+" ∷ codes "|a[|]b|" ∷ codes "+-+-+" ∷ []) }
    ensures past_nothing { drawn crossed (1 ∷ 0 ∷ 1 ∷ []) (1 ∷ []) (cells (codes "a" ∷ codes "" ∷ codes "b" ∷ []) ∷ [])
        ≡ joined_lines (codes "+[-++-]+" ∷ codes "|a[|][|]b|" ∷ codes "+-++-+" ∷ []) }
    ensures past_another_color { drawn (record bare_look { borders_color = record no_borders { top_intersection = Some bracketed } })
        (1 ∷ 0 ∷ 1 ∷ []) (1 ∷ []) (cells (codes "a" ∷ codes "" ∷ codes "b" ∷ []) ∷ [])
        ≡ joined_lines (codes "+-[++]-+" ∷ codes "|a||b|" ∷ codes "+-++-+" ∷ []) }
    ensures past_absent { drawn (record outer { borders_color = record no_borders { top = Some bracketed } }) (1 ∷ 1 ∷ []) (1 ∷ []) (cells (codes "a" ∷ codes "b" ∷ []) ∷ [])
        ≡ joined_lines (codes "+[--]+" ∷ codes "|ab|" ∷ codes "+--+" ∷ []) }
    ensures two_colors { drawn (record bare_look {
      borders_color = record no_borders {
        top = Some bracketed;
        top_intersection = Some half_bracketed;
      };
    }) (1 ∷ 1 ∷ []) (1 ∷ []) (cells (codes "a" ∷ codes "b" ∷ []) ∷ [])
        ≡ joined_lines (codes "+[-][+)[-]+" ∷ codes "|a|b|" ∷ codes "+-+-+" ∷ []) }
    ensures two_prefixes { drawn (record bare_look {
      borders_color = record no_borders {
        top = Some bracketed;
        top_intersection = Some round_bracketed;
      };
    }) (1 ∷ 1 ∷ []) (1 ∷ []) (cells (codes "a" ∷ codes "b" ∷ []) ∷ [])
        ≡ joined_lines (codes "+[-](+][-]+" ∷ codes "|a|b|" ∷ codes "+-+-+" ∷ []) }
    ensures all_places { drawn (record bare_look { borders = lettered; borders_color = capitals }) (1 ∷ 1 ∷ []) (1 ∷ 1 ∷ [])
        (cells (codes "1" ∷ codes "2" ∷ []) ∷ cells (codes "3" ∷ codes "4" ∷ []) ∷ [])
        ≡ joined_lines (codes "Aa.Bb.Cc.Bb.Dd." ∷ codes "Ee.1Ff.2Gg." ∷ codes "Hh.Ii.Jj.Ii.Kk." ∷ codes "Ee.3Ff.4Gg." ∷ codes "Ll.Mm.Nn.Mm.Oo." ∷ []) }
    ensures past_a_cell { drawn (record bare_look { extent = extents (span 0 1 2 1 ∷ []); borders_color = record no_borders { horizontal = Some bracketed; intersection = Some bracketed } })
        (1 ∷ 1 ∷ 1 ∷ []) (0 ∷ 1 ∷ []) (cells (codes "a" ∷ codes "b" ∷ codes "c" ∷ []) ∷ cells (codes "d" ∷ codes "e" ∷ codes "f" ∷ []) ∷ [])
        ≡ joined_lines (codes "+-+-+-+" ∷ codes "+[-+]b[+-]+" ∷ codes "|d| |f|" ∷ codes "+-+-+-+" ∷ []) }
    ensures past_a_narrow_cell { drawn (record bare_look { extent = extents (span 0 1 2 1 ∷ []); borders_color = record no_borders { horizontal = Some bracketed; intersection = Some bracketed } })
        (1 ∷ 0 ∷ 1 ∷ []) (0 ∷ 1 ∷ []) (cells (codes "a" ∷ [] ∷ codes "c" ∷ []) ∷ cells (codes "d" ∷ [] ∷ codes "f" ∷ []) ∷ [])
        ≡ joined_lines (codes "+-++-+" ∷ codes "+[-+][+-]+" ∷ codes "|d||f|" ∷ codes "+-++-+" ∷ []) }
    ensures paddings { drawn (record padded { padding_color = λ _. each_side (Some bracketed) }) (3 ∷ []) (3 ∷ []) (cells (codes "a" ∷ []) ∷ [])
        ≡ joined_lines (codes "+---+" ∷ codes "|[^^^]|" ∷ codes "|[<]a[>]|" ∷ codes "|[___]|" ∷ codes "+---+" ∷ []) }
    ensures margins { drawn (record with_margins { margin_color = each_side (Some bracketed) }) (1 ∷ []) (1 ∷ []) (cells (codes "a" ∷ []) ∷ [])
        ≡ joined_lines (codes "[^^^^^^]" ∷ codes "[^^^^^^]" ∷ codes "[<]+-+[>>]" ∷ codes "[<]|a|[>>]" ∷ codes "[<]+-+[>>]" ∷ codes "[______]" ∷ []) }
    ensures padding_sides { drawn (record padded { padding_color = λ _. sided }) (3 ∷ []) (3 ∷ []) (cells (codes "a" ∷ []) ∷ [])
        ≡ joined_lines (codes "+---+" ∷ codes "|{^^^}|" ∷ codes "|<<>a(>)|" ∷ codes "|*___*|" ∷ codes "+---+" ∷ []) }
    ensures margin_sides { drawn (record with_margins { margin_color = sided }) (1 ∷ []) (1 ∷ []) (cells (codes "a" ∷ []) ∷ [])
        ≡ joined_lines (codes "{^^^^^^}" ∷ codes "{^^^^^^}" ∷ codes "<<>+-+(>>)" ∷ codes "<<>|a|(>>)" ∷ codes "<<>+-+(>>)" ∷ codes "*______*" ∷ []) }
    ensures own_settings { drawn_in (λ cell. if cell.col == 0 then Some bracketed else None) each_its_own (5 ∷ 3 ∷ []) (3 ∷ []) (cells (codes "a" ∷ codes "b" ∷ []) ∷ [])
        ≡ joined_lines (codes "+-----+---+" ∷ codes "|^^^^^|b,,|" ∷ codes "|<..[a]>|,,,|" ∷ codes "|_____|,,,|" ∷ codes "+-----+---+" ∷ []) }
    ensures blank { drawn (record spaced { alignment_horizontal = λ _. Right }) (4 ∷ []) (2 ∷ []) (cells (codes "a" ∷ []) ∷ [])
        ≡ joined_lines (codes "+----+" ∷ codes "|[...]a|" ∷ codes "|[...][.]|" ∷ codes "+----+" ∷ []) }
    ensures blank_line { drawn (record spaced { alignment_horizontal = λ _. Right; line_alignment = λ _. true }) (4 ∷ []) (2 ∷ []) (cells (codes "a" ∷ []) ∷ [])
        ≡ joined_lines (codes "+----+" ∷ codes "|[...]a|" ∷ codes "|[....]|" ∷ codes "+----+" ∷ []) }
    ensures justification { drawn spaced (4 ∷ []) (1 ∷ []) (cells (codes "a" ∷ []) ∷ [])
        ≡ joined_lines (codes "+----+" ∷ codes "|[.]a[..]|" ∷ codes "+----+" ∷ []) }
{}

/// A function may take what one reading shows of each character, line of a cell and colour to what another reading
/// shows of it. It then takes the whole picture in the one reading to the picture in the other.
pub fn readings<X, Y>()
    ensures { (f : X → List Y) (first : Reading X) (second : Reading Y) (grid : Grid) →
        IsReadBy f first second → flat_map f (grid_items first grid) ≡ grid_items second grid }
{}

/// The text of a table without colours shows the picture of what its cells show: characters in their styles, with
/// glyphs, fills and line feeds in the plain style. No style is open at its end. This holds provided that the cells
/// are whole texts, and no line of them is trimmed at its ends.
pub fn styled_reading()
    ensures { (look : Look) (rows : List (List (List ℕ))) (widths heights : List ℕ) →
        IsBare look → AreWholeTexts rows → KeepsLineEnds look →
        Shows (table_text look rows (λ _. None) widths heights) (styled_picture look (styled_texts rows) widths heights) }
{}

/// Without its sequences, the text of a table without colours is the text of the table of the stripped cells,
/// with these sizes, trimmed or not. No ESC of it is broken. This holds provided that the cells are whole texts.
pub fn stripped_reading()
    ensures text { (look : Look) (rows : List (List (List ℕ))) (widths heights : List ℕ) (ps : List Piece) →
        IsBare look → AreWholeTexts rows → ArePiecesOf (table_text look rows (λ _. None) widths heights) ps →
        strip ps ≡ table_text look (stripped_texts rows) (λ _. None) widths heights }
    ensures whole { (look : Look) (rows : List (List (List ℕ))) (widths heights : List ℕ) (ps : List Piece) →
        IsBare look → AreWholeTexts rows → ArePiecesOf (table_text look rows (λ _. None) widths heights) ps →
        NoneBroken ps }
{}

/// Styles change no character of a picture, which is that of the characters alone. Each line feed in it has
/// the plain style, so that no style is open where a line ends. The text of a table of texts without
/// sequences is the picture of their characters. The latter holds provided that the table has no colours, its
/// glyphs and fills begin no sequence, and no line is trimmed at its ends.
pub fn character_reading()
    ensures characters { (look : Look) (rows : List (List (List Styled))) (widths heights : List ℕ) →
        map character_of (styled_picture look rows widths heights) ≡ character_picture look (cell_characters rows) widths heights }
    ensures line_feeds { (look : Look) (rows : List (List (List Styled))) (widths heights : List ℕ) →
        All (λ x. x.0 ≡ line_feed → x.1 ≡ plain_attributes) (styled_picture look rows widths heights) }
    ensures plain { (look : Look) (rows : List (List (List ℕ))) (widths heights : List ℕ) →
        IsBare look → AreTextsWithoutEscape rows → KeepsLineEnds look →
        table_text look rows (λ _. None) widths heights ≡ encode_utf8_all (character_picture look (map (map chars) rows) widths heights) }
{}

/// Each line of a picture shows what the sizes put there. Boundary i, where it exists, is the one line after the
/// sizes and boundaries before it. Row i is the lines after that. All other lines are of a margin.
pub fn lines_in_order()
    ensures each { (rows : Tracks) (y : ℕ) → ShowsKind rows y (line_kind rows y) }
    ensures boundaries { (rows : Tracks) (i : ℕ) → i ≤ length rows.sizes → rows.has_boundary i ≡ true →
        line_kind rows (boundary_at rows i) ≡ Boundary i }
    ensures rows { (rows : Tracks) (i y : ℕ) → i < length rows.sizes → track_at rows i ≤ y →
        y < track_at rows i + slice_index rows.sizes i → line_kind rows y ≡ Row i }
    ensures above { (rows : Tracks) (y : ℕ) → y < rows.margin → line_kind rows y ≡ InMargin }
    ensures below { (rows : Tracks) (y : ℕ) → track_at rows (length rows.sizes) ≤ y → line_kind rows y ≡ InMargin }
{}

/// The text of a table is its lines, as many as its sizes say, joined by line feeds. So are the first lines of it.
pub fn lines_are_joined()
    ensures all { (look : Look) (rows : List (List (List ℕ))) (colors : CellPosition → Option Color) (widths heights : List ℕ) →
        table_text look rows colors widths heights
        ≡ join_with_byte line_feed (map (table_line look rows colors widths heights) (range_with_len 0 (line_count (frame_of look widths heights)))) }
    ensures first { (look : Look) (rows : List (List (List ℕ))) (colors : CellPosition → Option Color) (widths heights : List ℕ) (n : ℕ) →
        table_lines look rows colors widths heights n
        ≡ join_with_byte line_feed (map (table_line look rows colors widths heights) (range_with_len 0 n)) }
{}

/// The parts of each line are side by side from column 0 to the table's width, with no gap and no overlap. This holds
/// provided that the spans are good and each visible cell fits the width of its rectangle. Where the parts are so,
/// each visible cell fits the width of its rectangle, if all its lines are shown. A line of a cell fills the width of
/// its rectangle exactly where it and the paddings at its sides take no more.
pub fn tiling()
    ensures lines { (grid : Grid) (spans : List (CellPosition × Extent)) (y : ℕ) →
        HasGoodSpans grid spans → HasRoom grid → BeginsBehindMargin grid.frame →
        Tiles 0 (picture_line grid y) (full_line_width grid.frame) }
    ensures room { (grid : Grid) (spans : List (CellPosition × Extent)) →
        HasGoodSpans grid spans → BeginsBehindMargin grid.frame → ShowsAllLines grid →
        ((y : ℕ) → y < line_count grid.frame → Tiles 0 (picture_line grid y) (full_line_width grid.frame)) → HasRoom grid }
    ensures texts { (grid : Grid) (cell : CellPosition) (width k left : ℕ) →
        (Tiles left (laid left (text_line grid cell width k)) (left + width)
        ↔ ((grid.frame.look.padding cell).left.size + slice_index (grid.measures cell) k + (grid.frame.look.padding cell).right.size ≤ width)) }
    ensures begins { (look : Look) (widths heights : List ℕ) → BeginsBehindMargin (frame_of look widths heights) }
{}

/// Each line of a visible cell's rectangle shows the line of the cell's block that belongs there, and nothing else,
/// from the first to the last of its columns. The other parts of the line tile what is left and right of it. This holds
/// provided that the spans are good and each visible cell fits the width of its rectangle.
pub fn rectangles_show_blocks()
    ensures { (grid : Grid) (spans : List (CellPosition × Extent)) (i j y : ℕ) →
        HasGoodSpans grid spans → HasRoom grid → BeginsBehindMargin grid.frame →
        i < row_count grid.frame → j < column_count grid.frame → IsLineOf grid (seen grid i j) y →
        ShowsBlock grid (seen grid i j) y }
{}

/// Each line of the text of a table without colours takes the columns of the table's width, trimmed or not: so its
/// edges are straight. This holds provided that the cells show plain characters and line feeds, and each glyph, fill
/// and character for justification costs one column. The spans must be good, and each visible cell must fit the width
/// of its rectangle.
pub fn lines_are_equally_wide()
    ensures { (look : Look) (rows : List (List (List ℕ))) (widths heights : List ℕ) (spans : List (CellPosition × Extent)) (y : ℕ) →
        IsBare look → ShowsOnly CostsOne look → ArePlainlyShown rows →
        HasGoodSpans (table_grid look rows (λ _. None) widths heights) spans → HasRoom (table_grid look rows (λ _. None) widths heights) →
        line_cost (shown_chars (table_line look rows (λ _. None) widths heights y)) ≡ full_line_width (frame_of look widths heights) }
{}

/// A table whose lines are all tiled may still have a cell that does not fit. The smallest is one row of height 0 and
/// one column of width 0 without boundaries: it has no lines.
pub fn hidden_cells_need_no_room()
    ensures no_lines { line_count hidden_cell.frame ≡ 0 }
    ensures no_room { ¬ (HasRoom hidden_cell) }
{}

/// One table in two readings, and its texts stripped, worked out by hand: a red cell of two lines, each of which
/// opens and ends its own colour. Its look is bare.
pub fn worked_readings()
    ensures bare { IsBare bare_look }
    ensures bytes { table_text bare_look red_rows (λ _. None) (2 ∷ []) (2 ∷ [])
        ≡ joined_lines (codes "+--+" ∷ codes "|\u{1b}[31ma\u{1b}[39m |" ∷ codes "|\u{1b}[31mb\u{1b}[39m |" ∷ codes "+--+" ∷ []) }
    ensures characters { character_picture bare_look (((codes "a\nb") ∷ []) ∷ []) (2 ∷ []) (2 ∷ [])
        ≡ joined_lines (codes "+--+" ∷ codes "|a |" ∷ codes "|b |" ∷ codes "+--+" ∷ []) }
    ensures stripped { stripped_texts red_rows ≡ ((codes "a\nb") ∷ []) ∷ [] }
{}

/// The lines of a cell that are kept, worked out by hand: without blank lines at both ends, and without white
/// space at the ends of a line. A text of blank lines keeps none. A tab, a no-break space, an ideographic space and
/// a line separator are white space too; a zero width space is not.
pub fn worked_trims()
    ensures both { cell_lines true true (codes "\n  a \n\n") ≡ codes "a" ∷ [] }
    ensures measured { cell_measures true true (codes "\n  a \n\n") ≡ 1 ∷ [] }
    ensures vertical { cell_lines false true (codes "\n  a \n\n") ≡ codes "  a " ∷ [] }
    ensures inner { cell_lines false true (codes "\na\n\nb\n") ≡ codes "a" ∷ [] ∷ codes "b" ∷ [] }
    ensures horizontal { cell_lines true false (codes "\n  a ") ≡ [] ∷ codes "a" ∷ [] }
    ensures blank { cell_lines false true (codes " \n") ≡ [] }
    ensures white_space { cell_lines false true (encode_utf8_all (codes "\t\u{a0}\na\n\u{3000}\n\u{2028}")) ≡ codes "a" ∷ [] }
    ensures white_ends { cell_lines true false (encode_utf8_all (codes "\t\u{a0}a\u{3000}\u{2028}")) ≡ codes "a" ∷ [] }
    ensures no_width { cell_lines true true (encode_utf8_all (codes "\u{200b}")) ≡ encode_utf8_all (codes "\u{200b}") ∷ [] }
{}
