//! Laws: when values are equal and which comes first, which glyphs are where lines meet, and texts of pools that
//! are worked out by hand.
ghost use Rattle.std.specs.Prelude.{◌≡◌, ◌↔◌, Bool, Some, codes, [], ◌∷◌, true};
ghost use Rattle.std.specs.Cmp.{IsTotalOrder};
ghost use Rattle.std.specs.declared.cmp.Ordering.TheVariants.{Equal};
ghost use Rattle.grid_config_values.specs.declared.alignment.AlignmentHorizontal.TheVariants.{Right};
ghost use Rattle.grid_config_values.specs.declared.alignment.AlignmentVertical.TheVariants.{Bottom, Center as Middle};
ghost use Rattle.papergrid_picture.specs.Worked.{bare_look, capitals, lettered, padded};
ghost use Rattle.tabled_pool.specs.Boxes.Worked.{each};
ghost use Rattle.tabled_pool.specs.Boxes.Texts.{pool_text};
ghost use Rattle.tabled_pool.specs.Boxes.Worked.{ascii, beside_four, beside_ten, cell, colored_corner, colored_margin, colored_padding, first_across, first_down, greetings, in_lines, last};
ghost use Rattle.tabled_pool.specs.Boxes.Worked.{lines_box, nested, row, rows, text_of_lines};
ghost use Rattle.tabled_pool.specs.Boxes.Boxes.{column_box, row_box};
ghost use Rattle.grid_config.specs.Looks.{Look};
ghost use Rattle.tabled_pool.specs.Boxes.Crossings.{crossing_glyph};
ghost use Rattle.tabled_pool.specs.Boxes.Order.{compared};
ghost use Rattle.tabled_pool.specs.Boxes.SetGlyphs.{ShowsSetCrossing};
ghost use Rattle.tabled_pool.specs.Boxes.Values.{nesting_of};
ghost use Rattle.tabled_pool.specs.declared.boxes.value.TableValue.{TableValue as OneValue};

use crate::boxes::value::TableValue;

/// `==` of values is equality of their nestings, and `cmp` finds the same ones equal.
pub fn equal_values_are_the_same()
    ensures equality { (a b : OneValue) → (⟦<TableValue as PartialEq>⟧.eq a b ≡ true) ↔ (nesting_of a ≡ nesting_of b) }
    ensures order { (a b : OneValue) → (⟦<TableValue as Ord>⟧.cmp a b ≡ Equal) ↔ (nesting_of a ≡ nesting_of b) }
{}

/// Values are ordered by their nestings: rows before columns, and these before texts. Two rows, and two columns,
/// are ordered member by member, and two texts by their bytes. It is a total order, and `partial_cmp` returns it too.
pub fn values_are_ordered()
    ensures order { (a b : OneValue) → ⟦<TableValue as Ord>⟧.cmp a b ≡ compared (nesting_of a) (nesting_of b) }
    ensures partial { (a b : OneValue) → ⟦<TableValue as PartialOrd>⟧.partial_cmp a b ≡ Some (compared (nesting_of a) (nesting_of b)) }
    ensures total { IsTotalOrder ⟦<TableValue as Ord>⟧.cmp }
{}

/// Where lines meet, at a corner too, is a glyph that is set for such places, or a space.
pub fn crossings_are_set()
    ensures { (look : Look) (up down left right : Bool) → ShowsSetCrossing look (crossing_glyph look up down left right) }
{}

/// A nested table of greetings.
pub fn greetings()
    ensures { pool_text ascii each greetings ≡ text_of_lines (
        codes "+---------+---------+----+"
        ∷ codes "| Hello   | World   | !  |"
        ∷ codes "+---------+---------+----+"
        ∷ codes "| Salve, mondo!          |"
        ∷ codes "+------+-------+--+--+---+"
        ∷ codes "| Hola | mundo |  |  | ! |"
        ∷ codes "+------+-------+--+--+---+" ∷ []) }
{}

/// Boxes in boxes.
pub fn boxes_in_boxes()
    ensures { pool_text ascii each (nested ascii) ≡ text_of_lines (
        codes "+-------+-----------------------+"
        ∷ codes "| Hello | Hello                 |"
        ∷ codes "| World | World                 |"
        ∷ codes "|       +-------+-------+-------+"
        ∷ codes "|       | Hello | Hello | Hello |"
        ∷ codes "|       | World | World | World |"
        ∷ codes "+-------+-------+-------+-------+"
        ∷ codes "| Hello                         |"
        ∷ codes "| World                         |"
        ∷ codes "+-------------------------------+" ∷ []) }
{}

/// Crossings, and who takes what is left over.
pub fn crossings()
    ensures above { pool_text in_lines each (rows in_lines ((codes "a" ∷ codes "b" ∷ []) ∷ (codes "abcdef" ∷ []) ∷ [])) ≡ text_of_lines (
        codes "┌────┬───┐" ∷ codes "│ a  │ b │" ∷ codes "├────┴───┤" ∷ codes "│ abcdef │" ∷ codes "└────────┘" ∷ []) }
    ensures below { pool_text in_lines each (rows in_lines ((codes "abcdef" ∷ []) ∷ (codes "a" ∷ codes "b" ∷ []) ∷ [])) ≡ text_of_lines (
        codes "┌────────┐" ∷ codes "│ abcdef │" ∷ codes "├────┬───┤" ∷ codes "│ a  │ b │" ∷ codes "└────┴───┘" ∷ []) }
    ensures both { pool_text in_lines each (rows in_lines ((codes "a" ∷ codes "b" ∷ []) ∷ (codes "c" ∷ codes "d" ∷ []) ∷ [])) ≡ text_of_lines (
        codes "┌───┬───┐" ∷ codes "│ a │ b │" ∷ codes "├───┼───┤" ∷ codes "│ c │ d │" ∷ codes "└───┴───┘" ∷ []) }
    ensures beside { pool_text in_lines each (row_box in_lines (cell in_lines (codes "a") ∷ column_box in_lines (cell in_lines (codes "b") ∷ cell in_lines (codes "c") ∷ []) ∷ [])) ≡ text_of_lines (
        codes "┌───┬───┐" ∷ codes "│ a │ b │" ∷ codes "│   ├───┤" ∷ codes "│   │ c │" ∷ codes "└───┴───┘" ∷ []) }
    ensures last { pool_text ascii last (rows ascii ((codes "a" ∷ codes "b" ∷ []) ∷ (codes "abcdef" ∷ []) ∷ [])) ≡ text_of_lines (
        codes "+---+----+" ∷ codes "| a | b  |" ∷ codes "+---+----+" ∷ codes "| abcdef |" ∷ codes "+--------+" ∷ []) }
{}

/// What is left over of a row's columns and of a column's lines. It goes to the first member, to the last, or to each,
/// where the first ones take one more. Columns and lines go their own ways.
pub fn shares()
    ensures first_column { pool_text ascii first_across (rows ascii ((codes "a" ∷ codes "b" ∷ []) ∷ (codes "abcdefg" ∷ []) ∷ [])) ≡ text_of_lines (
        codes "+-----+---+" ∷ codes "| a   | b |" ∷ codes "+-----+---+" ∷ codes "| abcdefg |" ∷ codes "+---------+" ∷ []) }
    ensures last_column { pool_text ascii first_down (rows ascii ((codes "a" ∷ codes "b" ∷ []) ∷ (codes "abcdefg" ∷ []) ∷ [])) ≡ text_of_lines (
        codes "+---+-----+" ∷ codes "| a | b   |" ∷ codes "+---+-----+" ∷ codes "| abcdefg |" ∷ codes "+---------+" ∷ []) }
    ensures each_line { pool_text ascii last (beside_ten ascii) ≡ text_of_lines (
        codes "+---+---+" ∷ codes "| a | 0 |" ∷ codes "|   | 1 |" ∷ codes "|   | 2 |" ∷ codes "+---+ 3 |" ∷ codes "| b | 4 |" ∷ codes "|   | 5 |" ∷ codes "|   | 6 |" ∷ codes "+---+ 7 |" ∷ codes "| c | 8 |" ∷ codes "|   | 9 |" ∷ codes "+---+---+" ∷ []) }
    ensures first_lines { pool_text ascii first_down (beside_ten ascii) ≡ text_of_lines (
        codes "+---+---+" ∷ codes "| a | 0 |" ∷ codes "|   | 1 |" ∷ codes "|   | 2 |" ∷ codes "|   | 3 |" ∷ codes "|   | 4 |" ∷ codes "|   | 5 |" ∷ codes "+---+ 6 |" ∷ codes "| b | 7 |" ∷ codes "+---+ 8 |" ∷ codes "| c | 9 |" ∷ codes "+---+---+" ∷ []) }
    ensures last_lines { pool_text ascii first_across (beside_ten ascii) ≡ text_of_lines (
        codes "+---+---+" ∷ codes "| a | 0 |" ∷ codes "+---+ 1 |" ∷ codes "| b | 2 |" ∷ codes "+---+ 3 |" ∷ codes "| c | 4 |" ∷ codes "|   | 5 |" ∷ codes "|   | 6 |" ∷ codes "|   | 7 |" ∷ codes "|   | 8 |" ∷ codes "|   | 9 |" ∷ codes "+---+---+" ∷ []) }
{}

/// Paddings of a cell, and outside of them blank lines by its vertical alignment. Its lines are at the
/// right, as a block and line by line.
pub fn blocks()
    ensures above { pool_text padded each (beside_four padded) ≡ text_of_lines (
        codes "+---+---+" ∷ codes "|^^^|^^^|" ∷ codes "|<1>|<d>|" ∷ codes "|<2>|___|" ∷ codes "|<3>|   |" ∷ codes "|<4>|   |" ∷ codes "|___|   |" ∷ codes "+---+---+" ∷ []) }
    ensures in_the_middle { let look = record padded { alignment_vertical = λ _. Middle } in pool_text look each (beside_four look) ≡ text_of_lines (
        codes "+---+---+" ∷ codes "|^^^|   |" ∷ codes "|<1>|^^^|" ∷ codes "|<2>|<d>|" ∷ codes "|<3>|___|" ∷ codes "|<4>|   |" ∷ codes "|___|   |" ∷ codes "+---+---+" ∷ []) }
    ensures below { let look = record padded { alignment_vertical = λ _. Bottom } in pool_text look each (beside_four look) ≡ text_of_lines (
        codes "+---+---+" ∷ codes "|^^^|   |" ∷ codes "|<1>|   |" ∷ codes "|<2>|   |" ∷ codes "|<3>|^^^|" ∷ codes "|<4>|<d>|" ∷ codes "|___|___|" ∷ codes "+---+---+" ∷ []) }
    ensures to_the_right { let look = record bare_look { alignment_horizontal = λ _. Right } in pool_text look each (column_box look (lines_box look (codes "ab" ∷ codes "c" ∷ []) ∷ cell look (codes "abcd") ∷ [])) ≡ text_of_lines (
        codes "+----+" ∷ codes "|  ab|" ∷ codes "|  c |" ∷ codes "+----+" ∷ codes "|abcd|" ∷ codes "+----+" ∷ []) }
    ensures line_by_line { let look = record bare_look { alignment_horizontal = λ _. Right; line_alignment = λ _. true } in pool_text look each (column_box look (lines_box look (codes "ab" ∷ codes "c" ∷ []) ∷ cell look (codes "abcd") ∷ [])) ≡ text_of_lines (
        codes "+----+" ∷ codes "|  ab|" ∷ codes "|   c|" ∷ codes "+----+" ∷ codes "|abcd|" ∷ codes "+----+" ∷ []) }
{}

/// Colours of the paddings of a cell, of which blank lines have none. Colours of the margin, whose lines above and
/// below are between those at the sides. Colours of glyphs, where neighbours in one colour are coloured as one,
/// and of fifteen different ones.
pub fn colors()
    ensures paddings { pool_text colored_padding each (cell colored_padding (codes "a")) ≡ text_of_lines (
        codes "+---+" ∷ codes "|{^^^}|" ∷ codes "|<<>a(>)|" ∷ codes "|*___*|" ∷ codes "+---+" ∷ []) }
    ensures blank_lines { let look = record colored_padding { alignment_vertical = λ _. Middle } in pool_text look each (beside_four look) ≡ text_of_lines (
        codes "+---+---+" ∷ codes "|{^^^}|   |" ∷ codes "|<<>1(>)|{^^^}|" ∷ codes "|<<>2(>)|<<>d(>)|" ∷ codes "|<<>3(>)|*___*|" ∷ codes "|<<>4(>)|   |" ∷ codes "|*___*|   |" ∷ codes "+---+---+" ∷ []) }
    ensures margins { pool_text colored_margin each (cell colored_margin (codes "a")) ≡ text_of_lines (
        codes "<<>{^^^^^}(>>)" ∷ codes "<<>{^^^^^}(>>)" ∷ codes "<<>+---+(>>)" ∷ codes "<<>| a |(>>)" ∷ codes "<<>+---+(>>)" ∷ codes "<<>*_____*(>>)" ∷ []) }
    ensures runs { pool_text colored_corner each (cell colored_corner (codes "a")) ≡ text_of_lines (
        codes "[+-+]" ∷ codes "[|]a|" ∷ codes "+-+" ∷ []) }
    ensures all_places { let look = record bare_look { borders = lettered; borders_color = capitals } in pool_text look each (rows look ((codes "1" ∷ codes "2" ∷ []) ∷ (codes "3" ∷ codes "4" ∷ []) ∷ [])) ≡ text_of_lines (
        codes "Aa.Bb.Cc.Bb.Dd." ∷ codes "Ee.1Ff.2Gg." ∷ codes "Hh.Ii.Jj.Ii.Kk." ∷ codes "Ee.3Ff.4Gg." ∷ codes "Ll.Mm.Nn.Mm.Oo." ∷ []) }
{}
