//! Laws of the table in a requested width, each the contract of a function that does nothing.
ghost use Rattle.std.specs.Prelude.{◌≡◌, ◌+◌, ◌<◌, ◌≤◌, ℕ, List, None, Some, length, max};
ghost use Rattle.grid_config.specs.Compact.{Compact};
ghost use Rattle.papergrid_picture.specs.Blocks.{text_line};
ghost use Rattle.papergrid_picture.specs.Fitting.{table_width};
ghost use Rattle.papergrid_picture.specs.Frame.{block_width, column_count, row_count, track_at};
ghost use Rattle.papergrid_picture.specs.Picture.{at, block_parts, laid};
ghost use Rattle.papergrid_picture.specs.Tiling.{IsLineOf, ShowsAllLines};
ghost use Rattle.columns_asked.specs.DrawnTables.{asked_frame, frame_under};
ghost use Rattle.columns_asked.specs.declared.asked.WidthLimit.{WidthLimit};
ghost use Rattle.columns_table.specs.Asking.{asked_grid, narrowest_frame};

/// How many columns the table takes, with its boundaries and margins. Where it would take more than it may, it
/// takes just as many as it may; where its boundaries, margins and paddings alone take more, it takes as many as
/// these. Else, and where no width is requested, it takes as many as it would.
pub fn tables_take_the_width_that_is_asked()
    ensures narrowed { (style : Compact) (asked : WidthLimit) (texts : List (List (List ℕ))) (width : ℕ) → asked.width ≡ Some width →
        width < table_width (frame_under style texts) →
        table_width (asked_frame style asked texts) ≡ max width (table_width (narrowest_frame style texts)) }
    ensures natural { (style : Compact) (asked : WidthLimit) (texts : List (List (List ℕ))) (width : ℕ) → asked.width ≡ Some width →
        table_width (frame_under style texts) ≤ width → table_width (asked_frame style asked texts) ≡ table_width (frame_under style texts) }
    ensures no_width { (style : Compact) (asked : WidthLimit) (texts : List (List (List ℕ))) → asked.width ≡ None →
        table_width (asked_frame style asked texts) ≡ table_width (frame_under style texts) }
{}

/// Each line of each cell is seen, also of one that is wrapped or cut. Its row is high enough for all of them, and
/// one line of the cell's rectangle is it, between the paddings at its sides.
pub fn each_line_of_a_cell_is_seen()
    ensures all_lines { (style : Compact) (asked : WidthLimit) (texts : List (List (List ℕ))) → ShowsAllLines (asked_grid style asked texts) }
    ensures shown { (style : Compact) (asked : WidthLimit) (texts : List (List (List ℕ))) (i j k : ℕ) →
        i < row_count (asked_frame style asked texts) → j < column_count (asked_frame style asked texts) → k < length ((asked_grid style asked texts).measures (at i j)) →
        (y : ℕ) × IsLineOf (asked_grid style asked texts) (at i j) y
        × (block_parts (asked_grid style asked texts) (at i j) y
        ≡ laid (track_at (asked_frame style asked texts).columns j) (text_line (asked_grid style asked texts) (at i j) (block_width (asked_frame style asked texts) (at i j)) k)) }
{}
