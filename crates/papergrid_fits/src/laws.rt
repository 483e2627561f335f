//! Laws of the definitions that the contracts cite.
ghost use Rattle.std.specs.Prelude.{◌≡◌, ◌<◌, ℕ, List, None, Option, length, slice_index};
ghost use Rattle.grid_config_values.specs.declared.position.Position.{Position as CellPosition};
ghost use Rattle.grid_config_values.specs.Glyphs.{boundary_count, has_column_boundary, has_row_boundary};
ghost use Rattle.grid_config.specs.Colors.{Color};
ghost use Rattle.grid_config.specs.Looks.{Look, look_of};
ghost use Rattle.grid_config.specs.Settings.{Settings};
ghost use Rattle.grid_config_values.specs.Spans.Spans.{AreGood, ArePositive};
ghost use Rattle.grid_records_estimate.specs.Sizes.{height_total, table_heights, table_widths, width_total};
ghost use Rattle.grid_records_estimate.specs.Sizing.{TableSizing, sizing_of};
ghost use Rattle.grid_records_estimate.specs.Totals.{total};
ghost use Rattle.papergrid_picture.specs.Fitting.{first_too_wide, table_width};
ghost use Rattle.papergrid_picture.specs.Frame.{frame_of, line_count};
ghost use Rattle.papergrid_picture.specs.Shown.{KeepsLineEnds};
ghost use Rattle.papergrid_picture.specs.Tables.{sizes_of, table_grid};
ghost use Rattle.papergrid_picture.specs.Tiling.{HasGoodSpans, HasRoom};
ghost use Rattle.papergrid_fits.specs.Tables.{CanBeDrawn, sized_frame};

/// The least widths of a table, as an estimate keeps them, are enough for each of its visible cells,
/// whatever its heights: `fits` never returns `Room` for them.
pub fn estimated_sizes_leave_room()
    ensures { (settings : Settings) (columns : ℕ) (rows : List (List (List ℕ))) (height : ℕ → ℕ) →
        ArePositive settings.spans → AreGood settings.spans (length rows) columns →
        first_too_wide (sized_frame settings (slice_index (table_widths (sizing_of settings) columns rows)) height columns (length rows)) rows ≡ None }
{}

/// A table with columns has as many lines as the height total of its sizes. One with rows takes as many
/// columns as their width total. With estimated sizes both are the totals of the estimate, whatever rows and
/// columns there are.
pub fn totals()
    ensures lines { (look : Look) (widths heights : List ℕ) → 0 < length widths →
        line_count (frame_of look widths heights)
        ≡ total heights (boundary_count (has_row_boundary look.borders) (length heights)) look.margin.top.size look.margin.bottom.size }
    ensures columns { (look : Look) (widths heights : List ℕ) → 0 < length heights →
        table_width (frame_of look widths heights)
        ≡ total widths (boundary_count (has_column_boundary look.borders) (length widths)) look.margin.left.size look.margin.right.size }
    ensures estimated_lines { (look : Look) (sizing : TableSizing) (columns : ℕ) (rows : List (List (List ℕ))) →
        look.borders ≡ sizing.borders → look.margin ≡ sizing.margin →
        line_count (frame_of look (table_widths sizing columns rows) (table_heights sizing columns rows)) ≡ height_total sizing columns rows }
    ensures estimated_columns { (look : Look) (sizing : TableSizing) (columns : ℕ) (rows : List (List (List ℕ))) →
        look.borders ≡ sizing.borders → look.margin ≡ sizing.margin →
        table_width (frame_of look (table_widths sizing columns rows) (table_heights sizing columns rows)) ≡ width_total sizing columns rows }
{}

/// A table that fits its sizes has good spans. Where no line is trimmed at its ends, each visible cell fits the width
/// of its rectangle; so the parts of its lines tile them.
pub fn fitting_tables_have_room()
    ensures spans { (settings : Settings) (width height : ℕ → ℕ) (columns : ℕ) (rows : List (List (List ℕ))) (colors : CellPosition → Option Color) →
        ArePositive settings.spans → CanBeDrawn settings width height columns rows →
        HasGoodSpans (table_grid (look_of settings) rows colors (sizes_of width columns) (sizes_of height (length rows))) settings.spans }
    ensures room { (settings : Settings) (width height : ℕ → ℕ) (columns : ℕ) (rows : List (List (List ℕ))) (colors : CellPosition → Option Color) →
        ArePositive settings.spans → CanBeDrawn settings width height columns rows → KeepsLineEnds (look_of settings) →
        HasRoom (table_grid (look_of settings) rows colors (sizes_of width columns) (sizes_of height (length rows))) }
{}
