//! Laws of the definitions that the contracts cite.
ghost use Rattle.std.specs.Prelude.{◌≡◌, ◌↔◌, ℕ, List, Option, Result, length, map};
ghost use Rattle.std.specs.List.{join_with_byte, range_with_len};
ghost use Rattle.grid_config_values.specs.declared.fault.Fault.{Fault as TableFault};
ghost use Rattle.grid_config_values.specs.declared.position.Position.{Position as CellPosition};
ghost use Rattle.grid_config.specs.Colors.{Color};
ghost use Rattle.grid_config.specs.Compact.{Compact};
ghost use Rattle.grid_config.specs.Looks.{Look, look_of};
ghost use Rattle.grid_config.specs.Settings.{Settings, StartsWith, compact_start};
ghost use Rattle.grid_records_measure.specs.TextLines.{line_feed};
ghost use Rattle.grid_records_traits.specs.Rows.{evened};
ghost use Rattle.papergrid_fits.specs.Tables.{IsFitsAnswer};
ghost use Rattle.papergrid_picture.specs.Frame.{frame_of, line_count};
ghost use Rattle.papergrid_picture.specs.Tables.{sizes_of};
ghost use Rattle.papergrid.specs.Compact.{compact_text, one_line};
ghost use Rattle.papergrid.specs.GridParts.{line_text};
ghost use Rattle.papergrid_fits.specs.Grids.{grid_text};

/// A grid that reads its records once and one that looks up its cells append the same text, where both have the
/// same records, settings, sizes and colours. They fit or are refused alike. The first sees as many cells in each
/// row as there are columns, the second the rows as they are.
pub fn both_grids_append_the_same()
    ensures text { (settings : Settings) (width height : ℕ → ℕ) (colors : CellPosition → Option Color) (columns : ℕ) (rows : List (List (List ℕ))) →
        grid_text (look_of settings) width height colors columns (evened columns rows) ≡ grid_text (look_of settings) width height colors columns rows }
    ensures answer { (settings : Settings) (width height : ℕ → ℕ) (columns : ℕ) (rows : List (List (List ℕ))) (answer : Result (Unit {0}) TableFault) →
        IsFitsAnswer settings width height columns (evened columns rows) answer ↔ IsFitsAnswer settings width height columns rows answer }
{}

/// The text of a grid is its lines, as many as `lines` returns for settings of this look, joined by line feeds.
pub fn texts_are_lines_joined()
    ensures { (look : Look) (width height : ℕ → ℕ) (colors : CellPosition → Option Color) (columns : ℕ) (rows : List (List (List ℕ))) →
        grid_text look width height colors columns rows
        ≡ join_with_byte line_feed (map (line_text look width height colors columns rows)
        (range_with_len 0 (line_count (frame_of look (sizes_of width columns) (sizes_of height (length rows)))))) }
{}

/// A compact grid appends what a grid with one line for each row appends. This holds provided that the settings begin
/// as the compact ones do, and there is no padding above or below texts. Settings that
/// `SpannedConfig::from_compact_config` makes of them begin so.
pub fn compact_grids_append_rows_of_one_line()
    ensures { (compact : Compact) (settings : Settings) (width : ℕ → ℕ) (colors : CellPosition → Option Color) (columns : ℕ) (rows : List (List (List ℕ))) →
        compact.padding.top.size ≡ 0 → compact.padding.bottom.size ≡ 0 → StartsWith (compact_start compact) settings →
        compact_text compact width columns rows colors ≡ grid_text (look_of settings) width one_line colors columns rows }
{}
