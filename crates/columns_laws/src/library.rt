//! The program's tables as tables of the library: laws alone.
//!
//! Laws of the tables of both programs, each the contract of a function that does nothing.
ghost use Rattle.std.specs.Prelude.{◌≡◌, ◌<◌, ◌≤◌, ◌^◌, ◌∷◌, ◌++◌, ℕ, Bool, List, None, Ok, Some, String, [], false, length, replicate, string_bytes, true};
ghost use Rattle.std.proofs.Common.{Global as Heap};
ghost use Rattle.columns_asked.specs.DrawnTables.{longest_row_length, paddings};
ghost use Rattle.columns_run.specs.DrawnTables.{output_of};
ghost use Rattle.columns_run.specs.Run.{HasTable};
ghost use Rattle.columns_run.specs.Rows.{cell_parts};
ghost use Rattle.columns_run.specs.Wanted.{Wanted, WantsStyleAlone};
ghost use Rattle.columns_laws.specs.Library.Tables.{AreRowsOfLength, color_settings, ended_stream, ended_table, sniffing, table_of, uncolored_table_of};
ghost use Rattle.grid_config.specs.Compact.{Compact};
ghost use Rattle.grid_config.specs.Looks.{Look, compact_look};
ghost use Rattle.grid_config_values.specs.declared.entity.Entity.TheVariants.{Row as OneRow};
ghost use Rattle.grid_config_values.specs.declared.position.Position.{Position as CellPosition};
ghost use Rattle.tabled.specs.Narrowed.{GivesOnly};
ghost use Rattle.tabled_list.specs.Lists.{LeadsThrough};
ghost use Rattle.tabled_list.specs.Priorities.{IsNamed};
ghost use Rattle.tabled_list.specs.Settings.{setting_step};
ghost use Rattle.tabled_list.specs.declared.amount.Amount.TheVariants.{Exact};
ghost use Rattle.tabled_list.specs.declared.setting.Setting.TheVariants.{Truncate as CutTable, Wrap as WrapTable};
ghost use Rattle.tabled_size.specs.declared.dimension.suffix.SuffixLimit.{SuffixLimit};
ghost use Rattle.tabled_size_priority.specs.declared.choice.Choice.TheVariants.{Left, MaxLeft, MaxRight, MinLeft, MinRight, None as InTurns, Right};
ghost use Rattle.tabled_size_priority.specs.declared.left.PriorityLeft.{PriorityLeft as OneLeft};
ghost use Rattle.tabled_size_priority.specs.declared.right.PriorityRight.{PriorityRight as OneRight};
ghost use Rattle.tabled_steps.specs.Sizes.{natural_widths};
ghost use Rattle.tabled_steps.specs.States.{Settles, State};
ghost use Rattle.tabled_width.specs.Options.{truncation, wrapping};
ghost use Rattle.tabled_width.specs.declared.truncate.Truncate.{Truncate as OneTruncate};
ghost use Rattle.tabled_width.specs.declared.wrap.Wrap.{Wrap as OneWrap};
ghost use Rattle.tabled_width.specs.WholeTables.Rooms.{empty_widths};
ghost use Rattle.tabled_text.specs.Rows.{filled};

use grid_config::ColoredConfig;
use grid_records::{FromText, VecRecords};
use tabled_size::CompleteDimension;
use tabled_size_priority::{
    Peaker, PriorityLeft, PriorityMax, PriorityMin, PriorityNone, PriorityRight,
};
use tabled_steps::{Measurement, TableOption};
use tabled_width::{Truncate, Width, Wrap};

/// What the program writes of a text without a width is what a `Table` of its rows prints under the same style and in
/// the same colours of columns. A line feed follows its last line too. Its short rows are filled as a `Builder`
/// fills them; where all have as many cells, there is nothing to fill.
pub fn both_programs_draw_one_table()
    ensures table { (wanted : Wanted) (input : List ℕ) → wanted.limit.width ≡ None → output_of wanted input ≡ ended_table (table_of wanted input) }
    ensures even_rows { (columns : ℕ) (rows : List (List (List ℕ))) → AreRowsOfLength columns rows → filled rows ≡ rows }
{}

/// This `Table` is the one without colours after settings `Color` of a column, one for each requested colour, in their
/// order. So it is also where several are of one column, or of a column that the table does not have.
pub fn columns_are_colored_by_settings()
    ensures { (wanted : Wanted) (input : List ℕ) → LeadsThrough (color_settings wanted.colors) (uncolored_table_of wanted input) (table_of wanted input) }
{}

/// Before those settings no cell of the table has a colour.
pub fn uncolored_tables_have_no_colors()
    ensures { (wanted : Wanted) (input : List ℕ) (cell : CellPosition) → (uncolored_table_of wanted input).colors cell ≡ None }
{}

/// What it writes in a width is what this `Table` prints after `Wrap` to that width, with the same setting for kept
/// words and by the same priority; or, where texts are cut, after `Truncate` without a suffix. Where the input has a
/// table, such a step fails only for want of memory.
pub fn both_programs_narrow_one_table()
    ensures wrapped { (wanted : Wanted) (input : List ℕ) (width : ℕ) (left : State) → wanted.limit.width ≡ Some width → wanted.limit.truncate ≡ false →
        setting_step (WrapTable (Exact width) wanted.limit.keep_words wanted.limit.priority) (table_of wanted input) (Ok left) → output_of wanted input ≡ ended_table left }
    ensures cut { (wanted : Wanted) (input : List ℕ) (width : ℕ) (suffix : String Heap) (limit : SuffixLimit) (try_color : Bool)
        (left : State) → wanted.limit.width ≡ Some width → wanted.limit.truncate ≡ true →
        string_bytes suffix ≡ [] → setting_step (CutTable (Exact width) suffix limit false try_color wanted.limit.priority)
        (table_of wanted input) (Ok left) → output_of wanted input ≡ ended_table left }
    ensures wrap_is_taken { (wanted : Wanted) (input : List ℕ) (width : ℕ) → HasTable wanted input →
        (left : State) × setting_step (WrapTable (Exact width) wanted.limit.keep_words wanted.limit.priority) (table_of wanted input) (Ok left) }
    ensures cut_is_taken { (wanted : Wanted) (input : List ℕ) (width : ℕ) (suffix : String Heap) (limit : SuffixLimit) (try_color : Bool) → HasTable wanted input →
        (left : State) × setting_step (CutTable (Exact width) suffix limit false try_color wanted.limit.priority) (table_of wanted input) (Ok left) }
{}

/// So it is what the table without colours prints after one list of settings, as `Table::with_list` takes it: those of
/// the colours, and after them one of these two, where a width is requested.
pub fn one_list_of_settings_draws_the_table()
    ensures natural { (wanted : Wanted) (input : List ℕ) (last : State) → wanted.limit.width ≡ None →
        LeadsThrough (color_settings wanted.colors) (uncolored_table_of wanted input) last → output_of wanted input ≡ ended_table last }
    ensures wrapped { (wanted : Wanted) (input : List ℕ) (width : ℕ) (last : State) → wanted.limit.width ≡ Some width → wanted.limit.truncate ≡ false →
        LeadsThrough (color_settings wanted.colors ++ WrapTable (Exact width) wanted.limit.keep_words wanted.limit.priority ∷ [])
        (uncolored_table_of wanted input) last → output_of wanted input ≡ ended_table last }
    ensures cut { (wanted : Wanted) (input : List ℕ) (width : ℕ) (suffix : String Heap) (limit : SuffixLimit) (try_color : Bool)
        (last : State) → wanted.limit.width ≡ Some width → wanted.limit.truncate ≡ true → string_bytes suffix ≡ [] →
        LeadsThrough (color_settings wanted.colors ++ CutTable (Exact width) suffix limit false try_color wanted.limit.priority ∷ [])
        (uncolored_table_of wanted input) last → output_of wanted input ≡ ended_table last }
{}

/// The same after the options of these names, which `Table::with` takes: their priority is one of the requested name,
/// and their width measures this width alone.
pub fn both_programs_narrow_by_options<
    'a,
    T: FromText,
    W: Measurement<Width> + Drop,
    P: Peaker + Drop,
>()
    ensures wrapped { (option : OneWrap W P) (wanted : Wanted) (input : List ℕ) (width : ℕ) (left : State) → wanted.limit.width ≡ Some width → wanted.limit.truncate ≡ false →
        (wrapping option).keep_words ≡ wanted.limit.keep_words →
        IsNamed P.shrinks P.grows (wrapping option).priority wanted.limit.priority →
        GivesOnly (W.measures (wrapping option).width) (table_of wanted input) width →
        Settles (Some (OneRow 0)) (⟦<Wrap<W, P> as TableOption<VecRecords<T>, ColoredConfig, CompleteDimension>>⟧.step option)
        (table_of wanted input) (Ok left) → output_of wanted input ≡ ended_table left }
    ensures cut { (option : OneTruncate W P) (wanted : Wanted) (input : List ℕ) (width : ℕ) (left : State) → wanted.limit.width ≡ Some width → wanted.limit.truncate ≡ true →
        IsNamed P.shrinks P.grows (truncation option).priority wanted.limit.priority → GivesOnly (W.measures (truncation option).width) (table_of wanted input) width →
        (truncation option).cutting.suffix ≡ [] → (truncation option).cutting.multiline ≡ false →
        Settles None (⟦<Truncate<'a, W, P> as TableOption<VecRecords<T>, ColoredConfig, CompleteDimension>>⟧.step option)
        (table_of wanted input) (Ok left) → output_of wanted input ≡ ended_table left }
{}

/// The library's own priorities and numbers are such: each priority, before it is used, is one of its name, and a
/// number as a width measures itself.
pub fn own_priorities_and_numbers_serve()
    ensures turns { IsNamed ⟦<PriorityNone as Peaker>⟧.shrinks ⟦<PriorityNone as Peaker>⟧.grows 0 InTurns }
    ensures left { (priority : OneLeft) → IsNamed ⟦<PriorityLeft as Peaker>⟧.shrinks ⟦<PriorityLeft as Peaker>⟧.grows priority Left }
    ensures right { (priority : OneRight) → IsNamed ⟦<PriorityRight as Peaker>⟧.shrinks ⟦<PriorityRight as Peaker>⟧.grows priority Right }
    ensures widest { IsNamed ⟦<PriorityMax as Peaker>⟧.shrinks ⟦<PriorityMax as Peaker>⟧.grows false MaxLeft × IsNamed ⟦<PriorityMax as Peaker>⟧.shrinks ⟦<PriorityMax as Peaker>⟧.grows true MaxRight }
    ensures narrowest { IsNamed ⟦<PriorityMin as Peaker>⟧.shrinks ⟦<PriorityMin as Peaker>⟧.grows false MinLeft
        × IsNamed ⟦<PriorityMin as Peaker>⟧.shrinks ⟦<PriorityMin as Peaker>⟧.grows true MinRight }
    ensures numbers { (s : State) (width : ℕ) → GivesOnly (⟦<usize as Measurement<Width>>⟧.measures width) s width }
{}

/// What it writes without a width and without colours, as a whole or row by row, is the text of an `IterTable` of its
/// rows that sniffs all of them. A line feed follows its last line too. There are at most 2^64 columns.
pub fn streamed_tables_sniff_all_rows()
    ensures { (wanted : Wanted) (input : List ℕ) (sniffed : ℕ) → WantsStyleAlone wanted → length (cell_parts input) ≤ sniffed → longest_row_length (cell_parts input) ≤ 2 ^ 64 →
        output_of wanted input ≡ ended_stream (sniffing sniffed wanted.style (cell_parts input)) }
{}

/// The least width of a column is its estimate where all texts are empty. In a table whose cells all have the settings
/// of a compact style, it is the paddings at the left and the right of a text.
pub fn empty_columns_take_the_paddings()
    ensures estimate { (look : Look) (columns rows : ℕ) → empty_widths look columns rows ≡ natural_widths look columns (replicate rows (replicate columns [])) }
    ensures paddings { (style : Compact) (columns rows : ℕ) → 0 < rows → empty_widths (compact_look style) columns rows ≡ replicate columns (paddings style) }
{}
