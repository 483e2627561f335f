//! The table of rows.
ghost use Rattle.std.specs.Prelude.{◌≡◌, ◌≢◌, ◌==◌, ◌^◌, ◌<◌, ◌⊎◌, [], All, Err, IfErr, IfOk, None, OnOk, Some, if◌then◌else◌, length, sum};
ghost use Rattle.std.specs.Option.{option_map};
ghost use Rattle.grid_config.specs.Compact.{compact_of};
ghost use Rattle.grid_config.specs.Looks.{look_of};
ghost use Rattle.grid_config_values.specs.Spans.Spans.{AreGood};
ghost use Rattle.grid_config_values.specs.declared.fault.Fault.TheVariants.{Memory};
ghost use Rattle.papergrid_picture.specs.Fitting.{FitsAnswer, InRange, first_too_wide};
ghost use Rattle.papergrid_picture.specs.Frame.{frame_of, line_count};
ghost use Rattle.columns_asked.specs.DrawnTables.{asked_frame, frame_under, heights_of, resized_rows, narrow, narrowed, paddings, too_wide, widths_of};
ghost use Rattle.columns_asked.specs.Colors.ColoredTables.{colored_text};
ghost use Rattle.columns_asked.specs.Colors.ColumnColors.{cell_color};
ghost use Rattle.columns_table.specs.Answers.{HasTable, MayBeRefused, natural_text};
ghost use Rattle.columns_table.specs.Listed.{AreSizesOf, CanBeDrawnIn, IsAnswerIn, text_in};
ghost use Rattle.columns_table.specs.Records.{IsSingleLineCell};
ghost use Rattle.columns_table.specs.Rows.{row_texts_of};
ghost use Rattle.papergrid_print.specs.Ended.{ended_text};
ghost use Rattle.tabled_output.specs.Pieces.{Passes};

use crate::colors::ColumnColors;
use crate::least::greatest;
use crate::placed::PlacedRows;
use crate::resized::ResizedRows;
use crate::rows::Rows;
use crate::sizes::{Sizes, sizes_of, totalled};
use columns_asked::{WidthLimit, narrowed};
use grid_config::{ANSIBuf, CompactConfig, Fault, SpannedConfig};
use grid_records::PeekedRecords;
use grid_records_estimate::CompactGridDimension;
use grid_records_traits::{ExactRecords, PeekableRecords};
use papergrid_fits::fits;
use papergrid_print::{NoColors, write_buffered_table};
use std::alloc::{AllocError, Global};
use std::io::Write;
use tabled_output::{Counted, WriteFault};

/// Writes the table of these rows under a style, each of its lines ended by a line feed, in the requested width.
/// Where it would be wider, its columns shrink, and each cell is wrapped or cut to the width of its column. Each
/// line of a cell has the colour of its column, the last that is given for it. Without rows it writes nothing.
/// It writes in pieces of many lines, which are held in a buffer of `size` bytes before they are written; where the
/// buffer has no bytes, each line is written as soon as it is made. Each cell must be one line that measures what it
/// says.
///
/// `Ok(Err(..))` where the writer fails: then it took a prefix of the table. Before anything is written the table
/// is refused as `Range` where its width or height passes `usize::MAX`, before its columns shrink or after. Else it
/// is refused as `Room` of the first cell, by row, then by column, with a line that takes more columns than the cell
/// has. Refused as `Memory` where allocation fails; then too the writer may have taken a prefix.
pub fn write_buffered_rows<W: Write>(
    alloc: Global,
    style: &CompactConfig,
    asked: &WidthLimit,
    colors: &[(usize, ANSIBuf)],
    rows: Rows<'_>,
    size: usize,
    writer: &mut Counted<W>,
) -> Result<Result<(), WriteFault>, Fault>
    requires measured { All IsSingleLineCell rows.cells }
    ensures table { Passes W.contents (colored_text (compact_of style.now) asked.now (cell_color colors.now) (row_texts_of rows.entry)) result [] writer.old writer.new }
    ensures alone { ¬ (HasTable (compact_of style.now) asked.now (row_texts_of rows.entry)) → writer.new ≡ writer.old }
    ensures fits { OnOk result (HasTable (compact_of style.now) asked.now (row_texts_of rows.entry)) }
    ensures refused { IfErr result (MayBeRefused (compact_of style.now) asked.now (row_texts_of rows.entry)) }
{
    let sizes = sizes_of(alloc, &rows, style)?;
    match narrower(alloc, style, asked, &sizes)? {
        Some(widths) => write_narrowed(alloc, style, asked, colors, rows, widths, size, writer),
        None => write_natural(alloc, style, colors, rows, sizes, size, writer),
    }
}

// The widths that the columns shrink to where the table of these sizes would be wider than it may.
fn narrower(
    alloc: Global,
    style: &CompactConfig,
    asked: &WidthLimit,
    sizes: &Sizes,
) -> Result<Option<Vec<usize>>, AllocError>
    requires sum { sum sizes.now.widths.items < 2 ^ 64 }
    requires beside { 0 < length sizes.now.widths.items → paddings (compact_of style.now) < 2 ^ 64 }
    requires none { length sizes.now.widths.items ≡ 0 → sizes.now.whole_width ≡ 0 }
    ensures { IfOk result (λ widths. option_map (λ w. w.items) widths ≡ narrow (compact_of style.now) asked.now sizes.now.widths.items sizes.now.whole_width asked.now.width) }
{
    if sizes.widths.is_empty() {
        return Ok(None);
    }
    narrowed(
        alloc,
        asked,
        &sizes.widths,
        sizes.whole_width,
        beside(style),
    )
}

// The columns beside the text of a cell.
fn beside(style: &CompactConfig) -> usize
    requires { paddings (compact_of style.now) < 2 ^ 64 }
    ensures { result ≡ paddings (compact_of style.now) }
{
    let padding = style.get_padding();
    padding.left.size + padding.right.size
}

// Writes the table of these rows in their own sizes, which are in range.
fn write_natural<W: Write>(
    alloc: Global,
    style: &CompactConfig,
    colors: &[(usize, ANSIBuf)],
    rows: Rows<'_>,
    sizes: Sizes,
    size: usize,
    writer: &mut Counted<W>,
) -> Result<Result<(), WriteFault>, Fault>
    requires measured { All IsSingleLineCell rows.cells }
    requires widths { sizes.widths.items ≡ widths_of (compact_of style.now) (row_texts_of rows) }
    requires heights { sizes.heights.items ≡ heights_of (compact_of style.now) (row_texts_of rows) }
    requires lines { sizes.whole_height ≡ line_count (frame_under (compact_of style.now) (row_texts_of rows)) }
    requires fits { InRange (frame_under (compact_of style.now) (row_texts_of rows)) }
    ensures table { Passes W.contents (natural_text (compact_of style.now) (cell_color colors.now) (row_texts_of rows.entry)) result [] writer.old writer.new }
    ensures alone { ¬ (first_too_wide (frame_under (compact_of style.now) (row_texts_of rows.entry)) (row_texts_of rows.entry) ≡ None) → writer.new ≡ writer.old }
    ensures room { OnOk result (first_too_wide (frame_under (compact_of style.now) (row_texts_of rows.entry)) (row_texts_of rows.entry) ≡ None) }
    ensures refused { IfErr result (λ fault. fault ≡ Memory) }
{
    let columns = greatest(&rows.counts);
    let records = PlacedRows::new(rows, columns);
    let settings = SpannedConfig::from_compact_config(alloc, *style)?;
    write_grid(alloc, &records, &settings, colors, sizes, size, writer)
}

// Writes the table of these rows in narrower columns.
fn write_narrowed<W: Write>(
    alloc: Global,
    style: &CompactConfig,
    asked: &WidthLimit,
    colors: &[(usize, ANSIBuf)],
    rows: Rows<'_>,
    widths: Vec<usize>,
    size: usize,
    writer: &mut Counted<W>,
) -> Result<Result<(), WriteFault>, Fault>
    requires measured { All IsSingleLineCell rows.cells }
    requires beside { paddings (compact_of style.now) < 2 ^ 64 }
    requires narrowed { narrowed (compact_of style.now) asked.now (row_texts_of rows) ≡ Some widths.items }
    ensures table { Passes W.contents (colored_text (compact_of style.now) asked.now (cell_color colors.now) (row_texts_of rows.entry)) result [] writer.old writer.new }
    ensures alone { ¬ (InRange (asked_frame (compact_of style.now) asked.now (row_texts_of rows.entry))
        × (too_wide (compact_of style.now) asked.now (row_texts_of rows.entry) ≡ None)) → writer.new ≡ writer.old }
    ensures range { OnOk result (InRange (asked_frame (compact_of style.now) asked.now (row_texts_of rows.entry))) }
    ensures room { OnOk result (too_wide (compact_of style.now) asked.now (row_texts_of rows.entry) ≡ None) }
    ensures refused { IfErr result (λ fault. (fault ≡ Memory)
        ⊎ FitsAnswer (asked_frame (compact_of style.now) asked.now (row_texts_of rows.entry)) (resized_rows (compact_of style.now) asked.now (row_texts_of rows.entry)) (Unit {0}) (Err fault)) }
{
    let records = ResizedRows::new(alloc, asked, rows, &widths, beside(style))?;
    let peeked = PeekedRecords::new(&records);
    let heights = CompactGridDimension::height(alloc, peeked, style)?;
    let sizes = totalled(widths, heights, style)?;
    let settings = SpannedConfig::from_compact_config(alloc, *style)?;
    write_where_fits(alloc, &records, &settings, colors, sizes, size, writer)
}

// Writes the text of these records with a line feed after its last line. Refused as `fits` refuses them, and
// as `Memory` where allocation fails.
fn write_where_fits<R: ExactRecords + PeekableRecords, W: Write>(
    alloc: Global,
    records: &R,
    settings: &SpannedConfig,
    colors: &[(usize, ANSIBuf)],
    sizes: Sizes,
    size: usize,
    writer: &mut Counted<W>,
) -> Result<Result<(), WriteFault>, Fault>
    requires listed { sizes.whole_height ≢ 0 → AreSizesOf sizes (R.columns records.now) (length (R.rows records.now)) }
    requires lines { sizes.whole_height ≡ line_count (frame_of (look_of settings.now) sizes.widths.items sizes.heights.items) }
    ensures text { Passes W.contents (text_in sizes settings.now (cell_color colors.now) (R.columns records.now) (R.rows records.now)) result [] writer.old writer.new }
    ensures alone { ¬ (CanBeDrawnIn sizes settings.now (R.columns records.now) (R.rows records.now)) → writer.new ≡ writer.old }
    ensures fits { OnOk result (CanBeDrawnIn sizes settings.now (R.columns records.now) (R.rows records.now)) }
    ensures refused { IfErr result (λ fault. (fault ≡ Memory)
        ⊎ IsAnswerIn sizes settings.now (R.columns records.now) (R.rows records.now) (Err fault)) }
{
    fits(records, settings, &sizes)?;
    write_grid(alloc, records, settings, colors, sizes, size, writer)
}

// Writes the text of these records with a line feed after its last line, where they have a line and fit the sizes.
fn write_grid<R: ExactRecords + PeekableRecords, W: Write>(
    alloc: Global,
    records: &R,
    settings: &SpannedConfig,
    colors: &[(usize, ANSIBuf)],
    sizes: Sizes,
    size: usize,
    writer: &mut Counted<W>,
) -> Result<Result<(), WriteFault>, Fault>
    requires fits { sizes.whole_height ≢ 0 → CanBeDrawnIn sizes settings.now (R.columns records.now) (R.rows records.now) }
    requires listed { sizes.whole_height ≢ 0 → AreSizesOf sizes (R.columns records.now) (length (R.rows records.now)) }
    requires lines { sizes.whole_height ≡ line_count (frame_of (look_of settings.now) sizes.widths.items sizes.heights.items) }
    ensures text { Passes W.contents (text_in sizes settings.now (cell_color colors.now) (R.columns records.now) (R.rows records.now)) result [] writer.old writer.new }
    ensures refused { IfErr result (λ fault. fault ≡ Memory) }
{
    if sizes.whole_height == 0 {
        return Ok(Ok(()));
    }
    let widths = sizes.widths.as_slice();
    let heights = sizes.heights.as_slice();
    let written = write_lines(
        alloc, records, settings, colors, widths, heights, size, writer,
    )?;
    Ok(written)
}

// Writes these records in colours of their columns, as `write_buffered_table` does. Where no colour is given,
// none is looked up for the lines of cells.
fn write_lines<R: PeekableRecords, W: Write>(
    alloc: Global,
    records: &R,
    settings: &SpannedConfig,
    colors: &[(usize, ANSIBuf)],
    widths: &[usize],
    heights: &[usize],
    size: usize,
    writer: &mut Counted<W>,
) -> Result<Result<(), WriteFault>, AllocError>
    requires good { AreGood settings.now.spans (length heights.now) (length widths.now) }
    requires range { InRange (frame_of (look_of settings.now) widths.now heights.now) }
    ensures { Passes W.contents (ended_text (look_of settings.now) (R.rows records.now) (cell_color colors.now) widths.now heights.now) result [] writer.old writer.new }
{
    if colors.is_empty() {
        return write_buffered_table(
            alloc, records, settings, &NoColors, widths, heights, size, writer,
        );
    }
    let colors = ColumnColors::new(alloc, colors, widths.len())?;
    write_buffered_table(
        alloc, records, settings, &colors, widths, heights, size, writer,
    )
}
