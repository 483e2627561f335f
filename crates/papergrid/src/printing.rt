//! A table is printed where it fits.
ghost use Rattle.std.specs.Prelude.{◌≡◌, ◌<◌, ◌++◌, ◌⊎◌, [], Err, IfErr, IfOk, IsOk, OnErr, OnOk, Ok, string_bytes};
ghost use Rattle.grid_config_values.specs.declared.fault.Fault.TheVariants.{Memory};
ghost use Rattle.grid_config_values.specs.Spans.Spans.{AreGood, ArePositive};
ghost use Rattle.grid_config.specs.Looks.{look_of};
ghost use Rattle.papergrid_picture.specs.Fitting.{FitsAnswer, InRange};
ghost use Rattle.papergrid_picture.specs.Frame.{line_count};
ghost use Rattle.papergrid_picture.specs.Tables.{sizes_of, table_line, table_text};
ghost use Rattle.papergrid_fits.specs.Tables.{sized_frame};
ghost use Rattle.papergrid_print.specs.Chosen.{chosen_text};
ghost use Rattle.tabled_output.specs.Pieces.{Passes};

use grid_config::{Fault, SpannedConfig};
use grid_records_traits::{Dimension, PeekableRecords};
use papergrid_fits::{fits_counted, heights, widths};
use papergrid_print::{Colors, LineChoice, print_line, print_table, write_chosen, write_table};
use std::alloc::{AllocError, Global};
use std::io::Write;
use tabled_output::{Counted, WriteFault};

/// Appends the text of `rows` rows and `columns` columns of records. Refused as `fits` refuses them, with the same
/// errors in the same order. Where `fits` refuses nothing, refused as `Memory` where allocation fails; without rows
/// or columns no memory is requested. After a refusal the text is as it was.
pub(crate) fn print_fitting<R: PeekableRecords, D: Dimension, C: Colors>(
    alloc: Global,
    records: &R,
    cfg: &SpannedConfig,
    dims: &D,
    colors: &C,
    rows: usize,
    columns: usize,
    out: &mut String,
) -> Result<(), Fault>
    ensures text { OnOk result (string_bytes out.new ≡ string_bytes out.old
        ++ table_text (look_of cfg.now) (R.rows records.now) (C.color colors.now) (sizes_of (D.width dims.now) columns) (sizes_of (D.height dims.now) rows)) }
    ensures fits { IfOk result (λ done. FitsAnswer (sized_frame cfg.now (D.width dims.now) (D.height dims.now) columns rows) (R.rows records.now) (AreGood cfg.now.spans rows columns) (Ok done)) }
    ensures kept { OnErr result (string_bytes out.new ≡ string_bytes out.old) }
    ensures fault { IfErr result (λ fault. (fault ≡ Memory)
        ⊎ FitsAnswer (sized_frame cfg.now (D.width dims.now) (D.height dims.now) columns rows) (R.rows records.now) (AreGood cfg.now.spans rows columns) (Err fault)) }
    ensures empty { (rows ≡ 0) ⊎ (columns ≡ 0) →
        IfErr result (λ fault. FitsAnswer (sized_frame cfg.now (D.width dims.now) (D.height dims.now) columns rows) (R.rows records.now)
        (AreGood cfg.now.spans rows columns) (Err fault)) }
    ensures memory { IfErr result (λ fault. fault ≡ Memory →
        FitsAnswer (sized_frame cfg.now (D.width dims.now) (D.height dims.now) columns rows) (R.rows records.now)
        (AreGood cfg.now.spans rows columns) (Ok tt)) }
    ensures positive { ArePositive cfg.now.spans }
{
    fits_counted(records, cfg, dims, rows, columns)?;
    print_sized(alloc, records, cfg, dims, colors, rows, columns, out)?;
    Ok(())
}

/// Appends the text of `rows` rows and `columns` columns of records, whose spans are good and whose totals
/// are in range. Without rows or columns it appends nothing, and never fails. Otherwise it fails only where
/// allocation fails, and then leaves the text as it was.
pub(crate) fn print_sized<R: PeekableRecords, D: Dimension, C: Colors>(
    alloc: Global,
    records: &R,
    cfg: &SpannedConfig,
    dims: &D,
    colors: &C,
    rows: usize,
    columns: usize,
    out: &mut String,
) -> Result<(), AllocError>
    requires good { AreGood cfg.now.spans rows columns }
    requires range { InRange (sized_frame cfg.now (D.width dims.now) (D.height dims.now) columns rows) }
    ensures text { OnOk result (string_bytes out.new ≡ string_bytes out.old
        ++ table_text (look_of cfg.now) (R.rows records.now) (C.color colors.now) (sizes_of (D.width dims.now) columns) (sizes_of (D.height dims.now) rows)) }
    ensures kept { OnErr result (string_bytes out.new ≡ string_bytes out.old) }
    ensures no_rows { rows ≡ 0 → IsOk result }
    ensures no_columns { columns ≡ 0 → IsOk result }
{
    if rows == 0 || columns == 0 {
        return Ok(());
    }
    let widths = widths(alloc, dims, columns)?;
    let heights = heights(alloc, dims, rows)?;
    print_table(alloc, records, cfg, colors, &widths, &heights, out)
}

/// Writes the text that `print_sized` appends to an empty one, line by line.
pub(crate) fn write_sized<R: PeekableRecords, D: Dimension, C: Colors, W: Write>(
    alloc: Global,
    records: &R,
    cfg: &SpannedConfig,
    dims: &D,
    colors: &C,
    rows: usize,
    columns: usize,
    writer: &mut Counted<W>,
) -> Result<Result<(), WriteFault>, AllocError>
    requires good { AreGood cfg.now.spans rows columns }
    requires range { InRange (sized_frame cfg.now (D.width dims.now) (D.height dims.now) columns rows) }
    ensures { Passes W.contents (table_text (look_of cfg.now) (R.rows records.now) (C.color colors.now)
        (sizes_of (D.width dims.now) columns) (sizes_of (D.height dims.now) rows)) result [] writer.old writer.new }
{
    let widths = widths(alloc, dims, columns)?;
    let heights = heights(alloc, dims, rows)?;
    write_table(alloc, records, cfg, colors, &widths, &heights, writer)
}

/// Writes the chosen lines of the text that `print_sized` appends, each with a line feed after it, by a buffer of so many
/// bytes.
pub(crate) fn write_sized_lines<
    R: PeekableRecords,
    D: Dimension,
    C: Colors,
    W: Write,
    K: LineChoice,
>(
    alloc: Global,
    records: &R,
    cfg: &SpannedConfig,
    dims: &D,
    colors: &C,
    rows: usize,
    columns: usize,
    choice: &K,
    size: usize,
    writer: &mut Counted<W>,
) -> Result<Result<(), WriteFault>, AllocError>
    requires good { AreGood cfg.now.spans rows columns }
    requires range { InRange (sized_frame cfg.now (D.width dims.now) (D.height dims.now) columns rows) }
    ensures { Passes W.contents (chosen_text (look_of cfg.now) (R.rows records.now) (C.color colors.now)
        (sizes_of (D.width dims.now) columns) (sizes_of (D.height dims.now) rows) (K.chooses choice.now)) result [] writer.old writer.new }
{
    let widths = widths(alloc, dims, columns)?;
    let heights = heights(alloc, dims, rows)?;
    write_chosen(
        alloc, records, cfg, colors, &widths, &heights, choice, size, writer,
    )
}

/// Appends line `y` of the text that `print_sized` appends, without a line feed. It fails only where
/// allocation fails, and then leaves the text as it was.
pub(crate) fn print_sized_line<R: PeekableRecords, D: Dimension, C: Colors>(
    alloc: Global,
    records: &R,
    cfg: &SpannedConfig,
    dims: &D,
    colors: &C,
    rows: usize,
    columns: usize,
    y: usize,
    out: &mut String,
) -> Result<(), AllocError>
    requires good { AreGood cfg.now.spans rows columns }
    requires range { InRange (sized_frame cfg.now (D.width dims.now) (D.height dims.now) columns rows) }
    requires line { y < line_count (sized_frame cfg.now (D.width dims.now) (D.height dims.now) columns rows) }
    ensures text { OnOk result (string_bytes out.new ≡ string_bytes out.old
        ++ table_line (look_of cfg.now) (R.rows records.now) (C.color colors.now) (sizes_of (D.width dims.now) columns) (sizes_of (D.height dims.now) rows) y) }
    ensures kept { OnErr result (string_bytes out.new ≡ string_bytes out.old) }
{
    let widths = widths(alloc, dims, columns)?;
    let heights = heights(alloc, dims, rows)?;
    print_line(alloc, records, cfg, colors, &widths, &heights, y, out)
}
