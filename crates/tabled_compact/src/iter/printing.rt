//! Rows printed in a grid.
ghost use Rattle.std.specs.Prelude.{◌≡◌, ◌++◌, ◌⊎◌, Err, IfErr, IfOk, Ok, OnErr, OnOk, string_bytes};
ghost use Rattle.grid_config.specs.Compact.{compact_of};
ghost use Rattle.grid_config.specs.Looks.{compact_look, look_of};
ghost use Rattle.grid_config_values.specs.declared.fault.Fault.TheVariants.{Memory};
ghost use Rattle.grid_records.specs.RecordRows.Truncating.{truncated_rows};
ghost use Rattle.grid_records_traits.specs.Rows.{evened};
ghost use Rattle.papergrid.specs.Grids.{grid_text};
ghost use Rattle.papergrid.specs.Tables.{CanBeDrawn, IsFitsAnswer};
ghost use Rattle.tabled_compact.specs.Tables.{first_or_all, no_colors};
ghost use Rattle.tabled_compact.specs.Iter.Drawing.{IsDrawn};
ghost use Rattle.tabled_size.specs.Dimension.Sizes.{given_size};

use crate::iter::sizes::InnerAndOuterSizes;
use grid_config::{CompactConfig, Fault, SpannedConfig};
use grid_records::{IterRecords, LimitRows, TruncateContent};
use grid_records_traits::IntoRecords;
use papergrid::{IterGrid, NoColors};
use std::alloc::Global;
use tabled_size::StaticDimension;

/// Appends the rows that are kept, their cells cut at the widths of the content. Refused as `Range`, then
/// as `Room`, or as `Memory` where allocation fails, and then the text is as it was.
pub(crate) fn draw<I: IntoRecords + Drop>(
    alloc: Global,
    rows: I,
    kept: Option<usize>,
    columns: usize,
    config: &CompactConfig,
    both: InnerAndOuterSizes,
    out: &mut String,
) -> Result<(), Fault>
    ensures text { let shown = evened columns (truncated_rows (given_size both.content.0) (first_or_all kept (I.RecordTexts.rows rows))) in OnOk result (string_bytes out.new ≡ string_bytes out.old
        ++ grid_text (compact_look (compact_of config.now)) (given_size both.sizes.0) (given_size both.sizes.1) no_colors columns shown) }
    ensures fits { let shown = evened columns
        (truncated_rows (given_size both.content.0) (first_or_all kept (I.RecordTexts.rows rows))) in IfOk result
        (λ done. IsDrawn (compact_look (compact_of config.now)) both.sizes columns shown (Ok done)) }
    ensures kept { OnErr result (string_bytes out.new ≡ string_bytes out.old) }
    ensures fault { let shown = evened columns
        (truncated_rows (given_size both.content.0) (first_or_all kept (I.RecordTexts.rows rows))) in IfErr result (λ fault. (fault ≡ Memory)
        ⊎ IsDrawn (compact_look (compact_of config.now)) both.sizes columns shown (Err fault)) }
{
    let settings = SpannedConfig::from_compact_config(alloc, *config)?;
    draw_kept(alloc, rows, kept, columns, &settings, both, out)
}

// The same by all settings.
fn draw_kept<I: IntoRecords + Drop>(
    alloc: Global,
    rows: I,
    kept: Option<usize>,
    columns: usize,
    settings: &SpannedConfig,
    both: InnerAndOuterSizes,
    out: &mut String,
) -> Result<(), Fault>
    ensures text { let shown = evened columns (truncated_rows (given_size both.content.0) (first_or_all kept (I.RecordTexts.rows rows))) in OnOk result (string_bytes out.new ≡ string_bytes out.old
        ++ grid_text (look_of settings.now) (given_size both.sizes.0) (given_size both.sizes.1) no_colors columns shown) }
    ensures fits { let shown = evened columns
        (truncated_rows (given_size both.content.0) (first_or_all kept (I.RecordTexts.rows rows))) in OnOk result
        (CanBeDrawn settings.now (given_size both.sizes.0) (given_size both.sizes.1) columns shown) }
    ensures kept { OnErr result (string_bytes out.new ≡ string_bytes out.old) }
    ensures fault { let shown = evened columns
        (truncated_rows (given_size both.content.0) (first_or_all kept (I.RecordTexts.rows rows))) in IfErr result (λ fault. (fault ≡ Memory)
        ⊎ IsFitsAnswer settings.now (given_size both.sizes.0) (given_size both.sizes.1) columns shown (Err fault)) }
{
    let InnerAndOuterSizes { content, sizes } = both;
    match kept {
        Some(count) => {
            let first = LimitRows::new(rows, count);
            let cut = TruncateContent::new(alloc, first, &content);
            print(alloc, cut, columns, settings, sizes, out)
        }
        None => {
            let cut = TruncateContent::new(alloc, rows, &content);
            print(alloc, cut, columns, settings, sizes, out)
        }
    }
}

// Appends `columns` columns of these rows.
fn print<I: IntoRecords>(
    alloc: Global,
    rows: I,
    columns: usize,
    settings: &SpannedConfig,
    sizes: StaticDimension,
    out: &mut String,
) -> Result<(), Fault>
    ensures text { OnOk result (string_bytes out.new ≡ string_bytes out.old
        ++ grid_text (look_of settings.now) (given_size sizes.0) (given_size sizes.1) no_colors columns (evened columns (I.RecordTexts.rows rows))) }
    ensures fits { OnOk result (CanBeDrawn settings.now (given_size sizes.0) (given_size sizes.1) columns (evened columns (I.RecordTexts.rows rows))) }
    ensures kept { OnErr result (string_bytes out.new ≡ string_bytes out.old) }
    ensures fault { IfErr result (λ fault. (fault ≡ Memory) ⊎ IsFitsAnswer settings.now (given_size sizes.0) (given_size sizes.1) columns (evened columns (I.RecordTexts.rows rows)) (Err fault)) }
{
    let records = IterRecords::new(rows, columns, None);
    IterGrid::new(records, settings, sizes, NoColors).build(alloc, out)
}
