//! The settings of a table before it is made narrower.
ghost use Rattle.std.specs.Prelude.{◌≡◌, ◌++◌, ◌∷◌, [], IfErr, IfOk, OnOk, map};
ghost use Rattle.basinmug_columns.specs.Names.{number_of};
ghost use Rattle.basinmug_cells.specs.Views.{row_texts};
ghost use Rattle.basinmug_run.specs.Picture.Settings.{aligned_by, colored_by, settings_of, numbers_right, right_if};
ghost use Rattle.basinmug_run.specs.Picture.Names.{IsFirstMissing, missing_by, missing_names};

use crate::columns::named_number;
use crate::options::Options;
use crate::picture::fault::PrintFault;
use crate::picture::glyphs::glyphs_of;
use basinmug_cells::Row;
use basinmug_columns::NamedColumns;
use grid_config::{ANSIBuf, AlignmentHorizontal};
use program_options::basinmug::ColumnName;
use std::alloc::{AllocError, Global};
use tabled::{Entity, Setting};

/// The lines of the table, numbers at the right, and what is requested of named columns. Refused as `NoColumn` with the
/// first name that the header does not have, and as `Memory` where allocation fails.
pub(crate) fn settings_of(
    alloc: Global,
    header: Row<'_>,
    numeric: &[bool],
    options: &Options,
) -> Result<Vec<Setting>, PrintFault>
    ensures settings { IfOk result (λ settings. settings.items ≡ settings_of options.now.line_style (row_texts header.entry) numeric.now options.now.alignments.items options.now.colors.items) }
    ensures named { OnOk result (missing_names (row_texts header.entry) options.now.alignments.items ++ missing_names (row_texts header.entry) options.now.colors.items ≡ []) }
    ensures refused { IfErr result (IsFirstMissing (missing_names (row_texts header.entry) options.now.alignments.items ++ missing_names (row_texts header.entry) options.now.colors.items)) }
{
    let mut settings = Vec::new(alloc);
    settings.push(Setting::Borders(glyphs_of(options.line_style)))?;
    push_numbers(&mut settings, numeric)?;
    let columns = NamedColumns::new(alloc, header)?;
    push_alignments(alloc, &mut settings, &columns, &options.alignments)?;
    push_colors(alloc, &mut settings, &columns, &options.colors)?;
    Ok(settings)
}

// Columns of numbers are at the right.
fn push_numbers(settings: &mut Vec<Setting>, numeric: &[bool]) -> Result<(), AllocError>
    ensures { OnOk result (settings.new.items ≡ settings.old.items ++ numbers_right numeric.now) }
{
    for column in 0..numeric.len() {
        push_right_if(settings, numeric[column], column)?;
    }
    Ok(())
}

// A column is at the right, if it is of numbers.
fn push_right_if(
    settings: &mut Vec<Setting>,
    is_numeric: bool,
    column: usize,
) -> Result<(), AllocError>
    ensures { OnOk result (settings.new.items ≡ settings.old.items ++ right_if is_numeric column) }
{
    if is_numeric {
        settings.push(Setting::AlignHorizontal(
            Entity::Column(column),
            AlignmentHorizontal::Right,
        ))?;
    }
    Ok(())
}

// Where the texts of named columns are.
fn push_alignments(
    alloc: Global,
    settings: &mut Vec<Setting>,
    columns: &NamedColumns,
    pairs: &[(ColumnName, AlignmentHorizontal)],
) -> Result<(), PrintFault>
    ensures settings { OnOk result (settings.new.items ≡ settings.old.items ++ aligned_by (number_of columns.now) pairs.now) }
    ensures named { OnOk result (missing_by (number_of columns.now) pairs.now ≡ []) }
    ensures refused { IfErr result (IsFirstMissing (missing_by (number_of columns.now) pairs.now)) }
{
    for (name, alignment) in pairs {
        let column = named_number(alloc, columns, name)?;
        settings.push(Setting::AlignHorizontal(Entity::Column(column), *alignment))?;
    }
    Ok(())
}

// The colours of named columns.
fn push_colors(
    alloc: Global,
    settings: &mut Vec<Setting>,
    columns: &NamedColumns,
    pairs: &[(ColumnName, ANSIBuf)],
) -> Result<(), PrintFault>
    ensures settings { OnOk result (settings.new.items ≡ settings.old.items ++ colored_by (number_of columns.now) pairs.now) }
    ensures named { OnOk result (missing_by (number_of columns.now) pairs.now ≡ []) }
    ensures refused { IfErr result (IsFirstMissing (missing_by (number_of columns.now) pairs.now)) }
{
    for (name, color) in pairs {
        let column = named_number(alloc, columns, name)?;
        settings.push(Setting::Color(Entity::Column(column), color.clone(alloc)?))?;
    }
    Ok(())
}
