//! Colours that are given for columns.
ghost use Rattle.std.specs.Prelude.{◌≡◌, ◌==◌, ◌<◌, ℕ, Some, if◌then◌else◌, length};
ghost use Rattle.std.specs.Option.{option_map};
ghost use Rattle.columns_asked.specs.Colors.ColumnColors.{column_color};
ghost use Rattle.columns_table.specs.KeptColors.{KeepsColors, kept_color};
ghost use Rattle.grid_config.specs.Colors.{color_of};

use grid_config::{ANSIBuf, ANSIStr};
use grid_config_values::Position;
use papergrid_print::Colors;
use std::alloc::{AllocError, Global};

/// Columns and their colours: of several colours of one column the last decides. Those of the first columns are
/// found without a look at the others.
#[derive(Drop)]
pub(crate) struct ColumnColors<'a> {
    given: &'a [(usize, ANSIBuf)],
    // The colour of each of the first columns.
    kept: Vec<Option<ANSIStr<'a>>>,
    ghost keeps: { KeepsColors given.now kept.items },
}

impl<'a> ColumnColors<'a> {
    ghost use Rattle.std.specs.Prelude.{◌≡◌, IfOk};
    ghost use Rattle.columns_table.specs.GivenColors.{given_colors};

    /// These colours, those of the first `columns` columns at hand. Fails only where allocation fails.
    pub(crate) fn new(
        alloc: Global,
        given: &'a [(usize, ANSIBuf)],
        columns: usize,
    ) -> Result<ColumnColors<'a>, AllocError>
        ensures { IfOk result (λ colors. given_colors colors ≡ given.now) }
    {
        let mut kept = Vec::new(alloc);
        kept.resize(columns, None)?;
        for one in given {
            keep(&mut kept, one.0, one.1.as_ref());
        }
        Ok(ColumnColors { given, kept })
    }
}

impl<'a> Colors for ColumnColors<'a> {
    ghost use Rattle.columns_asked.specs.Colors.ColumnColors.{cell_color};
    ghost use Rattle.columns_table.specs.GivenColors.{given_colors};

    ghost color = { λ colors. cell_color (given_colors colors) };

    fn get_color(&self, pos: Position) -> Option<ANSIStr<'_>> {
        match self.kept.get(pos.col) {
            Some(color) => *color,
            None => last_color(self.given, pos.col),
        }
    }

    fn column_color(&self, column: usize) -> Option<Option<ANSIStr<'_>>> {
        Some(self.get_color(Position::new(0, column)))
    }
}

// Keeps the colour of a column, where that is one of the first.
fn keep<'a>(kept: &mut [Option<ANSIStr<'a>>], column: usize, color: ANSIStr<'a>)
    ensures length { length kept.new ≡ length kept.old }
    ensures kept { (j : ℕ) → j < length kept.old → kept_color kept.new j ≡ (if column == j then Some (color_of color.entry) else kept_color kept.old j) }
{
    if column < kept.len() {
        kept[column] = Some(color);
    }
}

// The last colour that is given for this column.
fn last_color<'a>(given: &'a [(usize, ANSIBuf)], column: usize) -> Option<ANSIStr<'a>>
    ensures { option_map color_of result ≡ column_color given.now column }
{
    let mut found = None;
    for one in given {
        if one.0 == column {
            found = Some(one.1.as_ref());
        }
    }
    found
}
