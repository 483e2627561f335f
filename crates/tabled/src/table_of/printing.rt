//! A table as a text.
ghost use Rattle.std.specs.Prelude.{◌≡◌, ◌↔◌, IfErr, IfOk, IsTrue, length, string_bytes};
ghost use Rattle.ansi_scan.specs.Sequences.{ForPieces};
ghost use Rattle.ansi_str.specs.StyledText.{strip};
ghost use Rattle.grid_config_values.specs.Spans.Spans.{AreGood, ArePositive};
ghost use Rattle.grid_records_estimate.specs.Sizes.{IsRefusal};
ghost use Rattle.papergrid_picture.specs.Colors.ClosingColors.{ShowNothing};
ghost use Rattle.papergrid_fits.specs.Tables.{sized_frame};
ghost use Rattle.papergrid_picture.specs.Fitting.{InRange};
ghost use Rattle.papergrid_picture.specs.Shown.{AreWholeTexts, IsBare};
ghost use Rattle.tabled.specs.Narrowed.{HasSettings};
ghost use Rattle.tabled.specs.Printing.{FitsOrFails, IsFitsAnswer, drawn_frame, drawn_sizes, printed};
ghost use Rattle.tabled.specs.Tables.{table_state, state_under};
ghost use Rattle.tabled_size.specs.Dimension.Sizes.{given_size};
ghost use Rattle.tabled_size.specs.Dimension.Stored.{stored_sizes};
ghost use Rattle.tabled_steps.specs.States.{column_count};
ghost use Rattle.tabled_list.specs.Stripping.Stripping.{stripped_state, uncolored_state};

use crate::table_of::TableOf;
use crate::table_records::TableRecords;
use grid_config::{Fault, SpannedConfig};
use papergrid::{PeekableGrid, fits};
use papergrid_fits::{full_line_width, total_height};
use tabled_size::CompleteDimension;

impl<R: TableRecords> TableOf<R> {
    /// Whether the table fits its sizes, those that it keeps and in place of the others the least. Refused
    /// as `Spans` where its spans are not good, else as `Range` where the columns of a line, or the lines,
    /// pass `usize::MAX`. Else refused as `Room` of the first visible cell, by row, then by column, that needs
    /// more columns than it has. Refused as `Memory` where allocation fails. Whatever it returns, each of its
    /// cells takes at least one row and one column.
    pub fn fits(&self) -> Result<(), Fault>
        ensures table { FitsOrFails (table_state R.rows self.now) result }
        ensures settings { HasSettings (table_state R.rows self.now) }
    {
        self.fitting_sizes(self.config.spanned())?;
        Ok(())
    }

    /// The text of the table: its lines, a line feed between each two. Refused as `Spans`, `Range` or `Room`,
    /// in this order, as `fits` reports them, and as `Memory` where allocation fails. Without its sequences it
    /// is the text of the table of the stripped texts, without the colours of its cells. For this, texts must be
    /// whole, glyphs and fills hold no ESC, and nothing but cells have a colour, of sequences alone.
    pub fn to_string(&self) -> Result<String, Fault>
        ensures text { IfOk result (λ text. string_bytes text ≡ printed (table_state R.rows self.now)) }
        ensures table { FitsOrFails (table_state R.rows self.now) result }
        ensures settings { HasSettings (table_state R.rows self.now) }
        ensures stripped { let state = table_state R.rows self.now in IsBare state.look → AreWholeTexts state.rows → ShowNothing state.colors →
            IfOk result (λ text. ForPieces (string_bytes text) (λ pieces. strip pieces ≡ printed (uncolored_state (stripped_state state)))) }
    {
        self.text_under(self.config.spanned())
    }

    // Its text under these settings in place of its own; the colours of its cells stay.
    pub(super) fn text_under(&self, config: &SpannedConfig) -> Result<String, Fault>
        ensures text { IfOk result (λ text. string_bytes text ≡ printed (state_under R.rows self.now config.now)) }
        ensures table { FitsOrFails (state_under R.rows self.now config.now) result }
        ensures positive { ArePositive config.now.spans }
    {
        let sizes = self.fitting_sizes(config)?;
        PeekableGrid::new(&self.records, config, sizes, self.config.get_colors()).to_string(
            self.alloc,
        )
    }

    // The sizes that are drawn under these settings, where the table fits them.
    pub(super) fn fitting_sizes(&self, config: &SpannedConfig) -> Result<CompleteDimension, Fault>
        ensures sizes { IfOk result (λ sizes. sizes ≡ drawn_sizes (state_under R.rows self.now config.now)) }
        ensures table { FitsOrFails (state_under R.rows self.now config.now) result }
        ensures positive { ArePositive config.now.spans }
    {
        if !config.spans_are_good(self.count_rows(), self.count_columns()) {
            return Err(Fault::Spans);
        }
        let sizes = self.drawn_sizes(config)?;
        self.check_sizes(config, &sizes)?;
        Ok(sizes)
    }

    // Whether the table fits the sizes in which it is drawn under these settings, whose spans are good. Each cell
    // fits in the least widths, so that under these no cell is measured.
    fn check_sizes(&self, config: &SpannedConfig, sizes: &CompleteDimension) -> Result<(), Fault>
        requires positive { ArePositive config.now.spans }
        requires good { let rows = (table_state R.rows self.now).rows in AreGood config.now.spans (length rows) (column_count rows) }
        requires drawn { sizes.now ≡ drawn_sizes (state_under R.rows self.now config.now) }
        ensures { IsFitsAnswer (state_under R.rows self.now config.now) result }
    {
        if self.dimension.get_widths().is_some() {
            return fits(&self.records, config, sizes);
        }
        let (rows, columns) = (self.count_rows(), self.count_columns());
        if are_in_range(config, sizes, rows, columns) {
            Ok(())
        } else {
            Err(Fault::Range)
        }
    }

    // The sizes that are kept, and the least in place of the others.
    fn drawn_sizes(&self, config: &SpannedConfig) -> Result<CompleteDimension, Fault>
        ensures sizes { IfOk result (λ sizes. sizes ≡ drawn_sizes (state_under R.rows self.now config.now)) }
        ensures refused { IfErr result (λ fault. IsRefusal fault (¬ (InRange (drawn_frame (state_under R.rows self.now config.now))))) }
    {
        let mut sizes = self.dimension.clone(self.alloc)?;
        self.records.complete_sizes(self.alloc, config, &mut sizes)?;
        Ok(sizes)
    }
}

// Whether the columns of a line and the lines of a table of `rows` rows and `columns` columns are at most
// `usize::MAX`. Without rows or columns there are none.
fn are_in_range(
    config: &SpannedConfig,
    sizes: &CompleteDimension,
    rows: usize,
    columns: usize,
) -> bool
    ensures { IsTrue result ↔ InRange (sized_frame config.now (given_size (stored_sizes sizes.now.widths)) (given_size (stored_sizes sizes.now.heights)) columns rows) }
{
    if rows == 0 || columns == 0 {
        return true;
    }
    full_line_width(config, sizes, columns).is_some() && total_height(config, sizes, rows).is_some()
}
