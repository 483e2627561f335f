//! The rows of a table of which a picture is made.
ghost use Rattle.std.specs.Prelude.{◌≡◌, false};
ghost use Rattle.tabled_text.specs.Rows.{filled};
ghost use Rattle.basinmug_run.specs.Picture.TableRows.{even_texts};

use basinmug_cells::{EvenRows, Rows};
use grid_config::{Fault, Position, SpannedConfig};
use grid_records_estimate::Estimate;
use grid_records_traits::{
    ExactRecords, PeekableRecords, RecordColumns, RecordTexts, SingleLineCell, SingleLineRow,
};
use std::alloc::{AllocError, Global};
use std::borrow::CowStr;
use tabled::TableRecords;
use tabled_size::CompleteDimension;

/// The rows of a table, each as long as the longest, as `EvenRows` has them.
#[derive(Drop)]
pub(crate) struct TableRows<'a> {
    rows: EvenRows<'a>,
}

impl<'a> TableRows<'a> {
    /// These rows, as a table has them. Does not allocate.
    pub(crate) fn new(rows: Rows<'a>) -> TableRows<'a>
        ensures { even_texts result ≡ filled rows.entry.rows }
    {
        TableRows {
            rows: EvenRows::new(rows),
        }
    }

    /// The rows themselves, of any lengths. Does not allocate.
    pub(crate) fn into_rows(self) -> Rows<'a>
        ensures { filled result.rows ≡ even_texts self.entry }
    {
        self.rows.into_rows()
    }
}

impl<'a> RecordTexts for TableRows<'a> {
    ghost use Rattle.basinmug_run.specs.Picture.TableRows.{even_texts};

    ghost rows = { even_texts };

    ghost can_fail = { λ _. false };
}

impl<'a> RecordColumns for TableRows<'a> {
    ghost columns = { λ rows. rows.rows.columns };

    #[inline]
    fn count_columns(&self) -> usize {
        self.rows.count_columns()
    }
}

impl<'a> ExactRecords for TableRows<'a> {
    #[inline]
    fn count_rows(&self) -> usize {
        self.rows.count_rows()
    }
}

/// Passes each request on, so that what is known of a text is not found again.
impl<'a> PeekableRecords for TableRows<'a> {
    #[inline]
    fn get_text(&self, pos: Position) -> &str {
        self.rows.get_text(pos)
    }

    fn get_line(
        &self,
        alloc: Global,
        pos: Position,
        line: usize,
    ) -> Result<CowStr<'_>, AllocError> {
        self.rows.get_line(alloc, pos, line)
    }

    #[inline]
    fn count_lines(&self, pos: Position) -> usize {
        self.rows.count_lines(pos)
    }

    #[inline]
    fn get_width(&self, pos: Position) -> usize {
        self.rows.get_width(pos)
    }

    fn get_line_width(&self, pos: Position, line: usize) -> usize {
        self.rows.get_line_width(pos, line)
    }

    #[inline]
    fn single_line_cell(&self, pos: Position) -> Option<SingleLineCell<'_>> {
        self.rows.single_line_cell(pos)
    }

    #[inline]
    fn single_line_row(&self, row: usize) -> Option<SingleLineRow<'_>> {
        self.rows.single_line_row(row)
    }
}

impl<'a> TableRecords for TableRows<'a> {
    ghost use Rattle.std.proofs.Common.{◌∙◌};
    ghost use Rattle.basinmug_run.specs.Picture.EvenRows.{columns_even};

    ghost counted = { λ records. records.rows.longest ∙ columns_even records.rows.rows.rows };

    fn complete_sizes(
        &self,
        alloc: Global,
        cfg: &SpannedConfig,
        sizes: &mut CompleteDimension,
    ) -> Result<(), Fault> {
        sizes.estimate(alloc, &self.rows, cfg)
    }
}
